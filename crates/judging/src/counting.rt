// How many assignments to each pair are left: those of the rules that have not been found False.
ghost use Rattle.std.specs.Prelude.{◌≡◌, ℕ, ◌+◌, ◌≤◌, ◌<◌, length, get_or};
ghost use Rattle.table.specs.Link.{assignments_of};
ghost use Rattle.table.specs.inner.Flat.{pair_places};
ghost use Rattle.rows.specs.inner.Rows.{rule_in};
ghost use Rattle.judging.specs.inner.Times.{times};

use rows::RuleRow;
use table::PAIRS;

// The assignments of a rule are counted.
pub fn count_assigned(row: &RuleRow, live: &mut [u16; PAIRS])
    requires { (length live.old ≡ pair_places) × ((q : ℕ) → get_or live.old q 0 < 65000) }
    ensures { (length live.new ≡ pair_places)
        × ((q : ℕ) → q < pair_places → get_or live.new q 0 ≡ get_or live.old q 0 + times q (assignments_of (rule_in row.now.numbers))) }
{
    for k in 0..row.assigned() {
        let p = rows::place(row.assignment(k));
        live[p] += 1;
    }
}

// The assignments of a rule are taken out.
pub fn release(row: &RuleRow, live: &mut [u16; PAIRS])
    requires { (length live.old ≡ pair_places) × ((q : ℕ) → q < pair_places → times q (assignments_of (rule_in row.now.numbers)) ≤ get_or live.old q 0) }
    ensures { (length live.new ≡ pair_places)
        × ((q : ℕ) → q < pair_places → get_or live.new q 0 + times q (assignments_of (rule_in row.now.numbers)) ≡ get_or live.old q 0) }
{
    for k in 0..row.assigned() {
        let p = rows::place(row.assignment(k));
        live[p] -= 1;
    }
}
