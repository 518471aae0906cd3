// The least strata of rules: numbers at the pairs, raised until nothing moves.
ghost use Rattle.std.specs.Prelude.{◌≡◌, ◌≤◌, ◌<◌, length, get_or, replicate};
ghost use Rattle.laws.specs.Limits.{rule_limit};
ghost use Rattle.model.specs.Strata.{weak};
ghost use Rattle.model.specs.Circles.{circle_of};
ghost use Rattle.table.specs.Link.{rule_of, rules_of, assignments_of};
ghost use Rattle.rows.specs.inner.Rows.{rule_in};
ghost use Rattle.rows.specs.inner.RuleRows.{rows_table};
ghost use Rattle.table.specs.Zero.{zero_rule};
ghost use Rattle.strata.specs.inner.Settled.{settled};
ghost use Rattle.strata.specs.inner.Heights.{asked_at, Small, Visited, raise_all, least_numbers};

use crate::order::{VISITS, order_of};
use rows::RuleRow;
use table::{PAIRS, RULES};

// The round before which a circle is looked for.
const SOUGHT: usize = 4;

// The least number that a rule can have where these numbers stand at the pairs: it stays level with a pair that it needs, and stands above one that it bars.
pub fn asked(row: &RuleRow, high: &[u16; PAIRS]) -> u16
    requires { Small high.now }
    ensures { result ≡ asked_at high.now (rule_of (rule_in row.now.numbers)) }
{
    let at = rows::place(row.trigger());
    let mut h = high[at].max(1);
    let m = row.tested();
    'literals: for j in 0..m {
        let x = row.literal(j);
        let p = rows::place(x);
        let z = high[p] + rows::above(x);
        let y: u16 = if rows::is_becomes(x) { z } else { 0 };
        h = h.max(y);
    }
    h
}

// The pairs that a rule assigns are raised to s.
pub fn raise(row: &RuleRow, s: u16, high: &mut [u16; PAIRS])
    ensures { high.new ≡ raise_all (assignments_of (rule_in row.now.numbers)) s high.old }
{
    let m = row.assigned();
    for k in 0..m {
        let at = rows::place(row.assignment(k));
        high[at] = high[at].max(s);
    }
}

// The rule at i raised to what it is asked, and with it the pairs that it assigns; whether that is more than it had. None where it would stand above the number of rules.
fn raise_rule(
    rows: &[RuleRow],
    i: usize,
    numbers: &mut [u16; RULES],
    high: &mut [u16; PAIRS],
) -> Option<bool>
    requires { (i < length rows.now) × (length rows.now ≤ rule_limit) × Small high.old }
    ensures { Visited (get_or (rows_table rows.now).rules i zero_rule) (length rows.now) i numbers.old high.old numbers.new high.new result }
{
    let row = &rows[i];
    let s = asked(row, high);
    if rows.len() < usize::from(s) {
        return None;
    }
    if s <= numbers[i] {
        return Some(false);
    }
    numbers[i] = s;
    raise(row, s, high);
    Some(true)
}

// The lowest rule on a circle through a NOT stands in the way of strata.
fn without_circle(rows: &[RuleRow]) -> Result<(), usize>
    requires { length rows.now ≤ rule_limit }
    ensures { result ≡ settled (circle_of weak (rules_of (rows_table rows.now))) }
{
    match circles::lowest(rows) {
        Some(rule) => Err(rule),
        None => Ok(()),
    }
}

// The least strata in `numbers`, that of rule 1 first; or the lowest rule on a circle through a NOT, from 1.
// Rounds visit the rules in a good order until one raises nothing. The order is a hint, so passes over all rules follow until one moves nothing; that the first is the last is not proved.
// Rounds and passes end: one that moves something raises the sum of the numbers, and a number that would pass the number of rules says that there is a circle.
// Rounds along a circle with a NOT would count up to that, so before the fourth a circle is looked for; this bounds the cost and decides nothing.
pub fn find(rows: &[RuleRow], numbers: &mut [u16; RULES]) -> Result<(), usize>
    requires { (length rows.now ≤ rule_limit) × (numbers.old ≡ replicate rule_limit 0) }
    ensures { (result ≡ settled (circle_of weak (rules_of (rows_table rows.now)))) × (circle_of weak (rules_of (rows_table rows.now)) ≡ 0 → numbers.new ≡ least_numbers (rows_table rows.now)) }
{
    let mut high: [u16; PAIRS] = [0; PAIRS];
    let mut order: [u16; VISITS] = [0; VISITS];
    let tail = order_of(rows, &mut order);
    let mut left = SOUGHT;
    let mut raised = true;
    // Rounds follow as long as one raises something: no range is known before.
    'rounds: while raised {
        if 0 < left {
            left -= 1;
            if left == 0 {
                without_circle(rows)?;
            }
        }
        raised = false;
        'visits: for k in 0..tail {
            match raise_rule(rows, usize::from(order[k]), numbers, &mut high) {
                Some(risen) => raised |= risen,
                None => return without_circle(rows),
            }
        }
    }
    let mut moved = true;
    // Passes follow as long as one moves something: no range is known before.
    'passes: while moved {
        moved = false;
        'rules: for i in 0..rows.len() {
            match raise_rule(rows, i, numbers, &mut high) {
                Some(risen) => moved |= risen,
                None => return without_circle(rows),
            }
        }
    }
    Ok(())
}
