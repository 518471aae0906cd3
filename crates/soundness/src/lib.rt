// The test of a table (31).
#![tactic(auto)]

pub mod places;
mod right;

ghost use Rattle.std.specs.Prelude.{◌≡◌, ◌≤◌, length, drop};
ghost use Rattle.laws.specs.Limits.{slot_limit, rule_limit};
ghost use Rattle.rows.specs.inner.RuleRows.{rows_table};
ghost use Rattle.soundness.specs.Sound.{well_formed, sound, stratum_0, strata_right};
ghost use Rattle.soundness.specs.inner.Admitted.{EntersIn};

use crate::places::RowPlace;
use rows::{FEW, RuleRow, SOME};
use table::{RULES, SLOTS, Table, VALUES, Way};

// How many slots and rules a table has that passed: who calls goes by these and looks at the table no more.
#[derive(Clone, Copy)]
pub struct Entry {
    pub width: usize,
    pub count: usize,
}

// The test of a table without its strata: what passes is entered, its rules into their rows, or arrays, and how many values each slot has into the counts; places beyond the rules stay as they were.
pub fn enter<P: RowPlace>(t: &Table, counts: &mut [usize; SLOTS], rows: &mut [P]) -> Option<Entry>
    requires { (t.now.count ≤ rule_limit → t.now.count ≤ length rows.old) × (length counts.old ≡ slot_limit) }
    ensures entered { EntersIn P.numbers t.now (well_formed t.now) result counts.new rows.new }
    ensures beyond { drop t.now.count rows.new ≡ drop t.now.count rows.old }
{
    let width = t.width as usize;
    if SLOTS < width {
        return None;
    }
    'slots: for k in 0..width {
        let count = usize::from(t.slots[k].count);
        if count < 1 || VALUES < count {
            return None;
        }
        counts[k] = count;
    }
    let n = t.count as usize;
    if RULES < n {
        return None;
    }
    'rules: for i in 0..n {
        let r = t.rules[i];
        if !right::is_right(r, &counts[..width]) {
            return None;
        }
        rows[i].put(RuleRow::of(r));
    }
    Some(Entry { width, count: n })
}

// The same test where nothing is kept.
pub fn is_well_formed(t: Table) -> bool
    ensures { result ≡ well_formed t }
{
    let n = t.count as usize;
    if n <= FEW {
        return is_well_formed_in::<FEW>(&t);
    }
    if n <= SOME {
        return is_well_formed_in::<SOME>(&t);
    }
    is_well_formed_in::<RULES>(&t)
}

// The same with room for N rules set aside.
fn is_well_formed_in<const N: usize>(t: &Table) -> bool
    requires { (t.now.count ≤ rule_limit → t.now.count ≤ N) × (N ≤ rule_limit) }
    ensures { result ≡ well_formed t.now }
{
    let mut counts: [usize; SLOTS] = [0; SLOTS];
    enter(t, &mut counts, &mut rows::room::<N>()).is_some()
}

// The test of a table: well-formed, and it carries the least strata; what passes is entered.
pub fn admit<P: RowPlace>(t: &Table, counts: &mut [usize; SLOTS], rows: &mut [P]) -> Option<Entry>
    requires { (t.now.count ≤ rule_limit → t.now.count ≤ length rows.old) × (length counts.old ≡ slot_limit) }
    ensures entered { EntersIn P.numbers t.now (sound t.now) result counts.new rows.new }
    ensures beyond { drop t.now.count rows.new ≡ drop t.now.count rows.old }
{
    let entry = enter(t, counts, rows)?;
    if P::are_least(&rows[..entry.count]) {
        Some(entry)
    } else {
        None
    }
}

// The same test where nothing is kept. Beside `is_well_formed`: one body for both would be told by a flag which test it makes.
pub fn is_sound(t: Table) -> bool
    ensures { result ≡ sound t }
{
    let n = t.count as usize;
    if n <= FEW {
        return is_sound_in::<FEW>(&t);
    }
    if n <= SOME {
        return is_sound_in::<SOME>(&t);
    }
    is_sound_in::<RULES>(&t)
}

// The same with room for N rules set aside.
fn is_sound_in<const N: usize>(t: &Table) -> bool
    requires { (t.now.count ≤ rule_limit → t.now.count ≤ N) × (N ≤ rule_limit) }
    ensures { result ≡ sound t.now }
{
    let mut counts: [usize; SLOTS] = [0; SLOTS];
    admit(t, &mut counts, &mut rows::room::<N>()).is_some()
}

// Whether rows carry stratum 0 throughout.
fn is_stratum_0(rows: &[RuleRow]) -> bool
    requires { length rows.now ≤ rule_limit }
    ensures { result ≡ stratum_0 (rows_table rows.now) }
{
    for row in rows {
        if 0 < row.stratum() {
            return false;
        }
    }
    true
}

// The test of the strata that rows carry, by the response asked: stratum 0 throughout is looked for first, which costs less.
pub fn strata_right(rows: &[RuleRow], way: Way) -> bool
    requires { length rows.now ≤ rule_limit }
    ensures { result ≡ strata_right way (rows_table rows.now) }
{
    if let Way::Marks = way {
        if is_stratum_0(rows) {
            return true;
        }
    }
    leastness::is_least(rows)
}
