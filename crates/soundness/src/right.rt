// The test of one rule: a part of 31.
ghost use Rattle.std.specs.Prelude.{◌≡◌, length, map, ◌≤◌, drop};
ghost use Rattle.laws.specs.Truth.{◌∧ᵇ◌};
ghost use Rattle.laws.specs.Listed.{all_of};
ghost use Rattle.model.specs.Result.{pair};
ghost use Rattle.laws.specs.Limits.{literal_limit, assignment_limit};
ghost use Rattle.table.specs.Link.{literals_of, assignments_of};
ghost use Rattle.soundness.specs.Sound.{has_pair};
ghost use Rattle.soundness.specs.inner.Right.{rule_right};
ghost use Rattle.model.specs.Rules.{assigns, each_once};

use table::{ASSIGNMENTS, LITERALS, Rule, VALUES};

// Whether a table whose slots have so many values has a slot, and the value is NONE or one of that slot's.
fn has_pair(counts: &[usize], slot: u8, value: u8) -> bool
    ensures { result ≡ has_pair (length counts.now) counts.now (pair slot value) }
{
    let s = usize::from(slot);
    let v = usize::from(value);
    if !names::has_slot(counts.len(), s) {
        return false;
    }
    v <= VALUES && v <= counts[s]
}

// Whether it has the pairs of the literals used.
fn literals_right(r: Rule, counts: &[usize]) -> bool
    requires { r.tested ≤ literal_limit }
    ensures { result ≡ all_of (has_pair (length counts.now) counts.now) (map (λ l. l.pair) (literals_of r)) }
{
    let m = r.tested as usize;
    r.literals[..m]
        .iter()
        .all(|l| has_pair(counts, l.slot, l.value))
}

// Whether the slot is assigned at place k or later.
fn assigned_from(r: Rule, k: usize, slot: u8) -> bool
    requires { (r.assigned ≤ assignment_limit) × (k ≤ r.assigned) }
    ensures { result ≡ assigns (drop k (assignments_of r)) slot }
{
    let m = r.assigned as usize;
    r.assignments[k..m].iter().any(|a| a.slot == slot)
}

// Whether it has the pairs of the assignments used, and none of them assigns a slot that a later one assigns.
fn assignments_right(r: Rule, counts: &[usize]) -> bool
    requires { r.assigned ≤ assignment_limit }
    ensures { result ≡ (all_of (has_pair (length counts.now) counts.now) (assignments_of r) ∧ᵇ each_once (assignments_of r)) }
{
    let m = r.assigned as usize;
    for k in 0..m {
        let a = r.assignments[k];
        let slot = a.slot;
        let value = a.value;
        if !has_pair(counts, slot, value) {
            return false;
        }
        if assigned_from(r, k + 1, slot) {
            return false;
        }
    }
    true
}

// Whether a rule keeps to the limits, names only slots and values that the table has and NONE, and assigns no slot twice.
pub fn is_right(r: Rule, counts: &[usize]) -> bool
    ensures { result ≡ rule_right (length counts.now) counts.now r }
{
    let tested = r.tested as usize;
    let assigned = r.assigned as usize;
    tested <= LITERALS
        && assigned <= ASSIGNMENTS
        && has_pair(counts, r.slot, r.value)
        && literals_right(r, counts)
        && assignments_right(r, counts)
}
