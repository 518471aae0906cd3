// What is worked out of the changes, indexed by pair: the lowest slot in conflict, whether a slot is changed, its new value, the new card. NONE, value 0, is a value of theirs like any other.
ghost use Rattle.std.specs.Prelude.{◌≡◌, ◌≤◌, ◌<◌, MatchOption};
ghost use Rattle.model.specs.Result.{value_in, is_changed, conflict_slot};
ghost use Rattle.laws.specs.Limits.{slot_limit, row};
ghost use Rattle.table.specs.inner.Flat.{set_of};
ghost use Rattle.results.specs.inner.Ending.{new_places};

use table::{PAIRS, ROW, SLOTS};

// The lowest slot with two values or more in the changes.
pub fn conflict_slot(changes: &[bool; PAIRS], width: usize) -> Option<usize>
    requires { width ≤ slot_limit }
    ensures { MatchOption result (width ≡ conflict_slot width row (set_of changes.now)) (λ s. (s < width) × (s ≡ conflict_slot width row (set_of changes.now))) }
{
    'slots: for s in 0..width {
        let base = s * ROW;
        let mut count: usize = 0;
        'values: for v in 0..ROW {
            if changes[base + v] {
                count += 1;
            }
        }
        if 2 <= count {
            return Some(s);
        }
    }
    None
}

// Whether the changes have a value for a slot. All sixteen are looked at together: to stop at the first takes longer, and so does `contains`.
pub fn is_changed(changes: &[bool; PAIRS], slot: usize) -> bool
    requires { slot < slot_limit }
    ensures { result ≡ is_changed row (set_of changes.now) slot }
{
    let base = slot * ROW;
    let mut found = false;
    for v in 0..ROW {
        found |= changes[base + v];
    }
    found
}

// The lowest value that the changes have for a slot.
pub fn changed_value(changes: &[bool; PAIRS], slot: usize) -> Option<usize>
    requires { slot < slot_limit }
    ensures { MatchOption result (row ≡ value_in row (set_of changes.now) slot) (λ v. (v < row) × (v ≡ value_in row (set_of changes.now) slot)) }
{
    let base = slot * ROW;
    for lowest in 0..ROW {
        if changes[base + lowest] {
            return Some(lowest);
        }
    }
    None
}

// The new card: the changes' value where they have one, NONE leaving no value, else the card's; no value in the places not used.
pub fn new_values(card: &[u8; SLOTS], changes: &[bool; PAIRS], width: usize) -> [u8; SLOTS]
    requires { width ≤ slot_limit }
    ensures { result ≡ new_places width changes.now card.now }
{
    let mut values: [u8; SLOTS] = [0; SLOTS];
    for s in 0..width {
        values[s] = match changed_value(changes, s) {
            Some(v) => v as u8,
            None => card[s],
        };
    }
    values
}
