// A slip as changes indexed by pair, and such changes as a slip.
ghost use Rattle.std.specs.Prelude.{◌≡◌, false, ◌≤◌, replicate};
ghost use Rattle.model.specs.Result.{changes_slip};
ghost use Rattle.laws.specs.Limits.{slot_limit, row};
ghost use Rattle.table.specs.inner.Flat.{set_of, add_pairs, pair_places};
ghost use Rattle.cards.specs.Cards.{changes_of, slip_of};
ghost use Rattle.cards.specs.inner.Fitting.{SlipFits};

use cards::{Change, Slip};
use results::ending::changed_value;
use table::{PAIRS, SLOTS};

// The changes of a slip, a flag for each pair.
pub fn flags_of(slip: Slip) -> [bool; PAIRS]
    requires { SlipFits slip }
    ensures { result ≡ add_pairs (changes_of slip) (replicate pair_places false) }
{
    let mut flags: [bool; PAIRS] = [false; PAIRS];
    for j in 0..slip.count {
        let change = slip.changes[j];
        let at = table::place(change.slot, change.value);
        flags[at] = true;
    }
    flags
}

// The changes as a slip: the slots that have a value in them, rising, each with that value.
pub fn slip_of(changes: &[bool; PAIRS], width: usize) -> Slip
    requires { width ≤ slot_limit }
    ensures { result ≡ slip_of (changes_slip width row (set_of changes.now)) }
{
    let none = Change { slot: 0, value: 0 };
    let mut listed: [Change; SLOTS] = [none; SLOTS];
    let mut count: usize = 0;
    for s in 0..width {
        if let Some(v) = changed_value(changes, s) {
            listed[count] = Change {
                slot: s as u8,
                value: v as u8,
            };
            count += 1;
        }
    }
    Slip {
        changes: listed,
        count,
    }
}
