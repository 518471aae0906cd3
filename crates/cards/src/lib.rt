// Cards and slips, unpacked: document 01, 'Cards and slips'.
#![tactic(auto)]

ghost use Rattle.std.specs.Prelude.{◌≡◌};
ghost use Rattle.model.specs.Result.{pair};
ghost use Rattle.cards.specs.Forms.{change_fault};
ghost use Rattle.cards.specs.inner.Fitting.{change_number_of};

use refusals::ChangeFault;
use table::SLOTS;

pub mod fields;

// An unpacked card: a value for each slot, 0 for no value, and how many slots it counts.
#[repr(C)]
#[derive(Clone, Copy)]
pub struct Card {
    pub values: [u8; SLOTS],
    pub count: usize,
}

// A change of a slot to a value, 0 for NONE.
#[repr(C)]
#[derive(Clone, Copy)]
pub struct Change {
    pub slot: u8,
    pub value: u8,
}

// An unpacked slip: its changes, and how many it counts.
#[repr(C)]
#[derive(Clone, Copy)]
pub struct Slip {
    pub changes: [Change; SLOTS],
    pub count: usize,
}

// The fault of a change: its slot is not one of those counted, it is below `low`, or its value is above the slot's last.
pub fn change_fault(
    slot: usize,
    value: usize,
    low: usize,
    counts: &[usize],
) -> Result<(), ChangeFault>
    ensures { change_number_of result ≡ change_fault counts.now low (pair slot value) }
{
    if counts.len() <= slot {
        return Err(ChangeFault::UnknownSlot);
    }
    if slot < low {
        return Err(ChangeFault::NotRising);
    }
    let last = counts[slot];
    if last < value {
        return Err(ChangeFault::UnknownValue);
    }
    Ok(())
}
