// Where names stand in the text, for callers that take a start and a size: 31 where the table lacks the slot or the value, or puts its name outside the text.
ghost use Rattle.std.specs.Prelude.{◌≡◌};
ghost use Rattle.names.specs.Names.{show_name, show_slot, show_value_of, show_value};
ghost use Rattle.library.specs.Results.{name_numbers};
ghost use Rattle.library.specs.inner.Places.{place_numbers};

use refusals::Refusal;
use table::{Name, Slot, Table};

// A stretch of the text: from which byte on, and how many.
#[derive(Clone, Copy)]
pub struct Place {
    pub start: usize,
    pub size: usize,
}

// Where a name stands.
fn name_place(text: &[u8], name: Name) -> Result<Place, Refusal>
    ensures { place_numbers result ≡ name_numbers (show_name text.now name) }
{
    let part = names::stretch(text, name).ok_or(Refusal::UnsoundTable)?;
    Ok(Place {
        start: name.start as usize,
        size: part.len(),
    })
}

// Where the name of a value of this slot stands, values counted from 1.
fn place_of_value(text: &[u8], s: Slot, value: usize) -> Result<Place, Refusal>
    ensures { place_numbers result ≡ name_numbers (show_value_of text.now s value) }
{
    if !names::has_value(s.count as usize, value) {
        return Err(Refusal::UnsoundTable);
    }
    name_place(text, s.values[value - 1])
}

// Where a slot's name stands.
pub fn slot_place(text: &[u8], t: &Table, slot: usize) -> Result<Place, Refusal>
    ensures { place_numbers result ≡ name_numbers (show_slot text.now t.now slot) }
{
    if !names::has_slot(t.width as usize, slot) {
        return Err(Refusal::UnsoundTable);
    }
    name_place(text, t.slots[slot].name)
}

// Where the name of a value of a slot stands, values counted from 1.
pub fn value_place(text: &[u8], t: &Table, slot: usize, value: usize) -> Result<Place, Refusal>
    ensures { place_numbers result ≡ name_numbers (show_value text.now t.now slot value) }
{
    if !names::has_slot(t.width as usize, slot) {
        return Err(Refusal::UnsoundTable);
    }
    place_of_value(text, t.slots[slot], value)
}
