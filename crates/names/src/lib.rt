// Names shown as parts of the caller's text: document 01, 'Rule text'.
#![tactic(auto)]

ghost use Rattle.std.specs.Prelude.{◌≡◌};
ghost use Rattle.names.specs.Names.{IsShown, has_slot, has_value, show_name, show_slot, show_value_of, show_value};

use table::{Name, SLOTS, Slot, Table, VALUES};

// The part of the text where a name stands; none where it stands outside the text.
pub fn stretch<'a>(text: &'a [u8], name: Name) -> Option<&'a [u8]>
    ensures { IsShown text.entry.ref_ptr (show_name text.now name) result }
{
    let start = name.start as usize;
    let size = name.size as usize;
    let length = text.len();
    if start <= length && size <= length - start {
        return Some(&text[start..start + size]);
    }
    None
}

// Whether a table with so many slots has this one; a number above the limit gives it no more than the limit.
pub fn has_slot(width: usize, slot: usize) -> bool
    ensures { result ≡ has_slot width slot }
{
    slot < SLOTS && slot < width
}

// Whether a slot with so many declared values has this one, counted from 1; a number above the limit gives it no more than the limit.
pub fn has_value(count: usize, value: usize) -> bool
    ensures { result ≡ has_value count value }
{
    1 <= value && value <= VALUES && value <= count
}

// A slot's name: the very stretch of the text where it was declared; none where the table lacks the slot.
pub fn slot_name<'a>(text: &'a [u8], t: Table, slot: usize) -> Option<&'a [u8]>
    ensures { IsShown text.entry.ref_ptr (show_slot text.now t slot) result }
{
    if !has_slot(t.width as usize, slot) {
        return None;
    }
    stretch(text, t.slots[slot].name)
}

// The name of a value of this slot, values counted from 1; none where the slot lacks it.
pub fn value_of<'a>(text: &'a [u8], s: Slot, value: usize) -> Option<&'a [u8]>
    ensures { IsShown text.entry.ref_ptr (show_value_of text.now s value) result }
{
    if !has_value(s.count as usize, value) {
        return None;
    }
    stretch(text, s.values[value - 1])
}

// A value's name, values counted from 1: the very stretch of the text where it was declared; none where the table lacks the slot or the value.
pub fn value_name<'a>(text: &'a [u8], t: Table, slot: usize, value: usize) -> Option<&'a [u8]>
    ensures { IsShown text.entry.ref_ptr (show_value text.now t slot value) result }
{
    if !has_slot(t.width as usize, slot) {
        return None;
    }
    value_of(text, t.slots[slot], value)
}
