// The lines of the changes: the names of slot and value, and NONE for value 0.
ghost use Rattle.std.specs.Prelude.{◌+◌, ◌≤◌, map, length};
ghost use Rattle.cards.specs.Forms.{changes_in};
ghost use Rattle.names.specs.Names.{show_value_of};
ghost use Rattle.writing.specs.inner.Puts.{longest, PutsOn};
ghost use Rattle.listing.specs.Listing.{value_listed, change_line};
ghost use Rattle.listing.specs.Printed.{change_text, changes_text};
ghost use Rattle.listing.specs.inner.AnswerLines.{slot_change, ChangesWhole};

use cards::fields::read_field;
use table::{Slot, Table};
use writing::sheet::Sheet;

// Puts a value of this slot: its name, or NONE for 0.
fn put_shown(sheet: &mut Sheet, text: &[u8], s: Slot, value: usize)
    requires { sheet.old.at + length (value_listed value (show_value_of text.now s value).part) ≤ longest }
    ensures { PutsOn sheet.old (value_listed value (show_value_of text.now s value).part) sheet.new }
{
    if value == 0 {
        sheet.put(b"NONE");
        return;
    }
    sheet.put(names::value_of(text, s, value).unwrap_or(&[]));
}

// Puts the line of a change of this slot.
#[tactic(auto, using(writing::proofs::Putting::room_first, writing::proofs::Putting::room_rest), unfolding(crate::specs::Printed::change_text, laws::specs::Quoted::bytes, laws::specs::Quoted::bytes_from))]
fn put_change(sheet: &mut Sheet, text: &[u8], s: Slot, value: usize)
    requires { sheet.old.at + length (change_text (slot_change text.now s value)) ≤ longest }
    ensures { PutsOn sheet.old (change_text (slot_change text.now s value)) sheet.new }
{
    sheet.put(b"change ");
    sheet.put(names::stretch(text, s.name).unwrap_or(&[]));
    sheet.put(b" ");
    put_shown(sheet, text, s, value);
    sheet.put(b"\n");
}

// Puts the lines of packed changes in their order.
pub fn put_changes(sheet: &mut Sheet, text: &[u8], t: Table, changes: &[u8])
    requires { ChangesWhole t.width changes.now × (sheet.old.at + length (changes_text (map (change_line text.now t) (changes_in changes.now))) ≤ longest) }
    ensures { PutsOn sheet.old (changes_text (map (change_line text.now t) (changes_in changes.now))) sheet.new }
{
    let m = read_field(changes, 0, 6);
    for i in 0..m {
        let slot = read_field(changes, 6 + 9 * i, 5);
        let value = read_field(changes, 11 + 9 * i, 4);
        put_change(sheet, text, t.slots[slot], value);
    }
}
