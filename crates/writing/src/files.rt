// Slot lines, and a whole file: the lines of its slots, then of its rules.
ghost use Rattle.std.specs.Prelude.{◌+◌, ◌≤◌, ◌<◌, length};
ghost use Rattle.laws.specs.Quoted.{bytes};
ghost use Rattle.laws.specs.Limits.{slot_limit, value_limit};
ghost use Rattle.table.specs.inner.Fits.{TableFits};
ghost use Rattle.writing.specs.inner.Puts.{longest, Puts, PutsOn};
ghost use Rattle.writing.specs.inner.Written.{separated};
ghost use Rattle.writing.specs.inner.Spelled.{spelled_values, spelled_line, spelled_file, LinesFit};

use crate::sheet::Sheet;
use crate::spelling::Spelling;
use table::{ROW, Table};

impl Sheet<'_> {
    // Puts the names of a slot's values with commas between them.
    fn put_values(&mut self, spelling: Spelling, slot: usize, count: usize)
        requires { (slot < slot_limit) × (1 ≤ count) × (count ≤ value_limit) × (self.old.at + length (separated (bytes ", ") (spelled_values spelling.text.now spelling.valuespans.now slot count)) ≤ longest) }
        ensures { PutsOn self.old (separated (bytes ", ") (spelled_values spelling.entry.text.now spelling.entry.valuespans.now slot count)) self.new }
    {
        let first = slot * ROW + 1;
        self.put_name(spelling.text, spelling.valuespans[first]);
        for j in 1..count {
            self.put(b", ");
            self.put_name(spelling.text, spelling.valuespans[first + j]);
        }
    }

    // Puts the line of a slot.
    #[tactic(auto, using(crate::proofs::Putting::room_first, crate::proofs::Putting::room_rest), unfolding(crate::specs::inner::Written::line_bytes, laws::specs::Quoted::bytes, laws::specs::Quoted::bytes_from))]
    fn put_line(&mut self, spelling: Spelling, slot: usize, count: usize)
        requires { (slot < slot_limit) × (1 ≤ count) × (count ≤ value_limit) × (self.old.at + length (spelled_line spelling.text.now spelling.slotspans.now spelling.valuespans.now slot count) ≤ longest) }
        ensures { PutsOn self.old (spelled_line spelling.entry.text.now spelling.entry.slotspans.now spelling.entry.valuespans.now slot count) self.new }
    {
        self.put(b"SLOT ");
        self.put_name(spelling.text, spelling.slotspans[slot]);
        self.put(b" { ");
        self.put_values(spelling, slot, count);
        self.put(b" };\n");
    }
}

// Puts the lines of a table at the front of the output; says how many bytes they are.
pub fn put_file(out: &mut [u8], spelling: Spelling, t: Table) -> usize
    requires { TableFits t × LinesFit t × (length (spelled_file spelling.text.now spelling.slotspans.now spelling.valuespans.now t) ≤ longest) }
    ensures { Puts out.old 0 (spelled_file spelling.entry.text.now spelling.entry.slotspans.now spelling.entry.valuespans.now t) out.new result }
{
    let mut sheet = Sheet { out, at: 0 };
    for i in 0..t.width as usize {
        sheet.put_line(spelling, i, t.slots[i].count as usize);
    }
    for j in 0..t.count as usize {
        sheet.put_rule(spelling, t.rules[j]);
    }
    sheet.at
}
