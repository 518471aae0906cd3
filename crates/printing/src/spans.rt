// The spans of the names of a table's slots and values, as the reading had them.
ghost use Rattle.std.specs.Prelude.{◌≡◌, List, map, replicate};
ghost use Rattle.grammar.specs.Files as files;
ghost use Rattle.laws.specs.Limits.{slot_limit};
ghost use Rattle.table.specs.inner.Flat.{pair_places};
ghost use Rattle.lines.specs.inner.Index.{Indexed};
ghost use Rattle.printing.specs.inner.Tabled.{span_of, SmallName, SmallNames, Tabled};

use lines::enter;
use steps::lookup::{KEYED, key_of};
use table::{Name, PAIRS, SLOTS, Slot, Table, VALUES};

// The span of a name.
fn span_of(text: &[u8], n: Name) -> usize
    requires { SmallName text.now n }
    ensures { result ≡ span_of text.now n }
{
    let start = n.start as usize;
    let size = n.size as usize;
    let end = start + size;
    let key = key_of(&text[start..end]);
    key * KEYED + start * 32 + size
}

// The spans of a slot's names of values, used or not. (By `map` of the array its closure's calls stay to be proved; the loop needs no proof.)
fn spans_of(text: &[u8], s: Slot) -> [usize; VALUES]
    requires { SmallNames text.now s.values }
    ensures { result ≡ map (span_of text.now) s.values }
{
    let mut spans: [usize; VALUES] = [0; VALUES];
    for i in 0..VALUES {
        spans[i] = span_of(text, s.values[i]);
    }
    spans
}

// Enters the spans of a table's slots into arrays of zeros.
pub fn enter_slots(
    text: &[u8],
    t: Table,
    slotspans: &mut [usize; SLOTS],
    valuespans: &mut [usize; PAIRS],
)
    requires { (slotspans.old ≡ replicate slot_limit 0) × (valuespans.old ≡ replicate pair_places 0) × ((slots : List files.Slot) × Tabled text.now slots t) }
    ensures { (slots : List files.Slot) → Tabled text.now slots t → Indexed text.now slots slotspans.new valuespans.new }
{
    let width = t.width as usize;
    for i in 0..width {
        let s = t.slots[i];
        let spans = spans_of(text, s);
        enter(slotspans, valuespans, i, span_of(text, s.name), spans);
    }
}
