// Testing and packing by the number of slots and how many values each has. These are not entry points: the table was tested before.
ghost use Rattle.std.specs.Prelude.{◌≡◌, ◌++◌, ◌≤◌, length, drop};
ghost use Rattle.laws.specs.Packed.{byte_count};
ghost use Rattle.laws.specs.Limits.{slot_limit};
ghost use Rattle.cards.specs.Forms.{card_bits, slip_bits, card_test, slip_test, card_bytes, slip_bytes};
ghost use Rattle.cards.specs.Cards.{card_values, changes_of};
ghost use Rattle.cards.specs.inner.Fitting.{verdict_of, CardFits, SlipFits};

use cards::fields::{bytes_for, put_field};
use cards::{Card, Slip, change_fault};
use refusals::Refusal;

// The tests of an unpacked card: 21, 22.
pub fn check_card(c: Card, counts: &[usize]) -> Result<(), Refusal>
    requires { length counts.now ≤ slot_limit }
    ensures { verdict_of result ≡ card_test counts.now (card_values c) }
{
    if c.count != counts.len() {
        return Err(Refusal::CardCount);
    }
    for i in 0..c.count {
        let last = counts[i];
        if last < usize::from(c.values[i]) {
            return Err(Refusal::CardValue(i));
        }
    }
    Ok(())
}

// The tests of the changes of an unpacked slip: 25 to 27.
pub fn check_slip(s: Slip, counts: &[usize]) -> Result<(), Refusal>
    requires { (length counts.now ≤ slot_limit) × (s.count ≤ slot_limit) }
    ensures { verdict_of result ≡ slip_test counts.now (changes_of s) }
{
    let mut low: usize = 0;
    for i in 0..s.count {
        let change = s.changes[i];
        let slot = usize::from(change.slot);
        match change_fault(slot, usize::from(change.value), low, counts) {
            Ok(()) => low = slot + 1,
            Err(fault) => return Err(Refusal::Change(fault, i)),
        }
    }
    Ok(())
}

// A card's bytes at the front of an output with room for them; says how many.
pub fn write_card(c: Card, out: &mut [u8]) -> usize
    requires { CardFits c × (byte_count (card_bits c.count) ≤ length out.old) }
    ensures { (result ≡ byte_count (card_bits c.count)) × (out.new ≡ card_bytes (card_values c) ++ drop (byte_count (card_bits c.count)) out.old) }
{
    let n = c.count;
    put_field(out, 0, 6, n);
    for i in 0..n {
        let v = c.values[i];
        put_field(out, 6 + 4 * i, 4, usize::from(v));
    }
    bytes_for(6 + 4 * n)
}

// A slip's bytes, in the same manner; one body for both would need a list of fields made first.
pub fn write_slip(s: Slip, out: &mut [u8]) -> usize
    requires { SlipFits s × (byte_count (slip_bits s.count) ≤ length out.old) }
    ensures { (result ≡ byte_count (slip_bits s.count)) × (out.new ≡ slip_bytes (changes_of s) ++ drop (byte_count (slip_bits s.count)) out.old) }
{
    let m = s.count;
    put_field(out, 0, 6, m);
    for i in 0..m {
        let change = s.changes[i];
        put_field(out, 6 + 9 * i, 5, usize::from(change.slot));
        put_field(out, 11 + 9 * i, 4, usize::from(change.value));
    }
    bytes_for(6 + 9 * m)
}
