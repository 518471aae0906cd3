// Any card or slip packed: refusals 31, 21 and 22 or 24 to 27, then 30.
#![tactic(auto)]

pub mod pack;

ghost use Rattle.std.specs.Prelude.{◌≡◌, ◌≤◌, List, ℕ, length};
ghost use Rattle.table.specs.Link.{value_counts};
ghost use Rattle.laws.specs.Answers.{OrRefused, output_of};
ghost use Rattle.laws.specs.Limits.{rule_limit};
ghost use Rattle.cards.specs.Forms.{write_card, write_slip};
ghost use Rattle.cards.specs.Cards.{card_values, changes_of, if_sound, packed_card, packed_slip, packing_of, packing_said};
ghost use Rattle.cards.specs.inner.Fitting.{Slots};

use cards::fields::bytes_for;
use cards::{Card, Slip};
use pack::{check_card, check_slip};
use refusals::{Output, Refusal};
use rows::{FEW, SOME};
use table::{RULES, SLOTS, Table};

// Packs an unpacked card by how many values each slot has: 21, 22 and 30 with 1.
fn pack_card_by(counts: &[usize], c: Card, out: &mut [u8]) -> Result<usize, Refusal>
    requires { Slots counts.now }
    ensures { (packing_said result ≡ packing_of (write_card counts.now (card_values c) (length out.old)))
        × (out.new ≡ output_of (write_card counts.now (card_values c) (length out.old)) out.old) }
{
    check_card(c, counts)?;
    if out.len() < bytes_for(6 + 4 * c.count) {
        return Err(Refusal::NoRoom(Output::Card));
    }
    Ok(pack::write_card(c, out))
}

// Packs an unpacked slip in the same manner: 24 (over 32 changes), 25 to 27 and 30 with 2.
fn pack_slip_by(counts: &[usize], s: Slip, out: &mut [u8]) -> Result<usize, Refusal>
    requires { Slots counts.now }
    ensures { (packing_said result ≡ packing_of (write_slip counts.now (changes_of s) (length out.old)))
        × (out.new ≡ output_of (write_slip counts.now (changes_of s) (length out.old)) out.old) }
{
    if SLOTS < s.count {
        return Err(Refusal::SlipSize);
    }
    check_slip(s, counts)?;
    if out.len() < bytes_for(6 + 9 * s.count) {
        return Err(Refusal::NoRoom(Output::Changes));
    }
    Ok(pack::write_slip(s, out))
}

// What is packed, a card or a slip.
trait Form: Copy {
    // What packing it by how many values each slot has into so much room comes to.
    ghost packed: { List ℕ → Self → ℕ → OrRefused (List ℕ) };

    fn pack_by(self, counts: &[usize], out: &mut [u8]) -> Result<usize, Refusal>
        requires { Slots counts.now }
        ensures { (packing_said result ≡ packing_of (packed counts.now self (length out.old))) × (out.new ≡ output_of (packed counts.now self (length out.old)) out.old) };
}

impl Form for Card {
    ghost packed = { λ counts c room. write_card counts (card_values c) room };

    fn pack_by(self, counts: &[usize], out: &mut [u8]) -> Result<usize, Refusal> {
        pack_card_by(counts, self, out)
    }
}

impl Form for Slip {
    ghost packed = { λ counts s room. write_slip counts (changes_of s) room };

    fn pack_by(self, counts: &[usize], out: &mut [u8]) -> Result<usize, Refusal> {
        pack_slip_by(counts, self, out)
    }
}

// Packs with room for N rules set aside: 31 before all else.
fn pack_in<F: Form, const N: usize>(t: &Table, form: F, out: &mut [u8]) -> Result<usize, Refusal>
    requires { (t.now.count ≤ rule_limit → t.now.count ≤ N) × (N ≤ rule_limit) }
    ensures { (packing_said result ≡ packing_of (if_sound t.now (F.packed (value_counts t.now) form (length out.old))))
        × (out.new ≡ output_of (if_sound t.now (F.packed (value_counts t.now) form (length out.old))) out.old) }
{
    let mut counts: [usize; SLOTS] = [0; SLOTS];
    let mut rows = rows::room::<N>();
    let Some(entry) = soundness::admit(t, &mut counts, &mut rows) else {
        return Err(Refusal::UnsoundTable);
    };
    form.pack_by(&counts[..entry.width], out)
}

// Packs any form.
fn pack_form<F: Form>(t: &Table, form: F, out: &mut [u8]) -> Result<usize, Refusal>
    ensures { (packing_said result ≡ packing_of (if_sound t.now (F.packed (value_counts t.now) form (length out.old))))
        × (out.new ≡ output_of (if_sound t.now (F.packed (value_counts t.now) form (length out.old))) out.old) }
{
    let n = t.count as usize;
    if n <= FEW {
        return pack_in::<F, FEW>(t, form, out);
    }
    if n <= SOME {
        return pack_in::<F, SOME>(t, form, out);
    }
    pack_in::<F, RULES>(t, form, out)
}

// Packs any unpacked card: 31, then 21, 22 and 30 with 1. A refusal leaves all of the output.
pub fn pack_card(t: Table, c: Card, out: &mut [u8]) -> Result<usize, Refusal>
    ensures { (packing_said result ≡ packing_of (packed_card t c (length out.old))) × (out.new ≡ output_of (packed_card t c (length out.old)) out.old) }
{
    pack_form(&t, c, out)
}

// Packs any unpacked slip: 31, then 24 (over 32 changes), 25 to 27 and 30 with 2. A refusal leaves all of the output.
pub fn pack_slip(t: Table, s: Slip, out: &mut [u8]) -> Result<usize, Refusal>
    ensures { (packing_said result ≡ packing_of (packed_slip t s (length out.old))) × (out.new ≡ output_of (packed_slip t s (length out.old)) out.old) }
{
    pack_form(&t, s, out)
}
