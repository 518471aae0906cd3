// Any bytes unpacked as a card or as a slip: refusals 31, 20 to 28.
#![tactic(auto)]

pub mod unpack;

ghost use Rattle.std.specs.Prelude.{◌≡◌, ◌≤◌, Result, Err, List, ℕ, true, false, length};
ghost use Rattle.table.specs.Link.{value_counts};
ghost use Rattle.soundness.specs.Sound.{sound};
ghost use Rattle.laws.specs.Limits.{rule_limit, slot_limit};
ghost use Rattle.refusals.specs.declared.Refusal as refusals;
ghost use Rattle.refusals.specs.declared.Refusal.TheVariants as refusal;
ghost use Rattle.cards.specs.Forms.{read_card, read_slip};
ghost use Rattle.cards.specs.Cards.{unpacked_card, unpacked_slip, card_read, card_read_of, slip_read, slip_read_of};

use cards::{Card, Slip};
use refusals::Refusal;
use rows::{FEW, SOME};
use table::{RULES, SLOTS, Table};

// What bytes are unpacked as, a card or a slip.
trait Form {
    // What unpacking bytes by how many values each slot has comes to.
    ghost Reads: { List ℕ → List ℕ → Result Self refusals.Refusal → Type 0 };

    fn read(bytes: &[u8], counts: &[usize]) -> Result<Self, Refusal>
        requires { length counts.now ≤ slot_limit }
        ensures { Reads counts.now bytes.now result };
}

impl Form for Card {
    ghost Reads = { λ counts ys r. card_read_of r ≡ card_read (read_card counts ys) };

    fn read(bytes: &[u8], counts: &[usize]) -> Result<Card, Refusal> {
        unpack::read_card(bytes, counts)
    }
}

impl Form for Slip {
    ghost Reads = { λ counts ys r. slip_read_of r ≡ slip_read (read_slip counts ys) };

    fn read(bytes: &[u8], counts: &[usize]) -> Result<Slip, Refusal> {
        unpack::read_slip(bytes, counts)
    }
}

// Unpacks with room for N rules set aside: 31 before all else.
fn unpack_in<F: Form, const N: usize>(t: &Table, bytes: &[u8]) -> Result<F, Refusal>
    requires { (t.now.count ≤ rule_limit → t.now.count ≤ N) × (N ≤ rule_limit) }
    ensures { (sound t.now ≡ false → result ≡ Err refusal.UnsoundTable) × (sound t.now ≡ true → F.Reads (value_counts t.now) bytes.now result) }
{
    let mut counts: [usize; SLOTS] = [0; SLOTS];
    let mut rows = rows::room::<N>();
    let Some(entry) = soundness::admit(t, &mut counts, &mut rows) else {
        return Err(Refusal::UnsoundTable);
    };
    F::read(bytes, &counts[..entry.width])
}

// Unpacks any bytes as either form.
fn unpack_form<F: Form>(t: &Table, bytes: &[u8]) -> Result<F, Refusal>
    ensures { (sound t.now ≡ false → result ≡ Err refusal.UnsoundTable) × (sound t.now ≡ true → F.Reads (value_counts t.now) bytes.now result) }
{
    let n = t.count as usize;
    if n <= FEW {
        return unpack_in::<F, FEW>(t, bytes);
    }
    if n <= SOME {
        return unpack_in::<F, SOME>(t, bytes);
    }
    unpack_in::<F, RULES>(t, bytes)
}

// Unpacks any bytes as a card: 31, then 20 to 23.
pub fn unpack_card(t: Table, bytes: &[u8]) -> Result<Card, Refusal>
    ensures { card_read_of result ≡ card_read (unpacked_card t bytes.now) }
{
    unpack_form(&t, bytes)
}

// Unpacks any bytes as a slip: 31, then 24 to 28.
pub fn unpack_slip(t: Table, bytes: &[u8]) -> Result<Slip, Refusal>
    ensures { slip_read_of result ≡ slip_read (unpacked_slip t bytes.now) }
{
    unpack_form(&t, bytes)
}
