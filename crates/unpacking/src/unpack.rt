// Unpacking by the number of slots and how many values each has. These are not entry points: the table was tested before.
ghost use Rattle.std.specs.Prelude.{◌≡◌, ◌≤◌, length};
ghost use Rattle.laws.specs.Limits.{slot_limit};
ghost use Rattle.cards.specs.Forms.{read_card, read_slip};
ghost use Rattle.cards.specs.Cards.{card_read, card_read_of, slip_read, slip_read_of};

use cards::fields::{bytes_for, read_field};
use cards::{Card, Change, Slip, change_fault};
use refusals::Refusal;
use table::SLOTS;

// Any bytes as a card: 20 to 23, or its values.
pub fn read_card(bytes: &[u8], counts: &[usize]) -> Result<Card, Refusal>
    requires { length counts.now ≤ slot_limit }
    ensures { card_read_of result ≡ card_read (read_card counts.now bytes.now) }
{
    let size = bytes.len();
    if size == 0 {
        return Err(Refusal::CardSize);
    }
    let count = read_field(bytes, 0, 6);
    let bits = 6 + 4 * count;
    if size != bytes_for(bits) {
        return Err(Refusal::CardSize);
    }
    if count != counts.len() {
        return Err(Refusal::CardCount);
    }
    let mut values: [u8; SLOTS] = [0; SLOTS];
    for i in 0..count {
        let value = read_field(bytes, 6 + 4 * i, 4);
        let last = counts[i];
        if last < value {
            return Err(Refusal::CardValue(i));
        }
        values[i] = value as u8;
    }
    if read_field(bytes, bits, 8 * size - bits) != 0 {
        return Err(Refusal::CardPadding);
    }
    Ok(Card { values, count })
}

// Any bytes as a slip: 24 to 28, or its changes. More than 32 changes cannot rise, so the first faulty one has a place. Beside `read_card`: the tests, the order and the refusals differ.
pub fn read_slip(bytes: &[u8], counts: &[usize]) -> Result<Slip, Refusal>
    requires { length counts.now ≤ slot_limit }
    ensures { slip_read_of result ≡ slip_read (read_slip counts.now bytes.now) }
{
    let size = bytes.len();
    if size == 0 {
        return Err(Refusal::SlipSize);
    }
    let count = read_field(bytes, 0, 6);
    let end = 6 + 9 * count;
    if size != bytes_for(end) {
        return Err(Refusal::SlipSize);
    }
    let none = Change { slot: 0, value: 0 };
    let mut changes: [Change; SLOTS] = [none; SLOTS];
    let mut low: usize = 0;
    for i in 0..count {
        let slot = read_field(bytes, 6 + 9 * i, 5);
        let value = read_field(bytes, 11 + 9 * i, 4);
        if let Err(fault) = change_fault(slot, value, low, counts) {
            return Err(Refusal::Change(fault, i));
        }
        changes[i] = Change {
            slot: slot as u8,
            value: value as u8,
        };
        low = slot + 1;
    }
    if read_field(bytes, end, 8 * size - end) != 0 {
        return Err(Refusal::SlipPadding);
    }
    Ok(Slip { changes, count })
}
