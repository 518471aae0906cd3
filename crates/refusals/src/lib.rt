// The numbered refusals: document 01, 'Refusals by who can cause them', and those that document 02 adds.
#![tactic(auto)]

ghost use Rattle.std.specs.Prelude.{◌≡◌};
ghost use Rattle.refusals.specs.Numbers.{refusal_number, refusal_second};

use steps::step::Fault;

// What is wrong with a change of a slip, by the refusals' numbers.
#[derive(Clone, Copy)]
pub enum ChangeFault {
    // Its slot is not one of the table's.
    UnknownSlot = 25,
    // Its slot is not above that of the change before.
    NotRising,
    // Its value is above the slot's last.
    UnknownValue,
}

// What is written for the caller, in the order of 30's second numbers.
#[derive(Clone, Copy)]
pub enum Output {
    // A packed card.
    Card = 1,
    // Packed changes.
    Changes,
    // The fired record.
    Fired,
}

// Why a call is refused, with what the second number says.
#[derive(Clone, Copy)]
pub enum Refusal {
    // 10: the text is over the limit.
    LongText,
    // 11 to 17: what is wrong with a statement, and how many rules stand whole before it.
    Statement(Fault, usize),
    // 18: no strata exist; the lowest rule on a circle of dependence, from 1.
    Circle(usize),
    // 20: the card is empty, or not of its own count's length.
    CardSize,
    // 21: its count is not that of the rules.
    CardCount,
    // 22: a value above the slot's last; the first such slot, from 0.
    CardValue(usize),
    // 23: its padding is not zero.
    CardPadding,
    // 24: the slip is empty, or not of its own count's length, or counts more changes than there are slots.
    SlipSize,
    // 25 to 27: what is wrong with a change, and its place, from 0.
    Change(ChangeFault, usize),
    // 28: the slip's padding is not zero.
    SlipPadding,
    // 30: an output is too short; which.
    NoRoom(Output),
    // 31: the table is not in order.
    UnsoundTable,
    // 32: a count of the tally is full.
    FullTally,
    // 33: the output is shorter than the print.
    ShortPrint,
    // 34: the print would be over the limit of a text.
    LongPrint,
    // 40: the changes have two values for a slot; the lowest such slot, from 0.
    Conflict(usize),
    // 41: a pair would be both positive and negative.
    Clash,
    // 42: a pair stays unknown.
    Unknown,
    // 44: the caller is no editor, or the tallies are not forty.
    NoEditor,
}

impl Refusal {
    // The number of a refusal.
    pub fn number(self) -> u8
        ensures { result ≡ refusal_number self }
    {
        match self {
            Refusal::LongText => 10,
            Refusal::Statement(fault, _) => fault as u8,
            Refusal::Circle(_) => 18,
            Refusal::CardSize => 20,
            Refusal::CardCount => 21,
            Refusal::CardValue(_) => 22,
            Refusal::CardPadding => 23,
            Refusal::SlipSize => 24,
            Refusal::Change(fault, _) => fault as u8,
            Refusal::SlipPadding => 28,
            Refusal::NoRoom(_) => 30,
            Refusal::UnsoundTable => 31,
            Refusal::FullTally => 32,
            Refusal::ShortPrint => 33,
            Refusal::LongPrint => 34,
            Refusal::Conflict(_) => 40,
            Refusal::Clash => 41,
            Refusal::Unknown => 42,
            Refusal::NoEditor => 44,
        }
    }

    // Its second number, 0 where it has none.
    pub fn second(self) -> usize
        ensures { result ≡ refusal_second self }
    {
        match self {
            Refusal::Statement(_, rules) => rules,
            Refusal::Circle(rule) => rule,
            Refusal::CardValue(slot) => slot,
            Refusal::Change(_, place) => place,
            Refusal::NoRoom(output) => output as usize,
            Refusal::Conflict(slot) => slot,
            _ => 0,
        }
    }
}
