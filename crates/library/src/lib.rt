// The entry points for programs in C and Rust: each hands on exactly what the function of the crate below says, with numbers where that has a `Result`; the responses find the caller's record in the lent table, or say 44, and put the record after in its place. The C interface names each function and each result, so that those of a card and of a slip, and of both ways, stand beside each other, and a refusal is two numbers.
#![tactic(auto)]

pub mod places;

ghost use Rattle.std.specs.Prelude.{◌≡◌, length};
ghost use Rattle.laws.specs.Answers.{output_of};
ghost use Rattle.names.specs.Names.{show_slot, show_value};
ghost use Rattle.soundness.specs.Sound.{sound};
ghost use Rattle.table.specs.declared.Limits.TheVariants.{Library};
ghost use Rattle.rule_file.specs.Whole.{read_within, reading, reading_without_18};
ghost use Rattle.printing.specs.Printing.{print_into, printing_of, printing_said};
ghost use Rattle.cards.specs.Cards.{unpacked_card, unpacked_slip, packed_card, packed_slip, card_read, card_read_of, slip_read, slip_read_of, packing_of, packing_said};
ghost use Rattle.tally.specs.Editors.{lent};
ghost use Rattle.response.specs.Respond.{rooms_of, outputs, outputs_after, outcome_of, outcome_said, records_after, answer_in, answer_to, marks_answer_to};
ghost use Rattle.library.specs.inner.Places.{place_numbers};
ghost use Rattle.library.specs.Results.{reading_numbers, print_numbers, name_numbers, card_numbers, slip_numbers, packing_numbers, response_numbers};

use cards::{Card, Change, Slip};
use places::{Place, slot_place, value_place};
use refusals::Refusal;
use response::Answered;
use table::{Limits, SLOTS, Table, Way};
use tally::Tally;

// A reading: the number of its refusal, 0 where the text is accepted, its second number, and the table, without slots or rules after a refusal.
#[repr(C)]
#[derive(Clone, Copy)]
pub struct RlRead {
    pub number: u8,
    pub second: usize,
    pub table: Table,
}

// A print: the number of its refusal, 0 for none, its second number, and how many bytes are written.
#[repr(C)]
#[derive(Clone, Copy)]
pub struct RlPrinted {
    pub number: u8,
    pub second: usize,
    pub length: usize,
}

// Where a name stands in the text: 0, its start and its size; or 31, 0 and 0.
#[repr(C)]
#[derive(Clone, Copy)]
pub struct RlName {
    pub number: u8,
    pub start: usize,
    pub size: usize,
}

// An unpacking of a card: the number of its refusal, 0 for none, its second number, and the card, without slots after a refusal.
#[repr(C)]
#[derive(Clone, Copy)]
pub struct RlCard {
    pub number: u8,
    pub second: usize,
    pub card: Card,
}

// An unpacking of a slip: the same with the slip, without changes after a refusal.
#[repr(C)]
#[derive(Clone, Copy)]
pub struct RlSlip {
    pub number: u8,
    pub second: usize,
    pub slip: Slip,
}

// A packing: the number of its refusal, 0 for none, its second number, and how many bytes are written.
#[repr(C)]
#[derive(Clone, Copy)]
pub struct RlPacked {
    pub number: u8,
    pub second: usize,
    pub length: usize,
}

// A response: the number of its refusal, 0 for none, its second number, the length of the changes and how many rules fired.
#[repr(C)]
#[derive(Clone, Copy)]
pub struct RlResponse {
    pub number: u8,
    pub second: usize,
    pub length: usize,
    pub fired: usize,
}

// What a reading is before it: accepted, with the table without slots or rules.
fn empty_reading() -> RlRead {
    RlRead {
        number: 0,
        second: 0,
        table: table::empty_table(),
    }
}

// A reading by numbers, into what is handed out, so that its table is copied no more than once.
fn read_numbered(text: &[u8], way: Way, read: &mut RlRead)
    ensures { read.new ≡ reading_numbers (read_within way Library text.now) }
{
    match rule_file::read_into(text, way, Limits::Library, &mut read.table) {
        Ok(()) => {
            read.number = 0;
            read.second = 0;
        }
        Err(refusal) => {
            read.number = refusal.number();
            read.second = refusal.second();
        }
    }
}

// Reads a rule text: 10 to 18.
#[unsafe(no_mangle)]
pub extern "C" fn rl_read(text: &[u8]) -> RlRead
    ensures { result ≡ reading_numbers (reading text.now) }
{
    let mut read = empty_reading();
    read_numbered(text, Way::Strata, &mut read);
    read
}

// Reads a rule text without test 18, for the response by marks: 10 to 17; the table has stratum 0 throughout.
#[unsafe(no_mangle)]
pub extern "C" fn rl_read_unlayered(text: &[u8]) -> RlRead
    ensures { result ≡ reading_numbers (reading_without_18 text.now) }
{
    let mut read = empty_reading();
    read_numbered(text, Way::Marks, &mut read);
    read
}

// A print by numbers.
impl From<Result<usize, Refusal>> for RlPrinted {
    ghost from_gives = { λ p r. r ≡ print_numbers (printing_said p) };

    fn from(printing: Result<usize, Refusal>) -> RlPrinted {
        match printing {
            Ok(length) => RlPrinted {
                number: 0,
                second: 0,
                length,
            },
            Err(refusal) => RlPrinted {
                number: refusal.number(),
                second: refusal.second(),
                length: 0,
            },
        }
    }
}

// Prints a rule text in the house style into the output: 10 to 18, then 34 and 33.
#[unsafe(no_mangle)]
pub extern "C" fn rl_print(text: &[u8], out: &mut [u8]) -> RlPrinted
    ensures { (result ≡ print_numbers (printing_of (print_into text.now (length out.old))))
        × (out.new ≡ output_of (print_into text.now (length out.old)) out.old) }
{
    RlPrinted::from(printing::print(text, out))
}

// Whether a table is in order: where it is not, the other functions say 31.
#[unsafe(no_mangle)]
pub extern "C" fn rl_is_sound(t: Table) -> bool
    ensures { result ≡ sound t }
{
    soundness::is_sound(t)
}

// The place of a name by numbers.
impl From<Result<Place, Refusal>> for RlName {
    ghost from_gives = { λ place r. r ≡ place_numbers place };

    fn from(place: Result<Place, Refusal>) -> RlName {
        match place {
            Ok(place) => RlName {
                number: 0,
                start: place.start,
                size: place.size,
            },
            Err(refusal) => RlName {
                number: refusal.number(),
                start: 0,
                size: 0,
            },
        }
    }
}

// Where a slot's name stands in the text, or 31.
#[unsafe(no_mangle)]
pub extern "C" fn rl_slot_name(text: &[u8], t: Table, slot: usize) -> RlName
    ensures { result ≡ name_numbers (show_slot text.now t slot) }
{
    RlName::from(slot_place(text, &t, slot))
}

// Where the name of a value of a slot stands in the text, values counted from 1, or 31.
#[unsafe(no_mangle)]
pub extern "C" fn rl_value_name(text: &[u8], t: Table, slot: usize, value: usize) -> RlName
    ensures { result ≡ name_numbers (show_value text.now t slot value) }
{
    RlName::from(value_place(text, &t, slot, value))
}

// An unpacked card by numbers.
impl From<Result<Card, Refusal>> for RlCard {
    ghost from_gives = { λ read r. r ≡ card_numbers (card_read_of read) };

    fn from(read: Result<Card, Refusal>) -> RlCard {
        match read {
            Ok(card) => RlCard {
                number: 0,
                second: 0,
                card,
            },
            Err(refusal) => RlCard {
                number: refusal.number(),
                second: refusal.second(),
                card: Card {
                    values: [0; SLOTS],
                    count: 0,
                },
            },
        }
    }
}

// Unpacks bytes as a card: 31, 20 to 23.
#[unsafe(no_mangle)]
pub extern "C" fn rl_unpack_card(t: Table, bytes: &[u8]) -> RlCard
    ensures { result ≡ card_numbers (card_read (unpacked_card t bytes.now)) }
{
    RlCard::from(unpacking::unpack_card(t, bytes))
}

// An unpacked slip by numbers.
impl From<Result<Slip, Refusal>> for RlSlip {
    ghost from_gives = { λ read r. r ≡ slip_numbers (slip_read_of read) };

    fn from(read: Result<Slip, Refusal>) -> RlSlip {
        match read {
            Ok(slip) => RlSlip {
                number: 0,
                second: 0,
                slip,
            },
            Err(refusal) => RlSlip {
                number: refusal.number(),
                second: refusal.second(),
                slip: Slip {
                    changes: [Change { slot: 0, value: 0 }; SLOTS],
                    count: 0,
                },
            },
        }
    }
}

// Unpacks bytes as a slip: 31, 24 to 28.
#[unsafe(no_mangle)]
pub extern "C" fn rl_unpack_slip(t: Table, bytes: &[u8]) -> RlSlip
    ensures { result ≡ slip_numbers (slip_read (unpacked_slip t bytes.now)) }
{
    RlSlip::from(unpacking::unpack_slip(t, bytes))
}

// A packing by numbers, in a type of its own beside that of a print: the C interface names both.
impl From<Result<usize, Refusal>> for RlPacked {
    ghost from_gives = { λ p r. r ≡ packing_numbers (packing_said p) };

    fn from(packing: Result<usize, Refusal>) -> RlPacked {
        match packing {
            Ok(length) => RlPacked {
                number: 0,
                second: 0,
                length,
            },
            Err(refusal) => RlPacked {
                number: refusal.number(),
                second: refusal.second(),
                length: 0,
            },
        }
    }
}

// Packs a card into the output: 31, 21, 22, and 30 with 1.
#[unsafe(no_mangle)]
pub extern "C" fn rl_pack_card(t: Table, card: Card, out: &mut [u8]) -> RlPacked
    ensures { (result ≡ packing_numbers (packing_of (packed_card t card (length out.old))))
        × (out.new ≡ output_of (packed_card t card (length out.old)) out.old) }
{
    RlPacked::from(packing::pack_card(t, card, out))
}

// Packs a slip into the output: 31, 24 to 27, and 30 with 2.
#[unsafe(no_mangle)]
pub extern "C" fn rl_pack_slip(t: Table, slip: Slip, out: &mut [u8]) -> RlPacked
    ensures { (result ≡ packing_numbers (packing_of (packed_slip t slip (length out.old))))
        × (out.new ≡ output_of (packed_slip t slip (length out.old)) out.old) }
{
    RlPacked::from(packing::pack_slip(t, slip, out))
}

// A response's outcome by numbers.
impl From<Result<Answered, Refusal>> for RlResponse {
    ghost from_gives = { λ o r. r ≡ response_numbers (outcome_said o) };

    fn from(outcome: Result<Answered, Refusal>) -> RlResponse {
        match outcome {
            Ok(answer) => RlResponse {
                number: 0,
                second: 0,
                length: answer.length,
                fired: answer.fired,
            },
            Err(refusal) => RlResponse {
                number: refusal.number(),
                second: refusal.second(),
                length: 0,
                fired: 0,
            },
        }
    }
}

// The response by the way asked for, counted in the caller's record of the lent table, or 44.
fn respond_in_table(
    way: Way,
    t: &Table,
    records: &mut [Tally],
    editor: usize,
    card: &[u8],
    slip: &[u8],
    renewed: &mut [u8],
    changes: &mut [u8],
    fired: &mut [u8],
) -> RlResponse
    ensures { (result ≡ response_numbers (outcome_of (answer_in way t.now (lent records.old editor) card.now slip.now (rooms_of renewed.old changes.old fired.old))))
        × (records.new ≡ records_after (lent records.old editor) (answer_in way t.now (lent records.old editor) card.now slip.now (rooms_of renewed.old changes.old fired.old)))
        × (outputs renewed.new changes.new fired.new
        ≡ outputs_after (answer_in way t.now (lent records.old editor) card.now slip.now (rooms_of renewed.old changes.old fired.old)) (outputs renewed.old changes.old fired.old)) }
{
    let Some(at) = tally::place(records.len(), editor) else {
        return RlResponse::from(Err(Refusal::NoEditor));
    };
    let tally = records[at];
    let response = response::respond_by(way, t, tally, card, slip, renewed, changes, fired);
    records[at] = response.tally;
    RlResponse::from(response.outcome)
}

// Responds to an editor's card and slip by strata: 44, 32, 31, 20 to 28, 30, 40; an answer writes the new card, the changes and the fired record, a refusal nothing. It is counted in the editor's own record, 44 and 32 in none.
#[unsafe(no_mangle)]
pub extern "C" fn rl_respond(
    t: Table,
    records: &mut [Tally],
    editor: usize,
    card: &[u8],
    slip: &[u8],
    renewed: &mut [u8],
    changes: &mut [u8],
    fired: &mut [u8],
) -> RlResponse
    ensures { (result ≡ response_numbers (outcome_of (answer_to t (lent records.old editor) card.now slip.now (rooms_of renewed.old changes.old fired.old))))
        × (records.new ≡ records_after (lent records.old editor) (answer_to t (lent records.old editor) card.now slip.now (rooms_of renewed.old changes.old fired.old)))
        × (outputs renewed.new changes.new fired.new
        ≡ outputs_after (answer_to t (lent records.old editor) card.now slip.now (rooms_of renewed.old changes.old fired.old)) (outputs renewed.old changes.old fired.old)) }
{
    respond_in_table(
        Way::Strata,
        &t,
        records,
        editor,
        card,
        slip,
        renewed,
        changes,
        fired,
    )
}

// Responds to an editor's card and slip by marks: 44, 32, 31, 20 to 28, 30, 41, 42; what is written and counted is the same.
#[unsafe(no_mangle)]
pub extern "C" fn rl_respond_by_marks(
    t: Table,
    records: &mut [Tally],
    editor: usize,
    card: &[u8],
    slip: &[u8],
    renewed: &mut [u8],
    changes: &mut [u8],
    fired: &mut [u8],
) -> RlResponse
    ensures { (result ≡ response_numbers (outcome_of (marks_answer_to t (lent records.old editor) card.now slip.now (rooms_of renewed.old changes.old fired.old))))
        × (records.new ≡ records_after (lent records.old editor) (marks_answer_to t (lent records.old editor) card.now slip.now (rooms_of renewed.old changes.old fired.old)))
        × (outputs renewed.new changes.new fired.new
        ≡ outputs_after (marks_answer_to t (lent records.old editor) card.now slip.now (rooms_of renewed.old changes.old fired.old)) (outputs renewed.old changes.old fired.old)) }
{
    respond_in_table(
        Way::Marks,
        &t,
        records,
        editor,
        card,
        slip,
        renewed,
        changes,
        fired,
    )
}
