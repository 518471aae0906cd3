// What the program prints of a rule text, a card, a slip and an editor number: document 01, 'The program', and document 02, section 4.
#![tactic(auto)]

ghost use Rattle.std.specs.Prelude.{◌≡◌, true, ◌≤◌, length};
ghost use Rattle.laws.specs.Limits.{rule_limit};
ghost use Rattle.tally.specs.Editors.{is_editor};
ghost use Rattle.response.specs.Respond.{answer_to};
ghost use Rattle.reader.specs.Tables.{Accepted};
ghost use Rattle.rule_file.specs.Whole.{program_reading};
ghost use Rattle.writing.specs.inner.Puts.{longest};
ghost use Rattle.listing.specs.Listing.{program_rooms, editor_number, program_editors, list_response, listing};
ghost use Rattle.listing.specs.inner.Refused.{refusal_listed};
ghost use Rattle.listing.specs.Printed.{printed, placed};
ghost use Rattle.listing.specs.inner.AnswerLines.{answer_bytes, list_answer, ChangesWhole};

use answers::{put_answer, put_refusal};
use cards::fields::bytes_for;
use reader::{PROGRAM_RULES, PROGRAM_TEXT_LIMIT};
use refusals::Refusal;
use table::{Limits, SLOTS, Table, Way};
use tally::{Tally, is_editor};
use text::NAME_LIMIT;

pub mod answers;
pub mod changes;
pub mod numbers;
pub mod rules;

// The most bytes that the program prints of any rule text, card, slip and editor number.
pub const PAGE: usize = PROGRAM_RULES * 27 + SLOTS * (9 + 2 * NAME_LIMIT) + (6 + 2 * CARD) + 13;

// Room for every new card, for all changes and for every fired record: as many slots, changes and rules as a file that the program takes may have.
const CARD: usize = (6 + 4 * SLOTS + 7) / 8;

const CHANGES: usize = (6 + 9 * SLOTS + 7) / 8;

const RECORD: usize = (PROGRAM_RULES + 7) / 8;

// What the program reads of its four files: a byte more than a text that it takes may have, a byte more than a card and a slip of the highest count that six bits hold, and a byte more than an editor file has.
pub const TEXT_ROOM: usize = PROGRAM_TEXT_LIMIT + 1;

pub const CARD_ROOM: usize = (6 + 4 * 63 + 7) / 8 + 1;

pub const SLIP_ROOM: usize = (6 + 9 * 63 + 7) / 8 + 1;

pub const EDITOR_ROOM: usize = 2;

// Lists a refusal: counted first, with no room to write, then written where the output has room.
fn list_refusal(refusal: Refusal, out: &mut [u8]) -> usize
    ensures { (result ≡ length (printed (refusal_listed refusal))) × (out.new ≡ placed (printed (refusal_listed refusal)) out.old) }
{
    let number = refusal.number();
    let second = refusal.second();
    let mut nowhere: [u8; 1] = [0; 1];
    let size = put_refusal(&mut nowhere, number, second);
    if out.len() < size {
        return size;
    }
    put_refusal(out, number, second)
}

// Lists an answer in the same way.
fn list_answer(
    text: &[u8],
    t: Table,
    card: &[u8],
    changes: &[u8],
    bits: &[u8],
    editor: usize,
    tally: Tally,
    out: &mut [u8],
) -> usize
    requires { (t.count ≤ rule_limit) × ChangesWhole t.width changes.now × (length (printed (list_answer text.now t (answer_bytes card.now changes.now bits.now) editor tally)) ≤ longest) }
    ensures { (result ≡ length (printed (list_answer text.now t (answer_bytes card.now changes.now bits.now) editor tally)))
        × (out.new ≡ placed (printed (list_answer text.now t (answer_bytes card.now changes.now bits.now) editor tally)) out.old) }
{
    let mut nowhere: [u8; 1] = [0; 1];
    let size = put_answer(&mut nowhere, text, t, card, changes, bits, editor, tally);
    if out.len() < size {
        return size;
    }
    put_answer(out, text, t, card, changes, bits, editor, tally)
}

// Lists the response to an editor's slip by an accepted text's table, from a tally of 0 and 0.
fn list_response(
    text: &[u8],
    t: Table,
    editor: usize,
    card: &[u8],
    slip: &[u8],
    out: &mut [u8],
) -> usize
    requires { ((program_reading text.now).outcome ≡ Accepted) × (t ≡ (program_reading text.now).table) × (is_editor editor ≡ true) }
    ensures { (result ≡ length (printed (list_response text.now t (program_editors editor) (answer_to t (program_editors editor) card.now slip.now program_rooms))))
        × (out.new ≡ placed (printed (list_response text.now t (program_editors editor) (answer_to t (program_editors editor) card.now slip.now program_rooms))) out.old) }
{
    let tally = Tally {
        answered: 0,
        refused: 0,
    };
    let mut renewed: [u8; CARD] = [0; CARD];
    let mut changes: [u8; CHANGES] = [0; CHANGES];
    let mut bits: [u8; RECORD] = [0; RECORD];
    let response = response::respond(t, tally, card, slip, &mut renewed, &mut changes, &mut bits);
    match response.outcome {
        Ok(answer) => {
            let n = bytes_for(6 + 4 * t.width as usize);
            let m = bytes_for(t.count as usize);
            list_answer(
                text,
                t,
                &renewed[..n],
                &changes[..answer.length],
                &bits[..m],
                editor,
                response.tally,
                out,
            )
        }
        Err(refusal) => list_refusal(refusal, out),
    }
}

// The number that the bytes of an editor file hold: the one byte that there is, else 0.
fn editor_number(bytes: &[u8]) -> usize
    ensures { result ≡ editor_number bytes.now }
{
    match bytes {
        [editor] => usize::from(*editor),
        _ => 0,
    }
}

// Lists any rule text, card, slip and editor file of any length: says how many bytes the program prints, and puts them at the front of the output where it has room for them, else leaves it.
pub fn list(text: &[u8], card: &[u8], slip: &[u8], editor: &[u8], out: &mut [u8]) -> usize
    ensures { (result ≡ length (printed (listing text.now card.now slip.now editor.now)))
        × (out.new ≡ placed (printed (listing text.now card.now slip.now editor.now)) out.old) }
{
    let caller = editor_number(editor);
    if !is_editor(caller) {
        return list_refusal(Refusal::NoEditor, out);
    }
    match rule_file::read(text, Way::Strata, Limits::Program) {
        Ok(t) => list_response(text, t, caller, card, slip, out),
        Err(refusal) => list_refusal(refusal, out),
    }
}
