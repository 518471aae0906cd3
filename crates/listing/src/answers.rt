// An answer: the lines of rules and changes, the new card, the editor and the tally; and a refusal's line.
ghost use Rattle.std.specs.Prelude.{◌+◌, ◌≤◌, length};
ghost use Rattle.laws.specs.Limits.{rule_limit};
ghost use Rattle.writing.specs.inner.Puts.{longest, Puts, PutsOn};
ghost use Rattle.listing.specs.Printed.{card_text, tally_text, refusal_text, printed};
ghost use Rattle.listing.specs.inner.AnswerLines.{answer_bytes, list_answer, ChangesWhole};

use crate::changes::put_changes;
use crate::numbers::{put_bytes, put_number};
use crate::rules::put_rules;
use table::Table;
use tally::Tally;
use writing::sheet::Sheet;

// Puts the line of the new card.
#[tactic(auto, using(writing::proofs::Putting::room_first, writing::proofs::Putting::room_rest), unfolding(crate::specs::Printed::card_text, laws::specs::Quoted::bytes, laws::specs::Quoted::bytes_from))]
fn put_card(sheet: &mut Sheet, card: &[u8])
    requires { sheet.old.at + length (card_text card.now) ≤ longest }
    ensures { PutsOn sheet.old (card_text card.now) sheet.new }
{
    sheet.put(b"card ");
    put_bytes(sheet, card);
    sheet.put(b"\n");
}

// Puts the line of the tally: the editor, answered and refused. Beside `put_rule`: one function for both would go over a list of words and numbers made first.
#[tactic(auto, using(writing::proofs::Putting::room_first, writing::proofs::Putting::room_rest), unfolding(crate::specs::Printed::tally_text, laws::specs::Quoted::bytes, laws::specs::Quoted::bytes_from))]
fn put_tally(sheet: &mut Sheet, editor: usize, tally: Tally)
    requires { sheet.old.at + length (tally_text editor tally) ≤ longest }
    ensures { PutsOn sheet.old (tally_text editor tally) sheet.new }
{
    sheet.put(b"tally ");
    put_number(sheet, editor);
    sheet.put(b" ");
    put_number(sheet, tally.answered as usize);
    sheet.put(b" ");
    put_number(sheet, tally.refused as usize);
    sheet.put(b"\n");
}

// Puts the line of a refusal at the front of the output: its number and its second number. Says how many bytes it is.
pub fn put_refusal(out: &mut [u8], number: u8, second: usize) -> usize
    ensures { Puts out.old 0 (refusal_text number second) out.new result }
{
    let mut sheet = Sheet { out, at: 0 };
    sheet.put(b"refused ");
    put_number(&mut sheet, usize::from(number));
    sheet.put(b" ");
    put_number(&mut sheet, second);
    sheet.put(b"\n");
    sheet.at
}

// Puts the lines of an answer at the front of the output; says how many bytes they are.
#[tactic(auto, using(writing::proofs::Putting::room_first, writing::proofs::Putting::room_rest), unfolding(crate::specs::Printed::printed))]
pub fn put_answer(
    out: &mut [u8],
    text: &[u8],
    t: Table,
    card: &[u8],
    changes: &[u8],
    bits: &[u8],
    editor: usize,
    tally: Tally,
) -> usize
    requires { (t.count ≤ rule_limit) × ChangesWhole t.width changes.now × (length (printed (list_answer text.now t (answer_bytes card.now changes.now bits.now) editor tally)) ≤ longest) }
    ensures { Puts out.old 0 (printed (list_answer text.now t (answer_bytes card.now changes.now bits.now) editor tally)) out.new result }
{
    let mut sheet = Sheet { out, at: 0 };
    put_rules(&mut sheet, t, bits);
    put_changes(&mut sheet, text, t, changes);
    put_card(&mut sheet, card);
    put_tally(&mut sheet, editor, tally);
    sheet.at
}
