// The house style of rule files (document 02, section 1): any rule text printed in its one form, or refused with 10 to 18, 34, 33.
#![tactic(auto)]

ghost use Rattle.std.specs.Prelude.{◌≡◌, length};
ghost use Rattle.laws.specs.Answers.{output_of};
ghost use Rattle.grammar.specs.Reading.{parse};
ghost use Rattle.reader.specs.Tables.{Accepted};
ghost use Rattle.rule_file.specs.Whole.{reading};
ghost use Rattle.printing.specs.Printing.{print_of, fitted, print_into, printing_of, printing_said};

use crate::spans::enter_slots;
use reader::TEXT_LIMIT;
use refusals::Refusal;
use table::{Limits, PAIRS, SLOTS, Table, Way};
use writing::files::put_file;
use writing::spelling::Spelling;

pub mod spans;

// The print of an accepted text's table: counted first, with no room to write, then written where it is within the limit of a text and the output has room.
fn print_table(text: &[u8], t: &Table, out: &mut [u8]) -> Result<usize, Refusal>
    requires { ((reading text.now).outcome ≡ Accepted) × (t.now ≡ (reading text.now).table) }
    ensures { (printing_said result ≡ printing_of (fitted (print_of (parse text.now)) (length out.old))) × (out.new ≡ output_of (fitted (print_of (parse text.now)) (length out.old)) out.old) }
{
    let mut slotspans: [usize; SLOTS] = [0; SLOTS];
    let mut valuespans: [usize; PAIRS] = [0; PAIRS];
    enter_slots(text, *t, &mut slotspans, &mut valuespans);
    let mut nowhere: [u8; 1] = [0; 1];
    let spelling = Spelling {
        text,
        slotspans: &slotspans,
        valuespans: &valuespans,
    };
    let size = put_file(&mut nowhere, spelling, *t);
    if TEXT_LIMIT < size {
        return Err(Refusal::LongPrint);
    }
    if out.len() < size {
        return Err(Refusal::ShortPrint);
    }
    let end = put_file(out, spelling, *t);
    Ok(end)
}

// Prints any rule text into the output, and says how many bytes the print takes; a refusal leaves all of the output, an answer what lies beyond the print.
pub fn print(text: &[u8], out: &mut [u8]) -> Result<usize, Refusal>
    ensures { (printing_said result ≡ printing_of (print_into text.now (length out.old))) × (out.new ≡ output_of (print_into text.now (length out.old)) out.old) }
{
    let mut t = table::empty_table();
    rule_file::read_into(text, Way::Strata, Limits::Library, &mut t)?;
    print_table(text, &t, out)
}
