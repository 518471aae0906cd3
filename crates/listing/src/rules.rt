// The lines of the rules: number, stratum, fired or idle.
ghost use Rattle.std.specs.Prelude.{◌+◌, ◌≤◌, ◌≡◌, length};
ghost use Rattle.laws.specs.Limits.{rule_limit};
ghost use Rattle.results.specs.Record.{bit_of};
ghost use Rattle.writing.specs.inner.Puts.{longest, PutsOn};
ghost use Rattle.listing.specs.Printed.{rule_text, rules_text};
ghost use Rattle.listing.specs.inner.AnswerLines.{fired_line, fired_lines};

use crate::numbers::put_number;
use table::Table;
use writing::sheet::Sheet;

// Whether the bit of a rule, counted from 0, is one in a fired record.
fn is_fired(bits: &[u8], i: usize) -> bool
    ensures { result ≡ bit_of bits.now (i + 1) }
{
    let k = i / 8;
    k < bits.len() && (bits[k] >> (7 - i % 8)) % 2 == 1
}

// Puts the line of a rule.
#[tactic(auto, using(writing::proofs::Putting::room_first, writing::proofs::Putting::room_rest), unfolding(crate::specs::Printed::rule_text, crate::specs::Printed::fired_word, laws::specs::Quoted::bytes, laws::specs::Quoted::bytes_from))]
fn put_rule(sheet: &mut Sheet, number: usize, stratum: usize, fired: bool)
    requires { sheet.old.at + length (rule_text number (fired_line stratum fired)) ≤ longest }
    ensures { PutsOn sheet.old (rule_text number (fired_line stratum fired)) sheet.new }
{
    sheet.put(b"rule ");
    put_number(sheet, number);
    sheet.put(b" stratum ");
    put_number(sheet, stratum);
    if fired {
        sheet.put(b" fired\n");
    } else {
        sheet.put(b" idle\n");
    }
}

// Puts the lines of a table's rules in number order.
pub fn put_rules(sheet: &mut Sheet, t: Table, bits: &[u8])
    requires { (t.count ≤ rule_limit) × (sheet.old.at + length (rules_text 1 (fired_lines t bits.now)) ≤ longest) }
    ensures { PutsOn sheet.old (rules_text 1 (fired_lines t bits.now)) sheet.new }
{
    for i in 0..t.count as usize {
        let stratum = usize::from(t.rules[i].stratum);
        let fired = is_fired(bits, i);
        put_rule(sheet, i + 1, stratum, fired);
    }
}
