// The whole reading of a rule file: refusals 10 to 18, and the table with the least strata; or without 18, and the table with stratum 0 throughout.
#![tactic(auto)]

ghost use Rattle.std.specs.Prelude.{◌≡◌, Err};
ghost use Rattle.table.specs.Empty.{empty_table};
ghost use Rattle.rule_file.specs.Whole.{file_read, reading_said, read_within};

use lines::{enter, slot_of};
use reader::statements::{Statement, statement_next};
use reader::{most_bytes, most_rules};
use refusals::Refusal;
use rows::RuleRow;
use steps::source::Source;
use steps::step::Tokens;
use table::{Limits, PAIRS, RULES, SLOTS, Table, Way};

// The reading of any bytes of any length, by the library's limits or the program's: the table, or the refusal.
pub fn read(text: &[u8], way: Way, limits: Limits) -> Result<Table, Refusal>
    ensures { reading_said result ≡ read_within way limits text.now }
{
    let mut t = table::empty_table();
    read_into(text, way, limits, &mut t)?;
    Ok(t)
}

// The same into a table that is lent to be filled, so that none is copied: the statements one after the other, after each of which the remainder is handed on; at the end the strata, if asked.
// What the table held is of no reading; after a refusal it is the table without slots or rules.
pub fn read_into(text: &[u8], way: Way, limits: Limits, t: &mut Table) -> Result<(), Refusal>
    ensures { file_read result t.new ≡ read_within way limits text.now }
{
    *t = table::empty_table();
    if most_bytes(limits) < text.len() {
        return Err(Refusal::LongText);
    }
    let most = most_rules(limits);
    let classes = classes::table();
    let mut slotspans = [0; SLOTS];
    let mut valuespans = [0; PAIRS];
    let mut rest = text;
    let mut base = 0;
    'statements: loop {
        let width = usize::from(t.width);
        let count = usize::from(t.count);
        let source = Source {
            text,
            tokens: Tokens {
                rest,
                classes: &classes,
            },
            slotspans: &slotspans,
            valuespans: &valuespans,
        };
        match statement_next(source, base, width, count, most) {
            Ok(Statement::End) => {
                if let Way::Marks = way {
                    return Ok(());
                }
                let mut rows = [rows::empty_row(); RULES];
                'rows: for i in 0..count {
                    rows[i] = RuleRow::of(t.rules[i]);
                }
                let mut numbers = [0; RULES];
                if let Err(rule) = strata::least::find(&rows[..count], &mut numbers) {
                    return refuse(t, Refusal::Circle(rule));
                }
                'strata: for j in 0..count {
                    t.rules[j].stratum = numbers[j];
                }
                return Ok(());
            }
            Ok(Statement::Slot(read)) => {
                enter(
                    &mut slotspans,
                    &mut valuespans,
                    width,
                    read.value.name,
                    read.value.values.places,
                );
                t.slots[width] = slot_of(
                    read.value.name,
                    read.value.values.places,
                    read.value.values.count,
                );
                t.width += 1;
                rest = &rest[read.next..];
                base += read.next;
            }
            Ok(Statement::Rule(read)) => {
                t.rules[count] = read.value;
                t.count += 1;
                rest = &rest[read.next..];
                base += read.next;
            }
            Err(fault) => return refuse(t, Refusal::Statement(fault, count)),
        }
    }
}

// A refusal, with the table emptied.
fn refuse(t: &mut Table, refusal: Refusal) -> Result<(), Refusal>
    ensures { (result ≡ Err refusal) × (t.new ≡ empty_table) }
{
    *t = table::empty_table();
    Err(refusal)
}
