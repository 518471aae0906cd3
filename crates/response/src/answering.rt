// The answer to a card and a slip that are in order. These are not entry points: table, card, slip and outputs were tested before.
ghost use Rattle.std.specs.Prelude.{◌≡◌, false, List, ℕ, suc, ◌≤◌, ◌<◌, length, get_or};
ghost use Rattle.laws.specs.Limits.{rule_limit};
ghost use Rattle.laws.specs.Answers.{taken};
ghost use Rattle.model.specs.Rules.{Pairs};
ghost use Rattle.model.specs.Orders.{names};
ghost use Rattle.table.specs.Link.{rules_of};
ghost use Rattle.table.specs.declared.Way.TheVariants.{Strata, Marks};
ghost use Rattle.table.specs.inner.Flat.{set_of};
ghost use Rattle.cards.specs.Cards.{card_values, changes_of};
ghost use Rattle.cards.specs.inner.Fitting.{CardFits};
ghost use Rattle.rows.specs.inner.RuleRows.{rows_table};
ghost use Rattle.response.specs.Ending.{answer_of, answer_by_firing, answer_by_marks};
ghost use Rattle.response.specs.Respond.{outputs, rooms_of, outcome_said, if_room, answer_by};
ghost use Rattle.response.specs.inner.InOrder.{InOrder, NoneRan, HasRoom, Ends};

use crate::Answered;
use crate::slips::{flags_of, slip_of};
use cards::fields::bytes_for;
use cards::{Card, Slip};
use packing::pack::{write_card, write_slip};
use refusals::{Output, Refusal};
use results::ending::{conflict_slot, new_values};
use results::records::{count_fired, record_of, record_size};
use rows::RuleRow;
use table::{PAIRS, SLOTS, Way};

// Writes the answer of changes and of one flag for each rule, whether it ran: the new card, the changes as a slip, the fired record.
fn write_answer(
    card: Card,
    ended: &[bool; PAIRS],
    ran: &[bool],
    renewed: &mut [u8],
    changes: &mut [u8],
    fired: &mut [u8],
) -> Result<Answered, Refusal>
    requires { (length ran.now ≤ rule_limit) × CardFits card × HasRoom card.count (length ran.now) (rooms_of renewed.old changes.old fired.old) }
    ensures { (C : Pairs) (ns : List ℕ) → set_of ended.now ≡ C → ((i : ℕ) → i < length ran.now → get_or ran.now i false ≡ names ns (suc i)) → ((s : ℕ) → card.count ≤ s → get_or card.values s 0 ≡ 0)
        → Ends (taken (answer_of card.count (length ran.now) (card_values card) C ns)) (outcome_said result) (outputs renewed.old changes.old fired.old) (outputs renewed.new changes.new fired.new) }
{
    let values = card.values;
    let width = card.count;
    let next = Card {
        values: new_values(&values, ended, width),
        count: width,
    };
    write_card(next, renewed);
    let listed = slip_of(ended, width);
    let length = write_slip(listed, changes);
    record_of(ran, fired);
    let size = record_size(ran.len());
    let total = count_fired(&fired[..size]);
    Ok(Answered {
        length,
        fired: total,
    })
}

// Fires the rules by strata and writes the answer; a conflict writes nothing. The flags of the rules that ran are lent.
fn settle(
    rows: &[RuleRow],
    card: Card,
    slip: Slip,
    ran: &mut [bool],
    renewed: &mut [u8],
    changes: &mut [u8],
    fired: &mut [u8],
) -> Result<Answered, Refusal>
    requires { ((counts : List ℕ) × InOrder Strata rows.now counts card slip) × NoneRan (length rows.now) ran.old × HasRoom card.count (length rows.now) (rooms_of renewed.old changes.old fired.old) }
    ensures { Ends (answer_by_firing (rules_of (rows_table rows.now)) card.count (card_values card) (changes_of slip)) (outcome_said result)
        (outputs renewed.old changes.old fired.old) (outputs renewed.new changes.new fired.new) }
{
    let values = card.values;
    let mut ended = flags_of(slip);
    firing::fire(rows, &values, &mut ended, ran);
    if let Some(slot) = conflict_slot(&ended, card.count) {
        return Err(Refusal::Conflict(slot));
    }
    write_answer(card, &ended, &ran[..rows.len()], renewed, changes, fired)
}

// Selects by marks and writes the answer; 41 and 42 write nothing. Beside `settle`: what the two share is the writing, what they are given and refuse differs.
fn settle_by_marks(
    rows: &[RuleRow],
    counts: &[usize],
    card: Card,
    slip: Slip,
    ran: &mut [bool],
    renewed: &mut [u8],
    changes: &mut [u8],
    fired: &mut [u8],
) -> Result<Answered, Refusal>
    requires { InOrder Marks rows.now counts.now card slip × NoneRan (length rows.now) ran.old × HasRoom card.count (length rows.now) (rooms_of renewed.old changes.old fired.old) }
    ensures { Ends (answer_by_marks (rules_of (rows_table rows.now)) counts.now (card_values card) (changes_of slip)) (outcome_said result)
        (outputs renewed.old changes.old fired.old) (outputs renewed.new changes.new fired.new) }
{
    let values = card.values;
    let mut ended = flags_of(slip);
    selecting::select(rows, counts, &values, &mut ended, ran)?;
    write_answer(card, &ended, &ran[..rows.len()], renewed, changes, fired)
}

// The bytes that a change for every slot takes; a constant's value calls no method.
const CHANGES: usize = (6 + 9 * SLOTS + 7) / 8;

// 30 with the first output that is too short, 1 the card, 2 the changes, 3 the fired record; else the answer by the way asked for.
// The three outputs go one by one: a struct of the three is not covered where a match hands it on.
pub fn finish(
    way: Way,
    rows: &[RuleRow],
    counts: &[usize],
    card: Card,
    slip: Slip,
    ran: &mut [bool],
    renewed: &mut [u8],
    changes: &mut [u8],
    fired: &mut [u8],
) -> Result<Answered, Refusal>
    requires { InOrder way rows.now counts.now card slip × NoneRan (length rows.now) ran.old }
    ensures { Ends (if_room card.count (length rows.now) (rooms_of renewed.old changes.old fired.old) (answer_by way counts.now (rules_of (rows_table rows.now)) (card_values card) (changes_of slip))) (outcome_said result)
        (outputs renewed.old changes.old fired.old) (outputs renewed.new changes.new fired.new) }
{
    if renewed.len() < bytes_for(6 + 4 * card.count) {
        return Err(Refusal::NoRoom(Output::Card));
    }
    if changes.len() < CHANGES {
        return Err(Refusal::NoRoom(Output::Changes));
    }
    if fired.len() < record_size(rows.len()) {
        return Err(Refusal::NoRoom(Output::Fired));
    }
    match way {
        Way::Strata => settle(rows, card, slip, ran, renewed, changes, fired),
        Way::Marks => settle_by_marks(rows, counts, card, slip, ran, renewed, changes, fired),
    }
}
