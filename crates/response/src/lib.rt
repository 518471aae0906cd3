// The response to a slip at one record: document 01, 'Preconditions and response', its order of refusals, and the record after it.
#![tactic(auto)]

pub mod answering;
pub mod slips;

ghost use Rattle.std.specs.Prelude.{◌≡◌, ◌≤◌, length};
ghost use Rattle.table.specs.declared.Table as tables;
ghost use Rattle.table.specs.declared.Way.TheVariants.{Strata, Marks};
ghost use Rattle.laws.specs.Limits.{rule_limit};
ghost use Rattle.soundness.specs.Sound.{well_formed};
ghost use Rattle.soundness.specs.inner.Admitted.{Enters};
ghost use Rattle.response.specs.Respond.{rooms_of, outputs, outputs_after, outcome_said, response_said, answer_by_table, answer_at, response_at};
ghost use Rattle.response.specs.inner.InOrder.{NoneRan, Ends};

use answering::finish;
use refusals::Refusal;
use rows::{FEW, RuleRow, SOME};
use soundness::Entry;
use table::{RULES, SLOTS, Table, Way};
use tally::{Tally, is_full, one_answered, one_refused};
use unpacking::unpack::{read_card, read_slip};

// An answer: the length of the changes, and how many rules fired.
#[derive(Clone, Copy)]
pub struct Answered {
    pub length: usize,
    pub fired: usize,
}

// The outcome and the record after it.
#[derive(Clone, Copy)]
pub struct Response {
    pub outcome: Result<Answered, Refusal>,
    pub tally: Tally,
}

// The response by what was entered of a table, without its tally: 31, 20 to 28, 30, then 40, or 41 and 42, or the answer.
fn work(
    way: Way,
    entry: Option<Entry>,
    rows: &[RuleRow],
    counts: &[usize; SLOTS],
    ran: &mut [bool],
    card: &[u8],
    slip: &[u8],
    renewed: &mut [u8],
    changes: &mut [u8],
    fired: &mut [u8],
) -> Result<Answered, Refusal>
    requires { ((t : tables.Table) × Enters t (well_formed t) entry counts.now rows.now) × NoneRan (length rows.now) ran.old }
    ensures { (t : tables.Table) → Enters t (well_formed t) entry counts.now rows.now
        → Ends (answer_by_table way t card.now slip.now (rooms_of renewed.old changes.old fired.old)) (outcome_said result)
        (outputs renewed.old changes.old fired.old) (outputs renewed.new changes.new fired.new) }
{
    let Some(entered) = entry else {
        return Err(Refusal::UnsoundTable);
    };
    let own_rows = &rows[..entered.count];
    let own_counts = &counts[..entered.width];
    if !soundness::strata_right(own_rows, way) {
        return Err(Refusal::UnsoundTable);
    }
    let own = read_card(card, own_counts)?;
    let asked = read_slip(slip, own_counts)?;
    finish(
        way, own_rows, own_counts, own, asked, ran, renewed, changes, fired,
    )
}

// The response by what was entered of a table: 32, then the rest; counted.
fn conclude(
    way: Way,
    entry: Option<Entry>,
    rows: &[RuleRow],
    counts: &[usize; SLOTS],
    ran: &mut [bool],
    tally: Tally,
    card: &[u8],
    slip: &[u8],
    renewed: &mut [u8],
    changes: &mut [u8],
    fired: &mut [u8],
) -> Response
    requires { ((t : tables.Table) × Enters t (well_formed t) entry counts.now rows.now) × NoneRan (length rows.now) ran.old }
    ensures { (t : tables.Table) → Enters t (well_formed t) entry counts.now rows.now
        → (response_said result ≡ response_at way t tally card.now slip.now (rooms_of renewed.old changes.old fired.old))
        × (outputs renewed.new changes.new fired.new
        ≡ outputs_after (answer_at way t tally card.now slip.now (rooms_of renewed.old changes.old fired.old)) (outputs renewed.old changes.old fired.old)) }
{
    if is_full(tally) {
        return Response {
            outcome: Err(Refusal::FullTally),
            tally,
        };
    }
    let outcome = work(
        way, entry, rows, counts, ran, card, slip, renewed, changes, fired,
    );
    match outcome {
        Ok(_) => Response {
            outcome,
            tally: one_answered(tally),
        },
        Err(_) => Response {
            outcome,
            tally: one_refused(tally),
        },
    }
}

// The response to a slip by strata: any table, any tally, any bytes of any length, outputs of any length.
pub fn respond(
    t: Table,
    tally: Tally,
    card: &[u8],
    slip: &[u8],
    renewed: &mut [u8],
    changes: &mut [u8],
    fired: &mut [u8],
) -> Response
    ensures { (response_said result ≡ response_at Strata t tally card.now slip.now (rooms_of renewed.old changes.old fired.old))
        × (outputs renewed.new changes.new fired.new
        ≡ outputs_after (answer_at Strata t tally card.now slip.now (rooms_of renewed.old changes.old fired.old)) (outputs renewed.old changes.old fired.old)) }
{
    respond_by(Way::Strata, &t, tally, card, slip, renewed, changes, fired)
}

// The response to a slip by marks, of the same.
pub fn respond_by_marks(
    t: Table,
    tally: Tally,
    card: &[u8],
    slip: &[u8],
    renewed: &mut [u8],
    changes: &mut [u8],
    fired: &mut [u8],
) -> Response
    ensures { (response_said result ≡ response_at Marks t tally card.now slip.now (rooms_of renewed.old changes.old fired.old))
        × (outputs renewed.new changes.new fired.new
        ≡ outputs_after (answer_at Marks t tally card.now slip.now (rooms_of renewed.old changes.old fired.old)) (outputs renewed.old changes.old fired.old)) }
{
    respond_by(Way::Marks, &t, tally, card, slip, renewed, changes, fired)
}

// The response by the way asked for, of the same, in the least of three rooms that holds the rules.
pub fn respond_by(
    way: Way,
    t: &Table,
    tally: Tally,
    card: &[u8],
    slip: &[u8],
    renewed: &mut [u8],
    changes: &mut [u8],
    fired: &mut [u8],
) -> Response
    ensures { (response_said result ≡ response_at way t.now tally card.now slip.now (rooms_of renewed.old changes.old fired.old))
        × (outputs renewed.new changes.new fired.new
        ≡ outputs_after (answer_at way t.now tally card.now slip.now (rooms_of renewed.old changes.old fired.old)) (outputs renewed.old changes.old fired.old)) }
{
    let n = t.count as usize;
    if n <= FEW {
        return respond_in::<FEW>(way, t, tally, card, slip, renewed, changes, fired);
    }
    if n <= SOME {
        return respond_in::<SOME>(way, t, tally, card, slip, renewed, changes, fired);
    }
    respond_in::<RULES>(way, t, tally, card, slip, renewed, changes, fired)
}

// The same with rows for N rules and flags of those that ran: the table is handed on at once, to be entered into counts and rows, and what comes after goes by these.
fn respond_in<const N: usize>(
    way: Way,
    t: &Table,
    tally: Tally,
    card: &[u8],
    slip: &[u8],
    renewed: &mut [u8],
    changes: &mut [u8],
    fired: &mut [u8],
) -> Response
    requires { (t.now.count ≤ rule_limit → t.now.count ≤ N) × (N ≤ rule_limit) }
    ensures { (response_said result ≡ response_at way t.now tally card.now slip.now (rooms_of renewed.old changes.old fired.old))
        × (outputs renewed.new changes.new fired.new
        ≡ outputs_after (answer_at way t.now tally card.now slip.now (rooms_of renewed.old changes.old fired.old)) (outputs renewed.old changes.old fired.old)) }
{
    let mut counts: [usize; SLOTS] = [0; SLOTS];
    let mut rows = rows::room::<N>();
    let mut ran: [bool; N] = [false; N];
    let entry = soundness::enter(t, &mut counts, &mut rows);
    conclude(
        way, entry, &rows, &counts, &mut ran, tally, card, slip, renewed, changes, fired,
    )
}
