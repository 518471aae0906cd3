// The selection of document 02, section 3, over rows: rules are fired and pairs ruled out until nothing more applies.
#![tactic(auto)]

ghost use Rattle.std.specs.Prelude.{◌≡◌, ◌*◌, ◌≤◌, IfErr, length};
ghost use Rattle.laws.specs.Limits.{rule_limit};
ghost use Rattle.refusals.specs.Numbers.{refusal_second};
ghost use Rattle.selecting.specs.inner.Selected.{Selectable, SetAside, SelectedBy, number_from_0};

use judging::counting::{count_assigned, release};
use judging::truth::{Known, rule_truth, truth_of};
use marking::pairs::{all_known, assign, first_negative, rule_out_unassigned};
use marking::waking::{EACH, chain};
use refusals::Refusal;
use rows::{FEW, RuleRow, SOME};
use table::{PAIRS, RULES, SLOTS};
use testing::waiting::next_or;
use truths::Truth3;

// The places where so many rules can test a pair.
const FEW_PLACES: usize = FEW * EACH;

const SOME_PLACES: usize = SOME * EACH;

const ALL_PLACES: usize = RULES * EACH;

// Selects until nothing more applies: an unfired rule that is True is fired, a pair that only False rules assign is ruled out.
// It leaves its positive pairs and its fired rules in what it is lent, or refuses with a clash where a pair would be both positive and negative, else where a pair stays unknown.
// A rule is looked at again when a pair that it tests is marked; a sweep over all rules that moves nothing is the last.
// What it keeps of each rule stands in arrays that it is lent, since they have one of three sizes; `nexts` has nine places a rule, so that they are no one array of structs.
fn select_with(
    rows: &[RuleRow],
    counts: &[usize],
    card: &[u8; SLOTS],
    positive: &mut [bool; PAIRS],
    fired: &mut [bool],
    nexts: &mut [u16],
    dead: &mut [bool],
    queued: &mut [bool],
    woken: &mut [u16],
) -> Result<(), Refusal>
    requires { Selectable rows.now counts.now card.now positive.old fired.old × SetAside (length rows.now) nexts.old dead.old queued.old woken.old }
    ensures selected { SelectedBy rows.now counts.now card.now positive.old (number_from_0 result) positive.new fired.new }
    ensures second { IfErr result (λ r. refusal_second r ≡ 0) }
{
    let n = rows.len();
    let mut live: [u16; PAIRS] = [0; PAIRS];
    let mut heads: [u16; PAIRS] = [0; PAIRS];
    'enter: for (e, row) in rows.iter().enumerate() {
        count_assigned(row, &mut live);
        chain(row, e, &mut heads, nexts);
    }
    let given = *positive;
    let negative = first_negative(counts.len(), &live, positive);
    let truth = truth_of(card, positive, &negative);
    let mut marks = Known {
        positive: given,
        negative,
        truth,
    };
    let mut moved = true;
    // As many sweeps as move something: no range is known before.
    'sweeps: while moved {
        moved = false;
        let mut k: usize = 0;
        let mut left: usize = 0;
        // The end moves with the rules that are woken.
        'rules: while k < n + left {
            let turn = next_or(k, k, woken, left);
            let i = turn.rule;
            k = turn.place;
            left = turn.left;
            if fired[i] || dead[i] {
                continue 'rules;
            }
            queued[i] = false;
            let row = &rows[i];
            match rule_truth(row, &marks.truth) {
                Truth3::True => {
                    moved = true;
                    fired[i] = true;
                    let Ok(top) = assign(
                        row, n, counts, &mut marks, &heads, nexts, queued, woken, left,
                    ) else {
                        return Err(Refusal::Clash);
                    };
                    left = top;
                }
                Truth3::False => {
                    moved = true;
                    dead[i] = true;
                    release(row, &mut live);
                    left = rule_out_unassigned(
                        row, n, &live, &mut marks, &heads, nexts, queued, woken, left,
                    );
                }
                Truth3::Unknown => {}
            }
        }
    }
    if all_known(counts, &marks) {
        *positive = marks.positive;
        Ok(())
    } else {
        Err(Refusal::Unknown)
    }
}

// Selects with room for N rules set aside, and for PLACES where they test a pair.
fn select_in<const N: usize, const PLACES: usize>(
    rows: &[RuleRow],
    counts: &[usize],
    card: &[u8; SLOTS],
    positive: &mut [bool; PAIRS],
    fired: &mut [bool],
) -> Result<(), Refusal>
    requires { Selectable rows.now counts.now card.now positive.old fired.old × (length rows.now ≤ N) × (N ≤ rule_limit) × (PLACES ≡ N * 9) }
    ensures selected { SelectedBy rows.now counts.now card.now positive.old (number_from_0 result) positive.new fired.new }
    ensures second { IfErr result (λ r. refusal_second r ≡ 0) }
{
    let mut nexts: [u16; PLACES] = [0; PLACES];
    let mut dead: [bool; N] = [false; N];
    let mut queued: [bool; N] = [false; N];
    let mut woken: [u16; N] = [0; N];
    select_with(
        rows,
        counts,
        card,
        positive,
        fired,
        &mut nexts,
        &mut dead,
        &mut queued,
        &mut woken,
    )
}

// Selects in arrays of one of three sizes, by how many rules there are.
pub fn select(
    rows: &[RuleRow],
    counts: &[usize],
    card: &[u8; SLOTS],
    positive: &mut [bool; PAIRS],
    fired: &mut [bool],
) -> Result<(), Refusal>
    requires { Selectable rows.now counts.now card.now positive.old fired.old }
    ensures selected { SelectedBy rows.now counts.now card.now positive.old (number_from_0 result) positive.new fired.new }
    ensures second { IfErr result (λ r. refusal_second r ≡ 0) }
{
    if rows.len() <= FEW {
        return select_in::<FEW, { FEW_PLACES }>(rows, counts, card, positive, fired);
    }
    if rows.len() <= SOME {
        return select_in::<SOME, { SOME_PLACES }>(rows, counts, card, positive, fired);
    }
    select_in::<RULES, { ALL_PLACES }>(rows, counts, card, positive, fired)
}
