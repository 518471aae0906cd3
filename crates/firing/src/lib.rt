// The rules of rows fired stratum by stratum.
#![tactic(auto)]

pub mod order;

ghost use Rattle.std.specs.Prelude.{◌≡◌, false, List, ℕ, ◌+◌, ◌≤◌, ◌<◌, length, get_or, replicate};
ghost use Rattle.laws.specs.Limits.{slot_limit, row, rule_limit};
ghost use Rattle.table.specs.Link.{assignments_of};
ghost use Rattle.table.specs.inner.Flat.{pair_places, add_pairs};
ghost use Rattle.rows.specs.inner.Rows.{rule_in};
ghost use Rattle.rows.specs.inner.RuleRows.{rows_table};
ghost use Rattle.firing.specs.inner.Firing.{CanFire, TableFired, FiringRoom};
ghost use Rattle.testing.specs.inner.Truth.{Truth};
ghost use Rattle.testing.specs.inner.Waiting.{Waiting, Woken};

use rows::{FEW, RuleRow, SOME};
use table::{PAIRS, RULES, SLOTS};
use testing::truth::{WITHOUT_NOT, is_true, truth_of};
use testing::waiting::{next_rule, wait, wake};

// How many places say where the strata of so many rules begin and where the last ends.
const FEW_STARTS: usize = FEW + 2;

const SOME_STARTS: usize = SOME + 2;

const ALL_STARTS: usize = RULES + 2;

// Adds what a rule assigns to the changes, and wakes the rules that wait for it; how many are woken then.
fn assign(
    assigning: &RuleRow,
    n: usize,
    changes: &mut [bool; PAIRS],
    truth: &mut [bool; WITHOUT_NOT],
    heads: &mut [u16; PAIRS],
    nexts: &[u16],
    woken: &mut [u16],
    left: usize,
) -> usize
    requires { (length changes.old ≡ pair_places) × (n ≤ rule_limit) × (n ≤ length nexts.now) × Waiting n heads.old nexts.now × Woken n left woken.old }
    ensures { (changes.new ≡ add_pairs (assignments_of (rule_in assigning.now.numbers)) changes.old)
        × ((S : List ℕ) → Truth S changes.old truth.old → Truth S changes.new truth.new)
        × Waiting n heads.new nexts.now × Woken n result woken.new }
{
    let mut top = left;
    for k in 0..assigning.assigned() {
        let number = assigning.assignment(k);
        let p = rows::place(number);
        changes[p] = true;
        let had = truth[p];
        truth[PAIRS + p] = !had;
        top = wake(p, n, heads, nexts, woken, top);
    }
    top
}

// Fires the rules stratum by stratum, in passes over the rules of a stratum until one fires nothing: a plain test may wait for another rule of its own stratum.
// A rule is passed over at its first false literal. The passes end: each is the last of its stratum or fires a rule, and no rule fires twice.
// It is lent room for the sorted rules and where their strata begin, for the rules that wait and for those woken.
fn fire_within(
    rows: &[RuleRow],
    card: &[u8; SLOTS],
    changes: &mut [bool; PAIRS],
    fired: &mut [bool],
    positions: &mut [u16],
    starts: &mut [u16],
    nexts: &mut [u16],
    woken: &mut [u16],
)
    requires { (length rows.now ≤ rule_limit) × CanFire (rows_table rows.now) × ((s : ℕ) → s < slot_limit → get_or card.now s 0 < row) × (length changes.old ≡ pair_places)
        × (length rows.now ≤ length fired.old) × (fired.old ≡ replicate (length fired.old) false) × FiringRoom (length rows.now) positions.old starts.old nexts.old woken.old }
    ensures { TableFired (rows_table rows.now) card.now changes.old changes.new fired.new }
{
    let n = rows.len();
    order::sort(rows, starts, positions);
    let mut truth = truth_of(card, changes);
    let mut heads: [u16; PAIRS] = [0; PAIRS];
    let mut first = true;
    let mut stratum: usize = 0;
    // A stratum takes as many passes as fire a rule: no range is known before.
    'passes: while usize::from(starts[stratum]) < n {
        let to = usize::from(starts[stratum + 1]);
        let mut k = usize::from(starts[stratum]);
        let mut left: usize = 0;
        let mut moved = false;
        // The end moves with the rules that are woken.
        'rules: while k < to + left {
            let turn = next_rule(positions, k, woken, left);
            let i = turn.rule;
            k = turn.place;
            left = turn.left;
            let row = &rows[i];
            if fired[i] || usize::from(row.stratum()) != stratum {
                continue 'rules;
            }
            let trigger = row.awaited();
            if !is_true(trigger, &truth) {
                wait(first, trigger, i, &mut heads, nexts);
                continue 'rules;
            }
            'literals: for j in 0..row.tested() {
                let number = row.literal(j);
                if !is_true(number, &truth) {
                    wait(first, number, i, &mut heads, nexts);
                    continue 'rules;
                }
            }
            left = assign(row, n, changes, &mut truth, &mut heads, nexts, woken, left);
            fired[i] = true;
            moved = true;
        }
        first = !moved;
        if !moved {
            stratum += 1;
        }
    }
}

// The same, with room for N rules set aside, and STARTS places for where the strata begin.
fn fire_in<const N: usize, const STARTS: usize>(
    rows: &[RuleRow],
    card: &[u8; SLOTS],
    changes: &mut [bool; PAIRS],
    fired: &mut [bool],
)
    requires { CanFire (rows_table rows.now) × ((s : ℕ) → s < slot_limit → get_or card.now s 0 < row) × (length changes.old ≡ pair_places)
        × (length rows.now ≤ length fired.old) × (fired.old ≡ replicate (length fired.old) false) × (length rows.now ≤ N) × (N ≤ rule_limit) × (STARTS ≡ N + 2) }
    ensures { TableFired (rows_table rows.now) card.now changes.old changes.new fired.new }
{
    let mut positions: [u16; N] = [0; N];
    let mut starts: [u16; STARTS] = [0; STARTS];
    let mut nexts: [u16; N] = [0; N];
    let mut woken: [u16; N] = [0; N];
    fire_within(
        rows,
        card,
        changes,
        fired,
        &mut positions,
        &mut starts,
        &mut nexts,
        &mut woken,
    )
}

// The same, with arrays of the least of the three sizes that has room for the rules.
pub fn fire(rows: &[RuleRow], card: &[u8; SLOTS], changes: &mut [bool; PAIRS], fired: &mut [bool])
    requires { (length rows.now ≤ rule_limit) × CanFire (rows_table rows.now) × ((s : ℕ) → s < slot_limit → get_or card.now s 0 < row) × (length changes.old ≡ pair_places)
        × (length rows.now ≤ length fired.old) × (fired.old ≡ replicate (length fired.old) false) }
    ensures { TableFired (rows_table rows.now) card.now changes.old changes.new fired.new }
{
    let n = rows.len();
    if n <= FEW {
        return fire_in::<FEW, { FEW_STARTS }>(rows, card, changes, fired);
    }
    if n <= SOME {
        return fire_in::<SOME, { SOME_STARTS }>(rows, card, changes, fired);
    }
    fire_in::<RULES, { ALL_STARTS }>(rows, card, changes, fired)
}
