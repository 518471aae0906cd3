// Marks of pairs: which are positive, which negative, what the tests come to then, and the rules woken by a mark.
ghost use Rattle.std.specs.Prelude.{◌≡◌, true, false, T, ℕ, ◌*◌, ◌≤◌, ◌<◌, length, get_or, is_err, OnOk, MatchResult};
ghost use Rattle.model.specs.Rules.{Pair, among};
ghost use Rattle.laws.specs.Limits.{slot_limit, value_limit, rule_limit};
ghost use Rattle.table.specs.Link.{assignments_of};
ghost use Rattle.table.specs.inner.Flat.{pair_places};
ghost use Rattle.rows.specs.inner.Rows.{rule_in};
ghost use Rattle.testing.specs.inner.Waiting.{Woken};
ghost use Rattle.marking.specs.inner.Waking.{Chained};
ghost use Rattle.marking.specs.inner.Marked.{ruled_out, marked, assigned, clashes, unassigned_out, FirstNegative, AllMarked, NotMarked};

use crate::waking::wake;
use judging::truth::Known;
use rows::RuleRow;
use table::{PAIRS, ROW};
use truths::Truth3;

// A pair is ruled out: it becomes negative, its test False, and the rules that test it are woken; how many are woken then.
fn rule_out(
    p: usize,
    n: usize,
    marks: &mut Known,
    heads: &[u16; PAIRS],
    nexts: &[u16],
    queued: &mut [bool],
    woken: &mut [u16],
    left: usize,
) -> usize
    requires { (p < pair_places) × (n ≤ rule_limit) × Chained (n * 9) heads.now nexts.now × Woken n left woken.old × (n ≤ length queued.old) }
    ensures { (marks.new ≡ ruled_out p marks.old) × Woken n result woken.new }
{
    marks.negative[p] = true;
    marks.truth[PAIRS + p] = Truth3::False;
    wake(p, n, heads, nexts, queued, woken, left)
}

// A pair becomes positive and the other values of its slot negative, NONE among them; how many rules are woken then.
fn mark(
    p: usize,
    n: usize,
    count: usize,
    marks: &mut Known,
    heads: &[u16; PAIRS],
    nexts: &[u16],
    queued: &mut [bool],
    woken: &mut [u16],
    left: usize,
) -> usize
    requires { (p < pair_places) × (count ≤ value_limit) × (n ≤ rule_limit) × Chained (n * 9) heads.now nexts.now × Woken n left woken.old × (n ≤ length queued.old) }
    ensures { (marks.new ≡ marked p count marks.old) × Woken n result woken.new }
{
    marks.positive[p] = true;
    let had = marks.truth[p] == Truth3::True;
    let test = if had { Truth3::False } else { Truth3::True };
    marks.truth[PAIRS + p] = test;
    let mut top = wake(p, n, heads, nexts, queued, woken, left);
    let first = p / ROW * ROW;
    'values: for rival in 0..count + 1 {
        let at = first + rival;
        if at == p || marks.negative[at] {
            continue 'values;
        }
        top = rule_out(at, n, marks, heads, nexts, queued, woken, top);
    }
    top
}

// What a rule assigns becomes positive, up to the first pair that is negative when its turn comes: how many rules are woken then, as an error where such a pair was met.
pub fn assign(
    row: &RuleRow,
    n: usize,
    counts: &[usize],
    marks: &mut Known,
    heads: &[u16; PAIRS],
    nexts: &[u16],
    queued: &mut [bool],
    woken: &mut [u16],
    left: usize,
) -> Result<usize, usize>
    requires { ((p : Pair) → T (among p (assignments_of (rule_in row.now.numbers))) → get_or counts.now p.slot 0 ≤ value_limit) × (n ≤ rule_limit) × Chained (n * 9) heads.now nexts.now × Woken n left woken.old × (n ≤ length queued.old) }
    ensures clash { is_err result ≡ clashes counts.now (assignments_of (rule_in row.now.numbers)) marks.old }
    ensures marks { OnOk result (marks.new ≡ assigned counts.now (assignments_of (rule_in row.now.numbers)) marks.old) }
    ensures woken { MatchResult result (λ top. Woken n top woken.new) (λ top. Woken n top woken.new) }
{
    let mut top = left;
    'assignments: for k in 0..row.assigned() {
        let number = row.assignment(k);
        let p = rows::place(number);
        if marks.negative[p] {
            return Err(top);
        }
        if marks.positive[p] {
            continue 'assignments;
        }
        let count = counts.get(p / ROW).map_or(0, |count| *count);
        top = mark(p, n, count, marks, heads, nexts, queued, woken, top);
    }
    Ok(top)
}

// Of what a rule assigns, the pairs that no rule is left to assign are ruled out, unless they are positive.
pub fn rule_out_unassigned(
    row: &RuleRow,
    n: usize,
    live: &[u16; PAIRS],
    marks: &mut Known,
    heads: &[u16; PAIRS],
    nexts: &[u16],
    queued: &mut [bool],
    woken: &mut [u16],
    left: usize,
) -> usize
    requires { (n ≤ rule_limit) × Chained (n * 9) heads.now nexts.now × Woken n left woken.old × (n ≤ length queued.old) }
    ensures { (marks.new ≡ unassigned_out live.now (assignments_of (rule_in row.now.numbers)) marks.old)
        × Woken n result woken.new }
{
    let mut top = left;
    'assignments: for k in 0..row.assigned() {
        let number = row.assignment(k);
        let p = rows::place(number);
        if 0 < live[p] || marks.positive[p] || marks.negative[p] {
            continue 'assignments;
        }
        top = rule_out(p, n, marks, heads, nexts, queued, woken, top);
    }
    top
}

// The negative pairs at first: in a slot that the slip changes the other values, elsewhere the pairs that nothing assigns.
pub fn first_negative(width: usize, live: &[u16; PAIRS], positive: &[bool; PAIRS]) -> [bool; PAIRS]
    requires { width ≤ slot_limit }
    ensures { FirstNegative width live.now positive.now result }
{
    let mut negative: [bool; PAIRS] = [false; PAIRS];
    'slots: for s in 0..width {
        let first = s * ROW;
        if results::ending::is_changed(positive, s) {
            'others: for v in 0..ROW {
                let at = first + v;
                negative[at] = !positive[at];
            }
        } else {
            'unassigned: for v in 0..ROW {
                let at = first + v;
                negative[at] = live[at] == 0;
            }
        }
    }
    negative
}

// Whether every declared pair, NONE of each slot among them, is positive or negative.
pub fn all_known(counts: &[usize], marks: &Known) -> bool
    requires { (length counts.now ≤ slot_limit) × ((i : ℕ) → i < length counts.now → get_or counts.now i 0 ≤ value_limit) }
    ensures { (result ≡ true → AllMarked counts.now marks.now.positive marks.now.negative) × (result ≡ false → NotMarked counts.now marks.now.positive marks.now.negative) }
{
    'slots: for (s, &count) in counts.iter().enumerate() {
        let first = s * ROW;
        'values: for v in 0..count + 1 {
            let at = first + v;
            if !marks.negative[at] && !marks.positive[at] {
                return false;
            }
        }
    }
    true
}
