// The test that rows carry the least strata, a part of 31. Strata are the least exactly where each is at least as high as it is asked, and justified:
// it is the first, or one more than that of a rule whose pair it tests under NOT, or level with that of a justified rule whose pair it needs.
// In time that grows with the rules and their literals: a pair is flagged once, and a place where a pair is needed is looked at once.
#![tactic(auto)]

ghost use Rattle.std.specs.Prelude.{◌≡◌, true, false, ◌+◌, ◌*◌, ◌≤◌, ◌<◌, length};
ghost use Rattle.laws.specs.inner.Flags.{all_set};
ghost use Rattle.model.specs.Strata.{needed, barred};
ghost use Rattle.laws.specs.Limits.{rule_limit};
ghost use Rattle.table.specs.inner.Flat.{pair_places};
ghost use Rattle.table.specs.Link.{rule_of, assignments_of};
ghost use Rattle.rows.specs.inner.Rows.{rule_in};
ghost use Rattle.rows.specs.inner.RuleRows.{numbers_of, rows_table};
ghost use Rattle.strata.specs.inner.Heights.{Small};
ghost use Rattle.leastness.specs.CarriesLeast.{carries_least};
ghost use Rattle.leastness.specs.inner.Low.{Low, Unheld, Unchained};
ghost use Rattle.leastness.specs.inner.OneBelow.{one_below};
ghost use Rattle.leastness.specs.inner.Chains.{needs_places, head_at, nexts_at, heads_with, nexts_with};
ghost use Rattle.leastness.specs.inner.Flagging.{flagging, Room, flag_all};

use rows::{FEW, RuleRow, SOME};
use table::{LITERALS, PAIRS, RULES};

// The places where a rule can need a pair: its trigger and its literals. (`marking` has as many; neither crate uses the other.)
const EACH: usize = LITERALS + 1;

const FEW_PLACES: usize = FEW * EACH;

const SOME_PLACES: usize = SOME * EACH;

const ALL_PLACES: usize = RULES * EACH;

// Whether a pair that a rule tests under NOT has a number one below s.
fn one_below(row: &RuleRow, s: u16, high: &[u16; PAIRS]) -> bool
    requires { Small high.now }
    ensures { result ≡ one_below high.now s (barred (rule_of (rule_in row.now.numbers))) }
{
    let m = row.tested();
    'literals: for j in 0..m {
        let x = row.literal(j);
        if !rows::is_under_not(x) {
            continue 'literals;
        }
        let k = rows::place(x);
        let h = high[k];
        if h + 1 == s {
            return true;
        }
    }
    false
}

// Chains the place o to the pair at k, if that has the number s; places are counted from 1 and 0 ends a chain (two bytes a place, where an `Option` takes four).
fn chain(
    k: usize,
    o: usize,
    s: u16,
    high: &[u16; PAIRS],
    heads: &mut [u16; PAIRS],
    nexts: &mut [u16],
)
    requires { (k < pair_places) × (o < needs_places) × (o < length nexts.old) }
    ensures { (heads.new ≡ head_at high.now s k o heads.old) × (nexts.new ≡ nexts_at high.now s k o heads.old nexts.old) }
{
    let h = high[k];
    if h == s {
        let x = heads[k];
        nexts[o] = x;
        heads[k] = (o + 1) as u16;
    }
}

// Chains the places of rule i, from 0, to the pairs of number s that it needs.
fn chain_needed(
    row: &RuleRow,
    i: usize,
    s: u16,
    high: &[u16; PAIRS],
    heads: &mut [u16; PAIRS],
    nexts: &mut [u16],
)
    requires { (i < rule_limit) × ((i + 1) * 9 ≤ length nexts.old) }
    ensures { (heads.new ≡ heads_with high.now s (needed (rule_of (rule_in row.now.numbers))) (i * 9) heads.old)
        × (nexts.new ≡ nexts_with high.now s (needed (rule_of (rule_in row.now.numbers))) (i * 9) heads.old nexts.old) }
{
    let t = row.trigger();
    let at = rows::place(t);
    let first = i * EACH;
    chain(at, first, s, high, heads, nexts);
    let mut o = first + 1;
    let m = row.tested();
    'literals: for j in 0..m {
        let x = row.literal(j);
        if !rows::is_plain(x) {
            continue 'literals;
        }
        let k = rows::place(x);
        chain(k, o, s, high, heads, nexts);
        o += 1;
    }
}

// Flags the pairs of number s that a rule assigns, and puts those that were not flagged behind the first `top` of the queue, an array that is lent since there is no heap; how many stand there then.
fn flag_assigned(
    row: &RuleRow,
    s: u16,
    high: &[u16; PAIRS],
    flags: &mut [bool; PAIRS],
    queue: &mut [u16; PAIRS],
    top: usize,
) -> usize
    requires { Room flags.old top }
    ensures { flagging flags.new queue.new result ≡ flag_all high.now s (assignments_of (rule_in row.now.numbers)) (flagging flags.old queue.old top) }
{
    let m = row.assigned();
    let mut n = top;
    'pairs: for k in 0..m {
        let x = row.assignment(k);
        let p = rows::place(x);
        if high[p] != s {
            continue 'pairs;
        }
        if flags[p] {
            continue 'pairs;
        }
        flags[p] = true;
        queue[n] = p as u16;
        n += 1;
    }
    n
}

// Whether all rules are held.
fn all_held(held: &[bool]) -> bool
    ensures { result ≡ all_set held.now (length held.now) }
{
    for &is_held in held {
        if !is_held {
            return false;
        }
    }
    true
}

// Whether no rule carries a stratum above the number of rules: none of the least is.
fn is_low(rows: &[RuleRow]) -> bool
    requires { length rows.now ≤ rule_limit }
    ensures { (result ≡ true → Low (numbers_of rows.now) (length rows.now)) × (result ≡ false → false ≡ carries_least (rows_table rows.now)) }
{
    for row in rows {
        if rows.len() < usize::from(row.stratum()) {
            return false;
        }
    }
    true
}

// Whether rows with such strata carry the least: each stratum is at least as high as it is asked, and each rule is held once its number is
// found justified, by itself or from the queue of pairs that a held rule assigns at their highest number.
fn are_held(rows: &[RuleRow], held: &mut [bool], nexts: &mut [u16]) -> bool
    requires { (length rows.now ≤ rule_limit) × Low (numbers_of rows.now) (length rows.now) × Unheld (length rows.now) held.old × Unchained (length rows.now) nexts.old }
    ensures { result ≡ carries_least (rows_table rows.now) }
{
    let mut high: [u16; PAIRS] = [0; PAIRS];
    'gather: for row in rows {
        let s = row.stratum();
        strata::least::raise(row, s, &mut high);
    }
    let mut flags: [bool; PAIRS] = [false; PAIRS];
    let mut queue: [u16; PAIRS] = [0; PAIRS];
    let mut top: usize = 0;
    let mut heads: [u16; PAIRS] = [0; PAIRS];
    'ask: for (k, row) in rows.iter().enumerate() {
        let s = row.stratum();
        let h = strata::least::asked(row, &high);
        if s < h {
            return false;
        }
        if s <= 1 {
            held[k] = true;
            continue 'ask;
        }
        if one_below(row, s, &high) {
            held[k] = true;
            top = flag_assigned(row, s, &high, &mut flags, &mut queue, top);
            continue 'ask;
        }
        chain_needed(row, k, s, &high, &mut heads, nexts);
    }
    let mut at: usize = 0;
    // The queue grows on the way: no range is known before.
    'work: while at < top {
        let p = usize::from(queue[at]);
        at += 1;
        let mut x = heads[p];
        // A chain ends where its next is 0.
        'chain: while 0 < x {
            let o = (x - 1) as usize;
            x = nexts[o];
            let m = o / EACH;
            if held[m] {
                continue 'chain;
            }
            held[m] = true;
            let row = &rows[m];
            let s = row.stratum();
            top = flag_assigned(row, s, &high, &mut flags, &mut queue, top);
        }
    }
    all_held(&held[..rows.len()])
}

// Whether low rows carry the least strata, with room for N rules set aside, and for M places.
fn is_least_in<const N: usize, const M: usize>(rows: &[RuleRow]) -> bool
    requires { Low (numbers_of rows.now) (length rows.now) × (length rows.now ≤ N) × (N ≤ rule_limit) × (M ≡ 9 * N) }
    ensures { result ≡ carries_least (rows_table rows.now) }
{
    let mut held: [bool; N] = [false; N];
    let mut nexts: [u16; M] = [0; M];
    are_held(rows, &mut held, &mut nexts)
}

// Whether rows carry the least strata.
pub fn is_least(rows: &[RuleRow]) -> bool
    requires { length rows.now ≤ rule_limit }
    ensures { result ≡ carries_least (rows_table rows.now) }
{
    let n = rows.len();
    if !is_low(rows) {
        return false;
    }
    if n <= FEW {
        return is_least_in::<FEW, { FEW_PLACES }>(rows);
    }
    if n <= SOME {
        return is_least_in::<SOME, { SOME_PLACES }>(rows);
    }
    is_least_in::<RULES, { ALL_PLACES }>(rows)
}
