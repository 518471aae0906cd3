// The rules that test a pair by `*=` are chained to it, and are woken when it is marked, to be looked at next; this saves sweeps over the rules and decides nothing. The rules woken are a stack in an array that is lent, with how many stand on it beside it: there is no heap. What waking is lent is no struct: each function would have to say of each lent array in it that it comes back.
ghost use Rattle.std.specs.Prelude.{◌+◌, ◌*◌, ◌≤◌, ◌<◌, length};
ghost use Rattle.laws.specs.Limits.{rule_limit};
ghost use Rattle.table.specs.inner.Flat.{pair_places};
ghost use Rattle.testing.specs.inner.Waiting.{Woken};
ghost use Rattle.marking.specs.inner.Waking.{Chained, test_places};

use rows::RuleRow;
use table::{LITERALS, PAIRS};

// The places where a rule can test a pair: its trigger and its literals.
pub const EACH: usize = LITERALS + 1;

// Chains the place o to the pair at p; places are counted from 1 and 0 ends a chain (two bytes a place, where an `Option` takes four).
fn link(p: usize, o: usize, heads: &mut [u16; PAIRS], nexts: &mut [u16])
    requires { (p < pair_places) × (o < test_places) × (o < length nexts.old) }
    ensures { Chained o heads.old nexts.old → Chained (o + 1) heads.new nexts.new }
{
    let head = heads[p];
    nexts[o] = head;
    heads[p] = (o + 1) as u16;
}

// Chains the places of rule i, from 0, to the pairs that it tests by `*=`.
pub fn chain(row: &RuleRow, i: usize, heads: &mut [u16; PAIRS], nexts: &mut [u16])
    requires { (i < rule_limit) × ((i + 1) * 9 ≤ length nexts.old) }
    ensures { Chained (i * 9) heads.old nexts.old → Chained ((i + 1) * 9) heads.new nexts.new }
{
    let first = i * EACH;
    let trigger = row.trigger();
    let at = rows::place(trigger);
    link(at, first, heads, nexts);
    'literals: for j in 0..row.tested() {
        let x = row.literal(j);
        if rows::is_becomes(x) {
            link(rows::place(x), first + 1 + j, heads, nexts);
        }
    }
}

// The rules that test a pair are woken: each that is not among the rules woken before goes on top of them; how many are woken then.
pub fn wake(
    p: usize,
    n: usize,
    heads: &[u16; PAIRS],
    nexts: &[u16],
    queued: &mut [bool],
    woken: &mut [u16],
    left: usize,
) -> usize
    requires { (p < pair_places) × (n ≤ rule_limit) × Chained (n * 9) heads.now nexts.now × Woken n left woken.old × (n ≤ length queued.old) }
    ensures { Woken n result woken.new }
{
    let mut top = left;
    let mut x = heads[p];
    // A chain, as long as its numbers lead on: no range is known before.
    'chain: while 0 < x {
        let o = usize::from(x) - 1;
        x = nexts[o];
        let i = o / EACH;
        if queued[i] || n <= top {
            continue 'chain;
        }
        queued[i] = true;
        woken[top] = i as u16;
        top += 1;
    }
    top
}
