// Which rule firing looks at next. The rules woken are a stack in an array that is lent, with how many stand on it beside it: there is no heap. A rule that was passed over at a plain `*=` waits at its pair, and is woken when that pair comes; this saves passes over a stratum and decides nothing.
ghost use Rattle.std.specs.Prelude.{◌≡◌, ℕ, ◌^◌, ◌≤◌, ◌<◌, length};
ghost use Rattle.laws.specs.Limits.{rule_limit};
ghost use Rattle.table.specs.inner.Flat.{pair_places};
ghost use Rattle.rows.specs.inner.Rows.{tests};
ghost use Rattle.testing.specs.inner.Waiting.{Waiting, Woken, turn_or, turn_of};

use table::PAIRS;

// A rule, from 0, with the place in the sorted rules and the number of woken rules that are left after it.
#[derive(Clone, Copy)]
pub struct Turn {
    pub rule: usize,
    pub place: usize,
    pub left: usize,
}

// The rule woken last, or else the given one, which stands at place k.
pub fn next_or(rule: usize, k: usize, woken: &[u16], left: usize) -> Turn
    requires { (left ≤ length woken.now) × (left ≡ 0 → k < 2 ^ 63) }
    ensures { result ≡ turn_or rule k woken.now left }
{
    if 0 < left {
        let rest = left - 1;
        return Turn {
            rule: usize::from(woken[rest]),
            place: k,
            left: rest,
        };
    }
    Turn {
        rule,
        place: k + 1,
        left: 0,
    }
}

// The rule woken last, or else the one at place k of the sorted rules.
pub fn next_rule(positions: &[u16], k: usize, woken: &[u16], left: usize) -> Turn
    requires { (left ≤ length woken.now) × (left ≡ 0 → k < length positions.now) }
    ensures { result ≡ turn_of positions.now k woken.now left }
{
    let placed = if left == 0 {
        usize::from(positions[k])
    } else {
        0
    };
    next_or(placed, k, woken, left)
}

// In the first pass over a stratum a rule that was passed over at a plain `*=` comes to the head of those that wait at its pair; rules are counted from 1 and 0 ends a chain (two bytes a rule, where an `Option` takes four).
pub fn wait(first: bool, number: u16, i: usize, heads: &mut [u16; PAIRS], nexts: &mut [u16])
    requires { (number < tests) × (i < length nexts.old) × (length nexts.old ≤ rule_limit) }
    ensures { (n : ℕ) → i < n → Waiting n heads.old nexts.old → Waiting n heads.new nexts.new }
{
    if !first || !rows::is_plain(number) {
        return;
    }
    let p = rows::place(number);
    let head = heads[p];
    nexts[i] = head;
    let next = i + 1;
    heads[p] = next as u16;
}

// Those that wait at a pair are woken: they go on top of the rules woken before, of which there are never more than rules; how many are woken then.
pub fn wake(
    p: usize,
    n: usize,
    heads: &mut [u16; PAIRS],
    nexts: &[u16],
    woken: &mut [u16],
    left: usize,
) -> usize
    requires { (p < pair_places) × (n ≤ rule_limit) × (n ≤ length nexts.now) × Waiting n heads.old nexts.now × Woken n left woken.old }
    ensures { Waiting n heads.new nexts.now × Woken n result woken.new }
{
    let mut top = left;
    let mut x = heads[p];
    heads[p] = 0;
    // The chain ends where its next is 0, and the room at n: no range is known before.
    while top < n {
        if x == 0 {
            return top;
        }
        let i = usize::from(x) - 1;
        woken[top] = i as u16;
        top += 1;
        x = nexts[i];
    }
    top
}
