// An order to visit rules in: set by set of rules that wait for each other, each after those that it waits for. It is a hint: all that is proved of it is that it names rules.
ghost use Rattle.std.specs.Prelude.{◌+◌, ◌*◌, ◌-◌, ◌≤◌, ◌<◌, length, IfSome};
ghost use Rattle.laws.specs.Limits.{rule_limit, literal_limit, assignment_limit};
ghost use Rattle.table.specs.inner.Flat.{pair_places};
ghost use Rattle.strata.specs.inner.Visits.{node_limit, AtMost, Visits};

use rows::RuleRow;
use table::{ASSIGNMENTS, LITERALS, PAIRS, RULES};

// The places of all rules' assignments.
const PLACES: usize = RULES * ASSIGNMENTS;

// The places of an order: three for each rule.
pub const VISITS: usize = 3 * RULES;

// The nodes that the search goes through: each rule by its place, then the start, which leads to all rules, then each pair.
const NODES: usize = RULES + 1 + PAIRS;

// The steps that the search takes for a rule at most: to take it up from the start, to leave it, to pass each of its tests, and to take up each of its assignments.
const STEPS: usize = 2 + (LITERALS + 1) + ASSIGNMENTS;

// The assignments of each pair chained: `heads` has a pair's last assignment, `nexts` the one before each; both by their places from 1, and 0 ends a chain (two bytes a place, where an `Option` takes four).
fn chain_assigned(rows: &[RuleRow], heads: &mut [u16; PAIRS], nexts: &mut [u16; PLACES])
    requires { (length rows.now ≤ rule_limit) × AtMost (assignment_limit * length rows.now) heads.old × AtMost (assignment_limit * length rows.now) nexts.old }
    ensures { AtMost (assignment_limit * length rows.now) heads.new × AtMost (assignment_limit * length rows.now) nexts.new }
{
    'rules: for (i, row) in rows.iter().enumerate() {
        'assignments: for k in 0..row.assigned() {
            let p = rows::place(row.assignment(k));
            let at = i * ASSIGNMENTS + k;
            nexts[at] = heads[p];
            heads[p] = (at + 1) as u16;
        }
    }
}

// The number of a rule's test j, the trigger's being 0.
fn test_at(row: &RuleRow, j: usize) -> u16
    requires { j ≤ literal_limit }
{
    if j == 0 {
        row.awaited()
    } else {
        row.literal(j - 1)
    }
}

// The node that a node leads to next, or none where it has led to all: the start leads to each rule, a rule to each pair that it tests,
// a pair to each rule that assigns it. A test of what was leads back to its rule.
fn led_to(
    rows: &[RuleRow],
    v: usize,
    nexts: &[u16; PLACES],
    heads: &mut [u16; PAIRS],
    passed: &mut [u16; RULES + 1],
) -> Option<usize>
    requires { (length rows.now ≤ rule_limit) × (v ≤ length rows.now + pair_places) × AtMost (assignment_limit * length rows.now) nexts.now × AtMost (assignment_limit * length rows.now) heads.old }
    ensures { IfSome result (λ w. w ≤ length rows.now + pair_places) × AtMost (assignment_limit * length rows.now) heads.new }
{
    let n = rows.len();
    if n < v {
        let p = v - n - 1;
        let head = usize::from(heads[p]);
        if head == 0 {
            return None;
        }
        heads[p] = nexts[head - 1];
        return Some((head - 1) / ASSIGNMENTS);
    }
    let j = usize::from(passed[v]);
    if v == n {
        if n <= j {
            return None;
        }
        passed[v] = (j + 1) as u16;
        return Some(j);
    }
    let row = &rows[v];
    if row.tested() < j {
        return None;
    }
    passed[v] = (j + 1) as u16;
    let test = test_at(row, j);
    if rows::is_becomes(test) {
        return Some(n + 1 + rows::place(test));
    }
    Some(v)
}

// A visit of the node v at the end of the order, an array that is lent since there is no heap, if it is a rule and the order has a place; how many visits stand in it then.
fn add_visit(n: usize, v: u16, order: &mut [u16; VISITS], tail: usize) -> usize
    requires { (n ≤ rule_limit) × Visits n tail order.old }
    ensures { Visits n result order.new }
{
    if usize::from(v) < n && tail < VISITS {
        order[tail] = v;
        return tail + 1;
    }
    tail
}

// The rules among some nodes written at the end of the order; how many visits stand in it then.
// Where they are more than one rule, also back and onward once more, so that a number that enters a circle at any of its rules goes all the way round.
fn emit(n: usize, nodes: &[u16], order: &mut [u16; VISITS], tail: usize) -> usize
    requires { (n ≤ rule_limit) × Visits n tail order.old }
    ensures { Visits n result order.new }
{
    let mut t = tail;
    'onward: for &v in nodes {
        t = add_visit(n, v, order, t);
    }
    if tail + 1 < t {
        'back: for &v in nodes.iter().rev() {
            t = add_visit(n, v, order, t);
        }
        'again: for &v in nodes {
            t = add_visit(n, v, order, t);
        }
    }
    t
}

// Some nodes are closed: nothing that leads to them is lowered by them.
fn close(nodes: &[u16], lows: &mut [u16; NODES])
    requires { AtMost (node_limit - 1) nodes.now }
{
    for &v in nodes {
        lows[usize::from(v)] = (NODES + 1) as u16;
    }
}

// The number at v is x where that is lower.
fn lower(lows: &mut [u16; NODES], v: usize, x: u16)
    requires { v < node_limit }
{
    lows[v] = lows[v].min(x);
}

// The order, and how many visits stand in it: set by set of rules that wait for each other, each set after those that it waits for.
// This is Tarjan's search of strongly connected components, depth first: rules that wait for each other, with the pairs between them. Each node found gets the next of `numbers`; `lows` has the lowest number of an open node that it leads to,
// 0 before it is found and one above all numbers when it is closed; `marks` has how many nodes stood in `opens` when it was found. A node that has led to all is put at the end of `opens`;
// where it leads to none found before it, those from its mark on are one set, in the order in which they came there.
// Each assignment and each test is passed once and each rule emitted three times at most, so that `left`, nodes and places are never used up; they are tested so that
// the search ends and stays within its arrays by its form. The arrays stand beside each other: one of structs with three numbers each would say the same in more words.
pub fn order_of(rows: &[RuleRow], order: &mut [u16; VISITS]) -> usize
    requires { (length rows.now ≤ rule_limit) × AtMost (length rows.now - 1) order.old }
    ensures { Visits (length rows.now) result order.new }
{
    let n = rows.len();
    let mut heads: [u16; PAIRS] = [0; PAIRS];
    let mut nexts: [u16; PLACES] = [0; PLACES];
    chain_assigned(rows, &mut heads, &mut nexts);
    let mut passed: [u16; RULES + 1] = [0; RULES + 1];
    let mut numbers: [u16; NODES] = [0; NODES];
    let mut lows: [u16; NODES] = [0; NODES];
    let mut marks: [u16; NODES] = [0; NODES];
    let mut stack: [u16; NODES] = [0; NODES];
    let mut opens: [u16; NODES] = [0; NODES];
    let mut left = n * STEPS + 1 + PAIRS;
    let mut tail: usize = 0;
    let mut opened: usize = 0;
    let mut found: usize = 1;
    numbers[n] = 1;
    lows[n] = 1;
    stack[0] = n as u16;
    let mut top: usize = 1;
    // The stack ends the search, and nodes are put on it on the way: no range is known before.
    'search: while 0 < top {
        if left == 0 {
            return tail;
        }
        left -= 1;
        let v = usize::from(stack[top - 1]);
        let Some(w) = led_to(rows, v, &nexts, &mut heads, &mut passed) else {
            top -= 1;
            opens[opened] = v as u16;
            opened += 1;
            let low = lows[v];
            if low == numbers[v] {
                let mark = usize::from(marks[v]).min(opened);
                tail = emit(n, &opens[mark..opened], order, tail);
                close(&opens[mark..opened], &mut lows);
                opened = mark;
                continue 'search;
            }
            if 0 < top {
                lower(&mut lows, usize::from(stack[top - 1]), low);
            }
            continue 'search;
        };
        let x = lows[w];
        if 0 < x {
            lower(&mut lows, v, x);
            continue 'search;
        }
        if NODES <= found {
            return tail;
        }
        found += 1;
        numbers[w] = found as u16;
        lows[w] = found as u16;
        marks[w] = opened as u16;
        stack[top] = w as u16;
        top += 1;
    }
    tail
}
