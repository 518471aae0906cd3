// The lowest rule on a circle of dependence that passes through a NOT, by reachability over pairs.
#![tactic(auto)]

ghost use Rattle.std.specs.Prelude.{◌≡◌, ◌<◌, ◌≤◌, length, get_or, false};
ghost use Rattle.laws.specs.Limits.{rule_limit};
ghost use Rattle.laws.specs.Truth.{◌∧ᵇ◌};
ghost use Rattle.model.specs.Strata.{weak, tested, barred};
ghost use Rattle.model.specs.Circles.{circle_of};
ghost use Rattle.table.specs.inner.Flat.{pair_places};
ghost use Rattle.table.specs.Link.{rule_of, rules_of, assignments_of};
ghost use Rattle.rows.specs.inner.Rows.{rule_in};
ghost use Rattle.rows.specs.inner.RuleRows.{rows_table};
ghost use Rattle.circles.specs.inner.Named.{circle_said};
ghost use Rattle.circles.specs.inner.Links.{pair_words, linked, add_link, add_links, link_all, join_words, is_empty, close_through, leads_to, flag_leading, connected, flag_connected, spread, circled_by};

use rows::RuleRow;
use table::PAIRS;

// The words of 64 bits that a pair's links take, one bit for each pair.
const WORDS: usize = PAIRS / 64;

// The words of all pairs' links.
const LINKS: usize = PAIRS * WORDS;

// Whether a link leads from the pair at p to the pair at q.
fn linked(links: &[u64; LINKS], p: usize, q: usize) -> bool
    requires { (p < pair_places) × (q < pair_places) }
    ensures { result ≡ linked links.now p q }
{
    let at = p * WORDS + q / 64;
    let word = links[at];
    (word >> (q % 64)) % 2 == 1
}

// A link from the pair at p to the pair at q.
fn link(links: &mut [u64; LINKS], p: usize, q: usize)
    requires { (p < pair_places) × (q < pair_places) }
    ensures { links.new ≡ add_link links.old p q }
{
    let at = p * WORDS + q / 64;
    let word = links[at];
    links[at] = word | (1u64 << (q % 64));
}

// All links of k become links of p too.
fn join(links: &mut [u64; LINKS], p: usize, k: usize)
    requires { (p < pair_places) × (k < pair_places) }
    ensures { links.new ≡ join_words links.old p k pair_words }
{
    for w in 0..WORDS {
        links[p * WORDS + w] |= links[k * WORDS + w];
    }
}

// Whether no link leads from the pair at p.
fn is_empty(links: &[u64; LINKS], p: usize) -> bool
    requires { p < pair_places }
    ensures { result ≡ is_empty links.now p pair_words }
{
    for w in (0..WORDS).rev() {
        let word = links[p * WORDS + w];
        if word != 0 {
            return false;
        }
    }
    true
}

// Where links lead on, so does one link: through the pairs one after the other. A pair from which no link leads is passed over.
fn close(links: &mut [u64; LINKS])
    ensures { links.new ≡ close_through links.old pair_places }
{
    'through: for k in 0..PAIRS {
        if is_empty(links, k) {
            continue 'through;
        }
        'from: for p in 0..PAIRS {
            if !linked(links, p, k) {
                continue 'from;
            }
            join(links, p, k);
        }
    }
}

// Links from the pair at p to the pairs that a rule tests by `*=`.
fn link_tested(row: &RuleRow, p: usize, links: &mut [u64; LINKS])
    requires { p < pair_places }
    ensures { links.new ≡ add_links p (tested (rule_of (rule_in row.now.numbers))) links.old }
{
    let at = rows::place(row.trigger());
    link(links, p, at);
    let m = row.tested();
    'literals: for j in 0..m {
        let x = row.literal(j);
        if !rows::is_becomes(x) {
            continue 'literals;
        }
        let q = rows::place(x);
        link(links, p, q);
    }
}

// Links from each pair that a rule assigns to each that it tests.
fn link_rule(row: &RuleRow, links: &mut [u64; LINKS])
    ensures { links.new ≡ link_all (assignments_of (rule_in row.now.numbers)) (tested (rule_of (rule_in row.now.numbers))) links.old }
{
    let m = row.assigned();
    for k in 0..m {
        let p = rows::place(row.assignment(k));
        link_tested(row, p, links);
    }
}

// Whether the pair at p is one that a rule assigns, or a link leads from it to one.
fn leads_to(row: &RuleRow, p: usize, links: &[u64; LINKS]) -> bool
    requires { p < pair_places }
    ensures { result ≡ leads_to links.now p (assignments_of (rule_in row.now.numbers)) }
{
    let m = row.assigned();
    for k in 0..m {
        let q = rows::place(row.assignment(k));
        if p == q || linked(links, p, q) {
            return true;
        }
    }
    false
}

// Flags the pairs that a rule tests under NOT and that lead to one that it assigns.
fn flag_barred(row: &RuleRow, links: &[u64; LINKS], flags: &mut [bool; PAIRS])
    ensures { flags.new ≡ flag_leading links.now (barred (rule_of (rule_in row.now.numbers))) (assignments_of (rule_in row.now.numbers)) flags.old }
{
    let m = row.tested();
    'literals: for j in 0..m {
        let x = row.literal(j);
        if !rows::is_under_not(x) {
            continue 'literals;
        }
        let p = rows::place(x);
        if !leads_to(row, p, links) {
            continue 'literals;
        }
        flags[p] = true;
    }
}

// Whether the pairs at p and k are one, or links lead from each to the other.
fn connected(links: &[u64; LINKS], p: usize, k: usize) -> bool
    requires { (p < pair_places) × (k < pair_places) }
    ensures { result ≡ connected links.now p k }
{
    p == k || linked(links, p, k) && linked(links, k, p)
}

// Flags the pairs that are connected with the pair at k.
fn flag_connected(links: &[u64; LINKS], k: usize, flags: &mut [bool; PAIRS])
    requires { k < pair_places }
    ensures { flags.new ≡ flag_connected links.now k flags.old pair_places }
{
    'pairs: for p in 0..PAIRS {
        if !connected(links, p, k) {
            continue 'pairs;
        }
        flags[p] = true;
    }
}

// The flags carried to all pairs that are connected with a flagged one.
fn spread(links: &[u64; LINKS], flags: &[bool; PAIRS]) -> [bool; PAIRS]
    ensures { result ≡ spread links.now flags.now pair_places }
{
    let mut all: [bool; PAIRS] = [false; PAIRS];
    'flagged: for k in 0..PAIRS {
        if !flags[k] {
            continue 'flagged;
        }
        flag_connected(links, k, &mut all);
    }
    all
}

// Whether a flagged pair at p leads to one that a rule assigns.
fn leads_back(row: &RuleRow, p: usize, links: &[u64; LINKS], flags: &[bool; PAIRS]) -> bool
    requires { p < pair_places }
    ensures { result ≡ (get_or flags.now p false ∧ᵇ leads_to links.now p (assignments_of (rule_in row.now.numbers))) }
{
    flags[p] && leads_to(row, p, links)
}

// Whether a rule is on a circle through a NOT: a flagged pair that it tests leads to one that it assigns.
fn is_circled(row: &RuleRow, links: &[u64; LINKS], flags: &[bool; PAIRS]) -> bool
    ensures { result ≡ circled_by links.now flags.now (rule_of (rule_in row.now.numbers)) }
{
    let at = rows::place(row.trigger());
    if leads_back(row, at, links, flags) {
        return true;
    }
    let m = row.tested();
    'literals: for j in 0..m {
        let x = row.literal(j);
        if !rows::is_becomes(x) {
            continue 'literals;
        }
        let p = rows::place(x);
        if leads_back(row, p, links, flags) {
            return true;
        }
    }
    false
}

// The lowest rule on a circle through a NOT, from 1.
pub fn lowest(rows: &[RuleRow]) -> Option<usize>
    requires { length rows.now ≤ rule_limit }
    ensures { result ≡ circle_said (circle_of weak (rules_of (rows_table rows.now))) }
{
    let mut links: [u64; LINKS] = [0; LINKS];
    'links: for row in rows {
        link_rule(row, &mut links);
    }
    close(&mut links);
    let mut flags: [bool; PAIRS] = [false; PAIRS];
    'flags: for row in rows {
        flag_barred(row, &links, &mut flags);
    }
    let all = spread(&links, &flags);
    'search: for (k, row) in rows.iter().enumerate() {
        if is_circled(row, &links, &all) {
            return Some(k + 1);
        }
    }
    None
}
