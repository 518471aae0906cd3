// Writes what the crate strata says of each table on standard input, then of chains of many lengths.
#![tactic(auto)]

ghost use Rattle.std.specs.Prelude.{◌≤◌, length};
ghost use Rattle.laws.specs.Limits.{rule_limit};

use rows::RuleRow;
use std::io;
use table::{ASSIGNMENTS, Assignment, LITERALS, Literal, RULES, Rule, SLOTS, Table};

// The most bytes that are read of the input.
const INPUT: usize = 262144;

// The rules of the longest chain that does not come round to its first pair.
const OPEN: u16 = 479;

// What is left of the input.
#[derive(Drop)]
struct Input<'a> {
    rest: &'a [u8],
}

impl<'a> Input<'a> {
    // The next byte, 0 after the end.
    fn byte(&mut self) -> u8 {
        match self.rest {
            [first, rest @ ..] => {
                self.rest = rest;
                *first
            }
            [] => 0,
        }
    }

    // The number that the next two bytes make, the high one first.
    fn double(&mut self) -> u16 {
        let high = self.byte();
        let low = self.byte();
        u16::from_be_bytes([high, low])
    }
}

// The places that so many rules use: no more than there are.
fn places(count: u16) -> usize
    ensures { result ≤ rule_limit }
{
    usize::from(count).min(RULES)
}

// The literal places of a rule: those used as the input has them, the others filled with one number.
fn read_literals(input: &mut Input, r: &mut Rule, fill: u8) {
    let tested = usize::from(r.tested);
    for j in 0..LITERALS {
        if j < tested {
            let flags = input.byte();
            let slot = input.byte();
            let value = input.byte();
            r.literals[j] = Literal {
                becomes: flags % 2 == 1,
                negated: 2 <= flags,
                slot,
                value,
            };
        } else {
            r.literals[j] = Literal {
                becomes: true,
                negated: true,
                slot: fill,
                value: fill,
            };
        }
    }
}

// The assignment places of a rule, in the same manner.
fn read_assignments(input: &mut Input, r: &mut Rule, fill: u8) {
    let assigned = usize::from(r.assigned);
    for j in 0..ASSIGNMENTS {
        if j < assigned {
            let slot = input.byte();
            let value = input.byte();
            r.assignments[j] = Assignment { slot, value };
        } else {
            r.assignments[j] = Assignment {
                slot: fill,
                value: fill,
            };
        }
    }
}

// A rule: trigger, stratum (high byte first), literals used, assignments used, each number before what it counts.
fn read_rule(input: &mut Input, fill: u8) -> Rule {
    let mut r = table::empty_rule();
    r.slot = input.byte();
    r.value = input.byte();
    r.stratum = input.double();
    r.tested = input.byte();
    read_literals(input, &mut r, fill);
    r.assigned = input.byte();
    read_assignments(input, &mut r, fill);
    r
}

// A table: what fills unused places, the number of slots and the values of each, the number of rules (high byte first) and the rules.
fn read_table(input: &mut Input) -> Table {
    let fill = input.byte();
    let width = u16::from(input.byte());
    let mut t = table::empty_table();
    t.width = width;
    'slots: for k in 0..SLOTS {
        let used = k < usize::from(width);
        t.slots[k].count = u16::from(if used { input.byte() } else { fill });
    }
    let count = input.double();
    t.count = count;
    'rules: for i in 0..places(count) {
        t.rules[i] = read_rule(input, fill);
    }
    t
}

// A space and a number.
fn write_number(rt: &impl Print, n: usize) -> io::Result<()> {
    print!(rt; " {n}")
}

// A space and 1 for yes, 0 for no.
fn write_answer(rt: &impl Print, yes: bool) -> io::Result<()> {
    write_number(rt, usize::from(yes))
}

// The strata that a table carries.
fn write_strata(rt: &impl Print, t: Table) -> io::Result<()> {
    for i in 0..places(t.count) {
        write_number(rt, usize::from(t.rules[i].stratum))?;
    }
    Ok(())
}

// The least strata of a table's rules, found from its rows and stored into it; or the lowest rule on a circle through a NOT, from 1.
fn layer(t: Table, rows: &[RuleRow]) -> Result<Table, usize>
    requires { length rows.now ≤ rule_limit }
{
    let mut numbers: [u16; RULES] = [0; RULES];
    strata::least::find(rows, &mut numbers)?;
    let mut u = t;
    for i in 0..rows.len() {
        u.rules[i].stratum = numbers[i];
    }
    Ok(u)
}

// What `layer` says of a table, and whether the table that it hands out passes, or the empty one in its place.
fn write_layering(rt: &impl Print, t: Table) -> io::Result<()> {
    let mut counts: [usize; SLOTS] = [0; SLOTS];
    let mut rows = rows::room::<RULES>();
    let Some(entry) = soundness::enter(&t, &mut counts, &mut rows) else {
        return Ok(());
    };
    let u = match layer(t, &rows[..entry.count]) {
        Ok(layered) => {
            print!(rt; " layered")?;
            write_strata(rt, layered)?;
            layered
        }
        Err(circle) => {
            print!(rt; " circle")?;
            write_number(rt, circle)?;
            table::empty_table()
        }
    };
    print!(rt; " passes")?;
    write_answer(rt, soundness::is_sound(u))
}

// All that is said of a table.
fn write_table(rt: &impl Print, t: Table) -> io::Result<()> {
    print!(rt; " form")?;
    write_answer(rt, soundness::is_well_formed(t))?;
    print!(rt; " sound")?;
    write_answer(rt, soundness::is_sound(t))?;
    write_layering(rt, t)?;
    print!(rt; "\n")
}

// The tables of the input.
fn write_cases(rt: &impl Print, s: &[u8]) -> io::Result<()> {
    let mut input = Input { rest: s };
    let cases = usize::from(input.byte());
    for number in 1..=cases {
        let t = read_table(&mut input);
        print!(rt; "case")?;
        write_number(rt, number)?;
        write_table(rt, t)?;
    }
    Ok(())
}

// The rule that tests pair a and assigns pair b, of 480 pairs that go round the 32 slots.
fn link(a: usize, b: usize) -> Rule {
    let mut r = table::empty_rule();
    r.slot = (a % 32) as u8;
    r.value = (a / 32 % 15 + 1) as u8;
    r.assignments[0] = Assignment {
        slot: (b % 32) as u8,
        value: (b / 32 % 15 + 1) as u8,
    };
    r.assigned = 1;
    r
}

// The rule that bars pair a, waits for the last pair, and assigns pair b.
fn barring_link(a: usize, b: usize) -> Rule {
    let mut r = link(479, b);
    r.literals[0] = Literal {
        becomes: true,
        negated: true,
        slot: (a % 32) as u8,
        value: (a / 32 % 15 + 1) as u8,
    };
    r.tested = 1;
    r
}

// The rule that tests pair a, plainly or under NOT, and assigns pair b.
fn link_by(a: usize, b: usize, under_not: bool) -> Rule {
    if under_not {
        return barring_link(a, b);
    }
    link(a, b)
}

// A chain of so many rules: each tests what the one before it assigns, or the one after it; plainly or under NOT.
fn chain(length: u16, backward: bool, under_not: bool) -> Table {
    let mut t = table::empty_table();
    t.width = SLOTS as u16;
    t.count = length;
    'slots: for k in 0..SLOTS {
        t.slots[k].count = 15;
    }
    'rules: for i in 0..places(length) {
        t.rules[i] = if backward {
            link_by(i + 1, i, under_not)
        } else {
            link_by(i, i + 1, under_not)
        };
    }
    t
}

// What `layer` says of a chain: the strata of its first and its last rule, and whether the table then passes.
fn write_chain(rt: &impl Print, t: Table) -> io::Result<()> {
    let mut counts: [usize; SLOTS] = [0; SLOTS];
    let mut rows = rows::room::<RULES>();
    let Some(entry) = soundness::enter(&t, &mut counts, &mut rows) else {
        return Ok(());
    };
    let u = match layer(t, &rows[..entry.count]) {
        Ok(layered) => layered,
        Err(_) => table::empty_table(),
    };
    let n = u.count as usize;
    let first = u.rules[0];
    write_number(rt, usize::from(first.stratum))?;
    if 0 < n && n <= RULES {
        let last = u.rules[n - 1];
        write_number(rt, usize::from(last.stratum))?;
    }
    write_answer(rt, soundness::is_sound(u))?;
    print!(rt; "\n")
}

// One chain under its name.
fn write_named(
    rt: &impl Print,
    name: &[u8],
    length: u16,
    backward: bool,
    under_not: bool,
) -> io::Result<()> {
    rt.write_all(name)?;
    write_number(rt, usize::from(length))?;
    write_chain(rt, chain(length, backward, under_not))
}

// The chains of one length: both ways, plain and under NOT.
fn write_length(rt: &impl Print, length: u16) -> io::Result<()> {
    write_named(rt, b"forward", length, false, false)?;
    write_named(rt, b"backward", length, true, false)?;
    write_named(rt, b"forward-not", length, false, true)?;
    write_named(rt, b"backward-not", length, true, true)
}

// Chains of every length that does not come round, then those of as many rules as a table may have, which do.
fn write_chains(rt: &impl Print) -> io::Result<()> {
    for length in 1..=OPEN {
        write_length(rt, length)?;
    }
    write_length(rt, RULES as u16)
}

fn main(rt: HostRuntime) -> io::Result<()> {
    let mut buffer: [u8; INPUT] = [0; INPUT];
    let n = input::read_full(&mut rt.reader(), &mut buffer)?;
    write_cases(&rt, &buffer[..n])?;
    write_chains(&rt)
}
