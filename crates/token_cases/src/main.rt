// Writes the tokens of each text on standard input, where a text stands after its length in two bytes, the high one first.
#![tactic(auto)]

mod token_list;

use std::io;

// The most bytes that are read of the input.
const INPUT: usize = 65536;

// The texts one after the other, until what is left is no whole text.
fn write_cases(rt: &impl Print, cases: &[u8]) -> io::Result<()> {
    let mut rest = cases;
    let mut number: usize = 0;
    while let [high, low, after @ ..] = rest {
        let size = usize::from(u16::from_be_bytes([*high, *low]));
        if after.len() < size {
            return Ok(());
        }
        number += 1;
        println!(rt; "text {number}")?;
        token_list::write_tokens(rt, &after[..size])?;
        rest = &after[size..];
    }
    Ok(())
}

fn main(rt: HostRuntime) -> io::Result<()> {
    let mut buffer = [0u8; INPUT];
    let n = input::read_full(&mut rt.reader(), &mut buffer)?;
    write_cases(&rt, &buffer[..n])
}
