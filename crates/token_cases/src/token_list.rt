// Writes the tokens of a text to standard output, a line for each: what it is, its number or its letters, and the position after it.
use cursor::Reader;
use std::io;
use text::{Span, Token, Word};

// A reserved word or mark, by its number.
fn write_word(rt: &impl Print, word: Word, at: usize) -> io::Result<()> {
    let number = word as u8;
    println!(rt; "word {number} {at}")
}

// A name: its place and its letters; nothing of it where it does not lie in the text.
fn write_name(rt: &impl Print, text: &[u8], name: Span, at: usize) -> io::Result<()> {
    let start = name.start;
    print!(rt; "name {start} ")?;
    if start <= text.len() && name.size <= text.len() - start {
        rt.write_all(&text[start..start + name.size])?;
    }
    println!(rt; " {at}")
}

// One token.
fn write_token(rt: &impl Print, text: &[u8], token: Token, at: usize) -> io::Result<()> {
    match token {
        Token::End => println!(rt; "end {at}"),
        Token::Word(word) => write_word(rt, word, at),
        Token::Name(name) => write_name(rt, text, name, at),
        Token::Long => println!(rt; "long {at}"),
        Token::Bad => println!(rt; "bad {at}"),
    }
}

// All tokens of a text, the end as the last: the first, then each after the one before it.
pub fn write_tokens(rt: &impl Print, text: &[u8]) -> io::Result<()> {
    let mut reader = Reader::new(text);
    loop {
        let next = reader.peek();
        write_token(rt, text, next.token, next.at)?;
        if next.token == Token::End {
            return Ok(());
        }
        reader = reader.advance();
    }
}
