// The text of rule files: one token at a position.
#![tactic(auto)]

ghost use Rattle.std.specs.Prelude.{◌≡◌, [], ◌∷◌, eqb, ◌+◌, ◌-◌, ◌≤◌, length, take, drop};
ghost use Rattle.classes.specs.Classes.{one_of, class_of};
ghost use Rattle.text.specs.Tokens.{run, run_token, mark_of, place, reserved, same_letters};
ghost use Rattle.text.specs.Words.{word_number};
ghost use Rattle.text.specs.inner.Found.{found_number};
ghost use Rattle.text.specs.Next.{white, coded, next_at};

use classes::{Class, ClassTable};

// The reserved words and marks, by their numbers.
#[derive(Clone, Copy, PartialEq, Eq)]
pub enum Word {
    Slot = 1,
    When,
    If,
    Then,
    And,
    Not,
    True,
    None,
    Open,
    Close,
    Comma,
    Semicolon,
    Becomes,
    Has,
    Gets,
}

// The most bytes that a name may have.
pub const NAME_LIMIT: usize = 24;

// A stretch of a text: the place of its first byte, and its length.
#[derive(Clone, Copy, PartialEq, Eq)]
pub struct Span {
    pub start: usize,
    pub size: usize,
}

// What stands at a position of a text.
#[derive(Clone, Copy, PartialEq, Eq)]
pub enum Token {
    // Nothing but white.
    End,
    // A reserved word or a mark.
    Word(Word),
    // A name, where it stands.
    Name(Span),
    // A name over the limit: refusal 13 where a name may stand, 12 elsewhere.
    Long,
    // A byte that can begin no token, or `*`, `|` or `:` without `=`: refusal 11.
    Bad,
}

// A token and the position after it.
#[derive(Clone, Copy)]
pub struct Next {
    pub token: Token,
    pub at: usize,
}

// Sixteen spaces, by which much white is passed over.
const BLANK: [u8; 16] = [b' '; 16];

// A position from which on the same token stands as from `at` on, where `at` lies in the text: spaces are passed over by sixteens.
fn blank_end(text: &[u8], at: usize) -> usize
    requires { at ≤ length text.now }
    ensures { result + white (drop result text.now) ≡ at + white (drop at text.now) }
{
    let mut i = at;
    // Where the spaces end is not known before.
    while text[i..].starts_with(&BLANK) {
        i += BLANK.len();
    }
    i
}

// Whether a byte is white.
fn is_white(b: u8, classes: &ClassTable) -> bool
    ensures { result ≡ eqb (class_of b) 1 }
{
    classes.class_of(b) == Class::White
}

// Whether a byte may stand in a name.
fn is_in_name(b: u8, classes: &ClassTable) -> bool
    ensures { result ≡ one_of (2 ∷ 3 ∷ []) (class_of b) }
{
    matches!(classes.class_of(b), Class::Alphanumeric | Class::Hyphen)
}

// The position of the first byte from `at` on that is not white.
pub fn white_end(text: &[u8], at: usize, classes: &ClassTable) -> usize
    ensures { result ≡ at + white (drop at text.now) }
{
    let start = at.min(text.len());
    at + text[start..]
        .iter()
        .take_while(|b| is_white(**b, classes))
        .count()
}

// The position after the name bytes that stand from `at` on. Beside `white_end`: with the test handed in, its contract would stand twice, for the test and for what it means.
pub fn run_end(text: &[u8], at: usize, classes: &ClassTable) -> usize
    ensures { result ≡ at + run (drop at text.now) }
{
    let start = at.min(text.len());
    at + text[start..]
        .iter()
        .take_while(|b| is_in_name(**b, classes))
        .count()
}

// The mark that begins with a byte.
#[tactic(auto, unfolding(crate::specs::Tokens::mark_of))]
pub fn mark_of(b: u8) -> Word
    ensures { word_number result ≡ mark_of b }
{
    match b {
        b'{' => Word::Open,
        b'}' => Word::Close,
        b',' => Word::Comma,
        b';' => Word::Semicolon,
        b'*' => Word::Becomes,
        b'|' => Word::Has,
        _ => Word::Gets,
    }
}

// Whether two names have the same bytes, by the grammar's own word for it.
#[tactic(auto, using(crate::proofs::Steps::pointwise_same))]
pub fn same_bytes(a: &[u8], b: &[u8]) -> bool
    ensures { result ≡ same_letters a.now b.now }
{
    a == b
}

// The reserved word that a name is.
#[tactic(auto, using(crate::proofs::Words::no_word), unfolding(crate::specs::Tokens::reserved))]
pub fn reserved_word(name: &[u8]) -> Option<Word>
    ensures { found_number result ≡ place name.now reserved }
{
    match name {
        b"SLOT" => Some(Word::Slot),
        b"WHEN" => Some(Word::When),
        b"IF" => Some(Word::If),
        b"THEN" => Some(Word::Then),
        b"AND" => Some(Word::And),
        b"NOT" => Some(Word::Not),
        b"TRUE" => Some(Word::True),
        b"NONE" => Some(Word::None),
        _ => None,
    }
}

// The token of the run of name bytes from `start` to `end`.
#[tactic(auto, using(crate::proofs::Here::run_long, crate::proofs::Here::run_word, crate::proofs::Here::run_name))]
fn run_token(text: &[u8], start: usize, end: usize) -> Token
    requires { (start ≤ end) × (end ≤ length text.now) }
    ensures { result ≡ coded (run_token start (take (end - start) (drop start text.now))) }
{
    let size = end - start;
    if NAME_LIMIT < size {
        return Token::Long;
    }
    match reserved_word(&text[start..end]) {
        Some(word) => Token::Word(word),
        None => Token::Name(Span { start, size }),
    }
}

// The token at a position, white before it passed over, by a table of the classes.
pub fn token_by(text: &[u8], at: usize, classes: &ClassTable) -> Next
    ensures { result ≡ next_at text.now at }
{
    let start = white_end(text, at, classes);
    if text.len() <= start {
        return Next {
            token: Token::End,
            at: start,
        };
    }
    let b = text[start];
    match classes.class_of(b) {
        Class::Alphanumeric => {
            let end = run_end(text, start + 1, classes);
            Next {
                token: run_token(text, start, end),
                at: end,
            }
        }
        Class::Single => Next {
            token: Token::Word(mark_of(b)),
            at: start + 1,
        },
        Class::Double if text[start + 1..].starts_with(b"=") => Next {
            token: Token::Word(mark_of(b)),
            at: start + 2,
        },
        _ => Next {
            token: Token::Bad,
            at: start + 1,
        },
    }
}

// The token at a position.
pub fn token_at(text: &[u8], at: usize) -> Next
    ensures { result ≡ next_at text.now at }
{
    let classes = classes::table();
    token_by(text, at, &classes)
}

// The first token of a text; much white may stand before it.
#[tactic(auto, using(crate::proofs::Here::next_same))]
pub fn first_token(text: &[u8], classes: &ClassTable) -> Next
    ensures { result ≡ next_at text.now 0 }
{
    let start = blank_end(text, 0);
    token_by(text, start, classes)
}
