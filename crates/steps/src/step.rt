// One token, where a certain one must stand.
ghost use Rattle.std.specs.Prelude.{◌≡◌, ℕ, List, length};
ghost use Rattle.text.specs.Words.{word_number};
ghost use Rattle.text.specs.Next.{next_at};
ghost use Rattle.grammar.specs.Reading.{expects, a_name};
ghost use Rattle.steps.specs.inner.Places.{fault_of, tokens_past, step_part, StepLies, which, choice, ForkLies, named_part, NamedLies};

use classes::ClassTable;
use text::{Next, Span, Token, Word};

// Why a statement is refused, by the refusals' numbers.
#[derive(Clone, Copy)]
pub enum Fault {
    // A byte that can begin no token.
    BadByte = 11,
    // A token out of place, or the text ending inside a statement.
    OutOfPlace,
    // A name over the limit.
    LongName,
    // A slot, or a value within one slot, declared twice.
    DeclaredTwice,
    // One slot, value, rule, literal or assignment too many.
    TooMany,
    // A slot, or a value of that slot, not declared.
    Undeclared,
    // A slot assigned twice in one rule.
    AssignedTwice,
}

// What was read, and the position after it.
#[derive(Clone, Copy)]
pub struct Read<T> {
    pub value: T,
    pub next: usize,
}

// The one or the other of two words stood there, and the position after it.
#[derive(Clone, Copy)]
pub enum Fork {
    First(usize),
    Second(usize),
}

// The tokens of a text, by the classes of bytes.
#[derive(Clone, Copy)]
pub struct Tokens<'a> {
    pub rest: &'a [u8],
    pub classes: &'a ClassTable,
}

impl<'a> Tokens<'a> {
    // The first token; much white may stand before it.
    pub fn first(self) -> Next
        ensures { result ≡ next_at self.entry.rest.now 0 }
    {
        text::first_token(self.rest, self.classes)
    }

    // The token at a position, and the position after it.
    pub fn token(self, at: usize) -> Next
        ensures { result ≡ next_at self.entry.rest.now at }
    {
        text::token_by(self.rest, at, self.classes)
    }

    // A certain word or mark must stand at a position; the position after it.
    pub fn word(self, at: usize, wanted: Word) -> Result<usize, Fault>
        ensures { ((base : ℕ) → expects (word_number wanted) (tokens_past self.entry.rest.now base at) ≡ step_part self.entry.rest.now base result) × StepLies (length self.entry.rest.now) at result }
    {
        word_of(self.token(at), wanted)
    }

    // One of two words or marks must stand at a position.
    pub fn fork(self, at: usize, first: Word, second: Word) -> Result<Fork, Fault>
        ensures { ((base : ℕ) → which (word_number first) (word_number second) (tokens_past self.entry.rest.now base at) ≡ choice self.entry.rest.now base result) × ForkLies (length self.entry.rest.now) at result }
    {
        let next = self.token(at);
        if next.token == Token::Word(first) {
            Ok(Fork::First(next.at))
        } else if next.token == Token::Word(second) {
            Ok(Fork::Second(next.at))
        } else {
            Err(fault_of(next.token, Fault::OutOfPlace))
        }
    }

    // A name must stand at a position.
    pub fn name(self, at: usize) -> Result<Read<Span>, Fault>
        ensures { ((base : ℕ) → a_name (tokens_past self.entry.rest.now base at) ≡ named_part self.entry.rest.now base result) × NamedLies (length self.entry.rest.now) at result }
    {
        name_of(self.token(at))
    }
}

// The refusal of a token that must not stand there: that of a byte that begins no token, `long` for a name over the limit, that of a token out of place for any other.
pub fn fault_of(token: Token, long: Fault) -> Fault
    ensures { result ≡ fault_of token long }
{
    match token {
        Token::Bad => Fault::BadByte,
        Token::Long => long,
        _ => Fault::OutOfPlace,
    }
}

// A token must be a certain word or mark; the position after it.
pub fn word_of(next: Next, wanted: Word) -> Result<usize, Fault>
    ensures { (rest : List ℕ) (at : ℕ) → next ≡ next_at rest at
        → ((base : ℕ) → expects (word_number wanted) (tokens_past rest base at) ≡ step_part rest base result) × StepLies (length rest) at result }
{
    if next.token == Token::Word(wanted) {
        Ok(next.at)
    } else {
        Err(fault_of(next.token, Fault::OutOfPlace))
    }
}

// A token must be a name; where it stands.
pub fn name_of(next: Next) -> Result<Read<Span>, Fault>
    ensures { (rest : List ℕ) (at : ℕ) → next ≡ next_at rest at
        → ((base : ℕ) → a_name (tokens_past rest base at) ≡ named_part rest base result) × NamedLies (length rest) at result }
{
    match next.token {
        Token::Name(span) => Ok(Read {
            value: span,
            next: next.at,
        }),
        token => Err(fault_of(token, Fault::LongName)),
    }
}
