// Conditions: TRUE, or literals with AND between, up to THEN.
ghost use Rattle.std.specs.Prelude.{◌≡◌, List, [], ℕ, ◌<◌, length};
ghost use Rattle.steps.specs.Faults.{fault_number};
ghost use Rattle.model.specs.Rules as model;
ghost use Rattle.table.specs.Zero.{zero_literal};
ghost use Rattle.grammar.specs.Files.{Slot};
ghost use Rattle.laws.specs.Limits.{literal_limit};
ghost use Rattle.grammar.specs.Reading.{stop, read_literals, read_condition, no_literal};
ghost use Rattle.steps.specs.inner.Parts.{no_parts};
ghost use Rattle.steps.specs.inner.Places.{tokens_past};
ghost use Rattle.clauses.specs.inner.Literals.{Looked};
ghost use Rattle.clauses.specs.inner.Conditions.{condition_part, ConditionLies};

use crate::literal::literal_next;
use steps::parts::Parts;
use steps::source::Source;
use steps::step::{Fault, Fork, Read, Tokens, fault_of};
use table::{LITERALS, Literal};
use text::{Token, Word};

// The literal places of a rule, with the number used.
pub type Literals = Parts<Literal, LITERALS>;

// The refusal of what stands where no further literal may: one too many at a literal's first token.
fn no_more(tokens: Tokens, at: usize) -> Fault
    ensures { (base : ℕ) (sofar : List model.Literal) → no_literal sofar (tokens_past tokens.entry.rest.now base at) ≡ stop (fault_number result) }
{
    let next = tokens.token(at);
    if next.token == Token::Word(Word::Not) {
        return Fault::TooMany;
    }
    match next.token {
        Token::Name(_) => Fault::TooMany,
        token => fault_of(token, Fault::LongName),
    }
}

// No literals.
fn no_literals() -> Literals
    ensures { result ≡ no_parts literal_limit zero_literal }
{
    Parts::new(Literal {
        becomes: false,
        negated: false,
        slot: 0,
        value: 0,
    })
}

// Literals from a position on, with AND between and THEN at the end.
fn literals_next(s: Source, start: usize) -> Result<Read<Literals>, Fault>
    ensures { ((base : ℕ) (slots : List Slot) → Looked s.entry.text.now slots s.entry.slotspans.now s.entry.valuespans.now
        → read_literals slots literal_limit [] (tokens_past s.entry.tokens.rest.now base start) ≡ condition_part s.entry.tokens.rest.now base result) × ConditionLies (length s.entry.tokens.rest.now) start result }
{
    let mut list = no_literals();
    let mut at = start;
    // The list counts itself: a range would count beside it.
    while list.count < LITERALS {
        let read = literal_next(s, at)?;
        list.push(read.value);
        match s.tokens.fork(read.next, Word::And, Word::Then)? {
            Fork::First(next) => at = next,
            Fork::Second(next) => return Ok(Read { value: list, next }),
        }
    }
    Err(no_more(s.tokens, at))
}

// A condition and its THEN: TRUE may open it.
pub fn condition_next(s: Source, at: usize) -> Result<Read<Literals>, Fault>
    ensures { ((base : ℕ) (slots : List Slot) → Looked s.entry.text.now slots s.entry.slotspans.now s.entry.valuespans.now
        → read_condition slots (tokens_past s.entry.tokens.rest.now base at) ≡ condition_part s.entry.tokens.rest.now base result) × ConditionLies (length s.entry.tokens.rest.now) at result }
{
    match s.tokens.word(at, Word::True) {
        Ok(after) => match s.tokens.fork(after, Word::And, Word::Then)? {
            Fork::First(next) => literals_next(s, next),
            Fork::Second(next) => Ok(Read {
                value: no_literals(),
                next,
            }),
        },
        Err(_) => literals_next(s, at),
    }
}
