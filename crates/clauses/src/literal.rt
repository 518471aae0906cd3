// Literals: NOTs, a slot's name, `*=` or `|=`, a value.
ghost use Rattle.std.specs.Prelude.{◌≡◌, false, List, ℕ, ◌+◌, ◌*◌, ◌<◌, length, take, drop};
ghost use Rattle.laws.specs.Limits.{slot_limit, value_limit, row};
ghost use Rattle.text.specs.Tokens as tokens;
ghost use Rattle.grammar.specs.Files.{Slot, spellings, values_of};
ghost use Rattle.grammar.specs.Reading.{a_name, read_literal, plain_literal};
ghost use Rattle.steps.specs.inner.Places.{tokens_past, named_part, NamedLies};
ghost use Rattle.steps.specs.inner.Spans.{Listed};
ghost use Rattle.clauses.specs.inner.Literals.{Looked, NotsRead, value_literal, literal_part, LiteralLies};

use steps::source::Source;
use steps::step::{Fault, Fork, Read, Tokens, name_of};
use table::Literal;
use text::{Next, Span, Token, Word};

// The token after the NOTs of a literal, and whether they leave it negated.
#[derive(Clone, Copy)]
pub struct Nots {
    pub next: Next,
    pub negated: bool,
}

// The NOTs that stand at a position and the token after them; an even number of them cancels.
pub fn skip_nots(tokens: Tokens, start: usize) -> Nots
    ensures { NotsRead tokens.entry.rest.now start result }
{
    let mut at = start;
    let mut negated = false;
    loop {
        // Not by the method of `tokens`, which clears the room of its answer at each turn: measured on a condition of many NOTs.
        let next = text::token_by(tokens.rest, at, tokens.classes);
        if next.token != Token::Word(Word::Not) {
            return Nots { next, negated };
        }
        at = next.at;
        negated = !negated;
    }
}

// A literal's value, after its slot and its mark.
fn literal_value(
    s: Source,
    slot: usize,
    at: usize,
    becomes: bool,
    negated: bool,
) -> Result<Read<Literal>, Fault>
    requires { slot < slot_limit }
    ensures { ((base : ℕ) (slots : List Slot) → Listed s.entry.text.now (take value_limit (drop (slot * row + 1) s.entry.valuespans.now)) (spellings (values_of slots slot))
        → value_literal slots slot becomes negated (tokens_past s.entry.tokens.rest.now base at) ≡ literal_part s.entry.tokens.rest.now base result) × LiteralLies (length s.entry.tokens.rest.now) at result }
{
    let found = s.value_next(slot, at)?;
    let value = Literal {
        becomes,
        negated,
        slot: slot as u8,
        value: found.value as u8,
    };
    Ok(Read {
        value,
        next: found.next,
    })
}

// A literal without its NOTs.
fn plain_literal(
    s: Source,
    named: Result<Read<Span>, Fault>,
    negated: bool,
) -> Result<Read<Literal>, Fault>
    requires { (at : ℕ) × NamedLies (length s.tokens.rest.now) at named }
    ensures { ((base : ℕ) (ts : List tokens.Token) (slots : List Slot) → a_name ts ≡ named_part s.entry.tokens.rest.now base named → Looked s.entry.text.now slots s.entry.slotspans.now s.entry.valuespans.now
        → plain_literal slots negated ts ≡ literal_part s.entry.tokens.rest.now base result) × ((at : ℕ) → NamedLies (length s.entry.tokens.rest.now) at named → LiteralLies (length s.entry.tokens.rest.now) at result) }
{
    let slot = s.slot_of(named)?;
    match s.tokens.fork(slot.next, Word::Becomes, Word::Has)? {
        Fork::First(next) => literal_value(s, slot.value, next, true, negated),
        Fork::Second(next) => literal_value(s, slot.value, next, false, negated),
    }
}

// A literal.
pub fn literal_next(s: Source, at: usize) -> Result<Read<Literal>, Fault>
    ensures { ((base : ℕ) (slots : List Slot) → Looked s.entry.text.now slots s.entry.slotspans.now s.entry.valuespans.now
        → read_literal (tokens_past s.entry.tokens.rest.now base at) slots false ≡ literal_part s.entry.tokens.rest.now base result) × LiteralLies (length s.entry.tokens.rest.now) at result }
{
    let nots = skip_nots(s.tokens, at);
    let named = name_of(nots.next);
    plain_literal(s, named, nots.negated)
}
