// Names looked up: the stretches of the text where slots and values were declared, each as one number with the name's key.
ghost use Rattle.std.specs.Prelude.{◌≡◌, IfSome, List, ℕ, ◌+◌, ◌<◌, length};
ghost use Rattle.text.specs.Tokens.{Name, Token, same_letters, place};
ghost use Rattle.grammar.specs.Files.{spellings};
ghost use Rattle.grammar.specs.Reading.{a_name, read_place};
ghost use Rattle.steps.specs.inner.Places.{named_part, NamedLies};
ghost use Rattle.steps.specs.inner.Spans.{key_of, span_letters, SpanLies, Listed, counted_from_1, place_part, NumberLies};

use crate::step::{Fault, Read};
use text::Span;

// What a key is multiplied by in a span: more than every place times 32. Key, place and length are one number, so that one comparison tells most names apart; 0 is no span.
pub const KEYED: usize = 16777216;

// The key of a name: its first, its middle and its last byte, and its length.
pub fn key_of(name: &[u8]) -> usize
    ensures { (result ≡ key_of name.now) × (result < 536870912 + length name.now) }
{
    let size = name.len();
    if size == 0 {
        return 0;
    }
    let first = usize::from(name[0]);
    let middle = usize::from(name[size / 2]);
    let last = usize::from(name[size - 1]);
    ((first * 256 + middle) * 256 + last) * 32 + size
}

// Whether the name at a span of the text has the bytes of `name`.
fn is_at(text: &[u8], span: usize, name: &[u8]) -> bool
    ensures { SpanLies text.now span → result ≡ same_letters name.now (span_letters text.now span) }
{
    let start = span % KEYED / 32;
    let size = span % 32;
    start <= text.len()
        && size <= text.len() - start
        && text::same_bytes(name, &text[start..start + size])
}

// The place of a name among those at the spans, counted from 0. A span of 0 ends them; bytes are compared only where the keys are the same.
pub fn find(text: &[u8], spans: &[usize], name: &[u8]) -> Option<usize>
    ensures within { IfSome result (λ i. i < length spans.now) }
    ensures place { (names : List (List ℕ)) → Listed text.now spans.now names → counted_from_1 result ≡ place name.now names }
{
    let key = key_of(name);
    for (i, &span) in spans.iter().enumerate() {
        if span == 0 {
            return None;
        }
        if span / KEYED == key && is_at(text, span, name) {
            return Some(i);
        }
    }
    None
}

// A name that was read must be one of those at the spans; its place among them, from 0. A refusal in its place comes back.
pub fn place_of(
    text: &[u8],
    rest: &[u8],
    spans: &[usize],
    named: Result<Read<Span>, Fault>,
) -> Result<Read<usize>, Fault>
    requires { (at : ℕ) × NamedLies (length rest.now) at named }
    ensures { ((base : ℕ) (ts : List Token) (names : List Name) → a_name ts ≡ named_part rest.now base named → Listed text.now spans.now (spellings names)
        → read_place names ts ≡ place_part rest.now base result) × ((at : ℕ) → NamedLies (length rest.now) at named → NumberLies (length spans.now) (length rest.now) at result) }
{
    let read = named?;
    let span = read.value;
    match find(text, spans, &rest[span.start..span.start + span.size]) {
        Some(value) => Ok(Read {
            value,
            next: read.next,
        }),
        None => Err(Fault::Undeclared),
    }
}
