// Slot lines: each name declared as a span of the text: its key, its place times 32, and its length.
#![tactic(auto)]

ghost use Rattle.std.specs.Prelude.{◌≡◌, List, [], ◌+◌, ◌*◌, ◌≤◌, ◌<◌, length, set};
ghost use Rattle.std.proofs.lemmas.List.Edits.{sets};
ghost use Rattle.text.specs.Tokens.{Name, Token, SLOT};
ghost use Rattle.laws.specs.Limits.{value_limit, slot_limit, row};
ghost use Rattle.grammar.specs.Files.{Slot, spellings, slot_names};
ghost use Rattle.grammar.specs.Reading.{took, expects, new_name, read_values, read_line};
ghost use Rattle.steps.specs.inner.Places.{tokens_past};
ghost use Rattle.steps.specs.inner.Spans.{Listed};
ghost use Rattle.lines.specs.inner.Index.{stretch_at, slot_by};
ghost use Rattle.lines.specs.inner.Lines.{read_head, declared_part, DeclaredLies, values_part, ValuesRead, line_part, LineLies};

pub mod front;

use crate::front::Front;
use steps::lookup::{KEYED, find, key_of};
use steps::parts::Parts;
use steps::step::{Fault, Fork, Read};
use table::{Offset, PAIRS, ROW, SLOTS, VALUES};
use text::Word;

// The names of values, as spans, with the number used.
pub type Values = Parts<usize, VALUES>;

// A slot line: the span of its slot's name and those of its values.
#[derive(Clone, Copy)]
pub struct Line {
    pub name: usize,
    pub values: Values,
}

// A name to be declared must stand at a position, none of those at the spans; its span.
pub fn new_next(f: Front, spans: &[usize], at: usize) -> Result<Read<usize>, Fault>
    ensures { ((names : List Name) → Listed f.entry.text.now spans.now (spellings names)
        → new_name names (tokens_past f.entry.tokens.rest.now f.entry.base at) ≡ declared_part f.entry.text.now f.entry.tokens.rest.now f.entry.base result) × DeclaredLies f.entry.text.now (length f.entry.tokens.rest.now) at result }
{
    let named = f.tokens.name(at)?;
    let span = named.value;
    let rest = f.tokens.rest;
    let name = &rest[span.start..span.start + span.size];
    match find(f.text, spans, name) {
        Some(_) => Err(Fault::DeclaredTwice),
        None => Ok(Read {
            value: key_of(name) * KEYED + (f.base + span.start) * 32 + span.size,
            next: named.next,
        }),
    }
}

// The names of a slot's values, from after `{` to after `}`.
pub fn values_next(f: Front, start: usize) -> Result<Read<Values>, Fault>
    ensures { (read_values value_limit [] (tokens_past f.entry.tokens.rest.now f.entry.base start) ≡ values_part f.entry.text.now f.entry.tokens.rest.now f.entry.base result) × ValuesRead f.entry.text.now (length f.entry.tokens.rest.now) start result }
{
    let mut values = Parts::new(0);
    let mut at = start;
    // The list counts itself: a range would count beside it.
    while values.count < VALUES {
        let declared = new_next(f, &values.places, at)?;
        values.push(declared.value);
        match f.tokens.fork(declared.next, Word::Comma, Word::Close)? {
            Fork::First(next) => at = next,
            Fork::Second(next) => {
                return Ok(Read {
                    value: values,
                    next,
                });
            }
        }
    }
    new_next(f, &values.places, at)?;
    Err(Fault::TooMany)
}

// A slot line from after SLOT to after `{`: the span of its slot's name.
pub fn head_next(f: Front, slotspans: &[usize; SLOTS], start: usize) -> Result<Read<usize>, Fault>
    ensures { ((slots : List Slot) → Listed f.entry.text.now slotspans.now (spellings (slot_names slots))
        → read_head slots (tokens_past f.entry.tokens.rest.now f.entry.base start) ≡ declared_part f.entry.text.now f.entry.tokens.rest.now f.entry.base result) × DeclaredLies f.entry.text.now (length f.entry.tokens.rest.now) start result }
{
    let name = new_next(f, slotspans, start)?;
    let next = f.tokens.word(name.next, Word::Open)?;
    Ok(Read {
        value: name.value,
        next,
    })
}

// A slot line, from after SLOT to after `;`.
pub fn line_next(f: Front, slotspans: &[usize; SLOTS], start: usize) -> Result<Read<Line>, Fault>
    ensures { ((ts : List Token) (slots : List Slot) → expects SLOT ts ≡ took tt (tokens_past f.entry.tokens.rest.now f.entry.base start) → Listed f.entry.text.now slotspans.now (spellings (slot_names slots))
        → read_line slots ts ≡ line_part f.entry.text.now f.entry.tokens.rest.now f.entry.base result) × LineLies f.entry.text.now (length f.entry.tokens.rest.now) start result }
{
    let head = head_next(f, slotspans, start)?;
    let values = values_next(f, head.next)?;
    let next = f.tokens.word(values.next, Word::Semicolon)?;
    let value = Line {
        name: head.value,
        values: values.value,
    };
    Ok(Read { value, next })
}

// The place and the length of a span.
pub fn name_of(span: usize) -> table::Name
    ensures { result ≡ stretch_at span }
{
    table::Name {
        start: (span % KEYED / 32) as Offset,
        size: (span % 32) as Offset,
    }
}

// A slot of the table by the spans of its name and its values.
pub fn slot_of(span: usize, spans: [usize; VALUES], count: usize) -> table::Slot
    requires { count ≤ value_limit }
    ensures { result ≡ slot_by span spans count }
{
    let values = spans.map(name_of);
    table::Slot {
        name: name_of(span),
        values,
        count: count as u16,
    }
}

// A slot's spans entered among those of all slots.
pub fn enter(
    slotspans: &mut [usize; SLOTS],
    valuespans: &mut [usize; PAIRS],
    number: usize,
    span: usize,
    spans: [usize; VALUES],
)
    requires { number < slot_limit }
    ensures { (slotspans.new ≡ set slotspans.old number span) × (valuespans.new ≡ sets valuespans.old (number * row + 1) spans) }
{
    slotspans[number] = span;
    let first = number * ROW + 1;
    valuespans[first..first + VALUES].copy_from_slice(&spans);
}
