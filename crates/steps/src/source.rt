// What the reading of a rule goes over, and the names that it looks up.
ghost use Rattle.std.specs.Prelude.{◌≡◌, List, ℕ, ◌+◌, ◌*◌, ◌<◌, length, take, drop};
ghost use Rattle.laws.specs.Limits.{slot_limit, value_limit, row};
ghost use Rattle.text.specs.Tokens.{Token};
ghost use Rattle.grammar.specs.Files.{Slot, spellings, slot_names, values_of};
ghost use Rattle.grammar.specs.Reading.{a_name, read_slot, read_value};
ghost use Rattle.steps.specs.inner.Places.{tokens_past, named_part, NamedLies};
ghost use Rattle.steps.specs.inner.Spans.{Listed, number_part, ValueLies, SlotLies};

use crate::lookup::place_of;
use crate::step::{Fault, Read, Tokens, name_of};
use table::{PAIRS, ROW, SLOTS, VALUES};
use text::{Span, Word};

// The whole text, the tokens of the remainder that is read, and where the names of slots and of values were declared.
#[derive(Clone, Copy)]
pub struct Source<'a> {
    pub text: &'a [u8],
    pub tokens: Tokens<'a>,
    pub slotspans: &'a [usize; SLOTS],
    pub valuespans: &'a [usize; PAIRS],
}

impl<'a> Source<'a> {
    // A name that was read must be a declared slot's; the slot's number, from 0. A refusal in its place comes back.
    pub fn slot_of(self, named: Result<Read<Span>, Fault>) -> Result<Read<usize>, Fault>
        requires { (at : ℕ) × NamedLies (length self.tokens.rest.now) at named }
        ensures { ((base : ℕ) (ts : List Token) (slots : List Slot) → a_name ts ≡ named_part self.entry.tokens.rest.now base named → Listed self.entry.text.now self.entry.slotspans.now (spellings (slot_names slots))
            → read_slot slots ts ≡ number_part self.entry.tokens.rest.now base result) × ((at : ℕ) → NamedLies (length self.entry.tokens.rest.now) at named → SlotLies (length self.entry.tokens.rest.now) at result) }
    {
        let spans = self.slotspans;
        place_of(self.text, self.tokens.rest, spans, named)
    }

    // A value of a slot must stand at a position: the name of one, or NONE, which is 0.
    pub fn value_next(self, slot: usize, at: usize) -> Result<Read<usize>, Fault>
        requires { slot < slot_limit }
        ensures { ((base : ℕ) (slots : List Slot) → Listed self.entry.text.now (take value_limit (drop (slot * row + 1) self.entry.valuespans.now)) (spellings (values_of slots slot))
            → read_value slots slot (tokens_past self.entry.tokens.rest.now base at) ≡ number_part self.entry.tokens.rest.now base result) × ValueLies (length self.entry.tokens.rest.now) at result }
    {
        let next = self.tokens.token(at);
        if next.token == text::Token::Word(Word::None) {
            return Ok(Read {
                value: 0,
                next: next.at,
            });
        }
        let named = name_of(next);
        let first = slot * ROW + 1;
        let spans = self.valuespans;
        let part = &spans[first..first + VALUES];
        let found = place_of(self.text, self.tokens.rest, part, named)?;
        Ok(Read {
            value: found.value + 1,
            next: found.next,
        })
    }
}
