// Rules: WHEN a trigger IF a condition THEN assignments, and `;`.
ghost use Rattle.std.specs.Prelude.{◌≡◌, List, ℕ, ◌≤◌, ◌<◌, length};
ghost use Rattle.laws.specs.Limits.{slot_limit, value_limit, literal_limit, assignment_limit};
ghost use Rattle.text.specs.Tokens.{Token, WHEN};
ghost use Rattle.grammar.specs.Files.{Slot};
ghost use Rattle.grammar.specs.Reading.{took, expects, read_rule};
ghost use Rattle.steps.specs.inner.Places.{tokens_past};
ghost use Rattle.clauses.specs.inner.Literals.{Looked};
ghost use Rattle.reader.specs.inner.Rules.{trigger_pair, read_trigger, trigger_as_pair, pair_part, PairLies, read_rest, made_rule, rule_part, RuleLies};

use clauses::assignments::{Assignments, assign_next};
use clauses::conditions::{Literals, condition_next};
use steps::source::Source;
use steps::step::{Fault, Read};
use table::Rule;
use text::Word;

// A slot and a value of it.
#[derive(Clone, Copy)]
pub struct Trigger {
    pub slot: usize,
    pub value: usize,
}

// `slot *= value`.
fn pair_next(s: Source, at: usize) -> Result<Read<Trigger>, Fault>
    ensures { ((base : ℕ) (slots : List Slot) → Looked s.entry.text.now slots s.entry.slotspans.now s.entry.valuespans.now
        → trigger_pair slots (tokens_past s.entry.tokens.rest.now base at) ≡ pair_part s.entry.tokens.rest.now base result) × PairLies (length s.entry.tokens.rest.now) at result }
{
    let named = s.tokens.name(at);
    let slot = s.slot_of(named)?;
    let next = s.tokens.word(slot.next, Word::Becomes)?;
    let found = s.value_next(slot.value, next)?;
    let value = Trigger {
        slot: slot.value,
        value: found.value,
    };
    Ok(Read {
        value,
        next: found.next,
    })
}

// A rule's beginning after WHEN: its trigger, IF.
pub fn trigger_next(s: Source, at: usize) -> Result<Read<Trigger>, Fault>
    ensures { ((base : ℕ) (slots : List Slot) → Looked s.entry.text.now slots s.entry.slotspans.now s.entry.valuespans.now
        → read_trigger slots (tokens_past s.entry.tokens.rest.now base at) ≡ pair_part s.entry.tokens.rest.now base result) × PairLies (length s.entry.tokens.rest.now) at result }
{
    let trigger = pair_next(s, at)?;
    let next = s.tokens.word(trigger.next, Word::If)?;
    Ok(Read {
        value: trigger.value,
        next,
    })
}

// A rule of its parts; it has no stratum yet.
fn rule_of(trigger: Trigger, literals: Literals, assignments: Assignments) -> Rule
    requires { (trigger.slot < slot_limit) × (trigger.value ≤ value_limit) × (literals.count ≤ literal_limit) × (assignments.count ≤ assignment_limit) }
    ensures { result ≡ made_rule trigger literals assignments }
{
    // Named first: the check does not cover an array field put straight into a struct.
    let tests = literals.places;
    let sets = assignments.places;
    Rule {
        slot: trigger.slot as u8,
        value: trigger.value as u8,
        literals: tests,
        tested: literals.count as u8,
        assignments: sets,
        assigned: assignments.count as u8,
        stratum: 0,
    }
}

// The rest of a rule, after its trigger and IF.
fn rest_next(s: Source, trigger: Trigger, at: usize) -> Result<Read<Rule>, Fault>
    requires { (trigger.slot < slot_limit) × (trigger.value ≤ value_limit) }
    ensures { ((base : ℕ) (slots : List Slot) → Looked s.entry.text.now slots s.entry.slotspans.now s.entry.valuespans.now
        → read_rest slots (trigger_as_pair trigger) (tokens_past s.entry.tokens.rest.now base at) ≡ rule_part s.entry.tokens.rest.now base result) × RuleLies (length s.entry.tokens.rest.now) at result }
{
    let condition = condition_next(s, at)?;
    let assigned = assign_next(s, condition.next)?;
    let next = s.tokens.word(assigned.next, Word::Semicolon)?;
    Ok(Read {
        value: rule_of(trigger, condition.value, assigned.value),
        next,
    })
}

// A rule, from after WHEN to after its `;`.
pub fn rule_next(s: Source, at: usize) -> Result<Read<Rule>, Fault>
    ensures { ((base : ℕ) (ts : List Token) (slots : List Slot) → expects WHEN ts ≡ took tt (tokens_past s.entry.tokens.rest.now base at) → Looked s.entry.text.now slots s.entry.slotspans.now s.entry.valuespans.now
        → read_rule slots ts ≡ rule_part s.entry.tokens.rest.now base result) × RuleLies (length s.entry.tokens.rest.now) at result }
{
    let trigger = trigger_next(s, at)?;
    rest_next(s, trigger.value, trigger.next)
}
