// Assignments: a slot's name, `:=`, a value; one of them, or a list in braces.
ghost use Rattle.std.specs.Prelude.{◌≡◌, List, [], ℕ, ◌+◌, ◌*◌, ◌<◌, length, take, drop};
ghost use Rattle.text.specs.Tokens.{Token};
ghost use Rattle.model.specs.Rules.{Pair, assigns};
ghost use Rattle.laws.specs.Limits.{assignment_limit, slot_limit, value_limit, row};
ghost use Rattle.grammar.specs.Files.{Slot, spellings, slot_names, values_of};
ghost use Rattle.grammar.specs.Reading.{stop, a_name, read_target, read_assignment, no_assignment, read_assignments, read_assign};
ghost use Rattle.steps.specs.inner.Places.{tokens_past, named_part, NamedLies};
ghost use Rattle.steps.specs.inner.Spans.{Listed, number_part, SlotLies};
ghost use Rattle.steps.specs.Faults.{fault_number};
ghost use Rattle.clauses.specs.inner.Literals.{Looked};
ghost use Rattle.clauses.specs.inner.Assignments.{assignment_list, pairs_in, value_assignment, single_assignment, assignment_part, AssignmentLies, assignments_part, AssignmentsLies};

use steps::parts::Parts;
use steps::source::Source;
use steps::step::{Fault, Fork, Read, Tokens, name_of, word_of};
use table::{ASSIGNMENTS, Assignment};
use text::{Span, Word};

// The assignment places of a rule, with the number used.
pub type Assignments = Parts<Assignment, ASSIGNMENTS>;

// No assignments: zero throughout.
fn no_assignments() -> Assignments
    ensures { result ≡ assignment_list [] }
{
    Parts::new(Assignment { slot: 0, value: 0 })
}

// Whether one of the assignments assigns this slot.
fn is_assigned(list: &Assignments, slot: usize) -> bool
    ensures { result ≡ assigns (pairs_in list.now) slot }
{
    list.places
        .iter()
        .take(list.count)
        .any(|a| usize::from(a.slot) == slot)
}

// A name that was read must be that of a declared slot that the assignments so far do not assign.
fn target_of(
    s: Source,
    list: &Assignments,
    named: Result<Read<Span>, Fault>,
) -> Result<Read<usize>, Fault>
    requires { (at : ℕ) × NamedLies (length s.tokens.rest.now) at named }
    ensures { ((base : ℕ) (ts : List Token) (slots : List Slot) → a_name ts ≡ named_part s.entry.tokens.rest.now base named → Listed s.entry.text.now s.entry.slotspans.now (spellings (slot_names slots))
        → read_target slots (pairs_in list.now) ts ≡ number_part s.entry.tokens.rest.now base result) × ((at : ℕ) → NamedLies (length s.entry.tokens.rest.now) at named → SlotLies (length s.entry.tokens.rest.now) at result) }
{
    let slot = s.slot_of(named)?;
    if is_assigned(list, slot.value) {
        return Err(Fault::AssignedTwice);
    }
    Ok(slot)
}

// An assignment's `:=` and value, after its slot.
fn assignment_value(s: Source, slot: usize, at: usize) -> Result<Read<Assignment>, Fault>
    requires { slot < slot_limit }
    ensures { ((base : ℕ) (slots : List Slot) → Listed s.entry.text.now (take value_limit (drop (slot * row + 1) s.entry.valuespans.now)) (spellings (values_of slots slot))
        → value_assignment slots slot (tokens_past s.entry.tokens.rest.now base at) ≡ assignment_part s.entry.tokens.rest.now base result) × AssignmentLies (length s.entry.tokens.rest.now) at result }
{
    let after = s.tokens.word(at, Word::Gets)?;
    let found = s.value_next(slot, after)?;
    let value = Assignment {
        slot: slot as u8,
        value: found.value as u8,
    };
    Ok(Read {
        value,
        next: found.next,
    })
}

// An assignment whose slot's name was read, after those of its rule so far.
fn assignment_of(
    s: Source,
    list: &Assignments,
    named: Result<Read<Span>, Fault>,
) -> Result<Read<Assignment>, Fault>
    requires { (at : ℕ) × NamedLies (length s.tokens.rest.now) at named }
    ensures { ((base : ℕ) (ts : List Token) (slots : List Slot) → a_name ts ≡ named_part s.entry.tokens.rest.now base named → Looked s.entry.text.now slots s.entry.slotspans.now s.entry.valuespans.now
        → read_assignment slots (pairs_in list.now) ts ≡ assignment_part s.entry.tokens.rest.now base result) × ((at : ℕ) → NamedLies (length s.entry.tokens.rest.now) at named → AssignmentLies (length s.entry.tokens.rest.now) at result) }
{
    let slot = target_of(s, list, named)?;
    assignment_value(s, slot.value, slot.next)
}

// An assignment, after those of its rule so far.
fn assignment_next(s: Source, list: &Assignments, at: usize) -> Result<Read<Assignment>, Fault>
    ensures { ((base : ℕ) (slots : List Slot) → Looked s.entry.text.now slots s.entry.slotspans.now s.entry.valuespans.now
        → read_assignment slots (pairs_in list.now) (tokens_past s.entry.tokens.rest.now base at) ≡ assignment_part s.entry.tokens.rest.now base result) × AssignmentLies (length s.entry.tokens.rest.now) at result }
{
    let named = s.tokens.name(at);
    assignment_of(s, list, named)
}

// The refusal where no assignment may follow: one too many at a slot's name.
fn surplus_fault(tokens: Tokens, at: usize) -> Fault
    ensures { (base : ℕ) (sofar : List Pair) → no_assignment sofar (tokens_past tokens.entry.rest.now base at) ≡ stop (fault_number result) }
{
    match tokens.name(at) {
        Ok(_) => Fault::TooMany,
        Err(fault) => fault,
    }
}

// A list of assignments with commas between, from after its `{` to after its `}`.
fn assignments_next(s: Source, start: usize) -> Result<Read<Assignments>, Fault>
    ensures { ((base : ℕ) (slots : List Slot) → Looked s.entry.text.now slots s.entry.slotspans.now s.entry.valuespans.now
        → read_assignments slots assignment_limit [] (tokens_past s.entry.tokens.rest.now base start) ≡ assignments_part s.entry.tokens.rest.now base result) × AssignmentsLies (length s.entry.tokens.rest.now) start result }
{
    let mut list = no_assignments();
    let mut at = start;
    // The list counts itself: a range would count beside it.
    while list.count < ASSIGNMENTS {
        let read = assignment_next(s, &list, at)?;
        list.push(read.value);
        match s.tokens.fork(read.next, Word::Comma, Word::Close)? {
            Fork::First(next) => at = next,
            Fork::Second(next) => return Ok(Read { value: list, next }),
        }
    }
    Err(surplus_fault(s.tokens, at))
}

// One assignment alone, whose slot's name was read.
fn single_assignment(
    s: Source,
    named: Result<Read<Span>, Fault>,
) -> Result<Read<Assignments>, Fault>
    requires { (at : ℕ) × NamedLies (length s.tokens.rest.now) at named }
    ensures { ((base : ℕ) (ts : List Token) (slots : List Slot) → a_name ts ≡ named_part s.entry.tokens.rest.now base named → Looked s.entry.text.now slots s.entry.slotspans.now s.entry.valuespans.now
        → single_assignment slots ts ≡ assignments_part s.entry.tokens.rest.now base result) × ((at : ℕ) → NamedLies (length s.entry.tokens.rest.now) at named → AssignmentsLies (length s.entry.tokens.rest.now) at result) }
{
    let mut list = no_assignments();
    let read = assignment_of(s, &list, named)?;
    list.push(read.value);
    Ok(Read {
        value: list,
        next: read.next,
    })
}

// What follows THEN, up to the `;`: one assignment, or a list in braces.
pub fn assign_next(s: Source, at: usize) -> Result<Read<Assignments>, Fault>
    ensures { ((base : ℕ) (slots : List Slot) → Looked s.entry.text.now slots s.entry.slotspans.now s.entry.valuespans.now
        → read_assign slots (tokens_past s.entry.tokens.rest.now base at) ≡ assignments_part s.entry.tokens.rest.now base result) × AssignmentsLies (length s.entry.tokens.rest.now) at result }
{
    let next = s.tokens.token(at);
    if let Ok(inside) = word_of(next, Word::Open) {
        return assignments_next(s, inside);
    }
    let named = name_of(next);
    single_assignment(s, named)
}
