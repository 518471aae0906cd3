// The tally of a day: slips answered and slips refused, 0 to 9,999 each, for each editor.
#![tactic(auto)]

ghost use Rattle.std.specs.Prelude.{◌≡◌, ◌<◌, false, MatchOption};
ghost use Rattle.tally.specs.Counting.{is_full, one_answered, one_refused};
ghost use Rattle.tally.specs.Editors.{is_editor};
ghost use Rattle.tally.specs.inner.Places.{record_place};

// Slips answered and slips refused.
#[repr(C)]
#[derive(Clone, Copy)]
pub struct Tally {
    pub answered: u16,
    pub refused: u16,
}

// A count from which on 32 is the answer.
const FULL: u16 = 9999;

// Whether a tally is full: 32.
pub fn is_full(tally: Tally) -> bool
    ensures { result ≡ is_full tally }
{
    FULL <= tally.answered || FULL <= tally.refused
}

// One slip more answered.
pub fn one_answered(tally: Tally) -> Tally
    requires { is_full tally ≡ false }
    ensures { result ≡ one_answered tally }
{
    Tally {
        answered: tally.answered + 1,
        ..tally
    }
}

// One slip more refused.
pub fn one_refused(tally: Tally) -> Tally
    requires { is_full tally ≡ false }
    ensures { result ≡ one_refused tally }
{
    Tally {
        refused: tally.refused + 1,
        ..tally
    }
}

// Editors, and so records in a table of them.
pub const EDITORS: usize = 40;

// Whether a number is an editor's: from 1 to 40.
pub fn is_editor(editor: usize) -> bool
    ensures { result ≡ is_editor editor }
{
    (1..=EDITORS).contains(&editor)
}

// The place of an editor's record in a table of so many, if there is one; else it is 44.
pub fn place(count: usize, editor: usize) -> Option<usize>
    ensures { MatchOption result (record_place count editor ≡ count) (λ at. (at < count) × (record_place count editor ≡ at)) }
{
    if count == EDITORS && is_editor(editor) {
        Some(editor - 1)
    } else {
        None
    }
}
