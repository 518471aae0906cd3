// The tests of a card and its changes, looked up by number.
ghost use Rattle.std.specs.Prelude.{◌≡◌, ◌++◌, take, Bool, List, ℕ, ◌<◌, get_or};
ghost use Rattle.laws.specs.Limits.{slot_limit, row};
ghost use Rattle.model.specs.Rules.{holds};
ghost use Rattle.table.specs.Link.{literal_of};
ghost use Rattle.table.specs.inner.Flat.{set_of, pair_places};
ghost use Rattle.rows.specs.inner.Rows.{tests, literal_in};
ghost use Rattle.testing.specs.inner.Truth.{Truth};

use rows::UNDER_NOT;
use table::{PAIRS, ROW, SLOTS};

// The tests without NOT: `|=` for each pair, then `*=` for each.
pub const WITHOUT_NOT: usize = 2 * PAIRS;

// The changes are the tests `*=` as long as the card is not looked at.
fn enter_changes(changes: &[bool; PAIRS], truth: &mut [bool; WITHOUT_NOT])
    ensures { truth.new ≡ take pair_places truth.old ++ changes.now }
{
    truth[PAIRS..].copy_from_slice(changes);
}

// Which tests are true of a card and its changes.
pub fn truth_of(card: &[u8; SLOTS], changes: &[bool; PAIRS]) -> [bool; WITHOUT_NOT]
    requires { (s : ℕ) → s < slot_limit → get_or card.now s 0 < row }
    ensures { Truth card.now changes.now result }
{
    let mut truth: [bool; WITHOUT_NOT] = [false; WITHOUT_NOT];
    enter_changes(changes, &mut truth);
    'slots: for (s, &value) in card.iter().enumerate() {
        let at = s * ROW + usize::from(value);
        truth[at] = true;
        truth[PAIRS + at] = false;
    }
    truth
}

// Whether a literal holds, by the number of its test.
pub fn is_true(number: u16, truth: &[bool; WITHOUT_NOT]) -> bool
    requires { number < tests }
    ensures { (S : List ℕ) (bs : List Bool) → Truth S bs truth.now → result ≡ holds S (set_of bs) (literal_of (literal_in number)) }
{
    let at = usize::from(number % UNDER_NOT);
    let test = truth[at];
    if number / UNDER_NOT == 1 { !test } else { test }
}
