// What tests, literals and rules come to, True, False or Unknown: the tests of a card and its marks looked up by number, NOT and AND by their cases.
ghost use Rattle.std.specs.Prelude.{◌≡◌, List, ℕ, ◌*◌, ◌<◌, get_or};
ghost use Rattle.laws.specs.Limits.{slot_limit, row};
ghost use Rattle.table.specs.Link.{literal_of, rule_of};
ghost use Rattle.table.specs.inner.Flat.{pair_places};
ghost use Rattle.rows.specs.inner.Rows.{tests, literal_in, rule_in};
ghost use Rattle.marks.specs.Marks.{truth_test, truth_literal, truth_rule};
ghost use Rattle.judging.specs.declared.truth.Known.{Known};
ghost use Rattle.judging.specs.inner.Known.{known, marks_of, Truths};

use rows::{RuleRow, UNDER_NOT};
use table::{PAIRS, ROW, SLOTS};
use testing::truth::WITHOUT_NOT;
use truths::Truth3::{self, False, True, Unknown};
use truths::{and, not};

// The positive and the negative pairs, and what each test without NOT comes to: `|=` for each pair, then `*=` for each. A flag for either mark, as a pair may have neither and the changes are the positive ones.
#[derive(Clone, Copy)]
pub struct Known {
    pub positive: [bool; PAIRS],
    pub negative: [bool; PAIRS],
    pub truth: [Truth3; WITHOUT_NOT],
}

// What each test without NOT comes to at a card and its marks: `|=` for each pair, then `*=` for each.
pub fn truth_of(
    card: &[u8; SLOTS],
    positive: &[bool; PAIRS],
    negative: &[bool; PAIRS],
) -> [Truth3; WITHOUT_NOT]
    requires { (s : ℕ) → s < slot_limit → get_or card.now s 0 < row }
    ensures { Truths card.now (known positive.now negative.now result) }
{
    let mut truth: [Truth3; WITHOUT_NOT] = [False; WITHOUT_NOT];
    'pairs: for p in 0..PAIRS {
        let mark = if positive[p] {
            True
        } else if negative[p] {
            False
        } else {
            Unknown
        };
        truth[PAIRS + p] = mark;
    }
    'slots: for (s, &value) in card.iter().enumerate() {
        let at = s * ROW + usize::from(value);
        truth[at] = True;
        truth[PAIRS + at] = False;
    }
    truth
}

// What a test comes to that is not under NOT, by its number.
fn test_truth(number: u16, truth: &[Truth3; WITHOUT_NOT]) -> Truth3
    requires { number < 2 * pair_places }
    ensures { (S : List ℕ) (k : Known) → Truths S k → truth.now ≡ k.truth → result ≡ truth_test S (marks_of k) (literal_of (literal_in number)) }
{
    let at = usize::from(number);
    truth[at]
}

// What a literal comes to, by the number of its test.
fn literal_truth(number: u16, truth: &[Truth3; WITHOUT_NOT]) -> Truth3
    requires { number < tests }
    ensures { (S : List ℕ) (k : Known) → Truths S k → truth.now ≡ k.truth → result ≡ truth_literal S (marks_of k) (literal_of (literal_in number)) }
{
    let test = test_truth(number % UNDER_NOT, truth);
    if UNDER_NOT <= number { not(test) } else { test }
}

// What a rule comes to, as it is defined: a condition without literals is True; each literal, from the last to the first, AND what comes after it; the trigger AND the condition. What has come to False stays False.
pub fn rule_truth(row: &RuleRow, truth: &[Truth3; WITHOUT_NOT]) -> Truth3
    ensures { (S : List ℕ) (k : Known) → Truths S k → truth.now ≡ k.truth → result ≡ truth_rule S (marks_of k) (rule_of (rule_in row.now.numbers)) }
{
    let number = row.awaited();
    let trigger = test_truth(number, truth);
    if let False = trigger {
        return False;
    }
    let mut condition = True;
    'literals: for j in (0..row.tested()).rev() {
        let next = row.literal(j);
        let x = literal_truth(next, truth);
        condition = and(x, condition);
        if let False = condition {
            return False;
        }
    }
    and(trigger, condition)
}
