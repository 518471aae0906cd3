// Rules as rows of numbers: what the work below the entry points is lent in place of the table.
#![tactic(auto)]

ghost use Rattle.std.specs.Prelude.{◌≡◌, cond, ◌+◌, ◌/◌, ◌≤◌, ◌<◌, ℕ, [], map, get_or, replicate};
ghost use Rattle.laws.specs.Limits.{literal_limit, assignment_limit};
ghost use Rattle.model.specs.Result.{pair};
ghost use Rattle.model.specs.Strata.{is_becomes, is_plain, is_under_not};
ghost use Rattle.table.specs.Link.{literal_of};
ghost use Rattle.table.specs.inner.Flat.{Placed, pair_places, place_of};
ghost use Rattle.table.specs.inner.Fits.{RuleFits};
ghost use Rattle.rows.specs.inner.Rows.{tests, literal_in, pair_in, rule_in, zero_row, Row, RowBounded, UnusedRow};

use table::{ASSIGNMENTS, LITERALS, Literal, Rule};

// What is set aside for rules has one of three sizes, each about eight times the one before: for a few rules, for some, and for as many as a file may have (table::RULES).
pub const FEW: usize = 32;

pub const SOME: usize = 256;

// The numbers of a row.
pub const NUMBERS: usize = 4 + LITERALS + ASSIGNMENTS;

// What a test's number has more for `*=`.
pub const BECOMES: u16 = 512;

// What it has more under NOT.
pub const UNDER_NOT: u16 = 1024;

// The place of a slot and a value among the pairs.
fn place_number(slot: u8, value: u8) -> u16
    requires { Placed slot value }
    ensures { (pair_in result ≡ pair slot value) × (result < pair_places) }
{
    let s = slot as u16;
    let v = value as u16;
    s * 16 + v
}

// The number of a literal's test.
fn literal_number(l: Literal) -> u16
    requires { Placed l.slot l.value }
    ensures { (literal_in result ≡ l) × (result < tests) }
{
    let p = place_number(l.slot, l.value);
    let b: u16 = if l.becomes { BECOMES } else { 0 };
    let n: u16 = if l.negated { UNDER_NOT } else { 0 };
    p + b + n
}

// A rule as a row of numbers: what a rule was written into, or any row whose numbers keep the same bounds, as zeros do. It takes 32 bytes, a rule by its parts 46, and the work goes over rows again and again.
#[derive(Clone, Copy)]
pub struct RuleRow {
    pub numbers: [u16; NUMBERS],
    pub ghost fits: { RowBounded numbers },
}

impl RuleRow {
    // A rule's row.
    pub fn of(r: Rule) -> RuleRow
        requires { RuleFits r }
        ensures { Row r result.numbers }
    {
        let trigger = place_number(r.slot, r.value);
        let mut row: [u16; NUMBERS] = [0; NUMBERS];
        row[0] = BECOMES + trigger;
        let m = r.tested as usize;
        row[1] = m as u16;
        let k = r.assigned as usize;
        row[2] = k as u16;
        row[3] = r.stratum;
        'literals: for j in 0..m {
            row[4 + j] = literal_number(r.literals[j]);
        }
        'assignments: for i in 0..k {
            let a = r.assignments[i];
            row[12 + i] = place_number(a.slot, a.value);
        }
        RuleRow { numbers: row }
    }

    // How many literals its rule uses.
    pub fn tested(&self) -> usize
        ensures { (result ≡ (rule_in self.now.numbers).tested) × (result ≤ literal_limit) }
    {
        usize::from(self.numbers[1])
    }

    // How many assignments it uses.
    pub fn assigned(&self) -> usize
        ensures { (result ≡ (rule_in self.now.numbers).assigned) × (result ≤ assignment_limit) }
    {
        usize::from(self.numbers[2])
    }

    // The stratum that it carries.
    pub fn stratum(&self) -> u16
        ensures { result ≡ (rule_in self.now.numbers).stratum }
    {
        self.numbers[3]
    }

    // The number of its trigger's test.
    pub fn trigger(&self) -> u16
        ensures { (result ≡ get_or self.now.numbers 0 0) × (result < tests) }
    {
        self.numbers[0]
    }

    // The number of the test that its rule waits for: the `*=` of its trigger's pair, also where the trigger's number lacks what it has more for `*=`.
    pub fn awaited(&self) -> u16
        ensures { (pair_in result ≡ pair_in (get_or self.now.numbers 0 0)) × (result / pair_places ≡ 1) }
    {
        BECOMES + self.numbers[0] % BECOMES
    }

    // The number of the test at a literal's place.
    pub fn literal(&self, j: usize) -> u16
        requires { j < literal_limit }
        ensures { (result ≡ get_or self.now.numbers (4 + j) 0) × (j < (rule_in self.now.numbers).tested → result < tests) }
    {
        self.numbers[4 + j]
    }

    // The place of the pair at an assignment's place, as a number.
    pub fn assignment(&self, k: usize) -> u16
        requires { k < assignment_limit }
        ensures { result ≡ get_or self.now.numbers (12 + k) 0 }
    {
        self.numbers[12 + k]
    }
}

// The row of zeros: that of a rule that tests and assigns nothing.
pub fn empty_row() -> RuleRow
    ensures unused { UnusedRow result.numbers }
    ensures zeros { result.numbers ≡ zero_row }
{
    let numbers: [u16; NUMBERS] = [0; NUMBERS];
    RuleRow { numbers }
}

// Room for the rows of so many rules, in which nothing is written yet.
pub fn room<const N: usize>() -> [RuleRow; N]
    ensures unused { (i : ℕ) → i < N → UnusedRow (get_or (map (λ r. r.numbers) result) i []) }
    ensures zeros { map (λ r. r.numbers) result ≡ replicate N zero_row }
{
    [empty_row(); N]
}

// The place of a test's pair in an array indexed by pair.
pub fn place(number: u16) -> usize
    ensures { (result ≡ place_of (pair_in number)) × (result < pair_places) }
{
    let p = number % BECOMES;
    p as usize
}

// Whether a test is a `*=`, plain or under NOT; `|=` binds nothing.
pub fn is_becomes(number: u16) -> bool
    ensures { result ≡ is_becomes (literal_of (literal_in number)) }
{
    number / BECOMES % 2 == 1
}

// Whether a test is a plain `*=`: along it strata may stay level.
pub fn is_plain(number: u16) -> bool
    requires { number < tests }
    ensures { result ≡ is_plain (literal_of (literal_in number)) }
{
    number / BECOMES == 1
}

// Whether a test is a `*=` under NOT: along it strata must fall.
pub fn is_under_not(number: u16) -> bool
    requires { number < tests }
    ensures { result ≡ is_under_not (literal_of (literal_in number)) }
{
    number / BECOMES == 3
}

// By how much a test raises its rule above its pair: 1 under NOT, else 0.
pub fn above(number: u16) -> u16
    requires { number < tests }
    ensures { result ≡ cond (literal_in number).negated 1 0 }
{
    number / UNDER_NOT
}
