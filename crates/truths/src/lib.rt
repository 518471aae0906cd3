// True, False and Unknown, the RL paper, section 6.1: the cases of AND and NOT, for a reviewer to tick off against its words.
#![tactic(auto)]

ghost use Rattle.std.specs.Prelude.{◌≡◌, ◌-◌, min};
ghost use Rattle.truths.specs.Truths.{◌AND₃◌, NOT₃, number};

// The three truth values, in the order of their numbers: what the evaluation of a test, a literal, a condition or a rule gives.
#[derive(Clone, Copy, PartialEq, Eq)]
pub enum Truth3 {
    False,
    Unknown,
    True,
}

// A rule is 3-enabled if and only if all its preconditions are evaluated to be True, and 3-non-enabled if and only if one of them is evaluated to be False; there are intermediate cases when it is neither. For two preconditions:
// [p AND q] is True if p and q are True;
// [p AND q] is False if p or q is False;
// [p AND q] is Unknown otherwise.
pub fn and(p: Truth3, q: Truth3) -> Truth3
    ensures { (result ≡ p AND₃ q) × (number result ≡ min (number p) (number q)) }
{
    match p {
        Truth3::True => match q {
            Truth3::True => Truth3::True, // True AND True
            Truth3::False => Truth3::False, // True AND False
            Truth3::Unknown => Truth3::Unknown, // True AND Unknown
        },
        Truth3::False => match q {
            Truth3::True => Truth3::False, // False AND True
            Truth3::False => Truth3::False, // False AND False
            Truth3::Unknown => Truth3::False, // False AND Unknown
        },
        Truth3::Unknown => match q {
            Truth3::True => Truth3::Unknown, // Unknown AND True
            Truth3::False => Truth3::False, // Unknown AND False
            Truth3::Unknown => Truth3::Unknown, // Unknown AND Unknown
        },
    }
}

// [NOT p] is True if p is False; [NOT p] is False if p is True;
// all other primitive conditions are evaluated to Unknown.
pub fn not(p: Truth3) -> Truth3
    ensures { (result ≡ NOT₃ p) × (number result ≡ 2 - number p) }
{
    match p {
        Truth3::False => Truth3::True, // NOT False
        Truth3::True => Truth3::False, // NOT True
        Truth3::Unknown => Truth3::Unknown, // NOT Unknown
    }
}
