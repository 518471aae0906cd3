// The statements of a rule file, and what the library and the program take of it.
#![tactic(auto)]

ghost use Rattle.std.specs.Prelude.{◌≡◌};
ghost use Rattle.grammar.specs.Reading.{bytes_by, rules_by};

use table::{Limits, RULES};

pub mod rules;
pub mod statements;

// The most bytes that a text may have.
pub const TEXT_LIMIT: usize = 262144;

// The most bytes and the most rules of a text that the program takes.
pub const PROGRAM_TEXT_LIMIT: usize = 65535;

pub const PROGRAM_RULES: usize = 255;

// How many bytes a text may have.
pub fn most_bytes(limits: Limits) -> usize
    ensures { result ≡ bytes_by limits }
{
    match limits {
        Limits::Library => TEXT_LIMIT,
        Limits::Program => PROGRAM_TEXT_LIMIT,
    }
}

// How many rules.
pub fn most_rules(limits: Limits) -> usize
    ensures { result ≡ rules_by limits }
{
    match limits {
        Limits::Library => RULES,
        Limits::Program => PROGRAM_RULES,
    }
}
