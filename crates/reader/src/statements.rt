// One statement at the front of the remainder: a slot line, a rule, or the end.
ghost use Rattle.std.specs.Prelude.{◌≡◌, List, [], ℕ, length};
ghost use Rattle.text.specs.Tokens.{SLOT, WHEN};
ghost use Rattle.model.specs.Rules as model;
ghost use Rattle.grammar.specs.Files.{Slot};
ghost use Rattle.grammar.specs.Reading.{took, expects};
ghost use Rattle.steps.specs.inner.Places.{tokens_past};
ghost use Rattle.lines.specs.inner.Index.{Indexed};
ghost use Rattle.lines.specs.inner.Remainder.{Remainder};
ghost use Rattle.reader.specs.inner.Statements.{read_on, RuleNext, statement_answer, StatementLies};

use crate::rules::rule_next;
use lines::front::Front;
use lines::{Line, line_next};
use steps::source::Source;
use steps::step::{Fault, Read, word_of};
use table::{Rule, SLOTS};
use text::{Token, Word};

// What stands at the front: the end, a slot line or a rule.
#[derive(Clone, Copy)]
pub enum Statement {
    End,
    Slot(Read<Line>),
    Rule(Read<Rule>),
}

// A slot line after `width` others, its SLOT read.
fn slot_statement(s: Source, base: usize, at: usize, width: usize) -> Result<Statement, Fault>
    requires { Remainder s.text.now s.tokens.rest.now base }
    ensures { ((most : ℕ) (slots : List Slot) → Indexed s.entry.text.now slots s.entry.slotspans.now s.entry.valuespans.now → width ≡ length slots
        → expects SLOT (tokens_past s.entry.tokens.rest.now base 0) ≡ took tt (tokens_past s.entry.tokens.rest.now base at) → read_on most slots [] (tokens_past s.entry.tokens.rest.now base 0) ≡ statement_answer most s.entry.text.now s.entry.tokens.rest.now base slots [] result)
        × ((most : ℕ) → StatementLies most s.entry.text.now (length s.entry.tokens.rest.now) width 0 result) }
{
    if SLOTS <= width {
        return Err(Fault::TooMany);
    }
    let front = Front {
        text: s.text,
        tokens: s.tokens,
        base,
    };
    let line = line_next(front, s.slotspans, at)?;
    Ok(Statement::Slot(line))
}

// A rule after `count` others of `most` that are taken, its WHEN read.
fn rule_statement(s: Source, at: usize, count: usize, most: usize) -> Result<Statement, Fault>
    ensures { ((base : ℕ) (slots : List Slot) (rules : List model.Rule) → Indexed s.entry.text.now slots s.entry.slotspans.now s.entry.valuespans.now → count ≡ length rules
        → RuleNext rules (tokens_past s.entry.tokens.rest.now base 0) → expects WHEN (tokens_past s.entry.tokens.rest.now base 0) ≡ took tt (tokens_past s.entry.tokens.rest.now base at)
        → read_on most slots rules (tokens_past s.entry.tokens.rest.now base 0) ≡ statement_answer most s.entry.text.now s.entry.tokens.rest.now base slots rules result)
        × ((width : ℕ) → StatementLies most s.entry.text.now (length s.entry.tokens.rest.now) width count result) }
{
    if most <= count {
        return Err(Fault::TooMany);
    }
    let rule = rule_next(s, at)?;
    Ok(Statement::Rule(rule))
}

// The statement at the front of the remainder, after `width` slot lines and `count` rules of `most` that are taken.
pub fn statement_next(
    s: Source,
    base: usize,
    width: usize,
    count: usize,
    most: usize,
) -> Result<Statement, Fault>
    requires { Remainder s.text.now s.tokens.rest.now base }
    ensures { ((slots : List Slot) (rules : List model.Rule) → Indexed s.entry.text.now slots s.entry.slotspans.now s.entry.valuespans.now → width ≡ length slots → count ≡ length rules
        → read_on most slots rules (tokens_past s.entry.tokens.rest.now base 0) ≡ statement_answer most s.entry.text.now s.entry.tokens.rest.now base slots rules result)
        × StatementLies most s.entry.text.now (length s.entry.tokens.rest.now) width count result }
{
    let first = s.tokens.first();
    if first.token == Token::End {
        return Ok(Statement::End);
    }
    if count == 0 {
        if let Ok(at) = word_of(first, Word::Slot) {
            return slot_statement(s, base, at, width);
        }
    }
    let at = word_of(first, Word::When)?;
    rule_statement(s, at, count, most)
}
