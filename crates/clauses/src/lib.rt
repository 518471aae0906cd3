// The clauses of a rule: a literal, a condition, the assignments.
#![tactic(auto)]

pub mod assignments;
pub mod conditions;
pub mod literal;
