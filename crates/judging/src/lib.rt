// What the tests and the rules of a card come to by the marks of pairs, and the assignments left to each pair counted.
#![tactic(auto)]

pub mod counting;
pub mod truth;
