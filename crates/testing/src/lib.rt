// What the tests of rules in rows come to by the card and the changes, and rules that wait for a pair.
#![tactic(auto)]

pub mod truth;
pub mod waiting;
