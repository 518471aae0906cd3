// Strata of a table's rules: the least numbers, or the lowest rule on a circle through a NOT (18).
#![tactic(auto)]

pub mod least;
pub mod order;
