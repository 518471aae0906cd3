// Pairs marked positive or negative, and the rules woken by a mark.
#![tactic(auto)]

pub mod pairs;
pub mod waking;
