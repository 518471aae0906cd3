// What is worked out of the changes and of the fired rules alone: the lowest slot in conflict, the new card, the fired record.
#![tactic(auto)]

pub mod ending;
pub mod records;
