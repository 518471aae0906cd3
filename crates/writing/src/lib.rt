// The lines of slots and rules put into an output, in the house style (document 02, section 1).
#![tactic(auto)]

pub mod files;
pub mod rules;
pub mod sheet;
pub mod spelling;
