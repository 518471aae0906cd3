// The smallest steps of reading a statement: the word that must stand here, a name, a name declared before or NONE, and lists that count their parts.
#![tactic(auto)]

pub mod lookup;
pub mod parts;
pub mod source;
pub mod step;
