// How the names of a file are spelled.
use table::{PAIRS, SLOTS};

// A text, with the spans of the names of its slots and of their values.
#[derive(Clone, Copy)]
pub struct Spelling<'a> {
    pub text: &'a [u8],
    pub slotspans: &'a [usize; SLOTS],
    pub valuespans: &'a [usize; PAIRS],
}
