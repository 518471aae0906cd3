// The classes of bytes: a table of 256, one for each byte, that steers the reader of rule text.
#![tactic(auto)]

ghost use Rattle.std.specs.Prelude.{◌≡◌};
ghost use Rattle.classes.specs.Classes.{class_of, class_number, Classes};

use Class::{Alphanumeric as A, Double as D, Hyphen as H, Other as O, Single as S, White as W};

// The class of a byte.
#[derive(Clone, Copy, PartialEq, Eq)]
pub enum Class {
    Other,
    White,
    Alphanumeric,
    Hyphen,
    Single,
    Double,
}

const CLASSES: [Class; 256] = [
    O, O, O, O, O, O, O, O, O, W, // tab
    W, // line feed
    O, O, W, // carriage return
    O, O, O, O, O, O, O, O, O, O, O, O, O, O, O, O, O, O, W, // space
    O, O, O, O, O, O, O, O, O, D, // *
    O, S, // ,
    H, // -
    O, O, A, // 0
    A, // 1
    A, // 2
    A, // 3
    A, // 4
    A, // 5
    A, // 6
    A, // 7
    A, // 8
    A, // 9
    D, // :
    S, // ;
    O, O, O, O, O, A, // A
    A, // B
    A, // C
    A, // D
    A, // E
    A, // F
    A, // G
    A, // H
    A, // I
    A, // J
    A, // K
    A, // L
    A, // M
    A, // N
    A, // O
    A, // P
    A, // Q
    A, // R
    A, // S
    A, // T
    A, // U
    A, // V
    A, // W
    A, // X
    A, // Y
    A, // Z
    O, O, O, O, O, O, A, // a
    A, // b
    A, // c
    A, // d
    A, // e
    A, // f
    A, // g
    A, // h
    A, // i
    A, // j
    A, // k
    A, // l
    A, // m
    A, // n
    A, // o
    A, // p
    A, // q
    A, // r
    A, // s
    A, // t
    A, // u
    A, // v
    A, // w
    A, // x
    A, // y
    A, // z
    S, // {
    D, // |
    S, // }
    O, O, O, O, O, O, O, O, O, O, O, O, O, O, O, O, O, O, O, O, O, O, O, O, O, O, O, O, O, O, O, O,
    O, O, O, O, O, O, O, O, O, O, O, O, O, O, O, O, O, O, O, O, O, O, O, O, O, O, O, O, O, O, O, O,
    O, O, O, O, O, O, O, O, O, O, O, O, O, O, O, O, O, O, O, O, O, O, O, O, O, O, O, O, O, O, O, O,
    O, O, O, O, O, O, O, O, O, O, O, O, O, O, O, O, O, O, O, O, O, O, O, O, O, O, O, O, O, O, O, O,
    O, O,
];

// The classes of all bytes, each at the place of its byte.
#[derive(Clone, Copy)]
pub struct ClassTable {
    pub classes: [Class; 256],
    pub ghost ruled: { Classes classes },
}

impl ClassTable {
    // The class of a byte, by the table.
    pub fn class_of(&self, byte: u8) -> Class
        ensures { class_number result ≡ class_of byte }
    {
        self.classes[usize::from(byte)]
    }
}

// The table of the classes of all bytes, that a reader lends down.
pub fn table() -> ClassTable {
    ClassTable { classes: CLASSES }
}
