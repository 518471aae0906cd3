// The table of document 01, 'Rule text': slots, values and rules by value. In a rule value 0 is NONE (document 02, section 6).
#![tactic(auto)]

ghost use Rattle.std.specs.Prelude.{◌≡◌};
ghost use Rattle.table.specs.Empty.{unused_rule, empty_table};
ghost use Rattle.table.specs.inner.Flat.{Placed, At};

// The limits of document 01; `laws/specs/Limits.antt` has the same numbers.
pub const SLOTS: usize = 32;

pub const VALUES: usize = 15;

pub const RULES: usize = 2000;

pub const LITERALS: usize = 8;

pub const ASSIGNMENTS: usize = 4;

// The places of one slot in an array indexed by pair (NONE, which is value 0, and its values from 1), and of all slots.
pub const ROW: usize = VALUES + 1;

pub const PAIRS: usize = SLOTS * ROW;

// Which response a table is read for and asked by (the definitions of the reading and of the answer take it by name, so that a closure would say less): the response by strata (document 01), or the response by marks (document 02, section 3).
#[derive(Clone, Copy)]
pub enum Way {
    Strata,
    Marks,
}

// Whose limits a text is read by (document 02, section 7): the library's, or the smaller ones of the program.
#[derive(Clone, Copy)]
pub enum Limits {
    Library,
    Program,
}

// A stratum, from 1.
pub type Stratum = u16;

// A test in a condition: `slot *= value` (becomes) or `slot |= value`, plain or under NOT.
#[repr(C)]
#[derive(Clone, Copy)]
pub struct Literal {
    pub becomes: bool,
    pub negated: bool,
    pub slot: u8,
    pub value: u8,
}

// `slot := value`.
#[repr(C)]
#[derive(Clone, Copy)]
pub struct Assignment {
    pub slot: u8,
    pub value: u8,
}

// A rule: its trigger `slot *= value`, the literal places with the number used, the assignment places with the number used, its stratum.
#[repr(C)]
#[derive(Clone, Copy)]
pub struct Rule {
    pub slot: u8,
    pub value: u8,
    pub literals: [Literal; LITERALS],
    pub tested: u8,
    pub assignments: [Assignment; ASSIGNMENTS],
    pub assigned: u8,
    pub stratum: Stratum,
}

// A place in a rule text, or a length of a part of it.
pub type Offset = u32;

// Where a name stands in the rule text.
#[repr(C)]
#[derive(Clone, Copy)]
pub struct Name {
    pub start: Offset,
    pub size: Offset,
}

// A slot: its name, and the names of its values with the number used.
#[repr(C)]
#[derive(Clone, Copy)]
pub struct Slot {
    pub name: Name,
    pub values: [Name; VALUES],
    pub count: u16,
}

// The slots with the number used, and the rules with the number used.
#[repr(C)]
#[derive(Clone, Copy)]
pub struct Table {
    pub slots: [Slot; SLOTS],
    pub width: u16,
    pub rules: [Rule; RULES],
    pub count: u16,
}

// A rule's place that is not used: zero throughout.
pub fn empty_rule() -> Rule
    ensures { result ≡ unused_rule }
{
    let literal = Literal {
        becomes: false,
        negated: false,
        slot: 0,
        value: 0,
    };
    let assignment = Assignment { slot: 0, value: 0 };
    Rule {
        slot: 0,
        value: 0,
        literals: [literal; LITERALS],
        tested: 0,
        assignments: [assignment; ASSIGNMENTS],
        assigned: 0,
        stratum: 0,
    }
}

// The table without slots or rules: zero throughout.
pub fn empty_table() -> Table
    ensures { result ≡ empty_table }
{
    let name = Name { start: 0, size: 0 };
    let slot = Slot {
        name: name,
        values: [name; VALUES],
        count: 0,
    };
    let rule = empty_rule();
    Table {
        slots: [slot; SLOTS],
        width: 0,
        rules: [rule; RULES],
        count: 0,
    }
}

// The place of a pair in an array indexed by pair.
pub fn place(slot: u8, value: u8) -> usize
    requires { Placed slot value }
    ensures { At slot value result }
{
    let s = slot as usize;
    let v = value as usize;
    s * ROW + v
}
