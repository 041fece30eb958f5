// A motor's settings and record, and what its two switches read. What the fields mean, and the rules of a scan, are
// definitions in specs/; the functions are in the crates above.
#![tactic(auto)]

pub mod names;

// OPS_1, OPS_2, the monitoring time W and the pulse time U, in milliseconds.
#[derive(Clone, Copy, Debug, Default, PartialEq, Eq)]
#[repr(C)]
pub struct Settings {
    pub ops1: u32,
    pub ops2: u32,
    pub w: u32,
    pub u: u32,
}

// What the book of commands holds of a motor too: mode, last sure position, position, command under way, end in this
// scan, flags and previous input word. Numbers and no enums: a record that is lent may hold any, and a scan tests their range.
#[derive(Clone, Copy, Debug, Default, PartialEq, Eq)]
#[repr(C)]
pub struct Status {
    pub mode: u32,
    pub sure: u32,
    pub position: u32,
    pub command: u32,
    pub end: u32,
    pub flags: u32,
    pub previous: u32,
}

// An output, 0 none, 1 On or 2 Off, and its pulse sum: numbers, as in Status.
#[derive(Clone, Copy, Debug, Default, PartialEq, Eq)]
#[repr(C)]
pub struct Output {
    pub state: u32,
    pub sum: u32,
}

// A motor's record: `sum` is the time sum of the command under way. In C it is fourteen numbers in the order of the fields (`motor_c`).
#[derive(Clone, Copy, Debug, Default, PartialEq, Eq)]
#[repr(C)]
pub struct Motor {
    pub settings: Settings,
    pub status: Status,
    pub sum: u32,
    pub output: Output,
}

// What the first half of a scan leaves: the record after step 7, and the command that step 8 chose, 0 for none.
#[derive(Clone, Copy)]
pub struct Half {
    pub motor: Motor,
    pub chosen: u32,
}

// What the switches read: a position, or none for one of two causes, which step 5 tells apart: hence no Option.
#[derive(Clone, Copy, Debug, PartialEq, Eq)]
pub enum Reading {
    Off,
    On,
    BothOpen,
    BothClosed,
}
