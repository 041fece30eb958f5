// The lines of the print, rules 8.1 to 8.3, put into a page: a lent buffer with the place up to which it is filled. What is printed
// is defined in specs/Print.antt; specs/Put.antt and specs/Puts.antt say what putting does to a page of any length, filled up to
// any place.
#![tactic(auto)]

mod page;
mod rows;

pub use page::Page;

// A motor's line after a scan: numbers, as it is printed, and any.
#[derive(Clone, Copy)]
pub struct Row {
    pub scan: u32,
    pub number: u32,
    pub mode: u32,
    pub position: u32,
    pub command: u32,
    pub end: u32,
    pub output: u32,
    pub flags: u32,
}

// A motor's line at the end of a file, likewise. Its counts are those of `Totals`, whose crate lies above this one.
#[derive(Clone, Copy)]
pub struct TotalsRow {
    pub number: u32,
    pub issued: u32,
    pub confirmed: u32,
    pub displaced: u32,
    pub overdue: u32,
    pub underway: u32,
    pub on: u32,
    pub best: u32,
    pub worst: u32,
}
