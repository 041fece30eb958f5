// The bench: its state, and what a line of a file does to it. The meanings are definitions in specs/. They fix what open functions
// answer on any input, but for what lies past the motors of a bench (`view_of`).
#![tactic(auto)]

mod acts;
mod lines;

pub use acts::{is_too_long, next_number};
pub use lines::{Inputs, next_scan};
use rules::Motor;
use table::MOST_MOTORS;
use totals::Totals;

// The first `count` elements of the arrays are in use: the motors by rising number, the word that each holds, and their totals.
// One array of each kind, since a scan lends the motors and the words as two slices; the totals last, so that a bench is copied
// faster. No invariant keeps the count within the arrays: it would take fewer benches.
#[derive(Clone, Copy, Default)]
pub struct Bench {
    pub motors: [Motor; MOST_MOTORS],
    pub words: [u32; MOST_MOTORS],
    pub count: usize,
    pub scans: u32,
    pub totals: [Totals; MOST_MOTORS],
}
