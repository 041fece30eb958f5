// The dump of a whole file, rule 9, as a walk through its lines (course): it is `dump_of` of the file (proofs/Pieces.antt).
#![tactic(auto)]

mod lines;
mod scans;
mod signals;

use interpreter::Bench;

// A bench at a place of a file, and all periods up to there, added up. Its totals are not kept, and mean nothing. A place past the file's
// end says that all is put, and is no Option, as in print's `Sitting`.
#[derive(Clone, Copy)]
pub struct Recording {
    pub bench: Bench,
    pub at: usize,
    pub time: u32,
}
