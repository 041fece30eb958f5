// The print of a whole file, rule 8: what the lines of a file do to a bench, and what they print, for the walk of crate `course`
// through them. It comes to `print_of` of the file (proofs/Pieces.antt).
#![tactic(auto)]

mod lines;
mod scans;
#[cfg(test)]
mod tests;

use interpreter::Bench;

// A bench at a place of a file, where the line of this number begins. A place past the file's end says that all is printed. It is no
// Option: the field is public, and callers go by the number, as `scans` and `line` do, which would have to unpack it.
#[derive(Clone, Copy)]
pub struct Sitting {
    pub bench: Bench,
    pub at: usize,
    pub line: u32,
}
