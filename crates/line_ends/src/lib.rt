// The search for LF, for programs in Rust or C to link (the crate `line_ends_c` exports it): they test it and measure it as
// it is. Where there is no LF, the answer is the slice's length and no Option, since C, which has none, gets it as it is.
#![tactic(auto)]

ghost use Rattle.std.specs.Prelude.{◌≡◌, length, unwrap_or};
ghost use Rattle.octets.specs.Split.{found_lf};

use octets::{LF, find_lf, index_from};

// The first LF at or after a place, as the bench finds it.
pub fn first_lf(file: &[u8], at: usize) -> usize
    ensures { result ≡ unwrap_or (found_lf file.now at) (length file.now) }
{
    find_lf(file, at).unwrap_or(file.len())
}

// The same, looked for byte by byte: what the other is measured against.
pub fn first_lf_by_bytes(file: &[u8], at: usize) -> usize
    ensures { result ≡ unwrap_or (found_lf file.now at) (length file.now) }
{
    index_from(file, at, LF).unwrap_or(file.len())
}
