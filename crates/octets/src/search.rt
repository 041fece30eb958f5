// The search for LF, eight bytes at a time.
ghost use Rattle.std.specs.Prelude.{◌≡◌, ◌+◌, ◌≤◌, length};
ghost use Rattle.octets.specs.Split.{LF, between, found_lf};
ghost use Rattle.octets.specs.WordBytes.{bytes_of, contains};

use crate::parts::{LF, index_from};

// An LF in each byte of a word.
const LFS: u64 = 0x0A0A_0A0A_0A0A_0A0A;

// The low seven bits of each byte.
const LOW_BITS: u64 = 0x7F7F_7F7F_7F7F_7F7F;

const ALL_BITS: u64 = 0xFFFF_FFFF_FFFF_FFFF;

// The word of the eight bytes from a place on, the first the lowest.
fn word_at(s: &[u8], i: usize) -> u64
    requires { i + 8 ≤ length s.now }
    ensures { bytes_of 8 result ≡ between i (i + 8) s.now }
{
    u64::from_le_bytes(*s[i..i + 8].first_chunk().unwrap())
}

// Whether one of a word's eight bytes is LF, all tested at once. In each byte the low seven bits become 0 exactly if they are
// those of LF. Adding 127 sets the byte's highest bit exactly if they are not, and never carries into the next byte. `| w` sets
// it also in a byte that has it already, as 0x8A does, and `| LOW_BITS` sets the others. So a byte ends with all bits set exactly
// if it is not LF.
fn has_lf(w: u64) -> bool
    ensures { result ≡ contains LF (bytes_of 8 w) }
{
    ((((w & LOW_BITS) ^ LFS) + LOW_BITS) | w | LOW_BITS) != ALL_BITS
}

/// The first LF at or after a place. Words are passed over up to one that has an LF, and what follows is searched by bytes.
#[tactic(auto, using(crate::proofs::SearchLaws::found_on))]
pub fn find_lf(file: &[u8], at: usize) -> Option<usize>
    ensures { result ≡ found_lf file.now at }
{
    // places from which eight bytes stand
    let places = file.len().saturating_sub(7);
    // tried: `find` over `(at..places).step_by(8)`, and `take_while` and `count` over `chunks_exact(8)`; both prove, but took up
    // to twice the time in `tests/search.sh speed`
    let mut i = at;
    while i < places {
        if has_lf(word_at(file, i)) {
            break;
        }
        i += 8;
    }
    index_from(file, i, LF)
}
