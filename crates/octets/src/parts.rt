// The first place of a byte, and the part of a list of bytes between two places.
ghost use Rattle.std.specs.Prelude.{◌≡◌};
ghost use Rattle.octets.specs.Split.{found_byte, between};

/// The byte that ends a line: rule 7.1.
pub const LF: u8 = b'\n';

/// The first place from `at` on that has the byte b.
pub fn index_from(s: &[u8], at: usize, b: u8) -> Option<usize>
    ensures { result ≡ found_byte s.now at b }
{
    let i = s.get(at..)?.iter().position(|x| *x == b)?;
    Some(at + i)
}

/// The bytes from one place up to another, as many of them as there are.
pub fn part(s: &[u8], from: usize, to: usize) -> &[u8]
    ensures { result.now ≡ between from to s.now }
{
    let end = to.min(s.len());
    &s[from.min(end)..end]
}
