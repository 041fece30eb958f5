// The lines of a file, found where they stand: rule 7.1.
ghost use Rattle.std.specs.Prelude.{◌≡◌};
ghost use Rattle.sheet.specs.Lines.{well_sized, line_at};

use crate::Line;
use octets::find_lf;

// How many bytes a line may have without its LF.
pub const LONGEST: usize = 80;

// Whether a line of n bytes without LF is neither empty nor too long.
#[tactic(auto, unfolding(crate::specs::Lines::well_sized))]
fn is_well_sized(n: usize) -> bool
    ensures { result ≡ well_sized n }
{
    (0 < n) & (n <= LONGEST)
}

// The line that begins at a place of a file. The line itself is the part from there to the end that is answered.
pub fn next_line(file: &[u8], at: usize) -> Line
    ensures { result ≡ line_at file.now at }
{
    if file.len() <= at {
        return Line::End;
    }
    match find_lf(file, at) {
        Some(end) if is_well_sized(end - at) => Line::Until(end),
        _ => Line::Refused,
    }
}
