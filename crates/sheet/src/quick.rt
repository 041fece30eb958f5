// The next request of a file. The grammar of the two common kinds of lines, I and S, stands here a second time, since to read
// them once, where they stand, is faster: 107 nanoseconds a printed line for 133 (docs/BENCHMARK.md). What cannot be read so is
// left to the reader of any line: a reading here may fail for any reason, but must not be wrong.
// `file` and `at` are two parameters, and no reader that moves on: a reading that fails has to leave the place as it was.
ghost use Rattle.std.specs.Prelude.{◌≡◌, true, ◌≤◌};
ghost use Rattle.sheet.specs.WordField.{word_of};
ghost use Rattle.sheet.specs.Grammar.{letter_i, letter_s, next_at};
ghost use Rattle.sheet.specs.Places.{is_at, begins_with, ends_line, Read, ReadsNext};

use crate::Request;
use crate::lines::LONGEST;
use crate::numbers::number_at;
use crate::requests::{INPUT, SCAN, request_at};
use crate::word_fields::{has_0x, hex_run};
use octets::{COMMA, LF, part};

// Whether a place of a file has this byte.
#[tactic(auto, unfolding(crate::specs::Places::is_at))]
pub fn is_at(file: &[u8], at: usize, b: u8) -> bool
    ensures { result ≡ is_at file.now at b }
{
    file.get(at) == Some(&b)
}

// The word at a place of a file.
#[tactic(auto, using(crate::proofs::NumberRunLaws::word_read_at, crate::proofs::HexRunLaws::two_inside, crate::proofs::HexRunLaws::run_word))]
fn word_at(file: &[u8], at: usize) -> Option<(u32, usize)>
    ensures { Read word_of file.now at result }
{
    if has_0x(part(file, at, file.len())) {
        return hex_run(file, at + 2);
    }
    number_at(file, at)
}

// Whether a field of this letter alone stands at a place of a file, and a comma after it.
#[tactic(auto, using(crate::proofs::PlaceLaws::byte_at), unfolding(crate::specs::Places::begins_with))]
fn begins_with(file: &[u8], at: usize, letter: u8) -> bool
    ensures { result ≡ begins_with file.now at letter }
{
    is_at(file, at, letter) && is_at(file, at + 1, COMMA)
}

// Whether an LF stands at `end`, and a line from `at` up to there is not too long.
#[tactic(auto, unfolding(crate::specs::Places::ends_line))]
fn ends_line(file: &[u8], at: usize, end: usize) -> bool
    requires { at ≤ end }
    ensures { result ≡ ends_line file.now at end }
{
    is_at(file, end, LF) & (end - at <= LONGEST)
}

// The request of a line that begins with an S.
#[tactic(auto, using(crate::proofs::NumberRunLaws::number_said_at, crate::proofs::PlaceLaws::begun_inside, crate::proofs::PlaceLaws::ended_inside, crate::proofs::PlaceLaws::scan_next), unfolding(crate::specs::Places::Read))]
fn scan_at(file: &[u8], at: usize) -> Option<(Request, usize)>
    requires { begins_with file.now at letter_s ≡ true }
    ensures { ReadsNext file.now at result }
{
    let (period, end) = number_at(file, at + 2)?;
    if !ends_line(file, at, end) {
        return None;
    }
    Some((Request::Scan { period }, end + 1))
}

// The request of a line that begins with an I.
fn input_at(file: &[u8], at: usize) -> Option<(Request, usize)>
    requires { begins_with file.now at letter_i ≡ true }
    ensures { ReadsNext file.now at result }
{
    let (number, parting) = number_at(file, at + 2)?;
    if !is_at(file, parting, COMMA) {
        return None;
    }
    let (word, end) = word_at(file, parting + 1)?;
    if !ends_line(file, at, end) {
        return None;
    }
    Some((Request::Input { number, word }, end + 1))
}

// The request of a line of one of the two kinds, if it can be read so.
fn quick_request(file: &[u8], at: usize) -> Option<(Request, usize)>
    ensures { ReadsNext file.now at result }
{
    if begins_with(file, at, INPUT) {
        return input_at(file, at);
    }
    if begins_with(file, at, SCAN) {
        return scan_at(file, at);
    }
    None
}

// The request of the line at a place of a file, and the place after that line, as `request_at` gives them.
pub fn next_request(file: &[u8], at: usize) -> Option<(Request, usize)>
    ensures { result ≡ next_at file.now at }
{
    quick_request(file, at).or_else(|| request_at(file, at))
}
