// The request that a line makes: rule 7.2.
ghost use Rattle.std.specs.Prelude.{◌≡◌, unwrap_or};
ghost use Rattle.refusals.specs.Numbers.{code_of};
ghost use Rattle.sheet.specs.declared.Request.TheVariants.{Refused};
ghost use Rattle.sheet.specs.Grammar.{motor_of, input_of, scan_of, request_of, next_at, request_refusal};

use crate::lines::next_line;
use crate::numbers::read_number;
use crate::word_fields::read_word;
use crate::{Line, Request};
use octets::{count_fields, field, part};
use refusals::Refusal;

// The first field of a line of each kind.
const MOTOR: u8 = b'M';

pub const INPUT: u8 = b'I';

pub const SCAN: u8 = b'S';

#[tactic(auto, unfolding(crate::specs::Grammar::motor_of, crate::specs::Grammar::number_in, crate::specs::Grammar::word_in, crate::specs::Grammar::motor_from, crate::specs::Grammar::with_value))]
fn motor(line: &[u8]) -> Option<Request>
    ensures { unwrap_or result Refused ≡ motor_of line.now }
{
    Some(Request::Motor {
        number: read_number(field(line, 1))?,
        ops1: read_word(field(line, 2))?,
        ops2: read_word(field(line, 3))?,
        w: read_number(field(line, 4))?,
        u: read_number(field(line, 5))?,
    })
}

#[tactic(auto, unfolding(crate::specs::Grammar::input_of, crate::specs::Grammar::number_in, crate::specs::Grammar::word_in, crate::specs::Grammar::input_from, crate::specs::Grammar::with_value))]
fn input(line: &[u8]) -> Option<Request>
    ensures { unwrap_or result Refused ≡ input_of line.now }
{
    Some(Request::Input {
        number: read_number(field(line, 1))?,
        word: read_word(field(line, 2))?,
    })
}

#[tactic(auto, unfolding(crate::specs::Grammar::scan_of, crate::specs::Grammar::number_in, crate::specs::Grammar::scan_from, crate::specs::Grammar::with_value))]
fn scan(line: &[u8]) -> Option<Request>
    ensures { unwrap_or result Refused ≡ scan_of line.now }
{
    Some(Request::Scan {
        period: read_number(field(line, 1))?,
    })
}

// The request that a line makes.
#[tactic(auto, unfolding(words::specs::Opened::choices, crate::specs::Grammar::request_of, crate::specs::Grammar::is_kind, crate::specs::Grammar::letter_of))]
pub fn parse(line: &[u8]) -> Request
    ensures { result ≡ request_of line.now }
{
    let request = match (field(line, 0), count_fields(line)) {
        ([MOTOR], 6) => motor(line),
        ([INPUT], 3) => input(line),
        ([SCAN], 2) => scan(line),
        _ => None,
    };
    request.unwrap_or(Request::Refused)
}

// The request of the line at a place of a file, and the place after that line. After one that is empty, too long or without LF
// that is the file's end, since the program stops there.
#[tactic(auto, using(crate::proofs::LineLaws::until_whole), unfolding(crate::specs::Grammar::next_at, crate::specs::Grammar::taken_at))]
pub fn request_at(file: &[u8], at: usize) -> Option<(Request, usize)>
    ensures { result ≡ next_at file.now at }
{
    match next_line(file, at) {
        Line::Until(end) => Some((parse(part(file, at, end)), end + 1)),
        Line::Refused => Some((Request::Refused, file.len())),
        Line::End => None,
    }
}

// Whether a line makes a request at all, or the refusal of one that makes none.
#[tactic(auto, unfolding(crate::specs::Grammar::request_refusal))]
pub fn accept(request: Request) -> Result<(), Refusal>
    ensures { code_of result ≡ request_refusal request }
{
    match request {
        Request::Refused => Err(Refusal::Line),
        _ => Ok(()),
    }
}
