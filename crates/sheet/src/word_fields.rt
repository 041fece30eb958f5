// The word that a field says: a number, or hexadecimal digits after 0x (rule 7.4).
ghost use Rattle.std.specs.Prelude.{◌≡◌};
ghost use Rattle.std.specs.Bool.{then_some};
ghost use Rattle.sheet.specs.WordField.{is_hex_digit, hex_digit, hex_number, has0x, word_of};
ghost use Rattle.sheet.specs.Places.{hex_digit_at, hex_run_at};

use crate::numbers::{digit, read_number};

// How many hexadecimal digits a word may have.
const MOST_DIGITS: usize = 8;

// The value of a hexadecimal digit. Not by `to_digit(16)`, which takes small letters too.
#[tactic(auto, unfolding(words::specs::Opened::choices, crate::specs::WordField::is_hex_digit, crate::specs::WordField::hex_digit, octets::specs::Number::is_digit))]
fn hex_digit(b: u8) -> Option<u32>
    ensures { result ≡ then_some (is_hex_digit b) (hex_digit b) }
{
    match b {
        b'A'..=b'F' => Some((b - b'A') as u32 + 10),
        _ => digit(b),
    }
}

// The value of the digit at a place (why it is not one with `digit_at` stands there).
#[tactic(auto, unfolding(crate::specs::Places::hex_digit_at))]
fn hex_digit_at(s: &[u8], at: usize) -> Option<u32>
    ensures { result ≡ hex_digit_at s.now at }
{
    hex_digit(*s.get(at)?)
}

// The digits from a place on, up to a byte that is none, if they are as many as a word may have. Eight never exceed 32 bits, and
// zeros may lead: so it is not one with `number_at`, where the value is tested and a 0 stands alone.
pub fn hex_run(s: &[u8], at: usize) -> Option<(u32, usize)>
    ensures { result ≡ hex_run_at s.now at }
{
    let mut value: u32 = 0;
    // no `for`, as in `number_at`
    let mut i = at;
    while let Some(digit) = hex_digit_at(s, i) {
        if i - at == MOST_DIGITS {
            return None;
        }
        value = value * 16 + digit;
        i += 1;
    }
    (at < i).then_some((value, i))
}

// What stands after 0x: digits alone. These are the two lines of `read_number`, which a function for both would not shorten.
#[tactic(auto, using(crate::proofs::HexRunLaws::digits_none, crate::proofs::HexRunLaws::digits_said))]
fn hex_digits(digits: &[u8]) -> Option<u32>
    ensures { result ≡ hex_number digits.now }
{
    let (value, end) = hex_run(digits, 0)?;
    (end == digits.len()).then_some(value)
}

// Whether a field begins with 0x.
#[tactic(auto, using(crate::proofs::WordFieldLaws::short_no_0x), unfolding(crate::specs::WordField::has0x))]
pub fn has_0x(field: &[u8]) -> bool
    ensures { result ≡ has0x field.now }
{
    matches!(field, [b'0', b'x', ..])
}

// The word that a field says.
#[tactic(auto, using(crate::proofs::WordFieldLaws::hex_word, crate::proofs::WordFieldLaws::plain_word))]
pub fn read_word(field: &[u8]) -> Option<u32>
    ensures { result ≡ word_of field.now }
{
    match field {
        [b'0', b'x', digits @ ..] => hex_digits(digits),
        _ => read_number(field),
    }
}
