// The number that a field says, rule 7.3, and the one that stands at a place of a file.
ghost use Rattle.std.specs.Prelude.{◌≡◌, ◌-◌, get_or};
ghost use Rattle.std.specs.Bool.{then_some};
ghost use Rattle.octets.specs.Number.{is_digit, number_of};
ghost use Rattle.sheet.specs.Places.{is_digit_at, number_at};

use crate::quick::is_at;

// The largest number that is read. A test against it is quicker here than `checked_mul` and `checked_add` of 32 bits are.
const LARGEST: u64 = 4294967295;

// The value of a decimal digit.
#[tactic(auto, unfolding(octets::specs::Number::is_digit))]
pub fn digit(b: u8) -> Option<u32>
    ensures { result ≡ then_some (is_digit b) (b - 48) }
{
    char::from(b).to_digit(10)
}

// The value of the digit that stands there. `hex_digit_at` differs in the digits: one function for both would take a closure to
// its one line.
#[tactic(auto, unfolding(crate::specs::Places::is_digit_at))]
fn digit_at(file: &[u8], at: usize) -> Option<u32>
    ensures { result ≡ then_some (is_digit_at file.now at) (get_or file.now at 0 - 48) }
{
    digit(*file.get(at)?)
}

// The number at a place of a file, and the place after it. A 0 is read alone, so that no leading zero is taken: a digit after it
// stands where the caller looks for the end of the field. `hex_run` limits the count of digits and this their value: one function
// for both would take each difference as an argument.
pub fn number_at(file: &[u8], at: usize) -> Option<(u32, usize)>
    ensures { result ≡ number_at file.now at }
{
    if is_at(file, at, b'0') {
        return Some((0, at + 1));
    }
    let mut value: u64 = 0;
    // no `for`: the place where the digits end is answered too; and a chain would go through them twice
    let mut i = at;
    while let Some(digit) = digit_at(file, i) {
        value = value * 10 + digit as u64;
        if LARGEST < value {
            return None;
        }
        i += 1;
    }
    (at < i).then_some((value as u32, i))
}

// The number that a field says: decimal digits, without a leading zero.
#[tactic(auto, using(crate::proofs::NumberRunLaws::number_none, crate::proofs::NumberRunLaws::number_whole))]
pub fn read_number(field: &[u8]) -> Option<u32>
    ensures { result ≡ number_of field.now }
{
    let (value, end) = number_at(field, 0)?;
    (end == field.len()).then_some(value)
}
