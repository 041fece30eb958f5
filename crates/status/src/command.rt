// The seven switching commands, by number: rule 1.7; 0 is no command. Each test of a command is short, and a definition of its own.
#![tactic(auto, unfolding(rules::specs::Opened::opened))]

ghost use Rattle.std.specs.Prelude.{◌≡◌};
ghost use Rattle.rules.specs.Record.{direction, is_on, is_off, is_mu, is_ko, input_bit, risen, command_risen};

use rules::Status;
use rules::names::{command, position};
use words::{has, masked_out};

// Direction, 1 off or 2 on, and input bit, by number, in constant arrays. No command has direction 0 and bit 32, which is
// not in any word: with these the tests of a command hold for any number, where an Option would be asked for in each.
const DIRECTIONS: [u32; 8] = [0, 1, 1, 2, 1, 2, 1, 2];

const INPUT_BITS: [u32; 8] = [32, 0, 8, 7, 3, 2, 13, 12];

#[tactic(auto, using(crate::proofs::Tables::direction_at, crate::proofs::Tables::direction_past))]
pub fn direction_of(c: u32) -> u32
    ensures { result ≡ direction c }
{
    DIRECTIONS.get(c as usize).copied().unwrap_or(0)
}

#[tactic(auto, using(crate::proofs::Tables::input_at, crate::proofs::Tables::input_past))]
pub fn input_bit(c: u32) -> u32
    ensures { result ≡ input_bit c }
{
    INPUT_BITS.get(c as usize).copied().unwrap_or(32)
}

pub fn is_on(c: u32) -> bool
    ensures { result ≡ is_on c }
{
    direction_of(c) == position::ON
}

pub fn is_off(c: u32) -> bool
    ensures { result ≡ is_off c }
{
    direction_of(c) == position::OFF
}

// A command of the local panel.
pub fn is_local(c: u32) -> bool
    ensures { result ≡ is_mu c }
{
    (c == command::MU_OFF) | (c == command::MU_ON)
}

// A command of the operator.
pub fn is_operator(c: u32) -> bool
    ensures { result ≡ is_ko c }
{
    (c == command::KO_OFF) | (c == command::KO_ON)
}

// The risen word: the bits that are 1 in the word and 0 in the previous one. Whatever goes by a rise goes by it.
pub fn risen(v: Status, word: u32) -> u32
    ensures { result ≡ risen v word }
{
    masked_out(word, v.previous)
}

// Whether a command's input bit has risen.
pub fn is_risen(v: Status, word: u32, c: u32) -> bool
    ensures { result ≡ command_risen v word c }
{
    has(risen(v, word), input_bit(c))
}
