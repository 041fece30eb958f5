// The mode: rule 3.6.
#![tactic(auto, unfolding(rules::specs::Opened::opened))]

ghost use Rattle.std.specs.Prelude.{◌≡◌, eqb};
ghost use Rattle.std.specs.List.{list_any};
ghost use Rattle.rules.specs.Record.{commands, command_risen};
ghost use Rattle.rules.specs.Steps.{modes_risen, mode_asked, reserve_allowed, mode_allowed, mode_changes, status6};

use crate::command::{is_risen, risen};
use rules::names::{command, flag, input, mode, ops1, position};
use rules::{Settings, Status};
use words::{choose, has};

// Bits 9 to 11 of the input word.
const MODE_BITS: u32 = 3584;

// Bit 11, the last of them.
const LAST_MODE_BIT: u32 = 2048;

// Whether just one of the bits that ask for a mode has risen.
pub fn is_one_mode_risen(v: Status, word: u32) -> bool
    ensures { result ≡ eqb (modes_risen v word) 1 }
{
    u32::count_ones(risen(v, word) & MODE_BITS) == 1
}

// The mode that the lowest risen bit of 9 to 11 asks for, or the last one.
pub fn asked_mode(v: Status, word: u32) -> u32
    ensures { result ≡ mode_asked v word }
{
    let r = risen(v, word) & MODE_BITS;
    u32::trailing_zeros(r | LAST_MODE_BIT) - input::REPAIR
}

// Whether the bit of any switching command has risen.
pub fn is_any_risen(v: Status, word: u32) -> bool
    ensures { result ≡ list_any (command_risen v word) commands }
{
    (1..8).any(|c| is_risen(v, word, c))
}

pub fn is_reserve_allowed(s: Settings, v: Status) -> bool
    ensures { result ≡ reserve_allowed s v }
{
    let fault = has(v.flags, flag::SWITCH_FAULT) & !has(s.ops1, ops1::RESERVE_WITH_FAULT);
    let unsupplied = has(v.flags, flag::NO_SUPPLY) & !has(s.ops1, ops1::RESERVE_WITHOUT_SUPPLY);
    !fault & !unsupplied
}

pub fn is_mode_allowed(s: Settings, v: Status, mode: u32) -> bool
    ensures { result ≡ mode_allowed s v mode }
{
    ((mode == mode::WORK) | (v.position == position::OFF))
        & ((mode != mode::RESERVE) | is_reserve_allowed(s, v))
}

pub fn is_mode_changing(s: Settings, v: Status, word: u32) -> bool
    ensures { result ≡ mode_changes s v word }
{
    let one = !has(word, input::LOCAL_MODE) & is_one_mode_risen(v, word);
    let quiet = one & (v.command == command::NONE) & !is_any_risen(v, word);
    quiet & is_mode_allowed(s, v, asked_mode(v, word))
}

pub fn change_mode(s: Settings, v: Status, word: u32) -> Status
    ensures { result ≡ status6 s v word }
{
    Status {
        mode: choose(is_mode_changing(s, v, word), asked_mode(v, word), v.mode),
        ..v
    }
}
