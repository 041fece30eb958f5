// Issuing a command, on the status, and the previous word: rules 3.9 and 3.10.
#![tactic(auto, unfolding(rules::specs::Opened::opened))]

ghost use Rattle.std.specs.Prelude.{◌≡◌};
ghost use Rattle.rules.specs.Steps.{flags9, turns_to_work, issue_status, status10};

use crate::command::is_on;
use rules::names::{command, end, flag, mode, ops1};
use rules::{Settings, Status};
use words::{choose, has, masked_out, with_bit, without_bit};

// Flags 5 and 6.
pub const OFF_FLAGS: u32 = 96;

#[tactic(auto, using(crate::proofs::Masks::off_flags), unfolding(words::specs::Opened::choices, rules::specs::Steps::flags9))]
pub fn issue_flags(c: u32, flags: u32) -> u32
    ensures { result ≡ flags9 c flags }
{
    let f = choose(
        is_on(c),
        masked_out(flags, OFF_FLAGS),
        without_bit(flags, flag::ON_BY_LZ),
    );
    match c {
        command::SMA_OFF => with_bit(f, flag::OFF_BY_SMA),
        command::LZ_OFF => with_bit(f, flag::OFF_BY_LZ),
        command::LZ_ON => with_bit(f, flag::ON_BY_LZ),
        _ => f,
    }
}

pub fn turns_to_work(s: Settings, v: Status, c: u32) -> bool
    ensures { result ≡ turns_to_work s v c }
{
    let lz = (c == command::LZ_ON) & has(s.ops1, ops1::LZ_ON_TO_WORK)
        | (c == command::LZ_OFF) & has(s.ops1, ops1::LZ_OFF_TO_WORK);
    let ko_on = (c == command::KO_ON) & has(s.ops1, ops1::KO_ON_TO_WORK);
    let ko_off = (c == command::KO_OFF) & has(s.ops1, ops1::KO_OFF_TO_WORK);
    (v.mode == mode::RESERVE) & (lz | ko_on | ko_off)
}

// The status after issuing c: rule 3.9.
pub fn issue_status(s: Settings, v: Status, c: u32) -> Status
    ensures { result ≡ issue_status s v c }
{
    Status {
        mode: choose(turns_to_work(s, v, c), mode::WORK, v.mode),
        command: c,
        end: choose(v.command == command::NONE, v.end, end::DISPLACED),
        flags: issue_flags(c, v.flags),
        ..v
    }
}

// Rule 3.10.
pub fn keep_word(v: Status, word: u32) -> Status
    ensures { result ≡ status10 v word }
{
    Status {
        previous: word,
        ..v
    }
}
