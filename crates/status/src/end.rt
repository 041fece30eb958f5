// The end of the command under way, on the status: rule 3.4.
#![tactic(auto, unfolding(rules::specs::Opened::opened))]

ghost use Rattle.std.specs.Prelude.{◌≡◌};
ghost use Rattle.words.specs.Word.{with_bit};
ghost use Rattle.rules.specs.Record.{overdue_flag};
ghost use Rattle.rules.specs.Steps.{confirms, confirmed, overdue, ended, end4, flags4, status4};

use crate::command::direction_of;
use crate::switches::position_read;
use rules::names::{command, end, flag};
use rules::{Reading, Status};
use words::{choose, with_bit};

// Whether a reading confirms the command c.
pub fn is_confirming(r: Reading, c: u32) -> bool
    ensures { result ≡ confirms r c }
{
    position_read(r) == Some(direction_of(c))
}

pub fn is_confirmed(v: Status, r: Reading) -> bool
    ensures { result ≡ confirmed v r }
{
    (v.command != command::NONE) & is_confirming(r, v.command)
}

// up: whether the monitoring time is up.
pub fn is_overdue(v: Status, r: Reading, up: bool) -> bool
    ensures { result ≡ overdue v r up }
{
    (v.command != command::NONE) & !is_confirming(r, v.command) & up
}

// The flags with the one of an overdue command c set.
pub fn with_overdue(flags: u32, c: u32) -> u32
    ensures { result ≡ with_bit (overdue_flag c) flags }
{
    if c < 26 {
        with_bit(flags, flag::OVERDUE + c)
    } else {
        flags
    }
}

// Whether the command under way ends now.
pub fn is_ended(v: Status, r: Reading, up: bool) -> bool
    ensures { result ≡ ended v r up }
{
    is_confirmed(v, r) | is_overdue(v, r, up)
}

pub fn end_now(v: Status, r: Reading, up: bool) -> u32
    ensures { result ≡ end4 v r up }
{
    let late = choose(is_overdue(v, r, up), end::OVERDUE, v.end);
    choose(is_confirmed(v, r), end::CONFIRMED, late)
}

pub fn flags_now(v: Status, r: Reading, up: bool) -> u32
    ensures { result ≡ flags4 v r up }
{
    choose(
        is_overdue(v, r, up),
        with_overdue(v.flags, v.command),
        v.flags,
    )
}

pub fn end_command(v: Status, r: Reading, up: bool) -> Status
    ensures { result ≡ status4 v r up }
{
    Status {
        command: choose(is_ended(v, r, up), command::NONE, v.command),
        end: end_now(v, r, up),
        flags: flags_now(v, r, up),
        ..v
    }
}
