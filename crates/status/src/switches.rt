// End and Reset, and the switches: rules 3.1 and 3.2.
#![tactic(auto, unfolding(rules::specs::Opened::opened))]

ghost use Rattle.std.specs.Prelude.{◌≡◌};
ghost use Rattle.std.specs.Bool.{then_some};
ghost use Rattle.rules.specs.Steps.{status1, read_on_switch, pair_read, read_switches, reading, is_sure, position_read, both_closed, flags2, pretended, status2};

use rules::names::{command, end, flag, input, ops1, ops2, position};
use rules::{Reading, Settings, Status};
use words::{choose, has, masked_out, with_bit};

// Flags 2 to 13.
const RESET_FLAGS: u32 = 16380;

// Rule 3.1.
#[tactic(auto, using(crate::proofs::Masks::reset_flags), unfolding(rules::specs::Steps::status1, rules::specs::Steps::flags1, rules::specs::Record::with_flags, rules::specs::Record::with_command, rules::specs::Record::reset))]
pub fn begin(v: Status, word: u32) -> Status
    ensures { result ≡ status1 v word }
{
    Status {
        end: end::NONE,
        flags: choose(
            has(word, input::RESET),
            masked_out(v.flags, RESET_FLAGS),
            v.flags,
        ),
        ..v
    }
}

// The reading of the On switch alone.
pub fn read_on_switch(word: u32) -> Reading
    ensures { result ≡ read_on_switch word }
{
    if has(word, input::ON_SWITCH) {
        Reading::On
    } else {
        Reading::Off
    }
}

// The reading of an On and an Off switch: sure if they differ, otherwise both open or both closed. No `From`, here and below: two bools, or an
// Option of a number, would not say by themselves what they are.
pub fn read_pair(on: bool, off: bool) -> Reading
    ensures { result ≡ pair_read on off }
{
    match (on, off) {
        (true, false) => Reading::On,
        (false, true) => Reading::Off,
        (false, false) => Reading::BothOpen,
        (true, true) => Reading::BothClosed,
    }
}

pub fn read_switches(word: u32) -> Reading
    ensures { result ≡ read_switches word }
{
    read_pair(has(word, input::ON_SWITCH), has(word, input::OFF_SWITCH))
}

// What the switches read.
pub fn read(s: Settings, word: u32) -> Reading
    ensures { result ≡ reading s word }
{
    if has(s.ops1, ops1::BOTH_SWITCHES) {
        read_switches(word)
    } else {
        read_on_switch(word)
    }
}

// The position read, if it is sure, by the number that a record has for it: 1 Off, 2 On.
pub fn position_read(r: Reading) -> Option<u32>
    ensures { result ≡ then_some (is_sure r) (position_read r) }
{
    match r {
        Reading::Off => Some(position::OFF),
        Reading::On => Some(position::ON),
        Reading::BothOpen | Reading::BothClosed => None,
    }
}

pub fn is_sure(r: Reading) -> bool
    ensures { result ≡ is_sure r }
{
    position_read(r).is_some()
}

pub fn both_closed(r: Reading) -> bool
    ensures { result ≡ both_closed r }
{
    r == Reading::BothClosed
}

// The flags after a change of position that no command asked for.
pub fn change_flags(v: Status, r: Reading) -> u32
    ensures { result ≡ flags2 v r }
{
    let idle = v.command == command::NONE;
    let to_on = idle & (v.sure == position::OFF) & (r == Reading::On);
    let to_off = idle & (v.sure == position::ON) & (r == Reading::Off);
    let off = choose(to_off, with_bit(v.flags, flag::UNSANCTIONED_OFF), v.flags);
    choose(to_on, with_bit(v.flags, flag::UNSANCTIONED_ON), off)
}

// The position where the reading is unsure.
pub fn pretend(s: Settings, sure: u32) -> u32
    ensures { result ≡ pretended s sure }
{
    let fixed = choose(has(s.ops2, ops2::PRETENDS_ON), position::ON, position::OFF);
    let pretended = choose(!has(s.ops2, ops2::PRETENDS_FIXED), sure, fixed);
    choose(!has(s.ops2, ops2::PRETENDS), position::UNSURE, pretended)
}

// Rule 3.2.
pub fn switches(s: Settings, v: Status, r: Reading) -> Status
    ensures { result ≡ status2 s v r }
{
    let seen = position_read(r);
    Status {
        sure: seen.unwrap_or(v.sure),
        position: seen.unwrap_or(pretend(s, v.sure)),
        flags: change_flags(v, r),
        ..v
    }
}
