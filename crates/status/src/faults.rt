// Flags 0 (no supply), 1 (switch fault) and 14 (switch fault, both closed): rule 3.5.
#![tactic(auto, unfolding(rules::specs::Opened::opened))]

ghost use Rattle.std.specs.Prelude.{◌≡◌};
ghost use Rattle.rules.specs.Steps.{faults_formed, supply_fault, switch_fault, put_flag, status5};

use crate::switches::{both_closed, is_sure};
use rules::names::{command, flag, input, ops1, ops2};
use rules::{Reading, Settings, Status};
use words::{choose, has, with_bit, without_bit};

pub fn are_formed(s: Settings, word: u32) -> bool
    ensures { result ≡ faults_formed s word }
{
    has(s.ops2, ops2::FAULTS_IN_LOCAL_MODE)
        | !has(word, input::LOCAL_MODE)
        | has(s.ops1, ops1::LOCAL_THROUGH_BLOCK)
}

pub fn lacks_supply(s: Settings, word: u32) -> bool
    ensures { result ≡ supply_fault s word }
{
    are_formed(s, word) & has(word, input::NO_SUPPLY) & has(s.ops1, ops1::SUPPLY_HEEDED)
}

pub fn has_switch_fault(s: Settings, v: Status, word: u32, r: Reading) -> bool
    ensures { result ≡ switch_fault s v word r }
{
    are_formed(s, word) & !is_sure(r) & (v.command == command::NONE)
}

pub fn put_flag(flags: u32, k: u32, value: bool) -> u32
    ensures { result ≡ put_flag k value flags }
{
    choose(value, with_bit(flags, k), without_bit(flags, k))
}

pub fn form_flags(s: Settings, v: Status, word: u32, r: Reading) -> Status
    ensures { result ≡ status5 s v word r }
{
    let fault = has_switch_fault(s, v, word, r);
    let supply = put_flag(v.flags, flag::NO_SUPPLY, lacks_supply(s, word));
    let f = put_flag(supply, flag::SWITCH_FAULT, fault);
    Status {
        flags: put_flag(f, flag::BOTH_CLOSED, fault & both_closed(r)),
        ..v
    }
}
