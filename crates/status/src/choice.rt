// Acknowledging, and the choice among the commands: rules 3.7 and 3.8. What On and Off have alike is said twice, as there: each has
// bits, options and flags of its own, which one function for both would be handed one by one.
#![tactic(auto, unfolding(rules::specs::Opened::opened))]

ghost use Rattle.std.specs.Prelude.{◌≡◌};
ghost use Rattle.rules.specs.Record.{command_of};
ghost use Rattle.rules.specs.Steps.{acknowledges_off, acknowledges_on, flags7, status7, acknowledges, wrong_place, on_forbidden, off_forbidden, admitted, candidate, chosen, displaces, starts, issues};

use crate::command::{direction_of, is_local, is_off, is_on, is_operator, is_risen};
use crate::issue::OFF_FLAGS;
use rules::names::{command, flag, input, mode, ops1, ops2};
use rules::{Settings, Status};
use words::{choose, has, masked_out, without_bit};

pub fn is_off_acknowledged(s: Settings, v: Status, word: u32) -> bool
    ensures { result ≡ acknowledges_off s v word }
{
    let shown = has(v.flags, flag::OFF_BY_LZ) | has(v.flags, flag::OFF_BY_SMA);
    let risen = !has(word, input::LOCAL_MODE) & is_risen(v, word, command::KO_OFF);
    risen & has(s.ops1, ops1::KO_OFF_ACKNOWLEDGES) & shown
}

pub fn is_on_acknowledged(s: Settings, v: Status, word: u32) -> bool
    ensures { result ≡ acknowledges_on s v word }
{
    let risen = !has(word, input::LOCAL_MODE) & is_risen(v, word, command::KO_ON);
    risen & has(s.ops2, ops2::KO_ON_ACKNOWLEDGES) & has(v.flags, flag::ON_BY_LZ)
}

#[tactic(auto, using(crate::proofs::Masks::off_flags), unfolding(rules::specs::Steps::flags7))]
pub fn acknowledged_flags(s: Settings, v: Status, word: u32) -> u32
    ensures { result ≡ flags7 s v word }
{
    let f = choose(
        is_off_acknowledged(s, v, word),
        masked_out(v.flags, OFF_FLAGS),
        v.flags,
    );
    choose(
        is_on_acknowledged(s, v, word),
        without_bit(f, flag::ON_BY_LZ),
        f,
    )
}

// Rule 3.7.
pub fn acknowledge(s: Settings, v: Status, word: u32) -> Status
    ensures { result ≡ status7 s v word }
{
    Status {
        flags: acknowledged_flags(s, v, word),
        ..v
    }
}

// Whether the rise of c acknowledges, and is no command.
pub fn is_acknowledging(s: Settings, v: Status, word: u32, c: u32) -> bool
    ensures { result ≡ acknowledges s v word c }
{
    (c == command::KO_OFF) & is_off_acknowledged(s, v, word)
        | (c == command::KO_ON) & is_on_acknowledged(s, v, word)
}

// Whether local mode, or the lack of it, bars c.
pub fn is_wrong_place(word: u32, c: u32) -> bool
    ensures { result ≡ wrong_place word c }
{
    let local = has(word, input::LOCAL_MODE);
    is_operator(c) & local | is_local(c) & !local
}

pub fn is_on_forbidden(s: Settings, word: u32, c: u32) -> bool
    ensures { result ≡ on_forbidden s word c }
{
    let all = has(s.ops1, ops1::FORBID_ON_BARS_ALL);
    has(word, input::FORBID_ON) & ((c == command::KO_ON) | is_on(c) & all)
}

pub fn is_off_forbidden(s: Settings, word: u32, c: u32) -> bool
    ensures { result ≡ off_forbidden s word c }
{
    let all = (c != command::SMA_OFF) & has(s.ops1, ops1::FORBID_OFF_BARS_ALL);
    has(word, input::FORBID_OFF) & ((c == command::KO_OFF) | is_off(c) & all)
}

pub fn is_admitted(s: Settings, v: Status, word: u32, c: u32) -> bool
    ensures { result ≡ admitted s v word c }
{
    let barred = is_wrong_place(word, c)
        | is_on_forbidden(s, word, c)
        | is_off_forbidden(s, word, c);
    (v.mode != mode::REPAIR) & !(barred | has(v.flags, flag::NO_SUPPLY) & is_on(c))
}

pub fn is_candidate(s: Settings, v: Status, word: u32, c: u32) -> bool
    ensures { result ≡ candidate s v word c }
{
    is_risen(v, word, c) && !is_acknowledging(s, v, word, c) && is_admitted(s, v, word, c)
}

// The strongest candidate.
pub fn choice(s: Settings, v: Status, word: u32) -> Option<u32>
    ensures { result ≡ command_of (chosen s v word) }
{
    (1..8).find(|&c| is_candidate(s, v, word, c))
}

// Whether the chosen command is issued at a position, with none under way. This and the next test are of any number, 0 for no command too, as
// the rules' are.
pub fn is_starting(new: u32, position: u32) -> bool
    ensures { result ≡ starts new position }
{
    (new != command::NONE) & (position != direction_of(new))
}

// Whether the chosen command displaces the old one, which is under way.
pub fn is_displacing(new: u32, old: u32) -> bool
    ensures { result ≡ displaces new old }
{
    let other_way = direction_of(new) != direction_of(old);
    (new != command::NONE) & (new < old) & (other_way | (new == command::SMA_OFF))
}

// Whether the chosen command is issued: rule 3.8.
pub fn is_issued(v: Status, new: u32) -> bool
    ensures { result ≡ issues v new }
{
    if v.command == command::NONE {
        is_starting(new, v.position)
    } else {
        is_displacing(new, v.command)
    }
}
