// A scan of one motor by value, rules 3 and 4.3 to 4.5: the record, its word and the period side by side. Where a definition
// goes by settings, status or output alone, these are handed on side by side too, as in its definition.
#![tactic(auto)]

ghost use Rattle.std.specs.Prelude.{◌≡◌};
ghost use Rattle.std.specs.Result.{result_unwrap_or};
ghost use Rattle.rules.specs.Record.{fresh};
ghost use Rattle.refusals.specs.Numbers.{code_of};
ghost use Rattle.rules.specs.Sheets.{AreRight, given_sheets};
ghost use Rattle.rules.specs.OwnSheets.{own_sheets};
ghost use Rattle.rules.specs.Refusals.{settings_in_range, status_in_range, output_in_range, in_range, period_ok, word_ok, one_refusal, one_after};

use refusals::Refusal;
use rules::names::mode;
use rules::{Motor, Output, Settings, Status};

mod output;
mod resting;
mod steps;

pub use resting::{is_resting, rest};

// The limits of the settings, of the record, of a period and of an input word.
const OPS1_MAX: u32 = 65535;

const OPS2_MAX: u32 = 31;

const TIME_MAX: u32 = 600000;

const SUM_MAX: u32 = 599999;

const FLAGS_MAX: u32 = 32767;

const PERIOD_MAX: u32 = 10000;

const WORD_MAX: u32 = 131071;

#[tactic(auto, unfolding(rules::specs::Record::fresh, rules::specs::Record::fresh_status, rules::specs::Record::dropped))]
pub fn fresh(s: Settings) -> Motor
    ensures { result ≡ fresh s }
{
    let status = Status {
        mode: mode::WORK,
        ..Default::default()
    };
    Motor {
        settings: s,
        status,
        ..Default::default()
    }
}

#[tactic(auto, unfolding(rules::specs::Refusals::settings_in_range))]
pub fn are_settings_in_range(s: Settings) -> bool
    ensures { result ≡ settings_in_range s }
{
    (s.ops1 <= OPS1_MAX) & (s.ops2 <= OPS2_MAX) & (s.w <= TIME_MAX) & (s.u <= TIME_MAX)
}

#[tactic(auto, unfolding(rules::specs::Refusals::status_in_range))]
pub fn is_status_in_range(v: Status) -> bool
    ensures { result ≡ status_in_range v }
{
    let seen = (v.mode <= 2) & (v.sure <= 2) & (v.position <= 2);
    seen & (v.command <= 7) & (v.end <= 3) & (v.flags <= FLAGS_MAX) & (v.previous <= WORD_MAX)
}

#[tactic(auto, unfolding(rules::specs::Refusals::output_in_range))]
pub fn is_output_in_range(o: Output) -> bool
    ensures { result ≡ output_in_range o }
{
    (o.state <= 2) & (o.sum <= SUM_MAX)
}

#[tactic(auto, unfolding(rules::specs::Refusals::in_range))]
pub fn is_in_range(m: Motor) -> bool
    ensures { result ≡ in_range m }
{
    let s = m.settings;
    let v = m.status;
    let o = m.output;
    are_settings_in_range(s) & is_status_in_range(v) & (m.sum <= SUM_MAX) & is_output_in_range(o)
}

#[tactic(auto, unfolding(rules::specs::Refusals::period_ok))]
pub fn is_period_ok(period: u32) -> bool
    ensures { result ≡ period_ok period }
{
    (1 <= period) & (period <= PERIOD_MAX)
}

#[tactic(auto, unfolding(rules::specs::Refusals::word_ok))]
pub fn is_word_ok(word: u32) -> bool
    ensures { result ≡ word_ok word }
{
    word <= WORD_MAX
}

// Whether a scan is accepted, or what it is refused for.
#[tactic(auto, unfolding(words::specs::Opened::choices, rules::specs::Refusals::one_refusal))]
pub fn accept(m: Motor, word: u32, period: u32) -> Result<(), Refusal>
    ensures { code_of result ≡ one_refusal m word period }
{
    if !is_in_range(m) {
        Err(Refusal::Record)
    } else if !is_period_ok(period) {
        Err(Refusal::Period)
    } else if !is_word_ok(word) {
        Err(Refusal::Word)
    } else {
        Ok(())
    }
}

// One scan: the record after the ten steps, or a refusal. The sheets are computed from the same definitions.
#[tactic(auto, using(rules::proofs::Tables::one_accepted, rules::proofs::Tables::one_refused, rules::proofs::Range::one_in_limits, rules::proofs::Range::sums_fit, rules::proofs::Sheets::given_right, rules::proofs::Sheets::own_right))]
pub fn scan(m: Motor, word: u32, period: u32) -> Result<Motor, Refusal>
    ensures code { code_of result ≡ one_refusal m word period }
    ensures motor { result_unwrap_or result m ≡ one_after m word period }
    ensures given_sheets { AreRight given_sheets }
    ensures own_sheets { AreRight own_sheets }
{
    accept(m, word, period)?;
    Ok(steps::step(m, word, period))
}
