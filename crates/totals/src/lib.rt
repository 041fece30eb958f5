// Running totals of a motor, for rule 8.3: what is counted and added up scan by scan, so that a file's end can print it. The totals
// themselves are definitions over the motor's history, in specs/Totals.antt.
#![tactic(auto)]

ghost use Rattle.std.specs.Prelude.{◌+◌, ◌≡◌};
ghost use Rattle.rules.specs.declared.Settings.{Settings};
ghost use Rattle.book.specs.Log.{Log};
ghost use Rattle.book.specs.History.{Entry, history};
ghost use Rattle.totals.specs.Claim.{TotalsClaim};
ghost use Rattle.totals.specs.Running.{capped, no_totals, counted_if, has_issued, on_after, best_after, totals_after};

use rules::{Motor, Reading, Status};

// What the T line of a motor has, as it has it, but for the motor's number and whether a command is under way, which its record says.
#[derive(Clone, Copy, Debug, Default, PartialEq, Eq)]
pub struct Totals {
    pub issued: u32,
    pub confirmed: u32,
    pub displaced: u32,
    pub overdue: u32,
    pub on: u32,
    pub best: u32,
    pub worst: u32,
}

// The totals of a motor that has not been scanned. Whatever scans it goes through from there, the claim holds of its history.
pub fn none() -> Totals
    ensures { (result ≡ no_totals) × ((s : Settings) (es : Log Entry) → TotalsClaim s (history s es)) }
{
    Totals::default()
}

// A sum, or the largest number of 32 bits where that is less: the library's sum, with the definition's name.
#[tactic(auto, unfolding(crate::specs::Running::capped))]
pub fn plus(a: u32, b: u32) -> u32
    ensures { result ≡ capped (a + b) }
{
    a.saturating_add(b)
}

// One more, if it counts.
#[tactic(auto, unfolding(words::specs::Opened::choices, crate::specs::Running::counted_if))]
fn count_if(n: u32, counts: bool) -> u32
    ensures { result ≡ counted_if n counts }
{
    if counts { plus(n, 1) } else { n }
}

// Whether a scan with the status v after it issued a command; `before` was under way before it.
#[tactic(auto, unfolding(crate::specs::Running::has_issued, rules::specs::Record::idle))]
fn has_issued(before: u32, v: Status) -> bool
    ensures { result ≡ has_issued before v }
{
    (v.command != 0) & ((before == 0) | (v.end != 0))
}

// The time with a sure On reading, after a scan that reads r.
#[tactic(auto, unfolding(rules::specs::Opened::opened, crate::specs::Running::on_after))]
pub fn on_after(time: u32, r: Reading, period: u32) -> u32
    ensures { result ≡ on_after time r period }
{
    if r == Reading::On {
        plus(time, period)
    } else {
        time
    }
}

// The best time after one more confirmation. As the T line prints it, it is 0 before the first.
#[tactic(auto, unfolding(words::specs::Opened::choices, crate::specs::Running::best_after))]
fn best_after(confirmed: u32, best: u32, time: u32) -> u32
    ensures { result ≡ best_after confirmed best time }
{
    if confirmed == 0 { time } else { best.min(time) }
}

// The totals after a scan that reads r: m is the record before it, v the status after it.
#[tactic(auto, unfolding(words::specs::Opened::choices, crate::specs::Running::totals_after, crate::specs::Running::counted_if))]
pub fn after(t: Totals, m: Motor, v: Status, r: Reading, period: u32) -> Totals
    ensures { result ≡ totals_after t m v r period }
{
    let on = on_after(t.on, r, period);
    let issued = has_issued(m.status.command, v);
    // most scans neither issue nor end a command
    if (v.end == 0) & !issued {
        return Totals { on, ..t };
    }
    let counted = Totals {
        issued: count_if(t.issued, issued),
        displaced: count_if(t.displaced, v.end == 2),
        overdue: count_if(t.overdue, v.end == 3),
        on,
        ..t
    };
    if v.end != 1 {
        return counted;
    }
    let time = plus(m.sum, period);
    Totals {
        confirmed: plus(t.confirmed, 1),
        best: best_after(t.confirmed, t.best, time),
        worst: t.worst.max(time),
        ..counted
    }
}
