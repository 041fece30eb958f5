// What a dump has of the motors in use: their two outputs, On before Off, as signals by number.
ghost use Rattle.std.specs.Prelude.{◌≡◌, ◌≤◌, ◌<◌, ◌*◌, [], ◌∷◌, length, take};
ghost use Rattle.report.specs.Puts.{Puts};
ghost use Rattle.vcd.specs.Text.{code_of, wires_from, values_from, change_line, changes_from};
ghost use Rattle.dump.specs.Dump.{motor_signals, signals_of, opening};
ghost use Rattle.dump.specs.Signals.{timed_by, due_after};

use interpreter::Bench;
use report::Page;
use vcd::{Output, put_frame_end, put_frame_start, put_time, put_value, put_wire};

// The code of a signal.
#[tactic(auto, unfolding(vcd::specs::Text::code_of))]
fn code(signal: usize) -> u8
    requires { signal < 64 }
    ensures { code_of signal ≡ result ∷ [] }
{
    33 + signal as u8
}

// A bench is taken by value: only so is a proof told the lengths of its arrays. `few` is for `finish`, which has a reference.
#[tactic(auto, using(report::proofs::PutLaws::all_left, interpreter::proofs::ActLaws::used, crate::proofs::AdvanceLaws::few, crate::proofs::SignalLaws::wires_put, crate::proofs::SignalLaws::wires_end), unfolding(rules::specs::Refusals::most_motors))]
fn put_wires(page: &mut Page, bench: Bench)
    ensures put { Puts page.old (wires_from 0 1 (length (take bench.count bench.motors))) page.new }
    ensures few { length (take bench.count bench.motors) ≤ 32 }
{
    for i in 0..bench.held() {
        put_wire(page, Output::On, code(2 * i), i as u32 + 1);
        put_wire(page, Output::Off, code(2 * i + 1), i as u32 + 1);
    }
}

#[tactic(auto, using(report::proofs::PutLaws::all_left, interpreter::proofs::ActLaws::take_used, crate::proofs::SignalLaws::values_put, crate::proofs::SignalLaws::values_end), unfolding(rules::specs::Refusals::most_motors))]
fn put_values(page: &mut Page, bench: Bench)
    ensures { Puts page.old (values_from 0 (signals_of (take bench.count bench.motors))) page.new }
{
    for (i, m) in bench.motors[..bench.held()].iter().enumerate() {
        put_value(page, code(2 * i), m.output.state == 1);
        put_value(page, code(2 * i + 1), m.output.state == 2);
    }
}

// Header and #0.
pub(crate) fn put_opening(page: &mut Page, bench: &Bench)
    ensures put { Puts page.old (opening (take bench.now.count bench.now.motors)) page.new }
    ensures few { length (take bench.now.count bench.now.motors) ≤ 32 }
{
    put_frame_start(page);
    put_wires(page, *bench);
    put_frame_end(page);
    put_time(page, 0);
    put_values(page, *bench);
}

// A signal that changed, after the scan's time if that is still to be put. The answer is the time that is to be put after it.
#[tactic(auto, using(report::proofs::PutLaws::puts_none), unfolding(vcd::specs::Opened::opened, crate::specs::Signals::timed_by, crate::specs::Signals::due_after))]
fn put_change(page: &mut Page, due: Option<u32>, code: u8, before: bool, after: bool) -> Option<u32>
    ensures put { Puts page.old (timed_by due (change_line (code ∷ []) before after)) page.new }
    ensures due { result ≡ due_after due (change_line (code ∷ []) before after) }
{
    if before == after {
        return due;
    }
    if let Some(time) = due {
        put_time(page, time);
    }
    put_value(page, code, after);
    None
}

// The same of both signals of the motor at index i, by the states of its output.
pub(crate) fn put_changes(
    page: &mut Page,
    due: Option<u32>,
    i: usize,
    before: u32,
    after: u32,
) -> Option<u32>
    requires { i < 32 }
    ensures put { Puts page.old (timed_by due (changes_from (2 * i) (motor_signals before) (motor_signals after))) page.new }
    ensures due { result ≡ due_after due (changes_from (2 * i) (motor_signals before) (motor_signals after)) }
{
    // most motors change nothing, and this one test tells
    if before == after {
        return due;
    }
    let due = put_change(page, due, code(2 * i), before == 1, after == 1);
    put_change(page, due, code(2 * i + 1), before == 2, after == 2)
}
