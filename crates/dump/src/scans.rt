// Runs of I and S lines, which touch the words, the motors, the count of scans and the time.
ghost use Rattle.std.specs.Prelude.{◌≡◌, length};
ghost use Rattle.rules.specs.Refusals.{one_refusal, table_refusal, table_after};
ghost use Rattle.rules.specs.Steps.{step};
ghost use Rattle.sheet.specs.declared.Request.TheVariants.{Scan as S};
ghost use Rattle.report.specs.Puts.{Puts};
ghost use Rattle.interpreter.specs.State.{refusal_for, view_of, held_of};
ghost use Rattle.course.specs.Walk.{Scans};
ghost use Rattle.vcd.specs.Text.{timed, changes_from};
ghost use Rattle.dump.specs.Dump.{signals_of};
ghost use Rattle.dump.specs.Advance.{dump_walk};

use crate::Recording;
use crate::signals::{put_changes, put_opening};
use course::Course;
use interpreter::{Bench, Inputs, next_number, next_scan};
use report::Page;
use rules::Motor;
use status::switches::read;

// A motor through a scan that is accepted. At rest its status alone is reckoned, and written. It is the body of print's loop, which counts
// the totals too: a dump has none.
#[tactic(auto, using(rules::proofs::Resting::resting, rules::proofs::Tables::one_accepted), unfolding(rules::specs::Record::with_status))]
fn step(m: &mut Motor, word: u32, period: u32)
    requires { one_refusal m.old word period ≡ 0 }
    ensures { m.new ≡ step m.old word period }
{
    let settings = m.settings;
    let v = m.status;
    if motor::is_resting(settings, v, m.output, word) {
        m.status = motor::rest(settings, v, word, read(settings, word));
    } else {
        *m = motor::scan(*m, word, period).unwrap();
    }
}

// A scan of the motors in use, which is accepted: each is scanned where it stands, since handing on the records copies them, and what the scan
// changed of it is put. It is not `table::scan`, for speed: that tests their range again, and takes a motor at rest through all steps.
fn scan_all(motors: &mut [Motor], words: &[u32], period: u32, time: u32, page: &mut Page)
    requires { table_refusal motors.old words.now period ≡ 0 }
    ensures scanned { motors.new ≡ table_after motors.old words.now period }
    ensures put { Puts page.old (timed time (changes_from 0 (signals_of motors.old) (signals_of motors.new))) page.new }
{
    let mut due = Some(time);
    // of records that are lent behind an adapter, as zip, nothing would be known afterwards
    for i in 0..motors.len() {
        let m = &mut motors[i];
        let before = m.output.state;
        step(m, words[i], period);
        due = put_changes(page, due, i, before, m.output.state);
    }
}

// How many motors are in use, by the bench as a value (see `put_wires`).
#[tactic(auto, unfolding(rules::specs::Refusals::most_motors))]
fn in_use(bench: Bench) -> usize
    ensures held { result ≡ held_of bench }
    ensures motors { length bench.motors ≡ 32 }
    ensures words { length bench.words ≡ 32 }
{
    bench.held()
}

impl Recording {
    // The I and S lines from here on, up to the first line that is refused or of another kind, and as long as there is room. It is a function
    // of its own beside the print's, which prints each motor as it is scanned, and counts its totals: here what changed is put.
    #[tactic(auto, unfolding(rules::specs::Refusals::most_motors))]
    pub(crate) fn scan_lines(&mut self, file: &[u8], page: &mut Page)
        requires { refusal_for (view_of self.old.bench) (S 1) ≡ 0 }
        ensures { Scans dump_walk file.now self.old page.old self.new page.new }
    {
        let held = in_use(self.bench);
        // the lines' numbers are of no use to a dump
        let mut inputs = Inputs {
            words: self.bench.words,
            at: self.at,
            line: 0,
        };
        while Recording::MOST_PUT <= page.room() {
            inputs.take(file, self.bench.count);
            let Some((period, next)) = next_scan(file, inputs.at) else {
                break;
            };
            let time = totals::plus(self.time, period);
            let is_first = self.bench.scans == 0;
            if is_first {
                put_opening(page, &self.bench);
            }
            scan_all(
                &mut self.bench.motors[..held],
                &inputs.words[..held],
                period,
                time,
                page,
            );
            self.time = time;
            self.bench.scans = next_number(self.bench.scans);
            inputs.at = next;
        }
        self.bench.words = inputs.words;
        self.at = inputs.at;
    }
}
