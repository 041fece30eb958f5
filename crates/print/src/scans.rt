// Runs of I and S lines, which touch the words, the motors, their totals and the count of scans.
ghost use Rattle.std.specs.Prelude.{◌≡◌};
ghost use Rattle.course.specs.Walk.{Scans};
ghost use Rattle.sheet.specs.declared.Request.TheVariants.{Scan as S};
ghost use Rattle.interpreter.specs.State.{refusal_for, view_of};
ghost use Rattle.print.specs.Print.{motor_row};
ghost use Rattle.print.specs.Course.{print_walk};

use crate::Sitting;
use course::Course;
use interpreter::{Bench, Inputs, next_number, next_scan};
use report::{Page, Row};
use rules::{Motor, Reading};
use status::switches::read;

// A motor's line after a scan. No `From`: it would take the numbers of the scan and the motor in a tuple, where they have no names.
#[tactic(auto, unfolding(crate::specs::Print::motor_row))]
fn row(scan: u32, number: u32, m: Motor) -> Row
    ensures { result ≡ motor_row scan number m }
{
    Row {
        scan,
        number,
        mode: m.status.mode,
        position: m.status.position,
        command: m.status.command,
        end: m.status.end,
        output: m.output.state,
        flags: m.status.flags,
    }
}

impl Sitting {
    // The I and S lines from here on, up to the first that is refused or of another kind, and as long as there is room. Each motor is
    // printed as it is scanned. What a scan writes is in locals meanwhile, and the loops stand in one function: on the bench's own arrays a
    // run of scans takes 12 in 100 more instructions, and with a function for one motor's scan, which is lent the motor and its totals, 2 in
    // 100.
    #[tactic(auto, unfolding(rules::specs::Refusals::most_motors))]
    pub(crate) fn scan_lines(&mut self, file: &[u8], page: &mut Page)
        requires { refusal_for (view_of self.old.bench) (S 1) ≡ 0 }
        ensures { Scans print_walk file.now self.old page.old self.new page.new }
    {
        let count = self.bench.count;
        let held = self.bench.held();
        let mut motors = self.bench.motors;
        let mut totals = self.bench.totals;
        let mut scans = self.bench.scans;
        let mut inputs = Inputs {
            words: self.bench.words,
            at: self.at,
            line: self.line,
        };
        while Sitting::MOST_PUT <= page.room() {
            inputs.take(file, count);
            let Some((period, next)) = next_scan(file, inputs.at) else {
                break;
            };
            scans = next_number(scans);
            // By index: after a walk over `iter_mut` with the totals beside it nothing would be known of the records. The body is dump's
            // `step` with the totals, of which a motor at rest has the time On alone to count.
            for i in 0..held {
                // `m` is handed on nowhere, and so never copied whole
                let word = inputs.words[i];
                let m = motors[i];
                let settings = m.settings;
                let v = m.status;
                let r = read(settings, word);
                if motor::is_resting(settings, v, m.output, word) {
                    // without a sure On reading its totals stay
                    if r == Reading::On {
                        totals[i].on = totals::on_after(totals[i].on, r, period);
                    }
                    motors[i].status = motor::rest(settings, v, word, r);
                } else {
                    // no scan is refused here, but with `unwrap` a run takes 2 in 100 more instructions
                    let stepped = motor::scan(motors[i], word, period).unwrap_or(motors[i]);
                    totals[i] = totals::after(totals[i], motors[i], stepped.status, r, period);
                    motors[i] = stepped;
                }
                page.row(row(scans, i as u32 + 1, motors[i]));
            }
            inputs.at = next;
            inputs.line = next_number(inputs.line);
        }
        self.bench = Bench {
            motors,
            words: inputs.words,
            count,
            scans,
            totals,
        };
        self.at = inputs.at;
        self.line = inputs.line;
    }
}
