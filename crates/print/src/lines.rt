// A file taken line by line.
ghost use Rattle.std.specs.Prelude.{◌≡◌, refl};
ghost use Rattle.report.specs.Puts.{Puts};
ghost use Rattle.totals.specs.Totals.{under_way_in};
ghost use Rattle.interpreter.specs.State.{view_of};
ghost use Rattle.print.specs.Print.{totals_row};
ghost use Rattle.print.specs.Advance.{most_put, at_end};
ghost use Rattle.print.specs.Course.{print_walk, print_laws};

use crate::Sitting;
use course::Course;
use interpreter::{Bench, is_too_long, next_number};
use refusals::Refusal;
use report::{Page, TotalsRow};
use rules::Motor;
use sheet::next_request;
use totals::Totals;

// A motor's T line; no `From`, as for `row` of a scan.
#[tactic(auto, unfolding(words::specs::Opened::choices, crate::specs::Print::totals_row, totals::specs::Totals::under_way_in, rules::specs::Record::idle))]
fn totals_row(number: u32, m: Motor, t: Totals) -> TotalsRow
    ensures { result ≡ totals_row number (under_way_in m.status) t }
{
    TotalsRow {
        number,
        issued: t.issued,
        confirmed: t.confirmed,
        displaced: t.displaced,
        overdue: t.overdue,
        underway: u32::from(m.status.command != 0),
        on: t.on,
        best: t.best,
        worst: t.worst,
    }
}

// What is printed at the end of a file: the T lines of a bench.
#[tactic(auto, using(interpreter::proofs::ActLaws::take_used, report::proofs::PutLaws::all_left, crate::proofs::PrintLaws::totals_put, crate::proofs::PrintLaws::totals_end), unfolding(rules::specs::Refusals::most_motors, crate::specs::Advance::at_end))]
fn put_end(b: Bench, page: &mut Page)
    ensures { Puts page.old (at_end (view_of b)) page.new }
{
    let held = b.held();
    let both = b.motors[..held].iter().zip(&b.totals[..held]);
    for (i, (&m, &t)) in both.enumerate() {
        page.totals(totals_row(i as u32 + 1, m, t));
    }
}

impl Course for Sitting {
    ghost walk = { print_walk };

    ghost MOST_PUT = { most_put };

    const MOST_PUT: usize = 3232;

    // A file that is too long is refused, and has nothing more to print. Dump's `begin` differs in what it puts and in what it begins.
    fn begin(file: &[u8], page: &mut Page) -> Sitting {
        let at = if is_too_long(file.len()) {
            page.refusal(0, u32::from(Refusal::Size));
            file.len() + 1
        } else {
            0
        };
        Sitting {
            bench: Bench::empty(),
            at,
            line: 1,
        }
    }

    fn at(&self) -> usize {
        self.at
    }

    // A bench of which a scan would be refused for more than its period is left as it is. Dump's `scans` is the same text: it asks a
    // bench, and `course` lies below `interpreter`.
    fn scans(&mut self, file: &[u8], page: &mut Page) {
        if self.bench.accept_scan(1).is_ok() {
            self.scan_lines(file, page);
        }
    }

    // A refused line is the last.
    #[tactic(auto, using(crate::proofs::AdvanceLaws::stops, interpreter::proofs::ActLaws::not_zero))]
    fn line(&mut self, file: &[u8], page: &mut Page) {
        let Some((request, next)) = next_request(file, self.at) else {
            put_end(self.bench, page);
            self.at = file.len() + 1;
            return;
        };
        match self.bench.act(request) {
            Ok(()) => {
                self.at = next;
                self.line = next_number(self.line);
            }
            Err(refusal) => {
                page.refusal(self.line, u32::from(refusal));
                self.at = file.len() + 1;
            }
        }
    }

    ghost most_put = { refl };

    ghost laws = { print_laws };
}
