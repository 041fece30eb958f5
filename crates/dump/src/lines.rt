// A file taken line by line.
ghost use Rattle.std.specs.Prelude.{◌≡◌, ◌≤◌, length, refl};
ghost use Rattle.report.specs.Puts.{Puts};
ghost use Rattle.dump.specs.Advance.{most_put, first_text, moment_of, past_end, dump_walk};
ghost use Rattle.dump.specs.Laws.{dump_laws};

use crate::Recording;
use crate::signals::put_opening;
use course::Course;
use interpreter::{Bench, is_too_long};
use report::Page;
use sheet::next_request;

impl Course for Recording {
    ghost walk = { dump_walk };

    ghost MOST_PUT = { most_put };

    const MOST_PUT: usize = 2633;

    // An empty bench before the first line of a file. Of a file that is too long there is no dump. With the beginning comes the
    // claim on reading back (`Begins`), so that it cannot be lost. Print's `begin` puts a refusal, and counts lines.
    fn begin(file: &[u8], _page: &mut Page) -> Recording {
        let at = if is_too_long(file.len()) {
            file.len() + 1
        } else {
            0
        };
        Recording {
            bench: Bench::empty(),
            at,
            time: 0,
        }
    }

    fn at(&self) -> usize {
        self.at
    }

    // A recording of which a scan would be refused for more than its period is left as it is, as print's `scans` leaves a sitting.
    fn scans(&mut self, file: &[u8], page: &mut Page) {
        if self.bench.accept_scan(1).is_ok() {
            self.scan_lines(file, page);
        }
    }

    // A line that is accepted adds nothing. At a refused line the dump ends, as at the file's end.
    fn line(&mut self, file: &[u8], page: &mut Page) {
        match next_request(file, self.at) {
            Some((request, next)) => match self.bench.act(request) {
                Ok(()) => self.at = next,
                Err(_) => self.finish(file, page),
            },
            None => self.finish(file, page),
        }
    }

    ghost most_put = { refl };

    ghost laws = { dump_laws };
}

impl Recording {
    // The end of the dump: where no scan ran, header and #0 are put. `short` is for the proof of `line`, which is told no length of an array
    // behind a reference.
    #[tactic(auto, using(crate::proofs::SignalLaws::first_none_ran, crate::proofs::SignalLaws::first_some_ran, crate::proofs::SignalLaws::first_length, report::proofs::PutLaws::puts_none))]
    fn finish(&mut self, file: &[u8], page: &mut Page)
        ensures put { Puts page.old (first_text self.old.bench.scans (moment_of self.old).motors) page.new }
        ensures past { moment_of self.new ≡ past_end file.now (moment_of self.old) }
        ensures short { length (first_text self.old.bench.scans (moment_of self.old).motors) ≤ most_put }
    {
        if self.bench.scans == 0 {
            put_opening(page, &self.bench);
        }
        self.at = file.len() + 1;
    }
}
