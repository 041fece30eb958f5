// A walk through the lines of a file, which prints what they do, a lent buffer at a time. What a program makes of a line is its own,
// behind the trait `Course`, and so is the proof that lines up to the end make the print of the whole file (`Begin.whole`). That the
// walk by buffers writes what its lines print, and comes to the end, is proved here, once.
// The file and a page go side by side: the file lasts for the walk, and a page for one buffer.
#![tactic(auto)]

ghost use Rattle.std.specs.Prelude.{ℕ, ◌≡◌, IfSome, OnOk};
ghost use Rattle.std.specs.Io.KnownBytes.{Appends};
ghost use Rattle.course.specs.Walk.{Walk, Laws, place, Begin, Line, Scans, Fill};

#[cfg(test)]
mod tests;

use report::Page;
use std::alloc::Global;
use std::io;
use std::io::{Read, Write};

// As much as a pipe holds, so that prints cost few writes. It is no BufWriter: a line's print is put whole into a page, whose bytes lie
// in fixed memory.
const ROOM_OUT: usize = 65536;

// A place between two lines of a file, with what the lines up to there have led to.
pub trait Course: Copy {
    ghost walk: { Walk Self };

    // The most bytes that a line prints, or the end.
    ghost MOST_PUT: { ℕ };

    const MOST_PUT: usize;

    fn begin(file: &[u8], page: &mut Page) -> Self
        ensures { Begin walk file.now result page.old page.new };

    // A place past the file's end means that all is put.
    fn at(&self) -> usize
        ensures { result ≡ place walk self.now };

    // The I and S lines from here on, up to the first that is refused or of another kind, and as long as there is room.
    fn scans(&mut self, file: &[u8], page: &mut Page)
        ensures { Scans walk file.now self.old page.old self.new page.new };

    // The next line, or the file's end, where no accepted scan stands. `fill` alone calls it, after `scans`. That it reads the line's
    // request is all that the programs' lines have alike.
    fn line(&mut self, file: &[u8], page: &mut Page)
        ensures { Line walk file.now self.old page.old self.new page.new };

    ghost most_put: { MOST_PUT ≡ walk.most_put };

    ghost laws: { Laws walk };
}

// The next lines of a file, as many as there is room for.
#[tactic(auto, using(crate::proofs::Runs::nothing_yet, crate::proofs::Runs::run_on))]
pub fn fill<C: Course>(here: &mut C, file: &[u8], page: &mut Page)
    ensures { Fill C.walk file.now here.old page.old here.new page.new }
{
    while (here.at() <= file.len()) & (C::MOST_PUT <= page.room()) {
        here.scans(file, page);
        if C::MOST_PUT <= page.room() {
            here.line(file, page);
        }
    }
}

// The print of a file, a buffer at a time.
pub fn print<C: Course, W: Write>(file: &[u8], to: &mut W) -> io::Result<()>
    ensures { OnOk result (Appends (W.contents to.old) (W.contents to.new) (C.walk.text file.now)) }
{
    let mut bytes = [0u8; ROOM_OUT];
    let mut opening = Page::new(&mut bytes);
    let mut here = C::begin(file, &mut opening);
    to.write_all(opening.filled())?;
    while here.at() <= file.len() {
        let mut page = Page::new(&mut bytes);
        fill(&mut here, file, &mut page);
        to.write_all(page.filled())?;
    }
    Ok(())
}

// The print of what stands in a reader.
pub fn run<C: Course, R: Read + Drop, W: Write>(
    alloc: Global,
    from: R,
    to: &mut W,
) -> io::Result<()>
    ensures { OnOk result (IfSome (R.remaining from) (λ file. Appends (W.contents to.old) (W.contents to.new) (C.walk.text file))) }
{
    let file = input::read_front(alloc, from)?;
    print::<C, W>(&file, to)
}
