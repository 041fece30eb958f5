// The waveform program: reads a file from standard input, and prints its value change dump.
#![tactic(auto)]

ghost use Rattle.std.specs.Prelude.{IfSome, OnOk};
ghost use Rattle.std.specs.Io.KnownBytes.{Appends};
ghost use Rattle.dump.specs.Dump.{dump_of};

use dump::Recording;
use std::alloc::Global;
use std::io;
use std::io::{Read, Write};

// The dump of what stands in a reader. It is one call, and stands here because its clause names this program's own dump.
fn run<R: Read + Drop, W: Write>(alloc: Global, from: R, to: &mut W) -> io::Result<()>
    ensures { OnOk result (IfSome (R.remaining from) (λ file. Appends (W.contents to.old) (W.contents to.new) (dump_of file))) }
{
    course::run::<Recording, R, W>(alloc, from, to)
}

fn main(rt: HostRuntime) -> io::Result<()> {
    run(rt.alloc(), rt.stdin(), &mut rt.stdout())
}
