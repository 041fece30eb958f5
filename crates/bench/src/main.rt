// The bench program: reads a file from standard input, and prints what the block reports of it.
#![tactic(auto)]

ghost use Rattle.std.specs.Prelude.{IfSome, OnOk};
ghost use Rattle.std.specs.Io.KnownBytes.{Appends};
ghost use Rattle.print.specs.Print.{print_of};
ghost use Rattle.print.specs.Sheets.{AreRight, given_prints, own_prints};

use print::Sitting;
use std::alloc::Global;
use std::io;
use std::io::{Read, Write};

// The print of what stands in a reader. It is one call, and stands here because its clauses name this program's own print.
#[tactic(auto, using(print::proofs::Sheets::given_right, print::proofs::Sheets::own_right))]
fn run<R: Read + Drop, W: Write>(alloc: Global, from: R, to: &mut W) -> io::Result<()>
    ensures print { OnOk result (IfSome (R.remaining from) (λ file. Appends (W.contents to.old) (W.contents to.new) (print_of file))) }
    ensures given_prints { AreRight given_prints }
    ensures own_prints { AreRight own_prints }
{
    course::run::<Sitting, R, W>(alloc, from, to)
}

fn main(rt: HostRuntime) -> io::Result<()> {
    run(rt.alloc(), rt.stdin(), &mut rt.stdout())
}
