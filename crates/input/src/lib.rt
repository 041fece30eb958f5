// A file from any reader, or as much of it as shows that it is too long.
#![tactic(auto)]

ghost use Rattle.std.specs.Prelude.{◌≡◌, take, IfOk, IfSome};

use std::alloc::Global;
use std::io;
use std::io::Read;

// One byte more than a file may have, so that a longer one shows.
const ROOM: usize = 65537;

pub fn read_front<R: Read + Drop>(alloc: Global, from: R) -> io::Result<Vec<u8>>
    ensures { IfOk result (λ file. IfSome (R.remaining from) (λ all. file.items ≡ take 65537 all)) }
{
    let mut file = Vec::with_capacity(alloc, ROOM)?;
    from.take(ROOM as u64).read_to_end(&mut file)?;
    Ok(file)
}
