// The search for LF as a static library, for programs in Rust or C: the two functions of `line_ends`, exported. Where there is no LF, they
// answer the slice's length, since C has no Option.
#![tactic(auto)]

ghost use Rattle.std.specs.Prelude.{◌≡◌, length, unwrap_or};
ghost use Rattle.octets.specs.Split.{found_lf};

// The first LF at or after a place, as the bench finds it.
#[unsafe(no_mangle)]
pub extern "C" fn first_lf(file: &[u8], at: usize) -> usize
    ensures { result ≡ unwrap_or (found_lf file.now at) (length file.now) }
{
    line_ends::first_lf(file, at)
}

// The same, looked for byte by byte: what the other is measured against.
#[unsafe(no_mangle)]
pub extern "C" fn first_lf_by_bytes(file: &[u8], at: usize) -> usize
    ensures { result ≡ unwrap_or (found_lf file.now at) (length file.now) }
{
    line_ends::first_lf_by_bytes(file, at)
}
