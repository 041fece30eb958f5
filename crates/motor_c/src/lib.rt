// Scans over lent records as a static library, for programs in Rust or C: `scan_one` and `scan` of `table`, with numbers in place of their
// results.
#![tactic(auto)]

ghost use Rattle.std.specs.Prelude.{◌≡◌};
ghost use Rattle.refusals.specs.Numbers.{code_of};
ghost use Rattle.rules.specs.Refusals.{one_refusal, one_after, table_refusal, table_after};

use refusals::Refusal;
use rules::Motor;

fn code_of(scanned: Result<(), Refusal>) -> u32
    ensures { result ≡ code_of scanned }
{
    scanned.map_or_else(u32::from, |()| 0)
}

/// A scan of one motor: rule 3. Record, word and period may be any numbers. 0 comes back where they are in the limits of rule 4.1, and the
/// record is left as the ten steps make it. Otherwise 6, 2 or 3 comes back, the first that counts by rule 4.3, and the record is left as it
/// was.
///
/// In C: `uint32_t motor_scan(struct motor *motor, uint32_t word, uint32_t period)`, where the pointer points to a record that holds
/// something. A `struct motor` is fourteen `uint32_t`: OPS_1, OPS_2, W, U, mode, last sure position, position, command, end, flags,
/// previous word, time sum, output, pulse sum.
#[unsafe(no_mangle)]
pub extern "C" fn motor_scan(motor: &mut Motor, word: u32, period: u32) -> u32
    ensures number { result ≡ one_refusal motor.old word period }
    ensures motor { motor.new ≡ one_after motor.old word period }
{
    code_of(table::scan_one(motor, word, period))
}

/// A scan of a table, each motor by its word: rule 4.5. Any counts and any numbers may be handed over. 0 comes back where they are in the
/// limits of rule 4.1, and each record is left as the ten steps make it. Otherwise 1, 6, 2 or 3 comes back, the first that counts by rule
/// 4.3, and all records are left as they were.
///
/// In C: `uint32_t table_scan(struct motor *motors, size_t motor_count, const uint32_t *words, size_t word_count, uint32_t period)`, where
/// the pointers are not null, point to so many records and so many words that hold something, and no word lies in a record.
#[unsafe(no_mangle)]
pub extern "C" fn table_scan(motors: &mut [Motor], words: &[u32], period: u32) -> u32
    ensures number { result ≡ table_refusal motors.old words.now period }
    ensures motors { motors.new ≡ table_after motors.old words.now period }
{
    code_of(table::scan(motors, words, period))
}
