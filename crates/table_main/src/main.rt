// Runs tables of motors through the open functions: by value a full one, part of one, none, one too many, and each refusal; lent ones that are
// refused, which stay as they were, and one that is accepted. That each check holds is proved, by computing it: `expect` asks for it.
#![tactic(auto)]

ghost use Rattle.std.specs.Prelude.{◌≡◌, true, replicate, eqb};
ghost use Rattle.std.specs.Result.{result_unwrap_or};
ghost use Rattle.rules.specs.Record.{fresh};
ghost use Rattle.refusals.specs.Numbers.{code_of, number_of};
ghost use Rattle.rules.specs.Refusals.{part_refusal, part_after};

use refusals::Refusal;
use rules::{Motor, Settings};
use table::MOST_MOTORS;

// A fresh motor with the settings of the sheets in docs/RULES.md but for OPS_1.
fn fresh(ops1: u32) -> Motor
    ensures { result ≡ fresh (record { ops1 = ops1; ops2 = 0; w = 500; u = 300 }) }
{
    motor::fresh(Settings {
        ops1,
        ops2: 0,
        w: 500,
        u: 300,
    })
}

// The first `count` of 32 such motors through one scan.
fn scan_fresh(
    ops1: u32,
    count: usize,
    word: u32,
    period: u32,
) -> Result<[Motor; MOST_MOTORS], Refusal>
    ensures code { code_of result ≡ part_refusal (replicate 32 (fresh (record { ops1 = ops1; ops2 = 0; w = 500; u = 300 }))) count (replicate 32 word) period }
    ensures records { result_unwrap_or result (replicate 32 (fresh (record { ops1 = ops1; ops2 = 0; w = 500; u = 300 }))) ≡ part_after (replicate 32 (fresh (record { ops1 = ops1; ops2 = 0; w = 500; u = 300 }))) count (replicate 32 word) period }
{
    table::scan_array(
        [fresh(ops1); MOST_MOTORS],
        count,
        [word; MOST_MOTORS],
        period,
    )
}

// A full table: the first motor and the last are scanned. A function for each table, since each looks at other motors, and by `match`: tried
// with `is_ok_and`, of whose closure the check computes nothing.
#[tactic(auto, using(refusals::proofs::Numbers::number_positive), unfolding(rules::specs::Opened::opened))]
fn full() -> bool
    ensures { result ≡ true }
{
    match scan_fresh(193, 32, 4128, 100) {
        Ok(u) => (u[0].status.command == 7) & (u[31].status.command == 7),
        Err(_) => false,
    }
}

// Part of one: the motor past it stays.
#[tactic(auto, using(refusals::proofs::Numbers::number_positive), unfolding(rules::specs::Opened::opened))]
fn part() -> bool
    ensures { result ≡ true }
{
    match scan_fresh(193, 2, 4128, 100) {
        Ok(u) => (u[1].status.command == 7) & (u[2].status.command == 0),
        Err(_) => false,
    }
}

// No motor at all.
#[tactic(auto, using(refusals::proofs::Numbers::number_positive), unfolding(rules::specs::Opened::opened))]
fn empty() -> bool
    ensures { result ≡ true }
{
    match scan_fresh(193, 0, 4128, 100) {
        Ok(u) => u[0].status.previous == 0,
        Err(_) => false,
    }
}

// Whether a scan is refused, and by what: no records come with a refusal.
fn is_refused(ops1: u32, count: usize, word: u32, period: u32, by: Refusal) -> bool
    ensures { result ≡ eqb (part_refusal (replicate 32 (fresh (record { ops1 = ops1; ops2 = 0; w = 500; u = 300 }))) count (replicate 32 word) period) (number_of by) }
{
    scan_fresh(ops1, count, word, period).err() == Some(by)
}

// Refused scans, by the order of refusals.
#[tactic(auto, unfolding(rules::specs::Opened::opened))]
fn main() {
    check::expect(full());
    check::expect(part());
    check::expect(empty());
    check::expect(is_refused(65536, 33, 131072, 0, Refusal::Size));
    check::expect(is_refused(65536, 2, 131072, 0, Refusal::Record));
    check::expect(is_refused(193, 2, 131072, 0, Refusal::Period));
    check::expect(is_refused(193, 2, 131072, 100, Refusal::Word));
    // lent tables: the first motor of one that is refused stays as it was
    let mut table = [fresh(65536); 33];
    check::expect(table::scan(&mut table, &[131072; 33], 0) == Err(Refusal::Size));
    check::expect(table[0].status.previous == 0);
    let mut table = [fresh(65536); 2];
    check::expect(table::scan(&mut table, &[131072; 2], 0) == Err(Refusal::Record));
    check::expect(table[0].status.previous == 0);
    let mut table = [fresh(193); 2];
    check::expect(table::scan(&mut table, &[131072; 2], 0) == Err(Refusal::Period));
    check::expect(table[0].status.previous == 0);
    check::expect(table::scan(&mut table, &[131072; 2], 100) == Err(Refusal::Word));
    check::expect(table[0].status.previous == 0);
    // and the last of one that is accepted is scanned
    check::expect(table::scan(&mut table, &[4128; 2], 100) == Ok(()));
    check::expect(table[1].status.command == 7);
}
