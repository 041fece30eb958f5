// Scans over lent records, and one over an array by value: rules 4.3 to 4.5.
// Records, words and period go side by side, and so do an array, its count and its words: a caller that lends its motors keeps their words.
#![tactic(auto)]

ghost use Rattle.std.specs.Prelude.{◌≡◌};
ghost use Rattle.std.specs.List.{list_all};
ghost use Rattle.std.specs.Result.{result_unwrap_or};
ghost use Rattle.refusals.specs.Numbers.{code_of};
ghost use Rattle.rules.specs.Cases.{AreRight, cases};
ghost use Rattle.rules.specs.Refusals.{misfit, in_range, word_ok, one_refusal, one_after, table_refusal, step_all, table_after, part_refusal, part_after};

use refusals::Refusal;
use rules::Motor;

// The most records that a table may have.
pub const MOST_MOTORS: usize = 32;

// One motor through a scan: the record stepped, or as it was where the scan is refused.
pub fn scan_one(motor: &mut Motor, word: u32, period: u32) -> Result<(), Refusal>
    ensures { (code_of result ≡ one_refusal motor.old word period) × (motor.new ≡ one_after motor.old word period) }
{
    *motor = motor::scan(*motor, word, period)?;
    Ok(())
}

// Whether so many records and so many words make no table.
#[tactic(auto, unfolding(rules::specs::Refusals::misfit, rules::specs::Refusals::most_motors))]
fn is_misfit(motors: usize, words: usize) -> bool
    ensures { result ≡ misfit motors words }
{
    (motors != words) | (MOST_MOTORS < motors)
}

// This and the next are a line each: a function for both would take the test as a closure to its one line.
fn are_in_range(table: &[Motor]) -> bool
    ensures { result ≡ list_all in_range table.now }
{
    table.iter().all(|m| motor::is_in_range(*m))
}

fn are_words_ok(words: &[u32]) -> bool
    ensures { result ≡ list_all word_ok words.now }
{
    words.iter().all(|w| motor::is_word_ok(*w))
}

// Whether a scan of a table of motors, each with its word, is accepted, or what it is refused for.
#[tactic(auto, unfolding(words::specs::Opened::choices, rules::specs::Refusals::table_refusal))]
pub fn accept(table: &[Motor], words: &[u32], period: u32) -> Result<(), Refusal>
    ensures { code_of result ≡ table_refusal table.now words.now period }
{
    if is_misfit(table.len(), words.len()) {
        Err(Refusal::Size)
    } else if !are_in_range(table) {
        Err(Refusal::Record)
    } else if !motor::is_period_ok(period) {
        Err(Refusal::Period)
    } else if !are_words_ok(words) {
        Err(Refusal::Word)
    } else {
        Ok(())
    }
}

// Every record of an accepted table stepped by its word.
fn step_all(table: &mut [Motor], words: &[u32], period: u32)
    requires { table_refusal table.old words.now period ≡ 0 }
    ensures { table.new ≡ step_all table.old words.now period }
{
    // by index: after a loop over `iter_mut` with the words beside it, nothing is known of the records
    for i in 0..table.len() {
        table[i] = motor::scan(table[i], words[i], period).unwrap();
    }
}

// A table of motors through a scan, each with its word: every record stepped, or none written where the scan is refused.
#[tactic(auto, using(rules::proofs::Tables::table_accepted, rules::proofs::Tables::table_refused, rules::proofs::Sheets::cases_right))]
pub fn scan(table: &mut [Motor], words: &[u32], period: u32) -> Result<(), Refusal>
    ensures code { code_of result ≡ table_refusal table.old words.now period }
    ensures table { table.new ≡ table_after table.old words.now period }
    ensures cases { AreRight cases }
{
    accept(table, words, period)?;
    step_all(table, words, period);
    Ok(())
}

// Whether a scan of the first `count` records of an array is accepted, each with its word, or what it is refused for.
#[tactic(auto, unfolding(words::specs::Opened::choices, rules::specs::Refusals::most_motors, rules::specs::Refusals::part_refusal))]
pub fn accept_array(
    records: [Motor; MOST_MOTORS],
    count: usize,
    words: [u32; MOST_MOTORS],
    period: u32,
) -> Result<(), Refusal>
    ensures { code_of result ≡ part_refusal records count words period }
{
    if MOST_MOTORS < count {
        return Err(Refusal::Size);
    }
    accept(&records[..count], &words[..count], period)
}

// The first `count` records of an array through a scan of a table, for callers that lend nothing; a count of more than there are is refused.
#[tactic(auto, unfolding(words::specs::Opened::choices, rules::specs::Refusals::most_motors, rules::specs::Refusals::part_refusal, rules::specs::Refusals::part_after), using(rules::proofs::Tables::part_refused, rules::proofs::Tables::table_accepted))]
pub fn scan_array(
    mut records: [Motor; MOST_MOTORS],
    count: usize,
    words: [u32; MOST_MOTORS],
    period: u32,
) -> Result<[Motor; MOST_MOTORS], Refusal>
    ensures code { code_of result ≡ part_refusal records count words period }
    ensures records { result_unwrap_or result records ≡ part_after records count words period }
{
    accept_array(records, count, words, period)?;
    step_all(&mut records[..count], &words[..count], period);
    Ok(records)
}
