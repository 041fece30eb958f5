// What a request does to a bench: rules 7.5 to 7.8.
ghost use Rattle.std.specs.Prelude.{◌≡◌, ◌≤◌, ◌-◌, length, IfOk};
ghost use Rattle.refusals.specs.Numbers.{code_of};
ghost use Rattle.rules.specs.Refusals.{most_motors, step_all};
ghost use Rattle.totals.specs.Running.{all_totals};
ghost use Rattle.interpreter.specs.State.{Acts, empty_state, next_number, motor_refusal, input_refusal, is_there, refusal_for, view_of, held_of, too_long};
ghost use Rattle.sheet.specs.declared.Request.TheVariants.{Motor as M, Input as I, Scan as S};

use crate::Bench;
use refusals::Refusal;
use rules::{Motor, Settings};
use sheet::Request;
use status::switches::read;
use table::MOST_MOTORS;
use totals::Totals;

// The most bytes of a file.
const LARGEST_FILE: usize = 65536;

// Whether a file of this length is refused unread.
#[tactic(auto, unfolding(crate::specs::State::too_long))]
pub fn is_too_long(length: usize) -> bool
    ensures { result ≡ too_long length }
{
    LARGEST_FILE < length
}

// The number after n, of a scan or a line; `totals::plus(n, 1)` is no shorter than the library's sum.
#[tactic(auto, unfolding(crate::specs::State::next_number))]
pub fn next_number(n: u32) -> u32
    ensures { result ≡ next_number n }
{
    n.saturating_add(1)
}

#[tactic(auto, unfolding(words::specs::Opened::choices, crate::specs::State::motor_refusal, rules::specs::Refusals::most_motors))]
fn accept_motor(held: usize, scans: u32, number: u32, settings: Settings) -> Result<(), Refusal>
    requires { held ≤ most_motors }
    ensures { code_of result ≡ motor_refusal held scans number settings }
{
    if !motor::are_settings_in_range(settings) {
        return Err(Refusal::Setting);
    }
    if 0 < scans {
        return Err(Refusal::Scanned);
    }
    if MOST_MOTORS <= held {
        return Err(Refusal::Full);
    }
    if number as usize != held + 1 {
        return Err(Refusal::Number);
    }
    Ok(())
}

#[tactic(auto, unfolding(crate::specs::State::is_there))]
fn is_there(held: usize, number: u32) -> bool
    ensures { result ≡ is_there held number }
{
    1 <= number && number as usize <= held
}

// The place, among the words held, of the motor that an I line names.
#[tactic(auto, unfolding(words::specs::Opened::choices, crate::specs::State::input_refusal, crate::specs::State::is_there))]
pub(crate) fn accept_input(held: usize, number: u32, word: u32) -> Result<usize, Refusal>
    ensures code { code_of result ≡ input_refusal held number word }
    ensures place { IfOk result (λ i. i ≡ number - 1) }
{
    if !is_there(held, number) {
        return Err(Refusal::Absent);
    }
    if !motor::is_word_ok(word) {
        return Err(Refusal::Word);
    }
    Ok(number as usize - 1)
}

// The totals of some motors after a scan of them, by their records before it and after it.
#[tactic(auto, using(rules::proofs::Tables::step_all_at, totals::proofs::Lists::none_taken, totals::proofs::Lists::one_counted), unfolding(totals::specs::Running::scan_totals))]
fn count_scan(totals: &mut [Totals], before: &[Motor], after: &[Motor], words: &[u32], period: u32)
    requires sizes { (length before.now ≡ length totals.old) × (length after.now ≡ length totals.old) × (length words.now ≡ length totals.old) }
    requires stepped { after.now ≡ step_all before.now words.now period }
    ensures { totals.new ≡ all_totals totals.old before.now words.now period }
{
    // by index; tried: a walk over all four side by side doesn't prove, since its invariant has no name for the totals counted so far
    for i in 0..totals.len() {
        let was = before[i];
        let reading = read(was.settings, words[i]);
        totals[i] = totals::after(totals[i], was, after[i].status, reading, period);
    }
}

impl Bench {
    // A bench without motors.
    #[tactic(auto, unfolding(crate::specs::State::empty_state))]
    pub fn empty() -> Bench
        ensures { view_of result ≡ empty_state }
    {
        Bench::default()
    }

    // How many motors it has: a count past its arrays counts as all of them.
    #[tactic(auto, unfolding(rules::specs::Refusals::most_motors))]
    pub fn held(&self) -> usize
        ensures { result ≡ held_of self.now }
    {
        self.count.min(MOST_MOTORS)
    }

    // What a request makes of it. A refused one leaves it as it was.
    #[tactic(auto, using(crate::proofs::ActLaws::refused), unfolding(crate::specs::State::refusal_for, sheet::specs::Grammar::request_refusal))]
    pub fn act(&mut self, request: Request) -> Result<(), Refusal>
        ensures { Acts self.old request result self.new }
    {
        match request {
            Request::Motor {
                number,
                ops1,
                ops2,
                w,
                u,
            } => self.add(number, Settings { ops1, ops2, w, u }),
            Request::Input { number, word } => self.set_word(number, word),
            Request::Scan { period } => self.scan(period),
            Request::Refused => Err(Refusal::Line),
        }
    }

    // M: a fresh motor, which holds the word 0, after those that are there.
    #[tactic(auto, using(crate::proofs::ActLaws::adds), unfolding(crate::specs::State::refusal_for, rules::specs::Refusals::most_motors))]
    fn add(&mut self, number: u32, settings: Settings) -> Result<(), Refusal>
        ensures { Acts self.old (M number settings.ops1 settings.ops2 settings.w settings.u) result self.new }
    {
        let at = self.held();
        accept_motor(at, self.scans, number, settings)?;
        self.motors[at] = book::start(settings);
        self.words[at] = 0;
        self.totals[at] = totals::none();
        self.count = at + 1;
        Ok(())
    }

    // I: the word that a motor holds from now on.
    #[tactic(auto, using(crate::proofs::ActLaws::sets), unfolding(crate::specs::State::refusal_for, rules::specs::Refusals::most_motors))]
    fn set_word(&mut self, number: u32, word: u32) -> Result<(), Refusal>
        ensures { Acts self.old (I number word) result self.new }
    {
        let i = accept_input(self.held(), number, word)?;
        self.words[i] = word;
        Ok(())
    }

    // The refusal of S, of a scan that is not made.
    #[tactic(auto, using(crate::proofs::ActLaws::scan_code), unfolding(rules::specs::Refusals::most_motors))]
    pub fn accept_scan(&self, period: u32) -> Result<(), Refusal>
        ensures { code_of result ≡ refusal_for (view_of self.now) (S period) }
    {
        let held = self.held();
        table::accept(&self.motors[..held], &self.words[..held], period)
    }

    // S: the table's scan.
    #[tactic(auto, using(crate::proofs::ActLaws::scans), unfolding(rules::specs::Refusals::most_motors))]
    fn scan(&mut self, period: u32) -> Result<(), Refusal>
        ensures { Acts self.old (S period) result self.new }
    {
        let held = self.held();
        // The totals go by the motors before the scan. Two copies: the check lets no part of a field behind `&mut self` be read while a part
        // of another is lent, and with slices of the whole fields, lent first, the proof didn't close. No scan of a run pays for them, as
        // the programs scan in loops of their own.
        let before = *self;
        table::scan(&mut self.motors[..held], &before.words[..held], period)?;
        let after = self.motors;
        count_scan(
            &mut self.totals[..held],
            &before.motors[..held],
            &after[..held],
            &before.words[..held],
            period,
        );
        self.scans = next_number(self.scans);
        Ok(())
    }
}
