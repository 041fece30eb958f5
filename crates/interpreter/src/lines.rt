// Lines read ahead of what they do: runs of I lines, which touch nothing but the words that the motors hold, and S lines.
ghost use Rattle.std.specs.Prelude.{min, Some, None, IfSome, IfNone};
ghost use Rattle.rules.specs.Refusals.{most_motors};
ghost use Rattle.interpreter.specs.Lines.{Found, NoInput, InputRun, FoundScan};

use crate::acts::{accept_input, next_number};
use sheet::{Request, next_request};
use table::MOST_MOTORS;

// An I line that is accepted, by its motor's number, as `Found` has it, and the place of the next line.
#[derive(Clone, Copy)]
struct InputLine {
    number: u32,
    word: u32,
    next: usize,
}

// The words that the motors hold, at a place of a file, where the line of this number begins. How many are held, in fixed memory as in `Bench`,
// `take` is told, since it stays in a run.
#[derive(Clone, Copy)]
pub struct Inputs {
    pub words: [u32; MOST_MOTORS],
    pub at: usize,
    pub line: u32,
}

#[tactic(auto, using(sheet::proofs::PlaceLaws::other_at, sheet::proofs::RequestLaws::input_begins))]
fn next_input(file: &[u8], held: usize, at: usize) -> Option<InputLine>
    ensures found { IfSome result (λ input. Found file.now held at input) }
    ensures missed { IfNone result (NoInput file.now held at) }
{
    // no line but one that begins with I need be read twice
    if !sheet::is_at(file, at, b'I') {
        return None;
    }
    let (request, next) = next_request(file, at)?;
    let Request::Input { number, word } = request else {
        return None;
    };
    accept_input(held, number, word).ok()?;
    Some(InputLine { number, word, next })
}

impl Inputs {
    // The I lines from here on, up to the first line that is refused or of another kind.
    #[tactic(auto, using(crate::proofs::ActLaws::input_there), unfolding(rules::specs::Refusals::most_motors))]
    pub fn take(&mut self, file: &[u8], count: usize)
        ensures { InputRun file.now (min count most_motors) self.old self.new }
    {
        let held = count.min(MOST_MOTORS);
        while let Some(input) = next_input(file, held, self.at) {
            self.words[input.number as usize - 1] = input.word;
            self.at = input.next;
            self.line = next_number(self.line);
        }
    }
}

// The S line at a place of a file, if its period is one of a scan: the period, and the place of the next line.
pub fn next_scan(file: &[u8], at: usize) -> Option<(u32, usize)>
    ensures found { IfSome result (λ scan. FoundScan file.now at (Some scan)) }
    ensures missed { IfNone result (FoundScan file.now at None) }
{
    let (request, next) = next_request(file, at)?;
    let Request::Scan { period } = request else {
        return None;
    };
    motor::is_period_ok(period).then_some((period, next))
}
