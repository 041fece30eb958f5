// A row stored where there is room for it: most of what is printed is rows, and one test of the place for the whole row is
// cheaper than one for each byte.
ghost use Rattle.std.specs.Prelude.{◌+◌, ◌<◌, ◌≡◌, true, [], ◌∷◌};
ghost use Rattle.report.specs.Puts.{Puts};
ghost use Rattle.report.specs.Store.{Fits, Takes, pair_of, states_of, short_states};
ghost use Rattle.report.specs.Print.{decimal, after_comma, row_of};

use crate::{Page, Row};
use octets::{COMMA, LF};

// The longest row: R, eight fields of a comma and ten digits, LF.
const LONGEST: usize = 90;

// Whether each of the five states has one digit.
#[tactic(auto, unfolding(crate::specs::Store::short_states))]
pub fn has_short_states(row: Row) -> bool
    ensures { result ≡ short_states row }
{
    (row.mode < 10) & (row.position < 10) & (row.command < 10) & (row.end < 10) & (row.output < 10)
}

impl<'a> Page<'a> {
    // R,scan,number,mode,position,command,end,output,flags
    #[tactic(auto, using(crate::proofs::PageLaws::all_short), unfolding(crate::specs::Print::row_of))]
    pub fn row(&mut self, row: Row)
        ensures { Puts self.old (row_of row) self.new }
    {
        // nearly all rows go this way; the states have one digit each if all their bits together are below ten, and of others each is asked
        let states = row.mode | row.position | row.command | row.end | row.output;
        if self.room() >= LONGEST && (states < 10 || has_short_states(row)) {
            return self.store_row(row);
        }
        let numbers = [
            row.scan,
            row.number,
            row.mode,
            row.position,
            row.command,
            row.end,
            row.output,
            row.flags,
        ];
        self.line(b'R', &numbers)
    }

    // The stores ask for room, each for its own number of bytes, which no type can tell: there is no computed const argument.
    fn store_row(&mut self, row: Row)
        requires room { Fits self.old 90 }
        requires states { short_states row ≡ true }
        ensures { Puts self.old (row_of row) self.new }
    {
        self.store(b'R');
        self.store_field(row.scan);
        self.store_field(row.number);
        self.store_states(row);
        self.store_field(row.flags);
        self.store(LF)
    }

    // mode,position,command,end,output, each after its comma.
    #[tactic(auto, using(crate::proofs::PageLaws::short_states_lem))]
    fn store_states(&mut self, row: Row)
        requires room { Fits self.old 10 }
        requires states { short_states row ≡ true }
        ensures puts { Puts self.old (states_of row) self.new }
        ensures room { Takes self.old 10 self.new }
    {
        self.store_state(row.mode);
        self.store_state(row.position);
        self.store_state(row.command);
        self.store_state(row.end);
        self.store_state(row.output)
    }

    // A number of one digit after its comma.
    fn store_state(&mut self, n: u32)
        requires { (n < 10) × Fits self.old 2 }
        ensures puts { Puts self.old (after_comma n) self.new }
        ensures room { Takes self.old 2 self.new }
    {
        self.store(COMMA);
        self.store_digit(n)
    }

    // A number after its comma.
    #[tactic(auto, using(crate::proofs::PutLaws::puts_then), unfolding(crate::specs::Print::after_comma))]
    fn store_field(&mut self, n: u32)
        requires { Fits self.old 11 }
        ensures puts { Puts self.old (after_comma n) self.new }
        ensures room { Takes self.old 11 self.new }
    {
        self.store(COMMA);
        self.store_number(n)
    }

    // A number of up to five digits without a loop; longer ones are rare. Tried: a loop takes a quarter more instructions, recursion twice as many.
    fn store_number(&mut self, n: u32)
        requires { Fits self.old 10 }
        ensures puts { Puts self.old (decimal n) self.new }
        ensures room { Takes self.old 10 self.new }
    {
        if n < 10 {
            return self.store_digit(n);
        }
        if n < 100 {
            return self.store_pair(n);
        }
        let hundreds = n / 100;
        let last = n % 100;
        if hundreds < 10 {
            self.store_digit(hundreds);
            return self.store_pair(last);
        }
        if hundreds < 100 {
            self.store_pair(hundreds);
            return self.store_pair(last);
        }
        if hundreds < 1000 {
            self.store_digit(hundreds / 100);
            self.store_pair(hundreds % 100);
            return self.store_pair(last);
        }
        self.number(n)
    }

    // Two digits.
    #[tactic(auto, using(crate::proofs::PutLaws::puts_then), unfolding(crate::specs::Store::pair_of))]
    fn store_pair(&mut self, n: u32)
        requires { (n < 100) × Fits self.old 2 }
        ensures puts { Puts self.old (pair_of n) self.new }
        ensures room { Takes self.old 2 self.new }
    {
        self.store_digit(n / 10);
        self.store_digit(n % 10)
    }

    // One digit.
    fn store_digit(&mut self, n: u32)
        requires { (n < 10) × Fits self.old 1 }
        ensures puts { Puts self.old ((48 + n) ∷ []) self.new }
        ensures room { Takes self.old 1 self.new }
    {
        self.store(b'0' + n as u8)
    }

    fn store(&mut self, b: u8)
        requires { Fits self.old 1 }
        ensures puts { Puts self.old (b ∷ []) self.new }
        ensures room { Takes self.old 1 self.new }
    {
        self.bytes[self.used] = b;
        self.used += 1
    }
}
