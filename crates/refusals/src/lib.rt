// The refusals, each with its number, of a scan and of a line of a file. They stand apart from the rules, so that what speaks of
// lines alone does not stand on a motor.
#![tactic(auto)]

ghost use Rattle.std.specs.Prelude.{◌≡◌};
ghost use Rattle.refusals.specs.Numbers.{number_of};

/// What a scan, or a line of a file, is refused for, each with the number that is printed for it: rule 4.2.
#[derive(Clone, Copy, Debug, PartialEq, Eq)]
pub enum Refusal {
    /// a table's counts, or a file's length
    Size = 1,
    Period = 2,
    Word = 3,
    Setting = 4,
    Line = 5,
    /// a record out of range
    Record = 6,
    /// a table without room for one more motor
    Full = 7,
    /// a motor after the first scan
    Scanned = 8,
    /// a number that is not the next
    Number = 9,
    /// a motor that is not there
    Absent = 10,
}

impl From<Refusal> for u32 {
    ghost from_gives = { λ refusal number. number ≡ number_of refusal };

    fn from(refusal: Refusal) -> u32
        ensures { result ≡ number_of refusal }
    {
        refusal as u32
    }
}
