// The sensor block: one value, or none, for the readings of three sensors on one bearing, in automatic mode, and five flags. Rule 11; its
// definitions are in specs/Sensors.antt.
#![tactic(auto, unfolding(crate::specs::Opened::opened))]

mod answers;
mod inputs;
mod means;
mod order;

ghost use Rattle.std.specs.Prelude.{◌≡◌, IfOk, IfSome};
ghost use Rattle.sensors.specs.Sensors.{answer_of, refusal_of, code_of, value_of, IsWithin};
ghost use Rattle.sensors.specs.Sheets.{AreRight, given_sheets};

// One of the three sensors.
#[derive(Clone, Copy)]
enum Sensor {
    First,
    Second,
    Third,
}

/// The readings of sensors 1 to 3, the limit of their differences (rule 11.6), in the same unit, and for each sensor a mark that its reading
/// is not to be trusted. Any `f32` is taken, infinities and NaN too: rule 11.1.
#[derive(Clone, Copy, Debug, PartialEq)]
pub struct Sensors {
    pub first: f32,
    pub second: f32,
    pub third: f32,
    pub limit: f32,
    pub first_marked: bool,
    pub second_marked: bool,
    pub third_marked: bool,
}

/// The value that the block makes, a number of at most 1,000,000 in magnitude, or that there is none.
#[derive(Clone, Copy, Debug, PartialEq)]
pub enum Value {
    Known(f32),
    Absent,
}

/// The error flags Y1 to Y5: rule 11.2.
#[derive(Clone, Copy, Debug, PartialEq, Eq)]
pub struct Flags {
    /// Y1: two or three sensors are not trusted.
    pub error: bool,
    /// Y2: two sensors are trusted, and their difference fails; or three are, and both differences fail.
    pub mismatch: bool,
    /// Y3, of sensor 1: it is the outer one of a difference that fails, unless both fail and bit 0 is 1.
    pub first: bool,
    /// Y4, the same of sensor 2.
    pub second: bool,
    /// Y5, the same of sensor 3.
    pub third: bool,
}

/// The value beside the error flags.
#[derive(Clone, Copy, Debug, PartialEq)]
pub struct Answer {
    pub value: Value,
    pub flags: Flags,
}

/// What a call is refused for, with its number: rule 11.3.
#[derive(Clone, Copy, Debug, PartialEq, Eq)]
pub enum Refusal {
    /// The limit is below 0, infinite or NaN.
    Limit = 11,
}

/// The answer of three sensors, by bits 0, 5, 6, 7 and 8 of the option word, whose other bits have no effect. A limit below 0, infinite or
/// NaN is refused, whatever else is handed in: rule 11.
#[tactic(auto, using(crate::proofs::Within::answer_within, crate::proofs::Sheets::are_right), unfolding(words::specs::Opened::choices, crate::specs::Sensors::answer_of, crate::specs::Sensors::refusal_of))]
pub fn combine(sensors: Sensors, options: u32) -> Result<Answer, Refusal>
    ensures answer { result ≡ answer_of sensors options }
    ensures number { code_of result ≡ refusal_of sensors }
    ensures within { IfOk result (λ answer. IfSome (value_of answer.value) IsWithin) }
    ensures sheets { AreRight given_sheets }
{
    if !sensors.is_limit_allowed() {
        return Err(Refusal::Limit);
    }
    Ok(sensors.of_trusted(options))
}
