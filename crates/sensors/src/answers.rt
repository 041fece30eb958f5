// The answer, case by case: rule 11.7.
#![tactic(auto, unfolding(crate::specs::Opened::opened))]

ghost use Rattle.std.specs.Prelude.{◌≡◌, true};
ghost use Rattle.sensors.specs.Sensors.{no_flags, own_flag, other_flags, unless_withheld, both_pass, one_fails, both_fail, of_three, of_two, of_one, trusted_answer, comes_before, AreTrusted};

use crate::{Answer, Flags, Sensor, Sensors, Value};
use words::has;

const NO_FLAGS: Flags = Flags {
    error: false,
    mismatch: false,
    first: false,
    second: false,
    third: false,
};

// The flag of a sensor alone, and those of the other two.
fn own_flag(n: Sensor) -> Flags
    ensures { result ≡ own_flag n }
{
    match n {
        Sensor::First => Flags {
            first: true,
            ..NO_FLAGS
        },
        Sensor::Second => Flags {
            second: true,
            ..NO_FLAGS
        },
        Sensor::Third => Flags {
            third: true,
            ..NO_FLAGS
        },
    }
}

fn other_flags(n: Sensor) -> Flags
    ensures { result ≡ other_flags n }
{
    let own = own_flag(n);
    Flags {
        first: !own.first,
        second: !own.second,
        third: !own.third,
        ..NO_FLAGS
    }
}

fn unless_withheld(options: u32, x: f32) -> Value
    ensures { result ≡ unless_withheld options x }
{
    if has(options, 7) {
        Value::Absent
    } else {
        Value::Known(x)
    }
}

// The answer where two or three sensors are not trusted.
fn with_error(value: Value) -> Answer
    ensures { result ≡ record { value = value; flags = record no_flags { error = true } } }
{
    Answer {
        value,
        flags: Flags {
            error: true,
            ..NO_FLAGS
        },
    }
}

impl Sensors {
    fn both_pass(self, middle: Sensor, options: u32) -> Answer
        ensures { result ≡ both_pass self middle options }
    {
        let value = if has(options, 5) {
            self.mean_of_three()
        } else {
            self.reading(middle)
        };
        Answer {
            value: Value::Known(value),
            flags: NO_FLAGS,
        }
    }

    fn one_fails(self, outer: Sensor) -> Answer
        ensures { result ≡ one_fails self outer }
    {
        Answer {
            value: Value::Known(self.mean_without(outer)),
            flags: own_flag(outer),
        }
    }

    fn both_fail(self, middle: Sensor, options: u32) -> Answer
        ensures { result ≡ both_fail self middle options }
    {
        let flags = if has(options, 0) {
            NO_FLAGS
        } else {
            other_flags(middle)
        };
        Answer {
            value: unless_withheld(options, self.reading(middle)),
            flags: Flags {
                mismatch: true,
                ..flags
            },
        }
    }

    fn of_three(self, options: u32) -> Answer
        requires { AreTrusted self }
        ensures { result ≡ of_three self options }
    {
        let order = self.order();
        let above = self.fails(order.greatest, order.middle);
        let below = self.fails(order.middle, order.least);
        match (above, below) {
            (false, false) => self.both_pass(order.middle, options),
            (true, false) => self.one_fails(order.greatest),
            (false, true) => self.one_fails(order.least),
            (true, true) => self.both_fail(order.middle, options),
        }
    }

    // Of two trusted sensors, i the lower-numbered.
    fn of_two(self, i: Sensor, j: Sensor, options: u32) -> Answer
        requires { comes_before i j ≡ true }
        ensures { result ≡ of_two self i j options }
    {
        let value = if has(options, 5) | has(options, 8) {
            self.mean_of_two(i, j)
        } else if has(options, 6) {
            self.reading(i)
        } else {
            self.reading(j)
        };
        Answer {
            value: Value::Known(value),
            flags: Flags {
                mismatch: self.are_apart(i, j),
                ..NO_FLAGS
            },
        }
    }

    fn of_one(self, n: Sensor, options: u32) -> Answer
        ensures { result ≡ of_one self n options }
    {
        with_error(unless_withheld(options, self.reading(n)))
    }

    // By which of the three are trusted.
    pub(crate) fn of_trusted(self, options: u32) -> Answer
        ensures { result ≡ trusted_answer self options }
    {
        let first = self.is_trusted(Sensor::First);
        let second = self.is_trusted(Sensor::Second);
        let third = self.is_trusted(Sensor::Third);
        match (first, second, third) {
            (true, true, true) => self.of_three(options),
            (false, true, true) => self.of_two(Sensor::Second, Sensor::Third, options),
            (true, false, true) => self.of_two(Sensor::First, Sensor::Third, options),
            (true, true, false) => self.of_two(Sensor::First, Sensor::Second, options),
            (true, false, false) => self.of_one(Sensor::First, options),
            (false, true, false) => self.of_one(Sensor::Second, options),
            (false, false, true) => self.of_one(Sensor::Third, options),
            (false, false, false) => with_error(Value::Absent),
        }
    }
}
