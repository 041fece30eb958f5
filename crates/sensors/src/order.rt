// The sensors in order, and whether two of them differ too much: rule 11.6.
#![tactic(auto)]

ghost use Rattle.std.specs.Prelude.{◌≡◌, true};
ghost use Rattle.sensors.specs.Sensors.{fails, least, middle, greatest, comes_before, are_apart, AreTrusted};

use crate::{Sensor, Sensors};

// Which sensor has the least reading, the middle one and the greatest.
#[derive(Clone, Copy)]
pub(crate) struct Order {
    pub(crate) least: Sensor,
    pub(crate) middle: Sensor,
    pub(crate) greatest: Sensor,
}

fn in_order(least: Sensor, middle: Sensor, greatest: Sensor) -> Order
    ensures { result ≡ record { least = least; middle = middle; greatest = greatest } }
{
    Order {
        least,
        middle,
        greatest,
    }
}

impl Sensors {
    // Whether the reading of the one is above that of the other by more than the limit.
    #[tactic(auto, unfolding(crate::specs::Sensors::fails))]
    pub(crate) fn fails(self, larger: Sensor, smaller: Sensor) -> bool
        ensures { result ≡ fails self larger smaller }
    {
        self.reading(larger) - self.reading(smaller) > self.limit
    }

    // Whether the readings of two sensors, i the lower-numbered, differ by more than the limit.
    #[tactic(auto, using(crate::proofs::Ranks::apart_is), unfolding(words::specs::Opened::choices))]
    pub(crate) fn are_apart(self, i: Sensor, j: Sensor) -> bool
        requires { comes_before i j ≡ true }
        ensures { result ≡ are_apart self i j }
    {
        if self.reading(i) <= self.reading(j) {
            self.fails(j, i)
        } else {
            self.fails(i, j)
        }
    }

    // Equal readings go by the sensors' numbers. A test that is passed over (`_`) follows from the two others.
    #[tactic(auto, using(crate::proofs::Ranks::least_is, crate::proofs::Ranks::middle_is, crate::proofs::Ranks::greatest_is), unfolding(words::specs::Opened::choices))]
    pub(crate) fn order(self) -> Order
        requires { AreTrusted self }
        ensures least { result.least ≡ least self }
        ensures middle { result.middle ≡ middle self }
        ensures greatest { result.greatest ≡ greatest self }
    {
        let first_second = self.first <= self.second;
        let first_third = self.first <= self.third;
        let second_third = self.second <= self.third;
        match (first_second, first_third, second_third) {
            (true, _, true) => in_order(Sensor::First, Sensor::Second, Sensor::Third),
            (true, true, false) => in_order(Sensor::First, Sensor::Third, Sensor::Second),
            (true, false, false) => in_order(Sensor::Third, Sensor::First, Sensor::Second),
            (false, true, _) => in_order(Sensor::Second, Sensor::First, Sensor::Third),
            (false, false, true) => in_order(Sensor::Second, Sensor::Third, Sensor::First),
            (false, false, false) => in_order(Sensor::Third, Sensor::Second, Sensor::First),
        }
    }
}
