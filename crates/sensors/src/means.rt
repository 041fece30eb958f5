// Means: rule 11.5. They add in sensor order and divide once.
#![tactic(auto)]

ghost use Rattle.std.specs.Prelude.{◌≡◌};
ghost use Rattle.sensors.specs.Sensors.{mean_of_two, mean_of_three, mean_without};

use crate::{Sensor, Sensors};

impl Sensors {
    #[tactic(auto, using(crate::proofs::Literals::two_is), unfolding(crate::specs::Sensors::mean_of_two))]
    pub(crate) fn mean_of_two(self, i: Sensor, j: Sensor) -> f32
        ensures { result ≡ mean_of_two self i j }
    {
        (self.reading(i) + self.reading(j)) / 2.0
    }

    #[tactic(auto, using(crate::proofs::Literals::three_is), unfolding(crate::specs::Sensors::mean_of_three))]
    pub(crate) fn mean_of_three(self) -> f32
        ensures { result ≡ mean_of_three self }
    {
        (self.first + self.second + self.third) / 3.0
    }

    // The mean of the two that are not n.
    #[tactic(auto, unfolding(crate::specs::Sensors::mean_without))]
    pub(crate) fn mean_without(self, n: Sensor) -> f32
        ensures { result ≡ mean_without self n }
    {
        match n {
            Sensor::First => self.mean_of_two(Sensor::Second, Sensor::Third),
            Sensor::Second => self.mean_of_two(Sensor::First, Sensor::Third),
            Sensor::Third => self.mean_of_two(Sensor::First, Sensor::Second),
        }
    }
}
