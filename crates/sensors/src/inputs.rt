// What is handed in: rules 11.1, 11.3 and 11.4.
#![tactic(auto, unfolding(crate::specs::Opened::opened))]

ghost use Rattle.std.specs.Prelude.{◌≡◌};
ghost use Rattle.sensors.specs.Sensors.{reading, is_marked, is_trusted, limit_allowed};

use crate::{Sensor, Sensors};

// The greatest magnitude of a reading that is trusted.
const MOST: f32 = 1_000_000.0;

impl Sensors {
    pub(crate) fn reading(self, n: Sensor) -> f32
        ensures { result ≡ reading self n }
    {
        match n {
            Sensor::First => self.first,
            Sensor::Second => self.second,
            Sensor::Third => self.third,
        }
    }

    fn is_marked(self, n: Sensor) -> bool
        ensures { result ≡ is_marked self n }
    {
        match n {
            Sensor::First => self.first_marked,
            Sensor::Second => self.second_marked,
            Sensor::Third => self.third_marked,
        }
    }

    #[tactic(auto, using(crate::proofs::Literals::million_is, crate::proofs::Trust::between_is), unfolding(crate::specs::Sensors::is_trusted))]
    pub(crate) fn is_trusted(self, n: Sensor) -> bool
        ensures { result ≡ is_trusted self n }
    {
        let x = self.reading(n);
        !self.is_marked(n) & ((-MOST <= x) & (x <= MOST))
    }

    #[tactic(auto, using(crate::proofs::Literals::zero_is), unfolding(crate::specs::Sensors::limit_allowed))]
    pub(crate) fn is_limit_allowed(self) -> bool
        ensures { result ≡ limit_allowed self.limit }
    {
        self.limit.is_finite() & !(self.limit < 0.0)
    }
}
