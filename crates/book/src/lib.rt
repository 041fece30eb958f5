// Where motors start, and what is claimed of them from there on: rules 2.6, 5 and 6.
#![tactic(auto)]

ghost use Rattle.std.specs.Prelude.{◌≡◌};
ghost use Rattle.rules.specs.Record.{fresh};
ghost use Rattle.book.specs.Log.{Log};
ghost use Rattle.book.specs.History.{Entry};
ghost use Rattle.book.specs.Claim.{MotorClaim};

use rules::{Motor, Settings};

// A fresh motor. Whatever scans it goes through from here, accepted or refused, among whatever other motors, the claim
// holds of it after every one of them.
pub fn start(s: Settings) -> Motor
    ensures { (result ≡ fresh s) × ((es : Log Entry) → MotorClaim s es) }
{
    motor::fresh(s)
}
