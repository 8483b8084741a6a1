//! What a beat comes to.
ghost use Rattle.std.specs.Prelude.{◌≡◌};
ghost use Rattle.feedback.specs.declared.outcome.Outcome.TheVariants.{Outside};

use law::Command;
use voter::SENSORS;

/// What a beat comes to. A `Result` would make an error of a refused beat, after which the loop goes on.
#[derive(Clone, Copy, Debug, PartialEq, Eq)]
pub enum Outcome {
    /// What is done, and which sensors are called bad.
    Answered {
        command: Command,
        bad: [bool; SENSORS],
    },
    /// Two sensors have a reading outside the range. The first one is of `number`, by `sensor`.
    Outside {
        sensor: u8,
        number: u8,
    },
}

impl From<voter::Outside> for Outcome {
    ghost from_gives = { λ outside outcome. outcome ≡ Outside outside.sensor outside.number };

    fn from(outside: voter::Outside) -> Outcome {
        let voter::Outside { sensor, number } = outside;
        Outcome::Outside { sensor, number }
    }
}
