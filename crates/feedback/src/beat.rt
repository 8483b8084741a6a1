//! One beat of the loop.
ghost use Rattle.std.specs.Prelude.{◌≡◌, true};
ghost use Rattle.linear.specs.Vectors.{Vector};
ghost use Rattle.voter.specs.Faults.{Sound};
ghost use Rattle.voter.specs.Sent.{sent};
ghost use Rattle.voter.specs.Votes.{noise_of};
ghost use Rattle.feedback.specs.Beats.{Comes, sensors_of};
ghost use Rattle.feedback.specs.Outcomes.{answered};
ghost use Rattle.feedback.specs.Promises.{AlarmsStep, OneOutcome};

use crate::outcome::Outcome;
use format::design::Design;
use voter::{Alarms, Readings, Sensors};

/// What a beat comes to, and the alarms after it: the law's answer to the middle readings, and each sensor that differs
/// from the middle counted; or, where two sensors have a reading outside, the first of those, and the alarms as they were.
pub fn beat(design: &Design, alarms: Alarms, readings: &Readings) -> (Outcome, Alarms)
    ensures comes { Comes design.now alarms (sent readings.now) result.0 result.1 }
    ensures taken { (x : Vector) → Sound design.now.n (noise_of (sensors_of design.now)) x (sent readings.now) → answered result.0 ≡ true }
{
    let sensors = Sensors {
        n: design.n,
        noise: design.noise,
    };
    match sensors.middle(readings) {
        Ok(middle) => {
            let command = design.law.answer(design.n, &middle);
            let alarms = alarms.note(sensors.differing(readings, &middle));
            let bad = alarms.bad();
            (Outcome::Answered { command, bad }, alarms)
        }
        Err(outside) => (outside.into(), alarms),
    }
}

/// One answer only keeps the promise of `beat`, and its alarms go by the steps of which the voter promises which sensors
/// are called bad, and which are not.
pub fn beat_laws()
    ensures one_outcome { OneOutcome }
    ensures alarms_step { AlarmsStep }
{}
