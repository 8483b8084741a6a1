//! The line that a beat prints, and a refusal's number and place.
ghost use Rattle.std.specs.Prelude.{◌≡◌, ◌+◌, ◌*◌, Some, false, slice_index_or};
ghost use Rattle.std.specs.Option.{option_map};
ghost use Rattle.format.specs.Refusals.{places};
ghost use Rattle.feedback.specs.Outcomes.{called_bad, line, outside_number, report as reported};

use crate::outcome::Outcome;
use format::refusal::PLACES;
use format::report::Report;
use std::fmt;
use voter::SENSORS;

/// The number of the refusal of a beat at which two sensors have a reading outside.
const OUTSIDE_NUMBER: u8 = 9;

/// What is told of that refusal: the places go sensor after sensor and number after number.
fn outside(sensor: u8, number: u8) -> Report
    ensures number { result.number ≡ outside_number }
    ensures place { result.place ≡ sensor * places + number }
{
    Report {
        number: OUTSIDE_NUMBER,
        place: usize::from(sensor) * usize::from(PLACES) + usize::from(number),
    }
}

/// The sensors that are called bad, as they stand behind the answer.
fn called_bad(bad: [bool; SENSORS]) -> &'static str
    ensures { result.now ≡ called_bad (slice_index_or bad 0 false) (slice_index_or bad 1 false) (slice_index_or bad 2 false) }
{
    match bad {
        [false, false, false] => "",
        [true, false, false] => " bad 0",
        [false, true, false] => " bad 1",
        [true, true, false] => " bad 0 1",
        [false, false, true] => " bad 2",
        [true, false, true] => " bad 0 2",
        [false, true, true] => " bad 1 2",
        [true, true, true] => " bad 0 1 2",
    }
}

impl Outcome {
    /// The number and the place of the refusal, where the beat is refused.
    pub fn refusal(self) -> Option<Report>
        ensures { option_map (λ r. (r.number, r.place)) result ≡ reported self }
    {
        match self {
            Outcome::Answered { .. } => None,
            Outcome::Outside { sensor, number } => Some(outside(sensor, number)),
        }
    }
}

impl fmt::Display for Outcome {
    ghost output = { λ o. Some (line o) };

    fn fmt<W: fmt::Write>(&self, f: &mut fmt::Formatter<W>) -> fmt::Result {
        match *self {
            Outcome::Answered { command, bad } => write!(f, "{command}{}", called_bad(bad)),
            Outcome::Outside { sensor, number } => outside(sensor, number).fmt(f),
        }
    }
}
