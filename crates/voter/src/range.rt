//! Readings outside the range.
ghost use Rattle.std.specs.Prelude.{◌≡◌, MatchOption};
ghost use Rattle.voter.specs.Ranges.{InRange, First, TwoInRange, TwoOutside};
ghost use Rattle.voter.specs.Sent.{sent, sent_row};

use crate::reading::{Reading, Readings, SENSORS};
use crate::sensors::Sensors;
use linear::row::NUMBERS;
use std::array;

/// The first reading outside, by its sensor and its number of the state.
#[derive(Clone, Copy, Debug, PartialEq, Eq)]
pub struct Outside {
    pub sensor: u8,
    pub number: u8,
}

impl Sensors {
    /// The first of a sensor's readings that is outside. Its index is small: there are few numbers.
    fn first_outside(&self, row: &[Reading; NUMBERS]) -> Option<u8>
        ensures { MatchOption result (InRange self.now.n (sent_row row.now)) (First self.now.n (sent_row row.now)) }
    {
        row[..self.n]
            .iter()
            .position(|reading| reading.is_outside())
            .map(|i| i as u8)
    }

    /// The first reading outside, where two sensors have one.
    pub(crate) fn two_outside(&self, readings: &Readings) -> Option<Outside>
        ensures { MatchOption result (TwoInRange self.now.n (sent readings.now)) (λ o. TwoOutside self.now.n (sent readings.now) o.sensor o.number) }
    {
        let firsts: [_; SENSORS] = array::from_fn(|c| self.first_outside(&readings[c]));
        match firsts {
            [Some(number), Some(_), _] | [Some(number), _, Some(_)] => {
                Some(Outside { sensor: 0, number })
            }
            [_, Some(number), Some(_)] => Some(Outside { sensor: 1, number }),
            _ => None,
        }
    }
}
