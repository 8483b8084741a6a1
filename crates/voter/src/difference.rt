//! Which sensors differ from the middle at a beat.
ghost use Rattle.std.specs.Prelude.{◌≡◌, false, slice_index_or};
ghost use Rattle.linear.specs.Tables.{at as entry_of};
ghost use Rattle.voter.specs.Counts.{Each};
ghost use Rattle.voter.specs.Differences.{differs as differs_from};
ghost use Rattle.voter.specs.Sent.{sent, sent_row};
ghost use Rattle.voter.specs.Votes.{noise_of};

use crate::reading::{Coordinate, Reading, Readings, SENSORS};
use crate::sensors::Sensors;
use linear::row::{NUMBERS, RANGE, Row};
use std::array;

impl Sensors {
    /// Whether one of a sensor's readings strays from the middle.
    fn differs(&self, row: &[Reading; NUMBERS], middle: &Row<RANGE>) -> bool
        ensures { result ≡ differs_from self.now.n (noise_of self.now) (entry_of middle.now.cells) (sent_row row.now) }
    {
        (0..self.n).any(|i| row[i].strays(Coordinate(middle.entry(i)), self.noise.entry(i)))
    }

    /// For each sensor whether it differs from the middle at a beat.
    pub fn differing(&self, readings: &Readings, middle: &Row<RANGE>) -> [bool; SENSORS]
        ensures { Each (λ c. slice_index_or result c false ≡ differs_from self.now.n (noise_of self.now) (entry_of middle.now.cells) (sent readings.now c)) }
    {
        array::from_fn(|c| self.differs(&readings[c], middle))
    }
}
