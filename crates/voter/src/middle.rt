//! The middle of a whole beat.
ghost use Rattle.std.specs.Prelude.{◌≡◌, true, is_ok, MatchResult};
ghost use Rattle.linear.specs.Tables.{at as entry_of};
ghost use Rattle.linear.specs.Vectors.{Vector, filled};
ghost use Rattle.voter.specs.Faults.{Sound};
ghost use Rattle.voter.specs.Ranges.{TwoInRange, TwoOutside};
ghost use Rattle.voter.specs.Sent.{sent};
ghost use Rattle.voter.specs.Votes.{Voted, mids, noise_of};

use crate::range::Outside;
use crate::reading::Readings;
use crate::selection::median;
use crate::sensors::Sensors;
use linear::row::{RANGE, Row};
use std::array;

impl Sensors {
    /// The middle one of the three readings of number `i`, and 0 past the numbers of the state.
    fn middle_at(&self, readings: &Readings, i: usize) -> i32
        ensures { result ≡ filled self.now.n (mids (sent readings.now)) i }
    {
        if i < self.n {
            median(readings[0][i], readings[1][i], readings[2][i]).0
        } else {
            0
        }
    }

    /// The middle reading of each number of the state, and 0 past them, where two sensors have no reading outside.
    fn middle_row(&self, readings: &Readings) -> Row<RANGE>
        requires { TwoInRange self.now.n (sent readings.now) }
        ensures { Voted self.now (sent readings.now) (entry_of result.cells) }
    {
        Row {
            cells: array::from_fn(|i| self.middle_at(readings, i)),
        }
    }

    /// The middle reading of each number of the state; or where two sensors have a reading outside, the first of those.
    /// The range needs no clamping: where two of three readings are inside, the middle one is too.
    pub fn middle(&self, readings: &Readings) -> Result<Row<RANGE>, Outside>
        ensures cases { MatchResult result (λ y. Voted self.now (sent readings.now) (entry_of y.cells)) (λ o. TwoOutside self.now.n (sent readings.now) o.sensor o.number) }
        ensures succeeds { (x : Vector) → Sound self.now.n (noise_of self.now) x (sent readings.now) → is_ok result ≡ true }
    {
        match self.two_outside(readings) {
            Some(outside) => Err(outside),
            None => Ok(self.middle_row(readings)),
        }
    }
}
