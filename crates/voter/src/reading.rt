//! The two sorts of number: what a sensor sent, and what the loop takes a number of the state to be.
ghost use Rattle.std.specs.Prelude.{◌≡◌, unsigned_abs};
ghost use Rattle.voter.specs.Differences.{strays as strays_from};
ghost use Rattle.voter.specs.Ranges.{outside};

use linear::row::{NUMBERS, RANGE};

/// How many sensors read each number of the state.
pub const SENSORS: usize = 3;

/// What a sensor sent of one number of the state. It may be any number: a faulty sensor sends what it likes.
#[derive(Clone, Copy, Debug, PartialEq, Eq)]
pub struct Reading(pub i32);

/// A number of the state as the loop takes it to be.
#[derive(Clone, Copy, Debug, PartialEq, Eq)]
pub struct Coordinate(pub i32);

/// What the sensors sent at a beat: for each sensor its reading of each number of the state.
pub type Readings = [[Reading; NUMBERS]; SENSORS];

impl Reading {
    /// Whether this reading is outside the range.
    pub fn is_outside(self) -> bool
        ensures { result ≡ outside self.0 }
    {
        self.0.unsigned_abs() > RANGE
    }

    /// Whether this reading is outside, or more than two noises from the middle.
    pub(crate) fn strays(self, middle: Coordinate, noise: i32) -> bool
        ensures { result ≡ strays_from self.0 middle.0 (unsigned_abs noise) }
    {
        let far = u64::from(self.0.abs_diff(middle.0));
        self.is_outside() || far > 2 * u64::from(noise.unsigned_abs())
    }
}
