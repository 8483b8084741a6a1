//! Mid-value selection, number by number.
ghost use Rattle.std.specs.Prelude.{◌≡◌};
ghost use Rattle.voter.specs.Middles.{Between, mid};

use crate::reading::{Coordinate, Reading};

/// The middle one of three numbers: the first two are put in order, then the third is put between them.
fn middle_of(a: i32, b: i32, c: i32) -> i32
    ensures { result ≡ mid a b c }
{
    c.clamp(a.min(b), a.max(b))
}

/// The middle one of three readings.
pub fn median(a: Reading, b: Reading, c: Reading) -> Coordinate
    ensures value { result.0 ≡ mid a.0 b.0 c.0 }
    ensures between { Between a.0 b.0 c.0 result.0 }
{
    Coordinate(middle_of(a.0, b.0, c.0))
}
