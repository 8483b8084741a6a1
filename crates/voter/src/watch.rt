//! What is known of the sensors from beat to beat.
ghost use Rattle.std.specs.Prelude.{◌≡◌, ◌≤◌, length};
ghost use Rattle.voter.specs.Sizes.{persistence, sensors};

use crate::reading::SENSORS;

/// For how many beats in a row a sensor has differed from the middle, and whether it was called bad. Both are needed: one
/// that is bad is counted on.
#[derive(Clone, Copy, Debug, PartialEq, Eq)]
pub struct Watch {
    pub count: u8,
    pub bad: bool,
    ghost within: { count ≤ persistence },
}

/// A watch for each sensor.
#[derive(Clone, Copy, Debug, PartialEq, Eq)]
pub struct Alarms {
    pub watches: [Watch; SENSORS],
    ghost sized: { length watches ≡ sensors },
}
