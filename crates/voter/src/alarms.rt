//! Counting the beats at which a sensor differs, and calling it bad.
ghost use Rattle.std.specs.Prelude.{◌≡◌, ◌<◌, false, slice_index_or};
ghost use Rattle.voter.specs.Counts.{Each, bad_of, noted, seen, seen_of, unseen};
ghost use Rattle.voter.specs.Sizes.{sensors};

use crate::reading::SENSORS;
use crate::watch::{Alarms, Watch};
use std::array;

/// At how many beats in a row at which it differs a sensor is called bad.
pub const PERSISTENCE: u8 = 40;

// By hand, since a derive cannot show a ghost field.
impl Default for Watch {
    ghost is_default = { λ w. seen w ≡ unseen };

    /// A sensor of which nothing is known yet.
    fn default() -> Self {
        Watch {
            count: 0,
            bad: false,
        }
    }
}

impl Watch {
    /// One beat more.
    fn note(self, differs: bool) -> Watch
        ensures { seen result ≡ noted differs (seen self) }
    {
        let count = if differs {
            PERSISTENCE.min(self.count + 1)
        } else {
            0
        };
        Watch {
            count,
            bad: self.bad || count == PERSISTENCE,
        }
    }
}

impl Default for Alarms {
    ghost is_default = { λ a. Each (λ c. seen_of a c ≡ unseen) };

    fn default() -> Self {
        Self::new()
    }
}

impl Alarms {
    /// No sensor has differed, and none is called bad.
    pub fn new() -> Alarms
        ensures { Each (λ c. seen_of result c ≡ unseen) }
    {
        Alarms {
            watches: [Watch::default(); SENSORS],
        }
    }

    /// The counts set to 0 by hand, and no sensor called bad any more.
    pub fn reset(self) -> Alarms
        ensures { Each (λ c. seen_of result c ≡ unseen) }
    {
        Alarms::new()
    }

    /// One beat more, at which these sensors differ.
    pub fn note(self, differing: [bool; SENSORS]) -> Alarms
        ensures { Each (λ c. seen_of result c ≡ noted (slice_index_or differing c false) (seen_of self c)) }
    {
        Alarms {
            watches: array::from_fn(
                |c|
                    requires { c < sensors }
                { self.watches[c].note(differing[c]) },
            ),
        }
    }

    /// The sensors that are called bad.
    pub fn bad(self) -> [bool; SENSORS]
        ensures { result ≡ bad_of self }
    {
        self.watches.map(|watch| watch.bad)
    }
}
