//! Three sensors read each number of the state: the middle one of the three readings is used, and a sensor that
//! differs from it for too long is called bad (mid-value selection with persistence counts).
//!
//! What is done with the middle readings is left to the crates above.
#![tactic(auto)]

mod alarms;
mod difference;
pub mod laws;
mod middle;
mod range;
mod reading;
mod selection;
mod sensors;
mod watch;

pub use alarms::PERSISTENCE;
pub use range::Outside;
pub use reading::{Coordinate, Reading, Readings, SENSORS};
pub use selection::median;
pub use sensors::Sensors;
pub use watch::{Alarms, Watch};
