//! The loop as it runs: a beat takes what the sensors sent and answers what is done, and a recording is run beat by
//! beat.
//!
//! Whether a design keeps its set is left to the checker. Nothing here looks at the set.
#![tactic(auto)]

pub mod beat;
pub mod outcome;
pub mod report;
pub mod run;
