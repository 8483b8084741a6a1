//! The control law: gains, a denominator, and the answer to readings, rounded to the nearest whole number.
//!
//! Where the readings come from, and what an answer does to the plant, is left to the crates above.
#![tactic(auto)]

mod answer;
mod gain;

pub use answer::Command;
pub use gain::Law;
