//! Designs, sets, sheets and recordings: what they hold, and their bytes.
//!
//! A document is a row of eight-byte numbers with a range for each; a recording has a row of readings beside a design and
//! a set. This crate reads them, refuses the first fault, and writes documents; whether a sheet is good, and what is done
//! with readings, is left to the crates above.
#![tactic(auto)]

mod beats;
mod block;
mod cells;
pub mod certificate;
pub mod claim;
pub mod design;
pub mod faces;
mod fault;
mod faults;
mod fill;
mod layout;
mod number;
mod ranges;
pub mod read;
mod recorded;
pub mod recording;
pub mod refusal;
pub mod report;
pub mod sizes;
mod sound;
mod values;
pub mod write;
