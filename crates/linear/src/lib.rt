//! Rows and tables of whole numbers whose bound is in their type, and exact sums over their lines in 64 bits.
//!
//! What the numbers mean is left to the crates above. The laws of sums stand here once for all of them, and so does the
//! promise that no sum within their ranges is too large.
#![tactic(auto)]

pub mod laws;
pub mod line;
pub mod row;
pub mod sums;
pub mod table;
