//! Rows over the numbers of a state.
use crate::table::Table;

/// The most numbers of a state. The rows of a table over the state are as far apart.
pub const NUMBERS: usize = 6;

/// The largest size of a number of the state.
pub const RANGE: u32 = 30_000;

/// A row over the state.
pub type Row<const BOUND: u32> = Table<NUMBERS, BOUND>;
