//! A set of states, by its faces.
ghost use Rattle.std.specs.Prelude.{ℕ, ◌≤◌, pos, ◌≤ℤ◌};
ghost use Rattle.linear.specs.Tables.{at as entry_of};
ghost use Rattle.format.specs.Blocks.{Blank};
ghost use Rattle.format.specs.Sizes.{most_numbers, most_faces};

use crate::sizes::{FACES, FACES_BY_NUMBERS};
use linear::table::Table;

/// The states `x` of `n` numbers with `h x` at most the top, for each of `count` faces (half-spaces, a top is the offset).
/// The row of face `f` begins at entry `NUMBERS * f` of `h`.
#[derive(Clone, Copy, Debug, PartialEq, Eq)]
pub struct Faces {
    pub n: usize,
    pub count: usize,
    pub h: Table<FACES_BY_NUMBERS, 100>,
    pub tops: Table<FACES, 3_000_000>,
    ghost sized: { (1 ≤ n) × (n ≤ most_numbers) × (1 ≤ count) × (count ≤ most_faces) },
    ghost above: { (f : ℕ) → pos 0 ≤ℤ entry_of tops.cells f },
    ghost blank: { Blank most_numbers count n h.cells × Blank 1 count 1 tops.cells },
}
