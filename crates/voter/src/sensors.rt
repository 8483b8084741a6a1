//! What is known of the sensors beforehand.
ghost use Rattle.std.specs.Prelude.{ℕ, ◌≤◌, pos, ◌≤ℤ◌};
ghost use Rattle.linear.specs.Rows.{most_numbers};
ghost use Rattle.linear.specs.Tables.{at as entry_of};

use linear::row::Row;

/// How many numbers of the state the sensors read, and by how much a true reading of each may be off.
#[derive(Clone, Copy, Debug, PartialEq, Eq)]
pub struct Sensors {
    pub n: usize,
    pub noise: Row<1_000>,
    ghost sized: { n ≤ most_numbers },
    ghost quiet: { (i : ℕ) → pos 0 ≤ℤ entry_of noise.cells i },
}
