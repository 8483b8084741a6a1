//! A design: the plant, the law and their bounds.
ghost use Rattle.std.specs.Prelude.{ℕ, ◌<◌, ◌≤◌, pos, ◌*ℤ◌, ◌≤ℤ◌};
ghost use Rattle.linear.specs.Tables.{at as entry_of};
ghost use Rattle.format.specs.Blocks.{Blank};
ghost use Rattle.format.specs.Sizes.{most_numbers};

use crate::sizes::{NUMBERS_BY_NUMBERS, Row};
pub use law::Law;
use linear::table::Table;

/// What the state does: `over` times the next state is `a x + b u`, and off by at most `off`. Row `i` of `a` begins at
/// entry `NUMBERS * i`.
#[derive(Clone, Copy, Debug, PartialEq, Eq)]
pub struct Plant {
    pub over: u32,
    pub a: Table<NUMBERS_BY_NUMBERS, 2_000>,
    pub b: Row<2_000>,
    pub off: Row<1_000_000>,
    ghost ranged: { (1 ≤ over) × (over ≤ 1000) },
}

/// A plant and a law with `n` numbers for the state, the largest answer `limit`, and how far a true reading may be off.
/// Memory is fixed: here, as in sets and sheets, a table has room for the largest sizes, and its own stand beside it.
#[derive(Clone, Copy, Debug, PartialEq, Eq)]
pub struct Design {
    pub n: usize,
    pub limit: u32,
    pub plant: Plant,
    pub law: Law,
    pub noise: Row<1_000>,
    ghost sized: { (1 ≤ n) × (n ≤ most_numbers) },
    ghost limited: { (1 ≤ limit) × (limit ≤ 30000) },
    ghost halved: { (i : ℕ) → i < n → pos plant.over ≤ℤ (pos 2 *ℤ entry_of plant.off.cells i) },
    ghost quiet: { (i : ℕ) → pos 0 ≤ℤ entry_of noise.cells i },
    ghost blank: { Blank most_numbers n n plant.a.cells × Blank 1 n 1 plant.b.cells × Blank 1 n 1 plant.off.cells × Blank 1 n 1 law.k.cells × Blank 1 n 1 noise.cells },
}
