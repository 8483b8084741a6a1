//! The numbers of a sheet.
ghost use Rattle.std.specs.Prelude.{ℕ, ◌*◌, ◌≤◌, pos, ◌≤ℤ◌};
ghost use Rattle.linear.specs.Tables.{at as entry_of};
ghost use Rattle.format.specs.Blocks.{Blank};
ghost use Rattle.format.specs.Sizes.{most_numbers, most_faces};

use crate::sizes::{FACES_BY_FACES, SIGNED_NUMBERS_BY_FACES, SIGNS_BY_FACES};
use linear::table::Table;

/// A sheet's numbers, multipliers of the faces over a common `scale` (a Farkas certificate): `m` has a row for each face,
/// `w` one for each sign of the law, `v` one for each number of the state and sign. Rows are `FACES` entries apart.
#[derive(Clone, Copy, Debug, PartialEq, Eq)]
pub struct Certificate {
    pub n: usize,
    pub count: usize,
    pub scale: u32,
    pub m: Table<FACES_BY_FACES, 500_000_000>,
    pub w: Table<SIGNS_BY_FACES, 500_000_000>,
    pub v: Table<SIGNED_NUMBERS_BY_FACES, 500_000_000>,
    ghost sized: { (1 ≤ n) × (n ≤ most_numbers) × (1 ≤ count) × (count ≤ most_faces) },
    ghost scaled: { (1 ≤ scale) × (scale ≤ 100) },
    ghost above: { (s : ℕ) → (pos 0 ≤ℤ entry_of m.cells s) × (pos 0 ≤ℤ entry_of w.cells s) × (pos 0 ≤ℤ entry_of v.cells s) },
    ghost blank: { Blank most_faces count count m.cells × Blank most_faces 2 count w.cells × Blank most_faces (2 * n) count v.cells },
}
