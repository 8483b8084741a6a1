//! A control law: gains over a common denominator.
ghost use Rattle.std.specs.Prelude.{◌≤◌};

use linear::row::Row;

/// What the loop answers to readings `y`: the whole number nearest to `-k y / over_law`.
#[derive(Clone, Copy, Debug, PartialEq, Eq)]
pub struct Law {
    pub over_law: u32,
    pub k: Row<2_000>,
    ghost ranged: { (1 ≤ over_law) × (over_law ≤ 1000) },
}
