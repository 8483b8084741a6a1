//! The one container: an array by value with its bound in its type.
ghost use Rattle.std.specs.Prelude.{◌≡◌, ◌^◌, ◌<◌, length, nat_lt, unsigned_abs, MatchResult};
ghost use Rattle.linear.specs.Tables.{Within, FirstOutside, at as entry_of};

use std::array;

/// A flat table of `LEN` numbers, each at most `BOUND` in size. A row is a table of one row.
#[derive(Clone, Copy, Debug, PartialEq, Eq)]
pub struct Table<const LEN: usize, const BOUND: u32> {
    pub cells: [i32; LEN],
    ghost sized: { length cells ≡ LEN },
    ghost within: { Within BOUND cells },
}

/// The first of the numbers that is larger in size than the bound.
#[derive(Clone, Copy, Debug, PartialEq, Eq)]
pub struct Outside {
    pub entry: usize,
}

impl<const LEN: usize, const BOUND: u32> Table<LEN, BOUND> {
    /// The table of these numbers. That the bound fits 32 bits is decided where the type is written out; a number that is
    /// not outside then fits them too.
    pub fn new(numbers: [i64; LEN]) -> Result<Self, Outside>
        requires { BOUND < 2 ^ 31 }
        ensures { MatchResult result (λ t. t.cells ≡ numbers.entry) (λ e. FirstOutside BOUND numbers.entry e.entry) }
    {
        let outside = |x: &i64| -> bool
            ensures { result ≡ nat_lt BOUND (unsigned_abs x.entry.now) }
        { x.unsigned_abs() > u64::from(BOUND) };
        let narrowed = |i: usize| -> i32
            requires { (i < LEN) × (unsigned_abs (entry_of numbers i) < 2 ^ 31) }
            ensures { result ≡ entry_of numbers i }
        { numbers[i] as i32 };
        match numbers.iter().position(outside) {
            Some(entry) => Err(Outside { entry }),
            None => Ok(Table {
                cells: array::from_fn(narrowed),
            }),
        }
    }

    /// Entry `i`, and 0 past the last one.
    pub fn entry(&self, i: usize) -> i32
        ensures { result ≡ entry_of self.now.cells i }
    {
        self.cells.get(i).copied().unwrap_or(0)
    }
}
