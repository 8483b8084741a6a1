//! The law's answer to readings, exact but for the rounding to a whole number.
ghost use Rattle.std.specs.Prelude.{◌≡◌, ◌+◌, ◌*◌, ◌/◌, ◌%◌, ◌^◌, ◌<◌, pos, neg_ℤ, ◌≤ℤ◌, ◌<ℤ◌, unsigned_abs, Some};
ghost use Rattle.std.specs.Fmt.{signed_decimal};
ghost use Rattle.linear.specs.Tables.{at as entry_of};
ghost use Rattle.linear.specs.Vectors.{dot as dot_of};
ghost use Rattle.law.specs.Answers.{Answer, Rounded};

use crate::gain::Law;
use linear::row::{RANGE, Row};
use linear::sums::dot;
use std::fmt;

/// What the loop does: a torque in whole numbers.
#[derive(Clone, Copy, Debug, PartialEq, Eq)]
pub struct Command(pub i32);

impl fmt::Display for Command {
    ghost output = { λ u. Some (signed_decimal u.0) };

    fn fmt<W: fmt::Write>(&self, f: &mut fmt::Formatter<W>) -> fmt::Result {
        self.0.fmt(f)
    }
}

impl Law {
    /// What this law answers to the first `n` numbers of `y`. It is never cut: the largest fits 32 bits.
    pub fn answer(&self, n: usize, y: &Row<RANGE>) -> Command
        ensures answer { Answer n self.now.over_law (entry_of self.now.k.cells) (entry_of y.now.cells) result.0 }
        ensures rounded { Rounded self.now.over_law (dot_of n (entry_of self.now.k.cells) (entry_of y.now.cells)) result.0 }
    {
        Command(nearest_against(dot(n, &self.k, y), self.over_law))
    }
}

/// The whole number nearest to `-s / den`, of two equally near the even one.
fn nearest_against(s: i64, den: u32) -> i32
    requires { (unsigned_abs s < 2 ^ 30) × (0 < den) }
    ensures { Rounded den s result }
{
    against(s, nearest(s.unsigned_abs(), den))
}

/// The whole number nearest to `size / den`, of two equally near the even one.
fn nearest(size: u64, den: u32) -> u64
    requires { (size < 2 ^ 30) × (0 < den) }
    ensures down { 2 * (size % den) < den → result ≡ size / den }
    ensures up { den < 2 * (size % den) → result ≡ size / den + 1 }
    ensures even { 2 * (size % den) ≡ den → result ≡ size / den + size / den % 2 }
{
    let den = u64::from(den);
    let quotient = size / den;
    let twice = size % den * 2;
    // A `match` on `twice.cmp(&den)` makes the whole beat slower by a twentieth.
    if twice < den {
        quotient
    } else if den < twice {
        quotient + 1
    } else {
        quotient + quotient % 2
    }
}

/// The number of this size whose sign is against that of `s`.
fn against(s: i64, size: u64) -> i32
    requires { size < 2 ^ 31 }
    ensures below { pos 0 <ℤ s → result ≡ neg_ℤ (pos size) }
    ensures above { s ≤ℤ pos 0 → result ≡ pos size }
{
    // It fits, as is required.
    let size = size as i32;
    if s > 0 { -size } else { size }
}
