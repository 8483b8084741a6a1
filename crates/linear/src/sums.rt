//! Sums of products over lines, exact in 64 bits by the sizes of the lines' numbers.
ghost use Rattle.std.specs.Prelude.{◌≡◌, ◌*◌, ◌^◌, ◌<◌, ◌≤◌, min, pos, unsigned_abs};
ghost use Rattle.linear.specs.Tables.{at as entry_of, column as column_of, grid};
ghost use Rattle.linear.specs.Vectors.{dot as dot_of, spread as spread_of};

use crate::line::{Ending, Line};
use crate::table::Table;

/// The dot product of the first `n` numbers of two lines. Past the end of the first there are only zeros.
pub fn dot<X: Ending, Y: Line>(n: usize, x: &X, y: &Y) -> i64
    requires { X.end * (X.size * Y.size) < 2 ^ 63 }
    ensures value { result ≡ dot_of n (X.entries x.now) (Y.entries y.now) }
    ensures bound { unsigned_abs result ≤ n * (X.size * Y.size) }
    ensures cut { unsigned_abs result ≤ min n X.end * (X.size * Y.size) }
{
    let mut total = 0;
    // Not `map` and `sum`: of a sum of signed numbers the library shows no bound.
    for k in 0..n.min(x.end()) {
        total += x.at(k) * y.at(k);
    }
    total
}

/// Row `i` of a table, whose rows are as far apart as `row` is long, times `row`: the first `n` entries.
pub fn row_dot<const LEN: usize, const A: u32, const STRIDE: usize, const B: u32>(
    n: usize,
    table: &Table<LEN, A>,
    i: usize,
    row: &Table<STRIDE, B>,
) -> i64
    requires { LEN * (A * B) < 2 ^ 63 }
    ensures value { result ≡ dot_of n (grid STRIDE table.now.cells i) (entry_of row.now.cells) }
    ensures bound { unsigned_abs result ≤ n * (A * B) }
    ensures cut { unsigned_abs result ≤ min n LEN * (A * B) }
{
    dot(n, &table.row(STRIDE, i), row)
}

/// Row `i` of a table whose rows are `S` apart, times column `j` of a table whose rows are `T` apart: the first `n` entries.
pub fn row_column<
    const S: usize,
    const T: usize,
    const L: usize,
    const A: u32,
    const M: usize,
    const B: u32,
>(n: usize, x: &Table<L, A>, i: usize, y: &Table<M, B>, j: usize) -> i64
    requires { L * (A * B) < 2 ^ 63 }
    ensures value { result ≡ dot_of n (grid S x.now.cells i) (column_of T y.now.cells j) }
    ensures bound { unsigned_abs result ≤ n * (A * B) }
    ensures cut { unsigned_abs result ≤ min n L * (A * B) }
{
    dot(n, &x.row(S, i), &y.column(T, j))
}

/// The first `n` numbers' sizes, times those of `y`, added up: the most that a dot product with `x` can be
/// where each number of the other line is at most that of `y` in size.
pub fn spread<X: Ending, Y: Line>(n: usize, x: &X, y: &Y) -> i64
    requires { X.end * (X.size * Y.size) < 2 ^ 63 }
    ensures value { result ≡ pos (spread_of n (X.entries x.now) (λ i. unsigned_abs (Y.entries y.now i))) }
    ensures bound { unsigned_abs result ≤ n * (X.size * Y.size) }
    ensures cut { unsigned_abs result ≤ min n X.end * (X.size * Y.size) }
{
    dot(n, &x.sizes(), &y.sizes())
}
