//! Lines of numbers: a table, and what is read off one, as its rows and columns.
ghost use Rattle.std.specs.Prelude.{◌≡◌, ℕ, ◌+◌, ◌*◌, ◌^◌, ◌<◌, ◌≤◌, ℤ, pos, unsigned_abs};
ghost use Rattle.std.proofs.Common.{rules, ap};
ghost use Rattle.std.proofs.lemmas.List.{get_or_past};
ghost use Rattle.linear.specs.Tables.{at as entry_of};
ghost use Rattle.linear.specs.Vectors.{Vector};

use crate::table::Table;

/// Numbers at the places 0, 1 and so on: `entries`, each at most `size` in size. Each size fits 64 bits too.
pub trait Line {
    ghost entries: { Self → Vector };

    ghost size: { ℕ };

    /// The number at place `k`.
    fn at(&self, k: usize) -> i64
        ensures { result ≡ entries self.now k };

    ghost within: { (x : Self) (k : ℕ) → unsigned_abs (entries x k) ≤ size };

    ghost size_fits: { size < 2 ^ 63 };

    /// The sizes of this line's numbers.
    final fn sizes(&self) -> SizesOf<'_, Self>
        ensures { result.line.now ≡ self.now }
    {
        SizesOf { line: self }
    }
}

/// A line with only zeros from the place `end` on.
pub trait Ending: Line {
    ghost end: { ℕ };

    /// The place from which on there are only zeros.
    fn end(&self) -> usize
        ensures { result ≡ end };

    ghost ends: { (x : Self) (k : ℕ) → end ≤ k → Self.entries x k ≡ pos 0 };

    ghost end_fits: { end < 2 ^ 64 };

    /// Row `i` of this line as a table whose rows are `stride` apart.
    final fn row(&self, stride: usize, i: usize) -> RowOf<'_, Self>
        ensures { (result.table.now ≡ self.now) × (result.stride ≡ stride) × (result.row ≡ i) }
    {
        RowOf {
            table: self,
            stride,
            row: i,
        }
    }

    /// Column `j` of this line as a table whose rows are `stride` apart.
    final fn column(&self, stride: usize, j: usize) -> ColumnOf<'_, Self>
        ensures { (result.table.now ≡ self.now) × (result.stride ≡ stride) × (result.column ≡ j) }
    {
        ColumnOf {
            table: self,
            stride,
            column: j,
        }
    }
}

impl<const LEN: usize, const BOUND: u32> Line for Table<LEN, BOUND> {
    ghost entries = { λ x. entry_of x.cells };

    ghost size = { BOUND };

    ghost within = { λ x k. x.within k };

    ghost size_fits = { Prim.search rules };

    fn at(&self, k: usize) -> i64 {
        i64::from(self.entry(k))
    }
}

impl<const LEN: usize, const BOUND: u32> Ending for Table<LEN, BOUND> {
    ghost end = { LEN };

    ghost ends = { Prim.search (rules, get_or_past) };

    ghost end_fits = { Prim.search rules };

    fn end(&self) -> usize {
        LEN
    }
}

/// A row of a table whose rows are `stride` apart.
#[derive(Clone, Copy, Debug, PartialEq, Eq)]
pub struct RowOf<'a, X> {
    pub table: &'a X,
    pub stride: usize,
    pub row: usize,
}

impl<X: Ending> Line for RowOf<'_, X> {
    ghost entries = { λ x k. X.entries x.table.now (x.stride * x.row + k) };

    ghost size = { X.size };

    ghost within = { λ x k. X.within x.table.now _ };

    ghost size_fits = { X.size_fits };

    fn at(&self, k: usize) -> i64 {
        cell(self.table, self.stride, self.row, k)
    }
}

impl<X: Ending> Ending for RowOf<'_, X> {
    ghost end = { X.end };

    ghost ends = { λ x k l. X.ends x.table.now _ (Prim.search rules) };

    ghost end_fits = { X.end_fits };

    fn end(&self) -> usize {
        self.table.end()
    }
}

/// A column of a table whose rows are `stride` apart. It need not end, since `stride` may be 0.
#[derive(Clone, Copy, Debug, PartialEq, Eq)]
pub struct ColumnOf<'a, X> {
    pub table: &'a X,
    pub stride: usize,
    pub column: usize,
}

impl<X: Ending> Line for ColumnOf<'_, X> {
    ghost entries = { λ x k. X.entries x.table.now (x.stride * k + x.column) };

    ghost size = { X.size };

    ghost within = { λ x k. X.within x.table.now _ };

    ghost size_fits = { X.size_fits };

    fn at(&self, k: usize) -> i64 {
        cell(self.table, self.stride, k, self.column)
    }
}

/// Entry `j` of row `i` of a table whose rows are `stride` apart. A place that saturates is past the end. The stride stands
/// on the right, where the library's test for overflow divides by it: most strides are constants.
fn cell<X: Ending>(table: &X, stride: usize, i: usize, j: usize) -> i64
    ensures { result ≡ X.entries table.now (stride * i + j) }
{
    table.at(i.saturating_mul(stride).saturating_add(j))
}

/// The sizes of a line's numbers.
#[derive(Clone, Copy, Debug, PartialEq, Eq)]
pub struct SizesOf<'a, X> {
    pub line: &'a X,
}

impl<X: Line> Line for SizesOf<'_, X> {
    ghost entries = { λ x k. pos (unsigned_abs (X.entries x.line.now k)) };

    ghost size = { X.size };

    ghost within = { λ x k. X.within x.line.now k };

    ghost size_fits = { X.size_fits };

    fn at(&self, k: usize) -> i64 {
        self.line.at(k).abs()
    }
}

impl<X: Ending> Ending for SizesOf<'_, X> {
    ghost end = { X.end };

    ghost ends = { λ x k l. ap (λ (z : ℤ). pos (unsigned_abs z)) (X.ends x.line.now k l) };

    ghost end_fits = { X.end_fits };

    fn end(&self) -> usize {
        self.line.end()
    }
}
