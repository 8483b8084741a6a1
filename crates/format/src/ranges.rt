//! The ranges of the three documents. Nothing compares or prints a layout, and each cast here is of a small number.
ghost use Rattle.std.specs.Prelude.{◌≡◌, ◌+◌, ◌/◌, ◌<◌, ◌≤◌, pos, unsigned_abs};
ghost use Rattle.format.specs.declared.refusal.Document.TheVariants.{Design, Set, Sheet};
ghost use Rattle.format.specs.Sizes.{most_numbers, design_count, set_count, sheet_count};
ghost use Rattle.format.specs.Ranges.{from_to};
ghost use Rattle.format.specs.Layouts.{design_range, set_range, sheet_range};

use crate::layout::{Layout, Range};
use crate::refusal::Document;
use crate::sizes::{DesignParts, FACES, NUMBERS, Sizes};

/// What the ranges of a design's numbers depend on: its size, and the denominator that `off` has to be half of.
#[derive(Clone, Copy)]
pub(crate) struct DesignLayout {
    pub n: usize,
    pub over: i64,
    ghost small: { n ≤ most_numbers },
}

impl Layout for DesignLayout {
    ghost kind = { λ _. Design };

    ghost counts = { λ d. design_count d.n };

    ghost ranges = { λ d i. design_range d.n d.over i };

    fn document(&self) -> Document {
        Document::Design
    }

    fn count(&self) -> usize {
        DesignParts::of(self.n).end
    }

    fn range(&self, i: usize) -> Range {
        let at = DesignParts::of(self.n);
        match i {
            0 => from_to(1, NUMBERS as i64),
            1 => from_to(1, 30_000),
            2 => from_to(1, 1_000),
            i if i < at.off => from_to(-2_000, 2_000),
            i if i < at.over_law => from_to(half_up(self.over), 1_000_000),
            i if i < at.k => from_to(1, 1_000),
            i if i < at.noise => from_to(-2_000, 2_000),
            _ => from_to(0, 1_000),
        }
    }
}

/// The range of the numbers from `low` to `high`: shorter at a dozen places than the fields by name.
fn from_to(low: i64, high: i64) -> Range
    ensures { result ≡ from_to low high }
{
    Range { low, high }
}

/// Half of the size of `x`, rounded up.
fn half_up(x: i64) -> i64
    ensures { result ≡ pos ((unsigned_abs x + 1) / 2) }
{
    x.unsigned_abs().div_ceil(2) as i64
}

/// The sizes of a set: on that of the state it depends where a face's row ends and its top stands.
#[derive(Clone, Copy)]
pub(crate) struct SetLayout {
    pub sizes: Sizes,
}

impl Layout for SetLayout {
    ghost kind = { λ _. Set };

    ghost counts = { λ s. set_count s.sizes.n s.sizes.faces };

    ghost ranges = { λ s i. set_range s.sizes.n i };

    fn document(&self) -> Document {
        Document::Set
    }

    fn count(&self) -> usize {
        self.sizes.set_count()
    }

    fn range(&self, i: usize) -> Range {
        let n = self.sizes.n;
        match i {
            0 => from_to(1, FACES as i64),
            i if (i - 1) % (n + 1) < n => from_to(-100, 100),
            _ => from_to(0, 3_000_000),
        }
    }
}

/// The sizes of a sheet. Its ranges depend on nothing.
#[derive(Clone, Copy)]
pub(crate) struct SheetLayout {
    pub sizes: Sizes,
}

impl Layout for SheetLayout {
    ghost kind = { λ _. Sheet };

    ghost counts = { λ s. sheet_count s.sizes.n s.sizes.faces };

    ghost ranges = { λ _ i. sheet_range i };

    fn document(&self) -> Document {
        Document::Sheet
    }

    fn count(&self) -> usize {
        self.sizes.sheet_count()
    }

    fn range(&self, i: usize) -> Range {
        match i {
            0 => from_to(1, 100),
            _ => from_to(0, 500_000_000),
        }
    }
}
