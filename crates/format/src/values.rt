//! The numbers of the three documents. A size is cast as it is, since it is a small number. Sets and sheets have their
//! sizes as fields beside their arrays; where they are counted, the two are made `Sizes`.
ghost use Rattle.std.specs.Prelude.{◌≡◌, ◌+◌, ◌/◌, ◌%◌, ◌<◌};
ghost use Rattle.linear.specs.Tables.{grid as grid_of};
ghost use Rattle.format.specs.Sizes.{design_count, set_count, sheet_count};
ghost use Rattle.format.specs.Values.{law_number, design_number, set_number, sheet_number};

use crate::certificate::Certificate;
use crate::design::Design;
use crate::faces::Faces;
use crate::sizes::{DesignParts, FACES, NUMBERS, SheetParts, Sizes};
use crate::write::Numbered;
use linear::line::{Ending, Line};
use linear::table::Table;

/// Entry `k` of a table whose rows are `stride` apart, counted over the first `columns` of each row.
fn counted<const LEN: usize, const BOUND: u32>(
    table: &Table<LEN, BOUND>,
    stride: usize,
    columns: usize,
    k: usize,
) -> i64
    requires { 0 < columns }
    ensures { result ≡ grid_of stride table.now.cells (k / columns) (k % columns) }
{
    table.row(stride, k / columns).at(k % columns)
}

impl Numbered for Design {
    ghost counts = { λ d. design_count d.n };

    ghost numbers = { λ d i. design_number d i };

    fn count(&self) -> usize {
        DesignParts::of(self.n).end
    }

    fn number(&self, i: usize) -> i64 {
        let at = DesignParts::of(self.n);
        match i {
            0 => self.n as i64,
            1 => i64::from(self.limit),
            2 => i64::from(self.plant.over),
            i if i < at.b => counted(&self.plant.a, NUMBERS, self.n, i - 3),
            i if i < at.off => self.plant.b.at(i - at.b),
            i if i < at.over_law => self.plant.off.at(i - at.off),
            _ => self.law_number(i),
        }
    }
}

impl Design {
    /// Number `i` of the design, from the law's denominator on.
    fn law_number(&self, i: usize) -> i64
        ensures { result ≡ law_number self.now i }
    {
        let at = DesignParts::of(self.n);
        if i < at.k {
            i64::from(self.law.over_law)
        } else if i < at.noise {
            self.law.k.at(i - at.k)
        } else {
            self.noise.at(i - at.noise)
        }
    }
}

impl Numbered for Faces {
    ghost counts = { λ s. set_count s.n s.count };

    ghost numbers = { λ s i. set_number s i };

    fn count(&self) -> usize {
        let sizes = Sizes {
            n: self.n,
            faces: self.count,
        };
        sizes.set_count()
    }

    fn number(&self, i: usize) -> i64 {
        if i < 1 {
            return self.count as i64;
        }
        let f = (i - 1) / (self.n + 1);
        let j = (i - 1) % (self.n + 1);
        if j < self.n {
            self.h.row(NUMBERS, f).at(j)
        } else {
            self.tops.at(f)
        }
    }
}

impl Numbered for Certificate {
    ghost counts = { λ t. sheet_count t.n t.count };

    ghost numbers = { λ t i. sheet_number t i };

    fn count(&self) -> usize {
        let sizes = Sizes {
            n: self.n,
            faces: self.count,
        };
        sizes.sheet_count()
    }

    fn number(&self, i: usize) -> i64 {
        let count = self.count;
        let at = SheetParts::of(count);
        match i {
            0 => i64::from(self.scale),
            i if i < at.w => counted(&self.m, FACES, count, i - 1),
            i if i < at.v => counted(&self.w, FACES, count, i - at.w),
            _ => counted(&self.v, FACES, count, i - at.v),
        }
    }
}
