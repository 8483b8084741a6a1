//! The values of sound documents. Each says its own sizes: the types of the three have nothing in common.
ghost use Rattle.std.specs.Prelude.{◌≡◌, ◌+◌, ◌*◌, ◌≤◌};
ghost use Rattle.format.specs.Parts.{PlantOf, LawOf, RowsOf, TopsOf, MultipliersOf};
ghost use Rattle.format.specs.Sizes.{most_faces, design_count, set_count, sheet_count};
ghost use Rattle.format.specs.Spelling.{Spells};
ghost use Rattle.format.specs.Values.{design_number, set_number, sheet_number};

use crate::block::Block;
use crate::cells::{read_block, read_grid, read_row};
use crate::certificate::Certificate;
use crate::design::{Design, Law, Plant};
use crate::faces::Faces;
use crate::number::natural_at;
use crate::sizes::{DesignParts, FACES, FACES_BY_NUMBERS, NUMBERS, SheetParts};
use crate::sound::{SoundDesign, SoundSet, SoundSheet};
use linear::table::Table;

impl SoundDesign<'_> {
    /// Its plant.
    fn plant(&self) -> Plant
        ensures { PlantOf self.now.n self.now.bytes.now result }
    {
        let SoundDesign { n, bytes } = *self;
        let at = DesignParts::of(n);
        let over = natural_at(bytes, 2);
        let a = read_grid(bytes, 3, n, n, NUMBERS);
        let b = read_row(bytes, at.b, n);
        let off = read_row(bytes, at.off, n);
        Plant { over, a, b, off }
    }

    /// Its law.
    fn law(&self) -> Law
        ensures { LawOf self.now.n self.now.bytes.now result }
    {
        let SoundDesign { n, bytes } = *self;
        let at = DesignParts::of(n);
        let over_law = natural_at(bytes, at.over_law);
        let k = read_row(bytes, at.k, n);
        Law { over_law, k }
    }

    /// The design.
    pub(crate) fn read(&self) -> Design
        ensures n { result.n ≡ self.now.n }
        ensures spells { Spells self.now.bytes.now (design_count result.n) (design_number result) }
    {
        let SoundDesign { n, bytes } = *self;
        let limit = natural_at(bytes, 1);
        let plant = self.plant();
        let law = self.law();
        let noise = read_row(bytes, DesignParts::of(n).noise, n);
        Design {
            n,
            limit,
            plant,
            law,
            noise,
        }
    }
}

impl SoundSet<'_> {
    /// The rows of its faces: each is followed by its top.
    fn rows(&self) -> Table<FACES_BY_NUMBERS, 100>
        ensures { RowsOf self.now.design.n self.now.faces self.now.bytes.now result.cells }
    {
        let n = self.design.n;
        let block = Block {
            base: 1,
            rows: self.faces,
            columns: n,
            pitch: n + 1,
            stride: NUMBERS,
        };
        read_block(self.bytes, block)
    }

    /// The tops of its faces: each follows its row. A block as that of the rows, but for each of its numbers.
    fn tops(&self) -> Table<FACES, 3_000_000>
        ensures { TopsOf self.now.design.n self.now.faces self.now.bytes.now result.cells }
    {
        let n = self.design.n;
        let block = Block {
            base: 1 + n,
            rows: self.faces,
            columns: 1,
            pitch: n + 1,
            stride: 1,
        };
        read_block(self.bytes, block)
    }

    /// The set.
    pub(crate) fn read(&self) -> Faces
        ensures n { result.n ≡ self.now.design.n }
        ensures count { result.count ≡ self.now.faces }
        ensures spells { Spells self.now.bytes.now (set_count result.n result.count) (set_number result) }
    {
        let h = self.rows();
        let tops = self.tops();
        Faces {
            n: self.design.n,
            count: self.faces,
            h,
            tops,
        }
    }
}

impl SoundSheet<'_> {
    /// `rows` rows of multipliers of the faces, from number `base` on.
    fn multipliers<const LEN: usize>(&self, base: usize, rows: usize) -> Table<LEN, 500_000_000>
        requires { (most_faces * rows ≤ LEN) × ((1 ≤ base) × (base + rows * self.now.set.faces ≤ sheet_count self.now.set.design.n self.now.set.faces)) }
        ensures { MultipliersOf base rows self.now.set.faces self.now.bytes.now result.cells }
    {
        read_grid(self.bytes, base, rows, self.set.faces, FACES)
    }

    /// The sheet.
    pub(crate) fn read(&self) -> Certificate
        ensures n { result.n ≡ self.now.set.design.n }
        ensures count { result.count ≡ self.now.set.faces }
        ensures spells { Spells self.now.bytes.now (sheet_count result.n result.count) (sheet_number result) }
    {
        let n = self.set.design.n;
        let count = self.set.faces;
        let at = SheetParts::of(count);
        let scale = natural_at(self.bytes, 0);
        let m = self.multipliers(1, count);
        let w = self.multipliers(at.w, 2);
        let v = self.multipliers(at.v, 2 * n);
        Certificate {
            n,
            count,
            scale,
            m,
            w,
            v,
        }
    }
}
