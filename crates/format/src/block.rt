//! Where the numbers of a table stand in a document. Nothing compares or prints a block.
ghost use Rattle.std.specs.Prelude.{◌<◌};

/// `rows` rows of `columns` numbers: entry `stride * i + j` of the table is number `base + pitch * i + j` of the document.
#[derive(Clone, Copy)]
pub(crate) struct Block {
    pub base: usize,
    pub rows: usize,
    pub columns: usize,
    pub pitch: usize,
    pub stride: usize,
    ghost apart: { 0 < stride },
}
