//! Numbers of a document that belong to one table.
ghost use Rattle.std.specs.Prelude.{◌≡◌, ℕ, ◌+◌, ◌*◌, ◌/◌, ◌%◌, ◌^◌, ◌<◌, ◌≤◌, length, pos, ◌≤ℤ◌};
ghost use Rattle.linear.specs.Tables.{at as entry_of, grid as grid_of};
ghost use Rattle.format.specs.Blocks.{Blank};
ghost use Rattle.format.specs.Numbers.{number as number_of};
ghost use Rattle.format.specs.Slots.{place as place_of, slot as slot_of, Each, Present, Small, Numbers, Above};

use crate::block::Block;
use crate::number::number_at;
use linear::table::Table;

impl Block {
    /// The number of the document that stands in row `i` and column `j`.
    fn place(self, i: usize, j: usize) -> usize
        requires { place_of self i j < 2 ^ 64 }
        ensures { result ≡ place_of self i j }
    {
        self.base + i * self.pitch + j
    }

    /// What cell `s` of the block's table holds.
    fn slot(self, bytes: &[u8], s: usize) -> i64
        requires { Each self (Present bytes.now) }
        ensures { result ≡ slot_of bytes.now self s }
    {
        let i = s / self.stride;
        let j = s % self.stride;
        if i < self.rows && j < self.columns {
            number_at(bytes, self.place(i, j))
        } else {
            0
        }
    }
}

/// The table of a block whose numbers are known to be at most `BOUND` in size. `narrow`, here and below, is a fact about a
/// type, decided where that is written out.
pub(crate) fn read_block<const LEN: usize, const BOUND: u32>(
    bytes: &[u8],
    block: Block,
) -> Table<LEN, BOUND>
    requires narrow { BOUND < 2 ^ 31 }
    requires there { Each block (Present bytes.now) }
    requires small { Each block (Small BOUND bytes.now) }
    ensures { (s : ℕ) → s < LEN → entry_of result.cells s ≡ slot_of bytes.now block s }
{
    // Not `array::from_fn`, which would ask each caller for a proof that an array of `LEN` fits memory.
    let mut cells = [0i32; LEN];
    for (s, cell) in cells.iter_mut().enumerate() {
        // The cast loses nothing, by `small` and `narrow`.
        *cell = block.slot(bytes, s) as i32;
    }
    Table { cells }
}

/// The table of `count` numbers from number `base` on.
pub(crate) fn read_row<const LEN: usize, const BOUND: u32>(
    bytes: &[u8],
    base: usize,
    count: usize,
) -> Table<LEN, BOUND>
    requires room { (count ≤ LEN) × (BOUND < 2 ^ 31) }
    requires there { 8 * (base + count) ≤ length bytes.now }
    requires small { Numbers base count (Small BOUND bytes.now) }
    ensures each { (k : ℕ) → k < count → entry_of result.cells k ≡ number_of bytes.now (base + k) }
    ensures blank { Blank 1 count 1 result.cells }
    ensures above { Numbers base count (Above bytes.now) → (s : ℕ) → pos 0 ≤ℤ entry_of result.cells s }
{
    read_grid(bytes, base, count, 1, 1)
}

/// The table of `rows` rows of `columns` numbers from number `base` on, its rows `stride` apart. A block would leave the
/// pitch open, which is `columns` here.
pub(crate) fn read_grid<const LEN: usize, const BOUND: u32>(
    bytes: &[u8],
    base: usize,
    rows: usize,
    columns: usize,
    stride: usize,
) -> Table<LEN, BOUND>
    requires room { (stride * rows ≤ LEN) × ((0 < columns) × ((columns ≤ stride) × (BOUND < 2 ^ 31))) }
    requires there { 8 * (base + rows * columns) ≤ length bytes.now }
    requires small { Numbers base (rows * columns) (Small BOUND bytes.now) }
    ensures each { (k : ℕ) → k < rows * columns → grid_of stride result.cells (k / columns) (k % columns) ≡ number_of bytes.now (base + k) }
    ensures blank { Blank stride rows columns result.cells }
    ensures above { Numbers base (rows * columns) (Above bytes.now) → (s : ℕ) → pos 0 ≤ℤ entry_of result.cells s }
{
    read_block(
        bytes,
        Block {
            base,
            rows,
            columns,
            pitch: columns,
            stride,
        },
    )
}
