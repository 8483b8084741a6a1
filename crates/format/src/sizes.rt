//! The largest sizes, those of the tables, where the parts of the documents begin, and how many numbers they have. Nothing
//! compares or prints a value of these types.
ghost use Rattle.std.specs.Prelude.{◌≡◌, ℕ, ◌≤◌, MatchResult};
ghost use Rattle.std.specs.Option.{option_map};
ghost use Rattle.std.specs.Result.{result_ok};
ghost use Rattle.format.specs.Reading.{both, size as size_of};
ghost use Rattle.format.specs.Sizes.{most_numbers, most_faces, b_at, off_at, over_law_at, k_at, noise_at, w_at, v_at, design_count, set_count, sheet_count};

use crate::number::number_at;
use crate::refusal::{Document, Refusal};
pub use linear::row::{NUMBERS, Row};

/// The most faces of a set. The rows of a table over the faces are as far apart.
pub const FACES: usize = 24;

/// Rows over the state, for each number of the state.
pub const NUMBERS_BY_NUMBERS: usize = NUMBERS * NUMBERS;

/// Rows over the state, for each face.
pub const FACES_BY_NUMBERS: usize = FACES * NUMBERS;

/// Rows over the faces, for each face.
pub const FACES_BY_FACES: usize = FACES * FACES;

/// Rows over the faces, for each sign.
pub const SIGNS_BY_FACES: usize = 2 * FACES;

/// Rows over the faces, for each number of the state and sign.
pub const SIGNED_NUMBERS_BY_FACES: usize = 2 * NUMBERS * FACES;

/// The size that the document's first number gives, where that is one from 1 to `most`, or its refusal.
pub(crate) fn size(document: Document, bytes: &[u8], most: usize) -> Result<usize, Refusal>
    ensures value { result_ok result ≡ size_of most bytes.now }
    ensures cases { MatchResult result (λ n. (1 ≤ n) × (n ≤ most)) (λ e. e ≡ Refusal.Range document 0) }
{
    let refusal = Refusal::Range { document, place: 0 };
    if bytes.len() < 8 {
        return Err(refusal);
    }
    usize::try_from(number_at(bytes, 0))
        .ok()
        .filter(|n| (1..=most).contains(n))
        .ok_or(refusal)
}

/// Where the parts of a design begin after its plant's matrix, and where it ends: `b`, `off`, the law's denominator, its
/// gains, and the noise.
#[derive(Clone, Copy)]
pub(crate) struct DesignParts {
    pub b: usize,
    pub off: usize,
    pub over_law: usize,
    pub k: usize,
    pub noise: usize,
    pub end: usize,
}

impl DesignParts {
    /// The parts for a state of `n` numbers.
    pub(crate) fn of(n: usize) -> DesignParts
        requires { n ≤ most_numbers }
        ensures b { result.b ≡ b_at n }
        ensures off { result.off ≡ off_at n }
        ensures over_law { result.over_law ≡ over_law_at n }
        ensures k { result.k ≡ k_at n }
        ensures noise { result.noise ≡ noise_at n }
        ensures end { result.end ≡ design_count n }
    {
        let b = 3 + n * n;
        let off = b + n;
        let over_law = off + n;
        let k = over_law + 1;
        let noise = k + n;
        DesignParts {
            b,
            off,
            over_law,
            k,
            noise,
            end: noise + n,
        }
    }
}

/// Where the parts of a sheet begin after its multipliers for the faces: those for the signs, and those for the numbers.
#[derive(Clone, Copy)]
pub(crate) struct SheetParts {
    pub w: usize,
    pub v: usize,
}

impl SheetParts {
    /// The parts for a set of `faces` faces.
    pub(crate) fn of(faces: usize) -> SheetParts
        requires { faces ≤ most_faces }
        ensures w { result.w ≡ w_at faces }
        ensures v { result.v ≡ v_at faces }
    {
        let w = 1 + faces * faces;
        SheetParts {
            w,
            v: w + 2 * faces,
        }
    }
}

/// The size of the state and the count of the faces.
#[derive(Clone, Copy)]
pub(crate) struct Sizes {
    pub n: usize,
    pub faces: usize,
    ghost sized: { (1 ≤ n) × (n ≤ most_numbers) × (1 ≤ faces) × (faces ≤ most_faces) },
}

impl Sizes {
    /// What the first numbers of a design and a set give, once both can be told.
    pub(crate) fn of(design: &[u8], set: &[u8]) -> Option<Sizes>
        ensures { (f : ℕ → ℕ → ℕ) → option_map (λ z. f z.n z.faces) result ≡ both f (size_of most_numbers design.now) (size_of most_faces set.now) }
    {
        let n = size(Document::Design, design, NUMBERS).ok()?;
        let faces = size(Document::Set, set, FACES).ok()?;
        Some(Sizes { n, faces })
    }

    /// How many numbers a set has.
    pub(crate) fn set_count(self) -> usize
        ensures { result ≡ set_count self.n self.faces }
    {
        1 + self.faces * (self.n + 1)
    }

    /// How many numbers a sheet has.
    pub(crate) fn sheet_count(self) -> usize
        ensures { result ≡ sheet_count self.n self.faces }
    {
        let Sizes { n, faces } = self;
        SheetParts::of(faces).v + 2 * n * faces
    }
}
