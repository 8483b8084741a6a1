//! The first fault of a document: its length, or a number out of its range.
ghost use Rattle.std.specs.Prelude.{◌≡◌, ℕ, ◌*◌, ◌≤◌, length, MatchResult};
ghost use Rattle.format.specs.Ranges.{AllIn};
ghost use Rattle.format.specs.Refusals.{Fits, Misfit, FirstOut};

use crate::layout::{Layout, first_out};
use crate::refusal::{Document, Refusal};

/// That the document is as long as its extent says, or where it ends too early or goes on. While the extent cannot be
/// told, one number is asked for.
pub(crate) fn fits(document: Document, bytes: &[u8], extent: Option<usize>) -> Result<(), Refusal>
    ensures { MatchResult result (λ _. Fits extent bytes.now) (λ e. (place : ℕ) × (e ≡ Refusal.Length document place) × Misfit extent bytes.now place) }
{
    // A product that saturates is more than the length of any slice.
    let asked = extent.unwrap_or(1).saturating_mul(8);
    if bytes.len() == asked || extent.is_none() && bytes.len() > asked {
        return Ok(());
    }
    Err(Refusal::Length {
        document,
        place: bytes.len().min(asked),
    })
}

/// That the document's numbers are in their ranges, or where the first begins that is not.
pub(crate) fn in_range<L: Layout>(layout: &L, bytes: &[u8]) -> Result<(), Refusal>
    requires { 8 * L.counts layout.now ≤ length bytes.now }
    ensures { MatchResult result (λ _. AllIn (L.ranges layout.now) bytes.now (L.counts layout.now)) (λ e. (place : ℕ) × (e ≡ Refusal.Range (L.kind layout.now) place) × FirstOut (L.ranges layout.now) bytes.now (L.counts layout.now) place) }
{
    match first_out(layout, bytes) {
        None => Ok(()),
        Some(k) => Err(Refusal::Range {
            document: layout.document(),
            place: 8 * k,
        }),
    }
}
