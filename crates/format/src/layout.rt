//! One search for the first number out of its range, whatever the document.
ghost use Rattle.std.specs.Prelude.{◌≡◌, ℕ, ◌*◌, ◌≤◌, length, MatchBool, MatchOption};
ghost use Rattle.format.specs.declared.layout.Range.{Range};
ghost use Rattle.format.specs.declared.refusal.Document.{Document};
ghost use Rattle.format.specs.Ranges.{In, AllIn};
ghost use Rattle.format.specs.Refusals.{FirstOut};

use crate::number::number_at;
use crate::refusal::Document;

/// The numbers from `low` to `high`.
#[derive(Clone, Copy, Debug, PartialEq, Eq)]
pub struct Range {
    pub low: i64,
    pub high: i64,
}

impl Range {
    /// Whether the number is one of these.
    fn contains(self, x: i64) -> bool
        ensures { MatchBool result (In self x) (In self x → ⊥) }
    {
        (self.low..=self.high).contains(&x)
    }
}

/// A document whose sizes are known: which one it is, how many numbers it has, and the range of each.
pub trait Layout {
    ghost kind: { Self → Document };

    ghost counts: { Self → ℕ };

    ghost ranges: { Self → ℕ → Range };

    fn document(&self) -> Document
        ensures { result ≡ kind self.now };

    fn count(&self) -> usize
        ensures { result ≡ counts self.now };

    fn range(&self, i: usize) -> Range
        ensures { result ≡ ranges self.now i };
}

/// The first of the document's numbers that is out of its range.
pub(crate) fn first_out<L: Layout>(layout: &L, bytes: &[u8]) -> Option<usize>
    requires { 8 * L.counts layout.now ≤ length bytes.now }
    ensures { MatchOption result (AllIn (L.ranges layout.now) bytes.now (L.counts layout.now)) (λ k. FirstOut (L.ranges layout.now) bytes.now (L.counts layout.now) (8 * k)) }
{
    (0..layout.count()).find(|i| {
        let x = number_at(bytes, *i);
        !layout.range(*i).contains(x)
    })
}
