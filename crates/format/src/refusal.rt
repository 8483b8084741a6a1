//! Why documents are refused, and where.
ghost use Rattle.std.specs.Prelude.{◌≡◌, Some};
ghost use Rattle.format.specs.Refusals.{refusal_line, report as report_of};

use crate::report::Report;
use std::error::Error;
use std::fmt;

/// How many places of a refusal each sensor or face has: one for each number of the state, and some to spare.
pub const PLACES: u8 = 8;

/// Which document, in the order in which they are given.
#[derive(Clone, Copy, Debug, PartialEq, Eq)]
pub enum Document {
    Design,
    Set,
    Sheet,
}

/// The first fault of the documents. A place is a byte of its own document, counted from 0.
#[derive(Clone, Copy, Debug, PartialEq, Eq)]
pub enum Refusal {
    /// The bytes end too early, at `place`, or go on from there.
    Length { document: Document, place: usize },
    /// The number that begins at `place` is out of its range.
    Range { document: Document, place: usize },
}

impl Refusal {
    /// The number of the rule that the documents break, and where they do.
    pub fn report(self) -> Report
        ensures number { result.number ≡ (report_of self).0 }
        ensures place { result.place ≡ (report_of self).1 }
    {
        match self {
            Refusal::Length { place, .. } => Report { number: 1, place },
            Refusal::Range { document, place } => Report {
                number: out_of_range(document),
                place,
            },
        }
    }

    /// Which rule the documents break.
    pub fn number(self) -> u8
        ensures { result ≡ (report_of self).0 }
    {
        self.report().number
    }

    /// The byte of its document at which it does.
    pub fn place(self) -> usize
        ensures { result ≡ (report_of self).1 }
    {
        self.report().place
    }
}

/// The number of the rule that each number of the document is in its range.
fn out_of_range(document: Document) -> u8
    ensures { result ≡ (report_of (Refusal.Range document 0)).0 }
{
    match document {
        Document::Design => 2,
        Document::Set => 3,
        Document::Sheet => 4,
    }
}

impl fmt::Display for Refusal {
    ghost output = { λ e. Some (refusal_line (report_of e).0 (report_of e).1) };

    fn fmt<W: fmt::Write>(&self, f: &mut fmt::Formatter<W>) -> fmt::Result {
        self.report().fmt(f)
    }
}

impl Error for Refusal {}
