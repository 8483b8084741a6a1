//! Why a recording is refused, and where.
ghost use Rattle.std.specs.Prelude.{◌≡◌, Some};
ghost use Rattle.format.specs.Refusals.{refusal_line};
ghost use Rattle.format.specs.Faults.{fault_report};

use crate::refusal::Refusal;
use crate::report::Report;
use std::error::Error;
use std::fmt;

/// The first fault of a design, a set and readings. A place is a byte of its own document, counted from 0.
#[derive(Clone, Copy, Debug, PartialEq, Eq)]
pub enum Fault {
    /// The fault of the design or of the set.
    Documents(Refusal),
    /// The readings end at `place`, within a beat.
    Beats { place: usize },
    /// The byte of the readings at `place` belongs to none of them, and is not 0.
    Padding { place: usize },
}

impl Fault {
    /// The number of the rule that the documents break, and where they do.
    pub fn report(self) -> Report
        ensures number { result.number ≡ (fault_report self).0 }
        ensures place { result.place ≡ (fault_report self).1 }
    {
        match self {
            Fault::Documents(refusal) => refusal.report(),
            Fault::Beats { place } | Fault::Padding { place } => Report { number: 1, place },
        }
    }

    /// Which rule the documents break.
    pub fn number(self) -> u8
        ensures { result ≡ (fault_report self).0 }
    {
        self.report().number
    }

    /// The byte of its document at which it does.
    pub fn place(self) -> usize
        ensures { result ≡ (fault_report self).1 }
    {
        self.report().place
    }
}

impl From<Refusal> for Fault {
    ghost use Rattle.format.specs.declared.fault.Fault.TheVariants.{Documents};

    ghost from_gives = { λ refusal fault. fault ≡ Documents refusal };

    fn from(first: Refusal) -> Fault {
        Fault::Documents(first)
    }
}

impl fmt::Display for Fault {
    ghost output = { λ e. Some (refusal_line (fault_report e).0 (fault_report e).1) };

    fn fmt<W: fmt::Write>(&self, f: &mut fmt::Formatter<W>) -> fmt::Result {
        self.report().fmt(f)
    }
}

impl Error for Fault {}
