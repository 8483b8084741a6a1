//! What is told of a refusal.
ghost use Rattle.std.specs.Prelude.{Some};
ghost use Rattle.format.specs.Refusals.{refusal_line};

use std::fmt;

/// Which rule is broken, by the number that is printed, and where.
#[derive(Clone, Copy, Debug, PartialEq, Eq)]
pub struct Report {
    pub number: u8,
    pub place: usize,
}

impl fmt::Display for Report {
    ghost output = { λ r. Some (refusal_line r.number r.place) };

    fn fmt<W: fmt::Write>(&self, f: &mut fmt::Formatter<W>) -> fmt::Result {
        let Report { number, place } = *self;
        write!(f, "refused {number} at {place}")
    }
}
