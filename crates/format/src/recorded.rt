//! What is to be run again: a design and a set that belong together, and how many beats were recorded of them.
ghost use Rattle.std.specs.Prelude.{◌≡◌};

use crate::design::Design;
use crate::faces::Faces;

/// A recording of `beats` beats of the loop of `design`, and the set that it is to stay in. The two have one size of the
/// state.
#[derive(Clone, Copy, Debug, PartialEq, Eq)]
pub struct Recording {
    pub design: Design,
    pub faces: Faces,
    pub beats: usize,
    ghost agree: { faces.n ≡ design.n },
}
