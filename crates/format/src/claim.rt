//! What is to be checked: a design, a set and a sheet that belong together.
ghost use Rattle.std.specs.Prelude.{◌≡◌};

use crate::certificate::Certificate;
use crate::design::Design;
use crate::faces::Faces;

/// The claim that the loop of `design` never leaves the set of `faces`, as `certificate` is to show. The three have one
/// size of the state and one count of faces.
#[derive(Clone, Copy, Debug, PartialEq, Eq)]
pub struct Claim {
    pub design: Design,
    pub faces: Faces,
    pub certificate: Certificate,
    ghost agree: { (faces.n ≡ design.n) × (certificate.n ≡ design.n) × (certificate.count ≡ faces.count) },
}
