//! Writing a document, by its numbers: a design, a set and a sheet.
ghost use Rattle.std.specs.Prelude.{◌≡◌, ℕ, ◌^◌, ◌<◌, ℤ, IfOk};
ghost use Rattle.format.specs.RoundTrip.{ReadsBack, WritesBack};
ghost use Rattle.format.specs.Sizes.{design_count, set_count, sheet_count};
ghost use Rattle.format.specs.Spelling.{Spells};
ghost use Rattle.format.specs.Values.{design_number, set_number, sheet_number};

use crate::certificate::Certificate;
use crate::design::Design;
use crate::faces::Faces;
use std::alloc::{AllocError, Global};

/// A value that is written as a document: how many numbers that has, and which.
pub trait Numbered {
    ghost counts: { Self → ℕ };

    ghost numbers: { Self → ℕ → ℤ };

    fn count(&self) -> usize
        ensures value { result ≡ counts self.now }
        ensures bound { result < 2 ^ 32 };

    fn number(&self, i: usize) -> i64
        ensures { result ≡ numbers self.now i };
}

/// The bytes of a document.
pub fn write<D: Numbered>(document: &D, heap: Global) -> Result<Vec<u8>, AllocError>
    ensures { IfOk result (λ v. Spells v.items (D.counts document.now) (D.numbers document.now)) }
{
    let mut bytes = Vec::new(heap);
    // There is no slice of the numbers: they are had by their index.
    for i in 0..document.count() {
        bytes.extend_from_slice(&document.number(i).to_le_bytes())?;
    }
    Ok(bytes)
}

/// The bytes of a design.
pub fn write_design(design: &Design, heap: Global) -> Result<Vec<u8>, AllocError>
    ensures { IfOk result (λ v. Spells v.items (design_count design.now.n) (design_number design.now)) }
{
    write(design, heap)
}

/// The bytes of a set.
pub fn write_faces(faces: &Faces, heap: Global) -> Result<Vec<u8>, AllocError>
    ensures { IfOk result (λ v. Spells v.items (set_count faces.now.n faces.now.count) (set_number faces.now)) }
{
    write(faces, heap)
}

/// The bytes of a sheet.
pub fn write_certificate(certificate: &Certificate, heap: Global) -> Result<Vec<u8>, AllocError>
    ensures { IfOk result (λ v. Spells v.items (sheet_count certificate.now.n certificate.now.count) (sheet_number certificate.now)) }
{
    write(certificate, heap)
}

/// What is written of a claim reads back as that claim, and what is read is written back byte by byte.
pub fn writing_is_exact()
    ensures reads_back { ReadsBack }
    ensures writes_back { WritesBack }
{}
