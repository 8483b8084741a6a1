//! Sound documents: as long as their sizes say, and each number in its range; or their first fault. Nothing compares or
//! prints one: it is for what reads it.
ghost use Rattle.std.specs.Prelude.{◌≡◌, MatchResult};
ghost use Rattle.format.specs.Refusals.{Sound, Refused, Whole, Ranged, FirstNumber};
ghost use Rattle.format.specs.Parts.{DesignBytes, SetBytes, SheetBytes};
ghost use Rattle.format.specs.declared.refusal.Document.{Document};
ghost use Rattle.format.specs.Reading.{claim_given as given, design_given, set_given, sheet_given};

use crate::faults::{fits, in_range};
use crate::number::number_at;
use crate::ranges::{DesignLayout, SetLayout, SheetLayout};
use crate::refusal::{Document, Refusal};
use crate::sizes::{DesignParts, FACES, NUMBERS, Sizes, size};

/// The bytes of a sound design, of a state of `n` numbers.
#[derive(Clone, Copy)]
pub(crate) struct SoundDesign<'a> {
    pub n: usize,
    pub bytes: &'a [u8],
    ghost known: { DesignBytes n bytes.now },
}

/// The bytes of a sound set of `faces` faces, given with the design.
#[derive(Clone, Copy)]
pub(crate) struct SoundSet<'a> {
    pub design: SoundDesign<'a>,
    pub faces: usize,
    pub bytes: &'a [u8],
    ghost known: { SetBytes design.n faces bytes.now },
}

/// The bytes of a sound sheet, given with the set.
#[derive(Clone, Copy)]
pub(crate) struct SoundSheet<'a> {
    pub set: SoundSet<'a>,
    pub bytes: &'a [u8],
    ghost known: { SheetBytes set.design.n set.faces bytes.now },
}

/// That each document is as long as the sizes in the first numbers say, or the first that ends too early or goes on.
fn check_lengths(design: &[u8], set: &[u8], sheet: &[u8]) -> Result<(), Refusal>
    ensures { MatchResult result (λ _. (e : Document) → Whole (given design.now set.now sheet.now e)) (Refused (given design.now set.now sheet.now)) }
{
    let sizes = Sizes::of(design, set);
    fits(
        Document::Design,
        design,
        size(Document::Design, design, NUMBERS)
            .ok()
            .map(|n| DesignParts::of(n).end),
    )?;
    fits(Document::Set, set, sizes.map(Sizes::set_count))?;
    fits(Document::Sheet, sheet, sizes.map(Sizes::sheet_count))
}

/// The sound design, or its first number that is out of its range.
pub(crate) fn check_design(bytes: &[u8]) -> Result<SoundDesign<'_>, Refusal>
    requires { Whole (design_given bytes.now) }
    ensures { MatchResult result (λ d. (d.bytes.now ≡ bytes.now) × Ranged (design_given bytes.now)) (FirstNumber Document.Design (design_given bytes.now)) }
{
    let n = size(Document::Design, bytes, NUMBERS)?;
    let over = number_at(bytes, 2);
    in_range(&DesignLayout { n, over }, bytes)?;
    Ok(SoundDesign { n, bytes })
}

/// The sound set, or its first number that is out of its range.
pub(crate) fn check_set<'a>(
    design: SoundDesign<'a>,
    bytes: &'a [u8],
) -> Result<SoundSet<'a>, Refusal>
    requires { Whole (set_given design.bytes.now bytes.now) }
    ensures { MatchResult result (λ s. (s.design.bytes.now ≡ design.entry.bytes.now) × (s.bytes.now ≡ bytes.now) × Ranged (set_given design.entry.bytes.now bytes.now)) (FirstNumber Document.Set (set_given design.entry.bytes.now bytes.now)) }
{
    let faces = size(Document::Set, bytes, FACES)?;
    let sizes = Sizes { n: design.n, faces };
    in_range(&SetLayout { sizes }, bytes)?;
    Ok(SoundSet {
        design,
        faces,
        bytes,
    })
}

/// The sound sheet, or its first number that is out of its range.
fn check_sheet<'a>(set: SoundSet<'a>, bytes: &'a [u8]) -> Result<SoundSheet<'a>, Refusal>
    requires { Whole (sheet_given set.design.bytes.now set.bytes.now bytes.now) }
    ensures { MatchResult result (λ t. (t.set.design.bytes.now ≡ set.entry.design.bytes.now) × (t.set.bytes.now ≡ set.entry.bytes.now) × (t.bytes.now ≡ bytes.now) × Ranged (sheet_given set.entry.design.bytes.now set.entry.bytes.now bytes.now)) (FirstNumber Document.Sheet (sheet_given set.entry.design.bytes.now set.entry.bytes.now bytes.now)) }
{
    let sizes = Sizes {
        n: set.design.n,
        faces: set.faces,
    };
    in_range(&SheetLayout { sizes }, bytes)?;
    Ok(SoundSheet { set, bytes })
}

/// The documents, of which each is given with the one before, or their first fault.
pub(crate) fn check<'a>(
    design: &'a [u8],
    set: &'a [u8],
    sheet: &'a [u8],
) -> Result<SoundSheet<'a>, Refusal>
    ensures { MatchResult result (λ t. Sound (given design.now set.now sheet.now) × (t.set.design.bytes.now ≡ design.now) × (t.set.bytes.now ≡ set.now) × (t.bytes.now ≡ sheet.now)) (Refused (given design.now set.now sheet.now)) }
{
    check_lengths(design, set, sheet)?;
    check_sheet(check_set(check_design(design)?, set)?, sheet)
}
