//! Reading a design, a set and a sheet that are given together.
ghost use Rattle.format.specs.Reading.{Reads, OneAnswer, Places};
ghost use Rattle.format.specs.Refusals.{Exact};

use crate::claim::Claim;
use crate::refusal::Refusal;
use crate::sound::check;

/// The claim that the documents make, lent apart as they are had, or their first fault.
pub fn read_claim(design: &[u8], set: &[u8], sheet: &[u8]) -> Result<Claim, Refusal>
    ensures { Reads design.now set.now sheet.now result }
{
    let sheet = check(design, set, sheet)?;
    let design = sheet.set.design.read();
    let faces = sheet.set.read();
    let certificate = sheet.read();
    Ok(Claim {
        design,
        faces,
        certificate,
    })
}

/// Documents have one first fault at most and sound ones have none, so that one answer only keeps the promise of
/// `read_claim`; and what a claim holds stands part by part where the documents have it.
pub fn reading_is_exact()
    ensures exact { Exact }
    ensures one_answer { OneAnswer }
    ensures places { Places }
{}
