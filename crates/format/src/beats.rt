//! Whether a design, a set and readings that are given together can be read.
ghost use Rattle.std.specs.Prelude.{◌≡◌, ◌%◌, ◌≤◌, length, MatchOption};
ghost use Rattle.linear.specs.Rows.{most_numbers};
ghost use Rattle.format.specs.Checks.{Answers, Passed};
ghost use Rattle.format.specs.Recordings.{frame, Padded, FirstSpoilt, readings_check, recording_form, recording_check};

use crate::fault::Fault;
use crate::faults::fits;
use crate::refusal::Document;
use crate::sizes::{DesignParts, Sizes, size};
use crate::sound::{SoundSet, check_design, check_set};
use linear::row::NUMBERS;

/// The bytes of one number of the state in a beat: a reading of each sensor, then padding.
pub const GROUP: usize = 9;

/// How many of them are the readings'.
const CARRIED: usize = 6;

/// The first byte of the padding that is not 0.
fn first_spoilt(bytes: &[u8]) -> Option<usize>
    ensures { MatchOption result (Padded bytes.now (length bytes.now)) (FirstSpoilt bytes.now) }
{
    (0..bytes.len()).find(|&p| p % GROUP >= CARRIED && bytes[p] != 0)
}

/// That the readings are whole beats of a state of size `n` whose padding is 0, or where they are not.
fn check_readings(readings: &[u8], n: usize) -> Result<(), Fault>
    requires { (1 ≤ n) × (n ≤ most_numbers) }
    ensures { Passed (readings_check readings.now n) result }
{
    if !readings.len().is_multiple_of(GROUP * n) {
        return Err(Fault::Beats {
            place: readings.len(),
        });
    }
    match first_spoilt(readings) {
        Some(place) => Err(Fault::Padding { place }),
        None => Ok(()),
    }
}

/// That the design and the set are as long as the sizes in their first numbers say, and the readings in form, or the
/// first fault of these. Of `check_lengths` it has two lines, but promises a step of a chain.
fn check_form(design: &[u8], set: &[u8], readings: &[u8]) -> Result<(), Fault>
    ensures { Passed (recording_form design.now set.now readings.now) result }
{
    let n = size(Document::Design, design, NUMBERS).ok();
    let sizes = Sizes::of(design, set);
    fits(Document::Design, design, n.map(|n| DesignParts::of(n).end))?;
    fits(Document::Set, set, sizes.map(Sizes::set_count))?;
    match n {
        Some(n) => check_readings(readings, n),
        None => Ok(()),
    }
}

/// The set, given with the design, or the first fault of the documents.
pub(crate) fn check_recording<'a>(
    design: &'a [u8],
    set: &'a [u8],
    readings: &[u8],
) -> Result<SoundSet<'a>, Fault>
    ensures { Answers (recording_check design.now set.now readings.now) (λ s. (s.design.bytes.now ≡ design.now) × (s.bytes.now ≡ set.now) × (length readings.now % frame s.design.n ≡ 0)) result }
{
    check_form(design, set, readings)?;
    let design = check_design(design)?;
    Ok(check_set(design, set)?)
}
