//! A recording that is run beat by beat.
ghost use Rattle.std.specs.Prelude.{◌≡◌, ◌*◌, ◌≤◌, length};
ghost use Rattle.format.specs.Recordings.{frame};
ghost use Rattle.feedback.specs.Promises.{AlarmsRun, OneRun};
ghost use Rattle.feedback.specs.Runs.{Ran, Runs};

use crate::beat::beat;
use crate::outcome::Outcome;
use format::design::Design;
use format::recording::{Fault, GROUP, read_recording, readings_of};
use voter::Alarms;

/// The first beats of a recording, one for each place of `out`, from alarms that know nothing yet.
fn run_beats(design: &Design, readings: &[u8], out: &mut [Outcome])
    requires { frame design.now.n * length out.old ≤ length readings.now }
    ensures { Ran design.now readings.now (length out.old) out.old out.new }
{
    let mut alarms = Alarms::new();
    let mut rest = readings;
    // No `zip` with the frames: after a loop over a zipped `iter_mut` nothing is known of what `out` holds.
    for slot in out.iter_mut() {
        let (frame, later) = rest.split_at(GROUP * design.n);
        (*slot, alarms) = beat(design, alarms, &readings_of(design.n, frame));
        rest = later;
    }
}

/// What each beat of a recording comes to, as many as there are readings for and room for: their number, or the
/// documents' first fault. The slice is lent, so that the loop asks for no memory, and the number says what was written.
pub fn run(design: &[u8], set: &[u8], readings: &[u8], out: &mut [Outcome]) -> Result<usize, Fault>
    ensures { Runs design.now set.now readings.now out.old out.new result }
{
    let recording = read_recording(design, set, readings)?;
    let count = recording.beats.min(out.len());
    run_beats(&recording.design, readings, &mut out[..count]);
    Ok(count)
}

/// One answer only keeps the promise of `run`; and its alarms go by the steps of which the voter promises which sensors
/// are called bad, and which are not.
pub fn run_laws()
    ensures one_run { OneRun }
    ensures alarms_run { AlarmsRun }
{}
