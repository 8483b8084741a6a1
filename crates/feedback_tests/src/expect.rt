//! What the tests ask of outcomes and alarms.
use feedback::outcome::Outcome;
use std::alloc::Global;
use std::process::Abort;
use std::test::*;
use voter::Alarms;

/// What no beat comes to, so that it can be told whether it still stands.
pub(crate) const BEFORE: Outcome = Outcome::Outside {
    sensor: 7,
    number: 5,
};

/// That the outcome prints this line. The heap comes beside `rt`: a handle that is both is had in a test's own body alone.
pub(crate) fn prints(
    rt: &impl Abort,
    heap: Global,
    outcome: Outcome,
    line: &str,
) -> Result<(), Fail> {
    assert_eq!(rt; outcome.to_string(heap)?.as_str(), line);
    Ok(())
}

/// That nothing was written to these.
pub(crate) fn untouched(rt: &impl Abort, out: &[Outcome]) -> Result<(), Fail> {
    assert!(rt; out.iter().all(|outcome| *outcome == BEFORE));
    Ok(())
}

/// The alarms after so many beats at which these sensors differ.
pub(crate) fn noted(alarms: Alarms, beats: u32, differing: [bool; 3]) -> Alarms {
    (0..beats).fold(alarms, |alarms, _| alarms.note(differing))
}

/// For how many beats in a row each sensor has differed.
pub(crate) fn counts(alarms: Alarms) -> [u8; 3] {
    alarms.watches.map(|watch| watch.count)
}
