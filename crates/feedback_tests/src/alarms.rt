//! The alarms from beat to beat.
use crate::expect::{counts, noted};
use std::process::Abort;
use std::test::*;
use voter::Alarms;

// So many beats alike and the sensors that differ at them; then the counts, and the sensors that are bad.
type Stretch = (u32, [bool; 3], [u8; 3], [bool; 3]);

const NONE: [bool; 3] = [false, false, false];

const FIRST: [bool; 3] = [true, false, false];

const OUTER: [bool; 3] = [true, false, true];

const LAST: [bool; 3] = [false, false, true];

fn after(rt: &impl Abort, mut alarms: Alarms, stretches: &[Stretch]) -> Result<Alarms, Fail> {
    for (beats, differing, expected, bad) in stretches {
        alarms = noted(alarms, *beats, *differing);
        assert_eq!(rt; counts(alarms), *expected);
        assert_eq!(rt; alarms.bad(), *bad);
    }
    Ok(alarms)
}

#[test]
fn a_sensor_is_bad_from_the_fortieth_beat_on(rt: HostRuntime) -> Result<(), Fail> {
    let stretches = [
        (0, FIRST, [0, 0, 0], NONE),
        (39, FIRST, [39, 0, 0], NONE),
        (1, NONE, [0, 0, 0], NONE),
        (39, FIRST, [39, 0, 0], NONE),
        (1, FIRST, [40, 0, 0], FIRST),
        (1, FIRST, [40, 0, 0], FIRST),
        (1, NONE, [0, 0, 0], FIRST),
        (39, FIRST, [39, 0, 0], FIRST),
        (300, FIRST, [40, 0, 0], FIRST),
    ];
    let alarms = after(&rt, Alarms::new(), &stretches)?.reset();
    assert_eq!(rt; counts(alarms), [0, 0, 0]);
    assert_eq!(rt; alarms.bad(), NONE);
    let again = [(39, FIRST, [39, 0, 0], NONE), (1, FIRST, [40, 0, 0], FIRST)];
    after(&rt, alarms, &again)?;
    Ok(())
}

#[test]
fn each_sensor_has_its_own_count(rt: HostRuntime) -> Result<(), Fail> {
    let stretches = [
        (39, OUTER, [39, 0, 39], NONE),
        (1, OUTER, [40, 0, 40], OUTER),
        (1, LAST, [0, 0, 40], OUTER),
    ];
    let alarms = after(&rt, Alarms::new(), &stretches)?.reset();
    let staggered = [
        (1, LAST, [0, 0, 1], NONE),
        (38, OUTER, [38, 0, 39], NONE),
        (1, OUTER, [39, 0, 40], LAST),
        (1, [true; 3], [40, 1, 40], OUTER),
        (38, [true; 3], [40, 39, 40], OUTER),
        (1, [false, true, false], [0, 40, 0], [true; 3]),
    ];
    after(&rt, alarms, &staggered)?;
    Ok(())
}
