//! One beat of the worked head.
use crate::expect::{counts, noted, prints};
use crate::head;
use crate::head::{LEAST, MOST, sent};
use feedback::beat::beat;
use format::design::Design;
use std::alloc::Global;
use std::process::Abort;
use std::test::*;
use voter::{Alarms, Readings};

// All three sensors have differed once and none is bad: a beat makes 2 of the count of a sensor that differs and 0 of
// another, and leaves all at 1 where it is refused.
fn comes(
    rt: &impl Abort,
    heap: Global,
    design: &Design,
    readings: &Readings,
    line: &str,
    expected: [u8; 3],
) -> Result<(), Fail> {
    let (outcome, after) = beat(design, Alarms::new().note([true; 3]), readings);
    prints(rt, heap, outcome, line)?;
    assert_eq!(rt; after.bad(), [false; 3]);
    assert_eq!(rt; counts(after), expected, "{line}");
    Ok(())
}

// One sensor past the edge at most, and the counts.
const ONE: [([bool; 3], [u8; 3]); 4] = [
    ([false, false, false], [0, 0, 0]),
    ([true, false, false], [2, 0, 0]),
    ([false, true, false], [0, 2, 0]),
    ([false, false, true], [0, 0, 2]),
];

// Two past the edge at least, and the refusal where it is the edge of the first number, and of the second.
const TWO: [([bool; 3], &str, &str); 4] = [
    ([true, true, false], "refused 9 at 0", "refused 9 at 1"),
    ([true, false, true], "refused 9 at 0", "refused 9 at 1"),
    ([false, true, true], "refused 9 at 8", "refused 9 at 9"),
    ([true, true, true], "refused 9 at 0", "refused 9 at 1"),
];

// An edge, one past it, and the answers to it.
const EDGES: [(i32, i32, &str, &str); 2] = [
    (30_000, 30_001, "-30000", "-105000"),
    (-30_000, -30_001, "30000", "105000"),
];

// For each sensor the one or the other.
fn either(past: [bool; 3], inside: i32, outside: i32) -> [i32; 3] {
    past.map(|past| if past { outside } else { inside })
}

// That these readings come to this, as those of the first number and as those of the second.
fn either_comes(
    rt: &impl Abort,
    heap: Global,
    design: &Design,
    readings: [i32; 3],
    lines: (&str, &str),
    expected: [u8; 3],
) -> Result<(), Fail> {
    comes(rt, heap, design, &sent(readings, [0; 3]), lines.0, expected)?;
    comes(rt, heap, design, &sent([0; 3], readings), lines.1, expected)
}

#[test]
fn one_sensor_outside_is_answered_and_counted(rt: HostRuntime) -> Result<(), Fail> {
    let heap = rt.alloc();
    let design = head::design(heap)?;
    for (past, expected) in ONE {
        for (inside, outside, first, second) in EDGES {
            let readings = either(past, inside, outside);
            either_comes(&rt, heap, &design, readings, (first, second), expected)?;
        }
    }
    Ok(())
}

#[test]
fn two_sensors_outside_are_refused_by_the_first(rt: HostRuntime) -> Result<(), Fail> {
    let heap = rt.alloc();
    let design = head::design(heap)?;
    for (inside, outside, _, _) in EDGES {
        for (past, first, second) in TWO {
            let readings = either(past, inside, outside);
            either_comes(&rt, heap, &design, readings, (first, second), [1; 3])?;
        }
    }
    Ok(())
}

// What the sensors sent of both numbers, the line and the counts. The first one outside is the first by sensor and then
// by number, in whichever numbers they are; and no size is too large.
const OUTSIDE: [([i32; 3], [i32; 3], &str, [u8; 3]); 14] = [
    ([30_001, 0, 0], [-30_001, 0, 0], "0", [2, 0, 0]),
    ([30_001, 0, 0], [0, 30_001, 0], "refused 9 at 0", [1, 1, 1]),
    ([0, 30_001, 0], [30_001, 0, 0], "refused 9 at 1", [1, 1, 1]),
    ([0, 0, 30_001], [0, 30_001, 0], "refused 9 at 9", [1, 1, 1]),
    ([0, 30_001, 0], [0, 0, 30_001], "refused 9 at 8", [1, 1, 1]),
    ([LEAST, 0, 0], [0, 0, 0], "0", [2, 0, 0]),
    ([0, MOST, 0], [0, LEAST, 0], "0", [0, 2, 0]),
    ([1, 2, MOST], [0, 0, 0], "-2", [0, 0, 2]),
    ([1, 2, LEAST], [0, 0, 0], "-1", [0, 0, 2]),
    ([30_000, 30_000, LEAST], [0, 0, 0], "-30000", [0, 0, 2]),
    ([LEAST, 0, MOST], [0, 0, 0], "refused 9 at 0", [1, 1, 1]),
    ([0, LEAST, LEAST], [0, 0, 0], "refused 9 at 8", [1, 1, 1]),
    ([0, 0, 0], [MOST, MOST, MOST], "refused 9 at 1", [1, 1, 1]),
    ([LEAST, MOST, 0], [0, 0, MOST], "refused 9 at 0", [1, 1, 1]),
];

#[test]
fn readings_outside_may_be_of_any_numbers_and_sizes(rt: HostRuntime) -> Result<(), Fail> {
    let heap = rt.alloc();
    let design = head::design(heap)?;
    for (first, second, line, expected) in OUTSIDE {
        comes(&rt, heap, &design, &sent(first, second), line, expected)?;
    }
    Ok(())
}

// Twice the noise, 4 and 2, is not too far from the middle, and one more is: on both sides, from a middle that is not 0,
// of one sensor, two and three.
const FAR: [([i32; 3], [i32; 3], &str, [u8; 3]); 18] = [
    ([4, 0, 0], [0, 0, 0], "0", [0, 0, 0]),
    ([5, 0, 0], [0, 0, 0], "0", [2, 0, 0]),
    ([0, -4, 0], [0, 0, 0], "0", [0, 0, 0]),
    ([0, -5, 0], [0, 0, 0], "0", [0, 2, 0]),
    ([100, 100, 104], [0, 0, 0], "-100", [0, 0, 0]),
    ([100, 100, 105], [0, 0, 0], "-100", [0, 0, 2]),
    ([-96, -100, -100], [0, 0, 0], "100", [0, 0, 0]),
    ([-95, -100, -100], [0, 0, 0], "100", [2, 0, 0]),
    ([0, 0, 0], [0, 2, 0], "0", [0, 0, 0]),
    ([0, 0, 0], [0, 3, 0], "0", [0, 2, 0]),
    ([0, 0, 0], [100, 100, 98], "-350", [0, 0, 0]),
    ([0, 0, 0], [100, 100, 97], "-350", [0, 0, 2]),
    ([-4, 0, 4], [2, 0, -2], "0", [0, 0, 0]),
    ([-5, 0, 5], [0, 0, 0], "0", [2, 0, 2]),
    ([-5, 0, 4], [0, 0, -3], "0", [2, 0, 2]),
    ([-5, 0, 5], [0, 3, 0], "0", [2, 2, 2]),
    ([5, 5, 0], [0, 0, 0], "-5", [0, 0, 2]),
    ([8, 4, 0], [0, 0, 0], "-4", [0, 0, 0]),
];

#[test]
fn a_sensor_too_far_from_the_middle_is_counted(rt: HostRuntime) -> Result<(), Fail> {
    let heap = rt.alloc();
    let design = head::design(heap)?;
    for (first, second, line, expected) in FAR {
        comes(&rt, heap, &design, &sent(first, second), line, expected)?;
    }
    Ok(())
}

const BAD: [([bool; 3], &str); 4] = [
    ([true, false, false], "-20 bad 0"),
    ([false, true, false], "-20 bad 1"),
    ([false, false, true], "-20 bad 2"),
    ([true, true, true], "-20 bad 0 1 2"),
];

const ORDERS: [[i32; 3]; 6] = [
    [10, 20, 30],
    [10, 30, 20],
    [20, 10, 30],
    [20, 30, 10],
    [30, 10, 20],
    [30, 20, 10],
];

#[test]
fn a_bad_sensor_still_stands_among_the_three(rt: HostRuntime) -> Result<(), Fail> {
    let heap = rt.alloc();
    let design = head::design(heap)?;
    for (differing, line) in BAD {
        let alarms = noted(Alarms::new(), 40, differing);
        for first in ORDERS {
            let (outcome, _) = beat(&design, alarms, &sent(first, [0; 3]));
            prints(&rt, heap, outcome, line)?;
        }
    }
    Ok(())
}

// Beats one after the other, from alarms that lack one beat: the line, the counts, and whether sensor 0 is bad.
const STEPS: [([i32; 3], &str, [u8; 3], bool); 5] = [
    ([0, 30_001, 30_001], "refused 9 at 8", [39, 0, 0], false),
    ([5, 0, 0], "0 bad 0", [40, 0, 0], true),
    ([30_001, 0, 30_001], "refused 9 at 0", [40, 0, 0], true),
    ([0, 5, 0], "0 bad 0", [0, 1, 0], true),
    ([30_001, 30_001, 30_001], "refused 9 at 0", [0, 1, 0], true),
];

#[test]
fn a_refused_beat_leaves_the_alarms_as_they_were(rt: HostRuntime) -> Result<(), Fail> {
    let heap = rt.alloc();
    let design = head::design(heap)?;
    let mut alarms = noted(Alarms::new(), 39, [true, false, false]);
    for (first, line, expected, bad) in STEPS {
        let (outcome, next) = beat(&design, alarms, &sent(first, [0; 3]));
        alarms = next;
        prints(&rt, heap, outcome, line)?;
        assert_eq!(rt; counts(alarms), expected);
        assert_eq!(rt; alarms.bad(), [bad, false, false]);
    }
    Ok(())
}
