//! The middle of a beat, and the sensors that differ from a row that need not be it.
use crate::head;
use crate::head::{LEAST, MOST, sent};
use linear::row::Row;
use std::alloc::Global;
use std::test::*;
use voter::Sensors;

// Those of the worked head: two numbers, with noise 2 and 1.
fn sensors(heap: Global) -> Result<Sensors, Fail> {
    let design = head::design(heap)?;
    Ok(Sensors {
        n: design.n,
        noise: design.noise,
    })
}

#[test]
fn the_middle_row_ends_with_zeros(rt: HostRuntime) -> Result<(), Fail> {
    let readings = sent([-3, 8, LEAST], [90, 2, -40]);
    let Ok(row) = sensors(rt.alloc())?.middle(&readings) else {
        return Err(Fail::new("one sensor outside is refused"));
    };
    assert_eq!(rt; row.cells, [-3, 2, 0, 0, 0, 0]);
    Ok(())
}

// A row, what the sensors sent of both numbers, and which sensors differ. Past the numbers of the state the row is not
// looked at, nor are readings there.
const ROWS: [([i64; 6], [i32; 3], [i32; 3], [bool; 3]); 8] = [
    ([0, 0, 0, 0, 0, 0], [4, -4, 0], [2, -2, 0], [false; 3]),
    ([0, 0, 0, 0, 0, 0], [5, -5, 0], [0, 0, 3], [true; 3]),
    ([0, 0, 9, 9, 9, 9], [0, 0, 0], [0, 0, 0], [false; 3]),
    (
        [9, 0, 0, 0, 0, 0],
        [0, 5, 13],
        [0, 0, 0],
        [true, false, false],
    ),
    (
        [9, 9, 0, 0, 0, 0],
        [4, 5, 14],
        [9, 11, 9],
        [true, false, true],
    ),
    (
        [30_000, -30_000, 0, 0, 0, 0],
        [30_000; 3],
        [-30_000, -30_001, -29_998],
        [false, true, false],
    ),
    (
        [30_000, 30_000, 0, 0, 0, 0],
        [LEAST, MOST, 30_000],
        [30_000; 3],
        [true, true, false],
    ),
    (
        [-30_000, -30_000, 0, 0, 0, 0],
        [-30_000; 3],
        [-30_000, LEAST, MOST],
        [false, true, true],
    ),
];

#[test]
fn a_sensor_differs_from_the_row_given(rt: HostRuntime) -> Result<(), Fail> {
    let sensors = sensors(rt.alloc())?;
    for (row, first, second, differing) in ROWS {
        let Ok(middle) = Row::<30_000>::new(row) else {
            return Err(Fail::new("a number past its bound"));
        };
        assert_eq!(rt; sensors.differing(&sent(first, second), &middle), differing);
    }
    Ok(())
}
