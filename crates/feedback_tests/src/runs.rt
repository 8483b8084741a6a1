//! A recording that is run into slices of outcomes that are shorter than it, as long, and longer.
use crate::expect::{BEFORE, prints, untouched};
use crate::head::{design_bytes, recorded, set_bytes};
use feedback::outcome::Outcome;
use feedback::run::run;
use std::alloc::Global;
use std::test::*;

// How many beats of the worked head are run.
fn ran(heap: Global, readings: &[u8], out: &mut [Outcome]) -> Result<usize, Fail> {
    let Ok(count) = run(&design_bytes(heap)?, &set_bytes(heap)?, readings, out) else {
        return Err(Fail::new("the head is refused"));
    };
    Ok(count)
}

// Five beats of two numbers, and what each prints.
const SENT: [[i16; 3]; 10] = [
    [1, 1, 1],
    [0, 0, 0],
    [20, 22, 21],
    [8, 9, 7],
    [0, 30_001, 30_001],
    [0, 0, 0],
    [0, 30_001, 0],
    [-1, -1, -1],
    [-30_000, -30_000, -30_000],
    [-30_000, -30_000, -30_000],
];

const LINES: [&str; 5] = ["-1", "-49", "refused 9 at 8", "4", "135000"];

#[test]
fn as_many_beats_are_run_as_there_is_room_for(rt: HostRuntime) -> Result<(), Fail> {
    let heap = rt.alloc();
    let readings = recorded(heap, &SENT)?;
    for room in 0..8usize {
        let mut out = [BEFORE; 7];
        let count = ran(heap, &readings, &mut out[..room])?;
        assert_eq!(rt; count, room.min(5));
        let (written, rest) = out.split_at(count);
        for (outcome, line) in written.iter().zip(LINES) {
            prints(&rt, heap, *outcome, line)?;
        }
        untouched(&rt, rest)?;
    }
    Ok(())
}

#[test]
fn no_beats_write_nothing(rt: HostRuntime) -> Result<(), Fail> {
    let mut out = [BEFORE; 3];
    assert_eq!(rt; ran(rt.alloc(), &[], &mut out)?, 0);
    untouched(&rt, &out)?;
    assert_eq!(rt; ran(rt.alloc(), &[], &mut [])?, 0);
    Ok(())
}

// A call knows nothing of the alarms of the one before it, and a refused beat in the middle leaves them as they were.
#[test]
fn each_run_begins_with_new_alarms(rt: HostRuntime) -> Result<(), Fail> {
    let heap = rt.alloc();
    let far = recorded(heap, &[[5, 0, 0], [0, 0, 0]])?;
    let refused = recorded(heap, &[[0, 0, 30_001], [0, -30_001, 0]])?;
    let mut readings = Vec::new(heap);
    for b in 0..42 {
        let beat = if b == 20 { &refused } else { &far };
        readings.extend_from_slice(beat)?;
    }
    for _ in 0..2 {
        let mut out = [BEFORE; 42];
        assert_eq!(rt; ran(heap, &readings, &mut out)?, 42);
        prints(&rt, heap, out[0], "0")?;
        prints(&rt, heap, out[20], "refused 9 at 9")?;
        prints(&rt, heap, out[39], "0")?;
        prints(&rt, heap, out[40], "0 bad 0")?;
        prints(&rt, heap, out[41], "0 bad 0")?;
    }
    Ok(())
}
