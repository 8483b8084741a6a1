//! What the law answers.
use law::Law;
use linear::row::Row;
use std::process::Abort;
use std::test::*;

fn answer(rt: &impl Abort, n: usize, over_law: u32, k: [i64; 6], y: [i64; 6]) -> Result<i32, Fail> {
    assert!(rt; 1 <= over_law && over_law <= 1_000);
    let Ok(k) = Row::<2_000>::new(k) else {
        return Err(Fail::new("a gain past its bound"));
    };
    let Ok(y) = Row::<30_000>::new(y) else {
        return Err(Fail::new("a reading past its bound"));
    };
    let law = Law { over_law, k };
    Ok(law.answer(n, &y).0)
}

// A denominator, a reading above 0, and the whole number nearest to their quotient: ties that go down and up to the even
// one, what lies just beside them, and denominators that have no ties.
const NEAREST: [(u32, i64, i32); 35] = [
    (1, 0, 0),
    (1, 1, 1),
    (1, 30_000, 30_000),
    (2, 1, 0),
    (2, 2, 1),
    (2, 3, 2),
    (2, 5, 2),
    (2, 7, 4),
    (2, 29_999, 15_000),
    (3, 1, 0),
    (3, 2, 1),
    (3, 4, 1),
    (3, 5, 2),
    (4, 1, 0),
    (4, 2, 0),
    (4, 3, 1),
    (4, 5, 1),
    (4, 6, 2),
    (4, 10, 2),
    (4, 14, 4),
    (999, 499, 0),
    (999, 500, 1),
    (999, 1_498, 1),
    (999, 1_499, 2),
    (1_000, 499, 0),
    (1_000, 500, 0),
    (1_000, 501, 1),
    (1_000, 1_499, 1),
    (1_000, 1_500, 2),
    (1_000, 2_499, 2),
    (1_000, 2_500, 2),
    (1_000, 2_501, 3),
    (1_000, 28_500, 28),
    (1_000, 29_500, 30),
    (1_000, 30_000, 30),
];

#[test]
fn the_nearest_whole_number_is_answered_at_both_signs(rt: HostRuntime) -> Result<(), Fail> {
    let one = [1, 0, 0, 0, 0, 0];
    let against = [-1, 0, 0, 0, 0, 0];
    for (over_law, size, u) in NEAREST {
        let opposite = u.wrapping_neg();
        let above = [size, 0, 0, 0, 0, 0];
        let below = [size.wrapping_neg(), 0, 0, 0, 0, 0];
        assert_eq!(rt; answer(&rt, 1, over_law, one, above)?, opposite, "{}", size);
        assert_eq!(rt; answer(&rt, 1, over_law, one, below)?, u, "{}", size);
        assert_eq!(rt; answer(&rt, 1, over_law, against, above)?, u, "{}", size);
        assert_eq!(rt;
            answer(&rt, 1, over_law, against, below)?,
            opposite,
            "{}",
            size
        );
    }
    Ok(())
}

const MOST_K: [i64; 6] = [2_000; 6];

const LEAST_K: [i64; 6] = [-2_000; 6];

const MOST_Y: [i64; 6] = [30_000; 6];

const LEAST_Y: [i64; 6] = [-30_000; 6];

// A gain that makes the largest sums odd, with readings.
const ODD_K: [i64; 6] = [2_000, 2_000, 2_000, 2_000, 2_000, 1_999];

const ODD_Y: [i64; 6] = [30_000, 30_000, 30_000, 30_000, 30_000, 29_999];

#[test]
fn the_largest_sums_are_not_cut(rt: HostRuntime) -> Result<(), Fail> {
    let cases = [
        (1, MOST_K, MOST_Y, -360_000_000),
        (1, MOST_K, LEAST_Y, 360_000_000),
        (1, LEAST_K, MOST_Y, 360_000_000),
        (1, LEAST_K, LEAST_Y, -360_000_000),
        (7, MOST_K, MOST_Y, -51_428_571),
        (7, MOST_K, LEAST_Y, 51_428_571),
        (1_000, MOST_K, MOST_Y, -360_000),
        (1_000, MOST_K, LEAST_Y, 360_000),
        (1, ODD_K, ODD_Y, -359_968_001),
        (2, ODD_K, ODD_Y, -179_984_000),
    ];
    for (over_law, k, y, u) in cases {
        assert_eq!(rt; answer(&rt, 6, over_law, k, y)?, u);
    }
    Ok(())
}

// Past the sixth there are only zeros, so that any `n` may be asked for.
#[test]
fn the_first_numbers_are_answered_to(rt: HostRuntime) -> Result<(), Fail> {
    let k = [1, 2, 4, 8, 16, 32];
    let y = [1; 6];
    let cases = [
        (0, 0),
        (1, -1),
        (2, -3),
        (3, -7),
        (5, -31),
        (6, -63),
        (7, -63),
        (usize::MAX, -63),
    ];
    for (n, u) in cases {
        assert_eq!(rt; answer(&rt, n, 1, k, y)?, u);
    }
    Ok(())
}
