//! The middle one of three readings.
use crate::head::{LEAST, MOST};
use std::test::*;
use voter::{Reading, median};

// From the lowest to the highest, so that the one in the middle is to come out.
const ASCENDING: [[i32; 3]; 15] = [
    [-7, 2, 30],
    [-30, -5, 100],
    [-3, -2, -1],
    [5, 5, 9],
    [1, 5, 5],
    [5, 5, 5],
    [-256, -255, 257],
    [LEAST, 0, MOST],
    [LEAST, LEAST, MOST],
    [LEAST, MOST, MOST],
    [LEAST, LEAST + 1, LEAST + 2],
    [MOST - 2, MOST - 1, MOST],
    [LEAST, -1, 0],
    [LEAST, LEAST, LEAST],
    [MOST, MOST, MOST],
];

#[test]
fn the_middle_one_comes_out_in_every_order(rt: HostRuntime) -> Result<(), Fail> {
    for [low, middle, high] in ASCENDING {
        let a = Reading(low);
        let b = Reading(middle);
        let c = Reading(high);
        assert_eq!(rt; median(a, b, c).0, middle);
        assert_eq!(rt; median(a, c, b).0, middle);
        assert_eq!(rt; median(b, a, c).0, middle);
        assert_eq!(rt; median(b, c, a).0, middle);
        assert_eq!(rt; median(c, a, b).0, middle);
        assert_eq!(rt; median(c, b, a).0, middle);
    }
    Ok(())
}
