//! The line that an outcome prints, and a refusal's number and place.
use crate::expect::prints;
use feedback::outcome::Outcome;
use format::report::Report;
use law::Command;
use std::test::*;

fn answered(u: i32, bad: [bool; 3]) -> Outcome {
    let command = Command(u);
    Outcome::Answered { command, bad }
}

const ANSWERS: [(i32, [bool; 3], &str); 13] = [
    (-5, [false, false, false], "-5"),
    (-5, [true, false, false], "-5 bad 0"),
    (-5, [false, true, false], "-5 bad 1"),
    (-5, [true, true, false], "-5 bad 0 1"),
    (-5, [false, false, true], "-5 bad 2"),
    (-5, [true, false, true], "-5 bad 0 2"),
    (-5, [false, true, true], "-5 bad 1 2"),
    (-5, [true, true, true], "-5 bad 0 1 2"),
    (0, [false, false, false], "0"),
    (0, [false, true, false], "0 bad 1"),
    (360_000_000, [false, false, false], "360000000"),
    (i32::MAX, [false, false, false], "2147483647"),
    (i32::MIN, [true, true, true], "-2147483648 bad 0 1 2"),
];

#[test]
fn an_answer_stands_before_the_sensors_called_bad(rt: HostRuntime) -> Result<(), Fail> {
    for (u, bad, line) in ANSWERS {
        prints(&rt, rt.alloc(), answered(u, bad), line)?;
        assert!(rt; answered(u, bad).refusal().is_none());
    }
    Ok(())
}

// No beat comes to the last ones, but they are outcomes too, and their places do not wrap.
const REFUSALS: [(u8, u8, usize, &str); 8] = [
    (0, 0, 0, "refused 9 at 0"),
    (0, 5, 5, "refused 9 at 5"),
    (1, 0, 8, "refused 9 at 8"),
    (1, 5, 13, "refused 9 at 13"),
    (2, 3, 19, "refused 9 at 19"),
    (7, 5, 61, "refused 9 at 61"),
    (32, 0, 256, "refused 9 at 256"),
    (255, 255, 2_295, "refused 9 at 2295"),
];

#[test]
fn a_refusal_has_its_number_and_its_place(rt: HostRuntime) -> Result<(), Fail> {
    for (sensor, number, place, line) in REFUSALS {
        let outcome = Outcome::Outside { sensor, number };
        prints(&rt, rt.alloc(), outcome, line)?;
        assert_eq!(rt; outcome.refusal(), Some(Report { number: 9, place }));
    }
    Ok(())
}

#[test]
fn an_outcome_stands_within_other_text(rt: HostRuntime) -> Result<(), Fail> {
    let first = answered(3, [true, false, true]);
    let second = Outcome::Outside {
        sensor: 1,
        number: 2,
    };
    let text = format!(in rt.alloc(); "<{first}> <{second}>")?;
    assert_eq!(rt; text.as_str(), "<3 bad 0 2> <refused 9 at 10>");
    Ok(())
}
