//! The worked head, as documents and as a value.
use format::design::Design;
use format::recording::read_recording;
use std::alloc::{AllocError, Global};
use std::array;
use std::test::*;
use voter::{Reading, Readings};

/// The least that a sensor can send, faulty as it may be.
pub(crate) const LEAST: i32 = i32::MIN;

/// The most.
pub(crate) const MOST: i32 = i32::MAX;

const DESIGN: [i64; 16] = [2, 110, 100, 90, 20, 0, 95, 0, 10, 50, 50, 2, 2, 7, 2, 1];

const SET: [i64; 13] = [4, 1, 0, 21, -1, 0, 21, 0, 1, 8, 0, -1, 8];

// As in `format_tests`: a crate for two such helpers would be longer than both.
fn bytes(heap: Global, numbers: &[i64]) -> Result<Vec<u8>, AllocError> {
    let mut bytes = Vec::new(heap);
    for x in numbers {
        bytes.extend_from_slice(&x.to_le_bytes())?;
    }
    Ok(bytes)
}

/// The head answers `-(2 y0 + 7 y1) / 2`; its noise is 2 and 1.
pub(crate) fn design_bytes(heap: Global) -> Result<Vec<u8>, AllocError> {
    bytes(heap, &DESIGN)
}

pub(crate) fn set_bytes(heap: Global) -> Result<Vec<u8>, AllocError> {
    bytes(heap, &SET)
}

/// The bytes of groups of three readings.
pub(crate) fn recorded(heap: Global, groups: &[[i16; 3]]) -> Result<Vec<u8>, AllocError> {
    let mut bytes = Vec::new(heap);
    for group in groups {
        for x in group {
            bytes.extend_from_slice(&x.to_le_bytes())?;
        }
        bytes.extend_from_slice(&[0, 0, 0])?;
    }
    Ok(bytes)
}

/// The design as a value: only reading makes one.
pub(crate) fn design(heap: Global) -> Result<Design, Fail> {
    let Ok(recording) = read_recording(&design_bytes(heap)?, &set_bytes(heap)?, &[]) else {
        return Err(Fail::new("the head is refused"));
    };
    Ok(recording.design)
}

// The head has two numbers, and what stands past them is not looked at: so it is something outside.
fn row(first: i32, second: i32) -> [Reading; 6] {
    let past = Reading(MOST);
    [Reading(first), Reading(second), past, past, past, past]
}

/// What three sensors sent of the first number, and of the second.
pub(crate) fn sent(first: [i32; 3], second: [i32; 3]) -> Readings {
    array::from_fn(|c| row(first[c], second[c]))
}
