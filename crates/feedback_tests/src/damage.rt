//! Documents that `run` refuses: by which rule, at which place, and with nothing written.
use crate::expect::{BEFORE, untouched};
use crate::head::{design_bytes, recorded, set_bytes};
use feedback::run::run;
use format::report::Report;
use std::alloc::Global;
use std::process::Abort;
use std::test::*;

// The three documents, of 128, 104 and 36 bytes.
#[derive(Drop)]
struct Documents {
    design: Vec<u8>,
    set: Vec<u8>,
    readings: Vec<u8>,
}

fn sound(heap: Global) -> Result<Documents, Fail> {
    Ok(Documents {
        design: design_bytes(heap)?,
        set: set_bytes(heap)?,
        readings: recorded(heap, &[[1, 2, 3], [4, 5, 6], [7, 8, 9], [1, 1, 1]])?,
    })
}

impl Documents {
    // That they are refused so, and that no outcome is written. The case is named where they are not.
    fn refused(
        &self,
        rt: &impl Abort,
        heap: Global,
        number: u8,
        place: usize,
        case: usize,
    ) -> Result<(), Fail> {
        let mut out = [BEFORE; 3];
        let Err(refusal) = run(&self.design, &self.set, &self.readings, &mut out) else {
            return Err(Fail::new("it is run"));
        };
        assert_eq!(rt; refusal.report(), Report { number, place }, "at {case}");
        untouched(rt, &out)
    }
}

// The new length of a document, and the place: its end where it is too short, or the first byte too many. Of readings
// that are no whole number of beats it is the end.
const DESIGN_LENGTHS: [(usize, usize); 5] = [(0, 0), (7, 7), (127, 127), (129, 128), (200, 128)];

const SET_LENGTHS: [(usize, usize); 4] = [(0, 0), (7, 7), (103, 103), (105, 104)];

const READINGS_LENGTHS: [(usize, usize); 5] = [(1, 1), (9, 9), (35, 35), (37, 37), (45, 45)];

// That each of the lengths is refused of the one of the documents that `of` takes.
fn lengths_refused<Of: Fn(&mut Documents) -> &mut Vec<u8>>(
    rt: &impl Abort,
    heap: Global,
    lengths: &[(usize, usize)],
    of: Of,
) -> Result<(), Fail>
    requires { Of.IsAlwaysCallable of }
{
    for (length, place) in lengths {
        let mut documents = sound(heap)?;
        of(&mut documents).resize(*length, 0)?;
        documents.refused(rt, heap, 1, *place, *length)?;
    }
    Ok(())
}

#[test]
fn a_wrong_length_is_refused(rt: HostRuntime) -> Result<(), Fail> {
    let heap = rt.alloc();
    lengths_refused(&rt, heap, &DESIGN_LENGTHS, |all| &mut all.design)?;
    lengths_refused(&rt, heap, &SET_LENGTHS, |all| &mut all.set)?;
    lengths_refused(&rt, heap, &READINGS_LENGTHS, |all| &mut all.readings)
}

// A byte of a document and what it is changed to; the rule, and the place.
const DESIGN_BYTES: [(usize, u8, u8, usize); 11] = [
    (0, 0, 2, 0),
    (0, 7, 2, 0),
    (7, 255, 2, 0),
    (0, 1, 1, 72),
    (0, 3, 1, 128),
    (8, 0, 2, 8),
    (16, 0, 2, 16),
    (31, 128, 2, 24),
    (72, 49, 2, 72),
    (88, 0, 2, 88),
    (127, 128, 2, 120),
];

const SET_BYTES: [(usize, u8, u8, usize); 6] = [
    (0, 0, 3, 0),
    (0, 25, 3, 0),
    (0, 3, 1, 80),
    (0, 5, 1, 104),
    (8, 101, 3, 8),
    (103, 255, 3, 96),
];

const READINGS_BYTES: [(usize, u8, u8, usize); 4] = [
    (6, 1, 1, 6),
    (7, 255, 1, 7),
    (17, 1, 1, 17),
    (35, 128, 1, 35),
];

// That each of the bytes is refused of the one of the documents that `of` takes.
fn bytes_refused<Of: Fn(&mut Documents) -> &mut Vec<u8>>(
    rt: &impl Abort,
    heap: Global,
    bytes: &[(usize, u8, u8, usize)],
    of: Of,
) -> Result<(), Fail>
    requires { Of.IsAlwaysCallable of }
{
    for (at, value, number, place) in bytes {
        let mut documents = sound(heap)?;
        let Some(byte) = of(&mut documents).get_mut(*at) else {
            return Err(Fail::new("no such byte"));
        };
        *byte = *value;
        documents.refused(rt, heap, *number, *place, *at)?;
    }
    Ok(())
}

#[test]
fn a_changed_byte_is_refused(rt: HostRuntime) -> Result<(), Fail> {
    let heap = rt.alloc();
    bytes_refused(&rt, heap, &DESIGN_BYTES, |all| &mut all.design)?;
    bytes_refused(&rt, heap, &SET_BYTES, |all| &mut all.set)?;
    bytes_refused(&rt, heap, &READINGS_BYTES, |all| &mut all.readings)
}
