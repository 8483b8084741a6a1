//! Reading a recording with its design and its set, and the readings of a beat.
ghost use Rattle.std.specs.Prelude.{◌≡◌, ℕ, ◌+◌, ◌*◌, ◌^◌, ◌<◌, slice_index};
ghost use Rattle.voter.specs.Sent.{sent, sent_row};
ghost use Rattle.format.specs.Recordings.{group, width, reading as reading_of, heard, heard_row, Records, OneFault, OneAnswer};

pub use crate::beats::GROUP;
use crate::beats::check_recording;
pub use crate::fault::Fault;
pub use crate::recorded::Recording;
use linear::row::NUMBERS;
use std::array;
use voter::{Reading, Readings};

/// The bytes of one reading.
const WIDTH: usize = 2;

/// What the documents record, or their first fault.
pub fn read_recording(design: &[u8], set: &[u8], readings: &[u8]) -> Result<Recording, Fault>
    ensures { Records design.now set.now readings.now result }
{
    let set = check_recording(design, set, readings)?;
    let design = set.design.read();
    let faces = set.read();
    let beats = readings.len() / (GROUP * design.n);
    Ok(Recording {
        design,
        faces,
        beats,
    })
}

/// Documents have one first fault at most and those that pass have none, so that one answer only keeps the promise of
/// `read_recording`.
pub fn recording_is_exact()
    ensures one_fault { OneFault }
    ensures one_answer { OneAnswer }
{}

/// Byte `p`, or 0 past the last one.
fn byte_at(bytes: &[u8], p: usize) -> u8
    ensures { result ≡ slice_index bytes.now p }
{
    bytes.get(p).copied().unwrap_or(0)
}

/// The reading whose low byte is byte `p`.
fn reading_at(bytes: &[u8], p: usize) -> Reading
    requires { p < 2 ^ 32 }
    ensures { result.0 ≡ reading_of bytes.now p }
{
    let low = byte_at(bytes, p);
    let high = byte_at(bytes, p + 1);
    Reading(i32::from(i16::from_le_bytes([low, high])))
}

/// Where the reading of sensor `c` of number `i` begins.
fn place(c: u8, i: usize) -> usize
    requires { i < 2 ^ 32 }
    ensures { result ≡ group * i + width * c }
{
    GROUP * i + WIDTH * usize::from(c)
}

/// What sensor `c` sent of each of `n` numbers, in the beat that the bytes begin with.
fn sensor_row(n: usize, bytes: &[u8], c: u8) -> [Reading; NUMBERS]
    ensures { (i : ℕ) → sent_row result i ≡ heard_row n bytes.now c i }
{
    array::from_fn(|i| if i < n {
        reading_at(bytes, place(c, i))
    } else {
        Reading(0)
    })
}

/// What the sensors sent of each of `n` numbers, in the beat that the bytes begin with; 0 stands for what is missing.
pub fn readings_of(n: usize, bytes: &[u8]) -> Readings
    ensures { (c i : ℕ) → sent result c i ≡ heard n bytes.now c i }
{
    // A closure over the sensors would need a contract of its own.
    [
        sensor_row(n, bytes, 0),
        sensor_row(n, bytes, 1),
        sensor_row(n, bytes, 2),
    ]
}
