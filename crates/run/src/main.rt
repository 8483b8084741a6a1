//! `run DESIGN SET READINGS`: runs the loop on recorded readings, and prints a line for each beat.
#![tactic(auto)]

use cli::{Failure, end, read_documents};
use feedback::outcome::Outcome;
use feedback::run::run;
use format::recording::{Fault, read_recording};
use std::io;
use std::io::{BufWriter, Write};
use std::process::ExitCode;

/// A line for each beat.
fn print(rt: &HostRuntime, outcomes: &[Outcome]) -> io::Result<()> {
    let mut out = BufWriter::new(rt.alloc(), rt.stdout())?;
    for outcome in outcomes {
        writeln!(out, "{outcome}")?;
    }
    out.flush()
}

fn run_recording(rt: &HostRuntime) -> Result<(), Failure<Fault>> {
    let [design, set, readings] = read_documents(rt)?;
    let recording = read_recording(&design, &set, &readings).map_err(Failure::Refused)?;
    // Room for each beat, which is written over: `run` asks for no memory itself.
    let none = Outcome::Outside {
        sensor: 0,
        number: 0,
    };
    let mut outcomes = vec![in rt.alloc(); none; recording.beats]?;
    run(&design, &set, &readings, &mut outcomes).map_err(Failure::Refused)?;
    print(rt, &outcomes)?;
    Ok(())
}

fn main(rt: HostRuntime) -> ExitCode {
    end(&rt, "run", "DESIGN SET READINGS", run_recording(&rt))
}
