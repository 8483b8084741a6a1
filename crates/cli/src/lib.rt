//! What the programs have in common: each is called with the paths of three documents, reads them first, and ends with
//! what it was for or with a failure.
//!
//! No contract can speak of arguments and files, so what reads them promises nothing; `tests/cli.sh` holds it to what it
//! should do.
#![tactic(auto)]

ghost use Rattle.std.specs.Prelude.{◌≡◌, IsOk, IsErr};
ghost use Rattle.std.specs.Process.{exit_status};

use std::alloc::AllocError;
use std::fmt::Display;
use std::process::ExitCode;
use std::{env, fs, io};
use thiserror::Error;

/// Why a program ends without what it was for. `R` is why it refuses a document.
#[derive(Debug, Drop, Error)]
#[error_bound(R: Display)]
pub enum Failure<R> {
    #[error("not called with three paths")]
    Usage,
    #[error("{path}: {error}")]
    Unreadable { path: String, error: io::Error },
    #[error("{0}")]
    Refused(R),
    /// The arguments cannot be had, or the lines not printed.
    #[error("{0}")]
    Io(#[from] io::Error),
    #[error("{0}")]
    Memory(#[from(alloc)] AllocError),
}

/// The bytes of the three documents that the program was called with, in the order of the call.
pub fn read_documents<R>(rt: &HostRuntime) -> Result<[Vec<u8>; 3], Failure<R>> {
    let args: Vec<String> = env::args(rt)?.skip(1).collect(rt.alloc())?;
    let Ok(paths) = <[String; 3]>::try_from(args) else {
        return Err(Failure::Usage);
    };
    paths.try_map(|path| {
        fs::read(rt, &path).map_err(|error| Failure::Unreadable { path, error })
    })
}

/// The line of a refusal, and the status to end with, whether the line could be printed or not.
pub fn refuse(rt: &HostRuntime, refusal: impl Display + Drop) -> ExitCode
    ensures { exit_status result ≡ 1 }
{
    let _ = println!(rt; "{refusal}");
    ExitCode::FAILURE
}

/// The status to end with, once a failure's line is printed, if it can be: a refusal's on standard output, any other's on
/// standard error.
pub fn end<R: Display + Drop>(
    rt: &HostRuntime,
    program: &str,
    documents: &str,
    ended: Result<(), Failure<R>>,
) -> ExitCode
    ensures ok { IsOk ended → exit_status result ≡ 0 }
    ensures err { IsErr ended → exit_status result ≡ 1 }
{
    let _ = match ended {
        Ok(()) => return ExitCode::SUCCESS,
        Err(Failure::Refused(refusal)) => return refuse(rt, refusal),
        Err(Failure::Usage) => eprintln!(rt; "usage: {program} {documents}"),
        Err(failure @ Failure::Unreadable { .. }) => eprintln!(rt; "{program}: {failure}"),
        Err(failure) => eprintln!(rt; "Error: {failure}"),
    };
    ExitCode::FAILURE
}
