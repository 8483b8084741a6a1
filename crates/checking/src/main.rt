//! `check DESIGN SET SHEET`: reads three documents and says what they are, or why they are refused.
#![tactic(auto)]

use cli::{Failure, end, read_documents};
use format::read::read_claim;
use format::refusal::Refusal;
use std::process::ExitCode;

fn check(rt: &HostRuntime) -> Result<(), Failure<Refusal>> {
    let [design, set, sheet] = read_documents(rt)?;
    let claim = read_claim(&design, &set, &sheet).map_err(Failure::Refused)?;
    println!(rt; "read n {} faces {}", claim.design.n, claim.faces.count)?;
    Ok(())
}

fn main(rt: HostRuntime) -> ExitCode {
    end(&rt, "check", "DESIGN SET SHEET", check(&rt))
}
