//! `tape`: reads labelled magnetic tape volumes in SIMH `.tap` images.
#![tactic(auto)]

use std::io::IsTerminal;
use std::process::ExitCode;

fn main(rt: HostRuntime) -> ExitCode {
    ExitCode::from(tape_tool::run_on(&rt, rt.stderr().is_terminal()))
}
