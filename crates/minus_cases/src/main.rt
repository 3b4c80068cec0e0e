//! Runs cases: prints what each line on standard input leads to, a line of a script or a call of a function.
#![tactic(auto)]

mod calls;
mod commands;
mod driven;
mod kept;
mod layouts;
mod lines;
mod pages;
mod printed;
mod queries;
mod sessions;
mod texts;
mod views;

use crate::sessions::Cases;
use minus_script::{ScriptFault, read_script, write_out};
use std::process::ExitCode;

// Runs the lines on standard input, and prints to standard output.
fn run(rt: &HostRuntime) -> Result<(), ScriptFault> {
    let lines = read_script(rt.alloc(), &mut rt.stdin())?;
    let printed = Cases::new(rt.alloc())?.run_all(&lines)?;
    write_out(&mut rt.stdout(), printed.as_bytes())
}

fn main(rt: HostRuntime) -> ExitCode {
    match run(&rt) {
        Ok(()) => ExitCode::SUCCESS,
        Err(fault) => {
            let _ = rt.eprintln(fault);
            ExitCode::FAILURE
        }
    }
}
