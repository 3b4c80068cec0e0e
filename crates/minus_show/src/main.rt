//! Shows what a pager shows: runs a script of commands, and prints the rows of the last page.
#![tactic(auto)]

use minus_script::run_to_end;
use std::process::ExitCode;

fn main(rt: HostRuntime) -> ExitCode {
    run_to_end(&rt)
}
