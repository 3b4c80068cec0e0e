//! A text that is there.
use minus_app::{Fault, end_program, page_all};
use std::process::ExitCode;

fn page(rt: &HostRuntime) -> Result<(), Fault> {
    page_all(rt, String::from_str(rt.alloc(), "one\ntwo\n")?)
}

pub fn main(rt: HostRuntime) -> ExitCode {
    end_program(&rt, "yours", page(&rt))
}
