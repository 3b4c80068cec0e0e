//! Steps a session over a sink that keeps nothing, so that the instructions of its steps alone can be counted:
//! `minus_bench TEXT TURNS [ACT..] [-- ACT..]`, over the text on standard input. The acts before `--` prepare the
//! session, those behind it are counted; `tools/measure.py` says how.
#![tactic(auto)]

mod act;
mod plan;
mod work;

use crate::plan::parse_plan;
use crate::work::do_work;
use anyhow::Result;
use std::{env, io};

fn main(rt: HostRuntime) -> Result<()> {
    let alloc = rt.alloc();
    let words = Vec::from_iter(alloc, env::args(&rt)?)?;
    let plan = parse_plan(alloc, &words)?;
    let text = io::read_to_string(alloc, rt.stdin())?;
    do_work(&rt, &plan, text.as_str())
}
