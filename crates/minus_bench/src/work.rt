//! A work: a session is started and prepared, and then the inputs that are counted are performed.
use crate::act::Act;
use crate::plan::{Coming, Plan};
use anyhow::{Result, bail};
use minus::{
    Calls, Command, Core, Input, InputOf, MinusError, Pager, PagerState, Ran, RanOf, WithTty,
    dynamic_paging,
};
use std::alloc::{AllocError, Global};
use std::io;
use std::io::Sink;

// A session over a sink that keeps nothing.
type Bench<P> = Core<WithTty<Sink>, P>;

// Parts of the text stand apart by this character, and each is a push of its own.
const SEPARATOR: char = '\x1e';

fn append(alloc: Global, text: &str) -> Result<Input, AllocError> {
    Ok(Input::Command(Command::AppendData(String::from_str(alloc, text)?)))
}

fn pushes(alloc: Global, text: &str) -> Result<Vec<Input>, AllocError> {
    let mut inputs = Vec::new(alloc);
    for part in text.split(SEPARATOR) {
        inputs.push(append(alloc, part)?)?;
    }
    Ok(inputs)
}

// The acts in turn, this many of them.
fn turns_of(alloc: Global, acts: &[Act], turns: usize) -> Result<Vec<Input>, AllocError> {
    let mut inputs = Vec::new(alloc);
    for (turn, act) in acts.iter().cycle().take(turns).enumerate() {
        inputs.push(act.input(turn))?;
    }
    Ok(inputs)
}

// What prepares the session.
fn inputs_before(alloc: Global, plan: &Plan, text: &str) -> Result<Vec<Input>, AllocError> {
    let mut inputs = turns_of(alloc, &plan.before, plan.before.len())?;
    if let Coming::Shown = plan.coming {
        inputs.insert(0, append(alloc, text)?)?;
    }
    Ok(inputs)
}

// What is counted.
fn inputs_counted(alloc: Global, plan: &Plan, text: &str) -> Result<Vec<Input>, AllocError> {
    match plan.coming {
        Coming::Pushed => pushes(alloc, text),
        Coming::Set => {
            let text = String::from_str(alloc, text)?;
            Ok(vec![in alloc; Input::Command(Command::SetData(text))]?)
        }
        Coming::Shown | Coming::Waiting => turns_of(alloc, &plan.counted, plan.turns),
    }
}

// A pager that was told what waits for the start.
fn told(alloc: Global, plan: &Plan, text: &str) -> Result<Pager, MinusError> {
    let mut pager = Pager::new(alloc);
    if let Coming::Waiting = plan.coming {
        for part in text.split(SEPARATOR) {
            pager.push_str(part)?;
        }
    }
    Ok(pager)
}

// The inputs that can be counted alone.
#[inline(never)]
fn run_counted<P: Calls>(session: &mut Bench<P>, inputs: Vec<InputOf<P>>) -> RanOf<P> {
    session.run(inputs)
}

// The result of a list of inputs, where none was refused or left.
fn all_done(ran: Ran) -> Result<()> {
    match ran.stopped {
        Some(refusal) => Err(anyhow::Error::from(refusal)),
        None if ran.rest.is_empty() => Ok(()),
        None => bail!("a step ended the work"),
    }
}

// What the page and the text are at the end, so that two programs can be seen to have come to one end.
fn print_end(rt: &HostRuntime, state: &PagerState) -> io::Result<()> {
    let rows = state.screen.formatted_lines_count();
    let lines = state.screen.line_count();
    let matches = state.screen.match_count();
    let mark = state.upper_mark;
    println!(rt; "rows {rows} lines {lines} matches {matches} mark {mark}")
}

/// Does a work over a text, and prints its end.
pub(crate) fn do_work(rt: &HostRuntime, plan: &Plan, text: &str) -> Result<()> {
    let alloc = rt.alloc();
    let before = inputs_before(alloc, plan, text)?;
    let counted = inputs_counted(alloc, plan, text)?;
    let pager = told(alloc, plan, text)?;
    let mut session = match dynamic_paging(pager, WithTty::new(io::sink(), true), 80, 24) {
        Ok(session) => session,
        Err(refused) => return Err(anyhow::Error::from(refused.cause)),
    };
    all_done(session.run(before))?;
    all_done(run_counted(&mut session, counted))?;
    print_end(rt, session.state())?;
    Ok(())
}
