//! Pages a fixed text on standard output, as a program on this library does: it starts a session over its sink, hands
//! in what the reader does, one event at a time, and gives the terminal back at the end.
#![tactic(auto)]

use minus::{Event, Input, MinusError, Pager, WithTty, dynamic_paging, parse_key_event};
use std::process::ExitCode;

fn page(rt: &HostRuntime) -> Result<(), MinusError> {
    let mut pager = Pager::new(rt.alloc());
    pager.push_str("one\ntwo\nthree\nfour\nfive\nsix\nseven\neight\n")?;
    // A program asks the system whether its output is a terminal. This one says so, so that its run can be stored.
    let mut session = dynamic_paging(pager, WithTty::new(rt.stdout(), true), 20, 5)?;
    for key in ["j", "3", "G", "s-m", "q", "q"] {
        let key = parse_key_event(key)?;
        let _ = session.step(Input::Event(Event::Key(key)))?;
    }
    let (_, cleaned) = session.finish();
    Ok(cleaned?)
}

fn main(rt: HostRuntime) -> ExitCode {
    match page(&rt) {
        Ok(()) => ExitCode::SUCCESS,
        Err(refusal) => ExitCode::from(refusal.number()),
    }
}
