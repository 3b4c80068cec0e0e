//! Exits and their cleanup.
use crate::facts::assert_holds;
use crate::sessions::{Asked, Input, Ran, Session, run, session_on, terminal};
use minus::{ExitStrategy, OutputSink};
use std::alloc::Global;

// Whether the second step of a run exited, and this many inputs are left.
fn has_exited(ran: &Ran, left: usize) -> bool {
    let exited = match &ran.last {
        Some(answer) => answer.exited,
        None => None,
    };
    exited == Some((ExitStrategy::ProcessQuit, 0)) && ran.done == 2 && ran.rest.len() == left
}

// Whether a run of these inputs is refused by this number.
fn refuses<S: OutputSink + Drop>(session: &mut Session<S>, inputs: Vec<Input>, number: u8) -> bool {
    match session.run(inputs).stopped {
        Some(refusal) => refusal.number() == number,
        None => false,
    }
}

const AN_EXIT_BETWEEN: &[Asked<'static>] = &[
    Asked::Push("a"),
    Asked::Exit,
    Asked::Push("b"),
    Asked::Push("c"),
];

// Whether a run with an exit in its middle stops there, and a run of the two inputs that it left is refused.
fn is_stopped(alloc: Global) -> bool {
    let Some(mut session) = session_on(alloc, terminal(alloc), 6, 2) else {
        return false;
    };
    match run(alloc, &mut session, AN_EXIT_BETWEEN) {
        Some(ran) => has_exited(&ran, 2) && refuses(&mut session, ran.rest, 11),
        None => false,
    }
}

#[test]
fn a_run_stops_after_an_exit(rt: HostRuntime) {
    assert_holds(&rt, is_stopped(rt.alloc()));
}
