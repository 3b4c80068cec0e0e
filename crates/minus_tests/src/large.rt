//! Much of each thing at once, with ample memory: nothing is refused.
use crate::facts::assert_holds;
use crate::plain_sessions::Asked::{Does, Push};
use crate::plain_sessions::{PROMPT_ROW, Plain, does, has_page, input, start};
use minus::InputEvent::UpdateUpperMark;
use minus::{Core, InputOf, WithTty};
use std::alloc::Global;

mod keys;

type Session = Core<WithTty<Vec<u8>>, Plain>;

// A session of 20 columns and this many rows.
fn session_of(alloc: Global, rows: usize) -> Option<Session> {
    match start(alloc, WithTty::new(Vec::new(alloc), true), 20, rows) {
        Ok(session) => Some(session),
        Err(_) => None,
    }
}

// A line that is its number.
fn line(alloc: Global, number: usize) -> Option<String> {
    match format!(in alloc; "{number}\n") {
        Ok(line) => Some(line),
        Err(_) => None,
    }
}

// As many inputs, each of which adds a line.
fn appends(alloc: Global, count: usize) -> Option<Vec<InputOf<Plain>>> {
    let mut inputs = Vec::new(alloc);
    for number in 0..count {
        let added = line(alloc, number)?;
        let Ok(asked) = input(alloc, Push(&added)) else {
            return None;
        };
        if inputs.push(asked).is_err() {
            return None;
        }
    }
    Some(inputs)
}

// Whether a session takes 10,000 inputs in one run.
fn runs_long(alloc: Global) -> bool {
    let (Some(mut session), Some(inputs)) = (session_of(alloc, 3), appends(alloc, 10_000)) else {
        return false;
    };
    let ran = session.run(inputs);
    ran.done == 10_000
        && ran.stopped.is_none()
        && does(alloc, &mut session, &[Does(UpdateUpperMark(usize::MAX))])
        && has_page(&session, &["9998", "9999", PROMPT_ROW])
}

#[test]
fn ten_thousand_inputs_are_taken_in_one_run(rt: HostRuntime) {
    assert_holds(&rt, runs_long(rt.alloc()));
}
