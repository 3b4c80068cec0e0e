//! Sessions over other sinks than a vector.
use crate::facts::assert_holds;
use crate::sessions::{Asked, CLEANUP, SETUP, are_bytes, number_of, session_on, terminal};
use minus::{OutputSink, WithTty};
use std::alloc::Global;
use std::io::{Cursor, Read};
use std::{fs, io};

// The bytes of a session of 6 columns and 2 rows without a text.
const EMPTY_SESSION: [&str; 3] = [
    SETUP,
    "\x1b[1;1H\x1b[2J\x1b[3;1H\r\x1b[2K\x1b[2;40;37mminus \x1b[0m",
    CLEANUP,
];

// A sink after a session without a text, from its start to its end; none where it refused something.
fn paged<S: OutputSink + Drop>(alloc: Global, sink: S) -> Option<S> {
    let (sink, finished) = session_on(alloc, sink, 6, 2)?.finish();
    match finished {
        Ok(()) => Some(sink),
        Err(_) => None,
    }
}

// Whether a session writes to a cursor.
fn is_in_a_cursor(alloc: Global) -> bool {
    match paged(alloc, WithTty::new(Cursor::new(Vec::new(alloc)), true)) {
        Some(sink) => are_bytes(&sink.inner.into_inner(), &EMPTY_SESSION),
        None => false,
    }
}

#[test]
fn a_cursor_gets_a_session(rt: HostRuntime) {
    assert_holds(&rt, is_in_a_cursor(rt.alloc()));
}

#[test]
fn a_sink_that_keeps_nothing_is_taken(rt: HostRuntime) {
    assert_holds(
        &rt,
        paged(rt.alloc(), WithTty::new(io::sink(), true)).is_some(),
    );
}

// Whether a session that has a text pushed writes to a box, and cleans it up.
fn is_in(alloc: Global, boxed: Box<WithTty<Vec<u8>>>) -> bool {
    let Some(mut session) = session_on(alloc, boxed, 20, 2) else {
        return false;
    };
    let number = number_of(alloc, &mut session, Asked::Push("a"));
    let (sink, _) = session.finish();
    number == 0 && sink.refusals == 0 && sink.inner.ends_with(CLEANUP.as_bytes())
}

// Whether it does where there is memory for the box.
fn is_in_a_box(alloc: Global) -> bool {
    match Box::new(alloc, terminal(alloc)) {
        Ok(boxed) => is_in(alloc, boxed),
        Err(_) => false,
    }
}

#[test]
fn a_box_gets_a_session(rt: HostRuntime) {
    assert_holds(&rt, is_in_a_box(rt.alloc()));
}

// Whether a session writes to a file.
fn is_paged(rt: &HostRuntime, path: &str) -> bool {
    match fs::create(rt, path) {
        Ok(file) => paged(rt.alloc(), WithTty::new(file, true)).is_some(),
        Err(_) => false,
    }
}

// Whether a file has the bytes of a session.
fn is_read_back(rt: &HostRuntime, path: &str) -> bool {
    let Ok(mut file) = fs::open(rt, path) else {
        return false;
    };
    let mut text = Vec::new(rt.alloc());
    file.read_to_end(&mut text).is_ok() && are_bytes(&text, &EMPTY_SESSION)
}

#[test]
fn a_file_is_read_back(rt: HostRuntime) {
    let path = "a_file_is_read_back.txt";
    assert_holds(&rt, is_paged(&rt, path) && is_read_back(&rt, path));
}
