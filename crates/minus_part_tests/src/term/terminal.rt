//! What sets a terminal up and cleans it up, and which part of it a sink refused.
use crate::facts::assert_holds;
use crate::shown::is_shown;
use crate::stubborn::{Refusal, Stubborn, write};
use minus_term::{OutputSink, SetupError, WithTty, cleanup, setup};
use std::alloc::Global;

const SETUP: &[u8] = b"\x1b[?1049h\x1b[?1000h\x1b[?1002h\x1b[?1003h\x1b[?1015h\x1b[?1006h\x1b[?25l";

const CLEANUP: &[u8] =
    b"\x1b[?25h\x1b[?1006l\x1b[?1015l\x1b[?1003l\x1b[?1002l\x1b[?1000l\x1b[?1049l";

// A terminal that is interrupted at one write.
fn terminal(alloc: Global, number: usize) -> WithTty<Stubborn> {
    Stubborn::terminal(alloc, write(number, Refusal::Interrupted))
}

// Whether a sink is set up.
fn is_set_up<S: OutputSink>(sink: &mut S) -> bool {
    setup(sink).is_ok()
}

// Whether a sink is cleaned up, or left where it was not set up.
fn is_cleaned_up<S: OutputSink>(sink: &mut S, was_set_up: bool) -> bool {
    cleanup(sink, was_set_up).is_ok()
}

#[test]
fn sets_a_terminal_up(rt: HostRuntime) {
    let mut sink = terminal(rt.alloc(), 0);
    let is_done = is_set_up(&mut sink) && sink.refusals == 0;
    assert_holds(&rt, is_done && sink.inner.has_taken(SETUP, 54, 3));
}

#[test]
fn cleans_a_terminal_up(rt: HostRuntime) {
    let mut sink = terminal(rt.alloc(), 0);
    let is_done = is_cleaned_up(&mut sink, true) && sink.refusals == 0;
    assert_holds(&rt, is_done && sink.inner.has_taken(CLEANUP, 54, 3));
}

#[test]
fn cleans_nothing_up_unless_asked_to(rt: HostRuntime) {
    let mut sink = terminal(rt.alloc(), 0);
    let is_left = is_cleaned_up(&mut sink, false);
    assert_holds(&rt, is_left && sink.inner.has_taken(b"", 0, 0));
}

// Whether a sink is not set up since it is no terminal.
fn is_no_terminal<S: OutputSink>(sink: &mut S) -> bool {
    matches!(setup(sink), Err(SetupError::InvalidTerminal))
}

#[test]
fn a_vector_is_no_terminal(rt: HostRuntime) {
    let mut bare = Vec::new(rt.alloc());
    assert_holds(&rt, is_no_terminal(&mut bare) && bare.is_empty());
}

#[test]
fn sets_up_a_vector_under_the_flag(rt: HostRuntime) {
    let mut sink = WithTty::new(Vec::new(rt.alloc()), true);
    let has_setup = is_set_up(&mut sink) && sink.inner.as_slice() == SETUP;
    let is_done = is_cleaned_up(&mut sink.inner, true);
    let has_both = sink.inner.len() == SETUP.len() + CLEANUP.len();
    assert_holds(&rt, has_setup && is_done && has_both);
}

// Whether a terminal that refuses a write is not set up for this reason.
fn is_refused_for(alloc: Global, sink: &mut WithTty<Stubborn>, text: &str) -> bool {
    match setup(sink) {
        Ok(()) => false,
        Err(error) => is_shown(alloc, &error, text),
    }
}

// Whether a setup is refused by a sink that refuses this write, and that was settled so often before.
fn is_setup_refused(alloc: Global, write: usize, flushes: usize, text: &str) -> bool {
    let mut sink = terminal(alloc, write);
    let is_named = is_refused_for(alloc, &mut sink, text);
    is_named && sink.inner.writes == write && sink.inner.flushes == flushes
}

#[test]
fn names_the_part_of_a_setup(rt: HostRuntime) {
    let cases: &[(usize, usize, &str)] = &[
        (1, 0, "Failed to switch to alternate screen"),
        (8, 0, "Failed to switch to alternate screen"),
        (9, 1, "Failed to enable mouse capture"),
        (48, 1, "Failed to enable mouse capture"),
        (49, 2, "Failed to hide the cursor"),
        (54, 2, "Failed to hide the cursor"),
    ];
    for (write, flushes, text) in cases {
        assert!(rt;
            is_setup_refused(rt.alloc(), *write, *flushes, text),
            "at write {write}"
        );
    }
}

// Whether a sink that takes nothing at a write is not cleaned up for this reason.
fn is_left_for(alloc: Global, sink: &mut Stubborn, text: &str) -> bool {
    match cleanup(sink, true) {
        Ok(()) => false,
        Err(error) => is_shown(alloc, &error, text),
    }
}

// Whether a cleanup is refused by a sink that takes nothing at this write, and that was settled so often before.
fn is_cleanup_refused(alloc: Global, number: usize, flushes: usize, text: &str) -> bool {
    let mut sink = Stubborn::new(alloc, write(number, Refusal::NothingTaken));
    let is_named = is_left_for(alloc, &mut sink, text);
    is_named && sink.writes == number && sink.flushes == flushes
}

#[test]
fn names_the_part_of_a_cleanup(rt: HostRuntime) {
    let cases: &[(usize, usize, &str)] = &[
        (1, 0, "Failed to show the cursor"),
        (6, 0, "Failed to show the cursor"),
        (7, 1, "Failed to disable mouse capture"),
        (46, 1, "Failed to disable mouse capture"),
        (47, 2, "Failed to switch back to main screen"),
        (54, 2, "Failed to switch back to main screen"),
    ];
    for (write, flushes, text) in cases {
        assert!(rt;
            is_cleanup_refused(rt.alloc(), *write, *flushes, text),
            "at write {write}"
        );
    }
}

// Whether a sink is not set up since its mouse is not captured.
fn is_without_mouse<S: OutputSink>(sink: &mut S) -> bool {
    matches!(setup(sink), Err(SetupError::EnableMouseCapture(_)))
}

#[test]
fn hands_on_a_refused_flush(rt: HostRuntime) {
    let mut sink = terminal(rt.alloc(), 0);
    sink.inner.refused.flush = 2;
    assert_holds(&rt, is_without_mouse(&mut sink) && sink.inner.writes == 48);
}
