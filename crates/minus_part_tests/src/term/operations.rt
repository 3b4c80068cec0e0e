//! The bytes of each operation, and how they reach a sink.
use crate::facts::assert_holds;
use crate::stubborn::{NOTHING, Refusal, Stubborn, write};
use crate::term::sinks::draws;
use minus_term::{DrawOp, OutputSink, draw_bytes, write_bytes, write_op};
use std::alloc::Global;
use std::io;
use std::io::ErrorKind;

// Whether an operation is written as these bytes.
fn is_written(alloc: Global, op: &DrawOp<'_>, bytes: &str) -> bool {
    let mut out = Vec::new(alloc);
    write_op(alloc, &mut out, op).is_ok() && out.as_slice() == bytes.as_bytes()
}

#[test]
fn writes_each_operation(rt: HostRuntime) {
    let cases: &[(&DrawOp<'_>, &str)] = &[
        (&DrawOp::ClearAll, "\x1b[2J"),
        (&DrawOp::ClearRow, "\x1b[2K"),
        (&DrawOp::GoTo(4, 9), "\x1b[10;5H"),
        (&DrawOp::GoTo(65535, 65535), "\x1b[65536;65536H"),
        (&DrawOp::Return, "\r"),
        (&DrawOp::NextRow, "\n"),
        (&DrawOp::Put("a row"), "a row"),
        (&DrawOp::ScrollUp(0), ""),
        (&DrawOp::ScrollUp(12), "\x1b[12S"),
        (&DrawOp::ScrollDown(0), ""),
        (&DrawOp::ScrollDown(3), "\x1b[3T"),
        (&DrawOp::ShowCursor, "\x1b[?25h"),
        (&DrawOp::HideCursor, "\x1b[?25l"),
    ];
    for (op, bytes) in cases {
        assert!(rt; is_written(rt.alloc(), op, bytes), "at {op:?}");
    }
}

#[test]
fn draws_to_a_vector(rt: HostRuntime) {
    let mut sink = Vec::new(rt.alloc());
    let drawn = draws(&mut sink, b"one") && draws(&mut sink, b"") && draws(&mut sink, b"two");
    assert_holds(
        &rt,
        drawn && sink.as_slice() == b"onetwo".as_slice() && !sink.is_tty(),
    );
}

#[test]
fn settles_once_after_all_bytes(rt: HostRuntime) {
    let mut sink = Stubborn::new(rt.alloc(), NOTHING);
    let drawn = draws(&mut sink, b"xyz");
    assert_holds(&rt, drawn && sink.has_taken(b"xyz", 3, 1));
}

// The kind of a refusal.
fn kind_of(outcome: io::Result<()>) -> Option<ErrorKind> {
    match outcome {
        Ok(()) => None,
        Err(cause) => Some(cause.kind()),
    }
}

#[test]
fn hands_on_the_first_refusal(rt: HostRuntime) {
    let mut sink = Stubborn::new(rt.alloc(), write(3, Refusal::Interrupted));
    let kind = kind_of(draw_bytes(&mut sink, b"xyz!"));
    assert_holds(
        &rt,
        kind == Some(ErrorKind::Interrupted) && sink.has_taken(b"xy", 3, 0),
    );
}

#[test]
fn takes_nothing_for_a_refusal(rt: HostRuntime) {
    let mut sink = Stubborn::new(rt.alloc(), write(2, Refusal::NothingTaken));
    let kind = kind_of(write_bytes(&mut sink, b"xyz"));
    assert_holds(
        &rt,
        kind == Some(ErrorKind::WriteZero) && sink.has_taken(b"x", 2, 0),
    );
}
