//! Writes beside the drawing of a page.
use crate::facts::assert_holds;
use crate::stubborn::{NOTHING, Refusal, Stubborn, write};
use minus_term::{MinusError, clear_entire_screen, move_cursor, write_raw_lines};
use std::alloc::Global;
use std::convert::AsStr;
use std::io::ErrorKind;

// A sink that refuses nothing.
fn sink(alloc: Global) -> Stubborn {
    Stubborn::new(alloc, NOTHING)
}

// The kind of the sink's own error, where that refused a write.
fn kind_of(outcome: Result<(), MinusError>) -> Option<ErrorKind> {
    match outcome {
        Err(MinusError::Draw(cause)) => Some(cause.kind()),
        _ => None,
    }
}

// Whether the cursor is moved to a column and a row.
fn moves(alloc: Global, out: &mut Stubborn, col: u16, row: u16, flush: bool) -> bool {
    move_cursor(alloc, out, col, row, flush).is_ok()
}

#[test]
fn moves_the_cursor_and_settles_if_asked_to(rt: HostRuntime) {
    let alloc = rt.alloc();
    let mut out = sink(alloc);
    let is_left = moves(alloc, &mut out, 4, 9, false) && out.flushes == 0;
    let is_moved = moves(alloc, &mut out, 0, 65535, true);
    let is_taken = out.has_taken(b"\x1b[10;5H\x1b[65536;1H", 17, 1);
    assert_holds(&rt, is_left && is_moved && is_taken);
}

// Whether the screen is cleared.
fn clears(out: &mut Stubborn, flush: bool) -> bool {
    clear_entire_screen(out, flush).is_ok()
}

#[test]
fn clears_the_screen_and_settles_if_asked_to(rt: HostRuntime) {
    let mut out = sink(rt.alloc());
    let is_left = clears(&mut out, false) && out.flushes == 0;
    let is_cleared = clears(&mut out, true);
    assert_holds(
        &rt,
        is_left && is_cleared && out.has_taken(b"\x1b[2J\x1b[2J", 8, 1),
    );
}

// Whether some lines are written as these bytes, and the sink is not settled.
fn are_written<L: AsStr>(alloc: Global, lines: &[L], initial: Option<&str>, bytes: &str) -> bool {
    let mut out = sink(alloc);
    let written = write_raw_lines(alloc, &mut out, lines, initial).is_ok();
    written && out.held.as_slice() == bytes.as_bytes() && out.flushes == 0
}

// Whether a string that holds a line is written as the line.
fn is_string_written(alloc: Global, line: &str, bytes: &str) -> bool {
    let mut lines = Vec::new(alloc);
    match String::from_str(alloc, line) {
        Ok(line) => lines.push(line).is_ok() && are_written(alloc, &lines, None, bytes),
        Err(_) => false,
    }
}

#[test]
fn writes_raw_lines(rt: HostRuntime) {
    let alloc = rt.alloc();
    let lines = &["one", "", "two"];
    assert_holds(
        &rt,
        are_written(alloc, lines, Some("\r"), "\rone\n\r\n\rtwo\n"),
    );
    assert_holds(&rt, is_string_written(alloc, "three", "three\n"));
    assert_holds(&rt, are_written(alloc, &lines[..0], Some("\r"), ""));
}

#[test]
fn hands_on_a_refused_write(rt: HostRuntime) {
    let mut out = Stubborn::new(rt.alloc(), write(4, Refusal::NothingTaken));
    let kind = kind_of(move_cursor(rt.alloc(), &mut out, 0, 0, true));
    assert_holds(
        &rt,
        kind == Some(ErrorKind::WriteZero) && out.has_taken(b"\x1b[1", 4, 0),
    );
}

#[test]
fn hands_on_a_refused_flush(rt: HostRuntime) {
    let mut out = sink(rt.alloc());
    out.refused.flush = 1;
    let kind = kind_of(clear_entire_screen(&mut out, true));
    assert_holds(&rt, kind == Some(ErrorKind::BrokenPipe));
}
