//! Drawings to each sink, and the count of refusals.
use crate::facts::assert_holds;
use crate::stubborn::{NOTHING, Refusal, Stubborn, write};
use minus_term::{OutputSink, WithTty, draw_bytes};
use std::alloc::Global;
use std::io::{Cursor, Read};
use std::{fs, io};

// Whether a sink takes a drawing.
pub(crate) fn draws<S: OutputSink>(sink: &mut S, bytes: &[u8]) -> bool {
    draw_bytes(sink, bytes).is_ok()
}

// Whether a sink takes a drawing, and says that it is no terminal.
fn takes<S: OutputSink>(sink: &mut S, bytes: &[u8]) -> bool {
    draws(sink, bytes) && !sink.is_tty()
}

#[test]
fn draws_to_a_cursor(rt: HostRuntime) {
    let mut cursor = Cursor::new(Vec::new(rt.alloc()));
    let taken = takes(&mut cursor, b"to a cursor");
    assert_holds(
        &rt,
        taken && cursor.get_ref().as_slice() == b"to a cursor".as_slice(),
    );
}

// Whether a box of a vector takes a drawing.
fn boxed_takes(alloc: Global, bytes: &[u8]) -> bool {
    match Box::new(alloc, Vec::new(alloc)) {
        Ok(mut boxed) => takes(&mut boxed, bytes) && boxed.as_slice() == bytes,
        Err(_) => false,
    }
}

#[test]
fn draws_to_a_box(rt: HostRuntime) {
    assert_holds(&rt, boxed_takes(rt.alloc(), b"to a box"));
}

// Whether a box settles the sink that it holds, once for a drawing.
fn boxed_settles(alloc: Global, inner: Stubborn, bytes: &[u8]) -> bool {
    match Box::new(alloc, inner) {
        Ok(mut boxed) => takes(&mut boxed, bytes) && boxed.flushes == 1,
        Err(_) => false,
    }
}

#[test]
fn a_box_settles_what_it_holds(rt: HostRuntime) {
    let inner = Stubborn::new(rt.alloc(), NOTHING);
    assert_holds(&rt, boxed_settles(rt.alloc(), inner, b"settled"));
}

#[test]
fn draws_to_nothing(rt: HostRuntime) {
    assert_holds(&rt, takes(&mut io::sink(), b"to nothing"));
}

// No bytes are drawn to the standard streams, since the test's own output goes there.
#[test]
fn each_standard_stream_takes_an_empty_drawing(rt: HostRuntime) {
    let (mut out, mut err) = (rt.stdout(), rt.stderr());
    let streams = takes(&mut out, b"") && takes(&mut err, b"");
    let puts = matches!(out.put(b""), Ok(0)) && matches!(err.put(b""), Ok(0));
    assert_holds(&rt, streams && puts);
}

// Whether a new file takes a drawing.
fn file_takes(rt: &HostRuntime, path: &str, bytes: &[u8]) -> bool {
    match fs::create(rt, path) {
        Ok(mut file) => takes(&mut file, bytes),
        Err(_) => false,
    }
}

// Whether a file holds these bytes.
fn file_holds(rt: &HostRuntime, path: &str, bytes: &[u8]) -> bool {
    let mut held = Vec::new(rt.alloc());
    match fs::open(rt, path) {
        Ok(mut file) => file.read_to_end(&mut held).is_ok() && held.as_slice() == bytes,
        Err(_) => false,
    }
}

#[test]
fn draws_to_a_file(rt: HostRuntime) {
    let path = "draws_to_a_file.txt";
    let taken = file_takes(&rt, path, b"to a file");
    assert_holds(&rt, taken && file_holds(&rt, path, b"to a file"));
}

// Whether a drawing is refused, as the last of this many.
fn is_refused(sink: &mut WithTty<Stubborn>, bytes: &[u8], refusals: u64) -> bool {
    !draws(sink, bytes) && sink.refusals == refusals
}

// Whether a write that takes nothing, an interrupted one and a refused flush are counted, and a drawing that ends well
// is not.
fn counts(sink: &mut WithTty<Stubborn>) -> bool {
    let nothing_taken = is_refused(sink, b"xyz", 1);
    sink.inner.refused.write = 4;
    sink.inner.refused.refusal = Refusal::Interrupted;
    let interrupted = is_refused(sink, b"yz", 2);
    sink.inner.refused.flush = 1;
    let flush_refused = is_refused(sink, b"z", 3);
    let drawn = draws(sink, b"!") && sink.refusals == 3;
    nothing_taken && interrupted && flush_refused && drawn
}

#[test]
fn counts_each_refusal(rt: HostRuntime) {
    let stubborn = Stubborn::new(rt.alloc(), write(2, Refusal::NothingTaken));
    let mut sink = WithTty::new(stubborn, true);
    assert_holds(
        &rt,
        counts(&mut sink) && sink.inner.held.as_slice() == b"xyz!".as_slice(),
    );
}
