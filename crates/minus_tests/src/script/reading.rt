//! Readers that stop, fail or never end.
ghost use Rattle.std.specs.Prelude.{Some, drop};

use crate::facts::assert_holds;
use crate::script::doubles::{Broken, Slow, Steady};
use minus_script::{ScriptFault, Stream, read_script};
use std::alloc::Global;
use std::io::{ErrorKind, Read};

// Whether a reader gives this script.
fn reads<R: Read>(alloc: Global, reader: &mut R, wanted: &str) -> bool {
    match read_script(alloc, reader) {
        Ok(script) => script.as_slice() == wanted.as_bytes(),
        Err(_) => false,
    }
}

#[test]
fn reads_on_where_it_is_interrupted(rt: HostRuntime) {
    let mut slow = Slow {
        rest: b"push a\n",
        interrupts: false,
    };
    assert_holds(&rt, reads(rt.alloc(), &mut slow, "push a\n"));
}

// How many bytes a reader gives.
fn len_of<R: Read>(alloc: Global, reader: &mut R) -> Option<usize> {
    match read_script(alloc, reader) {
        Ok(script) => Some(script.len()),
        Err(_) => None,
    }
}

#[test]
fn reads_as_often_as_it_may(rt: HostRuntime) {
    let mut most = Steady { left: 1_048_575 };
    assert_holds(&rt, len_of(rt.alloc(), &mut most) == Some(1_048_575));
}

#[test]
fn reads_more_than_a_buffer(rt: HostRuntime) {
    let long = [b'x'; 10_000];
    assert_holds(
        &rt,
        len_of(rt.alloc(), &mut long.as_slice()) == Some(10_000),
    );
}

// The kind of the fault of standard input.
fn kind_of<R: Read>(alloc: Global, reader: &mut R) -> Option<ErrorKind> {
    match read_script(alloc, reader) {
        Err(ScriptFault::Io(Stream::Input, cause)) => Some(cause.kind()),
        _ => None,
    }
}

#[test]
fn gives_up_on_an_endless_reader(rt: HostRuntime) {
    let mut endless = Steady { left: 1_048_576 };
    assert_holds(
        &rt,
        kind_of(rt.alloc(), &mut endless) == Some(ErrorKind::InvalidData),
    );
}

#[test]
fn hands_on_a_readers_error(rt: HostRuntime) {
    let mut broken = Broken { failed: false };
    assert_holds(
        &rt,
        kind_of(rt.alloc(), &mut broken) == Some(ErrorKind::BrokenPipe),
    );
}
