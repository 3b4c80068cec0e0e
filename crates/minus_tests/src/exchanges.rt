//! A session's sink is exchanged for another one. Where memory runs out, each answer is `false`.
use crate::facts::assert_holds;
use crate::sessions::{Asked, Session, number_of, session_on, terminal};
use minus::{OutputSink, WithTty};
use std::alloc::Global;

// The page of a text `a` on ten columns and two rows.
const A_PAGE: &str = "\x1b[1;1H\x1b[2J\ra\n\x1b[3;1H\r\x1b[2K\x1b[2;40;37mminus     \x1b[0m";

// The number by which an exchange is refused, and the sink that comes back; 0 where it is not refused.
fn exchanged<S: OutputSink + Drop>(
    session: &mut Session<S>,
    sink: S,
    cols: usize,
    rows: usize,
) -> (u8, S) {
    match session.set_output_sink(sink, cols, rows) {
        Ok(old) => (0, old),
        Err(refused) => (refused.cause.number(), refused.sink),
    }
}

// A session of a text `a` on 20 columns and three rows.
fn session_of_a(alloc: Global) -> Option<Session<WithTty<Vec<u8>>>> {
    let mut session = session_on(alloc, terminal(alloc), 20, 3)?;
    match number_of(alloc, &mut session, Asked::Push("a")) {
        0 => Some(session),
        _ => None,
    }
}

// Whether the old sink comes back as it was, the new one has the page whole, and later steps are drawn there.
fn is_exchanged(alloc: Global) -> bool {
    let Some(mut session) = session_of_a(alloc) else {
        return false;
    };
    let (number, old) = exchanged(&mut session, terminal(alloc), 10, 2);
    let is_resized = session.state().cols == 10 && session.state().rows == 2;
    let goes_on = number_of(alloc, &mut session, Asked::Shown(false)) == 0;
    let (new, _) = session.finish();
    number == 0
        && is_resized
        && goes_on
        && old.inner.ends_with("\x1b[1;1H\x1b[2Ka".as_bytes())
        && new.inner.starts_with(A_PAGE.as_bytes())
        && new.inner.len() > A_PAGE.len()
}

#[test]
fn another_sink_gets_the_page(rt: HostRuntime) {
    assert_holds(&rt, is_exchanged(rt.alloc()));
}

// Whether a replaced sink comes back as it was, and later steps are drawn on the new one, with nothing before them.
fn is_replaced(alloc: Global) -> bool {
    let Some(mut session) = session_of_a(alloc) else {
        return false;
    };
    let old = session.replace_sink(terminal(alloc));
    let goes_on = number_of(alloc, &mut session, Asked::Shown(false)) == 0;
    let (new, _) = session.finish();
    goes_on
        && old.inner.ends_with("\x1b[1;1H\x1b[2Ka".as_bytes())
        && new.inner.starts_with("\x1b[4;1H\r\x1b[2K".as_bytes())
}

#[test]
fn a_replaced_sink_has_what_follows(rt: HostRuntime) {
    assert_holds(&rt, is_replaced(rt.alloc()));
}
