//! A session's term is set manually. Where memory runs out, each answer is `false`.
use crate::facts::assert_holds;
use crate::sessions::{Asked, Session, number_of, on_stubborn, session_on, terminal};
use minus::{KeyCode, OutputSink, WithTty};
use minus_part_tests::stubborn::{Refusal, Stubborn, write};
use regex::Regex;
use std::alloc::Global;

// The page of a text of the lines `ab` and `b` on 20 columns and three rows, and that page where `b` is searched for.
const PLAIN: &str =
    "\x1b[1;1H\x1b[2J\rab\n\rb\n\x1b[4;1H\r\x1b[2K\x1b[2;40;37mminus               \x1b[0m";

const MARKED: &str = "\x1b[1;1H\x1b[2J\ra\x1b[7mb\x1b[27m\n\r\x1b[7mb\x1b[27m\n\x1b[4;1H\r\x1b[2K\
\x1b[2;40;37mminus          \x1b[30;44m 1/2 \x1b[0m";

// The number by which a pattern, or none, is refused; 0 where it is not.
fn set<S: OutputSink + Drop>(session: &mut Session<S>, alloc: Global, pattern: Option<&str>) -> u8 {
    let term = match pattern {
        Some(pattern) => Regex::new(alloc, pattern).ok(),
        None => None,
    };
    match session.set_term(term) {
        Ok(()) => 0,
        Err(refused) => refused.number(),
    }
}

// A session of that text.
fn session_of_two(alloc: Global) -> Option<Session<WithTty<Vec<u8>>>> {
    let mut session = session_on(alloc, terminal(alloc), 20, 3)?;
    match number_of(alloc, &mut session, Asked::Push("ab\nb")) {
        0 => Some(session),
        _ => None,
    }
}

// Whether this is all that a term draws.
fn draws(
    session: &mut Session<WithTty<Vec<u8>>>,
    alloc: Global,
    pattern: Option<&str>,
    page: &str,
) -> bool {
    let _ = session.replace_sink(terminal(alloc));
    let number = set(session, alloc, pattern);
    let drawn = session.replace_sink(terminal(alloc));
    number == 0 && drawn.inner.as_slice() == page.as_bytes()
}

// Whether the matches of a term are shown, and are shown no more once there is none.
fn are_shown(alloc: Global) -> bool {
    let Some(mut session) = session_of_two(alloc) else {
        return false;
    };
    draws(&mut session, alloc, Some("b"), MARKED)
        && session.state().matches().len() == 2
        && draws(&mut session, alloc, None, PLAIN)
        && session.state().matches().is_empty()
        && session.state().term().is_none()
}

#[test]
fn a_term_is_set_and_taken_away(rt: HostRuntime) {
    assert_holds(&rt, are_shown(rt.alloc()));
}

// Whether an open search prompt and an exit refuse a term.
fn are_refused(alloc: Global) -> bool {
    let Some(mut session) = session_of_two(alloc) else {
        return false;
    };
    number_of(alloc, &mut session, Asked::Key('/')) == 0
        && set(&mut session, alloc, Some("b")) == 9
        && session.state().term().is_none()
        && number_of(alloc, &mut session, Asked::Pressed(KeyCode::Esc)) == 0
        && number_of(alloc, &mut session, Asked::Exit) == 0
        && set(&mut session, alloc, Some("b")) == 11
}

#[test]
fn a_term_is_refused(rt: HostRuntime) {
    assert_holds(&rt, are_refused(rt.alloc()));
}

// Whether a sink that refuses the page fails the session.
fn is_broken_off(alloc: Global) -> bool {
    let Some(mut session) = on_stubborn(alloc) else {
        return false;
    };
    let _ = session.replace_sink(Stubborn::terminal(alloc, write(3, Refusal::Broken)));
    set(&mut session, alloc, Some("b")) == 14 && set(&mut session, alloc, None) == 10
}

#[test]
fn a_refused_page_fails_the_session(rt: HostRuntime) {
    assert_holds(&rt, is_broken_off(rt.alloc()));
}
