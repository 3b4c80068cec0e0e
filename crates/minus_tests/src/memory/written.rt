//! Exchanges of sinks, steps known by their bytes, and what is registered.
use super::seen::seen_of;
use super::{Counted, FIRST, Lent, Log, TEN, number_of_all, session_in};
use crate::facts::assert_holds;
use crate::plain_sessions::{Asked, CLEANUP, Keys, PROMPT_ROW, has_page, number_of};
use crate::shared::{Counting, Shared, count_held, holds_behind};
use minus::{CommandOf, Hook, InputEvent, InputOf, NeverShows, SinkError};
use regex::Regex;
use std::alloc::Global;

// All that each test here does before what it tries: the tool refuses these requests here alone.
#[test]
fn begins(rt: HostRuntime) {
    if let Some(log) = Log::new(rt.alloc()) {
        let is_empty = log.is_empty();
        let session = session_in(rt.alloc(), &log);
        assert_holds(&rt, is_empty && (session.is_none() || !log.is_empty()));
    }
}

// A session of ten lines; none where there is no memory for it.
fn of_ten<'a>(alloc: Global, log: &'a Log) -> Option<Lent<'a>> {
    let mut session = session_in(alloc, log)?;
    (number_of_all(alloc, &mut session, &TEN) == 0).then_some(session)
}

// Whether a sink is exchanged at once, or the given one comes back with nothing changed and is taken when it is given
// again.
fn is_exchanged(alloc: Global, log: &Log, other: &Log) -> bool {
    let Some(mut session) = of_ten(alloc, log) else {
        return true;
    };
    let before = seen_of(&session, log);
    let back = match session.set_output_sink(Shared::new(&other.held, true), 20, 4) {
        Ok(back) => Some(back),
        Err(refused) => {
            let SinkError { sink, cause } = refused;
            let stays = cause.number() == 1 && seen_of(&session, log) == before && other.is_empty();
            let stays = stays && has_page(&session, &FIRST);
            match session.set_output_sink(sink, 20, 4) {
                Ok(back) if stays => Some(back),
                _ => None,
            }
        }
    };
    let page = "\x1b[1;1H\x1b[2J\rl0\n\rl1\n\rl2\n";
    back.is_some()
        && seen_of(&session, log) == before
        && other.holds(&[page, "\x1b[5;1H\r\x1b[2K", PROMPT_ROW])
}

#[test]
fn a_refused_exchange_hands_the_sink_back(rt: HostRuntime) {
    if let (Some(log), Some(other)) = (Log::new(rt.alloc()), Log::new(rt.alloc())) {
        assert_holds(&rt, is_exchanged(rt.alloc(), &log, &other));
    }
}

// Whether a session that has begun so does a step, at once or asked for again with nothing changed, and writes this
// once.
fn is_written_once(alloc: Global, begun: &[Asked<'_>], asked: Asked<'_>, bytes: &str) -> bool {
    let Some(log) = Log::new(alloc) else {
        return true;
    };
    let Some(mut session) = session_in(alloc, &log) else {
        return true;
    };
    match number_of_all(alloc, &mut session, begun) {
        0 => {}
        number => return number == 1,
    }
    let before = seen_of(&session, &log);
    let written = count_held(&log.held);
    let number = match number_of(alloc, &mut session, asked) {
        1 if seen_of(&session, &log) == before => number_of(alloc, &mut session, asked),
        number => number,
    };
    number == 0 && holds_behind(&log.held, written, bytes.as_bytes())
}

#[test]
fn a_refused_scroll_is_written_once(rt: HostRuntime) {
    let bytes =
        "\x1b[2S\x1b[2;1H\x1b[2K\rl3\n\rl4\n\x1b[5;1H\r\x1b[2K\x1b[2;40;37mminus               \x1b[0m";
    let moves = Asked::Does(InputEvent::UpdateUpperMark(2));
    assert_holds(&rt, is_written_once(rt.alloc(), &TEN, moves, bytes));
}

#[test]
fn a_refused_append_is_written_once(rt: HostRuntime) {
    let bytes = "\x1b[2;1H\x1b[2Ktwox\x1b[3;1H\x1b[2Kthree";
    let begun = [Asked::Push("one\ntwo")];
    let pushed = Asked::Push("x\nthree");
    assert_holds(&rt, is_written_once(rt.alloc(), &begun, pushed, bytes));
}

// Whether a term is set at once, or refused since memory ran out with nothing changed and set when it is given again.
fn is_term_set(alloc: Global, log: &Log) -> bool {
    let Some(mut session) = of_ten(alloc, log) else {
        return true;
    };
    let before = seen_of(&session, log);
    for _ in 0..2 {
        let Ok(term) = Regex::new(alloc, "7") else {
            return true;
        };
        match session.set_term(Some(term)) {
            Ok(()) => return session.state().matches().len() == 1,
            Err(cause) if cause.number() == 1 && seen_of(&session, log) == before => (),
            Err(_) => return false,
        }
    }
    false
}

#[test]
fn a_refused_term_changes_nothing(rt: HostRuntime) {
    if let Some(log) = Log::new(rt.alloc()) {
        assert_holds(&rt, is_term_set(rt.alloc(), &log));
    }
}

// Whether a command is done, at once or, where it is refused since memory ran out with nothing changed, when it is
// given again.
macro_rules! is_done {
    ($session:expr, $log:expr, $command:expr) => {{
        let before = seen_of($session, $log);
        let (Some(first), Some(second)) = ($command, $command) else {
            return false;
        };
        match $session.step(InputOf::Command(first)) {
            Ok(_) => true,
            Err(refusal) => {
                refusal.number() == 1
                    && seen_of($session, $log) == before
                    && $session.step(InputOf::Command(second)).is_ok()
            }
        }
    }};
}

// The command that has a callback called at a hook that counts in a log.
fn at_hook(log: &Log, hook: Hook) -> Option<CommandOf<Counted>> {
    match Counting::of(&log.calls) {
        Ok(counting) => Some(CommandOf::AddHook(hook, 0, counting)),
        Err(_) => None,
    }
}

// The one that has it called at an exit.
fn at_exit(log: &Log) -> Option<CommandOf<Counted>> {
    match Counting::of(&log.calls) {
        Ok(counting) => Some(CommandOf::AddExitCallback(counting)),
        Err(_) => None,
    }
}

// Whether callbacks are kept that are registered, beside one of the end.
fn keeps_callbacks(session: &mut Lent<'_>, log: &Log) -> bool {
    is_done!(session, log, at_hook(log, Hook::EofReached))
        && is_done!(session, log, at_hook(log, Hook::PrePagerExit))
        && is_done!(session, log, at_hook(log, Hook::PostPagerExit))
        && is_done!(session, log, at_exit(log))
}

// Whether one of the end goes again, and a classifier and a condition are kept.
fn keeps_others(session: &mut Lent<'_>, log: &Log) -> bool {
    is_done!(
        session,
        log,
        Some(CommandOf::RemoveHook(Hook::EofReached, 2))
    ) && is_done!(session, log, Some(CommandOf::SetInputClassifier(Keys)))
        && is_done!(
            session,
            log,
            Some(CommandOf::IncrementalSearchCondition(NeverShows))
        )
}

// Whether they are called, once each, at the end and at the exit, which cleans up.
fn calls_callbacks(alloc: Global, session: &mut Lent<'_>, log: &Log) -> bool {
    let to_end = InputEvent::UpdateUpperMark(7);
    let is_moved = is_done!(session, log, Some(CommandOf::UserInput(to_end)))
        && log.calls.get() == 1;
    let written = count_held(&log.held);
    is_moved
        && is_done!(session, log, Some(CommandOf::UserInput(InputEvent::Exit)))
        && log.calls.get() == 4
        && holds_behind(&log.held, written, CLEANUP.as_bytes())
        && number_of(alloc, session, Asked::Shown(true)) == 11
}

// Whether a session of ten lines keeps and calls what is registered.
fn keeps_and_calls(alloc: Global, log: &Log) -> bool {
    match of_ten(alloc, log) {
        Some(mut session) => {
            keeps_callbacks(&mut session, log)
                && keeps_others(&mut session, log)
                && calls_callbacks(alloc, &mut session, log)
        }
        None => true,
    }
}

#[test]
fn a_refused_callback_is_handed_over_again(rt: HostRuntime) {
    if let Some(log) = Log::new(rt.alloc()) {
        assert_holds(&rt, keeps_and_calls(rt.alloc(), &log));
    }
}
