//! Sinks that refuse a step.
use crate::facts::assert_holds;
use crate::sessions::{
    Asked, CLEANUP, Command, Input, PROMPT_ROW, Ran, SETUP, Session, TEN_LINES, are_bytes,
    number_of, run, session_on, start,
};
use minus::{CleanupError, MinusError, OutputSink, WithTty};
use minus_part_tests::stubborn::{Refusal, Stubborn, write};
use std::alloc::Global;
use std::io::ErrorKind;

// This many writes and flushes a start on 20 columns and 5 rows takes: the setup, and the first page.
const START_WRITES: usize = 54 + 55;

// What stands before the prompt row of a page of four rows.
const FIFTH_ROW: &str = "\x1b[5;1H\r\x1b[2K";

// The kind of the sink's error that a refusal of a drawing or a cleanup hands on.
fn kind_of(refusal: &MinusError) -> Option<ErrorKind> {
    match refusal {
        MinusError::Draw(cause) => Some(cause.kind()),
        MinusError::Cleanup(CleanupError::ShowCursor(cause)) => Some(cause.0.kind()),
        _ => None,
    }
}

// Whether a run was refused by the sink's own error.
fn is_broken(ran: &Ran) -> bool {
    match &ran.stopped {
        Some(refusal) => kind_of(refusal) == Some(ErrorKind::BrokenPipe),
        None => false,
    }
}

// Whether a session whose sink refuses its next write refuses what is asked of it by that.
fn is_handed_on(alloc: Global, asked: Asked<'_>) -> bool {
    let sink = Stubborn::terminal(alloc, write(START_WRITES + 1, Refusal::Broken));
    let Some(mut session) = session_on(alloc, sink, 20, 5) else {
        return false;
    };
    match run(alloc, &mut session, &[asked]) {
        Some(ran) => is_broken(&ran),
        None => false,
    }
}

#[test]
fn a_refusal_hands_on_the_sinks_error(rt: HostRuntime) {
    let refused: &[&Asked<'_>] = &[&Asked::Push("a"), &Asked::Exit];
    for asked in refused {
        assert_holds(&rt, is_handed_on(rt.alloc(), **asked));
    }
}

// Whether the inputs that a run left are the push of this text.
fn is_left(rest: &[Input], text: &str) -> bool {
    match rest {
        [Input::Command(Command::AppendData(left))] => left.as_str() == text,
        _ => false,
    }
}

// Whether a run stopped at a refused write behind its first step, with the push of a text left.
fn is_stopped(ran: &Ran, text: &str) -> bool {
    let is_refused = match &ran.stopped {
        Some(refusal) => refusal.number() == 14,
        None => false,
    };
    is_refused && ran.done == 1 && ran.last.is_some() && is_left(&ran.rest, text)
}

const THREE_PUSHES: &[Asked<'static>] = &[Asked::Push("a"), Asked::Push("b"), Asked::Push("c")];

// Whether a run of three pushes, the second of which is refused its ninth write, stops so.
fn stops_on_its_way(alloc: Global) -> bool {
    let sink = Stubborn::terminal(alloc, write(START_WRITES + 20, Refusal::Broken));
    let Some(mut session) = session_on(alloc, sink, 20, 5) else {
        return false;
    };
    match run(alloc, &mut session, THREE_PUSHES) {
        Some(ran) => is_stopped(&ran, "c"),
        None => false,
    }
}

#[test]
fn a_run_stops_at_a_refused_write(rt: HostRuntime) {
    assert_holds(&rt, stops_on_its_way(rt.alloc()));
}

// Whether a session does this, or refuses it since memory ran out and does it when it is asked for again.
fn does_at_last<S: OutputSink + Drop>(
    alloc: Global,
    session: &mut Session<S>,
    asked: Asked<'_>,
) -> bool {
    let first = number_of(alloc, session, asked);
    first == 0 || (first == 1 && number_of(alloc, session, asked) == 0)
}

// Whether a session does a push of ten lines and a scroll so.
fn scrolls<S: OutputSink + Drop>(alloc: Global, session: &mut Session<S>) -> bool {
    does_at_last(alloc, session, Asked::Push(TEN_LINES))
        && does_at_last(alloc, session, Asked::Mark(2))
}

// Whether a session of four rows does, so that its sink holds these texts at the end, or its start is refused for want
// of memory. The sink has its room before, so that it refuses nothing.
fn writes_once(alloc: Global, texts: &[&str]) -> bool {
    let Ok(held) = Vec::with_capacity(alloc, 4096) else {
        return true;
    };
    let sink = WithTty::new(held, true);
    match start(alloc, sink, 20, 4) {
        Ok(mut session) => {
            let is_scrolled = scrolls(alloc, &mut session);
            let (sink, _) = session.finish();
            is_scrolled && are_bytes(&sink.inner, texts)
        }
        Err(refused) => refused.cause.number() == 1,
    }
}

// With ample memory this shows the bytes of the two steps. Under `rt try --test --fail-alloc N`, which refuses the Nth
// request, it shows that they stay these: what is refused writes nothing and changes nothing.
#[test]
fn a_push_and_a_scroll_are_written_once(rt: HostRuntime) {
    let texts = &[
        SETUP,
        "\x1b[1;1H\x1b[2J",
        FIFTH_ROW,
        PROMPT_ROW,
        "\x1b[1;1H\x1b[2Kl0\x1b[2;1H\x1b[2Kl1\x1b[3;1H\x1b[2Kl2",
        "\x1b[2S\x1b[2;1H\x1b[2K\rl3\n\rl4\n",
        FIFTH_ROW,
        PROMPT_ROW,
        CLEANUP,
    ];
    assert_holds(&rt, writes_once(rt.alloc(), texts));
}
