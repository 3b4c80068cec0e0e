//! Starts of sessions, and texts that are printed where they fit.
use super::{Counted, Log, Pager, add_exit, add_hook};
use crate::facts::assert_holds;
use crate::plain_sessions::{Keys, SETUP};
use crate::shared::Shared;
use minus::{
    Hook, PagedOf, PagerOf, RunMode, StartErrorOf, WithTty, init_core_with, page_all_with,
};
use std::alloc::Global;
use std::process::Abort;

type Sink<'a> = WithTty<Shared<'a>>;

type Unstarted<'a> = StartErrorOf<Sink<'a>, Counted>;

type Outcome<'a> = Result<PagedOf<Sink<'a>, Counted>, Unstarted<'a>>;

// A text that is started with or printed, and what the sink holds then, and how many callbacks were called.
#[derive(Drop)]
struct StartShown<'a> {
    is_printed: bool,
    is_terminal: bool,
    text: &'a str,
    texts: &'a [&'a str],
    calls: u32,
}

// A pager in which a text waits, followed and with a last line `9` that is pushed in two pieces, and callbacks.
fn pager_of(alloc: Global, log: &Log, text: &str) -> Option<Pager> {
    let mut pager: Pager = PagerOf::new(alloc);
    let is_told = pager.set_text(text).is_ok()
        && pager.push_str("").is_ok()
        && pager.push_str("9").is_ok()
        && pager.set_prompt("p").is_ok()
        && pager.follow_output(true).is_ok()
        && add_hook(&mut pager, Hook::PrePagerStart, log).is_ok()
        && add_exit(&mut pager, log).is_ok();
    is_told.then_some(pager)
}

// What becomes of a pager and a sink.
fn begun<'a>(is_printed: bool, pager: Pager, sink: Sink<'a>) -> Outcome<'a> {
    if is_printed {
        return page_all_with(pager, sink, 20, 4, Keys);
    }
    match init_core_with(pager, RunMode::Static, sink, 20, 4, Keys) {
        Ok(session) => Ok(PagedOf::Started(session)),
        Err(refused) => Err(refused),
    }
}

// The pager and the sink that come back since memory ran out before anything is written or called.
fn handed_back<'a>(refused: Unstarted<'a>, log: &Log) -> Option<(Pager, Sink<'a>)> {
    let StartErrorOf { sink, pager, cause } = refused;
    let pager = pager?;
    (cause.number() == 1 && log.is_empty()).then_some((pager, sink))
}

// Whether a text is shown, at once or with what comes back where there was no memory.
fn is_shown_at_last(alloc: Global, log: &Log, wanted: &StartShown<'_>) -> bool {
    let Some(pager) = pager_of(alloc, log, wanted.text) else {
        return true;
    };
    let sink = Shared::new(&log.held, wanted.is_terminal);
    let is_shown = match begun(wanted.is_printed, pager, sink) {
        Ok(_) => true,
        Err(refused) => match handed_back(refused, log) {
            Some((pager, sink)) => begun(wanted.is_printed, pager, sink).is_ok(),
            None => false,
        },
    };
    is_shown && log.holds(wanted.texts) && log.calls.get() == wanted.calls
}

// Fails where a text is not.
fn assert_shown(rt: &impl Abort, alloc: Global, wanted: &StartShown<'_>) {
    if let Some(log) = Log::new(alloc) {
        assert!(rt; is_shown_at_last(alloc, &log, wanted));
    }
}

// All that each test here does before what it tries: the tool refuses these requests here alone.
#[test]
fn begins(rt: HostRuntime) {
    if let Some(log) = Log::new(rt.alloc()) {
        let pager = pager_of(rt.alloc(), &log, "");
        assert_holds(&rt, pager.is_none() || log.is_empty());
    }
}

const P_ROW: &str = "\x1b[2;40;37mp                \x1b[1m[F]\x1b[0m";

const FIFTH_ROW: &str = "\x1b[5;1H\r\x1b[2K";

const STARTED: StartShown<'static> = StartShown {
    is_printed: false,
    is_terminal: true,
    text: "l0\nl1\nl2\nl3\nl4\nl5\nl6\nl7\nl8\n",
    texts: &[
        SETUP,
        "\x1b[1;1H\x1b[2J\rl0\n\rl1\n\rl2\n",
        FIFTH_ROW,
        P_ROW,
        "\x1b[3S\x1b[1;1H\x1b[2K\rl7\n\rl8\n\r9\n",
        FIFTH_ROW,
        P_ROW,
    ],
    calls: 1,
};

#[test]
fn a_refused_start_hands_the_pager_back(rt: HostRuntime) {
    assert_shown(&rt, rt.alloc(), &STARTED);
}

#[test]
fn a_refused_start_of_what_does_not_fit_hands_the_pager_back(rt: HostRuntime) {
    let paged = StartShown {
        is_printed: true,
        ..STARTED
    };
    assert_shown(&rt, rt.alloc(), &paged);
}

const PRINTED: StartShown<'static> = StartShown {
    is_printed: true,
    is_terminal: true,
    text: "a\nb\n",
    texts: &["\ra\n\rb\n\r9\n"],
    calls: 2,
};

#[test]
fn a_refused_print_hands_the_pager_back(rt: HostRuntime) {
    assert_shown(&rt, rt.alloc(), &PRINTED);
}

#[test]
fn a_refused_print_to_no_terminal_hands_the_pager_back(rt: HostRuntime) {
    let printed = StartShown {
        is_terminal: false,
        texts: &["a\nb\n9\n"],
        calls: 1,
        ..PRINTED
    };
    assert_shown(&rt, rt.alloc(), &printed);
}
