//! Starts, and sinks that refuse them.
use crate::facts::assert_holds;
use crate::sessions::{CLEANUP, PROMPT_ROW, SETUP, are_bytes, has_page, terminal};
use minus::{
    Command, MinusError, OutputSink, Pager, RunMode, SetupError, StartError, WithTty, init_core,
};
use minus_part_tests::stubborn::{NOTHING, Refusal, Refused, Stubborn, write};
use std::alloc::Global;
use std::fmt::Write;

// What stands before the prompt row of a page of five rows.
const SIXTH_ROW: &str = "\x1b[6;1H\r\x1b[2K";

// A terminal in memory.
type Terminal = WithTty<Vec<u8>>;

// Has texts wait in a pager, one of them formatted.
fn fill(pager: &mut Pager) -> bool {
    let number = 2;
    pager.push_str("lost").is_ok()
        && pager.set_text("one\n").is_ok()
        && pager.push_str("tw").is_ok()
        && write!(pager, "o\n{number}").is_ok()
}

// The sink that a start hands back which is refused as that is no terminal, with the pager gone.
fn sink_back<S: OutputSink + Drop>(alloc: Global, sink: S) -> Option<S> {
    match init_core(Pager::new(alloc), RunMode::Static, sink, 20, 5) {
        Ok(_) => None,
        Err(refused) => {
            let is_no_terminal = part_of(&refused.cause) == "no terminal"
                && refused.cause.number() == 12
                && refused.pager.is_none();
            is_no_terminal.then_some(refused.sink)
        }
    }
}

// Whether a vector is refused and comes back empty.
fn comes_back_empty(alloc: Global) -> bool {
    match sink_back(alloc, Vec::new(alloc)) {
        Some(sink) => sink.is_empty(),
        None => false,
    }
}

#[test]
fn a_sink_that_is_no_terminal_comes_back_empty(rt: HostRuntime) {
    assert_holds(&rt, comes_back_empty(rt.alloc()));
}

// A stream is no terminal by itself, so that nothing is written to those of the tests.
#[test]
fn the_standard_streams_are_no_terminals(rt: HostRuntime) {
    assert_holds(&rt, sink_back(rt.alloc(), rt.stdout()).is_some());
    assert_holds(&rt, sink_back(rt.alloc(), rt.stderr()).is_some());
}

// Whether a start was refused by this number before anything was written, with the pager handed back.
fn came_back(refused: &StartError<Terminal>, number: u8) -> bool {
    refused.sink.inner.is_empty() && refused.pager.is_some() && refused.cause.number() == number
}

// Whether a start in a mode and a size, of a pager in which texts wait, is refused so.
fn is_early(alloc: Global, mode: RunMode, cols: usize, rows: usize, number: u8) -> bool {
    let mut pager = Pager::new(alloc);
    let is_filled = fill(&mut pager);
    match init_core(pager, mode, terminal(alloc), cols, rows) {
        Ok(_) => false,
        Err(refused) => came_back(&refused, number) && is_filled,
    }
}

// A mode, columns and rows, and the number that refuses them.
const EARLY: [(RunMode, usize, usize, u8); 4] = [
    (RunMode::Uninitialized, 20, 5, 9),
    (RunMode::Uninitialized, 0, 10, 9),
    (RunMode::Static, 0, 10, 5),
    (RunMode::Dynamic, 65_536, 1, 5),
];

#[test]
fn an_early_refusal_hands_the_pager_back(rt: HostRuntime) {
    for (mode, cols, rows, number) in &EARLY {
        assert!(rt;
            is_early(rt.alloc(), *mode, *cols, *rows, *number),
            "at {cols} and {rows}"
        );
    }
}

// Whether a session of a pager shows these rows.
fn starts(alloc: Global, pager: Pager, rows: &[&str]) -> bool {
    match init_core(pager, RunMode::Static, terminal(alloc), 20, 5) {
        Ok(session) => has_page(&session, rows),
        Err(_) => false,
    }
}

// The pager that a refused start hands back.
fn handed_back(refused: StartError<Terminal>) -> Option<Pager> {
    refused.pager
}

// Whether one does whose start was refused before, with texts waiting in it.
fn starts_again(alloc: Global, rows: &[&str]) -> bool {
    let mut pager = Pager::new(alloc);
    let is_filled = fill(&mut pager);
    let Err(refused) = init_core(pager, RunMode::Static, terminal(alloc), 0, 5) else {
        return false;
    };
    match handed_back(refused) {
        Some(pager) => starts(alloc, pager, rows) && is_filled,
        None => false,
    }
}

#[test]
fn a_pager_that_came_back_starts(rt: HostRuntime) {
    let rows = &["one", "two", "2", "", PROMPT_ROW];
    assert_holds(&rt, starts_again(rt.alloc(), rows));
}

// Whether a prompt is taken as a string, and a message as a text, and both wait behind the text, in this order.
fn says_either(alloc: Global) -> bool {
    let (mut pager, page) = (Pager::new(alloc), 7);
    let Ok(prompt) = format!(in alloc; "page {page}") else {
        return false;
    };
    let is_told = pager.push_str("a").is_ok()
        && pager.set_prompt(prompt).is_ok()
        && pager.send_message("m").is_ok();
    match pager.waiting() {
        [
            Command::AppendData(text),
            Command::SetPrompt(prompt),
            Command::SendMessage(message),
        ] => {
            is_told
                && text.as_str() == "a"
                && prompt.as_str() == "page 7"
                && message.as_str() == "m"
        }
        _ => false,
    }
}

#[test]
fn a_prompt_is_a_text_or_a_string(rt: HostRuntime) {
    assert_holds(&rt, says_either(rt.alloc()));
}

// The part of what a start writes at which it was refused, or that nothing is written to such a sink.
fn part_of(cause: &MinusError) -> &'static str {
    match cause {
        MinusError::Setup(SetupError::InvalidTerminal) => "no terminal",
        MinusError::Setup(SetupError::AlternateScreen(_)) => "the alternate screen",
        MinusError::Setup(SetupError::EnableMouseCapture(_)) => "the mouse",
        MinusError::Setup(SetupError::HideCursor(_)) => "the cursor",
        MinusError::Draw(_) => "the page",
        _ => "none",
    }
}

// Whether a start that is refused a write names this part, and has this number.
fn names(alloc: Global, at: usize, part: &str, number: u8) -> bool {
    let sink = Stubborn::terminal(alloc, write(at, Refusal::Broken));
    match init_core(Pager::new(alloc), RunMode::Static, sink, 20, 5) {
        Ok(_) => false,
        Err(refused) => {
            part_of(&refused.cause) == part && MinusError::from(refused).number() == number
        }
    }
}

// The number of a refused write, the part of the start that it is in, and the number of the refusal.
const PARTS: [(usize, &str, u8); 7] = [
    (1, "the alternate screen", 12),
    (8, "the alternate screen", 12),
    (9, "the mouse", 12),
    (48, "the mouse", 12),
    (49, "the cursor", 12),
    (54, "the cursor", 12),
    (55, "the page", 14),
];

#[test]
fn a_refused_start_names_the_part(rt: HostRuntime) {
    for (at, part, number) in &PARTS {
        assert!(rt; names(rt.alloc(), *at, part, *number), "at write {at}");
    }
}

// Whether a start that is refused this leaves these texts in its sink.
fn leaves(alloc: Global, calls: Refused, texts: &[&str]) -> bool {
    let sink = Stubborn::terminal(alloc, calls);
    match init_core(Pager::new(alloc), RunMode::Static, sink, 20, 5) {
        Ok(_) => false,
        Err(refused) => are_bytes(&refused.sink.inner.held, texts),
    }
}

// A write and a flush that are refused, if not 0, and the texts that a start leaves in its sink then.
const LEFT: [(usize, usize, &[&str]); 3] = [
    (55, 0, &[SETUP, CLEANUP]),
    (57, 0, &[SETUP, "\x1b[", CLEANUP]),
    (
        0,
        4,
        &[SETUP, "\x1b[1;1H\x1b[2J", SIXTH_ROW, PROMPT_ROW, CLEANUP],
    ),
];

#[test]
fn a_start_refused_after_the_setup_cleans_up(rt: HostRuntime) {
    for (write, flush, texts) in &LEFT {
        let calls = Refused {
            write: *write,
            flush: *flush,
            ..NOTHING
        };
        assert!(rt;
            leaves(rt.alloc(), calls, texts),
            "at write {write}, flush {flush}"
        );
    }
}
