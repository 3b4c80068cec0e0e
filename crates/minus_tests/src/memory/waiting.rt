//! Steps with the search prompt open: what waits, and what is done of it when the prompt is closed. Running out of
//! memory behind the drawing that closes it fails the session.
use super::{M_ROW, MARKED_7, Script, Tried, assert_tried};
use crate::plain_sessions::Asked::{Does, Key, Message, Numbers, Pressed, Prompt, Push, Told};
use crate::plain_sessions::{Asked, PROMPT_ROW as P, TEN_LINES};
use minus::InputEvent::{
    CopySelection, Exit, Search, ShowHelp, StartSelection, UpdateSelection, UpdateUpperMark,
};
use minus::{Event, KeyCode, LineNumbers, SearchMode};

const OPENED: [Asked<'static>; 2] = [Push(TEN_LINES), Key('/')];

// What is tried with the search prompt open.
const fn of(tried: &'static [&'static Tried<'static>]) -> Script<'static> {
    Script {
        begun: &OPENED,
        page: ["l0", "l1", "l2", "/"],
        tried,
        may_fail: true,
    }
}

// All that each test here does before what it tries: the tool refuses these requests here alone.
#[test]
fn begins(rt: HostRuntime) {
    assert_tried(&rt, rt.alloc(), &of(&[]));
}

const KEPT: &[&Tried<'static>] = tried! {
    Push("x\n") => "l0", "l1", "l2", "/";
    Push("l10") => "l0", "l1", "l2", "/";
    Numbers(LineNumbers::Enabled) => "l0", "l1", "l2", "/";
    Message("m") => "l0", "l1", "l2", "/";
    Does(UpdateUpperMark(2)) => "l0", "l1", "l2", "/";
    Told(Event::Resize(20, 4)) => "l0", "l1", "l2", "/";
    Pressed(KeyCode::Esc) => "      \x1b[1m3.\x1b[0m l2", "      \x1b[1m4.\x1b[0m l3",
        "      \x1b[1m5.\x1b[0m l4", M_ROW;
};

#[test]
fn what_waits_is_done_or_the_session_has_failed(rt: HostRuntime) {
    assert_tried(&rt, rt.alloc(), &of(KEPT));
}

const P_ROW: &str = "\x1b[2;40;37mp              \x1b[30;44m 1/2 \x1b[0m";

const TAKEN: &[&Tried<'static>] = tried! {
    Push("\n7") => "l0", "l1", "l2", "/";
    Key('7') => "l0", "l1", "l2", "/7";
    Prompt("p") => "l0", "l1", "l2", "/7";
    Pressed(KeyCode::Enter) => MARKED_7, "l8", "l9", P_ROW;
};

#[test]
fn what_waits_for_a_query_is_done_or_the_session_has_failed(rt: HostRuntime) {
    assert_tried(&rt, rt.alloc(), &of(TAKEN));
}

const OPENED_AGAIN: &[&Tried<'static>] = tried! {
    Does(Search(SearchMode::Reverse)) => "l0", "l1", "l2", "/";
    Push("x") => "l0", "l1", "l2", "/";
    Does(Exit) => "l0", "l1", "l2", "/";
    Pressed(KeyCode::Esc) => "l0", "l1", "l2", "?";
    Pressed(KeyCode::Esc) => "l0", "l1", "l2", P;
};

#[test]
fn what_waits_on_is_done_or_the_session_has_failed(rt: HostRuntime) {
    assert_tried(&rt, rt.alloc(), &of(OPENED_AGAIN));
}

const COPIED: &[&Tried<'static>] = tried! {
    Does(StartSelection { x: 0, y: 0 }) => "l0", "l1", "l2", "/";
    Does(UpdateSelection { x: 0, y: 1 }) => "l0", "l1", "l2", "/";
    Does(CopySelection) => "l0", "l1", "l2", "/";
    Pressed(KeyCode::Esc) => "l0", "l1", "l2", P;
};

#[test]
fn a_copy_that_waits_is_done_or_the_session_has_failed(rt: HostRuntime) {
    assert_tried(&rt, rt.alloc(), &of(COPIED));
}

const HELPED: &[&Tried<'static>] = tried! {
    Does(ShowHelp) => "l0", "l1", "l2", "/";
    Push("\nl10") => "l0", "l1", "l2", "/";
    Push("\nl11") => "l0", "l1", "l2", "/";
    Does(Exit) => "l0", "l1", "l2", "/";
    Does(UpdateUpperMark(9)) => "l0", "l1", "l2", "/";
    Pressed(KeyCode::Esc) => "l9", "l10", "l11", P;
};

#[test]
fn what_waits_for_help_is_done_or_the_session_has_failed(rt: HostRuntime) {
    assert_tried(&rt, rt.alloc(), &of(HELPED));
}
