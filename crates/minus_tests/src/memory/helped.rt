//! Steps with help open.
use super::{HELP_ROW, M_ROW, Script, Tried, assert_tried};
use crate::plain_sessions::Asked::{
    Does, Follow, Key, Message, Numbers, Pressed, Prompt, Push, Set, Shown, Wrapped,
};
use crate::plain_sessions::{Asked, PROMPT_ROW as P, TEN_LINES};
use minus::InputEvent::{
    CopySelection, RestorePrompt, ShowHelp, StartSelection, UpdateLineNumber, UpdateTermArea,
    UpdateUpperMark,
};
use minus::{KeyCode, LineNumbers};

const OPENED: [Asked<'static>; 2] = [Push(TEN_LINES), Does(ShowHelp)];

// What is tried with help open.
const fn of(tried: &'static [&'static Tried<'static>]) -> Script<'static> {
    Script::new(&OPENED, ["help", "", "", HELP_ROW], tried)
}

// All that each test here does before what it tries: the tool refuses these requests here alone.
#[test]
fn begins(rt: HostRuntime) {
    assert_tried(&rt, rt.alloc(), &of(&[]));
}

const SAVED: &[&Tried<'static>] = tried! {
    Push("x") => "help", "", "", HELP_ROW;
    Set("a\nb") => "help", "", "", HELP_ROW;
    Push("c\n") => "help", "", "", HELP_ROW;
    Prompt("x") => "help", "", "", HELP_ROW;
    Message("m") => "help", "", "", M_ROW;
    Shown(false) => "help", "", "", "";
    Shown(true) => "help", "", "", M_ROW;
    Does(RestorePrompt) => "a", "bc", "", P;
};

#[test]
fn a_refused_step_keeps_the_saved_text(rt: HostRuntime) {
    assert_tried(&rt, rt.alloc(), &of(SAVED));
}

// The help prompt of a followed text.
const F_ROW: &str = "\x1b[2;40;37mHELP -- Press q o\x1b[1m[F]\x1b[0m";

const SHOWN: &[&Tried<'static>] = tried! {
    Numbers(LineNumbers::Enabled) => "     \x1b[1m1.\x1b[0m help", "", "", HELP_ROW;
    Does(UpdateLineNumber(LineNumbers::Disabled)) => "help", "", "", HELP_ROW;
    Wrapped(true) => "help", "", "", HELP_ROW;
    Does(UpdateTermArea(20, 4)) => "help", "", "", HELP_ROW;
    Follow(true) => "help", "", "", F_ROW;
    Does(UpdateUpperMark(5)) => "help", "", "", F_ROW;
    Does(StartSelection { x: 0, y: 0 }) => "\x1b[7mh\x1b[27melp", "", "", F_ROW;
    Does(CopySelection) => "help", "", "", F_ROW;
    Key('/') => "help", "", "", "/";
    Pressed(KeyCode::Esc) => "help", "", "", F_ROW;
    Does(ShowHelp) => "l0", "l1", "l2", P;
};

#[test]
fn a_refused_step_keeps_help_open(rt: HostRuntime) {
    assert_tried(&rt, rt.alloc(), &of(SHOWN));
}
