//! Steps with a term that two of ten lines match.
use super::{HELP_ROW, MARKED_7, ONE_OF_ONE, Script, Tried, assert_tried};
use crate::plain_sessions::Asked::{Does, Key, Numbers, Pressed, Push, Set, Told, Wrapped};
use crate::plain_sessions::{Asked, PROMPT_ROW as P, TEN_LINES};
use minus::InputEvent::{
    MoveToNextMatch, MoveToPrevMatch, NextMatch, PrevMatch, RestorePrompt, ShowHelp,
    StartSelection, UpdateTermArea, UpdateUpperMark,
};
use minus::{Event, KeyCode, LineNumbers};

// The first line that matches, marked, and the prompt rows at the first and the second of this many.
const MARKED_3: &str = "l\x1b[7m3\x1b[27m";

const ONE_OF_TWO: &str = "\x1b[2;40;37mminus          \x1b[30;44m 1/2 \x1b[0m";

const TWO_OF_TWO: &str = "\x1b[2;40;37mminus          \x1b[30;44m 2/2 \x1b[0m";

const ONE_OF_THREE: &str = "\x1b[2;40;37mminus          \x1b[30;44m 1/3 \x1b[0m";

const SEARCH: [Asked<'static>; 6] = [
    Push(TEN_LINES),
    Key('/'),
    Key('3'),
    Key('|'),
    Key('7'),
    Pressed(KeyCode::Enter),
];

// What is tried at the first match of two.
const fn of(tried: &'static [&'static Tried<'static>]) -> Script<'static> {
    Script::new(&SEARCH, [MARKED_3, "l4", "l5", ONE_OF_TWO], tried)
}

// All that each test here does before what it tries: the tool refuses these requests here alone.
#[test]
fn begins(rt: HostRuntime) {
    assert_tried(&rt, rt.alloc(), &of(&[]));
}

const JUMPS: &[&Tried<'static>] = tried! {
    Does(NextMatch) => MARKED_7, "l8", "l9", TWO_OF_TWO;
    Does(PrevMatch) => MARKED_3, "l4", "l5", ONE_OF_TWO;
    Does(MoveToNextMatch(2)) => MARKED_3, "l4", "l5", ONE_OF_TWO;
    Does(UpdateUpperMark(0)) => "l0", "l1", "l2", ONE_OF_TWO;
    Does(MoveToNextMatch(2)) => MARKED_7, "l8", "l9", TWO_OF_TWO;
    Does(MoveToPrevMatch(1)) => MARKED_3, "l4", "l5", ONE_OF_TWO;
    Key('n') => MARKED_7, "l8", "l9", TWO_OF_TWO;
    Key('p') => MARKED_3, "l4", "l5", ONE_OF_TWO;
};

#[test]
fn a_refused_jump_changes_nothing(rt: HostRuntime) {
    assert_tried(&rt, rt.alloc(), &of(JUMPS));
}

const TEXTS: &[&Tried<'static>] = tried! {
    Push("\n73") => MARKED_3, "l4", "l5", ONE_OF_THREE;
    Push("x") => MARKED_3, "l4", "l5", ONE_OF_THREE;
    Does(StartSelection { x: 0, y: 0 }) => MARKED_3, "l4", "l5", ONE_OF_THREE;
    Set("a\n7") => "a", "\x1b[7m7\x1b[27m", "", ONE_OF_ONE;
    Does(ShowHelp) => "help", "", "", HELP_ROW;
    Does(RestorePrompt) => "a", "\x1b[7m7\x1b[27m", "", ONE_OF_ONE;
};

#[test]
fn a_refused_text_is_not_searched(rt: HostRuntime) {
    assert_tried(&rt, rt.alloc(), &of(TEXTS));
}

const LAYOUTS: &[&Tried<'static>] = tried! {
    Set("a\n7") => "a", "\x1b[7m7\x1b[27m", "", ONE_OF_ONE;
    Numbers(LineNumbers::Enabled) =>
        "     \x1b[1m1.\x1b[0m a", "     \x1b[1m2.\x1b[0m \x1b[7m7\x1b[27m", "", ONE_OF_ONE;
    Numbers(LineNumbers::Disabled) => "a", "\x1b[7m7\x1b[27m", "", ONE_OF_ONE;
    Wrapped(false) => "a", "\x1b[7m7\x1b[27m", "", ONE_OF_ONE;
    Told(Event::Resize(10, 4)) =>
        "a", "\x1b[7m7\x1b[27m", "", "\x1b[2;40;37mminus\x1b[30;44m 1/1 \x1b[0m";
    Does(UpdateTermArea(20, 4)) => "a", "\x1b[7m7\x1b[27m", "", ONE_OF_ONE;
};

#[test]
fn a_refused_layout_keeps_the_matches(rt: HostRuntime) {
    assert_tried(&rt, rt.alloc(), &of(LAYOUTS));
}

const TYPED: &[&Tried<'static>] = tried! {
    Key('/') => MARKED_3, "l4", "l5", "/";
    Pressed(KeyCode::Esc) => MARKED_3, "l4", "l5", ONE_OF_TWO;
    Key('?') => MARKED_3, "l4", "l5", "?";
    Key('q') => MARKED_3, "l4", "l5", "?q";
    Pressed(KeyCode::Enter) => "l3", "l4", "l5", P;
};

#[test]
fn a_refused_search_keeps_the_term(rt: HostRuntime) {
    assert_tried(&rt, rt.alloc(), &of(TYPED));
}
