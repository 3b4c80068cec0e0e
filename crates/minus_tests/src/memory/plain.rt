//! Steps with neither a term, nor help, nor a search prompt before them.
use super::{FIRST, HELP_ROW, M_ROW, ONE_OF_ONE, Script, TEN, Tried, assert_tried};
use crate::plain_sessions::Asked::{
    Does, Follow, Io, Key, Message, Numbers, Overflow, Pressed, Prompt, Push, Removed, Set, Shown,
    Strategy, Told, Wrapped,
};
use crate::plain_sessions::PROMPT_ROW as P;
use minus::InputEvent::{
    ClearSelection, CopySelection, Exit, FollowOutput, HorizontalScroll, Ignore, NextMatch, Number,
    PrevMatch, RestorePrompt, Search, ShowHelp, StartSelection, UpdateLeftMark, UpdateLineNumber,
    UpdateSelection, UpdateTermArea, UpdateUpperMark,
};
use minus::{
    AppendStyle, Event, ExitStrategy, Hook, IoCommand, KeyCode, KeyModifiers, LineNumbers,
    MouseEvent, MouseEventKind, SearchMode,
};

// What is tried of ten lines on four rows.
const fn of(tried: &'static [&'static Tried<'static>]) -> Script<'static> {
    Script::new(&TEN, FIRST, tried)
}

// All that each test here does before what it tries: the tool refuses these requests here alone.
#[test]
fn begins(rt: HostRuntime) {
    assert_tried(&rt, rt.alloc(), &of(&[]));
}

// The prompt row of a followed text.
const F_ROW: &str = "\x1b[2;40;37mminus            \x1b[1m[F]\x1b[0m";

const TEXTS: &[&Tried<'static>] = tried! {
    Push("x\nl10") => "l0", "l1", "l2", P;
    Set("a\nb") => "a", "b", "", P;
    Push("c\n") => "a", "bc", "", P;
    Push("") => "a", "bc", "", P;
    Numbers(LineNumbers::Enabled) => "     \x1b[1m1.\x1b[0m a", "     \x1b[1m2.\x1b[0m bc", "", P;
    Push("3\n4\n5\n6\n7\n8\n9\n10") =>
        "      \x1b[1m1.\x1b[0m a", "      \x1b[1m2.\x1b[0m bc", "      \x1b[1m3.\x1b[0m 3", P;
    Does(UpdateLineNumber(LineNumbers::Disabled)) => "a", "bc", "3", P;
    Follow(true) => "8", "9", "10", F_ROW;
    Push("\n11") => "9", "10", "11", F_ROW;
};

#[test]
fn a_refused_text_changes_nothing(rt: HostRuntime) {
    assert_tried(&rt, rt.alloc(), &of(TEXTS));
}

const LAYOUTS: &[&Tried<'static>] = tried! {
    Set("one two three four five") => "one two three four", "five", "", P;
    Wrapped(false) => "one two three four f", "", "", P;
    Does(UpdateLeftMark(3)) => " two three four five", "", "", P;
    Does(HorizontalScroll(true)) => "one two three four", "five", "", P;
    Does(UpdateTermArea(10, 4)) => "one two", "three four", "five", "\x1b[2;40;37mminus     \x1b[0m";
    Told(Event::Resize(20, 4)) => "one two three four", "five", "", P;
};

#[test]
fn a_refused_layout_changes_nothing(rt: HostRuntime) {
    assert_tried(&rt, rt.alloc(), &of(LAYOUTS));
}

// Prompt rows of a prompt `p`, and with a digit typed.
const P_ROW: &str = "\x1b[2;40;37mp                   \x1b[0m";

const FIVE_ROW: &str = "\x1b[2;40;37mp                \x1b[30;43m 5 \x1b[0m";

const ONE_ROW: &str = "\x1b[2;40;37mp                \x1b[30;43m 1 \x1b[0m";

const PROMPTS: &[&Tried<'static>] = tried! {
    Prompt("p") => "l0", "l1", "l2", P_ROW;
    Message("m") => "l0", "l1", "l2", M_ROW;
    Does(RestorePrompt) => "l0", "l1", "l2", P_ROW;
    Shown(false) => "l0", "l1", "l2", "";
    Shown(true) => "l0", "l1", "l2", P_ROW;
    Does(Number('5')) => "l0", "l1", "l2", FIVE_ROW;
    Told(Event::FocusGained) => "l0", "l1", "l2", P_ROW;
    Key('1') => "l0", "l1", "l2", ONE_ROW;
    Does(Ignore) => "l0", "l1", "l2", ONE_ROW;
    Io(IoCommand::RedrawPrompt) => "l0", "l1", "l2", ONE_ROW;
    Key('j') => "l1", "l2", "l3", P_ROW;
};

#[test]
fn a_refused_prompt_row_changes_nothing(rt: HostRuntime) {
    assert_tried(&rt, rt.alloc(), &of(PROMPTS));
}

// A turn of the mouse's wheel.
const WHEEL_UP: Event = Event::Mouse(MouseEvent {
    kind: MouseEventKind::ScrollUp,
    column: 0,
    row: 0,
    modifiers: KeyModifiers::NONE,
});

const MOVES: &[&Tried<'static>] = tried! {
    Does(UpdateUpperMark(2)) => "l2", "l3", "l4", P;
    Does(UpdateUpperMark(100)) => "l7", "l8", "l9", P;
    Io(IoCommand::SetUpperMark(3)) => "l3", "l4", "l5", P;
    Follow(true) => "l7", "l8", "l9", F_ROW;
    Does(FollowOutput(false)) => "l7", "l8", "l9", P;
    Told(WHEEL_UP) => "l2", "l3", "l4", P;
    Key('k') => "l1", "l2", "l3", P;
    Pressed(KeyCode::PageDown) => "l4", "l5", "l6", P;
    Key('G') => "l7", "l8", "l9", P;
    Key('g') => "l0", "l1", "l2", P;
};

#[test]
fn a_refused_move_changes_nothing(rt: HostRuntime) {
    assert_tried(&rt, rt.alloc(), &of(MOVES));
}

const SELECTIONS: &[&Tried<'static>] = tried! {
    Does(StartSelection { x: 0, y: 0 }) => "\x1b[7ml\x1b[27m0", "l1", "l2", P;
    Does(UpdateSelection { x: 1, y: 1 }) => "\x1b[7ml0\x1b[27m", "\x1b[7ml1\x1b[27m", "l2", P;
    Does(UpdateSelection { x: 0, y: 0 }) => "\x1b[7ml\x1b[27m0", "l1", "l2", P;
    Does(UpdateSelection { x: 1, y: 3 }) =>
        "\x1b[7ml1\x1b[27m", "\x1b[7ml2\x1b[27m", "\x1b[7ml3\x1b[27m", P;
    Does(ClearSelection) => "l1", "l2", "l3", P;
    Does(StartSelection { x: 0, y: 1 }) => "l1", "\x1b[7ml\x1b[27m2", "l3", P;
    Does(CopySelection) => "l1", "l2", "l3", P;
};

#[test]
fn a_refused_selection_changes_nothing(rt: HostRuntime) {
    assert_tried(&rt, rt.alloc(), &of(SELECTIONS));
}

const APPENDED: IoCommand = IoCommand::DrawAppendedText(1, 9, AppendStyle::FullRedraw);

const OTHERS: &[&Tried<'static>] = tried! {
    Io(IoCommand::RedrawDisplay) => "l0", "l1", "l2", P;
    Io(APPENDED) => "l0", "l1", "l2", P;
    Io(IoCommand::FetchSearchQuery) => "l0", "l1", "l2", P;
    Does(Search(SearchMode::Unknown)) => "l0", "l1", "l2", P;
    Does(NextMatch) => "l0", "l1", "l2", P;
    Does(PrevMatch) => "l0", "l1", "l2", P;
    Strategy(ExitStrategy::PagerQuit) => "l0", "l1", "l2", P;
    Overflow(true) => "l0", "l1", "l2", P;
    Does(ShowHelp) => "help", "", "", HELP_ROW;
    Does(RestorePrompt) => "l0", "l1", "l2", P;
    Does(ShowHelp) => "help", "", "", HELP_ROW;
    Does(ShowHelp) => "l0", "l1", "l2", P;
    Does(ShowHelp) => "help", "", "", HELP_ROW;
    Does(Exit) => "l0", "l1", "l2", P;
    Removed(Hook::EofReached, 2) => "l0", "l1", "l2", P;
    Does(UpdateUpperMark(7)) => "l7", "l8", "l9", P;
    Does(Exit) => "l7", "l8", "l9", P;
};

#[test]
fn a_refused_step_of_another_kind_changes_nothing(rt: HostRuntime) {
    assert_tried(&rt, rt.alloc(), &of(OTHERS));
}

// What is drawn where a query leads to its match.
const AT_L7: &str = "\x1b[7ml7\x1b[27m";

const TYPED: &[&Tried<'static>] = tried! {
    Key('/') => "l0", "l1", "l2", "/";
    Key('l') => "l0", "l1", "l2", "/l";
    Pressed(KeyCode::Left) => "l0", "l1", "l2", "/l";
    Pressed(KeyCode::Delete) => "l0", "l1", "l2", "/";
    Pressed(KeyCode::Esc) => "l0", "l1", "l2", P;
    Does(Search(SearchMode::Reverse)) => "l0", "l1", "l2", "?";
    Pressed(KeyCode::Enter) => "l0", "l1", "l2", P;
    Io(IoCommand::FetchSearchQuery) => "l0", "l1", "l2", "?";
};

#[test]
fn a_refused_key_of_a_query_changes_nothing(rt: HostRuntime) {
    assert_tried(&rt, rt.alloc(), &of(TYPED));
}

const LED: &[&Tried<'static>] = tried! {
    Key('/') => "l0", "l1", "l2", "/";
    Key('l') => "l0", "l1", "l2", "/l";
    Key('7') => AT_L7, "l8", "l9", "/l7";
    Pressed(KeyCode::Enter) => AT_L7, "l8", "l9", ONE_OF_ONE;
};

#[test]
fn a_refused_search_changes_nothing(rt: HostRuntime) {
    assert_tried(&rt, rt.alloc(), &of(LED));
}
