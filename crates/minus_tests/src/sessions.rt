//! Sessions for the tests, started and stepped in one place. Where memory runs out, each answer is `false` or none.

use minus::{
    Calls, CommandOf, Core, Event, ExitStrategy, Hook, InputEvent, InputOf, IoCommand, KeyCode,
    KeyEvent, LineNumbers, MinusError, OutputSink, Page, PagerOf, RanOf, RunMode, StartErrorOf,
    WithTty, init_core_with,
};
pub use minus_part_tests::asked::TEN_LINES;
use minus_part_tests::asked::press;
use minus_part_tests::stubborn::{NOTHING, Stubborn};
use minus_script::{DefaultKeys, ScriptKinds};
use std::alloc::{AllocError, Global};

pub const SETUP: &str =
    "\x1b[?1049h\x1b[?1000h\x1b[?1002h\x1b[?1003h\x1b[?1015h\x1b[?1006h\x1b[?25l";

pub const CLEANUP: &str =
    "\x1b[?25h\x1b[?1006l\x1b[?1015l\x1b[?1003l\x1b[?1002l\x1b[?1000l\x1b[?1049l";

/// The prompt row of 20 columns.
pub const PROMPT_ROW: &str = "\x1b[2;40;37mminus               \x1b[0m";

/// A session that keeps a register of the default bindings and no box: a function may take it by `&mut` and step it.
pub type Session<S> = Core<S, ScriptKinds>;

/// What such a session is started with, given and answers.
pub type Pager = PagerOf<ScriptKinds>;

pub type Command = CommandOf<ScriptKinds>;

pub type Input = InputOf<ScriptKinds>;

pub type Ran = RanOf<ScriptKinds>;

pub type StartError<S> = StartErrorOf<S, ScriptKinds>;

/// What a test asks of a session.
#[derive(Clone, Copy)]
pub enum Asked<'a> {
    Push(&'a str),
    Set(&'a str),
    Mark(usize),
    Size(usize, usize),
    Prompt(&'a str),
    Message(&'a str),
    Shown(bool),
    Follow(bool),
    Restored,
    Typed(char),
    Numbers(LineNumbers),
    Wrapped(bool),
    InLines(bool),
    Styled(bool),
    Left(usize),
    /// The place, a column and a row, at which a selection starts.
    Start(u16, u16),
    /// The one that it is moved to.
    Update(u16, u16),
    /// The press of a character's key.
    Key(char),
    /// The press of another key.
    Pressed(KeyCode),
    Does(InputEvent),
    Io(IoCommand),
    Told(Event),
    Strategy(ExitStrategy),
    /// The callback of a hook goes that was added under an id.
    Removed(Hook, u64),
    Exit,
}

/// The press of a key.
pub fn pressed(code: KeyCode) -> Event {
    Event::Key(KeyEvent::from(code))
}

/// The input that asks for it, in a session of any kinds.
pub fn input<P: Calls>(alloc: Global, asked: Asked<'_>) -> Result<InputOf<P>, AllocError> {
    let command = match asked {
        Asked::Push(text) => CommandOf::AppendData(String::from_str(alloc, text)?),
        Asked::Set(text) => CommandOf::SetData(String::from_str(alloc, text)?),
        Asked::Mark(row) => CommandOf::UserInput(InputEvent::UpdateUpperMark(row)),
        Asked::Size(cols, rows) => CommandOf::UserInput(InputEvent::UpdateTermArea(cols, rows)),
        Asked::Prompt(text) => CommandOf::SetPrompt(String::from_str(alloc, text)?),
        Asked::Message(text) => CommandOf::SendMessage(String::from_str(alloc, text)?),
        Asked::Shown(is_shown) => CommandOf::ShowPrompt(is_shown),
        Asked::Follow(follow) => CommandOf::FollowOutput(follow),
        Asked::Restored => CommandOf::UserInput(InputEvent::RestorePrompt),
        Asked::Typed(character) => CommandOf::UserInput(InputEvent::Number(character)),
        Asked::Numbers(numbers) => CommandOf::SetLineNumbers(numbers),
        Asked::Wrapped(wrapping) => CommandOf::LineWrapping(wrapping),
        Asked::InLines(match_lines) => CommandOf::SetMatchLines(match_lines),
        Asked::Styled(carry_style) => CommandOf::SetCarryStyle(carry_style),
        Asked::Left(mark) => CommandOf::UserInput(InputEvent::UpdateLeftMark(mark)),
        Asked::Start(x, y) => CommandOf::UserInput(InputEvent::StartSelection { x, y }),
        Asked::Update(x, y) => CommandOf::UserInput(InputEvent::UpdateSelection { x, y }),
        Asked::Key(character) => return Ok(InputOf::Event(pressed(KeyCode::Char(character)))),
        Asked::Pressed(code) => return Ok(InputOf::Event(pressed(code))),
        Asked::Does(event) => CommandOf::UserInput(event),
        Asked::Io(command) => CommandOf::Io(command),
        Asked::Told(event) => return Ok(InputOf::Event(event)),
        Asked::Strategy(strategy) => CommandOf::SetExitStrategy(strategy),
        Asked::Removed(hook, id) => CommandOf::RemoveHook(hook, id),
        Asked::Exit => CommandOf::UserInput(InputEvent::Exit),
    };
    Ok(InputOf::Command(command))
}

/// The inputs that ask for all of it.
pub fn inputs(alloc: Global, asked: &[Asked<'_>]) -> Result<Vec<Input>, AllocError> {
    let mut given = Vec::new(alloc);
    for it in asked {
        given.push(input(alloc, *it)?)?;
    }
    Ok(given)
}

/// A terminal in memory.
pub fn terminal(alloc: Global) -> WithTty<Vec<u8>> {
    WithTty::new(Vec::new(alloc), true)
}

/// Starts a static session over a sink, without a text.
pub fn start<S: OutputSink + Drop>(
    alloc: Global,
    sink: S,
    cols: usize,
    rows: usize,
) -> Result<Session<S>, StartError<S>> {
    match DefaultKeys::new(alloc) {
        Ok(keys) => init_core_with(Pager::new(alloc), RunMode::Static, sink, cols, rows, keys),
        Err(cause) => Err(StartError {
            sink,
            pager: None,
            cause: MinusError::from(cause),
        }),
    }
}

/// A session over a sink, without a text; none where its start is refused.
pub fn session_on<S: OutputSink + Drop>(
    alloc: Global,
    sink: S,
    cols: usize,
    rows: usize,
) -> Option<Session<S>> {
    match start(alloc, sink, cols, rows) {
        Ok(session) => Some(session),
        Err(_) => None,
    }
}

/// A session of 20 columns and three rows over a sink that refuses nothing.
pub fn on_stubborn(alloc: Global) -> Option<Session<WithTty<Stubborn>>> {
    session_on(alloc, Stubborn::terminal(alloc, NOTHING), 20, 3)
}

/// The number by which a session refuses what is asked of it, 1 if there is no memory to ask for it, 0 if it does it.
pub fn number_of<S: OutputSink + Drop>(
    alloc: Global,
    session: &mut Session<S>,
    asked: Asked<'_>,
) -> u8 {
    let Ok(input) = input(alloc, asked) else {
        return 1;
    };
    match session.step(input) {
        Ok(_) => 0,
        Err(refusal) => refusal.number(),
    }
}

/// Whether a session of any kinds takes the presses of these keys.
pub fn takes<S: OutputSink + Drop, P: Calls>(session: &mut Core<S, P>, keys: &[&str]) -> bool {
    for key in keys {
        if session.step(InputOf::Event(press(key))).is_err() {
            return false;
        }
    }
    true
}

/// The result of a run of all of this in a session; none where there is no memory to ask for it.
pub fn run<S: OutputSink + Drop>(
    alloc: Global,
    session: &mut Session<S>,
    asked: &[Asked<'_>],
) -> Option<Ran> {
    match inputs(alloc, asked) {
        Ok(inputs) => Some(session.run(inputs)),
        Err(_) => None,
    }
}

/// Whether a session does all of this, in one run.
pub fn does<S: OutputSink + Drop>(
    alloc: Global,
    session: &mut Session<S>,
    asked: &[Asked<'_>],
) -> bool {
    match run(alloc, session, asked) {
        Some(ran) => ran.done == asked.len(),
        None => false,
    }
}

/// Whether these bytes are these texts, one behind the other.
pub fn are_bytes(bytes: &[u8], texts: &[&str]) -> bool {
    let mut rest = bytes;
    for text in texts {
        match rest.strip_prefix(text.as_bytes()) {
            Some(behind) => rest = behind,
            None => return false,
        }
    }
    rest.is_empty()
}

// Whether a page has these rows, no others, and a cursor at this column, or none.
fn has_rows(page: &Page, rows: &[&str], cursor: Option<u16>) -> bool {
    let mut wanted = rows.iter();
    for row in &page.rows {
        match wanted.next() {
            Some(text) if row.as_str() == *text => {}
            _ => return false,
        }
    }
    wanted.next().is_none() && page.cursor == cursor
}

/// Whether a session's page has these rows, no others, and a cursor at this column of its last row, or none.
pub fn has_page_with<S: OutputSink + Drop, P: Calls>(
    session: &Core<S, P>,
    rows: &[&str],
    cursor: Option<u16>,
) -> bool {
    match session.page() {
        Ok(page) => has_rows(&page, rows, cursor),
        Err(_) => false,
    }
}

/// Whether a session's page has these rows, no others and no cursor.
pub fn has_page<S: OutputSink + Drop, P: Calls>(session: &Core<S, P>, rows: &[&str]) -> bool {
    has_page_with(session, rows, None)
}
