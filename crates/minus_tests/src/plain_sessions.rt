//! Sessions of plain kinds: how one starts, what is asked of it, and what is seen of it.
use minus::{
    Calls, CommandOf, Core, DefaultInputClassifier, Event, ExitStrategy, Hook, InputClassifier,
    InputEvent, InputOf, IoCommand, KeyCode, KeyEvent, Kinds, LineNumbers, NeverCalled, NeverShows,
    OutputSink, Page, PagerOf, PagerState, RunMode, StartErrorOf, init_core_with,
};
use std::alloc::{AllocError, Global};

/// Ten lines of a row each.
pub const TEN_LINES: &str = "l0\nl1\nl2\nl3\nl4\nl5\nl6\nl7\nl8\nl9";

/// What a terminal is sent when a session begins.
pub const SETUP: &str =
    "\x1b[?1049h\x1b[?1000h\x1b[?1002h\x1b[?1003h\x1b[?1015h\x1b[?1006h\x1b[?25l";

/// What it is sent when one ends.
pub const CLEANUP: &str =
    "\x1b[?25h\x1b[?1006l\x1b[?1015l\x1b[?1003l\x1b[?1002l\x1b[?1000l\x1b[?1049l";

/// The prompt row of 20 columns.
pub const PROMPT_ROW: &str = "\x1b[2;40;37mminus               \x1b[0m";

/// Decides about events as the default classifier does, and has a help text of one line.
#[derive(Drop)]
pub struct Keys;

impl InputClassifier for Keys {
    ghost says = { record {
      allows = λ classifier event state answer. Unit {0};
      helps = λ classifier text. Unit {0};
    } };

    fn classify_input(&self, event: Event, state: &PagerState) -> Option<InputEvent> {
        DefaultInputClassifier.classify_input(event, state)
    }

    fn format_help(&self, alloc: Global) -> Result<Option<String>, AllocError> {
        Ok(Some(String::from_str(alloc, "help")?))
    }
}

/// The kinds of a session with those keys, and no callback and no condition of its own.
pub type Plain = Kinds<NeverCalled, NeverCalled, NeverShows, Keys>;

/// A session of those kinds.
pub type Session<S> = Core<S, Plain>;

/// A refused start of one.
pub type StartError<S> = StartErrorOf<S, Plain>;

/// What a test asks of a session.
#[derive(Clone, Copy)]
pub enum Asked<'a> {
    Push(&'a str),
    Set(&'a str),
    Prompt(&'a str),
    Message(&'a str),
    Shown(bool),
    Numbers(LineNumbers),
    Wrapped(bool),
    InLines(bool),
    Styled(bool),
    Follow(bool),
    Does(InputEvent),
    Io(IoCommand),
    Strategy(ExitStrategy),
    Overflow(bool),
    /// The callback of a hook goes that was added under an id.
    Removed(Hook, u64),
    /// The press of a character's key.
    Key(char),
    /// The press of another key.
    Pressed(KeyCode),
    Told(Event),
}

/// The press of a key.
pub fn pressed(code: KeyCode) -> Event {
    Event::Key(KeyEvent::from(code))
}

/// The input that asks for it, in a session of any kinds.
pub fn input<P: Calls>(alloc: Global, asked: Asked<'_>) -> Result<InputOf<P>, AllocError> {
    let command = match asked {
        Asked::Push(text) => CommandOf::AppendData(String::from_str(alloc, text)?),
        Asked::Set(text) => CommandOf::SetData(String::from_str(alloc, text)?),
        Asked::Prompt(text) => CommandOf::SetPrompt(String::from_str(alloc, text)?),
        Asked::Message(text) => CommandOf::SendMessage(String::from_str(alloc, text)?),
        Asked::Shown(is_shown) => CommandOf::ShowPrompt(is_shown),
        Asked::Numbers(numbers) => CommandOf::SetLineNumbers(numbers),
        Asked::Wrapped(wrapping) => CommandOf::LineWrapping(wrapping),
        Asked::InLines(match_lines) => CommandOf::SetMatchLines(match_lines),
        Asked::Styled(carry_style) => CommandOf::SetCarryStyle(carry_style),
        Asked::Follow(follow) => CommandOf::FollowOutput(follow),
        Asked::Does(event) => CommandOf::UserInput(event),
        Asked::Io(command) => CommandOf::Io(command),
        Asked::Strategy(strategy) => CommandOf::SetExitStrategy(strategy),
        Asked::Overflow(is_paged) => CommandOf::SetRunNoOverflow(is_paged),
        Asked::Removed(hook, id) => CommandOf::RemoveHook(hook, id),
        Asked::Key(character) => return Ok(InputOf::Event(pressed(KeyCode::Char(character)))),
        Asked::Pressed(code) => return Ok(InputOf::Event(pressed(code))),
        Asked::Told(event) => return Ok(InputOf::Event(event)),
    };
    Ok(InputOf::Command(command))
}

/// Starts a session over a sink, without a text.
pub fn start<S: OutputSink + Drop>(
    alloc: Global,
    sink: S,
    cols: usize,
    rows: usize,
) -> Result<Session<S>, StartError<S>> {
    init_core_with(PagerOf::new(alloc), RunMode::Static, sink, cols, rows, Keys)
}

/// The number by which a session refuses what is asked of it, or 1 if there is no memory to ask for it; 0 where it does
/// it.
pub fn number_of<S: OutputSink + Drop, P: Calls>(
    alloc: Global,
    session: &mut Core<S, P>,
    asked: Asked<'_>,
) -> u8 {
    let Ok(input) = input(alloc, asked) else {
        return 1;
    };
    match session.step(input) {
        Ok(_) => 0,
        Err(refusal) => refusal.number(),
    }
}

/// Whether a session does all of this, step by step.
pub fn does<S: OutputSink + Drop, P: Calls>(
    alloc: Global,
    session: &mut Core<S, P>,
    asked: &[Asked<'_>],
) -> bool {
    for it in asked {
        if number_of(alloc, session, *it) != 0 {
            return false;
        }
    }
    true
}

// Whether a page has these rows and no others.
fn has_rows(page: &Page, rows: &[&str]) -> bool {
    let mut wanted = rows.iter();
    for row in &page.rows {
        match wanted.next() {
            Some(text) if row.as_str() == *text => {}
            _ => return false,
        }
    }
    wanted.next().is_none()
}

/// Whether a session's page has these rows; it is asked once more where a request for memory is refused.
pub fn has_page<S: OutputSink + Drop, P: Calls>(session: &Core<S, P>, rows: &[&str]) -> bool {
    match session.page() {
        Ok(page) => has_rows(&page, rows),
        Err(_) => match session.page() {
            Ok(page) => has_rows(&page, rows),
            Err(_) => false,
        },
    }
}
