//! The acts of a work: each is one input to the session.
use minus::{Command, Event, Input, InputEvent, IoCommand, KeyEvent, LineNumbers, parse_key_event};

/// What is done to a session.
#[derive(Clone, Copy)]
pub(crate) enum Act {
    /// The whole page is drawn.
    Redraw,
    /// Help is opened or left.
    Help,
    /// Lines get their numbers.
    Numbers,
    /// Each line is one row.
    Unwrapped,
    /// A term is searched for in lines.
    MatchLines,
    /// Rows are put with the styles that their lines carry to them.
    CarryStyle,
    /// The page goes on with what is pushed.
    Following,
    /// What is selected is copied.
    Copy,
    /// The page moves to the row after that of its turn.
    Next,
    /// A selection is led over the page, each turn to another place.
    Drag,
    /// The page moves to this row.
    Mark(usize),
    /// This key is pressed.
    Key(KeyEvent),
    /// A selection begins at this column and row of the page.
    Select(u16, u16),
    /// It is led to this column and row.
    Lead(u16, u16),
    /// The terminal has this many columns and rows.
    Size(u16, u16),
}

// Two numbers with a comma between them.
fn parse_pair(text: &str) -> Option<(u16, u16)> {
    let (first, second) = text.split_once(',')?;
    let first = first.parse::<u16>().ok()?;
    let second = second.parse::<u16>().ok()?;
    Some((first, second))
}

// The act that a name and a value behind it stand for.
fn parse_valued(name: &str, value: &str) -> Option<Act> {
    match name {
        "mark" => value.parse::<usize>().ok().map(Act::Mark),
        "key" => parse_key_event(value).ok().map(Act::Key),
        "select" => parse_pair(value).map(|(x, y)| Act::Select(x, y)),
        "lead" => parse_pair(value).map(|(x, y)| Act::Lead(x, y)),
        "size" => parse_pair(value).map(|(cols, rows)| Act::Size(cols, rows)),
        _ => None,
    }
}

// The act that a name alone stands for.
fn parse_named(name: &str) -> Option<Act> {
    match name {
        "redraw" => Some(Act::Redraw),
        "help" => Some(Act::Help),
        "numbers" => Some(Act::Numbers),
        "unwrapped" => Some(Act::Unwrapped),
        "matchlines" => Some(Act::MatchLines),
        "carrystyle" => Some(Act::CarryStyle),
        "following" => Some(Act::Following),
        "copy" => Some(Act::Copy),
        "next" => Some(Act::Next),
        "drag" => Some(Act::Drag),
        _ => None,
    }
}

// The rest of a turn at this many turns, as a column or a row.
fn place_of(turn: usize, turns: usize) -> u16 {
    let rest = turn.checked_rem(turns).unwrap_or(0);
    u16::try_from(rest).unwrap_or(0)
}

// The event that an act of the reader asks for, where it asks for one.
fn event_of(act: Act, turn: usize) -> InputEvent {
    match act {
        Act::Help => InputEvent::ShowHelp,
        Act::Copy => InputEvent::CopySelection,
        Act::Next => InputEvent::UpdateUpperMark(turn.saturating_add(1)),
        Act::Mark(row) => InputEvent::UpdateUpperMark(row),
        Act::Select(x, y) => InputEvent::StartSelection { x, y },
        Act::Lead(x, y) => InputEvent::UpdateSelection { x, y },
        Act::Drag => InputEvent::UpdateSelection {
            x: place_of(turn, 70),
            y: place_of(turn, 20).saturating_add(1),
        },
        _ => InputEvent::Ignore,
    }
}

impl Act {
    /// The act that a word stands for: a name, or a name, `=` and a value.
    pub(crate) fn parse(word: &str) -> Option<Act> {
        match word.split_once('=') {
            Some((name, value)) => parse_valued(name, value),
            None => parse_named(word),
        }
    }

    /// The act in this turn, counted from 0, as an input to a session.
    pub(crate) fn input(self, turn: usize) -> Input {
        match self {
            Act::Redraw => Input::Command(Command::Io(IoCommand::RedrawDisplay)),
            Act::Numbers => Input::Command(Command::SetLineNumbers(LineNumbers::Enabled)),
            Act::Unwrapped => Input::Command(Command::LineWrapping(false)),
            Act::MatchLines => Input::Command(Command::SetMatchLines(true)),
            Act::CarryStyle => Input::Command(Command::SetCarryStyle(true)),
            Act::Following => Input::Command(Command::FollowOutput(true)),
            Act::Key(key) => Input::Event(Event::Key(key)),
            Act::Size(cols, rows) => Input::Event(Event::Resize(cols, rows)),
            _ => Input::Command(Command::UserInput(event_of(self, turn))),
        }
    }
}
