//! Lines of cases beyond those of scripts: what they ask a session for.
use crate::kept::{CaseKinds, ShowsFrom, SinkCalls};
use minus::{
    AppendStyle, CommandOf, Event, ExitStrategy, Hook, InputEvent, IoCommand, KeyEvent,
    LineNumbers, MouseEvent, SearchMode, parse_key_event, parse_mouse_event, parse_usize,
};

/// How a pager starts.
#[derive(Clone, Copy)]
pub enum Starts {
    /// On a terminal.
    Shown,
    /// On a sink that is no terminal.
    Bare,
    /// On a terminal, where its text does not fit.
    Printed,
    /// On a sink that is no terminal, as the last one.
    BarePrinted,
}

/// What a line asks for.
#[derive(Drop)]
pub enum Line {
    Command(CommandOf<CaseKinds>),
    Event(Event),
    /// A callback is registered at a hook under an id.
    Hook(Hook, u64),
    /// A callback of an exit is registered.
    AtExit,
    /// What an event asks for is answered, by the default bindings or by the classifier of exact keys.
    Ask(Event, bool),
    /// The sink takes and refuses these calls from now on.
    Sink(SinkCalls),
    /// The pager starts, on no terminal, or is printed where its text fits.
    Start(Starts),
    /// Parts are driven manually; what waits for a command is drawn, or let go.
    Drive(bool),
    /// Another sink takes the place of the session's.
    Exchange(usize, usize),
    /// The session ends.
    Finish,
}

fn parse_switch(text: &str) -> Option<bool> {
    match text {
        "on" => Some(true),
        "off" => Some(false),
        _ => None,
    }
}

fn parse_numbers(text: &str) -> Option<LineNumbers> {
    match text {
        "always-on" => Some(LineNumbers::AlwaysOn),
        "on" => Some(LineNumbers::Enabled),
        "off" => Some(LineNumbers::Disabled),
        "always-off" => Some(LineNumbers::AlwaysOff),
        _ => None,
    }
}

fn parse_direction(text: &str) -> Option<SearchMode> {
    match text {
        "forward" => Some(SearchMode::Forward),
        "reverse" => Some(SearchMode::Reverse),
        "unknown" => Some(SearchMode::Unknown),
        _ => None,
    }
}

fn parse_strategy(text: &str) -> Option<ExitStrategy> {
    match text {
        "process" => Some(ExitStrategy::ProcessQuit),
        "pager" => Some(ExitStrategy::PagerQuit),
        _ => None,
    }
}

// A hook and an id.
fn parse_hook(text: &str) -> Option<(Hook, u64)> {
    let (name, id) = text.split_once(' ')?;
    let hook = match name {
        "before-start" => Hook::PrePagerStart,
        "after-start" => Hook::PostPagerStart,
        "end" => Hook::EofReached,
        "before-exit" => Hook::PrePagerExit,
        "after-exit" => Hook::PostPagerExit,
        _ => return None,
    };
    Some((hook, u64::try_from(parse_usize(id)?).ok()?))
}

// Two numbers with a blank between them.
fn parse_two(text: &str) -> Option<(usize, usize)> {
    let (first, second) = text.split_once(' ')?;
    Some((parse_usize(first)?, parse_usize(second)?))
}

// A column and a row.
fn parse_place(text: &str) -> Option<(u16, u16)> {
    let (x, y) = parse_two(text)?;
    Some((u16::try_from(x).ok()?, u16::try_from(y).ok()?))
}

fn parse_select(text: &str) -> Option<InputEvent> {
    let (x, y) = parse_place(text)?;
    Some(InputEvent::StartSelection { x, y })
}

fn parse_extend(text: &str) -> Option<InputEvent> {
    let (x, y) = parse_place(text)?;
    Some(InputEvent::UpdateSelection { x, y })
}

fn parse_area(text: &str) -> Option<InputEvent> {
    let (cols, rows) = parse_two(text)?;
    Some(InputEvent::UpdateTermArea(cols, rows))
}

// How many calls a sink takes, how many it refuses behind those, and how many bytes a write takes at most.
fn parse_sink(text: &str) -> Option<Line> {
    let (taken, rest) = text.split_once(' ')?;
    let (refused, most) = parse_two(rest)?;
    let taken = parse_usize(taken)?;
    Some(Line::Sink(SinkCalls {
        taken,
        refused,
        most,
    }))
}

fn parse_exchange(text: &str) -> Option<Line> {
    let (cols, rows) = parse_two(text)?;
    Some(Line::Exchange(cols, rows))
}

// What an event with an argument asks for.
fn parse_do_with(word: &str, text: &str) -> Option<InputEvent> {
    match word {
        "mark" => parse_usize(text).map(InputEvent::UpdateUpperMark),
        "left" => parse_usize(text).map(InputEvent::UpdateLeftMark),
        "next" => parse_usize(text).map(InputEvent::MoveToNextMatch),
        "previous" => parse_usize(text).map(InputEvent::MoveToPrevMatch),
        "follow" => parse_switch(text).map(InputEvent::FollowOutput),
        "wrap" => parse_switch(text).map(InputEvent::HorizontalScroll),
        "numbers" => parse_numbers(text).map(InputEvent::UpdateLineNumber),
        "search" => parse_direction(text).map(InputEvent::Search),
        "digit" => text.chars().next().map(InputEvent::Number),
        "resize" => parse_area(text),
        "select" => parse_select(text),
        "extend" => parse_extend(text),
        _ => None,
    }
}

// What an event asks for.
fn parse_do(text: &str) -> Option<InputEvent> {
    match text {
        "exit" => Some(InputEvent::Exit),
        "ignore" => Some(InputEvent::Ignore),
        "restore" => Some(InputEvent::RestorePrompt),
        "help" => Some(InputEvent::ShowHelp),
        "copy" => Some(InputEvent::CopySelection),
        "clear" => Some(InputEvent::ClearSelection),
        "next" => Some(InputEvent::NextMatch),
        "previous" => Some(InputEvent::PrevMatch),
        _ => {
            let (word, rest) = text.split_once(' ')?;
            parse_do_with(word, rest)
        }
    }
}

// A drawing that is asked for.
fn parse_draw(text: &str) -> Option<IoCommand> {
    match text {
        "prompt" => Some(IoCommand::RedrawPrompt),
        "page" => Some(IoCommand::RedrawDisplay),
        "query" => Some(IoCommand::FetchSearchQuery),
        "appended" => Some(IoCommand::DrawAppendedText(0, 0, AppendStyle::PartialUpdate((0, 1)))),
        "appended all" => Some(IoCommand::DrawAppendedText(0, 0, AppendStyle::FullRedraw)),
        _ => parse_usize(text.strip_prefix("mark ")?).map(IoCommand::SetUpperMark),
    }
}

fn parse_resize(text: &str) -> Option<Event> {
    let (cols, rows) = parse_place(text)?;
    Some(Event::Resize(cols, rows))
}

// An event that is no key.
fn parse_event(text: &str) -> Option<Event> {
    match text {
        "focus on" => Some(Event::FocusGained),
        "focus off" => Some(Event::FocusLost),
        _ => parse_resize(text.strip_prefix("resize ")?),
    }
}

// The event of the mouse that a description, a column and a row say.
fn parse_mouse(text: &str) -> Option<Event> {
    let (description, place) = text.split_once(' ')?;
    let mouse = parse_mouse_event(description).ok()?;
    let (column, row) = parse_place(place)?;
    Some(Event::Mouse(MouseEvent {
        column,
        row,
        ..mouse
    }))
}

fn key_event(key: KeyEvent) -> Event {
    Event::Key(key)
}

// The event that is asked about.
fn parse_asked(text: &str) -> Option<Event> {
    if let Some(rest) = text.strip_prefix("mouse ") {
        return parse_mouse(rest);
    }
    match parse_event(text) {
        Some(event) => Some(event),
        None => parse_key_event(text).ok().map(key_event),
    }
}

fn parse_ask(text: &str) -> Option<Line> {
    match text.strip_prefix("exact ") {
        Some(rest) => Some(Line::Ask(parse_asked(rest)?, true)),
        None => Some(Line::Ask(parse_asked(text)?, false)),
    }
}

fn parse_registered(text: &str) -> Option<Line> {
    let (hook, id) = parse_hook(text)?;
    Some(Line::Hook(hook, id))
}

fn parse_removed(text: &str) -> Option<CommandOf<CaseKinds>> {
    let (hook, id) = parse_hook(text)?;
    Some(CommandOf::RemoveHook(hook, id))
}

fn parse_command(word: &str, text: &str) -> Option<CommandOf<CaseKinds>> {
    match word {
        "do" => Some(CommandOf::UserInput(parse_do(text)?)),
        "draw" => Some(CommandOf::Io(parse_draw(text)?)),
        "strategy" => Some(CommandOf::SetExitStrategy(parse_strategy(text)?)),
        "preview" => Some(CommandOf::IncrementalSearchCondition(ShowsFrom(parse_usize(text)?))),
        "overflow" => Some(CommandOf::SetRunNoOverflow(parse_switch(text)?)),
        "unhook" => parse_removed(text),
        _ => None,
    }
}

/// What a line asks for that no line of a script does.
pub(crate) fn parse_line(line: &str) -> Option<Line> {
    match line {
        "start" => return Some(Line::Start(Starts::Shown)),
        "start bare" => return Some(Line::Start(Starts::Bare)),
        "parts" => return Some(Line::Drive(false)),
        "driven" => return Some(Line::Drive(true)),
        "print" => return Some(Line::Start(Starts::Printed)),
        "print bare" => return Some(Line::Start(Starts::BarePrinted)),
        "finish" => return Some(Line::Finish),
        "atexit" => return Some(Line::AtExit),
        _ => {}
    }
    let (word, text) = line.split_once(' ')?;
    match word {
        "event" => parse_event(text).map(Line::Event),
        "hook" => parse_registered(text),
        "ask" => parse_ask(text),
        "sink" => parse_sink(text),
        "exchange" => parse_exchange(text),
        _ => parse_command(word, text).map(Line::Command),
    }
}
