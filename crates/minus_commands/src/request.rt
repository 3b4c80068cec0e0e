//! What is asked for, by a command or by an event: one request for each line of the table of commands.
ghost use Rattle.std.specs.Prelude.{◌≡◌, false, OnOk, IfErr};
ghost use Rattle.minus_term.specs.Refusals.{refusal_of};
ghost use Rattle.minus_state.specs.Changes.{IsUnformedState};
ghost use Rattle.minus_state.specs.ShownPrompt.{has_newline, IsNewlineRefused};
ghost use Rattle.minus_state.specs.Sizes.{IsSize};
ghost use Rattle.minus_commands.specs.Reads.{wanted_of};
ghost use Rattle.minus_commands.specs.Table.{IsPossible, IsFault};

use crate::commands::{CommandOf, IoCommand};
use crate::parts::Parts;
use crate::registration::Handed;
use minus_state::input::InputEvent;
use minus_state::search::SearchMode;
use minus_state::{has_newline, is_size};
use minus_term::MinusError;
use minus_text::LineNumbers;
use std::alloc::{AllocError, Global};

/// What is asked for: a line each of the table of commands (`Wanted` of `specs/Table`), in its order.
#[derive(Drop)]
pub enum Request<P: Parts> {
    SetText(String),
    AppendText(String),
    MoveMark(usize),
    Resize(usize, usize),
    Exit,
    Ignore,
    SetPrompt(String),
    SendMessage(String),
    ShowPrompt(bool),
    Follow(bool),
    Type(char),
    RestorePrompt,
    RedrawPrompt,
    RedrawPage,
    HandOver(Handed<P>),
    SetNumbers(LineNumbers),
    SetWrapping(bool),
    SetMatchLines(bool),
    SetCarryStyle(bool),
    ShiftLeft(usize),
    StartSelection { x: u16, y: u16 },
    UpdateSelection { x: u16, y: u16 },
    ClearSelection,
    CopySelection,
    ShowHelp(Option<String>),
    MoveToNextMatch(usize),
    MoveToPrevMatch(usize),
    Search(SearchMode),
    FetchSearchQuery,
}

impl<P: Parts> Request<P> {
    ghost use Rattle.std.specs.Prelude.{IfOk};
    ghost use Rattle.minus_state.specs.Control.{Control};
    ghost use Rattle.minus_commands.specs.Callbacks.{KeepsNone, KeepsOf};
    ghost use Rattle.minus_commands.specs.Reads.{event_wanted, io_wanted, wanted_by};
    ghost use Rattle.minus_commands.specs.Table.{effect_of};

    /// What an event asks for. Help has no text yet.
    pub fn of_event(event: InputEvent) -> Request<P>
        ensures wanted { wanted_by result ≡ event_wanted event }
        ensures keeps { KeepsNone result }
    {
        match event {
            InputEvent::UpdateUpperMark(mark) => Request::MoveMark(mark),
            InputEvent::UpdateTermArea(cols, rows) => Request::Resize(cols, rows),
            InputEvent::UpdateLeftMark(left) => Request::ShiftLeft(left),
            InputEvent::UpdateLineNumber(numbers) => Request::SetNumbers(numbers),
            InputEvent::HorizontalScroll(wrapping) => Request::SetWrapping(wrapping),
            InputEvent::StartSelection { x, y } => Request::StartSelection { x, y },
            InputEvent::UpdateSelection { x, y } => Request::UpdateSelection { x, y },
            InputEvent::ClearSelection => Request::ClearSelection,
            InputEvent::CopySelection => Request::CopySelection,
            InputEvent::Search(mode) => Request::Search(mode),
            InputEvent::NextMatch => Request::MoveToNextMatch(1),
            InputEvent::PrevMatch => Request::MoveToPrevMatch(1),
            InputEvent::MoveToNextMatch(jump) => Request::MoveToNextMatch(jump),
            InputEvent::MoveToPrevMatch(jump) => Request::MoveToPrevMatch(jump),
            InputEvent::FollowOutput(follow) => Request::Follow(follow),
            InputEvent::RestorePrompt => Request::RestorePrompt,
            InputEvent::ShowHelp => Request::ShowHelp(None),
            InputEvent::Number(character) => Request::Type(character),
            InputEvent::Exit => Request::Exit,
            InputEvent::Ignore => Request::Ignore,
        }
    }

    // What a command that asks for a drawing asks for.
    pub(crate) fn of_io(command: IoCommand) -> Request<P>
        ensures wanted { wanted_by result ≡ io_wanted command }
        ensures keeps { KeepsNone result }
    {
        match command {
            IoCommand::RedrawPrompt => Request::RedrawPrompt,
            IoCommand::RedrawDisplay | IoCommand::DrawAppendedText(..) => Request::RedrawPage,
            IoCommand::SetUpperMark(mark) => Request::MoveMark(mark),
            IoCommand::FetchSearchQuery => Request::FetchSearchQuery,
        }
    }

    /// What a command asks for, with copies of its texts, where it hands nothing over; or else to change nothing.
    pub fn copied(alloc: Global, command: &CommandOf<P>) -> Result<Request<P>, AllocError>
        ensures effect { IfOk result (λ r. (c : Control) →
            effect_of c (wanted_by r) ≡ effect_of c (wanted_of command.now)) }
        ensures possible { IfOk result (λ r. IsPossible (wanted_of command.now) → IsPossible (wanted_by r)) }
    {
        let copied = match command {
            CommandOf::SetData(text) => Request::SetText(String::from_str(alloc, text)?),
            CommandOf::AppendData(text) => Request::AppendText(String::from_str(alloc, text)?),
            CommandOf::SetPrompt(text) => Request::SetPrompt(String::from_str(alloc, text)?),
            CommandOf::SendMessage(text) => Request::SendMessage(String::from_str(alloc, text)?),
            CommandOf::ShowPrompt(is_shown) => Request::ShowPrompt(*is_shown),
            CommandOf::SetLineNumbers(numbers) => Request::SetNumbers(*numbers),
            CommandOf::LineWrapping(wrapping) => Request::SetWrapping(*wrapping),
            CommandOf::SetMatchLines(match_lines) => Request::SetMatchLines(*match_lines),
            CommandOf::SetCarryStyle(carry_style) => Request::SetCarryStyle(*carry_style),
            CommandOf::FollowOutput(follow) => Request::Follow(*follow),
            CommandOf::UserInput(event) => Request::of_event(*event),
            CommandOf::Io(command) => Request::of_io(*command),
            _ => Request::Ignore,
        };
        Ok(copied)
    }

    /// What a command asks for. Help has no text yet.
    pub fn of_command(command: CommandOf<P>) -> Request<P>
        ensures wanted { wanted_by result ≡ wanted_of command }
        ensures keeps { KeepsOf command result }
    {
        match command {
            CommandOf::SetData(text) => Request::SetText(text),
            CommandOf::AppendData(text) => Request::AppendText(text),
            CommandOf::SetPrompt(text) => Request::SetPrompt(text),
            CommandOf::SendMessage(text) => Request::SendMessage(text),
            CommandOf::ShowPrompt(is_shown) => Request::ShowPrompt(is_shown),
            CommandOf::SetLineNumbers(numbers) => Request::SetNumbers(numbers),
            CommandOf::LineWrapping(wrapping) => Request::SetWrapping(wrapping),
            CommandOf::SetMatchLines(match_lines) => Request::SetMatchLines(match_lines),
            CommandOf::SetCarryStyle(carry_style) => Request::SetCarryStyle(carry_style),
            CommandOf::FollowOutput(follow) => Request::Follow(follow),
            CommandOf::UserInput(event) => Request::of_event(event),
            CommandOf::Io(command) => Request::of_io(command),
            CommandOf::SetExitStrategy(strategy) => Request::HandOver(Handed::Strategy(strategy)),
            CommandOf::SetRunNoOverflow(on) => Request::HandOver(Handed::RunNoOverflow(on)),
            CommandOf::AddExitCallback(callback) => {
                Request::HandOver(Handed::ExitCallback(callback))
            }
            CommandOf::AddHook(hook, id, callback) => {
                Request::HandOver(Handed::Callback(hook, id, callback))
            }
            CommandOf::RemoveHook(hook, id) => Request::HandOver(Handed::NoCallback(hook, id)),
            CommandOf::IncrementalSearchCondition(condition) => {
                Request::HandOver(Handed::Condition(condition))
            }
            CommandOf::SetInputClassifier(classifier) => {
                Request::HandOver(Handed::Classifier(classifier))
            }
        }
    }
}

/// Whether these are columns and rows of a terminal.
pub fn check_size(cols: usize, rows: usize) -> Result<(), MinusError>
    ensures size { OnOk result (IsSize cols rows) }
    ensures refused { IfErr result (λ e. IsUnformedState (refusal_of e) cols rows) }
    ensures cause { IfErr result (λ e. (e ≡ MinusError.BadSize cols rows) × (IsSize cols rows → ⊥)) }
{
    if !is_size(cols, rows) {
        return Err(MinusError::BadSize(cols, rows));
    }
    Ok(())
}

// Whether the prompt row can say this.
pub(crate) fn check_line(text: &str) -> Result<(), MinusError>
    ensures ok { OnOk result (has_newline text.now ≡ false) }
    ensures err { IfErr result (λ e. IsNewlineRefused e text.now) }
{
    if has_newline(text) {
        return Err(MinusError::NewlineInPrompt);
    }
    Ok(())
}

/// Whether a command can be done.
pub fn check_command<P: Parts>(command: &CommandOf<P>) -> Result<(), MinusError>
    ensures ok { OnOk result (IsPossible (wanted_of command.now)) }
    ensures err { IfErr result (λ e. IsFault (refusal_of e) (wanted_of command.now)) }
{
    match command {
        CommandOf::SetPrompt(text) | CommandOf::SendMessage(text) => check_line(text),
        CommandOf::UserInput(InputEvent::UpdateTermArea(cols, rows)) => check_size(*cols, *rows),
        _ => Ok(()),
    }
}
