//! What a pager is told.
use crate::parts::{Boxes, Parts};
use minus_state::change::AppendStyle;
use minus_state::input::InputEvent;
use minus_state::state::ExitStrategy;
use minus_term::Event;
use minus_term::hooks::Hook;
use minus_text::LineNumbers;

/// A command that asks for a drawing.
#[derive(Clone, Copy, Debug, PartialEq, Eq)]
pub enum IoCommand {
    /// Draw the prompt row.
    RedrawPrompt,
    /// Draw the whole page.
    RedrawDisplay,
    /// Draw the whole page: a text was appended so to one of this many unfinished rows, and this many rows in all.
    DrawAppendedText(usize, usize, AppendStyle),
    /// Move the mark, the first row of text on the page, to this row, counted from 0.
    SetUpperMark(usize),
    /// Open the search prompt for a search in the direction of the last one; nothing where no search has begun.
    FetchSearchQuery,
}

/// A command, over the kinds of what a session keeps. Two that register a classifier are equal, whatever it is, and so
/// are two that register a condition, a callback of an exit, or callbacks of one hook under one id.
#[derive(Drop)]
#[derive_where(Debug, PartialEq, Eq)]
pub enum CommandOf<P: Parts> {
    /// Put this text in the place of the displayed text.
    SetData(String),
    /// Add this text at the end of the displayed text.
    AppendData(String),
    /// Let the prompt row say this. A text with a newline is refused.
    SetPrompt(String),
    /// Let the prompt row say this in the prompt's place. A text with a newline is refused.
    SendMessage(String),
    /// Show the prompt row, or hide it.
    ShowPrompt(bool),
    /// Let rows begin with the numbers of their lines, or not.
    SetLineNumbers(LineNumbers),
    /// Wrap lines that are too long for the columns, or let each be one row.
    LineWrapping(bool),
    /// Search for the term in each line, so that a match goes over the ends of rows, or in each row by itself.
    SetMatchLines(bool),
    /// Put each row with the style that its line carries to it, and end it with a reset where it leaves a style open,
    /// or put rows as their texts are.
    SetCarryStyle(bool),
    /// Move to the last page, and go on with what is appended from now on, or no longer.
    FollowOutput(bool),
    /// Do what an event would ask for.
    UserInput(InputEvent),
    /// Draw.
    Io(IoCommand),
    /// Let an exit be by this strategy, with the code 1 where the process is to end, and 0 where it is to go on.
    SetExitStrategy(ExitStrategy),
    /// Page a text anyway that fits the page, or print it.
    SetRunNoOverflow(bool),
    /// Call this at an exit, behind all that is called then.
    AddExitCallback(#[derive_where(skip)] P::Exit),
    /// Call this at a hook, behind all that is called there, and hold it under this id; 0 asks for the next free one.
    AddHook(Hook, u64, #[derive_where(skip)] P::Hook),
    /// Call no longer what a hook holds under this id. Without the id 1 of [`Hook::PostPagerExit`], which the pager
    /// keeps for itself, the process goes on after an exit.
    RemoveHook(Hook, u64),
    /// Keep this condition: from now on it is asked whether the page shows where a query leads.
    IncrementalSearchCondition(#[derive_where(skip)] P::Condition),
    /// Keep this classifier: it decides about the events after it.
    SetInputClassifier(#[derive_where(skip)] P::Classifier),
}

impl<P: Parts> CommandOf<P> {
    ghost use Rattle.std.specs.Prelude.{◌≡◌};
    ghost use Rattle.minus_commands.specs.Reads.{io_of};

    // The command that asks for a drawing, if it is one.
    pub(crate) fn io(&self) -> Option<IoCommand>
        ensures { result ≡ io_of self.now }
    {
        match self {
            CommandOf::Io(command) => Some(*command),
            _ => None,
        }
    }
}

/// A command to a session that keeps what its caller boxes, or a register of bindings.
pub type Command = CommandOf<Boxes>;

/// What a session is given, over the kinds of what it keeps.
#[derive(Drop)]
#[derive_where(Debug)]
pub enum InputOf<P: Parts> {
    /// A command.
    Command(CommandOf<P>),
    /// An event of the terminal, which the session's classifier decides about.
    Event(Event),
}

/// What a session is given that keeps what its caller boxes, or a register of bindings.
pub type Input = InputOf<Boxes>;
