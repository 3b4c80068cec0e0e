//! The errors of the pager.
ghost use Rattle.std.specs.Prelude.{◌≡◌};
ghost use Rattle.minus_term.specs.RefusalNumbers.{number_of};
ghost use Rattle.minus_term.specs.declared.error.MinusError.TheVariants.{Memory, BadDescription, Setup, Cleanup, Draw};
ghost use Rattle.minus_term.specs.declared.error.MinusError.TheVariants.{Cursor, FmtWriteError, SearchExpError};

use crate::hooks::Hook;
use std::alloc::{AllocError, AllocFailed};
use std::{fmt, io};
use thiserror::Error;

/// An operation on the terminal failed.
#[derive(Debug, Drop, Error)]
#[error("{0}")]
pub struct TermError(pub io::Error);

/// A pattern was not built.
#[derive(Debug, Drop, Error)]
#[error("{0}")]
pub struct RegexError(pub regex::Error);

/// Why the terminal was not set up.
#[derive(Debug, Drop, Error)]
pub enum SetupError {
    /// The sink is no terminal.
    #[error("The standard output is not a valid terminal")]
    InvalidTerminal,
    /// The sink refused the bytes that switch to the alternate screen.
    #[error("Failed to switch to alternate screen")]
    AlternateScreen(TermError),
    /// Kept for callers: no call answers it.
    #[error("Failed to enable raw mode")]
    RawMode(TermError),
    /// The sink refused the bytes that hide the cursor.
    #[error("Failed to hide the cursor")]
    HideCursor(TermError),
    /// The sink refused the bytes that ask for the mouse's events.
    #[error("Failed to enable mouse capture")]
    EnableMouseCapture(TermError),
    /// Kept for callers: no call answers it.
    #[error("Couldn't determine the terminal size")]
    TerminalSize(TermError),
}

/// Why the terminal was not cleaned up.
#[derive(Debug, Drop, Error)]
pub enum CleanupError {
    /// The sink refused the bytes that end the mouse's events.
    #[error("Failed to disable mouse capture")]
    DisableMouseCapture(TermError),
    /// The sink refused the bytes that show the cursor.
    #[error("Failed to show the cursor")]
    ShowCursor(TermError),
    /// Kept for callers: no call answers it.
    #[error("Failed to disable raw mode")]
    DisableRawMode(TermError),
    /// The sink refused the bytes that switch back to the main screen.
    #[error("Failed to switch back to main screen")]
    LeaveAlternateScreen(TermError),
}

/// Why the pager refused a call.
#[derive(Debug, Drop, Error)]
pub enum MinusError {
    /// Memory ran out.
    #[error("refused 1")]
    Memory,
    /// A prompt or a message holds a newline.
    #[error("refused 2")]
    NewlineInPrompt,
    /// The hook holds a callback under this id, or keeps it for the pager itself.
    #[error("refused 3")]
    HookIdTaken(Hook, u64),
    /// The greatest id that is held is `u64::MAX`, so that no next one is free.
    #[error("refused 4")]
    NoFreeHookId,
    /// This many columns and rows are out of range.
    #[error("refused 5")]
    BadSize(usize, usize),
    /// The description at this place of a list, counted from 0, describes nothing.
    #[error("refused 6")]
    BadDescription(usize, DescriptionError),
    /// What the description or the event at this place of a list, counted from 0, stands for is bound.
    #[error("refused 7")]
    Bound(usize),
    /// A query has as many characters as it may have.
    #[error("refused 8")]
    QueryFull,
    /// The call is not for this mode.
    #[error("refused 9")]
    BadMode,
    /// The pager failed before, and does nothing more.
    #[error("refused 10")]
    Failed,
    /// The pager has exited, and does nothing more.
    #[error("refused 11")]
    Ended,
    /// The terminal was not set up.
    #[error("Failed to initialize the terminal")]
    Setup(SetupError),
    /// The terminal was not cleaned up.
    #[error("Failed to clean up the terminal")]
    Cleanup(CleanupError),
    /// The sink refused a write or a flush.
    #[error("Failed to draw the new data")]
    Draw(io::Error),
    /// Kept for callers: no call answers it.
    #[error("Failed to handle terminal event")]
    HandleEvent(TermError),
    /// Kept for callers: no call answers it.
    #[error("Failed to do an operation on the cursor")]
    Cursor(TermError),
    /// Kept for callers that format into a pager: no call answers it.
    #[error("Failed to send formatted data to the pager")]
    FmtWriteError(fmt::Error),
    /// Kept for callers: no call answers it.
    #[error("Failed to convert between some primitives")]
    Conversion,
    /// A pattern was not built.
    #[error("{0}")]
    SearchExpError(RegexError),
}

impl From<io::Error> for TermError {
    ghost from_gives = { λ cause e. e.0 ≡ cause };

    fn from(cause: io::Error) -> TermError {
        TermError(cause)
    }
}

impl From<regex::Error> for RegexError {
    ghost from_gives = { λ cause e. e.0 ≡ cause };

    fn from(cause: regex::Error) -> RegexError {
        RegexError(cause)
    }
}

impl From<AllocError> for MinusError {
    ghost from_gives = { λ cause e. e ≡ Memory };

    fn from(_cause: AllocError) -> MinusError {
        MinusError::Memory
    }
}

impl<T: Drop> From<AllocFailed<T>> for MinusError {
    ghost from_gives = { λ cause e. e ≡ Memory };

    fn from(_cause: AllocFailed<T>) -> MinusError {
        MinusError::Memory
    }
}

// (a description that stands alone is the first of its list)
impl From<DescriptionError> for MinusError {
    ghost from_gives = { λ cause e. e ≡ BadDescription 0 cause };

    fn from(cause: DescriptionError) -> MinusError {
        MinusError::BadDescription(0, cause)
    }
}

impl From<SetupError> for MinusError {
    ghost from_gives = { λ cause e. e ≡ Setup cause };

    fn from(cause: SetupError) -> MinusError {
        MinusError::Setup(cause)
    }
}

impl From<CleanupError> for MinusError {
    ghost from_gives = { λ cause e. e ≡ Cleanup cause };

    fn from(cause: CleanupError) -> MinusError {
        MinusError::Cleanup(cause)
    }
}

impl From<io::Error> for MinusError {
    ghost from_gives = { λ cause e. e ≡ Draw cause };

    fn from(cause: io::Error) -> MinusError {
        MinusError::Draw(cause)
    }
}

impl From<TermError> for MinusError {
    ghost from_gives = { λ cause e. e ≡ Cursor cause };

    fn from(cause: TermError) -> MinusError {
        MinusError::Cursor(cause)
    }
}

impl From<fmt::Error> for MinusError {
    ghost from_gives = { λ cause e. e ≡ FmtWriteError cause };

    fn from(cause: fmt::Error) -> MinusError {
        MinusError::FmtWriteError(cause)
    }
}

impl From<RegexError> for MinusError {
    ghost from_gives = { λ cause e. e ≡ SearchExpError cause };

    fn from(cause: RegexError) -> MinusError {
        MinusError::SearchExpError(cause)
    }
}

impl MinusError {
    /// The number that names this error; 0 for those that no call answers and that have none.
    pub fn number(&self) -> u8
        ensures { result ≡ number_of self.now }
    {
        match self {
            MinusError::Memory => 1,
            MinusError::NewlineInPrompt => 2,
            MinusError::HookIdTaken(_, _) => 3,
            MinusError::NoFreeHookId => 4,
            MinusError::BadSize(_, _) => 5,
            MinusError::BadDescription(_, _) => 6,
            MinusError::Bound(_) => 7,
            MinusError::QueryFull => 8,
            MinusError::BadMode => 9,
            MinusError::Failed => 10,
            MinusError::Ended => 11,
            MinusError::Setup(_) => 12,
            MinusError::Cleanup(_) => 13,
            MinusError::Draw(_) => 14,
            MinusError::SearchExpError(_) => 15,
            MinusError::FmtWriteError(_) => 16,
            MinusError::HandleEvent(_) | MinusError::Cursor(_) | MinusError::Conversion => 0,
        }
    }
}

/// Why a text describes no key, or no action of the mouse.
#[derive(Clone, Copy, Debug, PartialEq, Eq, Error)]
pub enum DescriptionError {
    /// A character of it is not ASCII.
    #[error("NotAscii")]
    NotAscii,
    /// Nothing stands in it but blanks.
    #[error("Empty")]
    Empty,
    /// An empty segment stands inside it, and not right after a modifier.
    #[error("EmptySegment")]
    EmptySegment,
    /// A modifier stands in it a second time.
    #[error("RepeatedModifier")]
    RepeatedModifier,
    /// A segment is no name that is known.
    #[error("UnknownName")]
    UnknownName,
    /// A second key, or a second action of the mouse, stands in it.
    #[error("SecondKey")]
    SecondKey,
    /// No action of the mouse stands in it.
    #[error("NoAction")]
    NoAction,
}
