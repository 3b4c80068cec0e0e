//! What the events of a terminal ask a pager for, and what decides about them.
use crate::search::SearchMode;
use crate::state::PagerState;
use minus_term::Event;
use minus_text::LineNumbers;
use std::alloc::{AllocError, Global};

/// What an event asks for.
#[derive(Clone, Copy, Debug, PartialEq, Eq)]
pub enum InputEvent {
    /// Move the mark, the first row of text on the page, to this row, counted from 0.
    UpdateUpperMark(usize),
    /// The terminal has this many columns and rows now, each from 1 to 65,535.
    UpdateTermArea(usize, usize),
    /// Move the left mark, the columns that are cut off at the left where lines are not wrapped, to this column,
    /// counted from 0. It moves to the right only as long as the page does not go beyond the longest line.
    UpdateLeftMark(usize),
    /// Let rows begin with the numbers of their lines, or not.
    UpdateLineNumber(LineNumbers),
    /// Wrap lines that are too long for the columns, or let each be one row.
    HorizontalScroll(bool),
    /// Begin a selection at this column and row of the page, both counted from 0.
    StartSelection {
        /// The column.
        x: u16,
        /// The row.
        y: u16,
    },
    /// Lead the selection that has begun to this column and row of the page, both counted from 0. At its first row, and
    /// below its last row of text, the mark moves by a row too.
    UpdateSelection {
        /// The column.
        x: u16,
        /// The row.
        y: u16,
    },
    /// Select nothing any more.
    ClearSelection,
    /// Copy what is selected, and select nothing any more.
    CopySelection,
    /// Open the search prompt for a search in this direction, with an empty query, and let the prompt row report the
    /// first match from then on; nothing where the direction is unknown.
    Search(SearchMode),
    /// `MoveToNextMatch` by one match.
    NextMatch,
    /// `MoveToPrevMatch` by one match.
    PrevMatch,
    /// Move the mark to the row of the match that a jump on by this many matches goes to, counted from the mark, past
    /// the last one on at the first, and let the prompt row report that match. Where no row matches, nothing.
    MoveToNextMatch(usize),
    /// Let the prompt row report the match this many before the one that it reports, or of the first one, and move the
    /// mark to its row where that stands above it. Where no row matches, nothing.
    MoveToPrevMatch(usize),
    /// Move to the last page, and go on with what is appended from now on, or no longer.
    FollowOutput(bool),
    /// Drop the message, so that the prompt is shown again; where help is open, leave it.
    RestorePrompt,
    /// Show the help text that the classifier gives in the place of the text; where help is open, leave it.
    ShowHelp,
    /// Add this character to the typed prefix.
    Number(char),
    /// End the session; where help is open, leave it.
    Exit,
    /// Nothing.
    Ignore,
}

/// What decides about the events of a terminal.
pub trait InputClassifier: Drop {
    ghost use Rattle.std.specs.Prelude.{option_map, string_bytes, IfOk};
    ghost use Rattle.minus_state.specs.Classifying.{Classifies};

    // What it may say: the answers that it may give to an event in a state, and the texts, or none, for help.
    ghost says: { Classifies Self };

    /// What the event asks for in this state, if anything.
    fn classify_input(&self, event: Event, state: &PagerState) -> Option<InputEvent>
        ensures { says.allows self.now event state.now result };

    /// The text that help shows, if there is one.
    ///
    /// # Errors
    ///
    /// [`AllocError`] where there is no memory for it.
    fn format_help(&self, alloc: Global) -> Result<Option<String>, AllocError>
        ensures { IfOk result (λ text. says.helps self.now (option_map string_bytes text)) };
}
