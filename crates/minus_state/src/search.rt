//! Search in a pager: the direction of a search, how its prompt stands, and the editor of its query.
//!
//! Nothing here reads a state, so a program that draws its own search prompt uses these parts alone: it hands each
//! event to a `QueryEditor`, shows its query behind [`SearchMode::search_char`], and places the terminal's cursor by
//! that of the editor, which counts characters and not columns.
ghost use Rattle.minus_state.specs.SearchMode.{char_of};

pub mod condition;
pub mod keys;
mod letters;
pub mod matches;
pub mod open_prompt;
pub mod open_search;
pub mod opts;
pub mod preview;
pub mod query;
mod words;

/// The direction of a search.
#[derive(Clone, Copy, Debug, Default, PartialEq, Eq)]
pub enum SearchMode {
    /// From the mark on to the end of the text.
    Forward,
    /// From the mark back to the beginning of the text.
    Reverse,
    /// No search has begun.
    #[default]
    Unknown,
}

impl SearchMode {
    ghost use Rattle.std.specs.Prelude.{◌≡◌};

    /// The character that a search prompt shows before the query: `/` forward, `?` back; `None` where no search has
    /// begun.
    pub fn search_char(self) -> Option<char>
        ensures { result ≡ char_of self }
    {
        match self {
            SearchMode::Forward => Some('/'),
            SearchMode::Reverse => Some('?'),
            SearchMode::Unknown => None,
        }
    }
}

/// How a search stands.
#[derive(Clone, Copy, Debug, Default, PartialEq, Eq)]
pub struct SearchState {
    /// The direction of the last search.
    pub search_mode: SearchMode,
}

/// How a search prompt stands.
#[derive(Clone, Copy, Debug, PartialEq, Eq)]
pub enum InputStatus {
    /// The query was taken, and the prompt is closed.
    Confirmed,
    /// The query was dropped, and the prompt is closed.
    Cancelled,
    /// The prompt is open.
    Active,
}

impl InputStatus {
    ghost use Rattle.std.specs.Prelude.{◌↔◌, ◌⊎◌, ◌≡◌, IsTrue};

    /// Whether the prompt is closed.
    pub fn done(&self) -> bool
        ensures { IsTrue result ↔ ((self.now ≡ InputStatus.Confirmed) ⊎ (self.now ≡ InputStatus.Cancelled)) }
    {
        match self {
            InputStatus::Confirmed | InputStatus::Cancelled => true,
            InputStatus::Active => false,
        }
    }
}
