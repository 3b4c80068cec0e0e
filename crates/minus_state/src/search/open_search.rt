//! A search prompt that is open in a pager.
ghost use Rattle.std.specs.Prelude.{◌≡◌, option_map};
ghost use Rattle.minus_state.specs.OpenSearches.{seen_search, search_after};

use crate::search::keys::QueryEdit;
use crate::search::open_prompt::OpenPrompt;
use regex::Regex;
use std::rc::Rc;

/// A search prompt that is open in a pager.
#[derive(Debug)]
pub struct OpenSearch {
    /// The direction of the search, and the query.
    pub prompt: OpenPrompt,
    /// Whether the query was edited since the prompt was opened.
    pub edited: bool,
    /// The pattern of the query, where the page shows the match that it leads to.
    pub preview: Option<Rc<Regex>>,
}

// Hand-written: a derived drop would stand again in the proof of each function that lets one go.
impl Drop for OpenSearch {
    fn drop(self) {
        let OpenSearch {
            prompt: _,
            edited: _,
            preview: _,
        } = self;
    }
}

/// What becomes of the search prompt of a pager.
#[derive(Drop)]
pub enum SearchChange {
    /// It stays open as it is, or closed.
    Stays,
    /// The cursor of the one that is open moves, as this edit says, which removes and inserts nothing.
    Moves(QueryEdit),
    /// This one is open. It stands in a box, since it is large and most changes have none.
    Is(Box<OpenSearch>),
    /// None is open.
    Closes,
}

impl SearchChange {
    // Puts the search prompt in its place.
    pub(crate) fn put(self, place: &mut Option<OpenSearch>)
        ensures { option_map seen_search place.new ≡ search_after self (option_map seen_search place.old) }
    {
        match self {
            SearchChange::Stays => {}
            SearchChange::Moves(edit) => {
                if let Some(search) = place {
                    search.prompt.move_by(edit);
                }
            }
            SearchChange::Is(search) => *place = Some(Box::into_inner(search)),
            SearchChange::Closes => *place = None,
        }
    }
}
