//! What becomes of a state as a search prompt is opened, edited and closed, formed beside it.
use crate::change::{Change, MessageChange, Redraw, boxed};
use crate::search::SearchMode;
use crate::search::keys::QueryEdit;
use crate::search::open_prompt::OpenPrompt;
use crate::search::open_search::{OpenSearch, SearchChange};
use crate::state::PagerState;
use minus_term::MinusError;
use minus_text::Term;
use regex::Regex;
use std::alloc::{AllocError, Global};
use std::rc::Rc;

impl PagerState {
    ghost use Rattle.std.specs.Prelude.{◌≡◌, Some, option_map, string_bytes, IfOk, IfErr};
    ghost use Rattle.regex.specs.Strings.{regex_pattern};
    ghost use Rattle.minus_state.specs.declared.change.NextText.TheVariants.{Same};
    ghost use Rattle.minus_state.specs.Changes.{Leads, as_is};
    ghost use Rattle.minus_state.specs.Confirming.{confirmed};
    ghost use Rattle.minus_state.specs.Control.{with_message};
    ghost use Rattle.minus_state.specs.OpenSearches.{seen_search};
    ghost use Rattle.minus_state.specs.Prompting.{opened, opening_redraw, closed, cursor_moved, edited, previewed};
    ghost use Rattle.minus_state.specs.States.{control_of, IsFormed};

    /// The search prompt that is open, if one is.
    pub fn open_search(&self) -> Option<&OpenSearch>
        ensures { option_map (λ o. seen_search o.now) result ≡ (control_of self.now).search }
    {
        self.open_search.as_ref()
    }

    /// The state with a search prompt that is open for a direction, its query empty, and with the first match reported;
    /// as it is, where the direction is [`SearchMode::Unknown`].
    ///
    /// # Errors
    ///
    /// [`MinusError::Memory`] where there is no memory for the prompt.
    pub fn opened(&self, alloc: Global, mode: SearchMode) -> Result<Change, MinusError>
        ensures next { IfOk result (λ c. Leads self.now c (opened (control_of self.now) mode)) }
        ensures redraw { IfOk result (λ c. c.redraw ≡ opening_redraw mode) }
        ensures text { IfOk result (λ c. c.text ≡ Same) }
        ensures memory { IfErr result (λ e. e ≡ MinusError.Memory) }
    {
        let Some(search_char) = mode.search_char() else {
            return Ok(self.redrawn(Redraw::Stays));
        };
        let prompt = OpenPrompt::of_mode(alloc, &self.patterns, mode, search_char)?;
        let search = OpenSearch {
            prompt,
            edited: false,
            preview: None,
        };
        let search = boxed(alloc, search)?;
        let mut change = self.redrawn(Redraw::Opening);
        change.search_mark = 0;
        change.mode = mode;
        change.search = SearchChange::Is(search);
        Ok(change)
    }

    /// The state with its search prompt closed. Nothing more changes.
    pub fn closed(&self) -> Change
        ensures is { result ≡ record (as_is self.now Redraw.Closing) { search = SearchChange.Closes } }
        ensures next { Leads self.now result (closed (control_of self.now)) }
        ensures redraw { result.redraw ≡ Redraw.Closing }
    {
        let mut change = self.redrawn(Redraw::Closing);
        change.search = SearchChange::Closes;
        change
    }

    /// The state with its search prompt closed and a message, which has no newline.
    pub fn closed_with(&self, message: String) -> Change
        ensures next { Leads self.now result (closed (with_message (control_of self.now) (string_bytes message))) }
        ensures redraw { result.redraw ≡ Redraw.Closing }
    {
        let mut change = self.closed();
        change.message = MessageChange::Says(message);
        change
    }

    /// The state with its search prompt closed and a query's pattern taken, as [`PagerState::confirmed`] says.
    ///
    /// # Errors
    ///
    /// [`AllocError`] where there is no memory for what is found.
    pub fn taken(&self, alloc: Global, query: Rc<Regex>) -> Result<Change, AllocError>
        ensures next { IfOk result (λ c. Leads self.now c
            (closed (confirmed (control_of self.now) (regex_pattern query.value)))) }
        ensures redraw { IfOk result (λ c. c.redraw ≡ Redraw.Closing) }
    {
        let mut change = self.found_by(alloc, query)?;
        change.search = SearchChange::Closes;
        change.redraw = Redraw::Closing;
        Ok(change)
    }

    /// The state with the cursor of its search prompt moved, as an edit says that removes and inserts nothing.
    pub fn cursor_moved(&self, edit: QueryEdit) -> Change
        ensures next { Leads self.now result (cursor_moved (control_of self.now) edit) }
        ensures redraw { result.redraw ≡ Redraw.Cursor }
    {
        let mut change = self.redrawn(Redraw::Cursor);
        change.search = SearchChange::Moves(edit);
        change
    }

    // A pattern, where some row matches it.
    fn previewed(
        &self,
        alloc: Global,
        found: Option<Regex>,
    ) -> Result<Option<Rc<Regex>>, AllocError>
        ensures { IfOk result (λ b. IsFormed self.now → option_map (λ r. regex_pattern r.value) b
            ≡ previewed (control_of self.now) (option_map regex_pattern found)) }
    {
        let Some(query) = found else {
            return Ok(None);
        };
        let term = Term {
            patterns: &self.patterns,
            pattern: &query,
        };
        let first = self.screen.first_match(alloc, term, self.upper_mark)?;
        match first {
            Some(_) => {
                let shown = Rc::new(alloc, query)?;
                Ok(Some(shown))
            }
            None => Ok(None),
        }
    }

    /// The state with this in the place of its search prompt: its query was edited, and a pattern was found for it, or
    /// none. The page shows where that pattern leads, where some row matches it.
    ///
    /// # Errors
    ///
    /// [`AllocError`] where there is no memory for the search.
    pub fn edited(
        &self,
        alloc: Global,
        prompt: OpenPrompt,
        found: Option<Regex>,
    ) -> Result<Change, AllocError>
        ensures next { IfOk result (λ c. Leads self.now c
            (edited (control_of self.now) prompt (option_map regex_pattern found))) }
        ensures redraw { IfOk result (λ c. c.redraw ≡ Redraw.Edit) }
    {
        let preview = self.previewed(alloc, found)?;
        let search = OpenSearch {
            prompt,
            edited: true,
            preview,
        };
        let search = boxed(alloc, search)?;
        let mut change = self.redrawn(Redraw::Edit);
        change.search = SearchChange::Is(search);
        Ok(change)
    }
}
