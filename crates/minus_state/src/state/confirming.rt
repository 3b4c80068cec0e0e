//! What Enter does at a search prompt: it closes, and its query is taken if it was edited.
ghost use Rattle.std.specs.Prelude.{◌≡◌, option_map, IfOk, IfErr};
ghost use Rattle.regex.specs.Strings.{regex_pattern};
ghost use Rattle.minus_state.specs.OpenSearches.{seen_search};
ghost use Rattle.minus_state.specs.QueryPatterns.{MayTakeOver};

use crate::change::{Change, Redraw};
use crate::search::open_search::OpenSearch;
use crate::state::PagerState;
use crate::state::query_patterns::built;
use minus_term::MinusError;
use regex::Regex;
use std::alloc::Global;
use std::rc::Rc;

// The message where a query that is taken has no pattern.
const NO_PATTERN: &str = "Invalid regular expression. Press Enter";

// The pattern of a query that is taken: the one whose matches the page shows, or, where it shows none, one that is
// built now; `None` where none is built.
fn query_taken(alloc: Global, search: &OpenSearch) -> Result<Option<Rc<Regex>>, MinusError>
    ensures found { IfOk result (λ f. MayTakeOver (seen_search search.now).preview (seen_search search.now).prompt
        (option_map (λ r. regex_pattern r.value) f)) }
    ensures memory { IfErr result (λ e. e ≡ MinusError.Memory) }
{
    match &search.preview {
        Some(shown) => Ok(Some(shown.clone()?)),
        None => built(alloc, search.prompt.query()),
    }
}

impl PagerState {
    ghost use Rattle.std.specs.Prelude.{true, Option};
    ghost use Rattle.regex.specs.Patterns.{Re};
    ghost use Rattle.minus_state.specs.Changes.{Leads};
    ghost use Rattle.minus_state.specs.Confirming.{entered};
    ghost use Rattle.minus_state.specs.QueryPatterns.{MayTake};
    ghost use Rattle.minus_state.specs.States.{control_of};

    // The state with its search prompt closed, and the query taken if it was edited.
    pub(crate) fn entered(&self, alloc: Global, search: &OpenSearch) -> Result<Change, MinusError>
        ensures next { IfOk result (λ c. (f : Option Re) × MayTake (seen_search search.now) f
            × Leads self.now c (entered (control_of self.now) search.now.edited f)) }
        ensures redraw { IfOk result (λ c. c.redraw ≡ Redraw.Closing) }
        ensures memory { IfErr result (λ e. e ≡ MinusError.Memory) }
        ensures taking { IfErr result (λ e. search.now.edited ≡ true) }
    {
        if !search.edited {
            return Ok(self.closed());
        }
        let Some(query) = query_taken(alloc, search)? else {
            return Ok(self.closed_with(String::from_str(alloc, NO_PATTERN)?));
        };
        Ok(self.taken(alloc, query)?)
    }
}
