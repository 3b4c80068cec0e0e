//! What a key does to a state whose search prompt is open, formed beside it.
ghost use Rattle.std.specs.Prelude.{◌≡◌, length, nat_lt, chars};
ghost use Rattle.std.specs.Str.{encode_utf8_all};

use crate::change::{Change, Redraw};
use crate::search::condition::ConditionCall;
use crate::search::keys::{QueryEdit, edit_of};
use crate::search::open_prompt::OpenPrompt;
use crate::search::open_search::OpenSearch;
use crate::search::opts::search_opts_after;
use crate::search::query::Fed;
use crate::state::PagerState;
use crate::state::query_patterns::pattern_of;
use minus_term::{Event, MinusError};
use regex::Regex;
use std::alloc::{AllocError, Global};

// As many lines as a text may have for the page to show where a query leads.
const MOST_LINES: usize = 5_000;

// Whether a query has more than one byte.
fn is_long(query: &str) -> bool
    ensures { result ≡ nat_lt 1 (length (encode_utf8_all (chars query.now))) }
{
    query.len() > 1
}

impl PagerState {
    ghost use Rattle.std.specs.Prelude.{true, None, Some, option_map, IfOk, IfErr};
    ghost use Rattle.regex.specs.Strings.{regex_pattern};
    ghost use Rattle.minus_term.specs.Refusals.{refusal_of};
    ghost use Rattle.minus_state.specs.Changes.{Leads};
    ghost use Rattle.minus_state.specs.Conditions.{MayShow, MayPreview};
    ghost use Rattle.minus_state.specs.PromptKeys.{keyed, keyed_redraw, redraw_at};
    ghost use Rattle.minus_state.specs.PromptKeys.{IsUnkeyed, IsUnkeyedAt, MayLead};
    ghost use Rattle.minus_state.specs.OpenPrompts.{fed};
    ghost use Rattle.minus_state.specs.OpenSearches.{seen_search};
    ghost use Rattle.minus_state.specs.QueryEditor.{moves, takes_memory};
    ghost use Rattle.minus_state.specs.QueryKeys.{edit_of};
    ghost use Rattle.minus_state.specs.QueryPatterns.{shows_by_default};
    ghost use Rattle.minus_state.specs.States.{control_of};

    // Whether the page is to show where a query leads.
    fn shows_by_default(&self, prompt: &OpenPrompt) -> bool
        ensures { result ≡ shows_by_default (control_of self.now) prompt.now }
    {
        is_long(prompt.query()) && self.screen.line_count() <= MOST_LINES
    }

    // Whether the page is to show where a query leads that an event has edited: by the condition that is kept, or by
    // default.
    fn is_to_show<C: ConditionCall>(
        &self,
        alloc: Global,
        condition: Option<&C>,
        before: &OpenPrompt,
        prompt: &OpenPrompt,
        event: &Event,
    ) -> Result<bool, AllocError>
        requires { prompt.now ≡ fed before.now (edit_of event.now) }
        ensures { IfOk result (MayShow C.judges (option_map (λ q. q.now) condition.entry) self.now
            before.now event.now) }
    {
        match condition {
            Some(condition) => {
                let opts = search_opts_after(alloc, self, before, prompt, event)?;
                Ok(condition.ask(&opts))
            }
            None => Ok(self.shows_by_default(prompt)),
        }
    }

    // The pattern of a query that an event has edited, where the page is to show where it leads.
    fn found_for<C: ConditionCall>(
        &self,
        alloc: Global,
        condition: Option<&C>,
        before: &OpenPrompt,
        prompt: &OpenPrompt,
        event: &Event,
    ) -> Result<Option<Regex>, MinusError>
        requires { prompt.now ≡ fed before.now (edit_of event.now) }
        ensures found { IfOk result (λ f. MayPreview C.judges (option_map (λ q. q.now) condition.entry) self.now
            before.now event.now (option_map regex_pattern f)) }
        ensures memory { IfErr result (λ e. e ≡ MinusError.Memory) }
    {
        let Some(pattern) = pattern_of(alloc, prompt.query())? else {
            return Ok(None);
        };
        if !self.is_to_show(alloc, condition, before, prompt, event)? {
            return Ok(None);
        }
        Ok(Some(pattern))
    }

    // The state after an event that removes a character of the query of its open search prompt or inserts one.
    fn edited_by<C: ConditionCall>(
        &self,
        alloc: Global,
        condition: Option<&C>,
        search: &OpenSearch,
        event: &Event,
    ) -> Result<Change, MinusError>
        requires { takes_memory (edit_of event.now) ≡ true }
        ensures next { IfOk result (λ c. MayLead C.judges (option_map (λ q. q.now) condition.entry) self.now event.now
            c (Some (seen_search search.now))) }
        ensures redraw { IfOk result (λ c. c.redraw ≡ keyed_redraw (seen_search search.now) (edit_of event.now)) }
        ensures refused { IfErr result (λ e. IsUnkeyed (refusal_of e) (seen_search search.now) (edit_of event.now)) }
    {
        let mut prompt = search.prompt.copied(alloc)?;
        match prompt.feed(alloc, &self.patterns, event)? {
            Fed::Edited => {
                let found = self.found_for(alloc, condition, &search.prompt, &prompt, event)?;
                Ok(self.edited(alloc, prompt, found)?)
            }
            _ => Ok(self.redrawn(Redraw::Stays)),
        }
    }

    // The state after an edit that moves the cursor of its search prompt, which is this one, or leaves it.
    fn moved_by(&self, search: &OpenSearch, edit: QueryEdit) -> Change
        requires own { (control_of self.now).search ≡ Some (seen_search search.now) }
        requires moves { moves edit ≡ true }
        ensures next { Leads self.now result (keyed (control_of self.now) (seen_search search.now) edit None) }
        ensures redraw { result.redraw ≡ keyed_redraw (seen_search search.now) edit }
    {
        if search.prompt.cursor_after(edit) == search.prompt.cursor() {
            return self.redrawn(Redraw::Stays);
        }
        self.cursor_moved(edit)
    }

    // The state after an event that its search prompt is fed, which is this one.
    fn fed<C: ConditionCall>(
        &self,
        alloc: Global,
        condition: Option<&C>,
        search: &OpenSearch,
        event: &Event,
    ) -> Result<Change, MinusError>
        requires { (control_of self.now).search ≡ Some (seen_search search.now) }
        ensures next { IfOk result (λ c. MayLead C.judges (option_map (λ q. q.now) condition.entry) self.now event.now
            c (Some (seen_search search.now))) }
        ensures redraw { IfOk result (λ c. c.redraw ≡ keyed_redraw (seen_search search.now) (edit_of event.now)) }
        ensures refused { IfErr result (λ e. IsUnkeyed (refusal_of e) (seen_search search.now) (edit_of event.now)) }
    {
        match edit_of(event) {
            QueryEdit::Cancels => Ok(self.closed()),
            QueryEdit::Confirms => self.entered(alloc, search),
            QueryEdit::RemovesBefore | QueryEdit::RemovesUnder | QueryEdit::Inserts(_) => {
                self.edited_by(alloc, condition, search, event)
            }
            edit => Ok(self.moved_by(search, edit)),
        }
    }

    /// The state after an event that its open search prompt is fed: the query edited or its cursor moved, or the prompt
    /// closed, with the query taken or not; as it is, where none is open. Where the query was edited and a pattern was
    /// built of it, the condition is asked: without one the answer is yes where the query has more than one byte and
    /// the text has at most 5,000 lines. Where it says yes, the page shows the match that the query leads to, if some
    /// row matches. A query that is taken without a pattern leaves a message.
    ///
    /// # Errors
    ///
    /// [`MinusError::QueryFull`] where a character is typed to a query of 65,534 characters, and [`MinusError::Memory`]
    /// where there is no memory for an edit or for the query that is taken: an event that moves the cursor, or closes
    /// the prompt and leaves its query, is never refused.
    pub fn keyed<C: ConditionCall>(
        &self,
        alloc: Global,
        condition: Option<&C>,
        event: &Event,
    ) -> Result<Change, MinusError>
        ensures next { IfOk result (λ c. MayLead C.judges (option_map (λ q. q.now) condition.entry) self.now event.now
            c (control_of self.now).search) }
        ensures redraw { IfOk result (λ c. c.redraw ≡ redraw_at (control_of self.now).search (edit_of event.now)) }
        ensures refused { IfErr result (λ e.
            IsUnkeyedAt (refusal_of e) (control_of self.now).search (edit_of event.now)) }
    {
        match self.open_search() {
            Some(search) => self.fed(alloc, condition, search, event),
            None => Ok(self.redrawn(Redraw::Stays)),
        }
    }
}
