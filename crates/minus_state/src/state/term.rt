//! The term that is searched for, and the rows that match it.
ghost use Rattle.std.specs.Prelude.{◌≡◌, option_map};
ghost use Rattle.regex.specs.Strings.{regex_pattern};
ghost use Rattle.minus_state.specs.States.{pattern_kept};

use crate::change::{Change, NextText, Redraw};
use crate::search::matches::Matches;
use crate::state::search_mark::search_mark_anew;
use crate::state::{PagerState, searching};
use minus_term::MinusError;
use minus_text::screen::searching::view_of;
use minus_text::{Findings, Patterns, Term};
use regex::Regex;
use std::alloc::{AllocError, Global};
use std::rc::Rc;

// The term that a state keeps: one of its own, or one that a search prompt has, whose matches the page showed.
#[derive(Debug, Drop)]
pub(crate) enum KeptTerm {
    Own(Regex),
    Shown(Rc<Regex>),
}

// Its pattern, if one is kept.
pub(crate) fn kept_pattern(term: &Option<KeptTerm>) -> Option<&Regex>
    ensures { option_map (λ t. regex_pattern t.now) result ≡ option_map pattern_kept term.now }
{
    match term {
        Some(KeptTerm::Own(pattern)) => Some(pattern),
        Some(KeptTerm::Shown(pattern)) => Some(&**pattern),
        None => None,
    }
}

// The pattern that is pointed at, if one is.
pub(crate) fn shared_pattern(pattern: &Option<Rc<Regex>>) -> Option<&Regex>
    ensures { option_map (λ p. regex_pattern p.now) result ≡ option_map (λ p. regex_pattern p.value) pattern.now }
{
    match pattern {
        Some(pattern) => Some(&**pattern),
        None => None,
    }
}

impl PagerState {
    ghost use Rattle.std.specs.Prelude.{Some, OnOk, OnErr, IfOk, IfErr};
    ghost use Rattle.minus_text.specs.Document.{rows_of};
    ghost use Rattle.minus_text.specs.Found.{AreFoundIn, jump_rows};
    ghost use Rattle.minus_text.specs.Finds.{finds};
    ghost use Rattle.minus_text.specs.FoundRows.{pattern_of};
    ghost use Rattle.minus_state.specs.Changes.{Leads};
    ghost use Rattle.minus_state.specs.Control.{matches_of, searched_for};
    ghost use Rattle.minus_state.specs.Confirming.{confirmed};
    ghost use Rattle.minus_state.specs.Matches.{numbers_of};
    ghost use Rattle.minus_state.specs.States.{control_of, term_of, IsFormed};

    /// The term that is searched for, if there is one.
    pub fn term(&self) -> Option<&Regex>
        ensures { option_map (λ t. regex_pattern t.now) result ≡ (control_of self.now).term }
    {
        kept_pattern(&self.term)
    }

    /// The rows that match the term, in which a match begins; none without a term.
    pub fn matches(&self) -> Matches<'_>
        ensures kept { numbers_of result ≡ jump_rows self.now.screen.found }
        ensures formed { IsFormed self.now → numbers_of result ≡ matches_of (control_of self.now) }
    {
        Matches {
            view: self.screen.view(),
        }
    }

    /// The place, counted from 0 among the rows that match, of the one that the prompt row reports.
    pub fn search_mark(&self) -> usize
        ensures { result ≡ (control_of self.now).search_mark }
    {
        self.search_mark
    }

    /// Lets the prompt row report the match at another place, counted from 0. The page stays where it is.
    pub fn set_search_mark(&mut self, search_mark: usize)
        ensures { self.new ≡ record self.old { search_mark = search_mark } }
    {
        self.search_mark = search_mark;
    }

    /// The fixed patterns, which an open search prompt is fed with.
    pub fn patterns(&self) -> &Patterns
        ensures { result.now ≡ self.now.patterns }
    {
        &self.patterns
    }

    // What rows are searched for.
    pub(crate) fn searching(&self) -> Option<Term<'_>>
        ensures { pattern_of result ≡ term_of self.now }
    {
        searching(&self.patterns, kept_pattern(&self.term))
    }

    /// What a pattern finds in the rows, or in the lines where these are searched. Nothing changes.
    ///
    /// # Errors
    ///
    /// [`AllocError`] where there is no memory for it.
    pub fn search(&self, alloc: Global, pattern: &Regex) -> Result<Findings, AllocError>
        ensures found { IfOk result (λ f. f
            ≡ finds (Some (regex_pattern pattern.now)) self.now.screen.document) }
        ensures stand { IfOk result (λ f. AreFoundIn 0 (rows_of self.now.screen.document) f) }
    {
        self.screen
            .search(alloc, searching(&self.patterns, Some(pattern)))
    }

    /// Searches for another term from now on, or for none: the rows are formed again, and the prompt row reports the
    /// first match at the mark or behind it. The mark stays where it is.
    ///
    /// # Errors
    ///
    /// The term comes back with [`MinusError::Memory`] where there is no memory for it, and nothing has changed.
    pub fn set_term(
        &mut self,
        alloc: Global,
        term: Option<Regex>,
    ) -> Result<(), (Option<Regex>, MinusError)>
        ensures control { OnOk result (control_of self.new
            ≡ searched_for (control_of self.old) (option_map regex_pattern term)) }
        ensures formed { OnOk result (IsFormed self.new) }
        ensures err { OnErr result (self.new ≡ self.old) }
        ensures back { IfErr result (λ e. (e.0 ≡ term) × (e.1 ≡ MinusError.Memory)) }
    {
        let layout = self.layout();
        let searched = searching(&self.patterns, term.as_ref());
        if let Err(cause) = self.screen.reform(alloc, layout, searched) {
            return Err((term, cause));
        }
        self.search_mark = search_mark_anew(self.screen.view(), self.upper_mark);
        self.term = term.map(KeptTerm::Own);
        self.tell_mode();
        Ok(())
    }

    // The state with a query's pattern as its term, as `confirmed` says.
    pub(crate) fn found_by(&self, alloc: Global, query: Rc<Regex>) -> Result<Change, AllocError>
        ensures next { IfOk result (λ c. Leads self.now c
            (confirmed (control_of self.now) (regex_pattern query.value))) }
        ensures redraw { IfOk result (λ c. c.redraw ≡ Redraw.Whole) }
    {
        let findings = self.search(alloc, &query)?;
        let view = view_of(&self.screen, &findings);
        let search_mark = search_mark_anew(view, self.upper_mark);
        let mark = view.match_row(search_mark).unwrap_or(self.upper_mark);
        let mut change = self.redrawn(Redraw::Whole);
        change.mark = mark.min(self.top());
        change.search_mark = search_mark;
        change.text = NextText::Found(Some(query), findings);
        Ok(change)
    }

    /// The state with another term, or with none: the prompt row reports the first match at the mark or behind it. The
    /// mark stays where it is, and no row is formed again.
    ///
    /// # Errors
    ///
    /// [`AllocError`] where there is no memory for what is found.
    pub fn searched(&self, alloc: Global, term: Option<Rc<Regex>>) -> Result<Change, AllocError>
        ensures next { IfOk result (λ c. Leads self.now c
            (searched_for (control_of self.now) (option_map (λ t. regex_pattern t.value) term))) }
        ensures redraw { IfOk result (λ c. c.redraw ≡ Redraw.Whole) }
    {
        let searched = searching(&self.patterns, shared_pattern(&term));
        let findings = self.screen.search(alloc, searched)?;
        let search_mark = search_mark_anew(view_of(&self.screen, &findings), self.upper_mark);
        let mut change = self.redrawn(Redraw::Whole);
        change.search_mark = search_mark;
        change.text = NextText::Found(term, findings);
        Ok(change)
    }

    /// The state with a query's pattern as its term, with its mark at the match that the search goes to, or at the
    /// greatest mark (`top`) where that is less; where no row matches, the mark stays. No row is formed again.
    ///
    /// # Errors
    ///
    /// [`AllocError`] where there is no memory for what is found.
    pub fn confirmed(&self, alloc: Global, query: Regex) -> Result<Change, AllocError>
        ensures next { IfOk result (λ c. Leads self.now c
            (confirmed (control_of self.now) (regex_pattern query))) }
        ensures redraw { IfOk result (λ c. c.redraw ≡ Redraw.Whole) }
    {
        let query = Rc::new(alloc, query)?;
        self.found_by(alloc, query)
    }
}
