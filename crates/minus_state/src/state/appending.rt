//! What an append leaves, formed beside the state.
ghost use Rattle.std.specs.Prelude.{◌≡◌, if◌then◌else◌};

use crate::change::{Change, NextText, Redraw, boxed};
use crate::state::PagerState;
use minus_term::MinusError;
use minus_text::prefix_columns;
use std::alloc::Global;

// How an append asks to be drawn: all is, where no row stays as it was.
fn append_redraw(keeps_rows: bool) -> Redraw
    ensures { result ≡ (if keeps_rows then Redraw.Appended else Redraw.Whole) }
{
    if keeps_rows {
        return Redraw::Appended;
    }
    Redraw::Whole
}

impl PagerState {
    ghost use Rattle.std.specs.Prelude.{◌==◌, string_bytes, IfOk, IfErr};
    ghost use Rattle.minus_state.specs.RedrawExtent.{append_redraw};
    ghost use Rattle.minus_state.specs.Appending.{first_changed, lengthened};
    ghost use Rattle.minus_state.specs.States.{control_of, IsFormed};
    ghost use Rattle.minus_text.specs.Document.{margin_in};
    ghost use Rattle.minus_state.specs.NextTexts.{next_document, Belongs};
    ghost use Rattle.minus_state.specs.Changes.{Leads};

    /// The first row that an append may change, counted from 0: the first one of the line that no newline ends, or the
    /// first new one.
    pub fn first_changed(&self) -> usize
        ensures { IsFormed self.now → result ≡ first_changed (control_of self.now) }
    {
        self.screen
            .formatted_lines_count()
            .saturating_sub(self.screen.unterminated())
    }

    // Whether the rows that stay are as they were: the numbers of lines take no more columns then.
    fn keeps_rows(&self, next: &NextText) -> bool
        requires { Belongs self.now.screen.document next.now }
        ensures { result ≡ (margin_in
            (next_document self.now.screen.document next.now) == margin_in self.now.screen.document) }
    {
        let view = next.view(&self.screen);
        let after = prefix_columns(view.layout().numbers.is_on(), view.line_count());
        after == self.prefix()
    }

    // The state with a text added to its text. Its mark stays.
    pub(crate) fn appended(&self, alloc: Global, text: String) -> Result<Change, MinusError>
        ensures next { IfOk result (λ c. Leads self.now c
            (lengthened (control_of self.now) (string_bytes text))) }
        ensures redraw { IfOk result (λ c. IsFormed self.now →
            c.redraw ≡ append_redraw (control_of self.now) (string_bytes text)) }
        ensures memory { IfErr result (λ e. e ≡ MinusError.Memory) }
    {
        let term = self.searching();
        let pending = self
            .screen
            .prepare_push(alloc, &text, self.line_numbers, self.cols, term)?;
        let formed = boxed(alloc, pending)?;
        let next = NextText::Pushed(text, formed);
        let keeps_rows = self.keeps_rows(&next);
        let mut change = self.redrawn(append_redraw(keeps_rows));
        change.search_mark = self.search_mark_behind(next.view(&self.screen), keeps_rows);
        change.text = next;
        Ok(change)
    }
}
