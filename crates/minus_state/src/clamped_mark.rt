//! The clamp of the mark: it is at most the greatest one, at which the last page of the text is full.
use crate::change::{Change, NextText, Redraw};
use crate::state::PagerState;
use minus_term::top_of;
use minus_text::Screen;

impl Change {
    ghost use Rattle.std.specs.Prelude.{◌≡◌, length};
    ghost use Rattle.minus_text.specs.Document.{rows_of};
    ghost use Rattle.minus_state.specs.ClampedMark.{clamped_beside};
    ghost use Rattle.minus_term.specs.Top.{top_of};
    ghost use Rattle.minus_state.specs.NextTexts.{next_document, Belongs};

    /// The greatest mark that there will be, where it is formed beside this screen: the row, counted from 0, at which
    /// the last page of the text is full. It takes no memory.
    pub fn top(&self, screen: &Screen) -> usize
        ensures { Belongs screen.now.document self.now.text → result
            ≡ top_of (length (rows_of (next_document screen.now.document self.now.text))) self.now.rows }
    {
        top_of(self.text.row_count(screen), self.rows)
    }

    /// Clamps the mark: it is at most the greatest one (`top`).
    pub fn clamp(&mut self, screen: &Screen)
        ensures belongs { Belongs screen.now.document self.old.text → self.new
            ≡ clamped_beside screen.now.document self.old }
        ensures rest { self.new ≡ record self.old { mark = self.new.mark } }
    {
        self.mark = self.mark.min(self.top(screen));
    }
}

impl PagerState {
    ghost use Rattle.std.specs.Prelude.{◌≡◌, ◌^◌, ◌<◌, length};
    ghost use Rattle.minus_state.specs.Control.{text_rows};
    ghost use Rattle.minus_state.specs.ClampedMark.{top, shows_end, moved_to};
    ghost use Rattle.minus_state.specs.States.{control_of, IsFormed};
    ghost use Rattle.minus_state.specs.Changes.{Leads};

    /// The greatest mark, where the last page begins, a row counted from 0: the rows of text less those that a page
    /// has, or 0 where one page has them all.
    pub fn top(&self) -> usize
        ensures value { IsFormed self.now → result ≡ top (control_of self.now) }
        ensures few { result < 2 ^ 63 }
    {
        top_of(self.screen.formatted_lines_count(), self.rows)
    }

    /// Whether the page shows the end of the text, which has more rows than the terminal.
    pub fn shows_end(&self) -> bool
        ensures { IsFormed self.now → result ≡ shows_end (length (text_rows (control_of self.now))) self.now.rows
            self.now.upper_mark }
    {
        self.upper_mark == self.top() && self.screen.formatted_lines_count() > self.rows
    }

    /// The state with its mark moved to a row, counted from 0, or to the greatest mark (`top`) where that is less.
    pub fn moved_to(&self, mark: usize) -> Change
        ensures next { Leads self.now result (moved_to (control_of self.now) mark) }
        ensures text { result.text ≡ NextText.Same }
        ensures redraw { result.redraw ≡ Redraw.Moved }
    {
        self.at_mark(mark.min(self.top()), Redraw::Moved)
    }
}
