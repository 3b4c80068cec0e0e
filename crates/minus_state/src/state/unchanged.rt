//! The state as it is, to be drawn, formed beside it.
use crate::change::{Change, MessageChange, NextText, Redraw};
use crate::search::open_search::SearchChange;
use crate::state::PagerState;
use crate::state::help::HelpChange;

impl PagerState {
    ghost use Rattle.std.specs.Prelude.{◌≡◌};
    ghost use Rattle.minus_state.specs.States.{control_of};
    ghost use Rattle.minus_state.specs.Changes.{Leads, as_is};

    // The state as it is, at a mark.
    pub(crate) fn at_mark(&self, mark: usize, redraw: Redraw) -> Change
        ensures { result ≡ record (as_is self.now redraw) { mark = mark } }
    {
        Change {
            text: NextText::Same,
            mark,
            cols: self.cols,
            rows: self.rows,
            search_mark: self.search_mark,
            left: self.left_mark,
            ends: self.ends(),
            is_shown: self.prompt_shown,
            follow: self.follow,
            mode: self.search_state.search_mode,
            prefix: None,
            prompt: None,
            message: MessageChange::Stays,
            help: HelpChange::Stays,
            search: SearchChange::Stays,
            redraw,
        }
    }

    /// The state as it is, to be drawn so.
    pub fn redrawn(&self, redraw: Redraw) -> Change
        ensures is { result ≡ as_is self.now redraw }
        ensures next { Leads self.now result (control_of self.now) }
        ensures redraw { result.redraw ≡ redraw }
    {
        self.at_mark(self.upper_mark, redraw)
    }
}
