//! Which match the prompt row reports after an append, and where rows are formed again.
ghost use Rattle.std.specs.Prelude.{◌≡◌};
ghost use Rattle.minus_text.specs.Views.{viewed};
ghost use Rattle.minus_state.specs.SearchMark.{first_match};

use crate::state::PagerState;
use minus_text::RowsView;

// The place of the match that the prompt row reports where rows were formed again or another term is searched for: the
// first one at a mark or behind it, or else the first one; 0 where no row matches.
pub(crate) fn search_mark_anew(view: RowsView<'_>, mark: usize) -> usize
    ensures { result ≡ first_match (viewed view.entry).found mark }
{
    view.nth_match(mark, 0).unwrap_or(0)
}

impl PagerState {
    ghost use Rattle.minus_state.specs.SearchMark.{search_mark_after};

    // Where an append leaves the search mark: at most at the last match, or, where all rows are formed again, as that
    // sets it.
    pub(crate) fn search_mark_behind(&self, view: RowsView<'_>, keeps_rows: bool) -> usize
        ensures { result ≡ search_mark_after keeps_rows (viewed view.entry).found self.now.upper_mark
            self.now.search_mark }
    {
        if keeps_rows {
            return self.search_mark.min(view.match_count().saturating_sub(1));
        }
        search_mark_anew(view, self.upper_mark)
    }
}
