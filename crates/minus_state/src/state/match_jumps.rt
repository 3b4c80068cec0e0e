//! Jumps among the rows in which matches begin, each counted once, formed beside a state.
ghost use Rattle.std.specs.Prelude.{◌≡◌};
ghost use Rattle.minus_state.specs.MatchJumps.{row_above};

use crate::change::{Change, Redraw};
use crate::state::PagerState;

// A row, if there is one and it stands above a mark.
fn row_above(mark: usize, row: Option<usize>) -> Option<usize>
    ensures { result ≡ row_above mark row }
{
    match row {
        Some(row) if row < mark => Some(row),
        _ => None,
    }
}

impl PagerState {
    ghost use Rattle.minus_state.specs.Changes.{Leads};
    ghost use Rattle.minus_state.specs.MatchJumps.{next_match, prev_match, next_match_row, prev_match_row};
    ghost use Rattle.minus_state.specs.MatchJumps.{telling_next, telling_prev};
    ghost use Rattle.minus_state.specs.States.{control_of, IsFormed};

    // The state with its prompt row reporting the match at a place.
    fn telling(&self, search_mark: usize) -> Change
        ensures next { Leads self.now result (record (control_of self.now) { search_mark = search_mark }) }
        ensures redraw { result.redraw ≡ Redraw.Moved }
    {
        let mut change = self.redrawn(Redraw::Moved);
        change.search_mark = search_mark;
        change
    }

    // The place of the match that a jump on goes to.
    fn next_match(&self, jump: usize) -> usize
        ensures { IsFormed self.now → result ≡ next_match (control_of self.now) jump }
    {
        let place = self.matches().nth_match(self.upper_mark, jump);
        place.unwrap_or(self.search_mark)
    }

    // The place of the match that a jump back goes to.
    fn prev_match(&self, jump: usize) -> usize
        ensures { IsFormed self.now → result ≡ prev_match (control_of self.now) jump }
    {
        if self.matches().is_empty() {
            return self.search_mark;
        }
        self.search_mark.saturating_sub(jump)
    }

    /// The row, counted from 0, of the match that a jump on by this number of matches goes to, if some row matches. It
    /// takes no memory.
    pub fn next_match_row(&self, jump: usize) -> Option<usize>
        ensures { IsFormed self.now → result ≡ next_match_row (control_of self.now) jump }
    {
        self.matches().row(self.next_match(jump))
    }

    /// The row, counted from 0, of the match that a jump back by this number of matches goes to, if there is one and it
    /// stands above the mark. It takes no memory.
    pub fn prev_match_row(&self, jump: usize) -> Option<usize>
        ensures { IsFormed self.now → result ≡ prev_match_row (control_of self.now) jump }
    {
        row_above(self.upper_mark, self.matches().row(self.prev_match(jump)))
    }

    /// The state with its prompt row reporting the match that a jump on by this number of matches goes to, counted
    /// from the mark, past the last match on at the first. A jump by 0 goes to a match that is right at the mark. Where
    /// no row matches, nothing changes. The mark stays: [`PagerState::next_match_row`] is where it goes. It takes no
    /// memory, and halves the rows that match.
    pub fn telling_next(&self, jump: usize) -> Change
        ensures next { Leads self.now result (telling_next (control_of self.now) jump) }
        ensures redraw { result.redraw ≡ Redraw.Moved }
    {
        self.telling(self.next_match(jump))
    }

    /// The state with its prompt row reporting the match that a jump back by this number of matches goes to, counted
    /// from the one that it reports, not before the first. Where no row matches, nothing changes. The mark stays:
    /// [`PagerState::prev_match_row`] is where it goes. It takes no memory.
    pub fn telling_prev(&self, jump: usize) -> Change
        ensures next { Leads self.now result (telling_prev (control_of self.now) jump) }
        ensures redraw { result.redraw ≡ Redraw.Moved }
    {
        self.telling(self.prev_match(jump))
    }
}
