//! When the left mark moves: not where lines are wrapped, and not beyond the longest line.
use crate::change::{Change, Redraw};
use crate::frame::Frame;
use crate::state::PagerState;

impl PagerState {
    ghost use Rattle.std.specs.Prelude.{◌≡◌, ◌+◌, nat_le};
    ghost use Rattle.minus_state.specs.RedrawExtent.{shift_redraw};
    ghost use Rattle.minus_state.specs.LeftMark.{width, may_shift, left_after};
    ghost use Rattle.minus_state.specs.States.{control_of, IsFormed};
    ghost use Rattle.minus_state.specs.View.{prefix_in};
    ghost use Rattle.minus_state.specs.Changes.{Leads};

    // The columns that stand before the text of each row.
    pub(crate) fn prefix(&self) -> usize
        ensures { result ≡ prefix_in self.now.screen.document }
    {
        Frame::of(self.screen.view(), self.left_mark).prefix()
    }

    // Whether the page does not go beyond the longest line at a left mark.
    fn is_within_lines(&self, left: usize) -> bool
        ensures { IsFormed self.now → result ≡ nat_le (left + self.now.cols) (width (control_of self.now)) }
    {
        let width = self.screen.get_max_line_length() as u128 + self.prefix() as u128;
        left as u128 + self.cols as u128 <= width
    }

    // Whether the left mark moves to a column.
    fn may_shift(&self, left: usize) -> bool
        ensures { IsFormed self.now → result ≡ may_shift (control_of self.now) left }
    {
        if self.line_wrapping() {
            return false;
        }
        left <= self.left_mark || self.is_within_lines(left)
    }

    /// The state with its left mark moved, where it moves.
    pub fn shifted(&self, left: usize) -> Change
        ensures next { Leads self.now result
            (record (control_of self.now) { left = left_after (control_of self.now) left }) }
        ensures redraw { IsFormed self.now → result.redraw ≡ shift_redraw (control_of self.now) left }
    {
        if !self.may_shift(left) {
            return self.redrawn(Redraw::Stays);
        }
        let mut change = self.redrawn(Redraw::Whole);
        change.left = left;
        change
    }
}
