//! What the text is read on for: a line, the end, a part of it, or a match.
ghost use Rattle.std.specs.Prelude.{◌≡◌};
ghost use Rattle.minus_app.specs.Goals.{row_of_goal};

use crate::view::moves::{line_at, row_of_line};
use minus::PagerState;

/// What the text is read on for.
#[derive(Clone, Copy, PartialEq, Eq)]
pub enum Goal {
    /// A line, counted from 0; the last page where the text has no such line.
    Line(usize),
    /// The last page of the whole text.
    End,
    /// The line at this many per cent of the whole text.
    Percent(usize),
    /// The match at this place among all, counted from 0; past the last one it goes on at the first.
    Match(usize),
}

/// The row that a page is to begin with for a goal; none where the text is to be read on for that, or the goal is a
/// match.
pub fn row_of_goal(state: &PagerState, goal: Goal, is_whole: bool) -> Option<usize>
    ensures { result ≡ row_of_goal state.now goal is_whole }
{
    match goal {
        Goal::Line(line) => match state.line_first_row(line) {
            None if is_whole => Some(usize::MAX),
            row => row,
        },
        Goal::End if is_whole => Some(usize::MAX),
        Goal::Percent(part) if is_whole => {
            let lines = state.screen.lines_to_row_map().len();
            Some(row_of_line(state, line_at(lines, part)))
        }
        Goal::End | Goal::Percent(_) | Goal::Match(_) => None,
    }
}
