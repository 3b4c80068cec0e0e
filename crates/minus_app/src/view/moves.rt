//! Where a move of the page leads.
ghost use Rattle.std.specs.Prelude.{◌≡◌};
ghost use Rattle.minus_app.specs.Lines.{row_of_line};
ghost use Rattle.minus_app.specs.Moves.{last_count, line_at, row_of_move};

use crate::view_action::ViewAction;
use minus::{PagerState, page_len};

/// The first row of a line, counted from 0, or else a row behind all.
pub fn row_of_line(state: &PagerState, line: usize) -> usize
    ensures { result ≡ row_of_line state.now line }
{
    state.line_first_row(line).unwrap_or(usize::MAX)
}

/// The line at this many per cent of the text, counted from 0.
pub fn line_at(lines: usize, part: usize) -> usize
    ensures { result ≡ line_at lines part }
{
    (lines as u128 * part.min(100) as u128 / 100) as usize
}

/// Keeps the number that was typed before a key, if one was, for the next such key too, and answers what holds.
pub fn remember(kept: &mut Option<usize>, count: Option<usize>) -> Option<usize>
    ensures kept { kept.new ≡ last_count kept.old count }
    ensures is { result ≡ last_count kept.old count }
{
    if count.is_some() {
        *kept = count;
    }
    *kept
}

/// The row that a move by rows leads to, with what was counted before its key. The session clamps it to the last page.
pub fn row_of_move(state: &PagerState, action: ViewAction, count: Option<usize>) -> usize
    ensures { result ≡ row_of_move state.now action count }
{
    let (mark, page, half) = (state.upper_mark, page_len(state.rows), state.rows / 2);
    match action {
        ViewAction::PageDown => mark.saturating_add(count.unwrap_or(page)),
        ViewAction::PageUp => mark.saturating_sub(count.unwrap_or(page)),
        ViewAction::HalfPageDown => mark.saturating_add(count.unwrap_or(half)),
        ViewAction::HalfPageUp => mark.saturating_sub(count.unwrap_or(half)),
        _ => mark,
    }
}
