//! Which part of a text the page shows, and what a place on the page selects.
ghost use Rattle.std.specs.Prelude.{◌≡◌};
ghost use Rattle.minus_state.specs.View.{selected_at};

use crate::frame::Frame;
use crate::selection::Selection;
use minus_term::page_len;
use minus_text::Screen;

/// Which part of a text the page shows.
#[derive(Clone, Copy)]
pub struct View {
    /// The first row of text on the page, counted from 0.
    pub upper_mark: usize,
    /// The columns of the text that are cut off at the left where lines are not wrapped.
    pub left_mark: usize,
    /// The rows of the terminal, the prompt's among them.
    pub rows: usize,
}

/// The end of a selection at a column and a row of the page, both counted from 0. `None` where there is no
/// row of text, or where the row is that of the prompt or below. A row below the text stands for the last
/// row, and a column in the number of a line for the first column behind it. Where lines are not wrapped, the
/// left mark is added to the column. Sums go no further than the greatest number. It takes no memory.
pub fn selection_from_coordinates(screen: &Screen, view: View, x: u16, y: u16) -> Option<Selection>
    ensures { result ≡ selected_at screen.now.document view x y }
{
    let count = screen.formatted_lines_count();
    let row = usize::from(y);
    if count == 0 || row >= page_len(view.rows) {
        return None;
    }
    let frame = Frame::of(screen.view(), view.left_mark);
    let column = usize::from(x).saturating_sub(frame.prefix());
    Some(Selection {
        absolute_row: view.upper_mark.saturating_add(row).min(count - 1),
        col: column.saturating_add(frame.cut()),
    })
}
