//! What is shown of rows.
ghost use Rattle.std.specs.Prelude.{◌≡◌, [], ◌++◌, map, option_map, string_bytes, IfOk, OnOk};
ghost use Rattle.minus_state.specs.ShownRow.{before_rows, ShownRowsFit, ShownRowsAreClosed, SelectionAddsMarkersAlone};
ghost use Rattle.minus_state.specs.Showing.{row_text, AreShownRows};

use crate::showing::{ShownRow, ShownRows};
use minus_text::Rows;
use std::alloc::{AllocError, Global};

// Puts the text of a row at the end, if there is one.
fn push_row(alloc: Global, rows: &mut Rows, row: Option<ShownRow<'_>>) -> Result<(), AllocError>
    ensures { OnOk result (map string_bytes rows.new.items
        ≡ map string_bytes rows.old.items ++ before_rows (option_map row_text row.entry) []) }
{
    match row {
        Some(row) => Ok(rows.push(row.into_row(alloc)?)?),
        None => Ok(()),
    }
}

/// The shown rows from `start` on up to but without `end`, counted from 0, as far as there are rows, with
/// what was found in them in reverse. Where lines are wrapped, a row is as it is stored; otherwise what its
/// text, the markers of its matches among it, shows of the columns from the left mark on, as many as its
/// number leaves, behind the number. The visible characters of it that are selected stand in reverse. Fails
/// only since memory runs out.
pub fn render_rows_for_display(
    alloc: Global,
    rendering: &ShownRows<'_>,
    start: usize,
    end: usize,
) -> Result<Rows, AllocError>
    ensures { IfOk result (λ rows. AreShownRows rendering.now start end (map string_bytes rows.items)) }
{
    let count = rendering.view.len();
    let mut rows = Vec::new(alloc);
    for i in start..end.min(count) {
        push_row(alloc, &mut rows, rendering.row(alloc, i)?)?;
    }
    Ok(rows)
}

/// Where lines are not wrapped, a row without a selection takes no more columns behind its number than are
/// left for its text.
pub fn shown_rows_fit()
    ensures { ShownRowsFit }
{}

/// Where styles are carried, a row without a selection leaves none open, whatever its text is.
pub fn shown_rows_are_closed()
    ensures { ShownRowsAreClosed }
{}

/// A shown row without the two markers of a selection is the row as it is shown without a selection, or it
/// has none.
pub fn selection_adds_markers_alone()
    ensures { SelectionAddsMarkersAlone }
{}
