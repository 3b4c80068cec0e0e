//! The text that is copied of a selection.
ghost use Rattle.std.specs.Prelude.{◌≡◌, option_map, string_bytes, IfOk};
ghost use Rattle.std.specs.Str.{IsCharBoundary};
ghost use Rattle.minus_state.specs.Selection.{ends_in_order};
ghost use Rattle.minus_state.specs.Copied.{side_in_row, place_in_text, copied};

use crate::selection::{Selection, SelectionEnds};
use crate::visible::{place_after_visible, place_of_visible};
use minus_text::{Screen, join_lines, last_line_end};
use std::alloc::{AllocError, Global};

// A side of a character.
#[derive(Clone, Copy)]
enum Side {
    Before,
    Behind,
}

impl Side {
    // Where it is at the visible character at a column of a row, in the row's bytes.
    fn in_row(self, row: &str, column: usize) -> usize
        ensures { result ≡ side_in_row self column row.now }
    {
        match self {
            Side::Before => place_of_visible(row, column),
            Side::Behind => place_after_visible(row, column),
        }
    }
}

// A side of the character at an end of a selection, as a place in the bytes of the text.
fn place_in_text(screen: &Screen, side: Side, end: Selection) -> usize
    ensures value { result ≡ place_in_text screen.now.document side end }
    ensures boundary { IsCharBoundary screen.now.document.text result }
{
    let text = screen.orig_text();
    let row = end.absolute_row;
    match (screen.row_place(row), screen.row_text(row)) {
        (Some(place), Some(own)) => place.start + side.in_row(own, end.col),
        _ => last_line_end(text),
    }
}

/// The text that is copied of a selection, from before the visible character at the first end's column of
/// its row up to behind the one at the last end's: what stands there in the lines, with its escape sequences
/// and with the spaces that no row shows, and a newline between two lines. A column past the last visible
/// character of its row means the row's end, and a row past the last one the end of the last line. `None`
/// where an end is missing or there is no line. Fails only if memory runs out.
pub fn extract_selection(
    alloc: Global,
    screen: &Screen,
    ends: SelectionEnds,
) -> Result<Option<String>, AllocError>
    ensures { IfOk result (λ text. option_map string_bytes text ≡ copied screen.now.document (ends_in_order ends)) }
{
    let Some((first, last)) = ends.in_order() else {
        return Ok(None);
    };
    if screen.line_count() == 0 {
        return Ok(None);
    }
    let from = place_in_text(screen, Side::Before, first);
    let to = place_in_text(screen, Side::Behind, last);
    let text = join_lines(alloc, &screen.orig_text()[from..to.max(from)])?;
    Ok(Some(text))
}
