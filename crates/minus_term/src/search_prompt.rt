//! The drawings of the search prompt, added to a buffer, and their laws. They go to its row as the one after this many
//! rows, since a terminal stops at the last.
ghost use Rattle.std.specs.Prelude.{◌≡◌, ◌++◌, OnOk};
ghost use Rattle.minus_term.specs.SearchPrompt.{opening_ops, cursor_ops};
ghost use Rattle.minus_term.specs.SearchPrompt.{OpeningShowsItsPage, OpeningPutsNone, CursorShowsItsPage};
ghost use Rattle.minus_term.specs.SearchPrompt.{EditShowsItsPage, EditPutsFew, ClosingShowsItsPage, ClosingPutsFew};
ghost use Rattle.minus_term.specs.Written.{written_all};

use crate::draw::{DrawOp, write_ops};
use std::alloc::{AllocError, Global};

/// Adds the bytes that open the search prompt to a buffer: the last of this many rows is cleared, the mark, which takes
/// one column, is put there, and the cursor is shown behind it, in column 1, counted from 0.
///
/// # Errors
///
/// [`AllocError`] where there is no memory for the bytes: those of the first of the operations were added.
pub fn write_search_opening(
    alloc: Global,
    out: &mut Vec<u8>,
    rows: u16,
    mark: &str,
) -> Result<(), AllocError>
    ensures { OnOk result (out.new.items ≡ out.old.items ++ written_all (opening_ops rows mark.now)) }
{
    write_ops(
        alloc,
        out,
        &[
            DrawOp::GoTo(0, rows),
            DrawOp::ClearRow,
            DrawOp::Put(mark),
            DrawOp::ShowCursor,
            DrawOp::GoTo(1, rows),
        ],
    )
}

/// Adds the bytes that move the cursor of the search prompt to a buffer: to a column, counted from 0, of the last of
/// this many rows.
///
/// # Errors
///
/// [`AllocError`] where there is no memory for the bytes.
pub fn write_search_cursor(
    alloc: Global,
    out: &mut Vec<u8>,
    rows: u16,
    cursor: u16,
) -> Result<(), AllocError>
    ensures { OnOk result (out.new.items ≡ out.old.items ++ written_all (cursor_ops rows cursor)) }
{
    write_ops(alloc, out, &[DrawOp::GoTo(cursor, rows)])
}

/// A law: an opening leads from a page, whatever prompt stood there, to the page with the mark and the cursor behind
/// it.
pub fn opening_shows_its_page()
    ensures { OpeningShowsItsPage }
{}

/// A law: an opening puts no text but the mark, which is not counted, since it is put last and into the last row.
pub fn opening_puts_none()
    ensures { OpeningPutsNone }
{}

/// A law: a moved cursor leads from the page with the cursor at one column to the page with it at another.
pub fn cursor_shows_its_page()
    ensures { CursorShowsItsPage }
{}

/// A law: an edit shows its page and the cursor, whatever the screen showed before.
pub fn edit_shows_its_page()
    ensures { EditShowsItsPage }
{}

/// A law: a closing shows its page, whatever the screen showed before.
pub fn closing_shows_its_page()
    ensures { ClosingShowsItsPage }
{}

/// A law: an edit puts no more texts than the page has rows of text, what is typed aside.
pub fn edit_puts_few()
    ensures { EditPutsFew }
{}

/// A law: a closing puts no more texts than the page has rows of text, the prompt aside.
pub fn closing_puts_few()
    ensures { ClosingPutsFew }
{}
