//! What a scroll of the page and the closing of a search prompt begin with, each added to a buffer in few calls. An `Err`
//! only means out of memory; it may leave some of a part behind.
ghost use Rattle.std.specs.Prelude.{◌≡◌, [], ◌∷◌, ◌++◌, ◌-◌, ◌≤◌, OnOk};
ghost use Rattle.minus_term.specs.PageRows.{page_len};
ghost use Rattle.minus_term.specs.Operations.{ClearRow, GoTo, HideCursor, ScrollDown, ScrollUp};
ghost use Rattle.minus_term.specs.Written.{written_all};

use crate::draw::{push_at_row, push_go_to, push_scroll};
use std::alloc::AllocError;

/// Adds what a move of the page's rows up by k begins with: the row in which the prompt stood is made blank, and the
/// cursor stays in it.
///
/// # Errors
///
/// [`AllocError`] where there is no memory for the bytes: a beginning of them was added.
pub fn write_down_start(out: &mut Vec<u8>, rows: u16, k: u16) -> Result<(), AllocError>
    requires some { 1 ≤ rows }
    requires within { k ≤ page_len rows }
    ensures { OnOk result (out.new.items
        ≡ out.old.items ++ written_all (ScrollUp k ∷ GoTo 0 (rows - k - 1) ∷ ClearRow ∷ [])) }
{
    push_scroll(out, k, b'S')?;
    push_at_row(out, rows - k - 1, b"\x1b[2K")?;
    Ok(())
}

/// Adds what a move of the page's rows down by k begins with: the cursor goes to the first row.
///
/// # Errors
///
/// [`AllocError`] where there is no memory for the bytes: a beginning of them was added.
pub fn write_up_start(out: &mut Vec<u8>, k: u16) -> Result<(), AllocError>
    ensures { OnOk result (out.new.items ≡ out.old.items ++ written_all (ScrollDown k ∷ GoTo 0 0 ∷ [])) }
{
    push_scroll(out, k, b'T')?;
    push_go_to(out, 0, 0)?;
    Ok(())
}

/// Adds what the closing of a search prompt begins with: its row, the last of this many, is made blank, and the cursor
/// is hidden.
///
/// # Errors
///
/// [`AllocError`] where there is no memory for the bytes: a beginning of them was added.
pub fn write_closing_start(out: &mut Vec<u8>, rows: u16) -> Result<(), AllocError>
    ensures { OnOk result (out.new.items
        ≡ out.old.items ++ written_all (GoTo 0 rows ∷ ClearRow ∷ HideCursor ∷ [])) }
{
    push_at_row(out, rows, b"\x1b[2K\x1b[?25l")?;
    Ok(())
}
