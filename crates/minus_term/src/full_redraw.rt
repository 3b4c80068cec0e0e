//! The bytes that draw a whole page, and its parts, added to a buffer. An `Err` only means out of memory; it may leave
//! some of a part behind.
ghost use Rattle.std.specs.Prelude.{◌≡◌, [], ◌∷◌, ◌++◌, map, OnOk};
ghost use Rattle.std.specs.List.{flat_map};
ghost use Rattle.minus_term.specs.FullRedraw.{full_ops, prompt_ops, row_ops};
ghost use Rattle.minus_term.specs.Operations.{ClearAll, GoTo, NextRow, Return};
ghost use Rattle.minus_term.specs.Written.{written_all};

use crate::draw::{push_at_row, push_bytes};
use std::alloc::AllocError;
use std::convert::AsStr;

/// Adds what a whole page begins with: the cursor goes to the first row, and each row is made blank.
///
/// # Errors
///
/// [`AllocError`] where there is no memory for the bytes: a beginning of them was added.
pub fn write_page_start(out: &mut Vec<u8>) -> Result<(), AllocError>
    ensures { OnOk result (out.new.items ≡ out.old.items ++ written_all (GoTo 0 0 ∷ ClearAll ∷ [])) }
{
    push_at_row(out, 0, b"\x1b[2J")?;
    Ok(())
}

/// Adds what stands before the text of a row: the cursor goes to the first column.
///
/// # Errors
///
/// [`AllocError`] where there is no memory for the bytes: none was added.
#[tactic(auto, unfolding(crate::specs::Written::written, crate::specs::Written::written_all))]
pub fn write_row_start(out: &mut Vec<u8>) -> Result<(), AllocError>
    ensures { OnOk result (out.new.items ≡ out.old.items ++ written_all (Return ∷ [])) }
{
    out.push(b'\r')?;
    Ok(())
}

/// Adds what stands behind the text of a row: the cursor goes to the next row.
///
/// # Errors
///
/// [`AllocError`] where there is no memory for the bytes: none was added.
#[tactic(auto, unfolding(crate::specs::Written::written, crate::specs::Written::written_all))]
pub fn write_row_end(out: &mut Vec<u8>) -> Result<(), AllocError>
    ensures { OnOk result (out.new.items ≡ out.old.items ++ written_all (NextRow ∷ [])) }
{
    out.push(b'\n')?;
    Ok(())
}

/// Adds a row of text, from its first column on, and goes to the next.
///
/// # Errors
///
/// [`AllocError`] where there is no memory for the bytes: a beginning of them was added.
pub fn write_row(out: &mut Vec<u8>, row: &str) -> Result<(), AllocError>
    ensures { OnOk result (out.new.items ≡ out.old.items ++ written_all (row_ops row.now)) }
{
    write_row_start(out)?;
    push_bytes(out, row.as_bytes())?;
    write_row_end(out)?;
    Ok(())
}

/// Adds the prompt row, the last of this many rows. An empty one is not put.
///
/// # Errors
///
/// [`AllocError`] where there is no memory for the bytes: a beginning of them was added.
pub fn write_prompt_row(out: &mut Vec<u8>, rows: u16, prompt: &str) -> Result<(), AllocError>
    ensures { OnOk result (out.new.items ≡ out.old.items ++ written_all (prompt_ops rows prompt.now)) }
{
    push_at_row(out, rows, b"\r\x1b[2K")?;
    push_bytes(out, prompt.as_bytes())?;
    Ok(())
}

// Adds rows of text.
fn push_rows<R: AsStr>(out: &mut Vec<u8>, shown: &[R]) -> Result<(), AllocError>
    ensures { OnOk result (out.new.items ≡ out.old.items ++ written_all (flat_map row_ops (map R.text shown.now))) }
{
    for row in shown {
        write_row(out, row.as_str())?;
    }
    Ok(())
}

/// Adds a whole page of this many rows: these rows of text from its top, and the prompt row.
///
/// # Errors
///
/// [`AllocError`] where there is no memory for the bytes: a beginning of them was added.
pub fn write_page<R: AsStr>(
    out: &mut Vec<u8>,
    rows: u16,
    shown: &[R],
    prompt: &str,
) -> Result<(), AllocError>
    ensures { OnOk result (out.new.items
        ≡ out.old.items ++ written_all (full_ops rows (map R.text shown.now) prompt.now)) }
{
    write_page_start(out)?;
    push_rows(out, shown)?;
    write_prompt_row(out, rows, prompt)?;
    Ok(())
}
