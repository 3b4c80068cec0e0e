//! What an append draws: the rows of the page that it has changed or added, in a buffer.
ghost use Rattle.std.specs.Prelude.{◌≡◌, [], ◌∷◌, ◌++◌, ◌+◌, ◌^◌, ◌<◌, length, map, OnOk};
ghost use Rattle.minus_term.specs.Append.{rows_anew, append_ops};
ghost use Rattle.minus_term.specs.Operations.{GoTo, ClearRow, Put};
ghost use Rattle.minus_term.specs.Written.{written_all};
ghost use Rattle.minus_state.specs.AddsShown.{AddsShown};
ghost use Rattle.minus_state.specs.NextTexts.{Belongs};
ghost use Rattle.minus_state.specs.Showing.{row_text};
ghost use Rattle.minus_draw.specs.AddedBytes.{AddsOps};
ghost use Rattle.minus_draw.specs.Drawings.{append_from};
ghost use Rattle.minus_state.specs.States.{control_of, IsFormed};

use minus_state::change::Change;
use minus_state::showing::ShownRow;
use minus_state::state::PagerState;
use minus_state::state::after::{count_after, shown_after};
use minus_term::{DrawOp, page_len, write_ops};
use std::alloc::{AllocError, Global};

// Adds a row of the page that is made blank, and its text.
fn push_row_anew(
    alloc: Global,
    out: &mut Vec<u8>,
    row: u16,
    text: &ShownRow<'_>,
) -> Result<(), AllocError>
    ensures { OnOk result (out.new.items
        ≡ out.old.items ++ written_all (GoTo 0 row ∷ ClearRow ∷ Put (row_text text.now) ∷ [])) }
{
    write_ops(
        alloc,
        out,
        &[
            DrawOp::GoTo(0, row),
            DrawOp::ClearRow,
            DrawOp::Put(text.as_str()),
        ],
    )?;
    Ok(())
}

// Adds rows of the page that are made blank, from one on, and their texts.
fn push_texts_anew(
    alloc: Global,
    out: &mut Vec<u8>,
    first: u16,
    texts: &[ShownRow<'_>],
) -> Result<(), AllocError>
    requires { first + length texts.now < 2 ^ 16 }
    ensures { OnOk result (out.new.items
        ≡ out.old.items ++ written_all (rows_anew first (map row_text texts.now) 0)) }
{
    for (i, text) in texts.iter().enumerate() {
        push_row_anew(alloc, out, first + i as u16, text)?;
    }
    Ok(())
}

// Adds this many rows of the page that are made blank, from one on.
fn clear_rows(alloc: Global, out: &mut Vec<u8>, first: u16, count: u16) -> Result<(), AllocError>
    requires { first + count < 2 ^ 16 }
    ensures { OnOk result (out.new.items ≡ out.old.items ++ written_all (rows_anew first [] count)) }
{
    for i in 0..count {
        write_ops(alloc, out, &[DrawOp::GoTo(0, first + i), DrawOp::ClearRow])?;
    }
    Ok(())
}

// Adds rows of a page from one on, counted from 0: each is made blank, these texts are put, and this many rows after
// them stay blank.
fn push_rows_anew(
    alloc: Global,
    out: &mut Vec<u8>,
    first: usize,
    blanks: usize,
    texts: &[ShownRow<'_>],
) -> Result<(), AllocError>
    requires { first + length texts.now + blanks < 2 ^ 16 }
    ensures { OnOk result (out.new.items
        ≡ out.old.items ++ written_all (rows_anew first (map row_text texts.now) blanks)) }
{
    push_texts_anew(alloc, out, first as u16, texts)?;
    clear_rows(alloc, out, (first + texts.len()) as u16, blanks as u16)?;
    Ok(())
}

// Adds the rows of the page that a change leads to from one on, where this many rows of text were shown.
fn push_rows_after<'a>(
    state: &'a PagerState,
    alloc: Global,
    out: &mut Vec<u8>,
    change: &'a Change,
    first: usize,
    were: usize,
) -> Result<(), AllocError>
    requires belongs { Belongs state.now.screen.document change.now.text }
    requires few { were < 2 ^ 16 }
    ensures { OnOk result (AddsShown state.now change.now
        (append_ops first were) out.old.items out.new.items) }
{
    let count = count_after(state, change);
    let texts = shown_after(state, alloc, change, first)?;
    let from = first.min(count.max(were));
    let blanks = were.saturating_sub(count.max(first));
    push_rows_anew(alloc, out, from, blanks, &texts)?;
    Ok(())
}

// Adds the rows of the page that a change leads to from a row of the text on, where the text had this many rows.
pub(crate) fn push_append<'a>(
    state: &'a PagerState,
    alloc: Global,
    out: &mut Vec<u8>,
    change: &'a Change,
    first: usize,
    old_count: usize,
) -> Result<(), AllocError>
    requires { Belongs state.now.screen.document change.now.text }
    ensures { OnOk result (IsFormed state.now → AddsOps (control_of state.now) change.now
        (λ new. append_from new first old_count) out.old.items out.new.items) }
{
    let were = old_count
        .saturating_sub(change.mark)
        .min(page_len(change.rows));
    let first = first.saturating_sub(change.mark);
    push_rows_after(state, alloc, out, change, first, were)?;
    Ok(())
}
