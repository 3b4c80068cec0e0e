//! What a scroll draws: the rows of text that come onto the page as the mark moves, in a buffer.
ghost use Rattle.std.specs.Prelude.{◌≤◌, OnOk};
ghost use Rattle.minus_term.specs.PageRows.{page_len};
ghost use Rattle.minus_term.specs.Scroll.{down_ops, up_ops, scroll_ops};
ghost use Rattle.minus_state.specs.AddsShown.{AddsShown};
ghost use Rattle.minus_state.specs.NextTexts.{Belongs};

use minus_state::change::Change;
use minus_state::state::PagerState;
use minus_state::state::after::{write_after, write_between};
use minus_term::{page_len, write_down_start, write_prompt_row, write_up_start};
use std::alloc::{AllocError, Global};

// Adds a move of the page's rows up by k: the last k rows of text of the page that a change leads to, and the prompt
// row, are put.
fn push_scroll_down(
    state: &PagerState,
    alloc: Global,
    out: &mut Vec<u8>,
    change: &Change,
    k: u16,
    prompt: &str,
) -> Result<(), AllocError>
    requires belongs { Belongs state.now.screen.document change.now.text }
    requires within { k ≤ page_len change.now.rows }
    ensures { OnOk result (AddsShown state.now change.now
        (λ shown. down_ops change.now.rows k shown prompt.now) out.old.items out.new.items) }
{
    let rows = change.rows as u16;
    write_down_start(out, rows, k)?;
    write_after(
        state,
        alloc,
        out,
        change,
        page_len(change.rows) - k as usize,
    )?;
    write_prompt_row(out, rows, prompt)?;
    Ok(())
}

// Adds a move of the page's rows down by k: the first k rows of text of the page that a change leads to, and the prompt
// row, are put.
fn push_scroll_up(
    state: &PagerState,
    alloc: Global,
    out: &mut Vec<u8>,
    change: &Change,
    k: u16,
    prompt: &str,
) -> Result<(), AllocError>
    requires { Belongs state.now.screen.document change.now.text }
    ensures { OnOk result (AddsShown state.now change.now
        (λ shown. up_ops change.now.rows k shown prompt.now) out.old.items out.new.items) }
{
    write_up_start(out, k)?;
    write_between(state, alloc, out, change, 0, k as usize)?;
    write_prompt_row(out, change.rows as u16, prompt)?;
    Ok(())
}

// Adds the rows of text that come onto the page that a change leads to as the mark moves, and the prompt row.
pub(crate) fn push_scroll(
    state: &PagerState,
    alloc: Global,
    out: &mut Vec<u8>,
    change: &Change,
    from: usize,
    to: usize,
    prompt: &str,
) -> Result<(), AllocError>
    requires { Belongs state.now.screen.document change.now.text }
    ensures { OnOk result (AddsShown state.now change.now
        (λ shown. scroll_ops change.now.rows from to shown prompt.now) out.old.items out.new.items) }
{
    let most = page_len(change.rows);
    if from <= to {
        let k = (to - from).min(most);
        return push_scroll_down(state, alloc, out, change, k as u16, prompt);
    }
    let k = (from - to).min(most);
    push_scroll_up(state, alloc, out, change, k as u16, prompt)
}
