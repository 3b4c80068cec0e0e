//! The whole page of a change, in a buffer.
ghost use Rattle.std.specs.Prelude.{OnOk};
ghost use Rattle.minus_term.specs.FullRedraw.{full_ops};
ghost use Rattle.minus_state.specs.AddsShown.{AddsShown};
ghost use Rattle.minus_state.specs.NextTexts.{Belongs};

use minus_state::change::Change;
use minus_state::state::PagerState;
use minus_state::state::after::write_after;
use minus_term::{write_page_start, write_prompt_row};
use std::alloc::{AllocError, Global};

// Adds the whole page that a change of a state leads to: its rows of text from its top, and this prompt row.
pub(crate) fn push_page(
    state: &PagerState,
    alloc: Global,
    out: &mut Vec<u8>,
    change: &Change,
    prompt: &str,
) -> Result<(), AllocError>
    requires { Belongs state.now.screen.document change.now.text }
    ensures { OnOk result (AddsShown state.now change.now
        (λ shown. full_ops change.now.rows shown prompt.now) out.old.items out.new.items) }
{
    write_page_start(out)?;
    write_after(state, alloc, out, change, 0)?;
    write_prompt_row(out, change.rows as u16, prompt)?;
    Ok(())
}
