//! How a change of a state is drawn, and its bytes in a buffer: the drawing is chosen first, then only its rows are
//! formed.
ghost use Rattle.std.specs.Prelude.{◌≡◌, string_bytes, OnOk, IfOk};
ghost use Rattle.minus_state.specs.ShownPrompt.{prompt_row};
ghost use Rattle.minus_draw.specs.AddedBytes.{AddsDrawing, AddsWholePage, AddsStep, IsDrawnBy};
ghost use Rattle.minus_draw.specs.Drawings.{ops_of, last_row_ops};
ghost use Rattle.minus_state.specs.States.{control_of, IsFormed};
ghost use Rattle.minus_state.specs.Changes.{IsFormedFor, WhereLed};
ghost use Rattle.minus_state.specs.NextTexts.{Belongs};

use crate::append_drawing::push_append;
use crate::page_drawing::push_page;
use crate::prompt_row_drawing::push_changed_prompt;
use crate::scroll_drawing::push_scroll;
use crate::search_prompt_drawing::{push_closing, push_cursor, push_edit, push_opening};
use minus_state::change::{Change, Redraw};
use minus_state::state::PagerState;
use minus_term::write_prompt_row;
use std::alloc::{AllocError, Global};

/// How a whole page is drawn.
#[derive(Clone, Copy)]
pub enum WholePage {
    /// With the prompt row.
    Plain,
    /// With the search prompt, whose query was edited.
    Typed,
    /// With the prompt row, in the place of the search prompt, which closes.
    Closing,
}

/// What is drawn in the last row of a page.
#[derive(Clone, Copy)]
pub enum LastRow {
    /// The prompt row.
    Prompt,
    /// The search prompt, which opens in the place of the prompt row.
    Opening,
    /// The cursor in the search prompt.
    Cursor,
}

/// How a change is drawn over the page before it. What does not draw the prompt row is followed by it where it has
/// changed.
#[derive(Clone, Copy)]
pub enum Drawing {
    /// Not at all: the page stays as it is.
    Nothing,
    /// The whole page, whatever the screen shows.
    Page(WholePage),
    /// The rows that come onto the page as the mark moves.
    Scroll {
        /// The mark before, a row of the text.
        from: usize,
        /// The mark after.
        to: usize,
    },
    /// The rows of the page that an append has changed or added.
    Append {
        /// The first row of the text that may have changed.
        first: usize,
        /// The number of rows of the text before.
        old_count: usize,
    },
    /// The last row of the page alone.
    LastRow(LastRow),
}

impl Drawing {
    ghost use Rattle.minus_draw.specs.Drawings.{drawing_by};

    /// How a change of a state is drawn.
    pub fn of(state: &PagerState, change: &Change) -> Drawing
        ensures { IsFormed state.now →
            result ≡ drawing_by change.now.redraw (control_of state.now) change.now.mark }
    {
        let (from, to) = (state.upper_mark, change.mark);
        match change.redraw {
            Redraw::Stays => Drawing::Nothing,
            Redraw::Whole => Drawing::Page(WholePage::Plain),
            Redraw::Moved if to == from => Drawing::Nothing,
            Redraw::Moved => Drawing::Scroll { from, to },
            Redraw::Appended if to == from => Drawing::Append {
                first: state.first_changed(),
                old_count: state.screen.formatted_lines_count(),
            },
            Redraw::Appended => Drawing::Page(WholePage::Plain),
            Redraw::PromptRow => Drawing::LastRow(LastRow::Prompt),
            Redraw::Opening => Drawing::LastRow(LastRow::Opening),
            Redraw::Cursor => Drawing::LastRow(LastRow::Cursor),
            Redraw::Edit => Drawing::Page(WholePage::Typed),
            Redraw::Closing => Drawing::Page(WholePage::Closing),
        }
    }
}

// Adds the whole page that a change leads to, whose prompt row this is.
fn push_whole(
    state: &PagerState,
    alloc: Global,
    out: &mut Vec<u8>,
    page: WholePage,
    change: &Change,
    prompt: &str,
) -> Result<(), AllocError>
    requires { Belongs state.now.screen.document change.now.text }
    ensures { OnOk result (AddsWholePage state.now change.now page prompt.now out.old.items out.new.items) }
{
    match page {
        WholePage::Plain => push_page(state, alloc, out, change, prompt),
        WholePage::Typed => push_edit(state, alloc, out, change),
        WholePage::Closing => push_closing(state, alloc, out, change, prompt),
    }
}

// Adds what a change draws in the last row of the page that it leads to, whose prompt row this is.
fn push_last_row(
    state: &PagerState,
    alloc: Global,
    out: &mut Vec<u8>,
    row: LastRow,
    change: &Change,
    prompt: &str,
) -> Result<(), AllocError>
    ensures { OnOk result (AddsDrawing (control_of state.now) change.now (Drawing.LastRow row)
        prompt.now (last_row_ops row) out.old.items out.new.items) }
{
    match row {
        LastRow::Prompt => write_prompt_row(out, change.rows as u16, prompt),
        LastRow::Opening => push_opening(state, alloc, out, change),
        LastRow::Cursor => push_cursor(state, alloc, out, change),
    }
}

// Adds a drawing of the page that a change leads to, whose prompt row this is.
fn push_drawing<'a>(
    state: &'a PagerState,
    alloc: Global,
    out: &mut Vec<u8>,
    drawing: Drawing,
    change: &'a Change,
    prompt: &str,
) -> Result<(), AllocError>
    requires { Belongs state.now.screen.document change.now.text }
    ensures { OnOk result (IsFormed state.now → AddsDrawing (control_of state.now) change.now drawing prompt.now
        (ops_of drawing) out.old.items out.new.items) }
{
    match drawing {
        Drawing::Nothing => Ok(()),
        Drawing::Page(page) => push_whole(state, alloc, out, page, change, prompt),
        Drawing::Scroll { from, to } => push_scroll(state, alloc, out, change, from, to, prompt),
        Drawing::Append { first, old_count } => push_append(
            state, alloc, out, change, first, old_count,
        ),
        Drawing::LastRow(row) => push_last_row(state, alloc, out, row, change, prompt),
    }
}

/// Adds the drawing of a step: after it the prompt row, if it is another one than before and was not drawn.
pub fn push_step<'a>(
    state: &'a PagerState,
    alloc: Global,
    out: &mut Vec<u8>,
    drawing: Drawing,
    change: &'a Change,
    prompt: &str,
    before: &str,
) -> Result<(), AllocError>
    requires formed { IsFormed state.now }
    requires belongs { IsFormedFor state.now change.now }
    requires before { before.now ≡ prompt_row (control_of state.now) }
    ensures { OnOk result (AddsStep (control_of state.now) change.now drawing prompt.now
        out.old.items out.new.items) }
{
    push_drawing(state, alloc, out, drawing, change, prompt)?;
    if drawing.draws_prompt() {
        return Ok(());
    }
    push_changed_prompt(out, change.rows as u16, prompt, before)?;
    Ok(())
}

/// The prompt row of the page that a change leads to, and the bytes of a drawing of that page.
pub fn draw_page(
    alloc: Global,
    state: &PagerState,
    drawing: Drawing,
    change: &Change,
) -> Result<(String, Vec<u8>), AllocError>
    requires { Belongs state.now.screen.document change.now.text }
    ensures prompt { IfOk result (λ d. WhereLed state.now change.now (λ new. string_bytes d.0 ≡ prompt_row new)) }
    ensures bytes { IfOk result (λ d. IsFormed state.now →
        IsDrawnBy (control_of state.now) change.now drawing d.1.items) }
{
    let prompt = state.prompt_row_after(alloc, change)?;
    let mut bytes = Vec::new(alloc);
    push_drawing(state, alloc, &mut bytes, drawing, change, &prompt)?;
    Ok((prompt, bytes))
}
