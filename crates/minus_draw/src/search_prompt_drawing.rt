//! The drawings of an open search prompt, in a buffer.
ghost use Rattle.std.specs.Prelude.{◌≡◌, option_map, OnOk};
ghost use Rattle.regex.specs.Strings.{regex_pattern};
ghost use Rattle.minus_state.specs.NextTexts.{Belongs};
ghost use Rattle.minus_state.specs.OpenSearches.{seen_search, search_after};
ghost use Rattle.minus_state.specs.States.{control_of, IsFormed};
ghost use Rattle.minus_draw.specs.AddedBytes.{AddsOps, AddsFormed, AddsFormedPage, AddsEditOps};
ghost use Rattle.minus_draw.specs.Drawings.{opening_under, cursor_under, edit_under, preview_ops};
ghost use Rattle.minus_draw.specs.Previews.{view_seen};
ghost use Rattle.minus_term.specs.SearchPrompt.{closing_ops};
ghost use Rattle.minus_state.specs.AddsShown.{AddsShown};

use crate::page_drawing::push_page;
use minus_state::change::Change;
use minus_state::search::open_prompt::OpenPrompt;
use minus_state::state::PagerState;
use minus_state::{OpenSearch, QueryEdit, SearchChange, confirmed_rows};
use minus_term::{write_closing_start, write_page, write_search_cursor, write_search_opening};
use regex::Regex;
use std::alloc::{AllocError, Global};

// A search prompt that is open: its direction and its query, its cursor, which may have moved, whether the query was
// edited, and the pattern whose matches the page shows.
#[derive(Clone, Copy)]
struct OpenView<'a> {
    prompt: &'a OpenPrompt,
    cursor: u16,
    edited: bool,
    preview: Option<&'a Regex>,
}

// One that is kept.
fn view_of(search: &OpenSearch) -> OpenView<'_>
    ensures { view_seen result ≡ seen_search search.now }
{
    let preview = match &search.preview {
        Some(pattern) => Some(pattern.as_ref()),
        None => None,
    };
    OpenView {
        prompt: &search.prompt,
        cursor: search.prompt.cursor() as u16,
        edited: search.edited,
        preview,
    }
}

// The one that is open in a state, if one is.
fn open_in(state: &PagerState) -> Option<OpenView<'_>>
    ensures { option_map view_seen result ≡ (control_of state.now).search }
{
    match state.open_search() {
        Some(search) => Some(view_of(search)),
        None => None,
    }
}

// The one that is open in a state, if one is, with its cursor moved by an edit.
fn open_moved(state: &PagerState, edit: QueryEdit) -> Option<OpenView<'_>>
    ensures { option_map view_seen result ≡ search_after (SearchChange.Moves edit) (control_of state.now).search }
{
    match state.open_search() {
        Some(search) => Some(OpenView {
            cursor: search.prompt.cursor_after(edit) as u16,
            ..view_of(search)
        }),
        None => None,
    }
}

// The one that is open after a change, if one is.
fn open_after<'a>(state: &'a PagerState, change: &'a Change) -> Option<OpenView<'a>>
    ensures { option_map view_seen result ≡ search_after change.now.search (control_of state.now).search }
{
    match &change.search {
        SearchChange::Stays => open_in(state),
        SearchChange::Moves(edit) => open_moved(state, *edit),
        SearchChange::Is(search) => Some(view_of(search.as_ref())),
        SearchChange::Closes => None,
    }
}

// Adds the search prompt that a change opens, if it opens one: its row, and the cursor behind its mark.
pub(crate) fn push_opening(
    state: &PagerState,
    alloc: Global,
    out: &mut Vec<u8>,
    change: &Change,
) -> Result<(), AllocError>
    ensures { OnOk result (AddsOps (control_of state.now) change.now
        (λ new. opening_under new.rows new.search) out.old.items out.new.items) }
{
    let Some(view) = open_after(state, change) else {
        return Ok(());
    };
    let row = view.prompt.displayed(alloc)?;
    write_search_opening(alloc, out, change.rows as u16, row.as_str())
}

// Adds the cursor of the search prompt that is open after a change, if one is.
pub(crate) fn push_cursor(
    state: &PagerState,
    alloc: Global,
    out: &mut Vec<u8>,
    change: &Change,
) -> Result<(), AllocError>
    ensures { OnOk result (AddsOps (control_of state.now) change.now
        (λ new. cursor_under new.rows new.search) out.old.items out.new.items) }
{
    let Some(view) = open_after(state, change) else {
        return Ok(());
    };
    write_search_cursor(alloc, out, change.rows as u16, view.cursor)
}

// Adds the page of a state that shows where a pattern leads, with this in its last row.
fn push_preview(
    state: &PagerState,
    alloc: Global,
    out: &mut Vec<u8>,
    rows: u16,
    pattern: &Regex,
    typed: &str,
) -> Result<(), AllocError>
    ensures { OnOk result (AddsFormed state.now
        (preview_ops rows (control_of state.now) (regex_pattern pattern.now) typed.now) out.old.items out.new.items) }
{
    let found = confirmed_rows(alloc, state, pattern)?;
    write_page(out, rows, &found, typed)
}

// Adds the page that a change of the search prompt alone leads to, with this in its last row, where it shows where a
// pattern leads, or shows no preview.
fn push_previewed(
    state: &PagerState,
    alloc: Global,
    out: &mut Vec<u8>,
    change: &Change,
    preview: Option<&Regex>,
    typed: &str,
) -> Result<(), AllocError>
    requires { Belongs state.now.screen.document change.now.text }
    ensures { OnOk result (AddsFormedPage state.now change.now
        (option_map (λ r. regex_pattern r.now) preview.entry) typed.now out.old.items out.new.items) }
{
    match preview {
        Some(pattern) => {
            let rows = change.rows as u16;
            push_preview(state, alloc, out, rows, pattern, typed)
        }
        None => push_page(state, alloc, out, change, typed),
    }
}

// Adds the page with the search prompt that is open after an edit of its query, if one is, and its cursor.
pub(crate) fn push_edit(
    state: &PagerState,
    alloc: Global,
    out: &mut Vec<u8>,
    change: &Change,
) -> Result<(), AllocError>
    requires { Belongs state.now.screen.document change.now.text }
    ensures { OnOk result (IsFormed state.now → AddsEditOps (control_of state.now) change.now
        (λ new. edit_under new new.search) out.old.items out.new.items) }
{
    let Some(view) = open_after(state, change) else {
        return Ok(());
    };
    let row = view.prompt.displayed(alloc)?;
    push_previewed(state, alloc, out, change, view.preview, row.as_str())?;
    push_cursor(state, alloc, out, change)
}

// Adds what closes the search prompt: its row is cleared and the cursor hidden, and the whole page that a change leads
// to is drawn.
pub(crate) fn push_closing(
    state: &PagerState,
    alloc: Global,
    out: &mut Vec<u8>,
    change: &Change,
    prompt: &str,
) -> Result<(), AllocError>
    requires { Belongs state.now.screen.document change.now.text }
    ensures { OnOk result (AddsShown state.now change.now
        (λ shown. closing_ops change.now.rows shown prompt.now) out.old.items out.new.items) }
{
    write_closing_start(out, change.rows as u16)?;
    push_page(state, alloc, out, change, prompt)?;
    Ok(())
}
