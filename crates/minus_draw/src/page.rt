//! The page, as texts.
ghost use Rattle.std.specs.Prelude.{◌≡◌, ◌<◌, ◌++◌, [], length, replicate, map, string_bytes, OnOk, IfOk, IfErr};
ghost use Rattle.minus_term.specs.FullRedraw.{page_of as page_of_rows};
ghost use Rattle.minus_state.specs.Showing.{row_text};
ghost use Rattle.minus_state.specs.Changes.{shown_by, IsFormedFor};
ghost use Rattle.regex.specs.Strings.{regex_pattern};
ghost use Rattle.minus_draw.specs.Previews.{prompt_page, preview_page};
ghost use Rattle.minus_state.specs.Page.{page, page_with};
ghost use Rattle.minus_state.specs.States.{control_of, IsFormed};

use minus_state::change::{Change, Redraw};
use minus_state::confirmed_rows;
use minus_state::search::open_prompt::OpenPrompt;
use minus_state::showing::ShownRow;
use minus_state::state::PagerState;
use minus_state::state::after::shown_after;
use minus_term::{MinusError, page_len};
use regex::Regex;
use std::alloc::{AllocError, Global};

// Adds copies of texts.
fn push_copies(
    alloc: Global,
    rows: &mut Vec<String>,
    texts: &[ShownRow<'_>],
) -> Result<(), AllocError>
    ensures { OnOk result (map string_bytes rows.new.items
        ≡ map string_bytes rows.old.items ++ map row_text texts.now) }
{
    for text in texts {
        rows.push(String::from_str(alloc, text.as_str())?)?;
    }
    Ok(())
}

// Rows of text as what is shown of them.
fn shown_texts(alloc: Global, rows: &[String]) -> Result<Vec<ShownRow<'_>>, AllocError>
    ensures { IfOk result (λ v. map row_text v.items ≡ map string_bytes rows.now) }
{
    let mut shown = Vec::new(alloc);
    for row in rows {
        shown.push(ShownRow::Own(row.as_str()))?;
    }
    Ok(shown)
}

// Adds this many blank rows.
fn push_blanks(alloc: Global, rows: &mut Vec<String>, count: usize) -> Result<(), AllocError>
    ensures { OnOk result (map string_bytes rows.new.items ≡ map string_bytes rows.old.items ++ replicate count []) }
{
    for _blank in 0..count {
        rows.push(String::new(alloc))?;
    }
    Ok(())
}

// The texts of a page of this many rows that has these rows of text at its top, and this in its last row.
fn page_rows(
    alloc: Global,
    rows: usize,
    shown: &[ShownRow<'_>],
    last: String,
) -> Result<Vec<String>, AllocError>
    requires { length shown.now < rows }
    ensures { IfOk result (λ p. map string_bytes p.items
        ≡ (page_of_rows rows (map row_text shown.now) (string_bytes last)).texts) }
{
    let mut page = Vec::new(alloc);
    push_copies(alloc, &mut page, shown)?;
    push_blanks(alloc, &mut page, page_len(rows) - shown.len())?;
    page.push(last)?;
    Ok(page)
}

/// A page: the text of each row of the terminal, the prompt's last, and the cursor's place where it has one.
#[derive(Debug, Drop)]
pub struct Page {
    /// The texts of the rows, from the top.
    pub rows: Vec<String>,
    /// The cursor's column in the last row, from 0.
    pub cursor: Option<u16>,
}

// The page of a state that has these rows of text at its top.
fn form_page(alloc: Global, state: &PagerState, shown: &[ShownRow<'_>]) -> Result<Page, MinusError>
    requires formed { IsFormed state.now }
    requires few { length shown.now < state.now.rows }
    ensures rows { IfOk result (λ p. map string_bytes p.rows.items
        ≡ (page_with (control_of state.now) (map row_text shown.now)).texts) }
    ensures cursor { IfOk result (λ p. p.cursor
        ≡ (page_with (control_of state.now) (map row_text shown.now)).cursor) }
    ensures memory { IfErr result (λ e. e ≡ MinusError.Memory) }
{
    let last = state.displayed_prompt(alloc)?;
    Ok(Page {
        rows: page_rows(alloc, state.rows, shown, last)?,
        cursor: None,
    })
}

// The page of a state with this search prompt, of whose rows of text a change leaves those that are shown.
fn page_with_prompt(
    alloc: Global,
    state: &PagerState,
    change: &Change,
    prompt: &OpenPrompt,
) -> Result<Page, MinusError>
    requires belongs { IsFormedFor state.now change.now }
    requires rows { change.now.rows ≡ state.now.rows }
    ensures rows { IfOk result (λ p. map string_bytes p.rows.items
        ≡ (prompt_page state.now.rows (shown_by state.now change.now) prompt.now).texts) }
    ensures cursor { IfOk result (λ p. p.cursor
        ≡ (prompt_page state.now.rows (shown_by state.now change.now) prompt.now).cursor) }
    ensures memory { IfErr result (λ e. e ≡ MinusError.Memory) }
{
    let shown = shown_after(state, alloc, change, 0)?;
    let last = prompt.displayed(alloc)?;
    let cursor = prompt.cursor() as u16;
    Ok(Page {
        rows: page_rows(alloc, state.rows, &shown, last)?,
        cursor: Some(cursor),
    })
}

// The page of a state with this search prompt, which shows where a pattern leads.
fn page_with_preview(
    alloc: Global,
    state: &PagerState,
    pattern: &Regex,
    prompt: &OpenPrompt,
) -> Result<Page, MinusError>
    requires { IsFormed state.now }
    ensures rows { IfOk result (λ p. map string_bytes p.rows.items
        ≡ (preview_page (control_of state.now) (regex_pattern pattern.now) prompt.now).texts) }
    ensures cursor { IfOk result (λ p. p.cursor
        ≡ (preview_page (control_of state.now) (regex_pattern pattern.now) prompt.now).cursor) }
    ensures memory { IfErr result (λ e. e ≡ MinusError.Memory) }
{
    let found = confirmed_rows(alloc, state, pattern)?;
    let texts = shown_texts(alloc, &found)?;
    let last = prompt.displayed(alloc)?;
    let cursor = prompt.cursor() as u16;
    Ok(Page {
        rows: page_rows(alloc, state.rows, &texts, last)?,
        cursor: Some(cursor),
    })
}

// The page of a state, of whose rows of text a change leaves those that are shown.
fn page_of_change(alloc: Global, state: &PagerState, change: &Change) -> Result<Page, MinusError>
    requires formed { IsFormed state.now }
    requires belongs { IsFormedFor state.now change.now }
    requires rows { change.now.rows ≡ state.now.rows }
    ensures rows { IfOk result (λ p. map string_bytes p.rows.items
        ≡ (page_with (control_of state.now) (shown_by state.now change.now)).texts) }
    ensures cursor { IfOk result (λ p. p.cursor
        ≡ (page_with (control_of state.now) (shown_by state.now change.now)).cursor) }
    ensures memory { IfErr result (λ e. e ≡ MinusError.Memory) }
{
    let shown = shown_after(state, alloc, change, 0)?;
    form_page(alloc, state, &shown)
}

/// The page of a state: with the search prompt that is open and the rows that its preview shows, or else with the
/// prompt row.
///
/// # Errors
///
/// [`MinusError::Memory`] where there is no memory for its texts.
pub fn page_of(alloc: Global, state: &PagerState) -> Result<Page, MinusError>
    requires { IsFormed state.now }
    ensures rows { IfOk result (λ p. map string_bytes p.rows.items ≡ (page (control_of state.now)).texts) }
    ensures cursor { IfOk result (λ p. p.cursor ≡ (page (control_of state.now)).cursor) }
    ensures memory { IfErr result (λ e. e ≡ MinusError.Memory) }
{
    let change = state.redrawn(Redraw::Stays);
    match state.open_search() {
        Some(search) => match &search.preview {
            Some(pattern) => {
                let pattern = pattern.as_ref();
                page_with_preview(alloc, state, pattern, &search.prompt)
            }
            None => page_with_prompt(alloc, state, &change, &search.prompt),
        },
        None => page_of_change(alloc, state, &change),
    }
}
