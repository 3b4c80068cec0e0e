//! Where a query leads, before it is taken.
ghost use Rattle.std.specs.Prelude.{◌≡◌, Some, map, string_bytes, option_map, IfOk};
ghost use Rattle.regex.specs.Strings.{regex_pattern};
ghost use Rattle.minus_state.specs.Confirming.{confirmed};
ghost use Rattle.minus_state.specs.Page.{shown};
ghost use Rattle.minus_state.specs.Preview.{preview, row_found, shown_at};
ghost use Rattle.minus_state.specs.States.{control_of, IsFormed};

use crate::rendering::render_rows_for_display;
use crate::showing::ShownRows;
use crate::state::PagerState;
use minus_term::page_len;
use minus_text::screen::searching::view_of;
use minus_text::{Rows, Term};
use regex::Regex;
use std::alloc::{AllocError, Global};

// The rows of text that the page shows once a query's pattern is the term and the mark goes to this row.
fn rows_found_at(
    alloc: Global,
    state: &PagerState,
    query: &Regex,
    row: usize,
) -> Result<Rows, AllocError>
    ensures { IfOk result (λ rows. IsFormed state.now → map string_bytes rows.items
        ≡ shown_at (regex_pattern query.now) (control_of state.now) row) }
{
    let term = Term {
        patterns: state.patterns(),
        pattern: query,
    };
    let mark = row.min(state.top());
    let end = mark.saturating_add(page_len(state.rows));
    let findings = state.screen.search_rows(alloc, Some(term), mark, end)?;
    let shown = ShownRows {
        view: view_of(&state.screen, &findings),
        left_mark: state.left_mark,
        ends: state.ends(),
    };
    let rows = render_rows_for_display(alloc, &shown, mark, end)?;
    Ok(rows)
}

// The row that a query leads to, where some row matches it.
fn row_found(alloc: Global, state: &PagerState, query: &Regex) -> Result<Option<usize>, AllocError>
    ensures { IfOk result (λ row. IsFormed state.now →
        row ≡ row_found (regex_pattern query.now) (control_of state.now)) }
{
    let term = Term {
        patterns: state.patterns(),
        pattern: query,
    };
    state.screen.first_match(alloc, term, state.upper_mark)
}

/// The rows of text that the page shows once a query's pattern is the term, from the match on that the search goes to,
/// or from the mark on where no row matches. The state stays as it is, and no row is formed again.
///
/// # Errors
///
/// [`AllocError`] where there is no memory for what is found or for the rows.
pub fn confirmed_rows(alloc: Global, state: &PagerState, query: &Regex) -> Result<Rows, AllocError>
    ensures { IfOk result (λ rows. IsFormed state.now → map string_bytes rows.items
        ≡ shown (confirmed (control_of state.now) (regex_pattern query.now))) }
{
    let row = row_found(alloc, state, query)?;
    let row = row.unwrap_or(state.upper_mark);
    rows_found_at(alloc, state, query, row)
}

/// The rows of text that the page shows of a query before it is taken: those that it shows once the query's pattern is
/// the term, from the match on that the search goes to; `None` where no row matches. The state stays as it is, and no
/// row is formed again: rows are searched as far as that match, and then those of its page.
///
/// # Errors
///
/// [`AllocError`] where there is no memory for what is found or for the rows.
pub fn incremental_preview(
    alloc: Global,
    state: &PagerState,
    query: &Regex,
) -> Result<Option<Rows>, AllocError>
    ensures { IfOk result (λ r. IsFormed state.now → option_map (λ v. map string_bytes v.items) r
        ≡ preview (regex_pattern query.now) (control_of state.now)) }
{
    let first = row_found(alloc, state, query)?;
    let Some(row) = first else {
        return Ok(None);
    };
    let rows = rows_found_at(alloc, state, query, row)?;
    Ok(Some(rows))
}
