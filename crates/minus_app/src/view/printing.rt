//! What stays on the terminal: a text that fits it, and the page that was displayed.

use minus::{
    Layout, MinusError, OutputSink, OwnedTextBlock, PagerState, Screen, fit_columns, page_len,
    write_bytes,
};
use std::alloc::{AllocError, Global};

// The rows of a text that has numbers.
fn numbered(alloc: Global, screen: &Screen) -> Result<String, AllocError> {
    let mut printed = String::new(alloc);
    for i in 0..screen.formatted_lines_count() {
        if let Some(row) = screen.formatted_row(alloc, i)? {
            printed.push_str(row.as_str())?;
            printed.push_str("\r\n")?;
        }
    }
    Ok(printed)
}

// The lines of a text, as long as they are: the terminal wraps them.
fn as_it_is(alloc: Global, text: &str) -> Result<String, AllocError> {
    let mut printed = String::new(alloc);
    for line in text.lines() {
        printed.push_str(line)?;
        printed.push_str("\r\n")?;
    }
    Ok(printed)
}

/// Prints a text that leaves the last row of the terminal free, and answers whether it does.
///
/// # Errors
///
/// [`MinusError`] where there is no memory, or the terminal refuses.
pub fn print_if_fits<S: OutputSink>(
    alloc: Global,
    terminal: &mut S,
    text: &str,
    layout: Layout,
    rows: usize,
) -> Result<bool, MinusError> {
    let copied = OwnedTextBlock::from_str(alloc, text)?;
    let (screen, _) = Screen::of_text(alloc, copied, layout, None)?;
    if screen.formatted_lines_count() >= rows {
        return Ok(false);
    }
    let printed = if layout.numbers.is_on() {
        numbered(alloc, &screen)?
    } else {
        as_it_is(alloc, text)?
    };
    write_bytes(terminal, printed.as_bytes())?;
    Ok(true)
}

/// The rows of the displayed page, as they are left on the terminal where the program ends.
///
/// # Errors
///
/// [`AllocError`] where there is no memory.
pub fn page_left(alloc: Global, state: &PagerState) -> Result<String, AllocError> {
    let mut left = String::new(alloc);
    let behind = state.upper_mark.saturating_add(page_len(state.rows));
    for i in state.upper_mark..behind.min(state.screen.formatted_lines_count()) {
        let Some(row) = state.screen.formatted_row(alloc, i)? else {
            break;
        };
        if state.line_wrapping() {
            left.push_str(row.as_str())?;
        } else {
            left.push_str(fit_columns(alloc, row.as_str(), state.cols)?.as_str())?;
        }
        left.push_str("\r\n")?;
    }
    Ok(left)
}
