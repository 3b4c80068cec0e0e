//! Calls on rows, and on the text of a screen as a page displays it.
use crate::layouts::split_number;
use crate::printed::{push_line, push_made, text_of};
use crate::texts::Texts;
use minus::{MinusError, parse_usize};
use minus_state::{
    PromptRow, Selection, SelectionEnds, ShownRows, View, extract_selection, format_prompt,
    get_horizontal_scroll_bounds, highlight_visible_range, marked_range, place_after_visible,
    place_of_visible, render_rows_for_display, selection_from_coordinates,
};
use std::alloc::Global;

/// Calls on a row: two numbers and its text.
pub(crate) fn call_on_row(
    alloc: Global,
    out: &mut String,
    word: &str,
    rest: &str,
) -> Result<bool, MinusError> {
    let Some((first, rest)) = split_number(rest) else {
        return Ok(false);
    };
    let (second, rest) = split_number(rest).unwrap_or((0, rest));
    let text = text_of(alloc, rest)?;
    match word {
        "select" => {
            let marked = highlight_visible_range(alloc, text.as_str(), first, second)?;
            push_line(out, "= ", marked.as_str())?;
        }
        "visible" => {
            let start = place_of_visible(text.as_str(), first);
            let end = place_after_visible(text.as_str(), second);
            push_made(out, "= ", format!(in alloc; "{start} {end}"))?;
        }
        "bounds" => {
            let bounds = get_horizontal_scroll_bounds(text.as_str(), first, second, false, 1);
            push_made(out, "= ", format!(in alloc; "{bounds:?}"))?;
        }
        "bounds-numbered" => {
            let bounds = get_horizontal_scroll_bounds(text.as_str(), first, second, true, 1);
            push_made(out, "= ", format!(in alloc; "{bounds:?}"))?;
        }
        _ => return Ok(false),
    }
    Ok(true)
}

// Two ends of a selection.
fn parse_ends(text: &str) -> Option<(SelectionEnds, &str)> {
    let (first, rest) = parse_end(text)?;
    let (last, rest) = parse_end(rest)?;
    Some((
        SelectionEnds {
            anchor: first,
            selection: last,
        },
        rest,
    ))
}

// An end of a selection, a row and a column with a colon between them, or a hyphen for none.
fn parse_end(text: &str) -> Option<(Option<Selection>, &str)> {
    let (end, rest) = text.split_once(' ').unwrap_or((text, ""));
    if end == "-" {
        return Some((None, rest));
    }
    let (row, col) = end.split_once(':')?;
    let end = Selection {
        absolute_row: parse_usize(row)?,
        col: parse_usize(col)?,
    };
    Some((Some(end), rest))
}

/// Calls on the text of a screen, as a page displays it.
pub(crate) fn call_on_page(
    alloc: Global,
    texts: &Texts,
    out: &mut String,
    word: &str,
    rest: &str,
) -> Result<bool, MinusError> {
    match word {
        "copy" => {
            if let Some((ends, _)) = parse_ends(rest) {
                match extract_selection(alloc, &texts.screen, ends)? {
                    Some(copied) => push_line(out, "= copied ", copied.as_str())?,
                    None => push_line(out, "= ", "none")?,
                }
            }
        }
        "show" => push_shown(alloc, texts, out, rest)?,
        "place" => push_selected_end(alloc, texts, out, rest)?,
        "prompt" => push_prompt(alloc, out, rest)?,
        "range" => push_range(alloc, out, rest)?,
        _ => return Ok(false),
    }
    Ok(true)
}

// Adds rows as a page displays them: the first row, the one behind the last, the left mark, and what is selected.
fn push_shown(
    alloc: Global,
    texts: &Texts,
    out: &mut String,
    rest: &str,
) -> Result<(), MinusError> {
    let Some((start, rest)) = split_number(rest) else {
        return Ok(());
    };
    let Some((end, rest)) = split_number(rest) else {
        return Ok(());
    };
    let (left_mark, rest) = rest.split_once(' ').unwrap_or((rest, "- -"));
    let left_mark = parse_usize(left_mark).unwrap_or(0);
    let Some((ends, _)) = parse_ends(rest) else {
        return Ok(());
    };
    let shown = ShownRows {
        view: texts.screen.view(),
        left_mark,
        ends,
    };
    for row in &render_rows_for_display(alloc, &shown, start, end)? {
        push_line(out, "= ", row.as_str())?;
    }
    Ok(())
}

// Adds the end that a place of the page selects: its first row, its left mark, its rows, and the column and the row.
fn push_selected_end(
    alloc: Global,
    texts: &Texts,
    out: &mut String,
    rest: &str,
) -> Result<(), MinusError> {
    let mut numbers = rest
        .split(' ')
        .map(|number| parse_usize(number).unwrap_or(0));
    let view = View {
        upper_mark: numbers.next().unwrap_or(0),
        left_mark: numbers.next().unwrap_or(0),
        rows: numbers.next().unwrap_or(0),
    };
    let x = u16::try_from(numbers.next().unwrap_or(0)).unwrap_or(0);
    let y = u16::try_from(numbers.next().unwrap_or(0)).unwrap_or(0);
    match selection_from_coordinates(&texts.screen, view, x, y) {
        Some(end) => push_made(
            out,
            "= ",
            format!(in alloc; "row {} column {}", end.absolute_row, end.col),
        )?,
        None => push_line(out, "= ", "none")?,
    }
    Ok(())
}

// Adds a prompt row of 20 columns: what is set of it, with a semicolon between two fields.
fn push_prompt(alloc: Global, out: &mut String, rest: &str) -> Result<(), MinusError> {
    let mut row = PromptRow {
        is_shown: true,
        prompt: "",
        message: None,
        prefix: "",
        search_mark: 0,
        match_count: 0,
        follow: false,
        cols: 20,
    };
    let text = text_of(alloc, rest)?;
    for field in text.as_str().split(';') {
        let (word, said) = field.split_once(' ').unwrap_or((field, ""));
        match word {
            "prompt" => row.prompt = said,
            "message" => row.message = Some(said),
            "prefix" => row.prefix = said,
            "cols" => row.cols = parse_usize(said).unwrap_or(0),
            "matches" => row.match_count = parse_usize(said).unwrap_or(0),
            "follow" => row.follow = true,
            _ => row.is_shown = false,
        }
    }
    push_line(out, "= ", format_prompt(alloc, &row)?.as_str())?;
    Ok(())
}

// Adds what is selected of a row: both ends, the row, the columns of its prefix, and the left mark.
fn push_range(alloc: Global, out: &mut String, rest: &str) -> Result<(), MinusError> {
    let Some((ends, rest)) = parse_ends(rest) else {
        return Ok(());
    };
    let Some((first, last)) = ends.in_order() else {
        return Ok(());
    };
    let mut numbers = rest
        .split(' ')
        .map(|number| parse_usize(number).unwrap_or(0));
    let row = numbers.next().unwrap_or(0);
    let prefix = numbers.next().unwrap_or(0);
    let left = numbers.next().unwrap_or(0);
    let range = marked_range(first, last, row, prefix, left);
    push_made(out, "= ", format!(in alloc; "{range:?}"))?;
    Ok(())
}
