//! What is printed of cases.
use minus::{Answer, CommandOf, ExitStrategy, InputOf, PagerState, SearchMode};
use minus_script::parse_script;
use std::alloc::{AllocError, Global};

// The bytes of the longest text that is printed with the state.
const LONGEST_TEXT: usize = 4096;

/// A text with its escape characters, ends of lines and backslashes written as scripts write them.
pub(crate) fn push_escaped(out: &mut String, text: &str) -> Result<(), AllocError> {
    for character in text.chars() {
        match character {
            '\x1b' => out.push_str("\\e")?,
            '\r' => out.push_str("\\r")?,
            '\n' => out.push_str("\\n")?,
            '\\' => out.push_str("\\\\")?,
            other => out.push(other)?,
        }
    }
    Ok(())
}

/// Adds a line: a letter that says what it tells, and a text.
pub(crate) fn push_line(out: &mut String, kind: &str, text: &str) -> Result<(), AllocError> {
    out.push_str(kind)?;
    push_escaped(out, text)?;
    out.push('\n')?;
    Ok(())
}

/// Adds a line that a `format!` made.
pub(crate) fn push_made(
    out: &mut String,
    kind: &str,
    text: Result<String, AllocError>,
) -> Result<(), AllocError> {
    push_line(out, kind, &text?)
}

/// The lines that an answer of a step comes to.
pub(crate) fn answered(alloc: Global, out: &mut String, answer: &Answer) -> Result<(), AllocError> {
    for refusal in &answer.refused {
        let number = refusal.number();
        push_made(
            out,
            "a ",
            format!(in alloc; "refused {number} of those that waited"),
        )?;
    }
    if let Some(text) = &answer.copied {
        push_made(out, "a ", format!(in alloc; "copied {text}"))?;
    }
    match answer.exited {
        Some((ExitStrategy::ProcessQuit, code)) => push_made(
            out,
            "a ",
            format!(in alloc; "exit {code}"),
        ),
        Some((ExitStrategy::PagerQuit, code)) => {
            push_made(
                out,
                "a ",
                format!(in alloc; "exit {code}, and the program goes on"),
            )
        }
        None => Ok(()),
    }
}

/// The marks of a state, its rows, its selection, and the direction of its last search.
pub(crate) fn print_state(
    alloc: Global,
    out: &mut String,
    state: &PagerState,
) -> Result<(), AllocError> {
    push_made(out, "m ", format!(in alloc; "mark {}", state.upper_mark))?;
    push_made(out, "m ", format!(in alloc; "left {}", state.left_mark))?;
    push_made(
        out,
        "m ",
        format!(in alloc; "match {}", state.search_mark()),
    )?;
    push_made(
        out,
        "m ",
        format!(in alloc; "rows {}", state.screen.formatted_lines_count()),
    )?;
    push_made(out, "m ", format!(in alloc; "prefix {}", state.prefix_num))?;
    if state.screen.orig_text().len() <= LONGEST_TEXT {
        push_made(
            out,
            "m ",
            format!(in alloc; "text {}", state.screen.orig_text()),
        )?;
    }
    if let Some(end) = state.selection {
        push_made(
            out,
            "m ",
            format!(in alloc; "selected to row {} column {}", end.absolute_row, end.col),
        )?;
    }
    match state.search_mode {
        SearchMode::Forward => push_line(out, "m ", "search forward"),
        SearchMode::Reverse => push_line(out, "m ", "search reverse"),
        SearchMode::Unknown => Ok(()),
    }
}

/// The text that is written with the escapes of scripts; an empty one where one is faulty.
pub(crate) fn text_of(alloc: Global, written: &str) -> Result<String, AllocError> {
    let line = format!(in alloc; "push {written}")?;
    let Ok(inputs) = parse_script(alloc, line.as_bytes()) else {
        return Ok(String::new(alloc));
    };
    for input in inputs {
        if let InputOf::Command(CommandOf::AppendData(text)) = input {
            return Ok(text);
        }
    }
    Ok(String::new(alloc))
}
