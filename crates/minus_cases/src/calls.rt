//! Calls of functions, a line each: a name and arguments, of which a text stands last, with the escapes of scripts.
use crate::layouts::{Search, split_number};
use crate::pages::{call_on_page, call_on_row};
use crate::printed::{push_line, push_made, text_of};
use crate::queries::Query;
use crate::texts::Texts;
use crate::views::call_on_view;
use bitflags::Flags;
use minus::{
    KeyEvent, KeyModifiers, format_help_table_from_entries, format_key, modifier_of,
    parse_key_event, parse_mouse_event, parse_usize,
};
use minus_term::MinusError;
use minus_text::{
    crop_columns, digits, fit_columns, format_line, highlight_line_matches, next_nth_match,
    strip_escapes, word_starts,
};
use std::alloc::Global;
use std::collections::BTreeSet;

/// Does a call, if there is one of this name, and adds what it answers.
pub(crate) fn call(
    alloc: Global,
    texts: &mut Texts,
    out: &mut String,
    line: &str,
) -> Result<bool, MinusError> {
    let (word, rest) = line.split_once(' ').unwrap_or((line, ""));
    if texts.call(out, word, rest)? {
        return Ok(true);
    }
    let is_known = call_on_text(alloc, out, word, rest)?
        || call_on_match(alloc, texts, out, word, rest)?
        || call_on_key(alloc, out, word, rest)?
        || call_on_row(alloc, out, word, rest)?
        || call_on_page(alloc, texts, out, word, rest)?
        || call_on_query(alloc, texts, out, word, rest)?
        || call_on_view(alloc, out, word, rest)?;
    Ok(is_known)
}

// Calls on a text by itself.
fn call_on_text(
    alloc: Global,
    out: &mut String,
    word: &str,
    rest: &str,
) -> Result<bool, MinusError> {
    let (number, rest) = split_number(rest).unwrap_or((0, rest));
    let answer = match word {
        "fit" => fit_columns(alloc, text_of(alloc, rest)?.as_str(), number)?,
        "crop" => {
            let (width, rest) = split_number(rest).unwrap_or((0, rest));
            crop_columns(alloc, text_of(alloc, rest)?.as_str(), number, width)?
        }
        "digits" => {
            push_made(
                out,
                "= ",
                format!(in alloc; "{}", digits(parse_usize(rest).unwrap_or(0))),
            )?;
            return Ok(true);
        }
        "wrap" => {
            for row in &format_line(alloc, text_of(alloc, rest)?.as_str(), number)? {
                push_line(out, "= ", row.as_str())?;
            }
            return Ok(true);
        }
        _ => return Ok(false),
    };
    push_line(out, "= ", answer.as_str())?;
    Ok(true)
}

// Calls that search.
fn call_on_match(
    alloc: Global,
    texts: &Texts,
    out: &mut String,
    word: &str,
    rest: &str,
) -> Result<bool, MinusError> {
    let Some(search) = &texts.search else {
        return Ok(false);
    };
    let text = text_of(alloc, rest)?;
    match word {
        "strip" => push_line(
            out,
            "= ",
            strip_escapes(alloc, &search.patterns, text.as_str())?.as_str(),
        )?,
        "words" => {
            let starts = word_starts(alloc, &search.patterns, text.as_str())?;
            push_made(out, "= ", format!(in alloc; "{starts:?}"))?;
        }
        "marked" => {
            push_marked(alloc, out, search, text.as_str(), true)?;
            push_marked(alloc, out, search, text.as_str(), false)?;
        }
        "jump" => push_jump(alloc, out, text.as_str())?,
        _ => return Ok(false),
    }
    Ok(true)
}

// Adds how a line is displayed with its matches, accurately or not.
fn push_marked(
    alloc: Global,
    out: &mut String,
    search: &Search,
    line: &str,
    is_accurate: bool,
) -> Result<(), MinusError> {
    let (shown, is_match) = highlight_line_matches(
        alloc,
        &search.patterns,
        line,
        &search.pattern,
        is_accurate,
    )?;
    push_line(
        out,
        if is_match { "= match " } else { "= none " },
        shown.as_str(),
    )?;
    Ok(())
}

// Adds where a jump goes among rows: a row, by how many matches, and the rows.
fn push_jump(alloc: Global, out: &mut String, text: &str) -> Result<(), MinusError> {
    let mut numbers = text
        .split(' ')
        .map(|number| parse_usize(number).unwrap_or(0));
    let row = numbers.next().unwrap_or(0);
    let jump = numbers.next().unwrap_or(0);
    let mut rows = BTreeSet::new(alloc);
    for number in numbers {
        rows.insert(number)?;
    }
    let place = next_nth_match(&rows, row, jump);
    push_made(out, "= ", format!(in alloc; "{place:?}"))?;
    Ok(())
}

// Calls on descriptions of keys and of the mouse.
fn call_on_key(
    alloc: Global,
    out: &mut String,
    word: &str,
    rest: &str,
) -> Result<bool, MinusError> {
    let text = text_of(alloc, rest)?;
    match word {
        "key" => match parse_key_event(text.as_str()) {
            Ok(key) => push_with(
                alloc,
                out,
                format!(in alloc; "{:?}", key.code)?.as_str(),
                key.modifiers,
            )?,
            Err(fault) => push_made(out, "= ", format!(in alloc; "fault {fault:?}"))?,
        },
        "mouse" => match parse_mouse_event(text.as_str()) {
            Ok(mouse) => push_with(
                alloc,
                out,
                format!(in alloc; "{:?}", mouse.kind)?.as_str(),
                mouse.modifiers,
            )?,
            Err(fault) => push_made(out, "= ", format!(in alloc; "fault {fault:?}"))?,
        },
        "modifier" => match text.as_str().chars().next().and_then(modifier_of) {
            Some(modifier) => push_with(alloc, out, "with", modifier)?,
            None => push_line(out, "= ", "none")?,
        },
        "name" => {
            if let Ok(key) = parse_key_event(text.as_str()) {
                push_line(out, "= ", format_key(alloc, &key)?.as_str())?;
            }
        }
        "table" => push_table(alloc, out, text.as_str())?,
        _ => return Ok(false),
    }
    Ok(true)
}

// Adds what is pressed, and the modifiers.
fn push_with(
    alloc: Global,
    out: &mut String,
    pressed: &str,
    modifiers: KeyModifiers,
) -> Result<(), MinusError> {
    let control = if modifiers.contains(KeyModifiers::CONTROL) {
        " control"
    } else {
        ""
    };
    let alt = if modifiers.contains(KeyModifiers::ALT) {
        " alt"
    } else {
        ""
    };
    let shift = if modifiers.contains(KeyModifiers::SHIFT) {
        " shift"
    } else {
        ""
    };
    push_made(
        out,
        "= ",
        format!(in alloc; "{pressed}{control}{alt}{shift}"),
    )?;
    Ok(())
}

// Adds the help table of keys and what they do, each behind a newline, with a blank between them.
fn push_table(alloc: Global, out: &mut String, text: &str) -> Result<(), MinusError> {
    let mut keys: Vec<(KeyEvent, String)> = Vec::new(alloc);
    for entry in text.lines() {
        if let Some((key, said)) = entry.split_once(' ') {
            if let Ok(key) = parse_key_event(key) {
                keys.push((key, String::from_str(alloc, said)?))?;
            }
        }
    }
    let mut entries: Vec<(&KeyEvent, &str)> = Vec::new(alloc);
    for (key, said) in &keys {
        entries.push((key, said.as_str()))?;
    }
    let table = format_help_table_from_entries(alloc, &entries)?;
    for row in table.as_str().lines() {
        push_line(out, "= ", row)?;
    }
    Ok(())
}

// Calls of the editor of a query.
fn call_on_query(
    alloc: Global,
    texts: &mut Texts,
    out: &mut String,
    word: &str,
    rest: &str,
) -> Result<bool, MinusError> {
    if word == "query" {
        texts.query = Query::typed(alloc, text_of(alloc, rest)?.as_str());
        return Ok(true);
    }
    let Some(query) = &mut texts.query else {
        return Ok(false);
    };
    match word {
        "feed" => query.feed(alloc, out, rest)?,
        "move" => query.press(alloc, rest)?,
        "starts" => query.push_starts(alloc, out)?,
        _ => return Ok(false),
    }
    Ok(true)
}
