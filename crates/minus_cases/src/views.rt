//! Calls of the pager program's parts: prepared texts, the bytes of keys, its words, and the text of its prompt row.
use crate::layouts::split_number;
use crate::printed::{push_line, push_made, text_of};
use bitflags::Flags;
use minus::{Event, MinusError, parse_usize};
use minus_view::{
    ArgumentFault, Arguments, Place, Preparation, Shape, parse_arguments, percent, place_text,
    read_events, read_late_events, take_marks, with_tabs,
};
use std::alloc::{AllocError, Global};

// The value of a hexadecimal digit.
fn digit_of(byte: u8) -> u8 {
    match byte {
        b'0'..=b'9' => byte.saturating_sub(b'0'),
        b'a'..=b'f' => byte.saturating_sub(b'a').saturating_add(10),
        _ => 0,
    }
}

// The bytes that are written with the escapes of scripts, and with `\x` and two hexadecimal digits.
fn bytes_of(alloc: Global, written: &str) -> Result<Vec<u8>, AllocError> {
    let mut bytes = Vec::new(alloc);
    let mut rest = written.bytes();
    while let Some(byte) = rest.next() {
        if byte != b'\\' {
            bytes.push(byte)?;
            continue;
        }
        match rest.next() {
            Some(b'e') => bytes.push(b'\x1b')?,
            Some(b'n') => bytes.push(b'\n')?,
            Some(b'r') => bytes.push(b'\r')?,
            Some(b'x') => {
                let high = digit_of(rest.next().unwrap_or(b'0'));
                let low = digit_of(rest.next().unwrap_or(b'0'));
                bytes.push(high.wrapping_mul(16) | low)?;
            }
            Some(other) => bytes.push(other)?,
            None => {}
        }
    }
    Ok(bytes)
}

// What bytes become in a shape that are added in pieces of this many bytes.
fn prepared(alloc: Global, shape: Shape, bytes: &[u8], len: usize) -> Result<String, AllocError> {
    let mut preparation = Preparation::with(alloc, shape);
    let mut text = String::new(alloc);
    for piece in bytes.chunks(len.max(1)) {
        preparation.add(&mut text, piece)?;
    }
    preparation.finish(&mut text)?;
    Ok(text)
}

// The shape that a number of columns and letters say: `s` squeezes, `t` marks tabs and `l` keeps links.
fn shape_of(tabs: usize, letters: &str) -> Shape {
    Shape {
        tabs,
        squeezes: letters.contains('s'),
        marks_tabs: letters.contains('t'),
        links: letters.contains('l'),
    }
}

// Adds what bytes become: the length of their pieces, the columns of a tab, letters of a shape, and the bytes.
fn push_prepared(alloc: Global, out: &mut String, rest: &str) -> Result<(), AllocError> {
    let Some((len, rest)) = split_number(rest) else {
        return Ok(());
    };
    let Some((tabs, rest)) = split_number(rest) else {
        return Ok(());
    };
    let (letters, written) = rest.split_once(' ').unwrap_or((rest, ""));
    let bytes = bytes_of(alloc, written)?;
    let text = prepared(alloc, shape_of(tabs, letters), &bytes, len)?;
    push_line(out, "= ", text.as_str())
}

// Adds the text without the marks of its tabs, and how many tabs it has.
fn push_unmarked(alloc: Global, out: &mut String, rest: &str) -> Result<(), AllocError> {
    let bytes = bytes_of(alloc, rest)?;
    let marked = prepared(alloc, shape_of(8, "t"), &bytes, 4096)?;
    let unmarked = take_marks(alloc, marked.as_str())?;
    push_line(out, "= ", unmarked.text.as_str())?;
    push_made(out, "= ", format!(in alloc; "{} tabs", unmarked.tabs.len()))
}

// Adds what is copied of a prepared text, from one place up to another, with its tabs.
fn push_copied(alloc: Global, out: &mut String, rest: &str) -> Result<(), AllocError> {
    let Some((from, rest)) = split_number(rest) else {
        return Ok(());
    };
    let Some((to, rest)) = split_number(rest) else {
        return Ok(());
    };
    let bytes = bytes_of(alloc, rest)?;
    let marked = prepared(alloc, shape_of(8, "t"), &bytes, 4096)?;
    let whole = take_marks(alloc, marked.as_str())?;
    let text = whole.text.as_str().get(from..to).unwrap_or("");
    let copied = with_tabs(alloc, from, text, whole.tabs.as_slice())?;
    push_line(out, "= ", copied.as_str())
}

// Adds what an event is: the modifiers as a number, of which 1 is Shift, 2 is Control and 4 is Alt, and the key.
fn push_event(alloc: Global, out: &mut String, event: &Event) -> Result<(), AllocError> {
    match event {
        Event::Key(key) => {
            push_made(
                out,
                "= ",
                format!(in alloc; "{} {:?}", key.modifiers.bits(), key.code),
            )
        }
        Event::Mouse(mouse) => {
            let (modifiers, kind) = (mouse.modifiers.bits(), mouse.kind);
            let (column, row) = (mouse.column, mouse.row);
            push_made(
                out,
                "= ",
                format!(in alloc; "{modifiers} {kind:?} at {column},{row}"),
            )
        }
        Event::Resize(cols, rows) => push_made(
            out,
            "= ",
            format!(in alloc; "Resize {cols},{rows}"),
        ),
        Event::FocusGained => push_line(out, "= ", "Gained"),
        Event::FocusLost => push_line(out, "= ", "Lost"),
    }
}

// Adds the events of bytes that come in pieces of this many bytes, and of a rest that nothing follows for a while; `waits`
// where a part of it goes on waiting.
fn push_events(alloc: Global, out: &mut String, rest: &str) -> Result<(), AllocError> {
    let Some((len, rest)) = split_number(rest) else {
        return Ok(());
    };
    let mut events = Vec::new(alloc);
    let mut waiting = Vec::new(alloc);
    for piece in bytes_of(alloc, rest)?.chunks(len.max(1)) {
        waiting.extend_from_slice(piece)?;
        let taken = read_events(&mut events, waiting.as_slice())?;
        waiting.drain(..taken);
    }
    let late = read_late_events(&mut events, waiting.as_slice())?;
    for event in &events {
        push_event(alloc, out, event)?;
    }
    if late < waiting.len() {
        push_line(out, "= ", "waits")?;
    }
    Ok(())
}

// Adds what the program's words ask for, or what is faulty.
fn push_asked(alloc: Global, out: &mut String, rest: &str) -> Result<(), AllocError> {
    let mut words: Vec<&str> = Vec::new(alloc);
    for word in rest.split(' ') {
        words.push(word)?;
    }
    match parse_arguments("", &words) {
        Ok(Arguments::Help) => push_line(out, "= ", "help"),
        Ok(Arguments::Version) => push_line(out, "= ", "version"),
        Ok(Arguments::Page(_)) => push_line(out, "= ", "page"),
        Err(ArgumentFault::UnknownOption(word)) => push_line(out, "= unknown option ", word),
        Err(ArgumentFault::BadNumber(word)) => push_line(out, "= bad number ", word),
        Err(ArgumentFault::NoValue(word)) => push_line(out, "= no value ", word),
    }
}

// Adds the text of the prompt row: its columns, the first and the last line, how many there are, the per cent, and the
// name.
fn push_place_row(alloc: Global, out: &mut String, rest: &str) -> Result<(), MinusError> {
    let (columns, rest) = split_number(rest).unwrap_or((0, ""));
    let (first, rest) = split_number(rest).unwrap_or((0, ""));
    let (last, rest) = split_number(rest).unwrap_or((0, ""));
    let (lines, rest) = split_number(rest).unwrap_or((0, ""));
    let (part, name) = split_number(rest).unwrap_or((0, ""));
    let name = text_of(alloc, name)?;
    let place = Place {
        first,
        last,
        lines,
        end: part,
        bytes: 100,
    };
    let text = place_text(alloc, columns, name.as_str(), place)?;
    push_line(out, "= ", text.as_str())?;
    Ok(())
}

/// Calls on bytes and words of the pager program.
pub(crate) fn call_on_view(
    alloc: Global,
    out: &mut String,
    word: &str,
    rest: &str,
) -> Result<bool, MinusError> {
    match word {
        "prepare" => push_prepared(alloc, out, rest)?,
        "unmarked" => push_unmarked(alloc, out, rest)?,
        "tabs" => push_copied(alloc, out, rest)?,
        "events" => push_events(alloc, out, rest)?,
        "words-of" => push_asked(alloc, out, rest)?,
        "place-text" => push_place_row(alloc, out, rest)?,
        "percent" => {
            let (part, whole) = split_number(rest).unwrap_or((0, ""));
            let percent = percent(part, parse_usize(whole).unwrap_or(0));
            push_made(out, "= ", format!(in alloc; "{percent}"))?;
        }
        _ => return Ok(false),
    }
    Ok(true)
}
