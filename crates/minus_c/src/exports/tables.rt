//! The tables of keys, and what needs no session.
ghost use Rattle.std.specs.Prelude.{◌≡◌, ◌<◌, true, None, IsUtf8, IfSome};
ghost use Rattle.minus_input.specs.Description.{DescribesKey, DescribesMouse};
ghost use Rattle.minus_input.specs.HelpTable.{key_name};
ghost use Rattle.minus_term.specs.declared.event.KeyEvent.{KeyEvent};
ghost use Rattle.minus_term.specs.declared.event.MouseEvent.{MouseEvent};
ghost use Rattle.minus_c.specs.Keys.{key_of, numbers_of_key};
ghost use Rattle.minus_c.specs.RefusalTexts.{refusal_text};
ghost use Rattle.minus_c.specs.Rooms.{IsPut, IsPutIf};
ghost use Rattle.minus_c.specs.Mouse.{mouse_of, numbers_of_mouse};

use crate::found::Found;
use crate::input_events::AskedNumbers;
use crate::kept::{Handed, Kept, hand_back, opened};
use crate::keys::KeyNumbers;
use crate::mouse::MouseNumbers;
use crate::refusal_text::refusal_text;
use crate::room::put_bytes;
use crate::session::OwnKeys;
use crate::told::{BAD_ARGUMENT, NOT_UTF8, refusal_number};
use minus::{
    Event, MinusError, Patterns, RegexError, format_key, highlight_line_matches, next_nth_match,
    parse_key_event, parse_mouse_event,
};
use regex::{Error, Regex};
use std::alloc::{AllocError, Global};
use std::collections::BTreeSet;

/// What the number of a refusal says, where there is room for it; nothing where it is of none.
#[unsafe(no_mangle)]
pub extern "C" fn minus_refusal_text(refusal: u8, room: &mut [u8]) -> Found
    ensures { IsPutIf (refusal_text refusal) room.old room.new result }
{
    Found::put(refusal_text(refusal), room)
}

// The number of a text that describes nothing.
const BAD_DESCRIPTION: u8 = 6;

/// The key that a text describes.
#[unsafe(no_mangle)]
pub extern "C" fn minus_parse_key(text: &[u8], key: &mut KeyNumbers) -> u8
    ensures ok { result ≡ 0 → (k : KeyEvent) × DescribesKey text.now k × (key.new ≡ numbers_of_key k) }
    ensures bad { (IsUtf8 text.now → ⊥) → result ≡ 254 }
    ensures kept { 0 < result → key.new ≡ key.old }
{
    let Ok(text) = std::str::from_utf8(text) else {
        return NOT_UTF8;
    };
    match parse_key_event(text) {
        Ok(parsed) => {
            *key = KeyNumbers::of(&parsed);
            0
        }
        Err(_) => BAD_DESCRIPTION,
    }
}

/// The action of the mouse that a text describes.
#[unsafe(no_mangle)]
pub extern "C" fn minus_parse_mouse(text: &[u8], mouse: &mut MouseNumbers) -> u8
    ensures ok { result ≡ 0 → (m : MouseEvent) × DescribesMouse text.now m × (mouse.new ≡ numbers_of_mouse m) }
    ensures bad { (IsUtf8 text.now → ⊥) → result ≡ 254 }
    ensures kept { 0 < result → mouse.new ≡ mouse.old }
{
    let Ok(text) = std::str::from_utf8(text) else {
        return NOT_UTF8;
    };
    match parse_mouse_event(text) {
        Ok(parsed) => {
            *mouse = MouseNumbers::of(&parsed);
            0
        }
        Err(_) => BAD_DESCRIPTION,
    }
}

/// The name of a key, where there is room for it.
#[unsafe(no_mangle)]
pub extern "C" fn minus_format_key(alloc: Global, key: KeyNumbers, room: &mut [u8]) -> Found
    ensures bad { key_of key ≡ None → result.refusal ≡ 255 }
    ensures name { result.refusal ≡ 0 → IfSome (key_of key) (λ k. IsPut (key_name k) room.old room.new result) }
{
    match key.key() {
        Some(key) => match format_key(alloc, &key) {
            Ok(name) => Found::value(put_bytes(room, name.as_bytes())),
            Err(_) => Found::refusing(MinusError::Memory.number()),
        },
        None => Found::refusing(BAD_ARGUMENT),
    }
}

// The help text of the default bindings.
fn help_table(alloc: Global) -> Result<Option<String>, AllocError> {
    let keys = OwnKeys::default_bindings(alloc)?;
    keys.format_help(alloc)
}

/// The help text of the default bindings, where there is room for it.
#[unsafe(no_mangle)]
pub extern "C" fn minus_help_table(alloc: Global, room: &mut [u8]) -> Found {
    match help_table(alloc) {
        Ok(Some(table)) => Found::value(put_bytes(room, table.as_bytes())),
        Ok(None) => Found::nothing(),
        Err(_) => Found::refusing(MinusError::Memory.number()),
    }
}

/// What a key asks for by the default bindings.
#[unsafe(no_mangle)]
pub extern "C" fn minus_classify_key(kept: Kept, key: KeyNumbers, out: &mut Handed) -> AskedNumbers
    ensures given { out.new.given ≡ true }
    ensures bad { key_of key ≡ None → result.refusal ≡ 255 }
{
    let held = opened(kept);
    let answer = match key.key() {
        Some(key) => held.classify(Event::Key(key)),
        None => AskedNumbers::refusing(BAD_ARGUMENT),
    };
    hand_back(held, out, answer)
}

/// What the mouse asks for by the default bindings.
#[unsafe(no_mangle)]
pub extern "C" fn minus_classify_mouse(
    kept: Kept,
    mouse: MouseNumbers,
    out: &mut Handed,
) -> AskedNumbers
    ensures given { out.new.given ≡ true }
    ensures bad { mouse_of mouse ≡ None → result.refusal ≡ 255 }
{
    let held = opened(kept);
    let answer = match mouse.event() {
        Some(mouse) => held.classify(Event::Mouse(mouse)),
        None => AskedNumbers::refusing(BAD_ARGUMENT),
    };
    hand_back(held, out, answer)
}

// A line with each match of a pattern in reverse, and whether it matches.
fn highlighted(
    alloc: Global,
    line: &str,
    pattern: &str,
    accurate: bool,
) -> Result<(String, bool), MinusError> {
    let patterns = Patterns::new(alloc)?;
    let query = match Regex::new(alloc, pattern) {
        Ok(query) => query,
        Err(Error::OutOfMemory) => return Err(MinusError::Memory),
        Err(cause) => return Err(MinusError::SearchExpError(RegexError(cause))),
    };
    let highlighted = highlight_line_matches(alloc, &patterns, line, &query, accurate)?;
    Ok(highlighted)
}

/// A line with each match of a pattern in reverse, where there is room for it.
#[unsafe(no_mangle)]
pub extern "C" fn minus_highlight_line(
    alloc: Global,
    line: &[u8],
    pattern: &[u8],
    accurate: bool,
    room: &mut [u8],
) -> Found {
    let (Ok(line), Ok(pattern)) = (std::str::from_utf8(line), std::str::from_utf8(pattern)) else {
        return Found::refusing(NOT_UTF8);
    };
    match highlighted(alloc, line, pattern, accurate) {
        Ok((text, is_match)) => {
            let mut found = Found::value(put_bytes(room, text.as_bytes()));
            found.is_there = is_match;
            found
        }
        Err(refusal) => Found::refusing(refusal_number(&refusal)),
    }
}

// These rows, each once, in ascending order.
fn ordered(alloc: Global, rows: &[usize]) -> Result<BTreeSet<usize>, AllocError> {
    let mut set = BTreeSet::new(alloc);
    for row in rows {
        set.insert(*row)?;
    }
    Ok(set)
}

/// The place of the matching row that a jump goes to.
#[unsafe(no_mangle)]
pub extern "C" fn minus_next_nth_match(
    alloc: Global,
    rows: &[usize],
    upper_mark: usize,
    jump: usize,
) -> Found {
    match ordered(alloc, rows) {
        Ok(rows) => Found::of(next_nth_match(&rows, upper_mark, jump)),
        Err(_) => Found::refusing(MinusError::Memory.number()),
    }
}
