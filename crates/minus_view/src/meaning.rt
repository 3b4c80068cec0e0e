//! Which event a whole unit is.
ghost use Rattle.std.specs.Prelude.{◌≡◌, ◌≤◌, ◌<◌};
ghost use Rattle.minus_view.specs.Meaning.{reported, named, character_key, ascii_key, character, typed, escaped, meaning};

use crate::keys::{modified, press, table_key};
use crate::mouse::mouse;
use minus_term::{Event, KeyCode};

// A report of the mouse, or a key with modifiers.
fn reported(bytes: &[u8]) -> Option<Event>
    ensures { result ≡ reported bytes.now }
{
    match bytes {
        [b'[', b'<', rest @ ..] => mouse(rest),
        [b'[', _, ..] => modified(&bytes[1..]),
        _ => None,
    }
}

// What a named sequence means.
fn named(bytes: &[u8]) -> Option<Event>
    ensures { result ≡ named bytes.now }
{
    if let Some(event) = table_key(bytes) {
        return Some(event);
    }
    reported(bytes)
}

// The key of a character.
fn character_key(c: char, bits: u8) -> Event
    requires { bits ≤ 4 }
    ensures { result ≡ character_key c bits }
{
    if c.is_ascii_uppercase() {
        press(KeyCode::Char(c), bits + 1)
    } else {
        press(KeyCode::Char(c), bits)
    }
}

// The key of a byte below 128.
fn ascii_key(byte: u8, bits: u8) -> Event
    requires byte { byte < 128 }
    requires bits { bits ≤ 4 }
    ensures { result ≡ ascii_key byte bits }
{
    match byte {
        13 => press(KeyCode::Enter, bits),
        9 => press(KeyCode::Tab, bits),
        8 | 127 => press(KeyCode::Backspace, bits),
        27 => press(KeyCode::Esc, bits),
        0 => press(KeyCode::Char(' '), bits + 2),
        1..=26 => press(KeyCode::Char(char::from(byte + 96)), bits + 2),
        28..=31 => press(KeyCode::Char(char::from(byte + 64)), bits + 2),
        _ => character_key(char::from(byte), bits),
    }
}

// The character that some bytes spell, if it is one.
fn character(bytes: &[u8]) -> Option<char>
    ensures { result ≡ character bytes.now }
{
    match str::from_utf8(bytes) {
        Ok(text) => {
            let mut rest = text.chars();
            match rest.next() {
                Some(c) => match rest.next() {
                    None => Some(c),
                    Some(_) => None,
                },
                None => None,
            }
        }
        Err(_) => None,
    }
}

// The key that some bytes type.
fn typed(bytes: &[u8], bits: u8) -> Option<Event>
    requires { bits ≤ 4 }
    ensures { result ≡ typed bytes.now bits }
{
    match character(bytes) {
        Some(c) => {
            if c.is_ascii() {
                Some(ascii_key(c as u8, bits))
            } else {
                Some(character_key(c, bits))
            }
        }
        None => None,
    }
}

// What follows `ESC` in a whole unit.
fn escaped(bytes: &[u8]) -> Option<Event>
    ensures { result ≡ escaped bytes.now }
{
    match bytes {
        [] => Some(press(KeyCode::Esc, 0)),
        [b'[' | b'O', ..] => named(bytes),
        _ => typed(bytes, 4),
    }
}

/// What a whole unit means; nothing where it is not understood.
pub(crate) fn meaning(unit: &[u8]) -> Option<Event>
    ensures { result ≡ meaning unit.now }
{
    match unit {
        [] => None,
        [0x1B, rest @ ..] => escaped(rest),
        _ => typed(unit, 0),
    }
}
