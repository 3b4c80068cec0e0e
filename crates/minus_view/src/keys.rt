//! The keys that a sequence stands for.
ghost use Rattle.std.specs.Prelude.{◌≡◌, bytes_eq};
ghost use Rattle.minus_view.specs.Keys.{press, look_up, cursor_keys, editing_keys, first_functions, more_functions, table_key, letter_key, number_key, ended_key, xterm_bits, modified};

use crate::numbers::{number, past_number, past_semicolon};
use bitflags::Flags;
use minus_term::{Event, KeyCode, KeyEvent, KeyModifiers};

/// A press of a key, with the modifiers of some bits.
pub fn press(code: KeyCode, bits: u8) -> Event
    ensures { result ≡ press code bits }
{
    Event::Key(KeyEvent::new(code, KeyModifiers::from_bits_retain(bits)))
}

// Whether the bytes are those of a row.
fn is(bytes: &[u8], row: &str) -> bool
    ensures { result ≡ bytes_eq bytes.now row.now }
{
    bytes == row.as_bytes()
}

// The keys that move.
fn cursor_keys(bytes: &[u8]) -> Option<Event>
    ensures { result ≡ look_up bytes.now cursor_keys }
{
    match bytes {
        _ if is(bytes, "[A") => Some(press(KeyCode::Up, 0)),
        _ if is(bytes, "[B") => Some(press(KeyCode::Down, 0)),
        _ if is(bytes, "[C") => Some(press(KeyCode::Right, 0)),
        _ if is(bytes, "[D") => Some(press(KeyCode::Left, 0)),
        _ if is(bytes, "[H") => Some(press(KeyCode::Home, 0)),
        _ if is(bytes, "[F") => Some(press(KeyCode::End, 0)),
        _ if is(bytes, "OA") => Some(press(KeyCode::Up, 0)),
        _ if is(bytes, "OB") => Some(press(KeyCode::Down, 0)),
        _ if is(bytes, "OC") => Some(press(KeyCode::Right, 0)),
        _ if is(bytes, "OD") => Some(press(KeyCode::Left, 0)),
        _ if is(bytes, "OH") => Some(press(KeyCode::Home, 0)),
        _ if is(bytes, "OF") => Some(press(KeyCode::End, 0)),
        _ => None,
    }
}

// The block of keys above them, the tab key with Shift, and the focus.
fn editing_keys(bytes: &[u8]) -> Option<Event>
    ensures { result ≡ look_up bytes.now editing_keys }
{
    match bytes {
        _ if is(bytes, "[1~") => Some(press(KeyCode::Home, 0)),
        _ if is(bytes, "[2~") => Some(press(KeyCode::Insert, 0)),
        _ if is(bytes, "[3~") => Some(press(KeyCode::Delete, 0)),
        _ if is(bytes, "[4~") => Some(press(KeyCode::End, 0)),
        _ if is(bytes, "[5~") => Some(press(KeyCode::PageUp, 0)),
        _ if is(bytes, "[6~") => Some(press(KeyCode::PageDown, 0)),
        _ if is(bytes, "[7~") => Some(press(KeyCode::Home, 0)),
        _ if is(bytes, "[8~") => Some(press(KeyCode::End, 0)),
        _ if is(bytes, "[Z") => Some(press(KeyCode::BackTab, 1)),
        _ if is(bytes, "[I") => Some(Event::FocusGained),
        _ if is(bytes, "[O") => Some(Event::FocusLost),
        _ => None,
    }
}

// F1 to F5.
fn first_functions(bytes: &[u8]) -> Option<Event>
    ensures { result ≡ look_up bytes.now first_functions }
{
    match bytes {
        _ if is(bytes, "OP") => Some(press(KeyCode::F(1), 0)),
        _ if is(bytes, "OQ") => Some(press(KeyCode::F(2), 0)),
        _ if is(bytes, "OR") => Some(press(KeyCode::F(3), 0)),
        _ if is(bytes, "OS") => Some(press(KeyCode::F(4), 0)),
        _ if is(bytes, "[15~") => Some(press(KeyCode::F(5), 0)),
        _ if is(bytes, "[[A") => Some(press(KeyCode::F(1), 0)),
        _ if is(bytes, "[[B") => Some(press(KeyCode::F(2), 0)),
        _ if is(bytes, "[[C") => Some(press(KeyCode::F(3), 0)),
        _ if is(bytes, "[[D") => Some(press(KeyCode::F(4), 0)),
        _ if is(bytes, "[[E") => Some(press(KeyCode::F(5), 0)),
        _ => None,
    }
}

// F6 to F12, and F1 to F4 of older terminals.
fn more_functions(bytes: &[u8]) -> Option<Event>
    ensures { result ≡ look_up bytes.now more_functions }
{
    match bytes {
        _ if is(bytes, "[17~") => Some(press(KeyCode::F(6), 0)),
        _ if is(bytes, "[18~") => Some(press(KeyCode::F(7), 0)),
        _ if is(bytes, "[19~") => Some(press(KeyCode::F(8), 0)),
        _ if is(bytes, "[20~") => Some(press(KeyCode::F(9), 0)),
        _ if is(bytes, "[21~") => Some(press(KeyCode::F(10), 0)),
        _ if is(bytes, "[23~") => Some(press(KeyCode::F(11), 0)),
        _ if is(bytes, "[24~") => Some(press(KeyCode::F(12), 0)),
        _ if is(bytes, "[11~") => Some(press(KeyCode::F(1), 0)),
        _ if is(bytes, "[12~") => Some(press(KeyCode::F(2), 0)),
        _ if is(bytes, "[13~") => Some(press(KeyCode::F(3), 0)),
        _ if is(bytes, "[14~") => Some(press(KeyCode::F(4), 0)),
        _ => None,
    }
}

/// The key of a table.
pub(crate) fn table_key(bytes: &[u8]) -> Option<Event>
    ensures { result ≡ table_key bytes.now }
{
    if let Some(event) = cursor_keys(bytes) {
        return Some(event);
    }
    if let Some(event) = editing_keys(bytes) {
        return Some(event);
    }
    if let Some(event) = first_functions(bytes) {
        return Some(event);
    }
    more_functions(bytes)
}

// The key of a letter.
fn letter_key(c: u8) -> Option<KeyCode>
    ensures { result ≡ letter_key c }
{
    match c {
        b'A' => Some(KeyCode::Up),
        b'B' => Some(KeyCode::Down),
        b'C' => Some(KeyCode::Right),
        b'D' => Some(KeyCode::Left),
        b'F' => Some(KeyCode::End),
        b'H' => Some(KeyCode::Home),
        b'P'..=b'S' => Some(KeyCode::F(c - 79)),
        _ => None,
    }
}

// The key of a number.
fn number_key(n: u16) -> Option<KeyCode>
    ensures { result ≡ number_key n }
{
    match n {
        1 => Some(KeyCode::Home),
        2 => Some(KeyCode::Insert),
        3 => Some(KeyCode::Delete),
        4 => Some(KeyCode::End),
        5 => Some(KeyCode::PageUp),
        6 => Some(KeyCode::PageDown),
        11..=15 => Some(KeyCode::F((n - 10) as u8)),
        17..=21 => Some(KeyCode::F((n - 11) as u8)),
        23..=24 => Some(KeyCode::F((n - 12) as u8)),
        _ => None,
    }
}

// The key of a number and of what ends its sequence.
fn ended_key(n: u16, end: &[u8]) -> Option<KeyCode>
    ensures { result ≡ ended_key n end.now }
{
    match end {
        [b'~'] => number_key(n),
        [c] if n == 1 => letter_key(*c),
        _ => None,
    }
}

// The modifiers of a number of xterm's.
fn xterm_bits(m: u16) -> u8
    ensures { result ≡ xterm_bits m }
{
    let bits = m.saturating_sub(1);
    let shift = if bits & 1 == 0 { 0 } else { 1 };
    let alt = if bits & 2 == 0 { 0 } else { 4 };
    let control = if bits & 4 == 0 { 0 } else { 2 };
    shift + alt + control
}

/// A key with modifiers: what follows `ESC[`.
pub(crate) fn modified(bytes: &[u8]) -> Option<Event>
    ensures { result ≡ modified bytes.now }
{
    match past_semicolon(past_number(bytes)) {
        Some(rest) => match ended_key(number(bytes), past_number(rest)) {
            Some(code) => Some(press(code, xterm_bits(number(rest)))),
            None => None,
        },
        None => None,
    }
}
