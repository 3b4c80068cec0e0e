//! Reports of the mouse.
ghost use Rattle.std.specs.Prelude.{◌≡◌};
ghost use Rattle.minus_view.specs.Mouse.{modifier_bits, button, scroll, pressed, mouse_kind, mouse_event, mouse_end, mouse};

use crate::numbers::{number, past_number, past_semicolon};
use bitflags::Flags;
use minus_term::{Event, KeyModifiers, MouseButton, MouseEvent, MouseEventKind};

// The modifiers of a report.
fn modifiers(bits: u16) -> KeyModifiers
    ensures { result.0 ≡ modifier_bits bits }
{
    let shift = if bits & 4 == 0 { 0 } else { 1 };
    let alt = if bits & 8 == 0 { 0 } else { 4 };
    let control = if bits & 16 == 0 { 0 } else { 2 };
    KeyModifiers::from_bits_retain(shift + alt + control)
}

// The button that a report names.
fn button(two: u16) -> Option<MouseButton>
    ensures { result ≡ button two }
{
    match two {
        0 => Some(MouseButton::Left),
        1 => Some(MouseButton::Middle),
        2 => Some(MouseButton::Right),
        _ => None,
    }
}

// Where the wheel turned.
fn scroll(two: u16) -> MouseEventKind
    ensures { result ≡ scroll two }
{
    match two {
        0 => MouseEventKind::ScrollUp,
        1 => MouseEventKind::ScrollDown,
        2 => MouseEventKind::ScrollLeft,
        _ => MouseEventKind::ScrollRight,
    }
}

// What is done with a button or with none.
fn pressed(button: Option<MouseButton>, moved: bool, up: bool) -> Option<MouseEventKind>
    ensures { result ≡ pressed button moved up }
{
    match button {
        Some(button) => {
            if moved {
                Some(MouseEventKind::Drag(button))
            } else if up {
                Some(MouseEventKind::Up(button))
            } else {
                Some(MouseEventKind::Down(button))
            }
        }
        None => {
            if moved {
                Some(MouseEventKind::Moved)
            } else {
                None
            }
        }
    }
}

// What is done with the mouse.
fn mouse_kind(bits: u16, up: bool) -> Option<MouseEventKind>
    ensures { result ≡ mouse_kind bits up }
{
    if bits & 128 == 0 {
        if bits & 64 == 0 {
            let moved = if bits & 32 == 0 { false } else { true };
            pressed(button(bits & 3), moved, up)
        } else {
            Some(scroll(bits & 3))
        }
    } else {
        None
    }
}

// The event of a report.
fn mouse_event(bits: u16, column: u16, row: u16, up: bool) -> Option<Event>
    ensures { result ≡ mouse_event bits column row up }
{
    match mouse_kind(bits, up) {
        Some(kind) => Some(Event::Mouse(MouseEvent {
            kind,
            column: column.saturating_sub(1),
            row: row.saturating_sub(1),
            modifiers: modifiers(bits),
        })),
        None => None,
    }
}

// The event of a report, by its end.
fn mouse_end(bits: u16, column: u16, row: u16, end: &[u8]) -> Option<Event>
    ensures { result ≡ mouse_end bits column row end.now }
{
    match end {
        [b'M'] => mouse_event(bits, column, row, false),
        [b'm'] => mouse_event(bits, column, row, true),
        _ => None,
    }
}

/// The event of what follows `ESC[<`.
pub(crate) fn mouse(bytes: &[u8]) -> Option<Event>
    ensures { result ≡ mouse bytes.now }
{
    match past_semicolon(past_number(bytes)) {
        Some(columns) => match past_semicolon(past_number(columns)) {
            Some(rows) => mouse_end(
                number(bytes),
                number(columns),
                number(rows),
                past_number(rows),
            ),
            None => None,
        },
        None => None,
    }
}
