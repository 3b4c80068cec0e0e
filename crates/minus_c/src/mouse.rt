//! What is done with the mouse, as numbers.
ghost use Rattle.std.specs.Prelude.{◌≡◌};
ghost use Rattle.minus_c.specs.Mouse.{mouse_kind_of, mouse_kind_number};

use bitflags::Flags;
use minus::{KeyModifiers, MouseButton, MouseEvent, MouseEventKind};

/// What is done with the mouse, and where.
#[repr(C)]
#[derive(Clone, Copy, Drop)]
pub struct MouseNumbers {
    /// The number of what is done.
    pub kind: u8,
    /// The bits of the modifiers held down.
    pub modifiers: u8,
    /// The column, counted from 0.
    pub column: u16,
    /// The row, counted from 0.
    pub row: u16,
}

// What is done, of a number.
fn mouse_kind_of(number: u8) -> Option<MouseEventKind>
    ensures { result ≡ mouse_kind_of number }
{
    match number {
        0 => Some(MouseEventKind::Down(MouseButton::Left)),
        1 => Some(MouseEventKind::Down(MouseButton::Right)),
        2 => Some(MouseEventKind::Down(MouseButton::Middle)),
        3 => Some(MouseEventKind::Up(MouseButton::Left)),
        4 => Some(MouseEventKind::Up(MouseButton::Right)),
        5 => Some(MouseEventKind::Up(MouseButton::Middle)),
        6 => Some(MouseEventKind::Drag(MouseButton::Left)),
        7 => Some(MouseEventKind::Drag(MouseButton::Right)),
        8 => Some(MouseEventKind::Drag(MouseButton::Middle)),
        9 => Some(MouseEventKind::Moved),
        10 => Some(MouseEventKind::ScrollDown),
        11 => Some(MouseEventKind::ScrollUp),
        12 => Some(MouseEventKind::ScrollLeft),
        13 => Some(MouseEventKind::ScrollRight),
        _ => None,
    }
}

// The number of what is done.
fn mouse_kind_number(kind: MouseEventKind) -> u8
    ensures { result ≡ mouse_kind_number kind }
{
    match kind {
        MouseEventKind::Down(MouseButton::Left) => 0,
        MouseEventKind::Down(MouseButton::Right) => 1,
        MouseEventKind::Down(MouseButton::Middle) => 2,
        MouseEventKind::Up(MouseButton::Left) => 3,
        MouseEventKind::Up(MouseButton::Right) => 4,
        MouseEventKind::Up(MouseButton::Middle) => 5,
        MouseEventKind::Drag(MouseButton::Left) => 6,
        MouseEventKind::Drag(MouseButton::Right) => 7,
        MouseEventKind::Drag(MouseButton::Middle) => 8,
        MouseEventKind::Moved => 9,
        MouseEventKind::ScrollDown => 10,
        MouseEventKind::ScrollUp => 11,
        MouseEventKind::ScrollLeft => 12,
        MouseEventKind::ScrollRight => 13,
    }
}

impl MouseNumbers {
    ghost use Rattle.minus_c.specs.Mouse.{mouse_of, numbers_of_mouse};

    /// What these numbers stand for, if they stand for something.
    pub fn event(self) -> Option<MouseEvent>
        ensures { result ≡ mouse_of self }
    {
        match mouse_kind_of(self.kind) {
            Some(kind) => Some(MouseEvent {
                kind,
                column: self.column,
                row: self.row,
                modifiers: KeyModifiers::from_bits_retain(self.modifiers),
            }),
            None => None,
        }
    }

    /// The numbers of what is done with the mouse.
    pub fn of(mouse: &MouseEvent) -> MouseNumbers
        ensures { result ≡ numbers_of_mouse mouse.now }
    {
        MouseNumbers {
            kind: mouse_kind_number(mouse.kind),
            modifiers: mouse.modifiers.bits(),
            column: mouse.column,
            row: mouse.row,
        }
    }
}
