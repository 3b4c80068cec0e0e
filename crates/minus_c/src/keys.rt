//! Keys as numbers.
ghost use Rattle.std.specs.Prelude.{◌≡◌};
ghost use Rattle.minus_c.specs.Keys.{plain_key, char_key, function_key, code_of, key_kind_of};
ghost use Rattle.minus_c.specs.Keys.{code_number, value_of, kind_number};

use bitflags::Flags;
use minus::{KeyCode, KeyEvent, KeyEventKind, KeyEventState, KeyModifiers};

/// A key and what is done with it.
#[repr(C)]
#[derive(Clone, Copy, Drop)]
pub struct KeyNumbers {
    /// The number of the key.
    pub code: u8,
    /// The bits of the modifiers held down with it.
    pub modifiers: u8,
    /// The number of what is done with it.
    pub kind: u8,
    /// The bits of the locks and of the keypad.
    pub state: u8,
    /// The character, or the number of the function key.
    pub value: u32,
}

// The key of a number that says no more.
fn plain_key(number: u8) -> Option<KeyCode>
    ensures { result ≡ plain_key number }
{
    match number {
        1 => Some(KeyCode::Enter),
        2 => Some(KeyCode::Esc),
        3 => Some(KeyCode::Backspace),
        4 => Some(KeyCode::Up),
        5 => Some(KeyCode::Down),
        6 => Some(KeyCode::Left),
        7 => Some(KeyCode::Right),
        8 => Some(KeyCode::PageUp),
        9 => Some(KeyCode::PageDown),
        10 => Some(KeyCode::Home),
        11 => Some(KeyCode::End),
        12 => Some(KeyCode::Tab),
        13 => Some(KeyCode::BackTab),
        14 => Some(KeyCode::Delete),
        15 => Some(KeyCode::Insert),
        17 => Some(KeyCode::Null),
        18 => Some(KeyCode::CapsLock),
        19 => Some(KeyCode::ScrollLock),
        20 => Some(KeyCode::NumLock),
        21 => Some(KeyCode::PrintScreen),
        22 => Some(KeyCode::Pause),
        23 => Some(KeyCode::Menu),
        24 => Some(KeyCode::KeypadBegin),
        _ => None,
    }
}

// The key of a character.
fn char_key(value: u32) -> Option<KeyCode>
    ensures { result ≡ char_key value }
{
    match char::from_u32(value) {
        Some(c) => Some(KeyCode::Char(c)),
        None => None,
    }
}

// The function key of a number.
fn function_key(value: u32) -> Option<KeyCode>
    ensures { result ≡ function_key value }
{
    match u8::try_from(value) {
        Ok(number) => Some(KeyCode::F(number)),
        Err(_) => None,
    }
}

// The key of a number, and of what it says more.
fn code_of(number: u8, value: u32) -> Option<KeyCode>
    ensures { result ≡ code_of number value }
{
    match number {
        0 => char_key(value),
        16 => function_key(value),
        number => plain_key(number),
    }
}

// What is done with a key, of a number.
fn key_kind_of(number: u8) -> Option<KeyEventKind>
    ensures { result ≡ key_kind_of number }
{
    match number {
        0 => Some(KeyEventKind::Press),
        1 => Some(KeyEventKind::Repeat),
        2 => Some(KeyEventKind::Release),
        _ => None,
    }
}

// The number of a key, and what it says more.
fn code_number(code: KeyCode) -> (u8, u32)
    ensures { result ≡ (code_number code, value_of code) }
{
    match code {
        KeyCode::Char(c) => (0, u32::from(c)),
        KeyCode::Enter => (1, 0),
        KeyCode::Esc => (2, 0),
        KeyCode::Backspace => (3, 0),
        KeyCode::Up => (4, 0),
        KeyCode::Down => (5, 0),
        KeyCode::Left => (6, 0),
        KeyCode::Right => (7, 0),
        KeyCode::PageUp => (8, 0),
        KeyCode::PageDown => (9, 0),
        KeyCode::Home => (10, 0),
        KeyCode::End => (11, 0),
        KeyCode::Tab => (12, 0),
        KeyCode::BackTab => (13, 0),
        KeyCode::Delete => (14, 0),
        KeyCode::Insert => (15, 0),
        KeyCode::F(number) => (16, u32::from(number)),
        KeyCode::Null => (17, 0),
        KeyCode::CapsLock => (18, 0),
        KeyCode::ScrollLock => (19, 0),
        KeyCode::NumLock => (20, 0),
        KeyCode::PrintScreen => (21, 0),
        KeyCode::Pause => (22, 0),
        KeyCode::Menu => (23, 0),
        KeyCode::KeypadBegin => (24, 0),
    }
}

// The number of what is done with a key.
fn kind_number(kind: KeyEventKind) -> u8
    ensures { result ≡ kind_number kind }
{
    match kind {
        KeyEventKind::Press => 0,
        KeyEventKind::Repeat => 1,
        KeyEventKind::Release => 2,
    }
}

impl KeyNumbers {
    ghost use Rattle.minus_c.specs.Keys.{key_of, numbers_of_key};

    /// The key that these numbers stand for, if they stand for one.
    pub fn key(self) -> Option<KeyEvent>
        ensures { result ≡ key_of self }
    {
        match (code_of(self.code, self.value), key_kind_of(self.kind)) {
            (Some(code), Some(kind)) => Some(KeyEvent {
                code,
                modifiers: KeyModifiers::from_bits_retain(self.modifiers),
                kind,
                state: KeyEventState::from_bits_retain(self.state),
            }),
            _ => None,
        }
    }

    /// The numbers of a key.
    pub fn of(key: &KeyEvent) -> KeyNumbers
        ensures { result ≡ numbers_of_key key.now }
    {
        let (code, value) = code_number(key.code);
        KeyNumbers {
            code,
            modifiers: key.modifiers.bits(),
            kind: kind_number(key.kind),
            state: key.state.bits(),
            value,
        }
    }
}
