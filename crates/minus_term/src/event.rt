//! What a terminal tells: keys, the mouse, its size and its focus.
ghost use Rattle.std.specs.Prelude.{⊤, [], ◌∷◌, ◌≡◌, codes};
ghost use Rattle.minus_term.specs.Presses.{press_of};

pub mod equality;

use bitflags::{Flag, Flags, bitflag_items};

/// The modifier keys that are held down with a key or a button.
#[derive(Clone, Copy, Debug, PartialEq, Eq, Hash)]
pub struct KeyModifiers(u8);

bitflag_items! {
    impl KeyModifiers: u8 {
        const SHIFT = 1;
        const CONTROL = 2;
        const ALT = 4;
        const SUPER = 8;
        const HYPER = 16;
        const META = 32;
    }
}

impl KeyModifiers {
    /// No modifier.
    pub const NONE: KeyModifiers = KeyModifiers(0);
}

impl Flags for KeyModifiers {
    type Bits = u8;

    ghost exact = { ⊤ };

    ghost table = { (codes "SHIFT", 1) ∷ (codes "CONTROL", 2) ∷ (codes "ALT", 4) ∷ (codes "SUPER", 8) ∷
        (codes "HYPER", 16) ∷ (codes "META", 32) ∷ [] };

    ghost set_of = { λ m. m.0 };

    fn flags<'a>() -> &'a [Flag<KeyModifiers>] {
        KeyModifiers::FLAGS
    }

    fn bits(&self) -> u8 {
        self.0
    }

    fn from_bits_retain(bits: u8) -> KeyModifiers {
        KeyModifiers(bits)
    }
}

/// The locks that are on, and the part of the keyboard, when a key is told.
#[derive(Clone, Copy, Debug, PartialEq, Eq, Hash)]
pub struct KeyEventState(u8);

bitflag_items! {
    impl KeyEventState: u8 {
        const KEYPAD = 1;
        const CAPS_LOCK = 2;
        const NUM_LOCK = 4;
    }
}

impl KeyEventState {
    /// No lock, and a key outside the keypad.
    pub const NONE: KeyEventState = KeyEventState(0);
}

impl Flags for KeyEventState {
    type Bits = u8;

    ghost exact = { ⊤ };

    ghost table = { (codes "KEYPAD", 1) ∷ (codes "CAPS_LOCK", 2) ∷ (codes "NUM_LOCK", 4) ∷ [] };

    ghost set_of = { λ s. s.0 };

    fn flags<'a>() -> &'a [Flag<KeyEventState>] {
        KeyEventState::FLAGS
    }

    fn bits(&self) -> u8 {
        self.0
    }

    fn from_bits_retain(bits: u8) -> KeyEventState {
        KeyEventState(bits)
    }
}

/// Which key it is.
#[derive(Clone, Copy, Debug, PartialEq, Eq, Hash)]
pub enum KeyCode {
    Backspace,
    Enter,
    Left,
    Right,
    Up,
    Down,
    Home,
    End,
    PageUp,
    PageDown,
    Tab,
    /// The tab key with shift.
    BackTab,
    Delete,
    Insert,
    /// The function key with this number.
    F(u8),
    /// The key of a character.
    Char(char),
    /// No key.
    Null,
    Esc,
    CapsLock,
    ScrollLock,
    NumLock,
    PrintScreen,
    Pause,
    Menu,
    KeypadBegin,
}

/// What is done with a key.
#[derive(Clone, Copy, Debug, PartialEq, Eq, Hash)]
pub enum KeyEventKind {
    Press,
    Repeat,
    Release,
}

/// A key and what is done with it. Two are equal where their normal forms are: see
/// [`KeyEvent::normal`].
#[derive(Clone, Copy, Debug)]
pub struct KeyEvent {
    /// The key.
    pub code: KeyCode,
    /// The modifiers held down with it.
    pub modifiers: KeyModifiers,
    /// What is done with it.
    pub kind: KeyEventKind,
    /// The locks and the keypad.
    pub state: KeyEventState,
}

impl KeyEvent {
    /// The press of a key with these modifiers, with no lock on and outside the keypad.
    pub const fn new(code: KeyCode, modifiers: KeyModifiers) -> KeyEvent
        ensures { result ≡ press_of code modifiers }
    {
        KeyEvent {
            code,
            modifiers,
            kind: KeyEventKind::Press,
            state: KeyEventState::NONE,
        }
    }
}

/// The press of a key alone.
impl From<KeyCode> for KeyEvent {
    ghost from_gives = { λ code key. key ≡ press_of code (record { 0 = 0 }) };

    fn from(code: KeyCode) -> KeyEvent {
        KeyEvent::new(code, KeyModifiers::NONE)
    }
}

/// A button of the mouse.
#[derive(Clone, Copy, Debug, PartialEq, Eq, Hash)]
pub enum MouseButton {
    Left,
    Right,
    Middle,
}

/// What is done with the mouse.
#[derive(Clone, Copy, Debug, PartialEq, Eq, Hash)]
pub enum MouseEventKind {
    Down(MouseButton),
    Up(MouseButton),
    /// Moved with a button held down.
    Drag(MouseButton),
    /// Moved with no button held down.
    Moved,
    ScrollDown,
    ScrollUp,
    ScrollLeft,
    ScrollRight,
}

/// What is done with the mouse, and where.
#[derive(Clone, Copy, Debug, PartialEq, Eq, Hash)]
pub struct MouseEvent {
    /// What is done.
    pub kind: MouseEventKind,
    /// The column, counted from 0.
    pub column: u16,
    /// The row, counted from 0.
    pub row: u16,
    /// The modifiers held down.
    pub modifiers: KeyModifiers,
}

/// What a terminal tells.
#[derive(Clone, Copy, Debug, PartialEq, Eq, Hash)]
pub enum Event {
    FocusGained,
    FocusLost,
    Key(KeyEvent),
    Mouse(MouseEvent),
    /// The terminal's columns and rows from now on, in this order.
    Resize(u16, u16),
}
