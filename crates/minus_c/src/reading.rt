//! What a terminal's bytes begin with, as numbers.
ghost use Rattle.std.specs.Prelude.{◌≡◌};
ghost use Rattle.minus_c.specs.Reading.{read_plain, read_event, read_late, read_first};

use crate::keys::KeyNumbers;
use crate::mouse::MouseNumbers;
use minus::{Event, KeyCode};
use minus_view::{press, read_unit};

/// The numbers of what bytes begin with.
const MORE: u8 = 0;

const KEY: u8 = 1;

const MOUSE: u8 = 2;

const OTHER: u8 = 3;

/// What a terminal's bytes begin with.
#[repr(C)]
#[derive(Clone, Copy, Drop)]
pub struct ReadNumbers {
    /// The number of what it is.
    pub kind: u8,
    /// How many bytes it is.
    pub taken: usize,
    /// The key, where it is one.
    pub key: KeyNumbers,
    /// What is done with the mouse, where it is that.
    pub mouse: MouseNumbers,
}

// Of a kind that says no more.
fn plain(kind: u8, taken: usize) -> ReadNumbers
    ensures { result ≡ read_plain kind taken }
{
    ReadNumbers {
        kind,
        taken,
        key: KeyNumbers {
            code: 0,
            modifiers: 0,
            kind: 0,
            state: 0,
            value: 0,
        },
        mouse: MouseNumbers {
            kind: 0,
            modifiers: 0,
            column: 0,
            row: 0,
        },
    }
}

// Of an event, if the bytes are one.
fn of_event(taken: usize, event: Option<Event>) -> ReadNumbers
    ensures { result ≡ read_event taken event }
{
    match event {
        Some(Event::Key(key)) => ReadNumbers {
            key: KeyNumbers::of(&key),
            ..plain(KEY, taken)
        },
        Some(Event::Mouse(mouse)) => ReadNumbers {
            mouse: MouseNumbers::of(&mouse),
            ..plain(MOUSE, taken)
        },
        _ => plain(OTHER, taken),
    }
}

// Of the beginning of a unit, which nothing has followed for a while, or which more may follow.
fn of_rest(rest: &[u8], late: bool) -> ReadNumbers
    ensures { result ≡ read_late rest.now late }
{
    match rest {
        [0x1B] if late => of_event(1, Some(press(KeyCode::Esc, 0))),
        _ => plain(MORE, 0),
    }
}

/// What a terminal's bytes begin with; `late` says that nothing has followed them for a while.
pub fn read_first(bytes: &[u8], late: bool) -> ReadNumbers
    ensures { result ≡ read_first bytes.now late }
{
    match read_unit(bytes) {
        Some((taken, event)) => of_event(taken, event),
        None => of_rest(bytes, late),
    }
}
