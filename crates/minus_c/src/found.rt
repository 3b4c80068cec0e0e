//! A number or a text that may not be there.
use crate::room::put_bytes;

/// A number or a text that may not be there.
#[repr(C)]
#[derive(Clone, Copy, Drop)]
pub struct Found {
    /// The number of the refusal; 0 where it was looked for.
    pub refusal: u8,
    /// Whether it is there.
    pub is_there: bool,
    /// The number, or the length of the text in bytes; 0 where it is not there.
    pub value: usize,
}

impl Found {
    ghost use Rattle.std.specs.Prelude.{◌≡◌, option_map};
    ghost use Rattle.minus_c.specs.Rooms.{found_nothing, found_value, found_number, IsPutIf};

    /// It was not looked for.
    pub fn refusing(refusal: u8) -> Found
        ensures { result ≡ found_nothing refusal }
    {
        Found {
            refusal,
            is_there: false,
            value: 0,
        }
    }

    /// It is not there.
    pub fn nothing() -> Found
        ensures { result ≡ found_nothing 0 }
    {
        Found::refusing(0)
    }

    /// It is there.
    pub fn value(value: usize) -> Found
        ensures { result ≡ found_value value }
    {
        Found {
            refusal: 0,
            is_there: true,
            value,
        }
    }

    /// The text, if there is one, where there is room for it.
    pub fn put(text: Option<&str>, room: &mut [u8]) -> Found
        ensures { IsPutIf (option_map (λ t. t.now) text.entry) room.old room.new result }
    {
        match text {
            Some(text) => Found::value(put_bytes(room, text.as_bytes())),
            None => Found::nothing(),
        }
    }

    /// The number, if there is one.
    pub fn of(number: Option<usize>) -> Found
        ensures { result ≡ found_number number }
    {
        match number {
            Some(number) => Found::value(number),
            None => Found::nothing(),
        }
    }
}
