//! The bytes of a character that has begun.

/// This many bytes, from the first on.
#[derive(Clone, Copy)]
pub(super) struct Begun {
    bytes: [u8; 4],
    len: usize,
}

impl Begun {
    /// One byte.
    pub(super) fn new(byte: u8) -> Begun {
        Begun {
            bytes: [byte, 0, 0, 0],
            len: 1,
        }
    }

    /// One byte more, of at most four.
    pub(super) fn with(self, byte: u8) -> Begun {
        let mut bytes = self.bytes;
        let mut len = self.len;
        if let Some(free) = bytes.get_mut(len) {
            *free = byte;
            len += 1;
        }
        Begun { bytes, len }
    }

    /// The byte at a place, if there is one.
    pub(super) fn at(&self, place: usize) -> Option<u8> {
        if place < self.len {
            self.bytes.get(place).copied()
        } else {
            None
        }
    }
}
