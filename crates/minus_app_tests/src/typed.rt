//! A fake keyboard.
use std::io;
use std::io::Read;

/// How many reads pass between two pieces that are typed, as seldom as an Esc key needs.
pub const READS: u32 = 12;

/// What types: a piece after some reads and at each twelfth one behind that, and nothing else, as a terminal in raw
/// mode does whose reads do not wait.
#[derive(Drop)]
pub struct Typed {
    pieces: &'static [&'static [u8]],
    // The place of the next one.
    at: usize,
    // How many reads pass before the next piece.
    waits: u32,
}

impl Typed {
    /// These pieces, one after another, the first one after this many reads.
    pub fn new(pieces: &'static [&'static [u8]], waits: u32) -> Typed {
        Typed {
            pieces,
            at: 0,
            waits,
        }
    }
}

impl Read for Typed {
    fn read(&mut self, buf: &mut [u8]) -> io::Result<usize> {
        if self.waits > 0 {
            self.waits -= 1;
            return Ok(0);
        }
        let pieces = self.pieces;
        let Some(piece) = pieces.get(self.at) else {
            return Ok(0);
        };
        self.at = self.at.saturating_add(1);
        self.waits = READS;
        let count = piece.len().min(buf.len());
        buf[..count].copy_from_slice(&piece[..count]);
        Ok(count)
    }
}
