//! A sink that refuses writes and a flush.
ghost use Rattle.std.specs.Prelude.{Some};
ghost use Rattle.minus_term.specs.Counts.{tells_bytes};

use minus_term::{OutputSink, WithTty};
use std::alloc::{AllocError, Global};
use std::io;
use std::io::{ErrorKind, Write};

/// How a write is refused.
#[derive(Clone, Copy)]
pub enum Refusal {
    Broken,
    Interrupted,
    NothingTaken,
}

/// Which calls a sink refuses, by their numbers from 1; 0 names none.
#[derive(Clone, Copy)]
pub struct Refused {
    /// This write.
    pub write: usize,
    /// This many writes from that one on.
    pub writes: usize,
    /// How they are refused.
    pub refusal: Refusal,
    /// This flush.
    pub flush: usize,
}

/// Refuses nothing.
pub const NOTHING: Refused = Refused {
    write: 0,
    writes: 1,
    refusal: Refusal::Broken,
    flush: 0,
};

/// Refuses one write.
pub fn write(number: usize, refusal: Refusal) -> Refused {
    Refused {
        write: number,
        refusal,
        ..NOTHING
    }
}

/// Takes one byte a write.
#[derive(Drop)]
pub struct Stubborn {
    pub held: Vec<u8>,
    pub writes: usize,
    pub flushes: usize,
    pub refused: Refused,
}

impl Stubborn {
    /// A sink that refuses these calls, and is no terminal.
    pub fn new(alloc: Global, refused: Refused) -> Stubborn {
        Stubborn {
            held: Vec::new(alloc),
            writes: 0,
            flushes: 0,
            refused,
        }
    }

    /// A terminal that refuses these calls.
    pub fn terminal(alloc: Global, refused: Refused) -> WithTty<Stubborn> {
        WithTty::new(Stubborn::new(alloc, refused), true)
    }

    /// Whether it holds these bytes, and was asked for this many writes and flushes.
    pub fn has_taken(&self, bytes: &[u8], writes: usize, flushes: usize) -> bool {
        self.held.as_slice() == bytes && self.writes == writes && self.flushes == flushes
    }
}

impl Write for Stubborn {
    ghost contents = { λ s. Some s.held.items };

    fn write(&mut self, bytes: &[u8]) -> io::Result<usize> {
        self.writes = self.writes.saturating_add(1);
        let past = self.writes.checked_sub(self.refused.write);
        if self.refused.write > 0 && past.is_some_and(|past| past < self.refused.writes) {
            return match self.refused.refusal {
                Refusal::Broken => Err(io::Error::from(ErrorKind::BrokenPipe)),
                Refusal::Interrupted => Err(io::Error::from(ErrorKind::Interrupted)),
                Refusal::NothingTaken => Ok(0),
            };
        }
        let Some(byte) = bytes.first() else {
            return Ok(0);
        };
        match self.held.push(*byte) {
            Ok(()) => Ok(1),
            Err(failed) => Err(io::Error::from(AllocError::from(failed))),
        }
    }

    fn flush(&mut self) -> io::Result<()> {
        self.flushes = self.flushes.saturating_add(1);
        if self.flushes == self.refused.flush {
            return Err(io::Error::from(ErrorKind::BrokenPipe));
        }
        Ok(())
    }
}

impl OutputSink for Stubborn {
    ghost seen = { λ s. tells_bytes s.held.items };

    fn put(&mut self, bytes: &[u8]) -> io::Result<usize> {
        self.write(bytes)
    }

    fn settle(&mut self) -> io::Result<()> {
        self.flush()
    }

    fn is_tty(&self) -> bool {
        false
    }
}
