//! Readers and writers that stop, fail or never end.
use std::io;
use std::io::{ErrorKind, Read, Write};

/// Gives its bytes one a read, and is interrupted at every other read.
#[derive(Drop)]
pub struct Slow<'a> {
    pub rest: &'a [u8],
    pub interrupts: bool,
}

impl Read for Slow<'_> {
    fn read(&mut self, buffer: &mut [u8]) -> io::Result<usize> {
        self.interrupts = !self.interrupts;
        if self.interrupts {
            return Err(io::Error::from(ErrorKind::Interrupted));
        }
        match self.rest {
            [byte, rest @ ..] if !buffer.is_empty() => {
                buffer[0] = *byte;
                self.rest = rest;
                Ok(1)
            }
            _ => Ok(0),
        }
    }
}

/// Gives this many bytes, one a read.
#[derive(Drop)]
pub struct Steady {
    pub left: usize,
}

impl Read for Steady {
    fn read(&mut self, buffer: &mut [u8]) -> io::Result<usize> {
        if self.left == 0 || buffer.is_empty() {
            return Ok(0);
        }
        self.left -= 1;
        buffer[0] = b'x';
        Ok(1)
    }
}

/// Gives one byte, and then fails.
#[derive(Drop)]
pub struct Broken {
    pub failed: bool,
}

impl Read for Broken {
    fn read(&mut self, buffer: &mut [u8]) -> io::Result<usize> {
        if self.failed || buffer.is_empty() {
            return Err(io::Error::from(ErrorKind::BrokenPipe));
        }
        self.failed = true;
        buffer[0] = b'x';
        Ok(1)
    }
}

/// How a writer refuses.
#[derive(Clone, Copy)]
pub enum Refusal {
    /// Each write is an error.
    Write,
    /// The flush is an error.
    Flush,
    /// Each write takes nothing.
    Nothing,
    /// Each write is interrupted.
    Interrupted,
}

/// Refuses, and counts the bytes that it has taken.
#[derive(Drop)]
pub struct Refusing {
    pub refusal: Refusal,
    pub taken: usize,
}

impl Write for Refusing {
    fn write(&mut self, bytes: &[u8]) -> io::Result<usize> {
        match self.refusal {
            Refusal::Write => Err(io::Error::from(ErrorKind::StorageFull)),
            Refusal::Interrupted => Err(io::Error::from(ErrorKind::Interrupted)),
            Refusal::Nothing => Ok(0),
            Refusal::Flush => {
                self.taken = self.taken.saturating_add(bytes.len());
                Ok(bytes.len())
            }
        }
    }

    fn flush(&mut self) -> io::Result<()> {
        match self.refusal {
            Refusal::Flush => Err(io::Error::from(ErrorKind::BrokenPipe)),
            _ => Ok(()),
        }
    }
}
