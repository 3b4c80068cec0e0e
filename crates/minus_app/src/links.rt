//! A writer that turns the links of a prepared text into those of a terminal.
use std::alloc::{AllocError, Global};
use std::io::{self, ErrorKind, Write};

/// The longest sequence that is looked at, in bytes; a longer one is written as it is.
const MOST: usize = 8192;

/// What ends a link.
const END: &[u8] = b"\x1b]8;;\x1b\\";

/// A writer before another one, which gets what is written to it, with links: a sequence of a link, as a
/// [`minus_view::Preparation`] with `links` makes them, opens it (`ESC]8;;..`), and the next reset ends it. One that is
/// no such link is dropped; all other bytes stay.
#[derive(Drop)]
pub struct Links<W> {
    inner: W,
    // What the inner writer is to get next, and how much of that it has.
    ready: Vec<u8>,
    written: usize,
    // The sequence that has begun.
    begun: Vec<u8>,
    // Whether a link is open.
    is_open: bool,
}

// Whether a sequence resets all styles.
fn is_reset(sequence: &[u8]) -> bool {
    matches!(sequence, [0x1B, b'[', b'm'] | [0x1B, b'[', b'0', b'm'])
}

// The digits of what a sequence links to, in threes; nothing where it is none that links.
fn linked(sequence: &[u8]) -> Option<&[u8]> {
    match sequence {
        [0x1B, b'[', b';', b';', digits @ .., b'm'] => Some(digits),
        _ => None,
    }
}

// The value of a digit.
fn digit(byte: u8) -> Option<u8> {
    match byte {
        b'0'..=b'9' => Some(byte - b'0'),
        _ => None,
    }
}

// The byte of a link that three digits stand for.
fn byte_of(digits: &[u8]) -> Option<u8> {
    let [first, second, third] = digits else {
        return None;
    };
    let value = u16::from(digit(*first)?) * 100
        + u16::from(digit(*second)?) * 10
        + u16::from(digit(*third)?);
    match value {
        0x21..=0x7E => Some(value as u8),
        _ => None,
    }
}

impl<W> Links<W> {
    /// A writer that has got nothing.
    pub fn new(alloc: Global, inner: W) -> Links<W> {
        Links {
            inner,
            ready: Vec::new(alloc),
            written: 0,
            begun: Vec::new(alloc),
            is_open: false,
        }
    }

    // Makes bytes ready.
    fn put(&mut self, bytes: &[u8]) -> Result<(), AllocError> {
        self.ready.extend_from_slice(bytes)?;
        Ok(())
    }

    // The sequence that has begun goes on as it is.
    fn pass(&mut self) -> Result<(), AllocError> {
        self.ready.extend_from_slice(self.begun.as_slice())?;
        self.begun.clear();
        Ok(())
    }

    // Makes what the sequence links to ready, and answers whether it links to something.
    fn put_link(&mut self) -> Result<bool, AllocError> {
        let Some(digits) = linked(self.begun.as_slice()) else {
            return Ok(false);
        };
        for number in digits.split(|byte| *byte == b';') {
            let Some(byte) = byte_of(number) else {
                return Ok(false);
            };
            self.ready.push(byte)?;
        }
        Ok(true)
    }

    // Opens the link of the sequence that was read.
    fn open(&mut self) -> Result<(), AllocError> {
        let before = self.ready.len();
        self.put(b"\x1b]8;;")?;
        if self.put_link()? {
            self.is_open = true;
            self.put(b"\x1b\\")?;
        } else {
            self.ready.truncate(before);
        }
        self.begun.clear();
        Ok(())
    }

    // Ends the sequence that was read.
    fn end(&mut self) -> Result<(), AllocError> {
        if linked(self.begun.as_slice()).is_some() {
            return self.open();
        }
        if self.is_open && is_reset(self.begun.as_slice()) {
            self.is_open = false;
            self.put(END)?;
        }
        self.pass()
    }

    // Takes a byte. Room for all that it may lead to comes first, so that one that is refused was not taken.
    fn take(&mut self, byte: u8) -> Result<(), AllocError> {
        self.begun.reserve(1)?;
        self.ready
            .reserve(self.begun.len().saturating_add(END.len() + 1))?;
        if byte == 0x1B {
            self.pass()?;
        } else if self.begun.is_empty() {
            self.ready.push(byte)?;
            return Ok(());
        }
        self.begun.push(byte)?;
        let len = self.begun.len();
        match byte {
            0x1B => Ok(()),
            b'[' if len == 2 => Ok(()),
            b'0'..=b';' if len > 2 && len < MOST => Ok(()),
            b'm' if len > 2 => self.end(),
            _ => self.pass(),
        }
    }
}

impl<W: Write> Links<W> {
    // Writes what is ready: each turn writes a byte or more of it.
    fn hand_on(&mut self) -> io::Result<()> {
        for _turn in 0..self.ready.len() {
            let Some(rest) = self.ready.get(self.written..) else {
                break;
            };
            if rest.is_empty() {
                break;
            }
            let count = self.inner.write(rest)?;
            if count == 0 {
                return Err(io::Error::from(ErrorKind::WriteZero));
            }
            self.written = self.written.saturating_add(count);
        }
        self.ready.clear();
        self.written = 0;
        Ok(())
    }
}

impl<W: Write> Write for Links<W> {
    // What the inner writer does not take at once, it gets before the next bytes, or as this one is flushed.
    fn write(&mut self, bytes: &[u8]) -> io::Result<usize> {
        self.hand_on()?;
        for (taken, byte) in bytes.iter().enumerate() {
            if let Err(cause) = self.take(*byte) {
                if taken == 0 {
                    return Err(io::Error::from(cause));
                }
                return Ok(taken);
            }
        }
        let _ = self.hand_on();
        Ok(bytes.len())
    }

    fn flush(&mut self) -> io::Result<()> {
        self.hand_on()?;
        self.inner.flush()
    }
}
