//! Sequences: those that set styles are kept, and links where these are asked for; all others are dropped.
use super::{Place, Preparation};
use crate::look::Look;
use std::alloc::AllocError;

/// The longest sequence that is kept, in bytes.
const MOST_SEQUENCE: usize = 64;

/// The most that is kept of the sequences that hold, in bytes: behind that, the oldest are forgotten.
const MOST_COLOURS: usize = 256;

/// The longest command that opens a link, in bytes.
const MOST_LINK: usize = 1024;

// What the command that opens a link, or ends one, links to: nothing where it ends one. `None` for any other command.
fn linked(command: &str) -> Option<&str> {
    let (_, link) = command.strip_prefix("8;")?.split_once(';')?;
    Some(link)
}

impl Preparation {
    // A byte behind `ESC`.
    pub(super) fn after_escape(&mut self, byte: u8) -> Result<(), AllocError> {
        match byte {
            b'[' => {
                self.sequence.clear();
                self.sequence.push_str("\x1b[")?;
                self.place = Place::Numbers;
            }
            b']' if self.shape.links => {
                self.sequence.clear();
                self.place = Place::Link;
            }
            b']' | b'P' | b'X' | b'^' | b'_' => self.place = Place::Command,
            0x20..=0x2F => self.place = Place::Designation,
            0x30..=0x7E => self.place = Place::Text,
            _ => return self.first(byte),
        }
        Ok(())
    }

    // A byte among the numbers of `ESC[`.
    pub(super) fn in_numbers(&mut self, byte: u8) -> Result<(), AllocError> {
        match byte {
            b'0'..=b';' if self.sequence.len() < MOST_SEQUENCE => {
                self.sequence.push(char::from(byte))
            }
            b'm' => {
                self.place = Place::Text;
                self.sequence.push('m')?;
                self.style()
            }
            _ => self.in_sequence(byte),
        }
    }

    // A byte in a sequence that sets no style.
    pub(super) fn in_sequence(&mut self, byte: u8) -> Result<(), AllocError> {
        match byte {
            0x20..=0x3F => self.place = Place::Sequence,
            0x40..=0x7E => self.place = Place::Text,
            _ => return self.first(byte),
        }
        Ok(())
    }

    // A byte in a sequence with a text, which ends at a bell, at `ESC \` and at a newline.
    pub(super) fn in_command(&mut self, byte: u8) -> Result<(), AllocError> {
        match byte {
            b'\n' => return self.first(byte),
            7 => self.place = Place::Text,
            0x1B => self.place = Place::CommandEscape,
            _ => (),
        }
        Ok(())
    }

    // A byte behind an `ESC` in such a text.
    pub(super) fn after_command(&mut self, byte: u8) -> Result<(), AllocError> {
        if byte == b'\\' {
            self.place = Place::Text;
            return Ok(());
        }
        self.after_escape(byte)
    }

    // A byte in a command that may open a link, or end one.
    pub(super) fn in_link(&mut self, byte: u8) -> Result<(), AllocError> {
        match byte {
            b'\n' => return self.first(byte),
            7 => {
                self.place = Place::Text;
                return self.turn_link();
            }
            0x1B => self.place = Place::LinkEscape,
            0x21..=0x7E if self.sequence.len() < MOST_LINK => self.sequence.push(char::from(byte))?,
            _ => {
                self.place = Place::Command;
                if self.sequence.starts_with("8;") {
                    self.end_link()?;
                }
            }
        }
        Ok(())
    }

    // A byte behind an `ESC` in such a command.
    pub(super) fn after_link(&mut self, byte: u8) -> Result<(), AllocError> {
        if byte == b'\\' {
            self.place = Place::Text;
            return self.turn_link();
        }
        self.after_escape(byte)
    }

    // Ends the link that is open: what follows begins again behind a reset.
    fn end_link(&mut self) -> Result<(), AllocError> {
        self.release()?;
        if !self.link.is_empty() {
            self.link.clear();
            self.look = Look::Plain;
            self.is_open = false;
            self.sheet.close()?;
        }
        Ok(())
    }

    // Opens the link of the command that was read, or ends the one that is open.
    fn turn_link(&mut self) -> Result<(), AllocError> {
        if linked(self.sequence.as_str()).is_none() {
            return Ok(());
        }
        self.end_link()?;
        if let Some(link) = linked(self.sequence.as_str()) {
            if !link.is_empty() {
                self.is_open = false;
                self.link.push_str("\x1b[;")?;
                for byte in link.bytes() {
                    self.link.push(';')?;
                    self.link.push(char::from(b'0' + byte / 100))?;
                    self.link.push(char::from(b'0' + byte / 10 % 10))?;
                    self.link.push(char::from(b'0' + byte % 10))?;
                }
                self.link.push('m')?;
            }
        }
        Ok(())
    }

    // A byte in a sequence with bytes 0x20 to 0x2F before its last one.
    pub(super) fn in_designation(&mut self, byte: u8) -> Result<(), AllocError> {
        match byte {
            0x20..=0x2F => (),
            0x30..=0x7E => self.place = Place::Text,
            _ => return self.first(byte),
        }
        Ok(())
    }

    // The sequence that was read sets styles, or resets them.
    fn style(&mut self) -> Result<(), AllocError> {
        self.release()?;
        let sequence = self.sequence.as_str();
        if matches!(sequence, "\x1b[m" | "\x1b[0m" | "\x1b[00m") {
            self.colours.clear();
            self.look = Look::Plain;
            self.is_open = false;
            return self.sheet.close();
        }
        // (which would be taken for the mark of a tab, or for a link)
        if sequence == "\x1b[:m" || self.shape.links && sequence.starts_with("\x1b[;;") {
            return Ok(());
        }
        let resets = sequence.starts_with("\x1b[0;");
        if resets || self.colours.len() > MOST_COLOURS {
            self.colours.clear();
        }
        self.colours.push_str(sequence)?;
        if self.is_open {
            self.sheet.put(sequence)?;
            if resets {
                self.look = Look::Plain;
            }
        }
        Ok(())
    }
}
