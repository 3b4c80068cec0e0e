//! Characters on their way to the sheet.
ghost use Rattle.std.specs.Prelude.{ℕ, Bool, ◌≡◌, ◌+◌, ◌≤◌, ◌++◌, [], true, false, string_bytes, IfOk, None};
ghost use Rattle.std.specs.List.{list_all};
ghost use Rattle.minus_view.specs.Shown.{is_plain};
ghost use Rattle.minus_view.specs.Prepared.{char_columns, held, IsAt, IsPlain, IsPlainGlyph};
ghost use Rattle.minus_view.specs.TabColumns.{apart, column_after, IsColumnAfter};
ghost use Rattle.minus_view.specs.declared.prepare.Place.TheVariants.{Text};

use super::tab_columns::{apart, column_after};
use super::{Place, Preparation};
use crate::look::{Glyph, Look, struck, turn};
use crate::sheet::RESET;
use crate::shown::is_control;
use std::alloc::AllocError;
use unicode_width::UnicodeWidthChar;

/// The columns of a character.
pub(crate) fn columns(c: char) -> usize
    ensures is { result ≡ char_columns c }
    ensures few { result ≤ 3 }
{
    match c.width() {
        Some(columns) => columns,
        None => 0,
    }
}

// A hexadecimal digit.
fn digit(value: u8) -> char {
    match value {
        0..=9 => char::from(b'0' + value),
        10..=15 => char::from(b'A' - 10 + value),
        _ => '?',
    }
}

// ASCII characters as a text.
fn as_text(newlines: bool, bytes: &[u8]) -> &str
    requires { list_all (is_plain newlines) bytes.now ≡ true }
    ensures { result.now ≡ bytes.now }
{
    match str::from_utf8(bytes) {
        Ok(text) => text,
        Err(_) => "",
    }
}

impl Preparation {
    // Whether the next byte begins something, and strikes over nothing.
    pub(super) fn is_text(&self) -> bool
        ensures only { result ≡ true → (self.now.place ≡ Text) × (self.now.is_back ≡ false) }
        ensures all { self.now.place ≡ Text → self.now.is_back ≡ false → result ≡ true }
    {
        matches!(self.place, Place::Text) && !self.is_back
    }

    // Whether the held character, if there is one, was printed once.
    pub(super) fn holds_plain(&self) -> bool
        ensures only { result ≡ true → IsPlainGlyph self.now.held }
        ensures all { IsPlainGlyph self.now.held → result ≡ true }
    {
        match self.held {
            Some(Glyph { c, look }) => matches!(look, Look::Plain) && !is_control(c),
            None => true,
        }
    }

    // Ends a mark where colours hold: they are opened again, since they may reverse too.
    fn end_mark(&mut self) -> Result<(), AllocError>
        ensures held { self.new.held ≡ self.old.held }
        ensures column { self.new.column ≡ self.old.column }
        ensures shape { self.new.shape ≡ self.old.shape }
        ensures kept { string_bytes self.old.colours ≡ [] → self.new ≡ self.old }
    {
        if matches!(self.look, Look::Reversed) && !self.colours.is_empty() {
            self.sheet.put(turn(Look::Reversed, Look::Plain))?;
            self.sheet.put(self.colours.as_str())?;
            self.look = Look::Plain;
        }
        Ok(())
    }

    // Opens what holds for a character of this look.
    pub(super) fn open(&mut self, look: Look) -> Result<(), AllocError>
        ensures held { self.new.held ≡ self.old.held }
        ensures column { self.new.column ≡ self.old.column }
        ensures shape { self.new.shape ≡ self.old.shape }
        ensures kept { string_bytes self.old.colours ≡ [] → string_bytes self.old.link ≡ []
            → self.old.look ≡ look → self.new ≡ self.old }
    {
        if !self.is_open && !(self.colours.is_empty() && self.link.is_empty()) {
            self.sheet.put(self.link.as_str())?;
            self.sheet.put(self.colours.as_str())?;
            self.is_open = true;
        }
        if self.look == look {
            return Ok(());
        }
        self.end_mark()?;
        let sequence = if matches!(look, Look::Plain)
            && self.colours.is_empty()
            && self.link.is_empty()
        {
            RESET
        } else {
            turn(self.look, look)
        };
        self.sheet.put(sequence)?;
        self.look = look;
        Ok(())
    }

    // Puts the held character on the sheet.
    pub(super) fn release(&mut self) -> Result<(), AllocError>
        ensures none { IfOk result (λ _. self.new.held ≡ None) }
        ensures plain { IfOk result (λ _. IsPlain self.old → IsPlain self.new × (held self.new ≡ held self.old)) }
        ensures column { IfOk result (λ _. (marks : Bool) (tabs col : ℕ) → IsAt marks tabs col self.old
            → IsAt marks tabs col self.new) }
    {
        self.is_back = false;
        if let Some(glyph) = self.held {
            self.open(glyph.look)?;
            self.sheet.put_char(glyph.c)?;
            self.held = None;
            self.is_blank = false;
            self.column = self.column % apart(self.shape) + columns(glyph.c);
        }
        Ok(())
    }

    // A character: it strikes over the held one, or is held in its place.
    pub(super) fn character(&mut self, c: char) -> Result<(), AllocError> {
        match self.held {
            Some(under) if self.is_back => {
                self.is_back = false;
                self.held = Some(struck(under, c));
            }
            _ => {
                self.release()?;
                self.held = Some(Glyph {
                    c,
                    look: Look::Plain,
                });
            }
        }
        Ok(())
    }

    // Puts printed ASCII characters on the sheet, and newlines where nothing is begun.
    fn put_plain(&mut self, newlines: bool, bytes: &[u8]) -> Result<(), AllocError>
        requires printed { list_all (is_plain newlines) bytes.now ≡ true }
        requires begun { newlines ≡ true → IsPlain self.old }
        ensures held { self.new.held ≡ self.old.held }
        ensures plain { IfOk result (λ _. newlines ≡ true → IsPlain self.new
            × (string_bytes self.new.sheet.text ≡ string_bytes self.old.sheet.text ++ bytes.now)) }
        ensures shape { self.new.shape ≡ self.old.shape }
        ensures column { IfOk result (λ _.
            IsColumnAfter (apart self.old.shape) self.old.column bytes.now self.new.column) }
    {
        if !bytes.is_empty() {
            self.open(Look::Plain)?;
            self.sheet.put_plain(newlines, as_text(newlines, bytes))?;
            self.is_blank = false;
            self.column = column_after(apart(self.shape), self.column, bytes);
        }
        Ok(())
    }

    // Printed ASCII characters, and newlines where nothing is begun, all at once: a character at their end is held.
    pub(super) fn run(&mut self, newlines: bool, bytes: &[u8]) -> Result<(), AllocError>
        requires printed { list_all (is_plain newlines) bytes.now ≡ true }
        requires begun { newlines ≡ true → IsPlain self.old }
        ensures plain { IfOk result (λ _. newlines ≡ true
            → IsPlain self.new × (held self.new ≡ held self.old ++ bytes.now)) }
        ensures column { IfOk result (λ _. (marks : Bool) (tabs col : ℕ) → IsAt marks tabs col self.old
            → IsAt marks tabs (column_after tabs col bytes.now) self.new) }
    {
        self.release()?;
        match bytes.split_last() {
            Some((last, front)) if *last != b'\n' => {
                self.put_plain(newlines, front)?;
                self.held = Some(Glyph {
                    c: char::from(*last),
                    look: Look::Plain,
                });
            }
            _ => self.put_plain(newlines, bytes)?,
        }
        Ok(())
    }

    // A character of a mark of bytes that are no text.
    fn mark(&mut self, c: char) -> Result<(), AllocError> {
        self.release()?;
        self.held = Some(Glyph {
            c,
            look: Look::Reversed,
        });
        Ok(())
    }

    // A control character, shown.
    pub(super) fn control(&mut self, byte: u8) -> Result<(), AllocError> {
        self.mark('^')?;
        self.mark(char::from((byte ^ 0x40) & 0x7F))
    }

    // A byte that belongs to no character, shown.
    pub(super) fn stray(&mut self, byte: u8) -> Result<(), AllocError> {
        self.mark('<')?;
        self.mark(digit(byte / 16))?;
        self.mark(digit(byte % 16))?;
        self.mark('>')
    }

    // The end of a line.
    pub(super) fn newline(&mut self) -> Result<(), AllocError> {
        self.release()?;
        if self.shape.squeezes && self.is_blank && self.is_behind_blank {
            return Ok(());
        }
        self.is_behind_blank = self.is_blank;
        self.is_blank = true;
        self.sheet.put_newline()?;
        self.look = Look::Plain;
        self.is_open = false;
        self.column = 0;
        Ok(())
    }
}
