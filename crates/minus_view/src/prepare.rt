//! A file's bytes as a text that a pager can show.
//!
//! Tabs become spaces up to the next column that their distance divides, and a carriage return before a newline is
//! dropped. Any other control character is shown as `^A`, and each byte of what is no character in UTF-8 as `<E4>`, in
//! reverse video as all marks; a backspace that strikes over a character aside: the same character twice is bold, and
//! one with `_` is underlined. Sequences `ESC[..m` are kept, with `:` too: styles are reset at each newline and opened
//! again behind it, and behind a mark of bytes. Any other sequence is dropped whole. Where tabs stand 8 columns apart,
//! `a\tb\r\n` becomes `a       b\n`.
//!
//! [`Preparation::add`] takes the bytes in pieces that are cut anywhere, and each text that it hands out is reset at
//! its end. It holds back the last character, since a backspace may follow, and what was begun;
//! [`Preparation::pause`] hands out the character, and [`Preparation::finish`] all of it.
ghost use Rattle.std.specs.Prelude.{ℕ, Bool, ◌≡◌, ◌++◌, ◌≤◌, ◌<◌, [], true, false, length, string_bytes, IfOk, IfErr};
ghost use Rattle.std.specs.List.{prefix_len};
ghost use Rattle.minus_view.specs.Shown.{is_plain, IsShown};
ghost use Rattle.minus_view.specs.Prepared.{glyph_bytes, held, IsAt, IsPlain, IsPlainAt, PlainTextStays};
ghost use Rattle.minus_view.specs.TabColumns.{apart};
ghost use Rattle.minus_view.specs.Prepared.{HandsOut, HandsOutHeld, TakesAll, TakesFront};

mod begun;
mod bytes;
mod characters;
mod sequences;
mod tab_columns;

use self::begun::Begun;
use crate::look::{Glyph, Look};
use crate::sheet::Sheet;
pub(crate) use characters::columns;
use std::alloc::{AllocError, Global};

// What the next byte stands in.
#[derive(Clone, Copy)]
enum Place {
    Text,
    // Behind a carriage return.
    Returned,
    // A character of several bytes: its code so far, the least that it may be, how many bytes are to come, and those
    // that have come.
    Character {
        code: u32,
        least: u32,
        left: u8,
        begun: Begun,
    },
    Escape,
    // `ESC[` and its numbers.
    Numbers,
    // A sequence that sets no style, up to its last byte.
    Sequence,
    // A sequence with a text, up to its end.
    Command,
    // Behind an `ESC` in such a text.
    CommandEscape,
    // A command that may open a link, or end one, and behind an `ESC` in it.
    Link,
    LinkEscape,
    // A sequence with bytes 0x20 to 0x2F before its last byte.
    Designation,
}

/// How a text is laid out.
#[derive(Clone, Copy, PartialEq, Eq)]
pub struct Shape {
    /// How far tabs stand apart, in columns: from 1 to 65535; any other number stands for the nearest of these.
    pub tabs: usize,
    /// Whether one empty line is shown for several that follow one another.
    pub squeezes: bool,
    /// Whether the spaces that stand for a tab stand between marks, for [`crate::take_marks`].
    pub marks_tabs: bool,
    /// Whether links (`ESC]8;..`) are kept, as sequences that a writer of `minus_app` turns into links again.
    pub links: bool,
}

/// What is prepared, as far as it was read.
#[derive(Drop)]
pub struct Preparation {
    shape: Shape,
    // What is ready.
    sheet: Sheet,
    place: Place,
    // The columns of the line before the held character.
    column: usize,
    held: Option<Glyph>,
    // Whether the next character strikes over the held one.
    is_back: bool,
    // How the last character on the sheet was struck.
    look: Look,
    // The sequence that is read, and those that hold.
    sequence: String,
    colours: String,
    // The sequence of the link that is open.
    link: String,
    // Whether the colours hold at the end of the sheet.
    is_open: bool,
    // Whether nothing was put in the line, and whether the line before it is empty.
    is_blank: bool,
    is_behind_blank: bool,
}

// How many bytes at the front are printed ASCII, or newlines where these are allowed.
fn plain_len(newlines: bool, bytes: &[u8]) -> usize
    ensures is { result ≡ prefix_len (is_plain newlines) bytes.now }
    ensures within { result ≤ length bytes.now }
{
    for (at, byte) in bytes.iter().enumerate() {
        match *byte {
            0x20..=0x7E => (),
            b'\n' if newlines => (),
            _ => return at,
        }
    }
    bytes.len()
}

impl Preparation {
    /// A preparation that has read nothing: tabs stand 8 columns apart, and all lines are shown.
    pub fn new(alloc: Global) -> Preparation
        ensures plain { IsPlainAt false 8 0 result }
        ensures held { held result ≡ [] }
    {
        Preparation::with(
            alloc,
            Shape {
                tabs: 8,
                squeezes: false,
                marks_tabs: false,
                links: false,
            },
        )
    }

    /// A preparation of a text in this shape that has read nothing.
    pub fn with(alloc: Global, shape: Shape) -> Preparation
        ensures plain { shape.squeezes ≡ false → IsPlainAt shape.marks_tabs (apart shape) 0 result }
        ensures held { held result ≡ [] }
        ensures shape { result.shape ≡ shape }
    {
        Preparation {
            shape,
            sheet: Sheet::new(alloc),
            place: Place::Text,
            column: 0,
            held: None,
            is_back: false,
            look: Look::Plain,
            sequence: String::new(alloc),
            colours: String::new(alloc),
            link: String::new(alloc),
            is_open: false,
            is_blank: true,
            is_behind_blank: false,
        }
    }

    // Whether nothing is begun.
    fn is_plain(&self) -> bool
        ensures only { result ≡ true → IsPlain self.now }
        ensures all { IsPlain self.now → result ≡ true }
    {
        self.is_text()
            && matches!(self.look, Look::Plain)
            && self.colours.is_empty()
            && self.link.is_empty()
            && !self.sheet.is_styled()
            && self.holds_plain()
            && !self.shape.squeezes
    }

    // Takes bytes at the front, and answers how many they are.
    fn step(&mut self, bytes: &[u8]) -> Result<usize, AllocError>
        requires { 0 < length bytes.now }
        ensures within { IfOk result (λ n. n ≤ length bytes.now) }
        ensures some { IfOk result (λ n. 0 < n) }
        ensures text { IfOk result (λ n. TakesFront self.old self.new bytes.now n) }
    {
        if self.is_text() {
            if bytes[0] == b'\t' {
                self.tab()?;
                return Ok(1);
            }
            let newlines = self.is_plain();
            let run = plain_len(newlines, bytes);
            if 0 < run {
                self.run(newlines, &bytes[..run])?;
                return Ok(run);
            }
        }
        self.byte(bytes[0])?;
        Ok(1)
    }

    // Takes the bytes.
    fn take(&mut self, bytes: &[u8]) -> Result<(), AllocError>
        ensures text { IfOk result (λ _. TakesAll self.old self.new bytes.now) }
    {
        let mut rest = bytes;
        while !rest.is_empty() {
            let taken = self.step(rest)?;
            rest = &rest[taken..];
        }
        Ok(())
    }

    // Hands out what is ready, with a reset at its end.
    fn hand_out(&mut self, out: &mut String) -> Result<(), AllocError>
        ensures shown { IsShown (string_bytes out.old) → IsShown (string_bytes out.new) }
        ensures kept { IfErr result (λ _. string_bytes out.new ≡ string_bytes out.old) }
        ensures glyph { IfOk result (λ _. held self.new ≡ glyph_bytes self.old.held) }
        ensures waits { IfOk result (λ _. length (held self.new) ≤ 4) }
        ensures column { (marks : Bool) (tabs col : ℕ)
            → IsAt marks tabs col self.old → IsAt marks tabs col self.new }
        ensures plain { IfOk result (λ _. IsPlain self.old
            → IsPlain self.new × (string_bytes out.new ++ held self.new ≡ string_bytes out.old ++ held self.old)) }
    {
        self.sheet.close()?;
        self.look = Look::Plain;
        self.is_open = false;
        out.push_str(self.sheet.text())?;
        self.sheet.clear();
        Ok(())
    }

    /// Adds the text of these bytes, but what is held back.
    ///
    /// # Errors
    ///
    /// [`AllocError`] where there is no memory: the text stays as it was. What was prepared of the bytes by then is
    /// handed out by the next call, and the rest of them is lost.
    pub fn add(&mut self, out: &mut String, bytes: &[u8]) -> Result<(), AllocError>
        ensures shown { IsShown (string_bytes out.old) → IsShown (string_bytes out.new) }
        ensures kept { IfErr result (λ _. string_bytes out.new ≡ string_bytes out.old) }
        ensures waits { IfOk result (λ _. length (held self.new) ≤ 4) }
        ensures plain { IfOk result (λ _.
            HandsOut self.old self.new bytes.now (string_bytes out.old) (string_bytes out.new)) }
    {
        self.take(bytes)?;
        self.hand_out(out)
    }

    /// Adds the held character, where no bytes come for now. A backspace that comes next strikes over nothing.
    ///
    /// # Errors
    ///
    /// [`AllocError`] where there is no memory: the text stays as it was.
    pub fn pause(&mut self, out: &mut String) -> Result<(), AllocError>
        ensures shown { IsShown (string_bytes out.old) → IsShown (string_bytes out.new) }
        ensures kept { IfErr result (λ _. string_bytes out.new ≡ string_bytes out.old) }
        ensures empty { IfOk result (λ _. held self.new ≡ []) }
        ensures plain { IfOk result (λ _.
            HandsOutHeld self.old self.new (string_bytes out.old) (string_bytes out.new)) }
    {
        self.release()?;
        self.hand_out(out)?;
        Ok(())
    }

    /// Adds the held character and what was begun, at the end of the bytes: the bytes of a character that is cut are
    /// `<E4>`, a carriage return is `^M`, and a sequence that is cut is dropped.
    ///
    /// # Errors
    ///
    /// [`AllocError`] where there is no memory: the text stays as it was.
    pub fn finish(&mut self, out: &mut String) -> Result<(), AllocError>
        ensures shown { IsShown (string_bytes out.old) → IsShown (string_bytes out.new) }
        ensures kept { IfErr result (λ _. string_bytes out.new ≡ string_bytes out.old) }
        ensures empty { IfOk result (λ _. held self.new ≡ []) }
        ensures plain { IfOk result (λ _.
            HandsOutHeld self.old self.new (string_bytes out.old) (string_bytes out.new)) }
    {
        self.end()?;
        self.pause(out)
    }
}

/// A law: printed ASCII characters and newlines stay as they are.
pub fn plain_text_stays()
    ensures { PlainTextStays }
{}
