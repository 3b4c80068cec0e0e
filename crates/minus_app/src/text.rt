//! Ready texts: one that is given whole, that of a file as it grows, and that of standard input.
//!
//! 1. A piece of bytes is read, 64 KiB at most at a time.
//! 2. It is prepared by `minus_view`: control characters are shown, tabs and overstrikes are laid out.
//! 3. What is whole of it is fed; a character that was read in part waits for the next piece.
//!
//! So the bytes `a`, tab and `b` are fed as `a`, seven blanks and `b`.
ghost use Rattle.std.specs.Prelude.{◌≡◌};

use crate::app::{AHEAD, App, Fed, NoAct};
use crate::fault::Fault;
use crate::hand_on::{hand_on_bytes, hand_on_text};
use crate::launch::Launch;
use crate::prompt::Notice;
use minus_view::{Preparation, Shape};
use std::alloc::{AllocError, Global};
use std::fs::File;
use std::io::{self, ErrorKind, Read, Stdin};
use std::os::unix::fs::MetadataExt;

/// How many bytes of the text are read at once, at most.
const PIECE: usize = 65_536;

/// Whether a read that failed so is to be tried again later.
pub fn is_nothing_now(kind: ErrorKind) -> bool {
    kind == ErrorKind::Interrupted || kind == ErrorKind::WouldBlock
}

// Where the text comes from.
#[derive(Drop)]
enum Origin {
    // It is given whole; nothing once it is handed out.
    Fixed(Option<String>),
    File(File),
    // The launcher has set it so that a read does not wait.
    Standard(Stdin),
}

// What a read of the text found.
#[derive(Clone, Copy, PartialEq, Eq)]
enum Found {
    Bytes(usize),
    // There may be more later.
    NothingNow,
    // A file was read to its end, and may grow.
    EndForNow,
    // Whoever wrote the text has ended.
    End,
}

impl Origin {
    fn read(&mut self, bytes: &mut [u8]) -> io::Result<Found> {
        let read = match self {
            Origin::Fixed(_) => Ok(0),
            Origin::File(file) => file.read(bytes),
            Origin::Standard(input) => input.read(bytes),
        };
        match read {
            Ok(0) if matches!(self, Origin::File(_)) => Ok(Found::EndForNow),
            Ok(0) => Ok(Found::End),
            Ok(count) => Ok(Found::Bytes(count)),
            Err(cause) if is_nothing_now(cause.kind()) => Ok(Found::NothingNow),
            Err(cause) => Err(cause),
        }
    }

    // The length in bytes, where it is known.
    fn len(&self) -> Option<u64> {
        match self {
            Origin::File(file) => match file.metadata() {
                Ok(metadata) => Some(metadata.len()),
                Err(_) => None,
            },
            Origin::Fixed(_) | Origin::Standard(_) => None,
        }
    }
}

/// A ready text, as far as it was read: an application without keys of its own.
pub struct Text {
    title: String,
    origin: Origin,
    is_followed: bool,
    marks_tabs: bool,
    preparation: Preparation,
    piece: Vec<u8>,
    // The path of a file.
    path: Option<String>,
    // Its device and its number there.
    id: Option<(u64, u64)>,
    // The length that the file had when it was looked at last, in bytes.
    longest: u64,
    // Whether the file is shorter than it was, and nothing came since.
    is_cut: bool,
    // How many bytes were read.
    read: u64,
    // Whether nothing came since what was begun was handed out.
    is_paused: bool,
}

// Hand-written: a derived drop would stand again in the proof of each function that lets one go.
impl Drop for Text {
    fn drop(self) {
        let Text {
            title: _,
            origin: _,
            is_followed: _,
            marks_tabs: _,
            preparation: _,
            piece: _,
            path: _,
            id: _,
            longest: _,
            is_cut: _,
            read: _,
            is_paused: _,
        } = self;
    }
}

impl Text {
    ghost use Rattle.std.specs.Prelude.{Some, string_bytes, IfOk};
    ghost use Rattle.minus_app.specs.Texts.{left_in};

    // A text of which this many bytes are read at once, at most.
    fn of(alloc: Global, origin: Origin, title: &str, piece: usize) -> Result<Text, AllocError>
        ensures { IfOk result (λ text. text.origin ≡ origin) }
    {
        Ok(Text {
            title: String::from_str(alloc, title)?,
            origin,
            is_followed: false,
            marks_tabs: false,
            preparation: Preparation::new(alloc),
            piece: vec![in alloc; 0; piece]?,
            path: None,
            id: None,
            longest: 0,
            is_cut: false,
            read: 0,
            is_paused: true,
        })
    }

    /// A text that is given whole, under a title. It is shown as it is: it is to have no control character but newline
    /// and `ESC[..m`.
    ///
    /// # Errors
    ///
    /// [`Fault::Pager`] where there is no memory.
    pub fn fixed(alloc: Global, text: String, title: &str) -> Result<Text, Fault>
        ensures { IfOk result (λ fixed. left_in fixed ≡ Some (string_bytes text)) }
    {
        Ok(Text::of(alloc, Origin::Fixed(Some(text)), title, 0)?)
    }

    /// The text of standard input, under a title, read as it comes. The launcher has set it so that a read does not
    /// wait; it is asked for it here, and before that leaves a pipe to others.
    ///
    /// # Errors
    ///
    /// [`Fault::Io`] where the launcher cannot be asked, and [`Fault::Pager`] where there is no memory.
    pub fn stdin(rt: &HostRuntime, title: &str) -> Result<Text, Fault> {
        if Launch::read(rt)?.is_some() {
            rt.eprintln("input")?;
        }
        Ok(Text::of(rt.alloc(), Origin::Standard(rt.stdin()), title, PIECE)?)
    }

    /// The text of the file at a path, under a title, read on as it grows. Where the file is cut, or another one gets
    /// its name, that is read from its beginning, behind what was read. The file is one whose reads do not wait, which
    /// a pipe or a device is not.
    ///
    /// # Errors
    ///
    /// [`Fault::Io`] where it cannot be opened, and [`Fault::Pager`] where there is no memory.
    pub fn file(rt: &HostRuntime, path: &str, title: &str) -> Result<Text, Fault> {
        let file = File::open(rt, path)?;
        let metadata = file.metadata()?;
        let mut text = Text::of(rt.alloc(), Origin::File(file), title, PIECE)?;
        text.path = Some(String::from_str(rt.alloc(), path)?);
        text.id = Some((metadata.dev(), metadata.ino()));
        text.longest = metadata.len();
        Ok(text)
    }

    /// This text, with its tabs and its empty lines in another shape. It is said before the first feed.
    pub fn shaped(self, alloc: Global, shape: Shape) -> Text {
        let mut text = self;
        text.marks_tabs = shape.marks_tabs;
        text.preparation = Preparation::with(alloc, shape);
        text
    }

    /// This text, of which the end is followed from the first page on.
    pub fn followed(self) -> Text {
        let mut text = self;
        text.is_followed = true;
        text
    }

    // Hands out what was begun, where nothing comes for now.
    fn pause(&mut self, found: Found, text: &mut String) -> Result<(), AllocError> {
        if self.is_paused {
            return Ok(());
        }
        self.is_paused = true;
        if found == Found::End {
            self.preparation.finish(text)
        } else {
            self.preparation.pause(text)
        }
    }

    // What a read gives that found no bytes.
    fn rest(&mut self, alloc: Global, found: Found) -> Result<Fed, Fault> {
        let mut text = String::new(alloc);
        self.pause(found, &mut text)?;
        if !text.is_empty() {
            return Ok(Fed::Text(text));
        }
        match found {
            Found::End => Ok(Fed::End),
            Found::EndForNow => Ok(Fed::EndForNow),
            Found::NothingNow | Found::Bytes(_) => Ok(Fed::NothingNow),
        }
    }

    // The file at the path, where it is another one than is read, or shorter than that was.
    fn new_file(&mut self, rt: &HostRuntime) -> Option<File> {
        let path = self.path.as_ref()?;
        let file = File::open(rt, path.as_str()).ok()?;
        let metadata = file.metadata().ok()?;
        let (id, len) = (Some((metadata.dev(), metadata.ino())), metadata.len());
        let (is_other, is_shorter) = (id != self.id, len < self.longest);
        self.id = id;
        self.longest = len;
        if is_shorter {
            self.is_cut = true;
        }
        (is_other || is_shorter).then_some(file)
    }

    // Reads from its beginning what has the name of the file now, where that is another file, or was cut.
    fn begin_again(&mut self, rt: &HostRuntime) {
        if let Some(file) = self.new_file(rt) {
            self.origin = Origin::File(file);
            self.read = 0;
        }
    }

    // Reads on, and looks at the end of a file whether that was cut.
    fn read_and_look(&mut self, rt: &HostRuntime) -> Result<Fed, Fault> {
        let fed = self.read_on(rt.alloc())?;
        if let Fed::EndForNow = &fed {
            self.begin_again(rt);
        }
        Ok(fed)
    }

    // Reads on.
    fn read_on(&mut self, alloc: Global) -> Result<Fed, Fault> {
        match self.origin.read(self.piece.as_mut_slice())? {
            Found::Bytes(count) => {
                let count = count.min(self.piece.len());
                self.read = self.read.saturating_add(count as u64);
                self.is_paused = false;
                self.is_cut = false;
                let mut text = String::new(alloc);
                self.preparation.add(&mut text, &self.piece[..count])?;
                Ok(Fed::Text(text))
            }
            found => self.rest(alloc, found),
        }
    }
}

impl App for Text {
    ghost use Rattle.minus_app.specs.Texts.{left_in};

    type Act = NoAct;

    ghost left = { left_in };

    fn feed(&mut self, rt: &HostRuntime) -> Result<Fed, Fault> {
        match &mut self.origin {
            Origin::Fixed(text) => match text.take() {
                Some(text) => Ok(Fed::Text(text)),
                None => Ok(Fed::End),
            },
            Origin::File(_) => self.read_and_look(rt),
            Origin::Standard(_) => self.read_on(rt.alloc()),
        }
    }

    fn title(&self) -> &str {
        self.title.as_str()
    }

    fn ahead(&self) -> Option<usize> {
        match &self.origin {
            Origin::Standard(_) => Some(AHEAD),
            Origin::Fixed(_) | Origin::File(_) => None,
        }
    }

    fn is_written(&self) -> bool {
        matches!(&self.origin, Origin::Standard(_))
    }

    fn follows(&self) -> bool {
        self.is_followed
    }

    fn marks_tabs(&self) -> bool {
        self.marks_tabs
    }

    fn bytes_left(&self) -> u64 {
        self.origin.len().unwrap_or(0).saturating_sub(self.read)
    }

    fn notice(&self) -> Notice {
        if self.is_cut {
            return Notice::CutShort;
        }
        Notice::Nothing
    }

    // The bytes as they are read.
    fn hand_on(&mut self, rt: &HostRuntime) -> Result<(), Fault> {
        match &mut self.origin {
            Origin::Fixed(text) => match text.take() {
                Some(text) => hand_on_text(rt, text.as_str()),
                None => Ok(()),
            },
            Origin::File(file) => hand_on_bytes(rt, file, self.piece.as_mut_slice()),
            Origin::Standard(input) => hand_on_bytes(rt, input, self.piece.as_mut_slice()),
        }
    }
}
