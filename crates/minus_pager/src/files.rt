//! The texts that the words name, one at a time.
ghost use Rattle.std.specs.Prelude.{◌≡◌};
ghost use Rattle.minus_pager.specs.Files.{neighbour_of};

use crate::exit_status::Refusal;
use minus_app::{App, Fault, Fed, Neighbour, NoAct, Notice, Text};
use minus_view::Shape;
use std::alloc::{AllocError, Global};
use std::env;
use std::fs::File;
use std::io::{Error, ErrorKind, IsTerminal};

/// The name of the variable in which `bin/minus` tells the name of a text that it opens itself.
const NAME: &str = "MINUS_NAME";

/// The name of the variable in which `man` tells the name of its page.
const MAN_NAME: &str = "MAN_PN";

// Why a file is not read.
fn unread(alloc: Global, path: &str, cause: Error) -> Result<Refusal, Refusal> {
    let why = match cause.kind() {
        ErrorKind::NotFound => ": no such file",
        ErrorKind::PermissionDenied => " cannot be read",
        _ => return Ok(Refusal::from(cause)),
    };
    Ok(Refusal::of_file(alloc, path, why)?)
}

// Refuses a path at which no text is.
fn check_file(rt: &HostRuntime, path: &str) -> Result<(), Refusal> {
    let alloc = rt.alloc();
    let is_folder = match File::open(rt, path) {
        Ok(file) => file.metadata()?.is_dir(),
        Err(cause) => return Err(unread(alloc, path, cause)?),
    };
    if is_folder {
        return Err(Refusal::of_file(alloc, path, " is a folder")?);
    }
    Ok(())
}

// Refuses standard input where that is the terminal.
fn check_input(rt: &HostRuntime, is_named: bool) -> Result<(), Refusal> {
    if !rt.stdin().is_terminal() {
        return Ok(());
    }
    let said = if is_named {
        "standard input is the terminal"
    } else {
        "no file, and standard input is the terminal (minus --help)"
    };
    Err(Refusal::Words(String::from_str(rt.alloc(), said)?))
}

// What standard input is called: as the launcher says, or else the option, or else `man`.
fn name_of_input(rt: &HostRuntime, name: Option<&str>) -> Result<String, AllocError> {
    if let Ok(told) = env::var(rt, NAME) {
        return Ok(told);
    }
    if let Some(name) = name {
        return String::from_str(rt.alloc(), name);
    }
    match env::var(rt, MAN_NAME) {
        Ok(page) => Ok(page),
        Err(_) => String::from_str(rt.alloc(), "standard input"),
    }
}

// The text that a word names.
fn open(rt: &HostRuntime, word: &str, title: &str) -> Result<Text, Refusal> {
    if word == "-" {
        check_input(rt, true)?;
        return Ok(Text::stdin(rt, title)?);
    }
    check_file(rt, word)?;
    Ok(Text::file(rt, word, title)?)
}

// The place of the next text among this many, or of the one before, where there is one.
fn neighbour_of(at: usize, count: usize, neighbour: Neighbour) -> Option<usize>
    ensures { result ≡ neighbour_of at count neighbour }
{
    match neighbour {
        Neighbour::Next if at.saturating_add(1) < count => Some(at + 1),
        Neighbour::Before if at > 0 => Some(at - 1),
        Neighbour::Next | Neighbour::Before => None,
    }
}

// Says on standard error why a text is not read; the launcher shows that at the end.
fn tell(rt: &HostRuntime, refusal: &Refusal) {
    let _ = eprintln!(rt; "minus: {refusal}");
}

/// The texts that the words name, one of which is paged.
pub struct Files {
    words: Vec<String>,
    // What standard input is called.
    input: String,
    shape: Shape,
    // The place of the one that is paged.
    at: usize,
    text: Text,
}

// Hand-written: a derived drop would stand again in the proof of each function that lets one go.
impl Drop for Files {
    fn drop(self) {
        let Files {
            words: _,
            input: _,
            shape: _,
            at: _,
            text: _,
        } = self;
    }
}

impl Files {
    /// The texts that some words name, of which the first one is paged; standard input where there are none.
    ///
    /// # Errors
    ///
    /// [`Refusal::Words`] where no file is named and standard input is the terminal, and [`Refusal::Failed`] where none
    /// of the texts is read, with why the last one is not.
    pub fn open(
        rt: &HostRuntime,
        texts: &[&str],
        name: Option<&str>,
        shape: Shape,
    ) -> Result<Files, Refusal> {
        let alloc = rt.alloc();
        let mut words = Vec::new(alloc);
        for text in texts {
            words.push(String::from_str(alloc, text)?)?;
        }
        if words.is_empty() {
            check_input(rt, false)?;
            words.push(String::from_str(alloc, "-")?)?;
        }
        let input = name_of_input(rt, name)?;
        let (at, text) = Files::first_text(rt, &words, input.as_str())?;
        let text = text.shaped(alloc, shape);
        Ok(Files {
            words,
            input,
            shape,
            at,
            text,
        })
    }

    // The first text that is read, with its place; why those before it are not goes to standard error.
    fn first_text(
        rt: &HostRuntime,
        words: &[String],
        input: &str,
    ) -> Result<(usize, Text), Refusal> {
        let last = words.len().saturating_sub(1);
        for at in 0..last {
            match Files::text_at(rt, words, input, at) {
                Ok(text) => return Ok((at, text)),
                Err(refusal) => tell(rt, &refusal),
            }
        }
        Ok((last, Files::text_at(rt, words, input, last)?))
    }

    // The text at a place, with its title: where there are several, that says which one it is.
    fn text_at(
        rt: &HostRuntime,
        words: &[String],
        input: &str,
        at: usize,
    ) -> Result<Text, Refusal> {
        let word = match words.get(at) {
            Some(word) => word.as_str(),
            None => "-",
        };
        let name = if word == "-" { input } else { word };
        let (number, count) = (at.saturating_add(1), words.len());
        let title = if count > 1 {
            format!(in rt.alloc(); "{name} (file {number} of {count})")?
        } else {
            String::from_str(rt.alloc(), name)?
        };
        open(rt, word, title.as_str())
    }
}

impl App for Files {
    type Act = NoAct;

    fn feed(&mut self, rt: &HostRuntime) -> Result<Fed, Fault> {
        self.text.feed(rt)
    }

    // A text that is not read is skipped, and standard error says why.
    fn turn_to(&mut self, rt: &HostRuntime, neighbour: Neighbour) -> Result<bool, Fault> {
        let count = self.words.len();
        let mut at = self.at;
        for _ in 0..count {
            let Some(next) = neighbour_of(at, count, neighbour) else {
                return Ok(false);
            };
            at = next;
            let input = self.input.as_str();
            match Files::text_at(rt, &self.words, input, at) {
                Ok(text) => {
                    self.at = at;
                    self.text = text.shaped(rt.alloc(), self.shape);
                    return Ok(true);
                }
                Err(refusal) => tell(rt, &refusal),
            }
        }
        Ok(false)
    }

    fn is_last(&self) -> bool {
        neighbour_of(self.at, self.words.len(), Neighbour::Next).is_none()
    }

    fn title(&self) -> &str {
        self.text.title()
    }

    fn ahead(&self) -> Option<usize> {
        self.text.ahead()
    }

    fn is_written(&self) -> bool {
        self.text.is_written()
    }

    fn marks_tabs(&self) -> bool {
        self.text.marks_tabs()
    }

    fn bytes_left(&self) -> u64 {
        self.text.bytes_left()
    }

    fn notice(&self) -> Notice {
        self.text.notice()
    }

    // All texts, one after another.
    fn hand_on(&mut self, rt: &HostRuntime) -> Result<(), Fault> {
        for _ in 0..self.words.len() {
            self.text.hand_on(rt)?;
            if !self.turn_to(rt, Neighbour::Next)? {
                break;
            }
        }
        Ok(())
    }
}
