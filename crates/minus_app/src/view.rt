//! The pager on the terminal: its session, what it needs around it, and what an application may do with it.
ghost use Rattle.std.specs.Prelude.{◌≡◌};

mod actions;
mod copying;
mod events;
mod following;
mod goals;
mod jumps;
mod kept_place;
mod marks;
mod moves;
mod printing;
mod prompt_row;
mod queries;
mod query_row;
mod reading;
mod row_of_byte;
mod searching;
mod starting;
mod tabs;
mod typed;

use crate::app::Neighbour;
use crate::fault::Fault;
use crate::keys::Table;
use crate::preview::ShowsWithin;
use crate::prompt::Notice;
use crate::size::Size;
use crate::view::copying::Mouse;
pub use crate::view::goals::Goal;
use crate::view::kept_place::Places;
use crate::view::moves::row_of_line;
use crate::view::printing::page_left;
use crate::view::prompt_row::Notices;
use crate::view::queries::Queries;
use crate::view::reading::Reading;
pub use crate::view::starting::Start;
use crate::view::tabs::Tabs;
use crate::view::typed::Typed;
use minus::{
    Answer, CommandOf, Core, Event, InputOf, IoCommand, Kinds, MinusError, NeverCalled, OutputSink,
    PagerState, cleanup, setup, write_bytes,
};
use minus_view::AtEnd;
use std::alloc::Global;

/// The kinds of an application's session: its register does not depend on the type of the application's actions.
type AppKinds = Kinds<NeverCalled, NeverCalled, ShowsWithin, Table>;

/// The bytes that give the mouse back to the terminal.
const MOUSE_OFF: &str = "\x1b[?1006l\x1b[?1015l\x1b[?1003l\x1b[?1002l\x1b[?1000l";

/// How the program goes on.
#[derive(Clone, Copy, PartialEq, Eq)]
pub enum Onward {
    /// As before.
    On,
    /// The reader has asked for the shell.
    Suspended,
    /// The session has ended.
    Ended,
    /// The reader has asked that no more of the text is written.
    Interrupted,
    /// The end of the text was reached, where that ends the program, unless there is a next text.
    EndReached,
    /// The reader has asked for another text.
    Turns(Neighbour),
}

/// The pager on the terminal, as an action of an application has it.
pub struct View<S> {
    alloc: Global,
    session: Core<S, AppKinds>,
    // The terminal once more, for what is no part of a page.
    terminal: S,
    // What was typed before the key whose action is being done.
    typed: Typed,
    // What the prompt row says before the place of the page.
    notices: Notices,
    // What is kept from one query to the next.
    queries: Queries,
    // What the text is read on for, and whether all of it is there.
    reading: Reading,
    // The places of the text that are kept.
    places: Places,
    mouse: Mouse,
    // The tabs of the text, where these are told.
    tabs: Tabs,
    // What the end of the text does.
    at_end: AtEnd,
    // Whether the page stays on the terminal where the program ends.
    leaves: bool,
}

// Hand-written: a derived drop would stand again in the proof of each function that lets one go.
impl<S: Drop> Drop for View<S> {
    fn drop(self) {
        let View {
            alloc: _,
            session: _,
            terminal: _,
            typed: _,
            notices: _,
            queries: _,
            reading: _,
            places: _,
            mouse: _,
            tabs: _,
            at_end: _,
            leaves: _,
        } = self;
    }
}

impl<S: OutputSink + Drop> View<S> {
    ghost use Rattle.minus_state.specs.States.{control_of};
    ghost use Rattle.minus_app.specs.Lines.{IsTopLine};

    /// The allocator.
    pub fn alloc(&self) -> Global
        ensures { result ≡ self.now.alloc }
    {
        self.alloc
    }

    /// What is displayed, and how: its rows, its first row, what is searched for.
    pub fn state(&self) -> &PagerState
        ensures { result.now ≡ self.now.session.parts.state }
    {
        self.session.state()
    }

    /// The displayed text.
    pub fn text(&self) -> &str
        ensures { result.now ≡ (control_of self.now.session.parts.state).text }
    {
        self.session.state().screen.orig_text()
    }

    /// The columns and the rows of the terminal; its last row is the prompt row.
    pub fn size(&self) -> (usize, usize) {
        let state = self.session.state();
        (state.cols, state.rows)
    }

    /// The number that was typed before the key, if one was.
    pub fn count(&self) -> Option<usize>
        ensures { result ≡ self.now.typed.count }
    {
        self.typed.count
    }

    /// The line that the first row of the page is of, counted from 0; 0 in a text of no line.
    pub fn top_line(&self) -> usize
        ensures { IsTopLine self.now.session.parts.state result }
    {
        let state = self.session.state();
        let lines = state.screen.lines_to_row_map();
        lines.row_to_line(state.upper_mark).unwrap_or(0)
    }

    /// Goes to a line, counted from 0: the page begins there, but shows no less than the last page does. Where the text
    /// has no such line, that is the last page. A move up ends following.
    ///
    /// # Errors
    ///
    /// [`Fault::Pager`] where the session refuses.
    pub fn go_to_line(&mut self, line: usize) -> Result<(), Fault> {
        let row = row_of_line(self.session.state(), line);
        self.go_to_row(row)
    }

    /// Shows another text in the place of the displayed one. What `feed` gives comes behind that. Out of memory the
    /// text stays, and the prompt row says so.
    ///
    /// # Errors
    ///
    /// [`Fault::Pager`] where the session refuses.
    pub fn set_text(&mut self, text: String) -> Result<(), Fault> {
        let len = text.len();
        match self
            .session
            .step(InputOf::Command(CommandOf::SetData(text)))
        {
            Ok(_) => {
                self.tabs.begin(len);
                Ok(())
            }
            Err(MinusError::Memory) => {
                self.notices.was_short = true;
                Ok(())
            }
            Err(cause) => Err(Fault::Pager(cause)),
        }
    }

    /// Shows no text, and forgets the places in the one before: another one begins.
    ///
    /// # Errors
    ///
    /// [`Fault::Pager`] where the session refuses.
    pub(crate) fn begin_text(&mut self) -> Result<(), Fault> {
        self.set_notice(Notice::Nothing);
        self.reading = Reading::new(None);
        self.places = Places::new(self.alloc);
        self.set_text(String::new(self.alloc))
    }

    // Gives the mouse back to the terminal, where the options ask for that.
    fn release_mouse(&mut self) -> Result<(), Fault> {
        if !self.mouse.is_taken {
            write_bytes(&mut self.terminal, MOUSE_OFF.as_bytes())?;
        }
        Ok(())
    }

    // Heeds what a step answers.
    fn heed(&mut self, answer: Answer) -> Result<Onward, Fault> {
        if let Some(copied) = &answer.copied {
            self.copy_selected(copied.as_str())?;
        }
        if answer.exited.is_some() {
            return Ok(Onward::Ended);
        }
        Ok(Onward::On)
    }

    // Tells the session an input. Out of memory, it stays as it was, and the prompt row says so; a size that is none
    // is skipped, and so is a character that a query has no room for.
    fn step(&mut self, input: InputOf<AppKinds>) -> Result<Onward, Fault> {
        match self.session.step(input) {
            Ok(answer) => self.heed(answer),
            Err(MinusError::BadSize(..) | MinusError::QueryFull) => Ok(Onward::On),
            Err(MinusError::Memory) => {
                self.notices.was_short = true;
                Ok(Onward::On)
            }
            Err(cause) => Err(Fault::Pager(cause)),
        }
    }

    // Tells the session a command.
    fn command(&mut self, command: CommandOf<AppKinds>) -> Result<(), Fault> {
        let _ = self.step(InputOf::Command(command))?;
        Ok(())
    }

    /// Takes the terminal's new size.
    ///
    /// # Errors
    ///
    /// [`Fault::Pager`] where the session refuses; a size that is none is skipped.
    pub(crate) fn resize(&mut self, size: Size) -> Result<(), Fault> {
        self.say_before("(laying out)")?;
        let _ = self.step_in_place(InputOf::Event(Event::Resize(size.cols, size.rows)))?;
        Ok(())
    }

    /// Hands the screen, the cursor and the mouse back, for the time that the program is suspended.
    ///
    /// # Errors
    ///
    /// [`Fault::Pager`] where the terminal refuses.
    pub(crate) fn leave(&mut self) -> Result<(), Fault> {
        cleanup(&mut self.terminal, true).map_err(MinusError::from)?;
        Ok(())
    }

    /// Comes back to the page, on a terminal of this size.
    ///
    /// # Errors
    ///
    /// [`Fault::Pager`] where the terminal or the session refuses.
    pub(crate) fn come_back(&mut self, size: Size) -> Result<(), Fault> {
        setup(&mut self.terminal).map_err(MinusError::from)?;
        self.release_mouse()?;
        self.resize(size)?;
        self.command(CommandOf::Io(IoCommand::RedrawDisplay))
    }

    // The session, the terminal once more, and whether the page stays there.
    fn into_parts(self) -> (Core<S, AppKinds>, S, bool) {
        let View {
            alloc: _,
            session,
            terminal,
            typed: _,
            notices: _,
            queries: _,
            reading: _,
            places: _,
            mouse: _,
            tabs: _,
            at_end: _,
            leaves,
        } = self;
        (session, terminal, leaves)
    }

    /// Ends the session, and hands the screen, the cursor and the mouse back.
    ///
    /// # Errors
    ///
    /// [`Fault::Pager`] where the terminal refuses.
    pub(crate) fn finish(self) -> Result<(), Fault> {
        let alloc = self.alloc;
        let (session, terminal, leaves) = self.into_parts();
        let mut terminal = terminal;
        let left = if leaves {
            page_left(alloc, session.state())?
        } else {
            String::new(alloc)
        };
        let (_, cleaned) = session.finish();
        cleaned.map_err(MinusError::from)?;
        write_bytes(&mut terminal, left.as_bytes())?;
        Ok(())
    }
}
