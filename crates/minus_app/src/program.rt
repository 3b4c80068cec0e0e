//! The loop of a program: it hears the keys, and between them asks the application for its text.
//!
//! A turn has four stages:
//! 1. The keys that wait, and those that were pressed, are told one by one (`telling`).
//! 2. A new size of the terminal is taken.
//! 3. The application is asked for a piece of text, which waits while the search prompt is open (`growing`).
//! 4. The prompt row tells where the page is; where nothing was done, the program rests.
//!
//! So of `G/end` and Enter, typed at once over a long file, `G` is told in this turn, and the query in the one in which
//! the end of the file was read.
ghost use Rattle.std.specs.Prelude.{◌≡◌};

mod beginning;
mod growing;
mod resting;
mod suspending;
mod telling;
mod turning;

use crate::app::App;
use crate::fault::Fault;
use crate::keyboard::Keyboard;
use crate::keys::AppKeys;
use crate::launch::Launch;
use crate::options::Options;
use crate::program::beginning::begin_text;
use crate::program::growing::Growth;
use crate::program::resting::Idle;
use crate::program::turning::TopLines;
use crate::size::SizeFile;
use crate::view::{Start, View};
use minus::{Event, OutputSink};
use minus_view::Opening;
use std::io::Read;
use std::mem;

/// How long the program sleeps where it heard and read nothing, in milliseconds.
pub const NAP: u64 = 10;

/// After this many pieces of text the prompt row is told where the page is, also where more comes.
const PIECES: u32 = 16;

/// What a program is run on, or what stands for it in a test.
#[derive(Drop)]
pub struct Terminal<S, R> {
    /// The terminal, for the pages.
    pub pages: S,
    /// The terminal once more, for what is no part of a page.
    pub beside: S,
    /// What types.
    pub keyboard: Keyboard<R>,
    /// Its size, and where changes of that are told.
    pub launch: Launch,
}

/// An application while it is paged.
pub struct Program<A: App, S, R> {
    app: A,
    // Its actions, by their numbers.
    acts: Vec<A::Act>,
    view: View<S>,
    // How far its text was read.
    growth: Growth,
    keyboard: Keyboard<R>,
    // The keys that wait: those pressed before the first page, or while the text is read on.
    pressed: Vec<Event>,
    sizes: SizeFile,
    // How long nothing was done.
    idle: Idle,
    // Where its other texts were left.
    top_lines: TopLines,
}

// Hand-written: a derived drop would stand again in the proof of each function that lets one go.
impl<A: App, S: Drop, R: Drop> Drop for Program<A, S, R> {
    fn drop(self) {
        let Program {
            app: _,
            acts: _,
            view: _,
            growth: _,
            keyboard: _,
            pressed: _,
            sizes: _,
            idle: _,
            top_lines: _,
        } = self;
    }
}

impl<A: App, S: OutputSink + Drop, R: Read + Drop> Program<A, S, R> {
    ghost use Rattle.std.specs.Prelude.{OnOk};
    ghost use Rattle.minus_input.specs.EventTables.{register_of};
    ghost use Rattle.minus_app.specs.Keys.{own_act_at, SomeEnds};

    /// Shows the first page of an application. Where the options ask that a text is printed which fits the terminal,
    /// and it does, it is printed, and nothing is paged.
    ///
    /// # Errors
    ///
    /// [`Fault::NoEnd`] where no key ends the program, those of the application's feed, [`Fault::Io`] where the
    /// keyboard failed, and [`Fault::Pager`] where the session does not start.
    pub fn start(
        rt: &HostRuntime,
        app: A,
        keys: AppKeys<A::Act>,
        options: &Options<'_>,
        terminal: Terminal<S, R>,
    ) -> Result<Option<Program<A, S, R>>, Fault>
        ensures { OnOk result (SomeEnds keys) }
    {
        let (keys, acts) = keys.into_parts()?;
        let Terminal {
            pages,
            beside,
            keyboard,
            launch,
        } = terminal;
        let (mut app, mut keyboard, size) = (app, keyboard, launch.size);
        let options = options.with_following(app.follows());
        let beginning = begin_text(rt, &mut app, &mut keyboard, &options, size)?;
        let start = Start {
            pages,
            beside,
            size,
            copies: launch.copies,
            keys,
            marks_tabs: app.marks_tabs(),
            prints: options.prints && beginning.is_at_end && beginning.pressed.is_empty(),
        };
        let text = beginning.text.as_str();
        let Some(view) = View::start(rt.alloc(), start, &options, text)? else {
            return Ok(None);
        };
        let mut program = Program {
            app,
            acts,
            view,
            growth: Growth::new(rt.alloc(), beginning.may_grow, beginning.is_at_end),
            keyboard,
            pressed: beginning.pressed,
            sizes: SizeFile::new(launch.sizes, size),
            idle: Idle::default(),
            top_lines: TopLines::new(rt.alloc()),
        };
        program.begin(&options)?;
        Ok(Some(program))
    }

    // Sets what the options ask for, shows where the first page is, goes to the line that is shown first, and makes
    // room for what is to come.
    fn begin(&mut self, options: &Options<'_>) -> Result<(), Fault> {
        self.view.set_options(options)?;
        let is_whole = self.growth.is_whole();
        self.view.set_whole(is_whole);
        let _ = self.view.pursue()?;
        if let Opening::Finds(query) = options.opening {
            self.view.search(query)?;
        }
        self.show_place()?;
        self.view.make_room(self.app.bytes_left());
        Ok(())
    }

    /// The application.
    pub fn app(&self) -> &A
        ensures { result.now ≡ self.now.app }
    {
        &self.app
    }

    /// The page.
    pub fn view(&self) -> &View<S>
        ensures { result.now ≡ self.now.view }
    {
        &self.view
    }

    // Lets the prompt row say where the page is, or what the application says there.
    fn show_place(&mut self) -> Result<(), Fault> {
        if !self.view.shows_place() {
            return Ok(());
        }
        let Ok(own) = self.app.prompt(self.view.alloc(), self.view.state()) else {
            return Ok(());
        };
        let own = own.as_ref().map(|text| text.as_str());
        self.view.show_place(own, self.app.title())
    }

    // Lets the prompt row say where the page is, and rests where nothing was done.
    fn settle(&mut self, rt: &HostRuntime, heard: bool, fed: bool) -> Result<(), Fault> {
        if heard || self.growth.pieces >= PIECES || (self.growth.pieces > 0 && !fed) {
            self.growth.pieces = 0;
            return self.show_place();
        }
        if fed {
            return self.wake(rt);
        }
        self.idle.turns = self.idle.turns.saturating_add(1);
        self.rest(rt)
    }

    // The application's action that an event leads to.
    fn own_act(&self, event: &Event) -> Option<A::Act>
        ensures { result ≡ own_act_at self.now.acts.items self.now.view.session.parts.state
            (register_of self.now.view.session.parts.classifier) event.now }
    {
        let number = self.view.own_number(event)?;
        self.acts.get(number).copied()
    }

    // Takes the terminal's size where it has changed, and answers whether it has. While the search prompt is open that
    // is not asked: it is told then once the prompt is closed.
    fn take_size(&mut self, rt: &HostRuntime) -> Result<bool, Fault> {
        if self.view.is_searching() {
            return Ok(false);
        }
        let Some(size) = self.sizes.change(rt) else {
            return Ok(false);
        };
        self.view.resize(size)?;
        Ok(true)
    }

    /// Hears the keys that were pressed, and reads a piece of the text. Answers whether the session goes on.
    ///
    /// # Errors
    ///
    /// Those of [`Program::serve`].
    pub fn turn(&mut self, rt: &HostRuntime) -> Result<bool, Fault> {
        let mut events = mem::replace(&mut self.pressed, Vec::new(rt.alloc()));
        let mut heard = self.keyboard.read(rt, &mut events)?;
        let is_whole = self.growth.is_whole();
        self.view.set_whole(is_whole);
        if !self.tell(rt, &events)? {
            return Ok(false);
        }
        if self.take_size(rt)? {
            heard = true;
        }
        let fed = self.feed(rt)?;
        if !fed {
            self.look_at_end()?;
        }
        let heard = heard || !events.is_empty();
        if heard || fed {
            self.idle.turns = 0;
        }
        self.settle(rt, heard, fed)?;
        Ok(!self.app.is_last() || !self.view.ends_at_first())
    }

    /// Serves the reader until the session ends.
    ///
    /// # Errors
    ///
    /// Those of the application, [`Fault::Io`] where the terminal or the clock failed, and [`Fault::Pager`] where the
    /// session refuses.
    pub fn serve(&mut self, rt: &HostRuntime) -> Result<(), Fault> {
        for _ in 0..u64::MAX {
            if !self.turn(rt)? {
                return Ok(());
            }
        }
        Ok(())
    }

    /// Ends the session, and hands the screen, the cursor and the mouse back.
    ///
    /// # Errors
    ///
    /// [`Fault::Pager`] where the terminal refuses.
    pub fn finish(self) -> Result<(), Fault> {
        let Program {
            app: _,
            acts: _,
            view,
            growth: _,
            keyboard: _,
            pressed: _,
            sizes: _,
            idle: _,
            top_lines: _,
        } = self;
        view.finish()
    }
}
