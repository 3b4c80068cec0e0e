//! How a program's text grows: what the application feeds, and what waits while the search prompt is open.
use crate::app::{App, Fed};
use crate::fault::Fault;
use crate::program::{PIECES, Program};
use crate::prompt::Notice;
use minus::{MinusError, OutputSink};
use minus_view::TextQueue;
use std::alloc::Global;
use std::io::Read;

/// How far the text of an application was read.
#[derive(Drop)]
pub struct Growth {
    // What was read while the search prompt was open: in the session, running out of memory for it would end that.
    ahead: TextQueue,
    // Whether some of that may wait.
    waits: bool,
    // Whether the application is asked for more text.
    may_grow: bool,
    // Whether the text was read to its end, for now or for good.
    is_at_end: bool,
    // How many pieces came since the prompt row was told where the page is.
    pub(super) pieces: u32,
}

impl Growth {
    /// A piece of the text was read, and nothing waits.
    pub(super) fn new(alloc: Global, may_grow: bool, is_at_end: bool) -> Growth {
        Growth {
            ahead: TextQueue::new(alloc),
            waits: false,
            may_grow,
            is_at_end,
            pieces: 1,
        }
    }

    /// Another text begins, of which nothing was read; the prompt row is to be told where the page is.
    pub(super) fn begin(&mut self) {
        self.drop_ahead();
        self.may_grow = true;
        self.is_at_end = false;
        self.pieces = PIECES;
    }

    // Forgets what waits.
    fn drop_ahead(&mut self) {
        self.ahead.clear();
        self.waits = false;
    }

    /// Whether all of the text is displayed, as far as is known.
    pub(super) fn is_whole(&self) -> bool {
        !self.waits && (self.is_at_end || !self.may_grow)
    }
}

impl<A: App, S: OutputSink + Drop, R: Read + Drop> Program<A, S, R> {
    // Reads no more text, and says so.
    fn run_out_of_room(&mut self) {
        self.growth.may_grow = false;
        self.growth.pieces = PIECES;
        self.view.set_notice(Notice::OutOfMemory);
    }

    // Asks the application for text. Out of memory, there is none any more.
    fn read_text(&mut self, rt: &HostRuntime) -> Result<Option<String>, Fault> {
        if !self.growth.may_grow {
            return Ok(None);
        }
        match self.app.feed(rt) {
            Ok(Fed::Text(text)) => {
                self.growth.is_at_end = false;
                Ok(Some(text))
            }
            Ok(fed) => {
                self.growth.is_at_end = !matches!(&fed, Fed::NothingNow);
                self.growth.may_grow = !matches!(&fed, Fed::End);
                Ok(None)
            }
            Err(Fault::Pager(MinusError::Memory)) => {
                self.run_out_of_room();
                Ok(None)
            }
            Err(cause) => Err(cause),
        }
    }

    // The next piece of text: what was read ahead comes first.
    fn next_text(&mut self, rt: &HostRuntime) -> Result<Option<String>, Fault> {
        match self.growth.ahead.take() {
            Some(text) => Ok(Some(text)),
            None => {
                self.growth.waits = false;
                self.read_text(rt)
            }
        }
    }

    // Whether the next piece of text is wanted.
    fn wants_text(&self) -> bool {
        match self.app.ahead() {
            Some(bytes) => self.view.wants_more(bytes),
            None => true,
        }
    }

    // Reads a piece of text that waits until the search prompt is closed, and answers whether there was one.
    fn read_ahead(&mut self, rt: &HostRuntime) -> Result<bool, Fault> {
        if self.growth.ahead.is_full() {
            return Ok(false);
        }
        let Some(text) = self.read_text(rt)? else {
            return Ok(false);
        };
        self.growth.waits = true;
        if self.growth.ahead.put(text.as_str()).is_err() {
            self.run_out_of_room();
        }
        Ok(true)
    }

    /// Adds the next piece of text, and answers whether there was one.
    pub(super) fn feed(&mut self, rt: &HostRuntime) -> Result<bool, Fault> {
        if !self.wants_text() {
            return Ok(false);
        }
        if self.view.is_searching() {
            return self.read_ahead(rt);
        }
        let Some(text) = self.next_text(rt)? else {
            return Ok(false);
        };
        self.growth.pieces = self.growth.pieces.saturating_add(1);
        if !self.view.append(text)? {
            // (what waits would stand behind a gap)
            self.growth.drop_ahead();
            self.run_out_of_room();
        }
        Ok(true)
    }

    /// Heeds that no text comes: what the text is read on for may not come any more, and the application may say
    /// something of the text.
    pub(super) fn look_at_end(&mut self) -> Result<(), Fault> {
        let is_whole = self.growth.is_whole();
        self.view.set_whole(is_whole);
        if self.view.pause()? {
            self.show_place()?;
        }
        let (said, notice) = (self.view.notice(), self.app.notice());
        if said != Notice::OutOfMemory && notice != said {
            self.growth.pieces = self.growth.pieces.max(1);
            self.view.set_notice(notice);
        }
        Ok(())
    }
}
