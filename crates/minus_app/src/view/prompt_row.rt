//! What the prompt row says while the page is displayed: the place of the page, notices and messages.
use crate::fault::Fault;
use crate::prompt::{Notice, place_of, prompt_text};
use crate::view::View;
use minus::{CommandOf, Event, InputEvent, OutputSink};
use minus_view::percent;
use std::alloc::AllocError;

/// From this many bytes of text on, a search or another layout takes longer than a tenth of a second.
const SLOW_BYTES: usize = 32 * 1024 * 1024;

/// What the prompt row says before the place of the page.
#[derive(Clone, Copy)]
pub struct Notices {
    // What it says of the text.
    of_text: Notice,
    // Whether there was no memory for what a key asked for.
    pub(super) was_short: bool,
    // Whether the terminal took no text that was to be copied.
    pub(super) was_kept: bool,
    // Whether no row matched the query that a key took.
    pub(super) was_missed: bool,
}

impl Notices {
    /// Nothing is said yet.
    pub(super) fn new() -> Notices {
        Notices {
            of_text: Notice::Nothing,
            was_short: false,
            was_kept: false,
            was_missed: false,
        }
    }

    /// What the events before this one left to be said is gone.
    pub(super) fn begin_event(&mut self) {
        self.was_short = false;
        self.was_kept = false;
        self.was_missed = false;
    }
}

impl<S: OutputSink + Drop> View<S> {
    /// Shows a message in the prompt row, until the next key.
    ///
    /// # Errors
    ///
    /// [`Fault::Pager`] where the session refuses, as a message of two lines.
    pub fn message(&mut self, text: String) -> Result<(), Fault> {
        self.command(CommandOf::SendMessage(text))
    }

    /// Shows a message.
    pub(super) fn say(&mut self, text: &str) -> Result<(), Fault> {
        let text = String::from_str(self.alloc, text)?;
        self.message(text)
    }

    /// Whether work on the whole text takes longer than a tenth of a second.
    pub(super) fn is_slow(&self) -> bool {
        self.text().len() > SLOW_BYTES
    }

    /// Says what is begun, where that takes longer than a tenth of a second.
    pub(super) fn say_before(&mut self, doing: &str) -> Result<(), Fault> {
        if !self.is_slow() {
            return Ok(());
        }
        let doing = String::from_str(self.alloc, doing)?;
        self.command(CommandOf::SetPrompt(doing))
    }

    // Whether a message goes with an event: with each key but the one that asks for no more.
    fn ends_message(&self, event: Event) -> bool {
        let state = self.session.state();
        if state.message.is_none() || state.help_open() || !matches!(&event, Event::Key(_)) {
            return false;
        }
        self.asked(event) != Some(InputEvent::RestorePrompt)
    }

    /// Lets a message go with the next key, which does what it does.
    pub(super) fn end_message(&mut self, event: Event) -> Result<(), Fault> {
        if !self.ends_message(event) {
            return Ok(());
        }
        self.command(CommandOf::UserInput(InputEvent::RestorePrompt))
    }

    /// What the prompt row says of the text.
    pub(crate) fn notice(&self) -> Notice {
        self.notices.of_text
    }

    /// Lets the prompt row say this of the text from now on.
    pub(crate) fn set_notice(&mut self, notice: Notice) {
        self.notices.of_text = notice;
    }

    /// Whether the prompt row is to say where in the text the page is: while neither help nor the search prompt is
    /// open.
    pub(crate) fn shows_place(&self) -> bool {
        let state = self.session.state();
        !state.help_open() && state.open_search().is_none()
    }

    // What the prompt row says before the rest: of what a key asked for, or of the text.
    fn notice_now(&self) -> Notice {
        if self.notices.was_short {
            Notice::OutOfMemory
        } else if self.notices.was_kept {
            Notice::NotCopied
        } else if self.reading.goal.is_some() {
            Notice::Reading
        } else if self.notices.was_missed {
            Notice::NotFound
        } else {
            self.notices.of_text
        }
    }

    /// Lets the prompt row say what the application says there, or else the title and where in the text the page is.
    /// Where there is no memory for that, the row stays as it is.
    ///
    /// # Errors
    ///
    /// [`Fault::Pager`] where the session refuses.
    pub(crate) fn show_place(&mut self, own: Option<&str>, title: &str) -> Result<(), Fault> {
        let (place, notice) = (place_of(self.session.state()), self.notice_now());
        let own = match self.typed.pending {
            Some(pending) => Some(pending.text()),
            None => own,
        };
        let Ok(columns) = self.columns_left() else {
            return Ok(());
        };
        if let Ok(text) = prompt_text(self.alloc, columns, own, title, place, notice) {
            self.command(CommandOf::SetPrompt(text))?;
        }
        Ok(())
    }

    // How many columns of the prompt row the match that is reported and the mark of following leave.
    fn columns_left(&self) -> Result<usize, AllocError> {
        let state = self.session.state();
        let (told, count) = (
            state.search_mark().saturating_add(1),
            state.screen.view().match_total(),
        );
        let told = format!(in self.alloc; " {told}/{count} ")?;
        let told = if count == 0 { 0 } else { told.len() };
        let follow = if state.follow_output() { 3 } else { 0 };
        Ok(state.cols.saturating_sub(told).saturating_sub(follow))
    }

    /// Says in the prompt row where in the text the page is, in lines and in bytes.
    pub(super) fn tell_place(&mut self) -> Result<(), Fault> {
        let place = place_of(self.session.state());
        let (first, last, lines, end, bytes) = (
            place.first,
            place.last,
            place.lines,
            place.end,
            place.bytes,
        );
        let part = percent(end, bytes);
        let text = format!(in self.alloc;
            "lines {first}-{last} of {lines}, byte {end} of {bytes}, {part}% (Return)"
        )?;
        self.message(text)
    }
}
