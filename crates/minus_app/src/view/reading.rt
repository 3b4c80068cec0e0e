//! How the displayed text grows, and the page goes where a key has asked for, once enough of it was read.
ghost use Rattle.std.specs.Prelude.{◌≡◌};
ghost use Rattle.minus_app.specs.Reading.{bytes_below, wants_more};

use crate::fault::Fault;
use crate::view::View;
use crate::view::goals::{Goal, row_of_goal};
use minus::{CommandOf, InputOf, MinusError, OutputSink, PagerState};

/// What the text is read on for, and how much of it is there.
#[derive(Clone, Copy)]
pub struct Reading {
    // What it is read on for.
    pub(super) goal: Option<Goal>,
    // Whether all of it is there, as far as is known.
    pub(super) is_whole: bool,
}

impl Reading {
    /// The text begins, and is read on for this.
    pub(super) fn new(goal: Option<Goal>) -> Reading {
        Reading {
            goal,
            is_whole: false,
        }
    }
}

// How many bytes of the text stand from the first row of the page on.
fn bytes_below(state: &PagerState) -> usize
    ensures { result ≡ bytes_below state.now }
{
    let rows = state.screen.formatted_lines_count();
    match (
        state.screen.row_place(rows.saturating_sub(1)),
        state.screen.row_place(state.upper_mark),
    ) {
        (Some(last), Some(first)) => last.end.saturating_sub(first.start),
        _ => 0,
    }
}

// Whether more of a text is wanted, where this many bytes from the page on are enough. `waits` says that what the text
// is read on for was not read yet.
fn wants_more(state: &PagerState, waits: bool, most: usize) -> bool
    ensures { result ≡ wants_more state.now waits most }
{
    !state.help_open() && (state.follow_output() || waits || bytes_below(state) < most)
}

impl<S: OutputSink + Drop> View<S> {
    /// Whether the text is read on for something that a key asked for.
    pub(crate) fn is_reading_on(&self) -> bool {
        self.reading.goal.is_some()
    }

    /// Says whether all of the text is there.
    pub(crate) fn set_whole(&mut self, is_whole: bool) {
        self.reading.is_whole = is_whole;
    }

    /// Makes room for the text that is to come, where there is memory for it.
    pub(crate) fn make_room(&mut self, bytes: u64) {
        if let Ok(bytes) = usize::try_from(bytes) {
            let _ = self.session.reserve(bytes);
        }
    }

    /// Whether more of the text is wanted: this number of bytes is not yet read from the page on, or the text is
    /// followed, or what it is read on for was not read yet.
    pub(crate) fn wants_more(&self, bytes: usize) -> bool {
        wants_more(self.session.state(), self.reading.goal.is_some(), bytes)
    }

    /// Adds text, and goes where it was read on for. Answers whether there was memory for it.
    ///
    /// # Errors
    ///
    /// [`Fault::Pager`] where the session refuses.
    pub(crate) fn append(&mut self, text: String) -> Result<bool, Fault> {
        let kept = self.tabs.kept();
        let Ok(text) = self.tabs.take(self.alloc, text) else {
            self.tabs.go_back(kept);
            return Ok(false);
        };
        match self
            .session
            .step(InputOf::Command(CommandOf::AppendData(text)))
        {
            Ok(_) => {
                let _ = self.pursue()?;
                Ok(true)
            }
            Err(MinusError::Memory) => {
                self.tabs.go_back(kept);
                Ok(false)
            }
            Err(cause) => Err(Fault::Pager(cause)),
        }
    }

    // Goes to a match among those that are there, or past the last one on at the first.
    fn arrive_at_match(&mut self, place: usize) -> Result<(), Fault> {
        let count = self.session.state().matches().len();
        if count == 0 {
            self.notices.was_missed = true;
            return Ok(());
        }
        self.lead_to(place % count)
    }

    // Goes where a goal leads, and answers whether it does: else the text is to be read on. The text of help is whole.
    fn arrive(&mut self, goal: Goal) -> Result<bool, Fault> {
        let state = self.session.state();
        let is_whole = self.reading.is_whole || state.help_open();
        if let Goal::Match(place) = goal {
            if !is_whole && place >= state.matches().len() {
                return Ok(false);
            }
            self.arrive_at_match(place)?;
            return Ok(true);
        }
        let Some(row) = row_of_goal(state, goal, is_whole) else {
            return Ok(false);
        };
        self.go_to_row(row)?;
        Ok(true)
    }

    // Goes to the end that is there, on the way to the end of the whole text.
    fn go_on(&mut self, goal: Goal) -> Result<(), Fault> {
        if goal == Goal::End {
            return self.go_to_row(usize::MAX);
        }
        Ok(())
    }

    /// Goes where a goal leads, at once or once enough of the text was read.
    ///
    /// # Errors
    ///
    /// [`Fault::Pager`] where the session refuses.
    pub(crate) fn head_for(&mut self, goal: Goal) -> Result<(), Fault> {
        if !self.arrive(goal)? {
            self.reading.goal = Some(goal);
            self.go_on(goal)?;
        }
        Ok(())
    }

    /// Heeds that no text comes for now: goes where the goal leads, or to the end that is there. Answers whether the
    /// page may have moved.
    ///
    /// # Errors
    ///
    /// [`Fault::Pager`] where the session refuses.
    pub(crate) fn pause(&mut self) -> Result<bool, Fault> {
        if self.pursue()? {
            return Ok(true);
        }
        let Some(Goal::End) = self.reading.goal else {
            return Ok(false);
        };
        let mark = self.session.state().upper_mark;
        self.go_on(Goal::End)?;
        Ok(mark != self.session.state().upper_mark)
    }

    /// Goes where the goal leads, if there is one and enough of the text was read. Answers whether it did.
    ///
    /// # Errors
    ///
    /// [`Fault::Pager`] where the session refuses.
    pub(crate) fn pursue(&mut self) -> Result<bool, Fault> {
        let Some(goal) = self.reading.goal else {
            return Ok(false);
        };
        if !self.arrive(goal)? {
            return Ok(false);
        }
        self.reading.goal = None;
        Ok(true)
    }
}
