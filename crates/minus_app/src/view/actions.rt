//! What the keys do that no default action of the pager does.
use crate::fault::Fault;
use crate::view::goals::Goal;
use crate::view::jumps::{first_match_from, jump_to};
use crate::view::moves::row_of_move;
use crate::view::typed::Pending;
use crate::view::{Onward, View};
use crate::view_action::ViewAction;
use minus::{CommandOf, Event, InputEvent, IoCommand, OutputSink, SearchMode};

impl<S: OutputSink + Drop> View<S> {
    // Moves the page by rows.
    fn move_by(&mut self, action: ViewAction) -> Result<(), Fault> {
        let count = match action {
            ViewAction::HalfPageDown | ViewAction::HalfPageUp => self.typed.remember_half_page(),
            _ => self.typed.count,
        };
        let row = row_of_move(self.session.state(), action, count);
        self.go_to_row(row)
    }

    // Goes to the counted line, or else to the end, once that was read.
    fn go_to_last(&mut self) -> Result<(), Fault> {
        self.begin_jump();
        match self.typed.count {
            Some(number) => self.head_for(Goal::Line(number.saturating_sub(1))),
            None => self.head_for(Goal::End),
        }
    }

    // Goes to the counted line, or else to the first one.
    fn go_to_first(&mut self) -> Result<(), Fault> {
        self.begin_jump();
        let number = self.typed.count.unwrap_or(1);
        self.head_for(Goal::Line(number.saturating_sub(1)))
    }

    // Moves the page to the side, to the right or to the left, where lines are not wrapped.
    fn shift(&mut self, to_the_right: bool) -> Result<(), Fault> {
        let count = self.typed.remember_half_width();
        let state = self.session.state();
        let columns = count.unwrap_or(state.cols / 2);
        let left = if to_the_right {
            state.left_mark.saturating_add(columns)
        } else {
            state.left_mark.saturating_sub(columns)
        };
        self.command(CommandOf::UserInput(InputEvent::UpdateLeftMark(left)))
    }

    /// Keeps where a jump begins, but for one in help.
    pub(super) fn begin_jump(&mut self) {
        if !self.session.state().help_open() {
            self.places.before = self.place();
        }
    }

    /// Goes to the match at a place among all, counted from 0, and reports it. A move up ends following.
    pub(super) fn lead_to(&mut self, place: usize) -> Result<(), Fault> {
        if let Some(row) = self.session.state().matches().row(place) {
            self.end_following_above(row)?;
        }
        let jump = jump_to(self.session.state(), place);
        self.command(CommandOf::UserInput(InputEvent::MoveToNextMatch(jump)))
    }

    // The match that is reported, where the page is at it: that begins with its row, or is the last one and has it.
    fn match_at_page(&self) -> Option<usize> {
        let state = self.session.state();
        let told = state.search_mark();
        let row = state.matches().row(told)?;
        let is_on_last = row > state.upper_mark && state.upper_mark >= state.top();
        (row == state.upper_mark || is_on_last).then_some(told)
    }

    // Goes on among the matches, down the text, past the last one at the first.
    fn match_down(&mut self, jump: usize) -> Result<(), Fault> {
        let state = self.session.state();
        let place = match self.match_at_page() {
            Some(told) => told.saturating_add(jump),
            None => {
                let next = first_match_from(state, state.upper_mark.saturating_add(1));
                next.saturating_add(jump.saturating_sub(1))
            }
        };
        self.head_for(Goal::Match(place))
    }

    // Goes on among the matches, up the text, and ends at the first one.
    fn match_up(&mut self, jump: usize) -> Result<(), Fault> {
        let state = self.session.state();
        let behind = match self.match_at_page() {
            Some(told) => told,
            None => first_match_from(state, state.upper_mark),
        };
        if behind == 0 {
            self.notices.was_missed = true;
            return Ok(());
        }
        self.lead_to(behind.saturating_sub(jump))
    }

    /// Goes to the next match in the direction of the search, or against it. Matches that are not shown any more are
    /// shown again for that.
    pub(super) fn next_match(&mut self, is_onward: bool) -> Result<(), Fault> {
        self.show_hidden()?;
        if self.session.state().term().is_none() {
            return self.say("nothing was searched for before (Return)");
        }
        let jump = self.typed.count.unwrap_or(1);
        self.begin_jump();
        match self.session.state().search_state.search_mode {
            SearchMode::Unknown => Ok(()),
            SearchMode::Forward if is_onward => self.match_down(jump),
            SearchMode::Reverse if !is_onward => self.match_down(jump),
            SearchMode::Forward | SearchMode::Reverse => self.match_up(jump),
        }
    }

    // Ends what goes on, or else the program: a number that is typed, too. Where the text is not whole, what goes on is
    // its writing.
    fn interrupt(&mut self, was_reading: bool) -> Result<Onward, Fault> {
        if was_reading || self.typed.count.is_some() {
            return Ok(Onward::On);
        }
        if self.end_following()? {
            return Ok(Onward::On);
        }
        if self.reading.is_whole {
            return Ok(Onward::Ended);
        }
        Ok(Onward::Interrupted)
    }

    // Takes the marks of the matches off the page, or puts them there again.
    fn turn_matches(&mut self) -> Result<(), Fault> {
        match self.session.state().term() {
            Some(term) => {
                let pattern = String::from_str(self.alloc, term.as_str())?;
                self.set_term(None)?;
                self.queries.hidden = Some(pattern);
                Ok(())
            }
            None => self.show_hidden(),
        }
    }

    // Goes to the line at the counted per cent of the text, or else to the first one.
    fn go_to_part(&mut self) -> Result<(), Fault> {
        self.begin_jump();
        self.head_for(Goal::Percent(self.typed.count.unwrap_or(0)))
    }

    // Waits for the key that is typed next.
    fn await_key(&mut self, pending: Pending) -> Result<(), Fault> {
        self.typed.pending = Some(pending);
        Ok(())
    }

    /// Does what a key asks for that no default action does. The session is told the key too: it asks that for nothing,
    /// and the typed number goes.
    pub(super) fn do_action(&mut self, action: ViewAction, event: Event) -> Result<Onward, Fault> {
        let was_reading = self.is_reading_on();
        self.take_count(event)?;
        match action {
            ViewAction::Interrupt => return self.interrupt(was_reading),
            ViewAction::PageDown
            | ViewAction::PageUp
            | ViewAction::HalfPageDown
            | ViewAction::HalfPageUp => self.move_by(action)?,
            ViewAction::FirstLine => self.go_to_first()?,
            ViewAction::LastLine => self.go_to_last()?,
            ViewAction::Percent => self.go_to_part()?,
            ViewAction::Right => self.shift(true)?,
            ViewAction::Left => self.shift(false)?,
            ViewAction::NextMatch => self.next_match(true)?,
            ViewAction::PreviousMatch => self.next_match(false)?,
            ViewAction::TurnMatches => self.turn_matches()?,
            ViewAction::Redraw => self.command(CommandOf::Io(IoCommand::RedrawDisplay))?,
            ViewAction::TellPlace => self.tell_place()?,
            ViewAction::SetMark => self.await_key(Pending::SetMark)?,
            ViewAction::GoToMark => self.await_key(Pending::GoToMark)?,
            ViewAction::SetOption => self.await_key(Pending::Option)?,
            ViewAction::Command => self.await_key(Pending::Command)?,
            ViewAction::EndTwice => self.await_key(Pending::End)?,
            ViewAction::PassLine => self.await_key(Pending::Line)?,
        }
        Ok(Onward::On)
    }
}
