//! Following the end of the text: what ends it, what lets it rest, and how it goes on.
ghost use Rattle.std.specs.Prelude.{◌≡◌};
ghost use Rattle.minus_app.specs.Following.{leads_up};
ghost use Rattle.minus_state.specs.States.{control_of, IsFormed};

use crate::fault::Fault;
use crate::view::View;
use minus::{CommandOf, Event, InputEvent, OutputSink, PagerState};

// Whether what an event asks for is a page that begins above the displayed one.
fn leads_up(state: &PagerState, asked: InputEvent) -> bool
    ensures { IsFormed state.now → result ≡ leads_up (control_of state.now) asked }
{
    let mark = match asked {
        InputEvent::UpdateUpperMark(mark) => Some(mark),
        InputEvent::NextMatch => state.next_match_row(1),
        InputEvent::PrevMatch => state.prev_match_row(1),
        InputEvent::MoveToNextMatch(jump) => state.next_match_row(jump),
        InputEvent::MoveToPrevMatch(jump) => state.prev_match_row(jump),
        _ => None,
    };
    mark.unwrap_or(state.upper_mark) < state.upper_mark
}

impl<S: OutputSink + Drop> View<S> {
    /// Ends following, and answers whether the end was followed.
    pub(super) fn end_following(&mut self) -> Result<bool, Fault> {
        let was_followed = self.session.state().follow_output();
        if was_followed {
            self.command(CommandOf::FollowOutput(false))?;
        }
        Ok(was_followed)
    }

    /// Ends following where a row stands above the page, since the page moves up to it.
    pub(super) fn end_following_above(&mut self, row: usize) -> Result<(), Fault> {
        if row < self.session.state().upper_mark {
            let _ = self.end_following()?;
        }
        Ok(())
    }

    // What an event asks for, where that ends following: a page further up, or the search prompt, while which it rests.
    fn asked_away(&self, event: Event) -> Option<InputEvent> {
        let state = self.session.state();
        if !state.follow_output() || state.help_open() {
            return None;
        }
        match self.asked(event) {
            Some(InputEvent::Search(mode)) => Some(InputEvent::Search(mode)),
            Some(asked) if leads_up(state, asked) => Some(asked),
            _ => None,
        }
    }

    /// Ends following where an event leads up, and lets it rest where one opens the search prompt. Neither moves the
    /// page, which is the last one then.
    pub(super) fn leave_the_end(&mut self, event: Event) -> Result<(), Fault> {
        let Some(asked) = self.asked_away(event) else {
            return Ok(());
        };
        if let InputEvent::Search(_) = asked {
            self.queries.rests_from = Some(self.session.state().upper_mark);
        }
        self.command(CommandOf::FollowOutput(false))
    }

    /// Goes on following, where the search prompt that let it rest is closed and the page has not moved up.
    pub(super) fn follow_on(&mut self) -> Result<(), Fault> {
        if self.is_searching() {
            return Ok(());
        }
        let Some(mark) = self.queries.rests_from.take() else {
            return Ok(());
        };
        if self.session.state().upper_mark < mark {
            return Ok(());
        }
        self.command(CommandOf::FollowOutput(true))
    }
}
