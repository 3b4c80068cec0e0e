//! What the program does with an event: the key of an action, one for the search prompt, or one for the page.
//!
//! An event is asked about in this order, and the first that has a use for it takes it:
//! 1. the key before it, as the `m` of `ma`;
//! 2. the search prompt, while it is open (`searching`);
//! 3. `(pattern not found)`, which Enter only answers;
//! 4. an action of the program's (`actions`), for which Esc before a key stands for Alt;
//! 5. Ctrl-Z, which suspends the program;
//! 6. the session.
//!
//! So the `q` of `mq` keeps a place, that of `/q` is a letter of the query, and by itself it ends the program.
ghost use Rattle.std.specs.Prelude.{◌≡◌};
ghost use Rattle.minus_app.specs.Keys.{held};

use crate::fault::Fault;
use crate::keys::{own_number, view_action};
use crate::view::{Onward, View};
use crate::view_action::ViewAction;
use minus::{
    Event, InputClassifier, InputEvent, InputOf, KeyCode, KeyEvent, KeyModifiers, OutputSink,
};
use minus_view::{AtEnd, press};

// Whether an event is the key that suspends the program.
fn is_suspend(event: &Event) -> bool {
    match event {
        Event::Key(key) => {
            key.code == KeyCode::Char('z') && key.modifiers == KeyModifiers::CONTROL
        }
        _ => false,
    }
}

// Whether an event is the key Esc.
fn is_escape(event: &Event) -> bool {
    match event {
        Event::Key(key) => key.code == KeyCode::Esc && key.modifiers == KeyModifiers::NONE,
        _ => false,
    }
}

// A key without a modifier as it is with Alt; any other event stays.
fn with_alt(event: Event) -> Event {
    match event {
        Event::Key(key) if key.modifiers == KeyModifiers::NONE => Event::Key(KeyEvent {
            modifiers: KeyModifiers::ALT,
            ..key
        }),
        event => event,
    }
}

// What is done of an action: while help is open, only what moves its page.
fn held(is_help: bool, action: Option<ViewAction>) -> Option<ViewAction>
    ensures { result ≡ held is_help action }
{
    match action {
        Some(action) if is_help && !action.holds_in_help() => None,
        action => action,
    }
}

impl<S: OutputSink + Drop> View<S> {
    ghost use Rattle.minus_input.specs.EventTables.{register_of};
    ghost use Rattle.minus_app.specs.Keys.{own_number_at, view_action_at};

    /// Whether the next key is typed for the one before.
    pub(crate) fn awaits_key(&self) -> bool {
        self.typed.pending.is_some()
    }

    // The number of the application's action that an event leads to.
    pub(crate) fn own_number(&self, event: &Event) -> Option<usize>
        ensures { result ≡ own_number_at self.now.session.parts.state
            (register_of self.now.session.parts.classifier) event.now }
    {
        let state = self.session.state();
        if state.help_open() || state.open_search().is_some() {
            return None;
        }
        own_number(self.session.classifier(), event)
    }

    // What the pager does at an event that no default action does.
    fn action(&self, event: &Event) -> Option<ViewAction>
        ensures { result ≡ view_action_at self.now.session.parts.state
            (register_of self.now.session.parts.classifier) event.now }
    {
        let action = view_action(self.session.classifier(), event);
        held(self.session.state().help_open(), action)
    }

    /// Takes the typed number for an action. The key asks the session for nothing, which forgets the number at it.
    pub(crate) fn take_count(&mut self, event: Event) -> Result<(), Fault> {
        let prefix = self.session.state().prefix_num.as_str();
        self.typed.count = prefix.parse::<usize>().ok();
        self.begin_event();
        self.end_message(event)?;
        let _ = self.step(InputOf::Event(event))?;
        Ok(())
    }

    // What the events before this one left to be said is gone, and what the text was read on for.
    fn begin_event(&mut self) {
        self.reading.goal = None;
        self.notices.begin_event();
    }

    /// What an event asks the session for.
    pub(super) fn asked(&self, event: Event) -> Option<InputEvent> {
        let state = self.session.state();
        self.session.classifier().classify_input(event, state)
    }

    /// Whether an event ends what goes on.
    pub(crate) fn is_interrupt(&self, event: &Event) -> bool {
        self.action(event) == Some(ViewAction::Interrupt)
    }

    /// Whether an event ends the program.
    pub(crate) fn is_end(&self, event: &Event) -> bool {
        self.asked(*event) == Some(InputEvent::Exit)
    }

    // Whether the page shows the end of the whole text.
    fn is_at_end(&self) -> bool {
        let state = self.session.state();
        self.reading.is_whole && !state.help_open() && state.upper_mark >= state.top()
    }

    /// Whether the page shows the end of the text, and that ends the program: not while the text is followed, a key or
    /// the search prompt waits for more, or a message is to be read.
    pub(crate) fn ends_at_first(&self) -> bool {
        let state = self.session.state();
        let is_told = self.notices.was_missed || state.message.is_some();
        let waits = self.is_searching() || self.typed.pending.is_some() || is_told;
        self.at_end == AtEnd::EndsAtFirst && self.is_at_end() && !waits && !state.follow_output()
    }

    // Whether an event moves the page down by rows or pages.
    fn asks_down(&self, event: &Event) -> bool {
        if self.is_searching() || self.typed.pending.is_some() {
            return false;
        }
        if let Some(action) = self.action(event) {
            return action == ViewAction::PageDown || action == ViewAction::HalfPageDown;
        }
        match self.asked(*event) {
            Some(InputEvent::UpdateUpperMark(mark)) => mark > self.session.state().upper_mark,
            _ => false,
        }
    }

    /// Tells the session an event. One that moves up ends following first, which moves nothing then; the key that
    /// suspends is the program's, and so are some while the search prompt is open.
    ///
    /// # Errors
    ///
    /// [`Fault::Pager`] where the session refuses.
    pub(crate) fn tell(&mut self, event: Event) -> Result<Onward, Fault> {
        self.heed_mouse(&event);
        let (asks_down, was_at_end) = (self.asks_down(&event), self.is_at_end());
        let was_open = self.is_searching();
        let onward = self.tell_key(event)?;
        self.heed_prompt(was_open)?;
        let ends = self.at_end != AtEnd::Stays && asks_down && was_at_end;
        if ends && onward == Onward::On {
            return Ok(Onward::EndReached);
        }
        Ok(onward)
    }

    // Takes a key behind Esc as it is with Alt, where that does something that no default action does.
    fn escaped(&mut self, event: Event) -> Event {
        let was_escape = self.typed.heed_escape(is_escape(&event));
        let with_alt = with_alt(event);
        if was_escape && self.action(&with_alt).is_some() {
            return with_alt;
        }
        event
    }

    // Whether an event only answers that no row matches.
    fn answers(&self, event: &Event) -> bool {
        self.notices.was_missed && !self.is_searching() && *event == press(KeyCode::Enter, 0)
    }

    // Tells the session an event, or does what it leads to.
    fn tell_key(&mut self, event: Event) -> Result<Onward, Fault> {
        if let (Some(pending), Event::Key(_)) = (self.typed.pending, &event) {
            self.typed.pending = None;
            return self.take_key(pending, event);
        }
        if self.is_searching() {
            self.begin_event();
            return self.tell_search(event);
        }
        if self.answers(&event) {
            self.begin_event();
            return Ok(Onward::On);
        }
        let event = self.escaped(event);
        if let Some(action) = self.action(&event) {
            return self.do_action(action, event);
        }
        self.begin_event();
        if is_suspend(&event) {
            return Ok(Onward::Suspended);
        }
        self.end_message(event)?;
        self.leave_the_end(event)?;
        self.tell_page(event)
    }
}
