//! The typed prefix: which events type to it, what is typed, and which events let it go.
ghost use Rattle.std.specs.Prelude.{◌≡◌};
ghost use Rattle.minus_state.specs.TypedPrefix.{typed_digit};

use crate::change::{Change, Redraw};
use crate::input::InputEvent;
use crate::state::PagerState;
use minus_term::{Event, KeyCode, KeyModifiers, MinusError};
use std::alloc::Global;

/// What an event asks for as a typed digit: an ASCII digit without modifiers is typed to the prefix.
pub fn typed_digit(event: &Event) -> InputEvent
    ensures { result ≡ typed_digit event.now }
{
    match event {
        Event::Key(key) => match key.code {
            KeyCode::Char(c) if c.is_ascii_digit() && key.modifiers == KeyModifiers::NONE => {
                InputEvent::Number(c)
            }
            _ => InputEvent::Ignore,
        },
        _ => InputEvent::Ignore,
    }
}

impl InputEvent {
    ghost use Rattle.minus_state.specs.TypedPrefix.{event_clears};

    /// Whether the typed prefix goes with it: it does unless it is typed to.
    pub fn clears_prefix(&self) -> bool
        ensures { result ≡ event_clears self.now }
    {
        match self {
            InputEvent::Number(_) => false,
            _ => true,
        }
    }
}

impl PagerState {
    ghost use Rattle.std.specs.Prelude.{string_bytes, IfOk, IfErr, ◌++◌, encode_utf8};
    ghost use Rattle.minus_state.specs.Changes.{Leads};
    ghost use Rattle.minus_state.specs.TypedPrefix.{with_prefix};
    ghost use Rattle.minus_state.specs.States.{control_of};

    /// The state with one more character of the typed prefix.
    ///
    /// # Errors
    ///
    /// [`MinusError::Memory`] where there is no memory for it.
    pub fn typed(&self, alloc: Global, character: char) -> Result<Change, MinusError>
        ensures next { IfOk result (λ c. Leads self.now c (with_prefix (control_of self.now)
            (string_bytes self.now.prefix_num ++ encode_utf8 character))) }
        ensures redraw { IfOk result (λ c. c.redraw ≡ Redraw.Stays) }
        ensures memory { IfErr result (λ e. e ≡ MinusError.Memory) }
    {
        let mut prefix = String::from_str(alloc, &self.prefix_num)?;
        prefix.push(character)?;
        let mut change = self.redrawn(Redraw::Stays);
        change.prefix = Some(prefix);
        Ok(change)
    }
}
