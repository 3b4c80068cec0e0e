//! Lists of descriptions, read as keys of a register.
ghost use Rattle.std.specs.Prelude.{ℕ, List, map, IfOk, IfErr, OnOk};
ghost use Rattle.minus_term.specs.declared.error.DescriptionError.{DescriptionError};
ghost use Rattle.minus_term.specs.Refusals.{refusal_of};
ghost use Rattle.minus_input.specs.Description.{KeyFault, MouseFault};
ghost use Rattle.minus_input.specs.Described.{Describe, IsKey, IsMouse};
ghost use Rattle.minus_input.specs.RegisterCalls.{IsRemoveRefused, IsUnread};
ghost use Rattle.minus_input.specs.declared.event_form.EventWrapper.{EventWrapper};

use crate::description::{parse_key_event, parse_mouse_event};
use crate::event_form::EventWrapper;
use minus_term::{DescriptionError, Event, MinusError};
use std::alloc::Global;

/// What the descriptions of a list are of.
pub(crate) trait Described {
    // The key of a register that a text describes.
    ghost describes: { List ℕ → EventWrapper → Type 0 };

    // Why a text describes nothing.
    ghost faulty: { List ℕ → DescriptionError → Type 0 };

    /// The key of a register that a text describes. It takes no memory.
    fn read(text: &str) -> Result<EventWrapper, DescriptionError>
        ensures ok { IfOk result (describes text.now) }
        ensures err { IfErr result (faulty text.now) };
}

/// Keys.
pub(crate) struct Keys;

impl Described for Keys {
    ghost describes = { IsKey };

    ghost faulty = { KeyFault };

    fn read(text: &str) -> Result<EventWrapper, DescriptionError> {
        let key = parse_key_event(text)?;
        Ok(EventWrapper::ExactMatchEvent(Event::Key(key)))
    }
}

/// What is done with the mouse.
pub(crate) struct MouseActions;

impl Described for MouseActions {
    ghost describes = { IsMouse };

    ghost faulty = { MouseFault };

    fn read(text: &str) -> Result<EventWrapper, DescriptionError> {
        let mouse = parse_mouse_event(text)?;
        Ok(EventWrapper::ExactMatchEvent(Event::Mouse(mouse)))
    }
}

// The keys that the texts of a list describe.
pub(crate) fn read_all<D: Described>(
    alloc: Global,
    texts: &[&str],
) -> Result<Vec<EventWrapper>, MinusError>
    ensures ok { IfOk result (λ keys. Describe D.describes (map (λ t. t.now) texts.now) keys.items) }
    ensures err { IfErr result (λ e. IsUnread D.describes D.faulty (map (λ t. t.now) texts.now) (refusal_of e)) }
{
    let mut keys = Vec::new(alloc);
    for place in 0..texts.len() {
        match D::read(texts[place]) {
            Ok(key) => {
                if keys.push(key).is_err() {
                    return Err(MinusError::Memory);
                }
            }
            Err(cause) => return Err(MinusError::BadDescription(place, cause)),
        }
    }
    Ok(keys)
}

// Whether each text of a list describes a key. It takes no memory.
pub(crate) fn check_all<D: Described>(texts: &[&str]) -> Result<(), MinusError>
    ensures ok { OnOk result ((keys : List EventWrapper) × Describe D.describes (map (λ t. t.now) texts.now) keys) }
    ensures err { IfErr result (λ e. IsRemoveRefused D.describes D.faulty (map (λ t. t.now) texts.now)
        (refusal_of e)) }
{
    for place in 0..texts.len() {
        if let Err(cause) = D::read(texts[place]) {
            return Err(MinusError::BadDescription(place, cause));
        }
    }
    Ok(())
}
