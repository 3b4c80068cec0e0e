//! How the keys of a register are compared and hashed.
ghost use Rattle.std.specs.Prelude.{◌≡◌};
ghost use Rattle.std.specs.Cmp.{partial_equiv_from_equiv};
ghost use Rattle.minus_input.specs.EventForm.{form_of, same_event, EqualEventsHashEqually};
ghost use Rattle.minus_input.specs.EventForm.{ResizesAreOneKey, MouseGoesByKindAndModifiers, KeysGoByTheirEquality, WildIsItselfAlone};
ghost use Rattle.minus_input.specs.EventEquality.{same_event_laws, same_event_writes, event_writes};

use crate::event_form::{EventForm, EventWrapper};
use minus_term::{Event, KeyEvent};
use std::hash::{Hash, Hasher};

impl EventWrapper {
    /// What a key of a register is compared and hashed by: a key event by its normal form, an event of the mouse by
    /// what is done and the modifiers, and each resize alike.
    pub fn form(&self) -> EventForm
        ensures { result ≡ form_of self.now }
    {
        match self {
            EventWrapper::WildEvent => EventForm::Wild,
            EventWrapper::ExactMatchEvent(event) => match event {
                Event::FocusGained => EventForm::FocusGained,
                Event::FocusLost => EventForm::FocusLost,
                Event::Key(key) => EventForm::Key(key.normal()),
                Event::Mouse(mouse) => EventForm::Mouse(mouse.kind, mouse.modifiers),
                Event::Resize(_, _) => EventForm::Resize,
            },
        }
    }
}

impl From<Event> for EventWrapper {
    ghost use Rattle.minus_input.specs.declared.event_form.EventWrapper.TheVariants.{ExactMatchEvent};

    ghost from_gives = { λ event key. key ≡ ExactMatchEvent event };

    fn from(event: Event) -> EventWrapper {
        EventWrapper::ExactMatchEvent(event)
    }
}

impl From<&Event> for EventWrapper {
    ghost use Rattle.minus_input.specs.declared.event_form.EventWrapper.TheVariants.{ExactMatchEvent};

    ghost from_gives = { λ event key. key ≡ ExactMatchEvent event.now };

    fn from(event: &Event) -> EventWrapper {
        EventWrapper::ExactMatchEvent(*event)
    }
}

impl PartialEq for EventWrapper {
    ghost eq = { same_event };

    ghost laws = { partial_equiv_from_equiv same_event_laws };

    #[tactic(auto, unfolding(crate::specs::EventForm::same_event))]
    fn eq(&self, other: &EventWrapper) -> bool {
        self.form() == other.form()
    }
}

impl Eq for EventWrapper {
    ghost laws = { same_event_laws };
}

impl Hash for EventWrapper {
    ghost hash_input = { event_writes };

    ghost respects_eq = { same_event_writes };

    fn hash<H: Hasher>(&self, state: &mut H) {
        self.form().hash(state);
    }
}

/// A law: equal keys of a register hash equally.
pub fn equal_events_hash_equally()
    ensures { EqualEventsHashEqually same_event event_writes }
{}

/// A law: as keys of a register all resizes are equal.
#[tactic(auto, unfolding(crate::specs::EventForm::same_event))]
pub fn resizes_are_one_key()
    ensures { ResizesAreOneKey same_event }
{}

/// A law: as keys of a register, events of the mouse are equal where what is done and the modifiers are the same,
/// wherever the mouse is.
#[tactic(auto, unfolding(crate::specs::EventForm::same_event))]
pub fn mouse_goes_by_kind_and_modifiers()
    ensures { MouseGoesByKindAndModifiers same_event }
{}

/// A law: as keys of a register, key events are equal where they are equal by themselves.
#[tactic(auto, unfolding(crate::specs::EventForm::same_event))]
pub fn keys_go_by_their_equality()
    ensures { KeysGoByTheirEquality same_event ⟦<KeyEvent as PartialEq>⟧.eq }
{}

/// A law: the wild key is equal to itself and to no other key.
#[tactic(auto, unfolding(crate::specs::EventForm::same_event))]
pub fn wild_is_itself_alone()
    ensures { WildIsItselfAlone same_event }
{}
