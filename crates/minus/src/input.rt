//! What the events of a terminal ask a pager for, and what decides about them.
pub mod crossterm_event;

pub use minus_input::bound::ActionOf;
pub use minus_input::callback::{ActionCall, ActionCallback, KeptAction};
pub use minus_input::classifier::{Classifier, FixedSeed, HashedEventRegister};
pub use minus_input::default_action::DefaultAction;
pub use minus_input::default_bindings::generate_default_bindings;
pub use minus_input::description::{parse_key_event, parse_mouse_event};
pub use minus_input::event_form::{EventForm, EventWrapper};
pub use minus_input::exact_keys::DefaultInputClassifier;
pub use minus_input::names::modifier_of;
pub use minus_input::register::EventTable;
pub use minus_state::input::{InputClassifier, InputEvent};
use std::alloc::{AllocError, Global};
