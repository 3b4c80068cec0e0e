//! The keys of a register: what of an event decides which binding it has.
use minus_term::{Event, KeyModifiers, MouseEventKind, NormalKey};

/// What two keys of a register are compared and hashed by.
#[derive(Clone, Copy, PartialEq, Eq, Hash)]
pub enum EventForm {
    /// The terminal has gained the focus.
    FocusGained,
    /// The terminal has lost the focus.
    FocusLost,
    /// A key, by its normal form.
    Key(NormalKey),
    /// What is done with the mouse and the modifiers, wherever the mouse is.
    Mouse(MouseEventKind, KeyModifiers),
    /// A resize, to whatever size.
    Resize,
    /// Every event that no other key stands for.
    Wild,
}

/// A key of a register. Two are equal where their forms are: see [`EventWrapper::form`].
#[derive(Clone, Copy, Debug)]
pub enum EventWrapper {
    /// This event.
    ExactMatchEvent(Event),
    /// Every event that no other key stands for.
    WildEvent,
}
