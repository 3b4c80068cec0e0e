//! What is bound to the keys of a register.
use crate::default_action::DefaultAction;

/// What is done at an event: what a default binding does, or what a callback asks for.
#[derive(Drop)]
pub enum ActionOf<C> {
    /// What a default binding does.
    Default(DefaultAction),
    /// The callback is asked.
    Callback(C),
}

/// What a key is bound to.
#[derive(Clone, Copy)]
pub(crate) enum Bound {
    /// A default action.
    Default(DefaultAction),
    /// The callback of this number, of those that the register keeps.
    Callback(usize),
}

/// A callback, which the register keeps once for all the keys that one call bound to it.
#[derive(Drop)]
pub(crate) struct KeptCallback<C> {
    pub(crate) callback: C,
    /// What the help table says of its keys.
    pub(crate) description: String,
}

impl<C> ActionOf<C> {
    ghost use Rattle.std.specs.Prelude.{◌≡◌};
    ghost use Rattle.minus_input.specs.EventTables.{seen_action};

    // The action, with its callback borrowed.
    pub(crate) fn borrowed(&self) -> ActionOf<&C>
        ensures { seen_action result ≡ self.now }
    {
        match self {
            ActionOf::Default(action) => ActionOf::Default(*action),
            ActionOf::Callback(callback) => ActionOf::Callback(callback),
        }
    }
}
