//! What decides about the keys of a script.
ghost use Rattle.std.specs.Prelude.{◌≡◌};
ghost use Rattle.minus_input.specs.DefaultBindings.{default_register};
ghost use Rattle.minus_input.specs.EventTables.{register_of};

use minus::{
    ActionCall, Event, EventTable, FixedSeed, InputClassifier, InputEvent, Kinds, NeverCalled,
    NeverShows, PagerState,
};
use std::alloc::{AllocError, Global};

/// The callback of a register that has none: it asks for nothing, and no key is bound to it.
#[derive(Clone, Copy, Drop)]
pub struct NoCallback;

impl ActionCall for NoCallback {
    ghost use Rattle.minus_state.specs.declared.input.InputEvent.TheVariants.{Ignore};

    ghost answers = { λ callback event state answer. answer ≡ Ignore };

    fn ask(&self, _event: &Event, _state: &PagerState) -> InputEvent {
        InputEvent::Ignore
    }
}

/// What decides about the keys of a script: a register of the default bindings.
#[derive(Drop)]
pub struct DefaultKeys {
    register: EventTable<FixedSeed, NoCallback>,
    ghost default: { register_of register ≡ default_register },
}

/// The kinds of the sessions that run scripts: no condition is handed to one.
pub type ScriptKinds = Kinds<NeverCalled, NeverCalled, NeverShows, DefaultKeys>;

impl DefaultKeys {
    /// A register of the default bindings.
    ///
    /// # Errors
    ///
    /// [`AllocError`] where memory ran out.
    pub fn new(alloc: Global) -> Result<DefaultKeys, AllocError> {
        let register = EventTable::default_bindings(alloc)?;
        Ok(DefaultKeys { register })
    }
}

impl InputClassifier for DefaultKeys {
    ghost use Rattle.minus_script.specs.Keys.{default_keys_say};

    ghost says = { default_keys_say };

    fn classify_input(&self, event: Event, state: &PagerState) -> Option<InputEvent> {
        self.register.classify_input(event, state)
    }

    fn format_help(&self, alloc: Global) -> Result<Option<String>, AllocError> {
        self.register.format_help(alloc)
    }
}
