//! Callbacks that a register asks at events.
ghost use Rattle.std.specs.Prelude.{◌≡◌};

use minus_state::{InputEvent, PagerState};
use minus_term::Event;

/// What can be asked at an event.
pub trait ActionCall {
    ghost use Rattle.minus_term.specs.declared.event.Event.{Event};
    ghost use Rattle.minus_state.specs.declared.input.InputEvent.{InputEvent};
    ghost use Rattle.minus_state.specs.declared.state.PagerState.{PagerState};

    // The answers that it may give to an event in a state.
    ghost answers: { Self → Event → PagerState → InputEvent → Type 0 };

    /// What the event asks for in this state.
    fn ask(&self, event: &Event, state: &PagerState) -> InputEvent
        ensures { answers self.now event.now state.now result };
}

/// A callback as its caller boxes it: it says what an event asks for in a state.
pub type ActionCallback = Box<dyn Fn(&Event, &PagerState) -> InputEvent>;

/// A callback that may be asked about every event in every state.
#[derive(Drop)]
pub struct KeptAction {
    callback: ActionCallback,
    ghost callable: { ActionCallback.IsAlwaysCallable callback },
}

impl KeptAction {
    /// Keeps a callback.
    pub fn new(callback: ActionCallback) -> KeptAction
        requires { ActionCallback.IsAlwaysCallable callback }
        ensures { result.callback ≡ callback }
    {
        KeptAction { callback }
    }
}

// Asks a callback.
fn ask<F: Fn(&Event, &PagerState) -> InputEvent>(
    callback: &F,
    event: &Event,
    state: &PagerState,
) -> InputEvent
    requires { F.IsAlwaysCallable callback.now }
    ensures { F.post callback.now event.entry state.entry result }
{
    callback(event, state)
}

impl ActionCall for KeptAction {
    ghost use Rattle.std.specs.Borrow.{Bor};
    ghost use Rattle.minus_term.specs.declared.event.Event.{Event};
    ghost use Rattle.minus_state.specs.declared.state.PagerState.{PagerState};

    ghost answers = { λ kept e s answer. (event : Bor Event) × (state : Bor PagerState) × (event.now ≡ e)
        × (state.now ≡ s) × ActionCallback.post kept.callback event state answer };

    fn ask(&self, event: &Event, state: &PagerState) -> InputEvent {
        ask(&self.callback, event, state)
    }
}
