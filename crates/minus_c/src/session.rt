//! What stands behind a pointer: a session, with what it keeps for its caller.
ghost use Rattle.std.specs.Prelude.{◌≡◌, ⊤};

use minus::{
    ActionCall, ConditionCall, Core, Event, EventTable, FixedSeed, Hook, HookCall, InputEvent,
    Kinds, NeverCalled, PagerOf, PagerState, SearchOpts, WithTty,
};
use std::cell::Cell;
use std::rc::Rc;

/// A callback that notes that its hook was due.
#[derive(Drop)]
pub struct NotesHook {
    /// The bit of the hook.
    pub bit: u8,
    /// The bits of the hooks that were due.
    pub due: Rc<Cell<u8>>,
}

impl HookCall for NotesHook {
    fn call(&mut self, _state: &PagerState) {
        self.due.set(self.due.get() | self.bit);
    }
}

/// A condition of an incremental search that answers what the caller said last.
#[derive(Drop)]
pub struct AsTold {
    /// Whether the page shows where a query leads.
    pub is_shown: Rc<Cell<bool>>,
}

impl ConditionCall for AsTold {
    ghost judges = { λ condition opts answer. ⊤ };

    fn ask(&self, _opts: &SearchOpts<'_>) -> bool {
        self.is_shown.get()
    }
}

/// An action that asks for nothing. No key is bound to it.
#[derive(Clone, Copy, Drop)]
pub struct NoAction;

impl ActionCall for NoAction {
    ghost use Rattle.minus_state.specs.declared.input.InputEvent.TheVariants.{Ignore};

    ghost answers = { λ action event state answer. answer ≡ Ignore };

    fn ask(&self, _event: &Event, _state: &PagerState) -> InputEvent {
        InputEvent::Ignore
    }
}

/// The bindings of a session.
pub type OwnKeys = EventTable<FixedSeed, NoAction>;

/// What a session keeps: callbacks that note, no callback of an exit, a condition that answers what it was told.
pub type OwnKinds = Kinds<NotesHook, NeverCalled, AsTold, OwnKeys>;

/// Where a session writes: bytes that the caller takes.
pub type Bytes = WithTty<Vec<u8>>;

/// A pager that was not started yet.
#[derive(Drop)]
pub struct Unstarted {
    /// What it was told.
    pub pager: PagerOf<OwnKinds>,
}

/// A session that was started.
#[derive(Drop)]
pub struct Session {
    /// The session.
    pub core: Core<Bytes, OwnKinds>,
}

/// The bit of a hook.
pub fn bit_of(hook: Hook) -> u8 {
    match hook {
        Hook::PrePagerStart => 1,
        Hook::PostPagerStart => 2,
        Hook::EofReached => 4,
        Hook::PrePagerExit => 8,
        Hook::PostPagerExit => 16,
    }
}
