//! Callbacks in boxes, each kept beside the fact that it may be called.
ghost use Rattle.std.specs.Prelude.{◌≡◌};

use crate::exits::ExitCall;
use crate::hooks::{HookCall, HookList};
use crate::state::PagerState;

/// A callback of a hook as its caller boxes it.
pub type HookCallback = Box<dyn FnMut(&PagerState)>;

/// A callback of an exit as its caller boxes it.
pub type ExitCallback = Box<dyn FnMut()>;

/// A callback that may be called at a hook in every state, however often.
#[derive(Drop)]
pub struct KeptHook {
    callback: HookCallback,
    ghost callable: { HookCallback.IsAlwaysCallable callback },
}

impl KeptHook {
    /// Keeps a callback.
    pub fn new(callback: HookCallback) -> KeptHook
        requires { HookCallback.IsAlwaysCallable callback }
        ensures { result.callback ≡ callback }
    {
        KeptHook { callback }
    }
}

impl HookCall for KeptHook {
    fn call(&mut self, state: &PagerState) {
        (self.callback)(state);
    }
}

/// The callbacks of all hooks, in boxes.
pub type Hooks = HookList<KeptHook>;

/// A callback that may be called at an exit, however often.
#[derive(Drop)]
pub struct KeptExit {
    callback: ExitCallback,
    ghost callable: { ExitCallback.IsAlwaysCallable callback },
}

impl KeptExit {
    /// Keeps a callback.
    pub fn new(callback: ExitCallback) -> KeptExit
        requires { ExitCallback.IsAlwaysCallable callback }
        ensures { result.callback ≡ callback }
    {
        KeptExit { callback }
    }
}

impl ExitCall for KeptExit {
    fn call(&mut self) {
        (self.callback)();
    }
}

/// No callback: as the kind of the callbacks of hooks and of exits it stands where a session keeps none in a box.
#[derive(Clone, Copy, Drop)]
pub struct NeverCalled;

impl HookCall for NeverCalled {
    fn call(&mut self, _state: &PagerState) {}
}

impl ExitCall for NeverCalled {
    fn call(&mut self) {}
}
