//! The callbacks of an exit.
use std::alloc::{AllocError, Global};

/// What can be called at an exit.
pub trait ExitCall {
    /// The pager exits.
    fn call(&mut self);
}

/// Callbacks of the kind `C`, in the order in which they were added.
#[derive(Drop)]
pub struct ExitCallbacks<C> {
    callbacks: Vec<C>,
}

impl<C: Drop> ExitCallbacks<C> {
    ghost use Rattle.std.specs.Prelude.{ℕ, ◌≡◌, ◌+◌, ◌++◌, ◌∷◌, [], length, nat_eq, OnOk, OnErr};
    ghost use Rattle.minus_state.specs.Exits.{exits_of, HasExitRoom};

    /// No callbacks.
    pub fn new(alloc: Global) -> ExitCallbacks<C>
        ensures { exits_of result ≡ [] }
    {
        ExitCallbacks {
            callbacks: Vec::new(alloc),
        }
    }

    /// The number of callbacks.
    pub fn len(&self) -> usize
        ensures { result ≡ length (exits_of self.now) }
    {
        self.callbacks.len()
    }

    /// Whether there are none.
    pub fn is_empty(&self) -> bool
        ensures { result ≡ nat_eq (length (exits_of self.now)) 0 }
    {
        self.callbacks.is_empty()
    }

    /// The callbacks, in the order in which they were added.
    pub fn as_slice(&self) -> &[C]
        ensures { result.now ≡ exits_of self.now }
    {
        self.callbacks.as_slice()
    }

    /// Makes room for this number of callbacks more: this many are added without memory. The callbacks stay, whether
    /// there is room or not.
    ///
    /// # Errors
    ///
    /// [`AllocError`] where there is no memory for it.
    pub fn reserve(&mut self, callbacks: usize) -> Result<(), AllocError>
        ensures held { exits_of self.new ≡ exits_of self.old }
        ensures room { OnOk result (HasExitRoom self.new callbacks) }
    {
        self.callbacks.reserve(callbacks)
    }

    /// Adds a callback behind all others.
    ///
    /// # Errors
    ///
    /// [`AllocError`] where there is no memory for it, which drops it and changes nothing.
    pub fn push(&mut self, callback: C) -> Result<(), AllocError>
        ensures ok { OnOk result (exits_of self.new ≡ exits_of self.old ++ callback ∷ []) }
        ensures err { OnErr result (exits_of self.new ≡ exits_of self.old) }
        ensures room { OnOk result ((more : ℕ) → HasExitRoom self.old (more + 1) → HasExitRoom self.new more) }
        ensures enough { OnErr result ((more : ℕ) → HasExitRoom self.old (more + 1) → ⊥) }
    {
        if self.callbacks.push(callback).is_err() {
            return Err(AllocError);
        }
        Ok(())
    }
}

impl<C: ExitCall> ExitCallbacks<C> {
    ghost use Rattle.std.specs.Prelude.{◌≡◌, length};
    ghost use Rattle.minus_state.specs.Exits.{exits_of};

    /// Calls each callback once, in the order in which they were added.
    pub fn run(&mut self)
        ensures { length (exits_of self.new) ≡ length (exits_of self.old) }
    {
        for callback in self.callbacks.iter_mut() {
            callback.call();
        }
    }
}
