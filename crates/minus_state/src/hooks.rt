//! The callbacks of hooks, each held under an id of its hook.
ghost use Rattle.std.specs.Prelude.{◌≡◌, ◌<◌, ◌^◌, ◌+◌, length, vec_len, false, OnOk, IfOk, IfErr, SomeIff, position};
ghost use Rattle.std.specs.List.{IsDistinct};
ghost use Rattle.std.proofs.Props.{props};
ghost use Rattle.minus_term.specs.Refusals.{refusal_of};
ghost use Rattle.minus_state.specs.HookIds.{same_id, ids_of, greatest, next_free, is_reserved, is_taken, has_no_next};
ghost use Rattle.minus_state.specs.HookIds.{given, IsUngiven, AreOthersKept};

use crate::state::PagerState;
use minus_term::{Hook, MinusError};
use std::alloc::{AllocError, Global};

/// A hook, and the id of one of its callbacks.
#[derive(Clone, Copy, Debug, PartialEq, Eq)]
pub struct HookId {
    pub hook: Hook,
    pub id: u64,
}

/// What can be called at a hook.
pub trait HookCall {
    /// The pager has come to the hook in this state.
    fn call(&mut self, state: &PagerState);
}

/// Callbacks of the kind `C` in the order in which they were added, each under its hook and an id. No hook holds an id
/// twice.
#[derive(Drop)]
pub struct HookList<C> {
    ids: Vec<HookId>,
    callbacks: Vec<C>,
    ghost paired: { vec_len ids ≡ vec_len callbacks },
    ghost once: { IsDistinct same_id ids.items } by { Prim.hlevel props },
}

/// Whether the pager keeps an id of a hook for itself: 1 of [`Hook::PostPagerExit`].
pub fn is_reserved(hook: Hook, id: u64) -> bool
    ensures { result ≡ is_reserved hook id }
{
    hook == Hook::PostPagerExit && id == 1
}

// Where an id of a hook stands.
fn place_of(ids: &[HookId], wanted: HookId) -> Option<usize>
    ensures { result ≡ position (same_id wanted) ids.now }
{
    ids.iter().position(|entry| wanted == *entry)
}

// The greatest id that a hook holds, or 0.
fn greatest(ids: &[HookId], hook: Hook) -> u64
    ensures { result ≡ greatest (ids_of ids.now hook) }
{
    let mut greatest = 0;
    for entry in ids {
        if hook == entry.hook {
            greatest = entry.id.max(greatest);
        }
    }
    greatest
}

// The next free id of a hook, if it is a number of 64 bits.
fn next_free(ids: &[HookId], hook: Hook) -> Option<u64>
    ensures { SomeIff result (next_free ids.now hook < 2 ^ 64) (next_free ids.now hook) }
{
    greatest(ids, hook).checked_add(1).map(|next| next.max(2))
}

// The id that is given where this one is asked for.
fn given(ids: &[HookId], hook: Hook, id: u64) -> Result<u64, MinusError>
    ensures ok { IfOk result (λ taken. taken ≡ given ids.now hook id) }
    ensures free { OnOk result (is_taken ids.now hook id ≡ false) }
    ensures next { OnOk result (has_no_next ids.now hook id ≡ false) }
    ensures refused { IfErr result (λ e. IsUngiven (refusal_of e) ids.now hook id) }
{
    if id == 0 {
        return next_free(ids, hook).ok_or(MinusError::NoFreeHookId);
    }
    if is_reserved(hook, id) || place_of(ids, HookId { hook, id }).is_some() {
        return Err(MinusError::HookIdTaken(hook, id));
    }
    Ok(id)
}

// Calls each callback whose id is one of the hook, and no other.
fn call_each<C: HookCall>(ids: &[HookId], callbacks: &mut [C], hook: Hook, state: &PagerState)
    requires { length ids.now ≡ length callbacks.old }
    ensures count { length callbacks.new ≡ length callbacks.old }
    ensures others { AreOthersKept hook ids.now callbacks.old callbacks.new }
{
    for i in 0..ids.len() {
        if ids[i].hook == hook {
            callbacks[i].call(state);
        }
    }
}

impl<C: Drop> HookList<C> {
    ghost use Rattle.std.specs.Prelude.{ℕ, ◌↔◌, None, IsTrue, IsErrOf, OnErr};
    ghost use Rattle.minus_state.specs.HookIds.{is_held, IsUnadded};
    ghost use Rattle.minus_state.specs.Hooks.{held_by, none_held, with_callback, added, removed, HasRoom};

    /// No callbacks.
    pub fn new(alloc: Global) -> HookList<C>
        ensures { held_by result ≡ none_held }
    {
        HookList {
            ids: Vec::new(alloc),
            callbacks: Vec::new(alloc),
        }
    }

    /// The ids that are held, each with its hook, in the order in which they were added.
    pub fn ids(&self) -> &[HookId]
        ensures ids { result.now ≡ (held_by self.now).ids }
        ensures once { IsDistinct same_id result.now }
    {
        &self.ids
    }

    /// Makes room for this number of callbacks more: this many are added without memory. What is held stays, whether
    /// there is room or not.
    ///
    /// # Errors
    ///
    /// [`AllocError`] where there is no memory for it.
    pub fn reserve(&mut self, callbacks: usize) -> Result<(), AllocError>
        ensures held { held_by self.new ≡ held_by self.old }
        ensures room { OnOk result (HasRoom self.new callbacks) }
    {
        self.ids.reserve(callbacks)?;
        self.callbacks.reserve(callbacks)?;
        Ok(())
    }

    // Holds one more callback. An `Err` changes nothing.
    fn push(&mut self, entry: HookId, callback: C) -> Result<(), AllocError>
        requires { position (same_id entry) (held_by self.old).ids ≡ None }
        ensures ok { OnOk result (held_by self.new ≡ with_callback (held_by self.old) entry callback) }
        ensures room { OnOk result ((more : ℕ) → HasRoom self.old (more + 1) → HasRoom self.new more) }
        ensures full { OnErr result ((more : ℕ) → HasRoom self.old (more + 1) → ⊥) }
        ensures err { OnErr result (held_by self.new ≡ held_by self.old) }
    {
        self.ids.reserve(1)?;
        if self.callbacks.push(callback).is_err() {
            return Err(AllocError);
        }
        self.ids.push(entry).unwrap();
        Ok(())
    }

    /// Adds a callback behind all others, under an id of a hook; 0 asks for the next free one, which is one more than
    /// the greatest that the hook holds, and at least 2.
    ///
    /// # Errors
    ///
    /// [`MinusError::HookIdTaken`] exactly where the hook holds the id, or where it is 1 of [`Hook::PostPagerExit`],
    /// which the pager keeps for itself; [`MinusError::NoFreeHookId`] exactly where 0 asks for an id and the greatest
    /// that the hook holds is `u64::MAX`; and [`MinusError::Memory`] where there is no memory for one more. Each drops
    /// the callback and changes nothing.
    pub fn add_callback(&mut self, hook: Hook, id: u64, callback: C) -> Result<(), MinusError>
        ensures ok { OnOk result (held_by self.new ≡ added (held_by self.old) hook id callback) }
        ensures taken { IsErrOf result (MinusError.HookIdTaken hook id)
            ↔ IsTrue (is_taken (held_by self.old).ids hook id) }
        ensures full { IsErrOf result MinusError.NoFreeHookId ↔ IsTrue (has_no_next (held_by self.old).ids hook id) }
        ensures refused { IfErr result (λ e. IsUnadded (refusal_of e) (held_by self.old).ids hook id) }
        ensures err { OnErr result (held_by self.new ≡ held_by self.old) }
        ensures room { OnOk result ((more : ℕ) → HasRoom self.old (more + 1) → HasRoom self.new more) }
        ensures enough { IsErrOf result MinusError.Memory → (more : ℕ) → HasRoom self.old (more + 1) → ⊥ }
    {
        let id = given(&self.ids, hook, id)?;
        self.push(HookId { hook, id }, callback)?;
        Ok(())
    }

    /// Removes the callback that a hook holds under an id, and says whether there is one. The others close up. It takes
    /// no memory.
    pub fn remove_callback(&mut self, hook: Hook, id: u64) -> bool
        ensures held { result ≡ is_held (held_by self.old).ids hook id }
        ensures rest { held_by self.new ≡ removed (held_by self.old) hook id }
        ensures room { (more : ℕ) → HasRoom self.old more → HasRoom self.new more }
    {
        match place_of(&self.ids, HookId { hook, id }) {
            Some(place) => {
                self.ids.remove(place);
                self.callbacks.remove(place);
                true
            }
            None => false,
        }
    }
}

impl<C: HookCall> HookList<C> {
    ghost use Rattle.minus_state.specs.Hooks.{held_by, CallsAlone};

    /// Calls each callback of a hook once, in the order in which they were added, and no other.
    pub fn run_hooks(&mut self, hook: Hook, state: &PagerState)
        ensures { CallsAlone hook (held_by self.old) (held_by self.new) }
    {
        call_each(&self.ids, &mut self.callbacks, hook, state);
    }
}
