//! The register of bindings: keys in the order in which they were bound first, each with what is bound to it.
ghost use Rattle.std.specs.Prelude.{◌≡◌, ◌≤◌, length};
ghost use Rattle.std.proofs.Props.{props};
ghost use Rattle.indexmap.specs.IndexMap.{spare};
ghost use Rattle.minus_input.specs.EventForm.{same_event};
ghost use Rattle.minus_input.specs.Register.{bind_all};
ghost use Rattle.minus_input.specs.Resolved.{binding_at, EachIsRead};

use crate::bound::{ActionOf, Bound, KeptCallback};
use crate::event_form::EventWrapper;
use indexmap::IndexMap;
use minus_term::Event;
use std::alloc::{AllocError, Global};
use std::hash::BuildHasher;

/// A register of bindings over callbacks of the kind `C`, whose keys are hashed by `S`.
///
/// It is a list of keys in the order in which they were bound first, no key twice, each with its action, and one action
/// or none for all other events. A callback is kept once for all the keys that one call binds to it.
#[derive(Drop)]
pub struct EventTable<S: BuildHasher, C> {
    pub(crate) alloc: Global,
    pub(crate) bindings: IndexMap<EventWrapper, Bound, S>,
    pub(crate) callbacks: Vec<KeptCallback<C>>,
    pub(crate) wild: Option<ActionOf<C>>,
    pub(crate) ghost kept: { EachIsRead (binding_at callbacks.items) bindings.entries } by { Prim.hlevel props },
}

// Binds keys to one thing, where there is room for them.
fn insert_all<S: BuildHasher>(
    bindings: &mut IndexMap<EventWrapper, Bound, S>,
    keys: &[EventWrapper],
    bound: Bound,
)
    requires { length keys.now ≤ spare bindings.old }
    ensures { bindings.new.entries ≡ bind_all same_event bindings.old.entries keys.now bound }
{
    for key in keys {
        bindings.insert(*key, bound).unwrap();
    }
}

impl<S: BuildHasher + Drop, C: Drop> EventTable<S, C> {
    ghost use Rattle.std.specs.Prelude.{is_some, nat_eq, None, OnOk, OnErr};
    ghost use Rattle.std.specs.Option.{option_map};
    ghost use Rattle.std.specs.List.{IsDistinct};
    ghost use Rattle.std.specs.Map.{keys_of};
    ghost use Rattle.minus_input.specs.EventTables.{register_of, seen_action};
    ghost use Rattle.minus_input.specs.RegisterCalls.{with_keys};
    ghost use Rattle.minus_input.specs.Register.{bound_to, unbind, nothing_bound, action_at, first_bound};
    ghost use Rattle.minus_input.specs.Resolved.{kept_binding};
    ghost use Rattle.minus_input.specs.declared.event_form.EventWrapper.TheVariants.{ExactMatchEvent};

    /// A register in which nothing is bound.
    pub fn new(alloc: Global, hasher: S) -> EventTable<S, C>
        ensures { register_of result ≡ nothing_bound }
    {
        EventTable {
            alloc,
            bindings: IndexMap::with_hasher(alloc, hasher),
            callbacks: Vec::new(alloc),
            wild: None,
        }
    }

    /// The number of keys that are bound, each once.
    pub fn len(&self) -> usize
        ensures len { result ≡ length (register_of self.now).bindings }
        ensures once { IsDistinct same_event (keys_of (register_of self.now).bindings) }
    {
        self.bindings.len()
    }

    /// Whether no key is bound.
    pub fn is_empty(&self) -> bool
        ensures { result ≡ nat_eq (length (register_of self.now).bindings) 0 }
    {
        self.len() == 0
    }

    // Whether a key is bound.
    pub(crate) fn is_bound(&self, key: &EventWrapper) -> bool
        ensures { result ≡ is_some (bound_to same_event (register_of self.now).bindings key.now) }
    {
        self.bindings.contains_key(key)
    }

    // The place of the first of some keys that is bound.
    pub(crate) fn first_bound(&self, keys: &[EventWrapper]) -> Option<usize>
        ensures { result ≡ first_bound same_event (register_of self.now).bindings keys.now }
    {
        keys.iter().position(|key| self.is_bound(key))
    }

    // Binds keys to a callback. An `Err` changes nothing.
    pub(crate) fn bind_all(
        &mut self,
        keys: &[EventWrapper],
        kept: KeptCallback<C>,
    ) -> Result<(), AllocError>
        ensures ok { OnOk result (register_of self.new
            ≡ with_keys (register_of self.old) keys.now (kept_binding kept)) }
        ensures err { OnErr result (register_of self.new ≡ register_of self.old) }
    {
        self.bindings.reserve(keys.len())?;
        let number = self.callbacks.len();
        if self.callbacks.push(kept).is_err() {
            return Err(AllocError);
        }
        insert_all(&mut self.bindings, keys, Bound::Callback(number));
        Ok(())
    }

    // Removes a key.
    pub(crate) fn unbind(&mut self, key: &EventWrapper)
        ensures { register_of self.new ≡ record (register_of self.old)
            { bindings = unbind same_event (register_of self.old).bindings key.now } }
    {
        self.bindings.shift_remove(key);
    }

    // What is done at each event to which no key is bound.
    fn wild_action(&self) -> Option<ActionOf<&C>>
        ensures { option_map seen_action result ≡ (register_of self.now).wild }
    {
        match &self.wild {
            Some(action) => Some(action.borrowed()),
            None => None,
        }
    }

    /// What is done at an event.
    pub fn find(&self, event: &Event) -> Option<ActionOf<&C>>
        ensures { option_map seen_action result
            ≡ action_at same_event (register_of self.now) (ExactMatchEvent event.now) }
    {
        match self.bindings.get(&EventWrapper::from(event)) {
            Some(Bound::Default(action)) => Some(ActionOf::Default(*action)),
            Some(Bound::Callback(number)) => {
                Some(ActionOf::Callback(&self.callbacks[*number].callback))
            }
            None => self.wild_action(),
        }
    }
}
