//! The calls that add bindings to a register and remove them.
ghost use Rattle.std.specs.Prelude.{◌≡◌, map, [], ◌∷◌, Some, IfErr, OnOk, OnErr, true};
ghost use Rattle.minus_term.specs.Refusals.{refusal_of};
ghost use Rattle.minus_input.specs.Description.{KeyFault, MouseFault};
ghost use Rattle.minus_input.specs.Described.{IsKey, IsMouse, NeverBoth};
ghost use Rattle.minus_input.specs.EventForm.{same_event};
ghost use Rattle.minus_input.specs.EventTables.{register_of, called, resize_key};
ghost use Rattle.minus_input.specs.Register.{unbind};
ghost use Rattle.minus_input.specs.RegisterCalls.{with_keys, IsAdded, IsRemoved, IsRemoveRefused, IsAddRefused};
ghost use Rattle.minus_input.specs.declared.bound.ActionOf.TheVariants as action;

use crate::bound::{ActionOf, KeptCallback};
use crate::described::{Described, Keys, MouseActions, check_all, read_all};
use crate::event_form::EventWrapper;
use crate::register::EventTable;
use minus_term::{Event, MinusError};
use std::hash::BuildHasher;

// The key of every resize.
const RESIZE: EventWrapper = EventWrapper::ExactMatchEvent(Event::Resize(0, 0));

impl<S: BuildHasher + Drop, C: Drop> EventTable<S, C> {
    // Binds what the texts of a list describe. An `Err` changes nothing.
    fn add_described<D: Described>(
        &mut self,
        texts: &[&str],
        description: &str,
        callback: C,
        remap: bool,
    ) -> Result<(), MinusError>
        ensures ok { OnOk result (IsAdded D.describes (map (λ t. t.now) texts.now) remap
            callback description.now (register_of self.old) (register_of self.new)) }
        ensures refused { IfErr result (λ e. IsAddRefused D.describes D.faulty (map (λ t. t.now) texts.now) remap
            (register_of self.old) (refusal_of e)) }
        ensures err { OnErr result (register_of self.new ≡ register_of self.old) }
    {
        let keys = read_all::<D>(self.alloc, texts)?;
        if !remap {
            if let Some(place) = self.first_bound(keys.as_slice()) {
                return Err(MinusError::Bound(place));
            }
        }
        let description = String::from_str(self.alloc, description)?;
        let kept = KeptCallback {
            callback,
            description,
        };
        self.bind_all(keys.as_slice(), kept)?;
        Ok(())
    }

    // Removes what the texts of a list describe. It takes no memory. An `Err` changes nothing.
    fn remove_described<D: Described>(&mut self, texts: &[&str]) -> Result<(), MinusError>
        requires { NeverBoth D.describes D.faulty }
        ensures ok { OnOk result (IsRemoved D.describes (map (λ t. t.now) texts.now)
            (register_of self.old) (register_of self.new)) }
        ensures refused { IfErr result (λ e. IsRemoveRefused D.describes D.faulty (map (λ t. t.now) texts.now)
            (refusal_of e)) }
        ensures err { OnErr result (register_of self.new ≡ register_of self.old) }
    {
        check_all::<D>(texts)?;
        for place in 0..texts.len() {
            if let Ok(key) = D::read(texts[place]) {
                self.unbind(&key);
            }
        }
        Ok(())
    }

    /// Lets a callback be asked at each event to which no key is bound, in place of what was done there.
    pub fn insert_wild_event_matcher(&mut self, callback: C)
        ensures { register_of self.new ≡ record (register_of self.old) { wild = Some (action.Callback callback) } }
    {
        self.wild = Some(ActionOf::Callback(callback));
    }

    /// Binds a callback to the resize of the terminal, in place of what was bound to it.
    ///
    /// # Errors
    ///
    /// [`MinusError::Memory`]: nothing has changed then, and the callback is dropped.
    pub fn add_resize_event(&mut self, callback: C) -> Result<(), MinusError>
        ensures ok { OnOk result (register_of self.new
            ≡ with_keys (register_of self.old) (resize_key ∷ []) (called callback [])) }
        ensures err { OnErr result (register_of self.new ≡ register_of self.old) }
        ensures memory { IfErr result (λ e. e ≡ MinusError.Memory) }
    {
        let kept = KeptCallback {
            callback,
            description: String::new(self.alloc),
        };
        self.bind_all(&[RESIZE], kept)?;
        Ok(())
    }

    /// Removes what is bound to the resize of the terminal, if anything is.
    pub fn remove_resize_event(&mut self)
        ensures { register_of self.new ≡ record (register_of self.old)
            { bindings = unbind same_event (register_of self.old).bindings resize_key } }
    {
        self.unbind(&RESIZE);
    }

    /// Binds a callback, which is kept once, to the keys that the texts describe: a new key goes last, and a key that
    /// is bound keeps its place and is bound to this callback now.
    ///
    /// # Errors
    ///
    /// [`MinusError::BadDescription`] with the place, from 0, of the first text that describes no key, and
    /// [`MinusError::Memory`]. In each nothing has changed, and the callback is dropped.
    pub fn add_key_events(&mut self, texts: &[&str], callback: C) -> Result<(), MinusError>
        ensures ok { OnOk result (IsAdded IsKey (map (λ t. t.now) texts.now) true callback []
            (register_of self.old) (register_of self.new)) }
        ensures refused { IfErr result (λ e. IsAddRefused IsKey KeyFault (map (λ t. t.now) texts.now) true
            (register_of self.old) (refusal_of e)) }
        ensures err { OnErr result (register_of self.new ≡ register_of self.old) }
    {
        self.add_described::<Keys>(texts, "", callback, true)
    }

    /// Binds a callback to keys as [`EventTable::add_key_events`] does, with a description for the help table.
    ///
    /// # Errors
    ///
    /// Those of [`EventTable::add_key_events`].
    pub fn add_described_key_events(
        &mut self,
        texts: &[&str],
        description: &str,
        callback: C,
    ) -> Result<(), MinusError>
        ensures ok { OnOk result (IsAdded IsKey (map (λ t. t.now) texts.now) true callback description.now
            (register_of self.old) (register_of self.new)) }
        ensures refused { IfErr result (λ e. IsAddRefused IsKey KeyFault (map (λ t. t.now) texts.now) true
            (register_of self.old) (refusal_of e)) }
        ensures err { OnErr result (register_of self.new ≡ register_of self.old) }
    {
        self.add_described::<Keys>(texts, description, callback, true)
    }

    /// Binds a callback to keys as [`EventTable::add_key_events`] does, where none of them is bound or `remap` lets
    /// bound keys be bound again.
    ///
    /// # Errors
    ///
    /// Those of [`EventTable::add_key_events`], and, after a bad description, without `remap`, [`MinusError::Bound`]
    /// with the place, from 0, of the first text whose key was bound before the call.
    pub fn add_key_events_checked(
        &mut self,
        texts: &[&str],
        callback: C,
        remap: bool,
    ) -> Result<(), MinusError>
        ensures ok { OnOk result (IsAdded IsKey (map (λ t. t.now) texts.now) remap callback []
            (register_of self.old) (register_of self.new)) }
        ensures refused { IfErr result (λ e. IsAddRefused IsKey KeyFault (map (λ t. t.now) texts.now) remap
            (register_of self.old) (refusal_of e)) }
        ensures err { OnErr result (register_of self.new ≡ register_of self.old) }
    {
        self.add_described::<Keys>(texts, "", callback, remap)
    }

    /// Binds a callback to keys as [`EventTable::add_key_events_checked`] does, with a description for the help table.
    ///
    /// # Errors
    ///
    /// Those of [`EventTable::add_key_events_checked`].
    pub fn add_described_key_events_checked(
        &mut self,
        texts: &[&str],
        description: &str,
        callback: C,
        remap: bool,
    ) -> Result<(), MinusError>
        ensures ok { OnOk result (IsAdded IsKey (map (λ t. t.now) texts.now) remap callback description.now
            (register_of self.old) (register_of self.new)) }
        ensures refused { IfErr result (λ e. IsAddRefused IsKey KeyFault (map (λ t. t.now) texts.now) remap
            (register_of self.old) (refusal_of e)) }
        ensures err { OnErr result (register_of self.new ≡ register_of self.old) }
    {
        self.add_described::<Keys>(texts, description, callback, remap)
    }

    /// Removes the keys that the texts describe, and the others close up; a key that is not bound is skipped. It
    /// takes no memory.
    ///
    /// # Errors
    ///
    /// [`MinusError::BadDescription`] with the place, from 0, of the first text that describes no key, and nothing has
    /// changed.
    pub fn remove_key_events(&mut self, texts: &[&str]) -> Result<(), MinusError>
        ensures ok { OnOk result (IsRemoved IsKey (map (λ t. t.now) texts.now)
            (register_of self.old) (register_of self.new)) }
        ensures refused { IfErr result (λ e. IsRemoveRefused IsKey KeyFault (map (λ t. t.now) texts.now)
            (refusal_of e)) }
        ensures err { OnErr result (register_of self.new ≡ register_of self.old) }
    {
        self.remove_described::<Keys>(texts)
    }

    /// Binds a callback to what the texts describe of the mouse, as [`EventTable::add_key_events`] binds one to keys.
    ///
    /// # Errors
    ///
    /// Those of [`EventTable::add_key_events`].
    pub fn add_mouse_events(&mut self, texts: &[&str], callback: C) -> Result<(), MinusError>
        ensures ok { OnOk result (IsAdded IsMouse (map (λ t. t.now) texts.now) true callback []
            (register_of self.old) (register_of self.new)) }
        ensures refused { IfErr result (λ e. IsAddRefused IsMouse MouseFault (map (λ t. t.now) texts.now) true
            (register_of self.old) (refusal_of e)) }
        ensures err { OnErr result (register_of self.new ≡ register_of self.old) }
    {
        self.add_described::<MouseActions>(texts, "", callback, true)
    }

    /// Binds a callback to what the texts describe of the mouse, as [`EventTable::add_key_events_checked`] binds one to
    /// keys.
    ///
    /// # Errors
    ///
    /// Those of [`EventTable::add_key_events_checked`].
    pub fn add_mouse_events_checked(
        &mut self,
        texts: &[&str],
        callback: C,
        remap: bool,
    ) -> Result<(), MinusError>
        ensures ok { OnOk result (IsAdded IsMouse (map (λ t. t.now) texts.now) remap callback []
            (register_of self.old) (register_of self.new)) }
        ensures refused { IfErr result (λ e. IsAddRefused IsMouse MouseFault (map (λ t. t.now) texts.now) remap
            (register_of self.old) (refusal_of e)) }
        ensures err { OnErr result (register_of self.new ≡ register_of self.old) }
    {
        self.add_described::<MouseActions>(texts, "", callback, remap)
    }

    /// Removes what the texts describe of the mouse, as [`EventTable::remove_key_events`] removes keys.
    ///
    /// # Errors
    ///
    /// Those of [`EventTable::remove_key_events`].
    pub fn remove_mouse_events(&mut self, texts: &[&str]) -> Result<(), MinusError>
        ensures ok { OnOk result (IsRemoved IsMouse (map (λ t. t.now) texts.now)
            (register_of self.old) (register_of self.new)) }
        ensures refused { IfErr result (λ e. IsRemoveRefused IsMouse MouseFault (map (λ t. t.now) texts.now)
            (refusal_of e)) }
        ensures err { OnErr result (register_of self.new ≡ register_of self.old) }
    {
        self.remove_described::<MouseActions>(texts)
    }
}
