//! The text that a register gives for help.
ghost use Rattle.std.specs.Prelude.{◌≡◌, map, option_map, string_bytes, is_some, true, Some, IfOk};
ghost use Rattle.minus_input.specs.EventTables.{register_of};
ghost use Rattle.minus_input.specs.HelpTable.{entry_of};
ghost use Rattle.minus_input.specs.HelpEntries.{entry_at};
ghost use Rattle.minus_input.specs.Resolved.{binding_at};
ghost use Rattle.minus_input.specs.RegisterHelp.{key_entry, key_entries, help_text};

use crate::bound::{Bound, KeptCallback};
use crate::event_form::EventWrapper;
use crate::help_table::format_help_table_from_entries;
use crate::register::EventTable;
use minus_term::{Event, KeyEvent};
use std::alloc::{AllocError, Global};
use std::hash::BuildHasher;

// The entry of a key, if this is one.
fn key_entry<'a>(key: &'a EventWrapper, description: &'a str) -> Option<(&'a KeyEvent, &'a str)>
    ensures { option_map entry_of result ≡ key_entry key.now description.now }
{
    match key {
        EventWrapper::ExactMatchEvent(Event::Key(event)) => Some((event, description)),
        _ => None,
    }
}

// The description of what a key is bound to.
fn description_of<'a, C>(bound: &'a Bound, callbacks: &'a [KeptCallback<C>]) -> &'a str
    requires { is_some (binding_at callbacks.now bound.now) ≡ true }
    ensures { Some result.now ≡ option_map (λ b. b.description) (binding_at callbacks.now bound.now) }
{
    match bound {
        Bound::Default(action) => action.description(),
        Bound::Callback(number) => callbacks[*number].description.as_str(),
    }
}

impl<S: BuildHasher + Drop, C: Drop> EventTable<S, C> {
    // The entry of the binding at a place, if it is of a key.
    fn entry_at(&self, place: usize) -> Option<(&KeyEvent, &str)>
        ensures { option_map entry_of result ≡ entry_at (register_of self.now).bindings place }
    {
        let (key, bound) = self.bindings.get_index(place)?;
        key_entry(key, description_of(bound, &self.callbacks))
    }

    // The entries of the keys, in their order.
    fn entries(&self, alloc: Global) -> Result<Vec<(&KeyEvent, &str)>, AllocError>
        ensures { IfOk result (λ entries. map entry_of entries.items ≡ key_entries (register_of self.now).bindings) }
    {
        let mut entries = Vec::new(alloc);
        for place in 0..self.bindings.len() {
            if let Some(entry) = self.entry_at(place) {
                if entries.push(entry).is_err() {
                    return Err(AllocError);
                }
            }
        }
        Ok(entries)
    }

    /// The help table of the keys that are described, if there are any.
    ///
    /// # Errors
    ///
    /// [`AllocError`] where memory ran out.
    pub fn format_help(&self, alloc: Global) -> Result<Option<String>, AllocError>
        ensures { IfOk result (λ text. option_map string_bytes text ≡ help_text (register_of self.now)) }
    {
        let entries = self.entries(alloc)?;
        let table = format_help_table_from_entries(alloc, entries.as_slice())?;
        if table.is_empty() {
            return Ok(None);
        }
        Ok(Some(table))
    }
}
