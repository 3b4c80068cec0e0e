//! What users write and read of keys, and what keys do: the descriptions that keys and actions of the mouse are bound
//! by, the register of bindings, the default bindings, the names of keys, and the help table that lists them.
#![tactic(auto)]

pub mod bound;
pub mod callback;
pub mod classifier;
pub mod default_action;
mod default_answers;
pub mod default_bindings;
mod described;
pub mod description;
pub mod equality;
pub mod event_form;
pub mod exact_keys;
pub mod help_table;
pub mod key_seq;
pub mod lookups;
pub mod names;
pub mod number;
pub mod register;
mod register_calls;
mod register_help;

pub use bound::ActionOf;
pub use callback::{ActionCall, ActionCallback, KeptAction};
pub use classifier::{Classifier, FixedSeed, HashedEventRegister};
pub use default_action::DefaultAction;
pub use default_bindings::{
    defaults_have_one_answer, generate_default_bindings, j_scrolls_down, keys_do_as_listed,
};
pub use description::{each_text_has_one_meaning, parse_key_event, parse_mouse_event};
pub use equality::{
    equal_events_hash_equally, keys_go_by_their_equality, mouse_goes_by_kind_and_modifiers,
    resizes_are_one_key, wild_is_itself_alone,
};
pub use event_form::{EventForm, EventWrapper};
pub use exact_keys::DefaultInputClassifier;
pub use help_table::{format_help_table_from_entries, format_key};
pub use key_seq::KeySeq;
pub use lookups::{bound_keys_are_found, removed_keys_are_gone};
pub use names::modifier_of;
pub use number::{parse_usize, usize_of_is_what_parse_reads};
pub use register::EventTable;
