//! The default bindings.
ghost use Rattle.std.specs.Prelude.{◌≡◌, ◌≤◌, ◌+◌, length, OnOk, OnErr, IfOk};
ghost use Rattle.indexmap.specs.IndexMap.{spare};
ghost use Rattle.minus_input.specs.DefaultBindings.{default_keys, with_defaults, default_register};
ghost use Rattle.minus_input.specs.DefaultBindings.{DefaultsHaveOneAnswer, KeysDoAsListed, JScrollsDown};
ghost use Rattle.minus_input.specs.EventForm.{same_event};
ghost use Rattle.minus_input.specs.EventTables.{register_of};
ghost use Rattle.minus_input.specs.Names.{shift, control};
ghost use Rattle.minus_input.specs.Register.{bind_each};
ghost use Rattle.minus_input.specs.Resolved.{default_bounds};

use crate::bound::{ActionOf, Bound};
use crate::callback::ActionCall;
use crate::classifier::FixedSeed;
use crate::default_action::DefaultAction;
use crate::event_form::EventWrapper;
use crate::register::EventTable;
use bitflags::Flags;
use indexmap::IndexMap;
use minus_term::{
    Event, KeyCode, KeyEvent, KeyEventKind, KeyEventState, KeyModifiers, MouseButton, MouseEvent,
    MouseEventKind,
};
use std::alloc::{AllocError, Global};
use std::hash::BuildHasher;

// The number of keys that the default bindings bind.
const KEYS: usize = 40;

// A pressed key with modifiers, and its default action.
macro_rules! key {
    ($code:expr, $modifiers:expr, $action:ident) => {
        (
            EventWrapper::ExactMatchEvent(Event::Key(KeyEvent {
                code: $code,
                modifiers: $modifiers,
                kind: KeyEventKind::Press,
                state: KeyEventState::NONE,
            })),
            DefaultAction::$action,
        )
    };
}

// What is done with the mouse, without modifiers, and its default action.
macro_rules! mouse {
    ($kind:expr, $action:ident) => {
        (
            EventWrapper::ExactMatchEvent(Event::Mouse(MouseEvent {
                kind: $kind,
                column: 0,
                row: 0,
                modifiers: KeyModifiers::NONE,
            })),
            DefaultAction::$action,
        )
    };
}

// CONTROL and SHIFT.
fn control_and_shift() -> KeyModifiers
    ensures { result.0 ≡ shift + control }
{
    let mut modifiers = KeyModifiers::CONTROL;
    modifiers.insert(KeyModifiers::SHIFT);
    modifiers
}

// The table of the default bindings, in the order in which its keys are bound.
#[tactic(auto, unfolding(crate::specs::DefaultBindings::default_keys))]
fn default_keys() -> [(EventWrapper, DefaultAction); KEYS]
    ensures { result ≡ default_keys }
{
    [
        key!(KeyCode::Char('q'), KeyModifiers::NONE, Quit),
        key!(KeyCode::Char('c'), KeyModifiers::CONTROL, Quit),
        key!(KeyCode::Up, KeyModifiers::NONE, ScrollUp),
        key!(KeyCode::Char('k'), KeyModifiers::NONE, ScrollUp),
        key!(KeyCode::Down, KeyModifiers::NONE, ScrollDown),
        key!(KeyCode::Char('j'), KeyModifiers::NONE, ScrollDown),
        key!(KeyCode::Char('f'), KeyModifiers::CONTROL, ToggleFollow),
        key!(KeyCode::Enter, KeyModifiers::NONE, ScrollLines),
        key!(KeyCode::Char('u'), KeyModifiers::NONE, HalfPageUp),
        key!(KeyCode::Char('u'), KeyModifiers::CONTROL, HalfPageUp),
        key!(KeyCode::Char('d'), KeyModifiers::NONE, HalfPageDown),
        key!(KeyCode::Char('d'), KeyModifiers::CONTROL, HalfPageDown),
        key!(KeyCode::Char('g'), KeyModifiers::NONE, Top),
        key!(KeyCode::Home, KeyModifiers::NONE, Top),
        key!(KeyCode::Char('g'), KeyModifiers::SHIFT, GoToLine),
        key!(KeyCode::Char('G'), KeyModifiers::NONE, GoToLine),
        key!(KeyCode::PageUp, KeyModifiers::NONE, PageUp),
        key!(KeyCode::PageDown, KeyModifiers::NONE, PageDown),
        key!(KeyCode::Char(' '), KeyModifiers::NONE, PageDown),
        key!(KeyCode::Char('l'), KeyModifiers::CONTROL, ToggleNumbers),
        key!(KeyCode::End, KeyModifiers::NONE, Bottom),
        key!(KeyCode::Char('m'), KeyModifiers::SHIFT, Help),
        key!(KeyCode::Char('/'), KeyModifiers::NONE, SearchForward),
        key!(KeyCode::Char('?'), KeyModifiers::NONE, SearchBackward),
        key!(KeyCode::Char('n'), KeyModifiers::NONE, NextMatch),
        key!(KeyCode::Char('p'), KeyModifiers::NONE, PreviousMatch),
        key!(KeyCode::Char('n'), KeyModifiers::SHIFT, PreviousMatch),
        mouse!(MouseEventKind::ScrollUp, WheelUp),
        mouse!(MouseEventKind::ScrollDown, WheelDown),
        mouse!(MouseEventKind::Down(MouseButton::Left), StartSelection),
        mouse!(MouseEventKind::Drag(MouseButton::Left), UpdateSelection),
        mouse!(MouseEventKind::Up(MouseButton::Left), CopySelection),
        key!(KeyCode::Char('y'), KeyModifiers::NONE, CopySelection),
        key!(KeyCode::Char('h'), control_and_shift(), ToggleWrap),
        key!(KeyCode::Char('h'), KeyModifiers::CONTROL, ToggleWrap),
        key!(KeyCode::Char('h'), KeyModifiers::NONE, ScrollLeft),
        key!(KeyCode::Left, KeyModifiers::NONE, ScrollLeft),
        key!(KeyCode::Char('l'), KeyModifiers::NONE, ScrollRight),
        key!(KeyCode::Right, KeyModifiers::NONE, ScrollRight),
        (
            EventWrapper::ExactMatchEvent(Event::Resize(0, 0)),
            DefaultAction::Resize,
        ),
    ]
}

// Binds each key of a table to its action, where there is room for them.
fn insert_defaults<S: BuildHasher>(
    bindings: &mut IndexMap<EventWrapper, Bound, S>,
    keys: &[(EventWrapper, DefaultAction)],
)
    requires { length keys.now ≤ spare bindings.old }
    ensures { bindings.new.entries ≡ bind_each same_event bindings.old.entries (default_bounds keys.now) }
{
    for (key, action) in keys {
        bindings.insert(*key, Bound::Default(*action)).unwrap();
    }
}

/// Adds the default bindings to a register: a new key goes last, and a key that is bound keeps its place and is bound
/// to its default action now; at all other events digits are typed.
///
/// # Errors
///
/// [`AllocError`] where memory ran out, and nothing has changed.
pub fn generate_default_bindings<S: BuildHasher + Drop, C: Drop>(
    register: &mut EventTable<S, C>,
) -> Result<(), AllocError>
    ensures ok { OnOk result (register_of register.new ≡ with_defaults (register_of register.old)) }
    ensures err { OnErr result (register_of register.new ≡ register_of register.old) }
{
    register.bindings.reserve(KEYS)?;
    insert_defaults(&mut register.bindings, &default_keys());
    register.wild = Some(ActionOf::Default(DefaultAction::TypeDigit));
    Ok(())
}

impl<C: Drop> EventTable<FixedSeed, C> {
    /// A register of the default bindings, whose keys are hashed by the fixed seed.
    ///
    /// # Errors
    ///
    /// [`AllocError`] where memory ran out.
    pub fn default_bindings(alloc: Global) -> Result<EventTable<FixedSeed, C>, AllocError>
        ensures { IfOk result (λ register. register_of register ≡ default_register) }
    {
        let mut register = EventTable::new(alloc, FixedSeed::new());
        generate_default_bindings(&mut register)?;
        Ok(register)
    }
}

/// A law: the register of the default bindings has one answer to each event in each state, that of the table.
pub fn defaults_have_one_answer<C: ActionCall>()
    ensures { DefaultsHaveOneAnswer C.answers }
{}

/// A law: each key of the default bindings does what its row of the table says, and no later row binds it again.
#[tactic(auto, unfolding(crate::specs::DefaultBindings::default_keys, crate::specs::EventForm::same_event))]
pub fn keys_do_as_listed()
    ensures { KeysDoAsListed }
{}

/// A law: with the default bindings the key `j` moves the mark down by as many rows as the typed prefix says.
#[tactic(auto, unfolding(crate::specs::DefaultBindings::default_keys, crate::specs::EventForm::same_event))]
pub fn j_scrolls_down()
    ensures { JScrollsDown }
{}
