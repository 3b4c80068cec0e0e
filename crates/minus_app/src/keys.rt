//! The keys of an application: the pager's own actions and the application's, in one register.
//!
//! A key leads to one of three kinds of action ([`KeyAction`]): a default one of the library, one of the program
//! ([`ViewAction`]), or the application's own, by its number. So `bind(&["x"], "next error", Act::Next)` is refused
//! where `x` leads to something, and help lists `x` with that text else.
ghost use Rattle.std.specs.Prelude.{◌≡◌, IfErr};
ghost use Rattle.minus_input.specs.EventTables.{register_of};
ghost use Rattle.minus_app.specs.Actions.{ends_program, own_number, pager_action, view_action};
ghost use Rattle.minus_app.specs.Keys.{done_by};

mod tables;

use crate::fault::Fault;
use crate::keys::tables::{DEFAULTS_OF_LESS, ENDS, KEYS_OF_LESS, UNTOLD, VIEWS_OF_LESS};
use crate::view_action::ViewAction;
use minus::{
    ActionCall, ActionOf, DefaultAction, Event, EventTable, FixedSeed, InputEvent, MinusError,
    PagerState, parse_key_event,
};
use std::alloc::Global;

/// What a key of an application is bound to.
#[derive(Clone, Copy, Drop)]
pub enum KeyAction {
    /// An action of the pager's.
    Pager(DefaultAction),
    /// What the pager does that no default action does.
    View(ViewAction),
    /// The application's action with this number, of those that are kept beside the register.
    Own(usize),
}

impl ActionCall for KeyAction {
    ghost use Rattle.minus_app.specs.Actions.{key_answer};

    ghost answers = { λ bound event state answer. answer ≡ key_answer bound event state };

    fn ask(&self, event: &Event, state: &PagerState) -> InputEvent {
        match self {
            KeyAction::Pager(action) => action.answer(event, state),
            KeyAction::View(_) | KeyAction::Own(_) => InputEvent::Ignore,
        }
    }
}

/// What decides about the events of an application's session.
pub type Table = EventTable<FixedSeed, KeyAction>;

/// The keys of an application whose actions are of the type `A`.
pub struct AppKeys<A> {
    table: Table,
    acts: Vec<A>,
    // The keys that were bound to the end of the program; some may be bound to something else by now.
    ends: Vec<Event>,
}

// Hand-written: a derived drop would stand again in the proof of each function that lets one go.
impl<A: Drop> Drop for AppKeys<A> {
    fn drop(self) {
        let AppKeys {
            table: _,
            acts: _,
            ends: _,
        } = self;
    }
}

// The number of the application's action that an event leads to.
pub fn own_number(table: &Table, event: &Event) -> Option<usize>
    ensures { result ≡ own_number (done_by (register_of table.now) event.now) }
{
    match table.find(event) {
        Some(ActionOf::Callback(KeyAction::Own(number))) => Some(*number),
        _ => None,
    }
}

// What an event leads to that no default action does.
pub fn view_action(table: &Table, event: &Event) -> Option<ViewAction>
    ensures { result ≡ view_action (done_by (register_of table.now) event.now) }
{
    match table.find(event) {
        Some(ActionOf::Callback(KeyAction::View(action))) => Some(*action),
        _ => None,
    }
}

// The pager's action that an event leads to.
fn pager_action(table: &Table, event: &Event) -> Option<DefaultAction>
    ensures { result ≡ pager_action (done_by (register_of table.now) event.now) }
{
    match table.find(event) {
        Some(ActionOf::Default(action)) => Some(action),
        Some(ActionOf::Callback(KeyAction::Pager(action))) => Some(*action),
        _ => None,
    }
}

// Whether an event leads to the end of the program.
fn is_end(table: &Table, event: &Event) -> bool
    ensures { result ≡ ends_program (done_by (register_of table.now) event.now) }
{
    match pager_action(table, event) {
        Some(DefaultAction::Quit) => true,
        _ => false,
    }
}

// Keeps the keys that some texts describe.
fn push_keys(kept: &mut Vec<Event>, texts: &[&str]) -> Result<(), MinusError>
    ensures { IfErr result (λ e. e ≡ MinusError.Memory) }
{
    for text in texts {
        if let Ok(key) = parse_key_event(text) {
            kept.push(Event::Key(key))?;
        }
    }
    Ok(())
}

impl<A: Copy + Drop> AppKeys<A> {
    ghost use Rattle.std.specs.Prelude.{◌++◌, ◌∷◌, [], map, vec_len, true, false, IfOk, OnOk, OnErr};
    ghost use Rattle.std.specs.List.{list_any};
    ghost use Rattle.minus_term.specs.Refusals.{refusal_of};
    ghost use Rattle.minus_input.specs.Described.{IsKey};
    ghost use Rattle.minus_input.specs.Description.{KeyFault};
    ghost use Rattle.minus_input.specs.DefaultActions.{default_description};
    ghost use Rattle.minus_input.specs.DefaultBindings.{default_register};
    ghost use Rattle.minus_input.specs.RegisterCalls.{IsAdded, IsAddRefused};
    ghost use Rattle.minus_app.specs.Keys.{act_at, done_at, keyed, HidesNothing, SomeEnds};
    ghost use Rattle.minus_app.specs.Moves.{view_description};
    ghost use Rattle.minus_app.specs.declared.keys.KeyAction.TheVariants.{Pager, View, Own};

    /// The default keys.
    ///
    /// # Errors
    ///
    /// [`MinusError::Memory`] where there is no memory.
    pub fn new(alloc: Global) -> Result<AppKeys<A>, MinusError>
        ensures keys { IfOk result (λ keys. keyed keys ≡ default_register) }
        ensures acts { IfOk result (λ keys. keys.acts.items ≡ []) }
    {
        let mut keys = AppKeys {
            table: Table::default_bindings(alloc)?,
            acts: Vec::new(alloc),
            ends: Vec::new(alloc),
        };
        push_keys(&mut keys.ends, &ENDS)?;
        Ok(keys)
    }

    /// The default keys, and those of `less` that have no default binding: `b`, `f`, `F`, `<` and `>`.
    ///
    /// # Errors
    ///
    /// [`MinusError::Memory`] where there is no memory.
    pub fn less(alloc: Global) -> Result<AppKeys<A>, MinusError>
        ensures hides { IfOk result (λ keys. HidesNothing default_register (keyed keys)) }
        ensures acts { IfOk result (λ keys. keys.acts.items ≡ []) }
    {
        let mut keys = AppKeys::new(alloc)?;
        for bound in &KEYS_OF_LESS {
            keys.bind_default(&[bound.0], bound.1)?;
        }
        Ok(keys)
    }

    /// The keys of `less`, whatever they lead to by default, and the default keys that `less` does not have and a
    /// terminal tells apart.
    ///
    /// # Errors
    ///
    /// [`MinusError::Memory`] where there is no memory.
    pub fn all_of_less(alloc: Global) -> Result<AppKeys<A>, MinusError>
        ensures acts { IfOk result (λ keys. keys.acts.items ≡ []) }
    {
        let mut keys = AppKeys::new(alloc)?;
        keys.table.remove_key_events(&UNTOLD)?;
        for bound in &DEFAULTS_OF_LESS {
            keys.rebind_default(bound.0, bound.1)?;
        }
        for bound in &VIEWS_OF_LESS {
            keys.rebind_view(bound.0, bound.1)?;
        }
        Ok(keys)
    }

    /// The application's action that an event leads to, where it leads to one.
    pub fn act(&self, event: &Event) -> Option<A>
        ensures { result ≡ act_at self.now event.now }
    {
        let number = own_number(&self.table, event)?;
        self.acts.get(number).copied()
    }

    // Binds keys to an action of the application's.
    fn put_own(
        &mut self,
        keys: &[&str],
        description: &str,
        act: A,
        remap: bool,
    ) -> Result<(), MinusError>
        ensures ok { OnOk result (IsAdded IsKey (map (λ t. t.now) keys.now) remap
            (Own (vec_len self.old.acts)) description.now (keyed self.old) (keyed self.new)) }
        ensures acts { OnOk result (self.new.acts.items ≡ self.old.acts.items ++ act ∷ []) }
        ensures refused { IfErr result (λ e. IsAddRefused IsKey KeyFault (map (λ t. t.now) keys.now) remap
            (keyed self.old) (refusal_of e)) }
        ensures kept { OnErr result (keyed self.new ≡ keyed self.old) }
        ensures same { OnErr result (self.new.acts.items ≡ self.old.acts.items) }
    {
        self.acts.reserve(1)?;
        let own = KeyAction::Own(self.acts.len());
        self.table
            .add_described_key_events_checked(keys, description, own, remap)?;
        self.acts.push(act).unwrap();
        Ok(())
    }

    // Binds keys to an action of the pager's, which describes itself.
    fn put_default(
        &mut self,
        keys: &[&str],
        action: DefaultAction,
        remap: bool,
    ) -> Result<(), MinusError>
        ensures ok { OnOk result (IsAdded IsKey (map (λ t. t.now) keys.now) remap
            (Pager action) (default_description action) (keyed self.old) (keyed self.new)) }
        ensures refused { IfErr result (λ e. IsAddRefused IsKey KeyFault (map (λ t. t.now) keys.now) remap
            (keyed self.old) (refusal_of e)) }
        ensures kept { OnErr result (keyed self.new ≡ keyed self.old) }
        ensures acts { self.new.acts ≡ self.old.acts }
    {
        if action == DefaultAction::Quit {
            push_keys(&mut self.ends, keys)?;
        }
        let bound = KeyAction::Pager(action);
        self.table
            .add_described_key_events_checked(keys, action.description(), bound, remap)
    }

    /// Binds keys that lead to nothing so far to an action of the application's, with what help says of them. No key
    /// that leads to something is hidden.
    ///
    /// A key is described as the crate `minus` has it: `e`, `s-e` with Shift, `c-e` with Ctrl, `m-e` with Alt, `f1`,
    /// `up`. Digits lead to nothing by themselves: one that is bound is not typed to a number any more.
    ///
    /// # Errors
    ///
    /// [`MinusError::Bound`] with the place, from 0, of the first key that leads to something,
    /// [`MinusError::BadDescription`] with that of the first text that describes no key, and [`MinusError::Memory`]. In
    /// each all keys lead to what they led to.
    pub fn bind(&mut self, keys: &[&str], description: &str, act: A) -> Result<(), MinusError>
        ensures ok { OnOk result (IsAdded IsKey (map (λ t. t.now) keys.now) false
            (Own (vec_len self.old.acts)) description.now (keyed self.old) (keyed self.new)) }
        ensures hides { OnOk result (HidesNothing (keyed self.old) (keyed self.new)) }
        ensures acts { OnOk result (self.new.acts.items ≡ self.old.acts.items ++ act ∷ []) }
        ensures refused { IfErr result (λ e. IsAddRefused IsKey KeyFault (map (λ t. t.now) keys.now) false
            (keyed self.old) (refusal_of e)) }
        ensures kept { OnErr result (keyed self.new ≡ keyed self.old) }
        ensures same { OnErr result (self.new.acts.items ≡ self.old.acts.items) }
    {
        self.put_own(keys, description, act, false)?;
        Ok(())
    }

    /// Binds keys to an action of the application's, whatever they lead to so far, with what help says of them.
    ///
    /// # Errors
    ///
    /// Those of [`AppKeys::bind`] but for [`MinusError::Bound`].
    pub fn rebind(&mut self, keys: &[&str], description: &str, act: A) -> Result<(), MinusError>
        ensures ok { OnOk result (IsAdded IsKey (map (λ t. t.now) keys.now) true
            (Own (vec_len self.old.acts)) description.now (keyed self.old) (keyed self.new)) }
        ensures acts { OnOk result (self.new.acts.items ≡ self.old.acts.items ++ act ∷ []) }
        ensures refused { IfErr result (λ e. IsAddRefused IsKey KeyFault (map (λ t. t.now) keys.now) true
            (keyed self.old) (refusal_of e)) }
        ensures kept { OnErr result (keyed self.new ≡ keyed self.old) }
        ensures same { OnErr result (self.new.acts.items ≡ self.old.acts.items) }
    {
        self.put_own(keys, description, act, true)
    }

    /// Binds keys that lead to nothing so far to an action of the pager's, of which help says what it says of the
    /// default keys.
    ///
    /// # Errors
    ///
    /// Those of [`AppKeys::bind`].
    pub fn bind_default(&mut self, keys: &[&str], action: DefaultAction) -> Result<(), MinusError>
        ensures ok { OnOk result (IsAdded IsKey (map (λ t. t.now) keys.now) false
            (Pager action) (default_description action) (keyed self.old) (keyed self.new)) }
        ensures hides { OnOk result (HidesNothing (keyed self.old) (keyed self.new)) }
        ensures refused { IfErr result (λ e. IsAddRefused IsKey KeyFault (map (λ t. t.now) keys.now) false
            (keyed self.old) (refusal_of e)) }
        ensures kept { OnErr result (keyed self.new ≡ keyed self.old) }
        ensures acts { self.new.acts ≡ self.old.acts }
    {
        self.put_default(keys, action, false)?;
        Ok(())
    }

    /// Binds keys to an action of the pager's, whatever they lead to so far.
    ///
    /// # Errors
    ///
    /// Those of [`AppKeys::rebind`].
    pub fn rebind_default(&mut self, keys: &[&str], action: DefaultAction) -> Result<(), MinusError>
        ensures ok { OnOk result (IsAdded IsKey (map (λ t. t.now) keys.now) true
            (Pager action) (default_description action) (keyed self.old) (keyed self.new)) }
        ensures refused { IfErr result (λ e. IsAddRefused IsKey KeyFault (map (λ t. t.now) keys.now) true
            (keyed self.old) (refusal_of e)) }
        ensures kept { OnErr result (keyed self.new ≡ keyed self.old) }
        ensures acts { self.new.acts ≡ self.old.acts }
    {
        self.put_default(keys, action, true)
    }

    /// Binds keys to what the pager does that no default action does, whatever they lead to so far.
    ///
    /// # Errors
    ///
    /// Those of [`AppKeys::rebind`].
    pub fn rebind_view(&mut self, keys: &[&str], action: ViewAction) -> Result<(), MinusError>
        ensures ok { OnOk result (IsAdded IsKey (map (λ t. t.now) keys.now) true
            (View action) (view_description action) (keyed self.old) (keyed self.new)) }
        ensures refused { IfErr result (λ e. IsAddRefused IsKey KeyFault (map (λ t. t.now) keys.now) true
            (keyed self.old) (refusal_of e)) }
        ensures kept { OnErr result (keyed self.new ≡ keyed self.old) }
        ensures acts { self.new.acts ≡ self.old.acts }
    {
        let bound = KeyAction::View(action);
        self.table
            .add_described_key_events_checked(keys, action.description(), bound, true)
    }

    /// Whether some key ends the program.
    pub fn some_end(&self) -> bool
        ensures { result ≡ list_any (λ event. ends_program (done_at self.now event)) self.now.ends.items }
    {
        self.ends.iter().any(|event| is_end(&self.table, event))
    }

    // The register, and the application's actions by their numbers, where some key ends the program.
    pub(crate) fn into_parts(self) -> Result<(Table, Vec<A>), Fault>
        ensures ends { OnOk result (SomeEnds self) }
        ensures table { IfOk result (λ parts. parts.0 ≡ self.table) }
        ensures acts { IfOk result (λ parts. parts.1 ≡ self.acts) }
    {
        if !self.some_end() {
            return Err(Fault::NoEnd);
        }
        let AppKeys {
            table,
            acts,
            ends: _,
        } = self;
        Ok((table, acts))
    }
}
