//! The calls of a register of bindings.
use crate::asked::{START, press, state_of};
use crate::facts::assert_holds;
use minus_input::{ActionCall, EventTable, FixedSeed};
use minus_state::{InputClassifier, InputEvent, PagerState};
use minus_term::Event;
use std::alloc::Global;

// Whether a call is done, at once or, where it is refused since memory ran out with this many bindings left, when it is
// made again.
macro_rules! is_done {
    ($register:expr, $call:expr) => {{
        let bound = $register.len();
        match $call {
            Ok(()) => true,
            Err(_) => $register.len() == bound && $call.is_ok(),
        }
    }};
}

// A callback that asks for a move to a row.
#[derive(Drop)]
struct ToRow(usize);

impl ActionCall for ToRow {
    ghost answers = { λ callback event state answer. Unit {0} };

    fn ask(&self, _event: &Event, _state: &PagerState) -> InputEvent {
        InputEvent::UpdateUpperMark(self.0)
    }
}

type Register = EventTable<FixedSeed, ToRow>;

// Whether a register answers an event so in a state.
fn goes(register: &Register, state: &PagerState, event: Event, wanted: InputEvent) -> bool {
    register.classify_input(event, state) == Some(wanted)
}

// Whether keys are bound by each of the calls that bind some.
fn binds_keys(register: &mut Register) -> bool {
    is_done!(register, register.add_key_events(&["x", "c-y"], ToRow(1)))
        && is_done!(
            register,
            register.add_described_key_events(&["z", "w"], "text", ToRow(2))
        )
        && is_done!(
            register,
            register.add_key_events_checked(&["v"], ToRow(3), false)
        )
        && is_done!(
            register,
            register.add_described_key_events_checked(&["x"], "other", ToRow(4), true)
        )
        && register.len() == 5
}

// Whether what the mouse and the terminal do is bound.
fn binds_others(register: &mut Register) -> bool {
    is_done!(register, register.add_mouse_events(&["left:up"], ToRow(5)))
        && is_done!(
            register,
            register.add_mouse_events_checked(&["move"], ToRow(6), false)
        )
        && is_done!(register, register.add_resize_event(ToRow(7)))
        && register.len() == 8
}

// Whether some of it is taken away again, for which no memory is taken.
fn unbinds(register: &mut Register) -> bool {
    register.insert_wild_event_matcher(ToRow(8));
    register.remove_resize_event();
    register.remove_key_events(&["w", "q"]).is_ok()
        && register.remove_mouse_events(&["move"]).is_ok()
        && register.len() == 5
}

// Whether the keys do as they were bound.
fn is_bound(register: &Register, state: &PagerState) -> bool {
    let keys: &[(&str, usize)] = &[("x", 4), ("c-y", 1), ("z", 2), ("v", 3), ("w", 8)];
    for (key, row) in keys {
        if !goes(
            register,
            state,
            press(key),
            InputEvent::UpdateUpperMark(*row),
        ) {
            return false;
        }
    }
    true
}

// Whether the help of a register has this many lines; it is asked for once more where a request is refused.
fn helps(alloc: Global, register: &Register, lines: usize) -> bool {
    let text = match register.format_help(alloc) {
        Ok(text) => text,
        Err(_) => match register.format_help(alloc) {
            Ok(text) => text,
            Err(_) => None,
        },
    };
    match text {
        Some(text) => text.as_str().lines().count() == lines,
        None => false,
    }
}

// Whether all of it is done in a register.
fn is_filled(alloc: Global, state: &PagerState) -> bool {
    let mut register = EventTable::new(alloc, FixedSeed::new());
    binds_keys(&mut register)
        && binds_others(&mut register)
        && unbinds(&mut register)
        && is_bound(&register, state)
        && helps(alloc, &register, 8)
}

// Whether a register has all default bindings; it is asked for once more where a request is refused.
fn has_defaults(alloc: Global, state: &PagerState) -> bool {
    let register: Option<Register> = match EventTable::default_bindings(alloc) {
        Ok(register) => Some(register),
        Err(_) => EventTable::default_bindings(alloc).ok(),
    };
    match register {
        Some(register) => {
            register.len() == 39
                && goes(&register, state, press("q"), InputEvent::Exit)
                && helps(alloc, &register, 26)
        }
        None => false,
    }
}

// All that each test here does before what it tries: the tool refuses these requests here alone.
#[test]
fn begins(rt: HostRuntime) {
    if let Some(state) = state_of(rt.alloc(), "a", &START) {
        assert_holds(&rt, state.upper_mark == 0);
    }
}

#[test]
fn a_refused_call_of_a_register_changes_nothing(rt: HostRuntime) {
    if let Some(state) = state_of(rt.alloc(), "a", &START) {
        assert_holds(&rt, is_filled(rt.alloc(), &state));
    }
}

#[test]
fn refused_default_bindings_are_made_again(rt: HostRuntime) {
    if let Some(state) = state_of(rt.alloc(), "a", &START) {
        assert_holds(&rt, has_defaults(rt.alloc(), &state));
    }
}
