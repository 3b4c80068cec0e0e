//! Letters of modifiers, names of keys, and a worked help table.
use crate::facts::{assert_at, assert_holds};
use bitflags::Flags;
use minus_input::{KeySeq, format_key};
use minus_term::{KeyCode, KeyEvent, KeyEventKind, KeyEventState, KeyModifiers};
use std::alloc::Global;

// A key that is pressed.
fn pressed(code: KeyCode, modifiers: KeyModifiers) -> KeyEvent {
    KeyEvent {
        code,
        modifiers,
        kind: KeyEventKind::Press,
        state: KeyEventState::NONE,
    }
}

#[test]
fn a_sequence_begins_with_nothing(rt: HostRuntime) {
    let seq: KeySeq = KeySeq::default();
    assert_holds(
        &rt,
        seq.code.is_none() && seq.modifiers == KeyModifiers::NONE,
    );
}

// A key, the modifiers that it is pressed with, and its name.
struct Named<'a> {
    code: KeyCode,
    modifiers: &'a [KeyModifiers],
    name: &'a str,
}

// Whether a key has its name.
fn is_named(alloc: Global, key: &Named<'_>) -> bool {
    let mut modifiers = KeyModifiers::NONE;
    for it in key.modifiers {
        modifiers |= *it;
    }
    match format_key(alloc, &pressed(key.code, modifiers)) {
        Ok(text) => text.as_str() == key.name,
        Err(_) => false,
    }
}

// Keys that no description names.
const NAMES: [&Named<'static>; 2] = [
    &Named {
        code: KeyCode::Char('É'),
        modifiers: &[KeyModifiers::SHIFT],
        name: "Shift-É",
    },
    &Named {
        code: KeyCode::Menu,
        modifiers: &[],
        name: "Unknown",
    },
];

#[test]
fn keys_have_their_names(rt: HostRuntime) {
    for key in &NAMES {
        assert_at(&rt, key.name, is_named(rt.alloc(), key));
    }
}
