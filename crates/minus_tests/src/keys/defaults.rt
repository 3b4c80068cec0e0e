//! What the default bindings answer, row by row of their table.

use minus::{Event, InputEvent, KeyCode, KeyEvent, KeyEventKind, KeyEventState, KeyModifiers};
use minus_part_tests::asked::{At, START, answers};
use minus_script::DefaultKeys;
use std::alloc::Global;

// Whether the default bindings answer this to an event.
fn asks(alloc: Global, event: Event, at: &At<'_>, wanted: InputEvent) -> bool {
    match DefaultKeys::new(alloc) {
        Ok(keys) => answers(alloc, &keys, event, at, Some(wanted)),
        Err(_) => false,
    }
}

// Far below each text.
const BOTTOM: usize = usize::MAX - 1;

// A character's key.
fn char_key(
    code: char,
    modifiers: KeyModifiers,
    kind: KeyEventKind,
    state: KeyEventState,
) -> Event {
    Event::Key(KeyEvent {
        code: KeyCode::Char(code),
        modifiers,
        kind,
        state,
    })
}

const NONE: KeyModifiers = KeyModifiers::NONE;

const PLAIN: KeyEventState = KeyEventState::NONE;

// A character's key with modifiers, what is done with it, its state, and what it asks for at the first row.
const KINDS: [(char, KeyModifiers, KeyEventKind, KeyEventState, InputEvent); 13] = [
    (
        'j',
        NONE,
        KeyEventKind::Press,
        PLAIN,
        InputEvent::UpdateUpperMark(1),
    ),
    ('j', NONE, KeyEventKind::Repeat, PLAIN, InputEvent::Ignore),
    ('j', NONE, KeyEventKind::Release, PLAIN, InputEvent::Ignore),
    (
        'j',
        NONE,
        KeyEventKind::Press,
        KeyEventState::KEYPAD,
        InputEvent::Ignore,
    ),
    (
        'j',
        KeyModifiers::ALT,
        KeyEventKind::Press,
        PLAIN,
        InputEvent::Ignore,
    ),
    (
        '0',
        NONE,
        KeyEventKind::Press,
        PLAIN,
        InputEvent::Number('0'),
    ),
    (
        '9',
        NONE,
        KeyEventKind::Press,
        PLAIN,
        InputEvent::Number('9'),
    ),
    (
        '7',
        NONE,
        KeyEventKind::Repeat,
        PLAIN,
        InputEvent::Number('7'),
    ),
    (
        '7',
        NONE,
        KeyEventKind::Release,
        KeyEventState::KEYPAD,
        InputEvent::Number('7'),
    ),
    (
        '7',
        KeyModifiers::SHIFT,
        KeyEventKind::Press,
        PLAIN,
        InputEvent::Ignore,
    ),
    (
        '\u{663}',
        NONE,
        KeyEventKind::Press,
        PLAIN,
        InputEvent::Ignore,
    ),
    // an ASCII letter with SHIFT is its capital, with SHIFT or without
    (
        'G',
        KeyModifiers::SHIFT,
        KeyEventKind::Press,
        PLAIN,
        InputEvent::UpdateUpperMark(BOTTOM),
    ),
    (
        'M',
        KeyModifiers::SHIFT,
        KeyEventKind::Press,
        PLAIN,
        InputEvent::ShowHelp,
    ),
];

#[test]
fn a_key_is_its_code_modifiers_kind_and_state(rt: HostRuntime) {
    for (place, (code, modifiers, kind, state, wanted)) in KINDS.iter().enumerate() {
        let event = char_key(*code, *modifiers, *kind, *state);
        assert!(rt; asks(rt.alloc(), event, &START, *wanted), "at {place}");
    }
}
