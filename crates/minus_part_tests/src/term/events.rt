//! Keys that are equal and keys that are not, and the bits of the sets.
use crate::facts::assert_holds;
use bitflags::Flags;
use minus_term::{
    Event, KeyCode, KeyEvent, KeyEventKind, KeyEventState, KeyModifiers, MouseButton, MouseEvent,
    MouseEventKind,
};
use std::hash::{DefaultHasher, Hash, Hasher};

// A character's key, pressed.
fn pressed(character: char, modifiers: KeyModifiers) -> KeyEvent {
    KeyEvent {
        code: KeyCode::Char(character),
        modifiers,
        kind: KeyEventKind::Press,
        state: KeyEventState::NONE,
    }
}

// What the default hasher makes of a key.
fn hashed(key: &KeyEvent) -> u64 {
    let mut hasher = DefaultHasher::new();
    key.hash(&mut hasher);
    hasher.finish()
}

// Whether two keys are equal and hash alike.
fn are_equal(one: KeyEvent, other: KeyEvent) -> bool {
    one == other && hashed(&one) == hashed(&other)
}

// Whether two keys are not equal and hash apart.
fn are_apart(one: KeyEvent, other: KeyEvent) -> bool {
    one != other && hashed(&one) != hashed(&other)
}

#[test]
fn letters_with_shift_equal_their_capitals(rt: HostRuntime) {
    let small = pressed('a', KeyModifiers::SHIFT);
    let is_equal = are_equal(small, pressed('A', KeyModifiers::NONE))
        && are_equal(small, pressed('A', KeyModifiers::SHIFT));
    let is_apart = are_apart(small, pressed('a', KeyModifiers::NONE))
        && are_apart(small, pressed('A', KeyModifiers::CONTROL))
        && are_apart(small, pressed('B', KeyModifiers::SHIFT));
    assert_holds(&rt, is_equal && is_apart);
}

#[test]
fn other_characters_stay_apart(rt: HostRuntime) {
    let accents = pressed('É', KeyModifiers::NONE) != pressed('é', KeyModifiers::SHIFT);
    let digits = pressed('1', KeyModifiers::NONE) != pressed('1', KeyModifiers::SHIFT);
    let one = pressed('É', KeyModifiers::NONE) == pressed('É', KeyModifiers::NONE);
    assert_holds(&rt, accents && digits && one);
}

#[test]
fn events_compare_all_of_a_key(rt: HostRuntime) {
    let key = pressed('a', KeyModifiers::SHIFT);
    let capital = pressed('A', KeyModifiers::NONE);
    let mut released = key;
    released.kind = KeyEventKind::Release;
    let mut locked = key;
    locked.state = KeyEventState::CAPS_LOCK;
    let equal = Event::Key(key) == Event::Key(capital);
    let kinds = Event::Key(key) != Event::Key(released);
    let states = Event::Key(key) != Event::Key(locked);
    assert_holds(&rt, equal && kinds && states);
}

#[test]
fn events_of_other_kinds_compare_all_they_hold(rt: HostRuntime) {
    let mouse = MouseEvent {
        kind: MouseEventKind::Down(MouseButton::Left),
        column: 1,
        row: 2,
        modifiers: KeyModifiers::NONE,
    };
    let sizes = Event::Resize(80, 24) != Event::Resize(24, 80);
    let same = Event::Mouse(mouse) == Event::Mouse(mouse);
    let apart = Event::Mouse(mouse) != Event::FocusLost;
    assert_holds(&rt, sizes && same && apart);
}

#[test]
fn modifiers_have_their_bits(rt: HostRuntime) {
    let cases = &[
        (KeyModifiers::NONE, 0),
        (KeyModifiers::SHIFT, 1),
        (KeyModifiers::CONTROL, 2),
        (KeyModifiers::ALT, 4),
        (KeyModifiers::SUPER, 8),
        (KeyModifiers::HYPER, 16),
        (KeyModifiers::META, 32),
        (KeyModifiers::SHIFT | KeyModifiers::ALT, 5),
    ];
    for (modifiers, bits) in cases {
        let back = KeyModifiers::from_bits(*bits) == Some(*modifiers);
        assert!(rt; back && modifiers.bits() == *bits, "at {bits}");
    }
}

#[test]
fn states_have_their_bits(rt: HostRuntime) {
    let cases: &[(KeyEventState, u8)] = &[
        (KeyEventState::NONE, 0),
        (KeyEventState::KEYPAD, 1),
        (KeyEventState::CAPS_LOCK, 2),
        (KeyEventState::NUM_LOCK, 4),
    ];
    for (state, bits) in cases {
        let back = KeyEventState::from_bits(*bits) == Some(*state);
        assert!(rt; back && state.bits() == *bits, "at {bits}");
    }
}

#[test]
fn flags_have_their_names_and_no_others_are_read(rt: HostRuntime) {
    let meta = KeyModifiers::from_name("META") == Some(KeyModifiers::META);
    let keypad = KeyEventState::from_name("KEYPAD") == Some(KeyEventState::KEYPAD);
    let none = KeyModifiers::from_bits(64).is_none() && KeyEventState::from_bits(8).is_none();
    assert_holds(&rt, meta && keypad && none);
}
