//! Many keys at once, and a help text of many lines.

use crate::facts::assert_holds;
use minus::InputEvent::UpdateUpperMark;
use minus::{
    ActionCall, Event, EventTable, FixedSeed, InputClassifier, InputEvent, PagerState,
    generate_default_bindings, parse_key_event,
};
use std::alloc::Global;

// A callback that asks for nothing.
#[derive(Drop)]
struct Nothing;

impl ActionCall for Nothing {
    ghost answers = { λ callback event state answer. Unit {0} };

    fn ask(&self, _event: &Event, _state: &PagerState) -> InputEvent {
        InputEvent::Ignore
    }
}

// What a key is pressed with.
const WITH: [&str; 8] = ["", "c-", "m-", "s-", "c-m-", "c-s-", "m-s-", "c-m-s-"];

// The descriptions of letters, capitals too, with each of these: 416 in all.
fn descriptions(alloc: Global) -> Option<Vec<String>> {
    let mut texts = Vec::new(alloc);
    for with in WITH {
        for letter in "abcdefghijklmnopqrstuvwxyzABCDEFGHIJKLMNOPQRSTUVWXYZ".chars() {
            let text = format!(in alloc; "{with}{letter}").ok()?;
            texts.push(text).ok()?;
        }
    }
    Some(texts)
}

// All of these 25 times: 10,400 descriptions.
fn repeated<'a>(alloc: Global, texts: &'a [String]) -> Option<Vec<&'a str>> {
    let mut named = Vec::new(alloc);
    for _ in 0..25 {
        for text in texts {
            named.push(text.as_str()).ok()?;
        }
    }
    Some(named)
}

type Register = EventTable<FixedSeed, Nothing>;

// A register in which all of them are bound by one call, and the default bindings by another.
fn bound(alloc: Global) -> Option<Register> {
    let texts = descriptions(alloc)?;
    let named = repeated(alloc, &texts)?;
    let mut register: Register = EventTable::new(alloc, FixedSeed::new());
    register
        .add_described_key_events(&named, "nothing", Nothing)
        .ok()?;
    // (a letter with SHIFT is its capital)
    if register.len() != 208 {
        return None;
    }
    generate_default_bindings(&mut register).ok()?;
    Some(register)
}

// What a register answers to the press of a key, in a state without a text.
fn asks(alloc: Global, register: &Register, text: &str) -> Option<InputEvent> {
    let (Ok(key), Ok(state)) = (parse_key_event(text), PagerState::new(alloc, 20, 4)) else {
        return None;
    };
    register.classify_input(Event::Key(key), &state)
}

// Whether the keys do what was bound last, and help lists them.
fn binds_many(alloc: Global) -> bool {
    let Some(register) = bound(alloc) else {
        return false;
    };
    asks(alloc, &register, "c-m-z") == Some(InputEvent::Ignore)
        && asks(alloc, &register, "j") == Some(UpdateUpperMark(1))
        && asks(alloc, &register, "down") == Some(UpdateUpperMark(1))
        && matches!(register.format_help(alloc), Ok(Some(_)))
}

#[test]
fn ten_thousand_keys_are_bound(rt: HostRuntime) {
    assert_holds(&rt, binds_many(rt.alloc()));
}
