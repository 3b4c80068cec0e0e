//! Events, and what classifiers answer to them in a state.
use minus_input::{parse_key_event, parse_mouse_event};
use minus_state::{InputClassifier, InputEvent, PagerState};
use minus_term::{Event, KeyEvent, KeyEventKind, MouseEvent};
use regex::Regex;
use std::alloc::Global;

/// Ten lines of a row each.
pub const TEN_LINES: &str = "l0\nl1\nl2\nl3\nl4\nl5\nl6\nl7\nl8\nl9";

/// The typed prefix and the mark of a state of ten lines on 20 columns and four rows, whose left mark is 4.
#[derive(Clone, Copy)]
pub struct At<'a> {
    pub prefix: &'a str,
    pub mark: usize,
}

/// No prefix, at the first row.
pub const START: At<'static> = At {
    prefix: "",
    mark: 0,
};

// In the place of an event that a text does not describe: no table waits for what it asks for.
const UNREAD: Event = Event::Resize(7, 7);

/// The key that a text describes, with what is done with it.
pub fn key(text: &str, kind: KeyEventKind) -> Event {
    match parse_key_event(text) {
        Ok(key) => Event::Key(KeyEvent { kind, ..key }),
        Err(_) => UNREAD,
    }
}

/// The press of the key that a text describes.
pub fn press(text: &str) -> Event {
    key(text, KeyEventKind::Press)
}

/// What a text describes of the mouse, at a column and a row.
pub fn mouse(text: &str, column: u16, row: u16) -> Event {
    match parse_mouse_event(text) {
        Ok(mouse) => Event::Mouse(MouseEvent {
            column,
            row,
            ..mouse
        }),
        Err(_) => UNREAD,
    }
}

/// A state of a text, on 20 columns and four rows; none where memory runs out.
pub fn state_of(alloc: Global, text: &str, at: &At<'_>) -> Option<PagerState> {
    let Ok(mut state) = PagerState::new(alloc, 20, 4) else {
        return None;
    };
    let is_appended = state.append_str(alloc, text).is_ok();
    let prefix = String::from_str(alloc, at.prefix).ok();
    let is_typed = prefix.is_some();
    state.place_prefix(prefix);
    state.upper_mark = at.mark;
    state.left_mark = 4;
    (is_appended && is_typed).then_some(state)
}

/// Whether a classifier answers this to an event in a state of ten lines.
pub fn answers<K: InputClassifier>(
    alloc: Global,
    classifier: &K,
    event: Event,
    at: &At<'_>,
    wanted: Option<InputEvent>,
) -> bool {
    match state_of(alloc, TEN_LINES, at) {
        Some(state) => classifier.classify_input(event, &state) == wanted,
        None => false,
    }
}

/// Searches for a term from now on, where it is a pattern and there is memory.
pub fn set_term(alloc: Global, state: &mut PagerState, term: &str) -> bool {
    match Regex::new(alloc, term) {
        Ok(pattern) => state.set_term(alloc, Some(pattern)).is_ok(),
        Err(_) => false,
    }
}
