//! The classifier that goes by exact codes and modifiers.
ghost use Rattle.std.specs.Prelude.{◌≡◌};
ghost use Rattle.minus_input.specs.ExactKeys.{to_row, match_on, match_back, plain_letter, control_letter, shift_letter, letter};
ghost use Rattle.minus_input.specs.DefaultAnswers.{steps};
ghost use Rattle.minus_input.specs.ExactKeys.{named_key, exact_key, wheel};

use crate::default_answers::{
    down_by, half_page, left_by, page, restore_or_down, right_by, steps, typed, up_by,
};
use minus_state::{InputClassifier, InputEvent, PagerState, SearchMode};
use minus_term::{Event, KeyCode, KeyModifiers, MouseEventKind};
use std::alloc::{AllocError, Global};

// The mark moves to the row before the one that the typed prefix names, counted from 1.
fn to_row(state: &PagerState) -> InputEvent
    ensures { result ≡ to_row state.now }
{
    let row = typed(state).unwrap_or(usize::MAX).saturating_sub(1);
    InputEvent::UpdateUpperMark(if row == 0 { usize::MAX } else { row })
}

// A jump on among the matches; after a search back, back.
fn match_on(state: &PagerState) -> InputEvent
    ensures { result ≡ match_on state.now.search_state.search_mode (steps state.now) }
{
    match state.search_state.search_mode {
        SearchMode::Reverse => InputEvent::MoveToPrevMatch(steps(state)),
        SearchMode::Forward | SearchMode::Unknown => InputEvent::MoveToNextMatch(steps(state)),
    }
}

// A jump back among the matches; after a search back, on.
fn match_back(state: &PagerState) -> InputEvent
    ensures { result ≡ match_back state.now.search_state.search_mode (steps state.now) }
{
    match state.search_state.search_mode {
        SearchMode::Reverse => InputEvent::MoveToNextMatch(steps(state)),
        SearchMode::Forward | SearchMode::Unknown => InputEvent::MoveToPrevMatch(steps(state)),
    }
}

// A character without modifiers that is no digit.
fn plain_letter(c: char, state: &PagerState) -> Option<InputEvent>
    ensures { result ≡ plain_letter c state.now }
{
    match c {
        'k' => Some(up_by(state, steps(state))),
        'j' => Some(down_by(state, steps(state))),
        'u' => Some(up_by(state, half_page(state))),
        'd' => Some(down_by(state, half_page(state))),
        'g' => Some(InputEvent::UpdateUpperMark(0)),
        'G' => Some(to_row(state)),
        ' ' => Some(down_by(state, page(state))),
        'q' => Some(InputEvent::Exit),
        'h' => Some(InputEvent::HorizontalScroll(!state.line_wrapping())),
        'l' => Some(right_by(state, 1)),
        '/' => Some(InputEvent::Search(SearchMode::Forward)),
        '?' => Some(InputEvent::Search(SearchMode::Reverse)),
        'n' => Some(match_on(state)),
        'p' => Some(match_back(state)),
        _ => None,
    }
}

// A character with CONTROL.
fn control_letter(c: char, state: &PagerState) -> Option<InputEvent>
    ensures { result ≡ control_letter c state.now }
{
    match c {
        'f' => Some(InputEvent::FollowOutput(!state.follow_output())),
        'u' => Some(up_by(state, half_page(state))),
        'd' => Some(down_by(state, half_page(state))),
        'l' => Some(InputEvent::UpdateLineNumber(!state.line_numbers)),
        'c' => Some(InputEvent::Exit),
        _ => None,
    }
}

// A character with SHIFT.
fn shift_letter(c: char, state: &PagerState) -> Option<InputEvent>
    ensures { result ≡ shift_letter c state.now }
{
    match c {
        'g' | 'G' => Some(to_row(state)),
        _ => None,
    }
}

// A character with modifiers.
fn letter(c: char, modifiers: KeyModifiers, state: &PagerState) -> Option<InputEvent>
    ensures { result ≡ letter c modifiers.0 state.now }
{
    if modifiers == KeyModifiers::NONE {
        if c.is_ascii_digit() {
            return Some(InputEvent::Number(c));
        }
        return plain_letter(c, state);
    }
    if modifiers == KeyModifiers::CONTROL {
        return control_letter(c, state);
    }
    if modifiers == KeyModifiers::SHIFT {
        return shift_letter(c, state);
    }
    None
}

// A key that is no character's, without modifiers.
fn named_key(code: &KeyCode, state: &PagerState) -> Option<InputEvent>
    ensures { result ≡ named_key code.now state.now }
{
    match code {
        KeyCode::Up => Some(up_by(state, steps(state))),
        KeyCode::Down => Some(down_by(state, steps(state))),
        KeyCode::Enter => Some(restore_or_down(state)),
        KeyCode::PageUp => Some(up_by(state, page(state))),
        KeyCode::PageDown => Some(down_by(state, page(state))),
        KeyCode::Left => Some(left_by(state, 1)),
        KeyCode::Right => Some(right_by(state, 1)),
        _ => None,
    }
}

// A key with modifiers.
fn exact_key(code: &KeyCode, modifiers: KeyModifiers, state: &PagerState) -> Option<InputEvent>
    ensures { result ≡ exact_key code.now modifiers.0 state.now }
{
    match code {
        KeyCode::Char(c) => letter(*c, modifiers, state),
        other => {
            if modifiers == KeyModifiers::NONE {
                named_key(other, state)
            } else {
                None
            }
        }
    }
}

// The wheel of the mouse.
fn wheel(kind: &MouseEventKind, state: &PagerState) -> Option<InputEvent>
    ensures { result ≡ wheel kind.now state.now }
{
    match kind {
        MouseEventKind::ScrollUp => Some(up_by(state, 5)),
        MouseEventKind::ScrollDown => Some(down_by(state, 5)),
        _ => None,
    }
}

/// The classifier that goes by exact codes and modifiers, and does not look at the kind and the state of a key. It asks
/// for nothing at any other event, and gives no text for help.
#[derive(Clone, Copy, Debug, Drop, PartialEq, Eq)]
pub struct DefaultInputClassifier;

impl InputClassifier for DefaultInputClassifier {
    ghost use Rattle.minus_input.specs.ExactClassifier.{exact_says};

    ghost says = { exact_says };

    fn classify_input(&self, event: Event, state: &PagerState) -> Option<InputEvent> {
        match event {
            Event::Key(key) => exact_key(&key.code, key.modifiers, state),
            Event::Mouse(mouse) => wheel(&mouse.kind, state),
            Event::Resize(cols, rows) => Some(InputEvent::UpdateTermArea(
                usize::from(cols),
                usize::from(rows),
            )),
            _ => None,
        }
    }

    fn format_help(&self, _alloc: Global) -> Result<Option<String>, AllocError> {
        Ok(None)
    }
}
