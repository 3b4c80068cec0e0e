//! The names that a description is made of.
ghost use Rattle.std.specs.Prelude.{◌≡◌, Option, bytes_eq};
ghost use Rattle.std.specs.Option.{option_map};
ghost use Rattle.minus_input.specs.Names.{modifier_bit, modifier_letter, lowered, look_up, editing_keys, moving_keys, function_keys, key_named, button_actions, other_actions, action_named};

use minus_term::{KeyCode, KeyModifiers, MouseButton, MouseEventKind};

/// The modifier with this letter: `m` is ALT, `c` is CONTROL and `s` is SHIFT.
pub fn modifier_of(letter: char) -> Option<KeyModifiers>
    ensures { option_map (λ m. m.0) result ≡ modifier_bit letter }
{
    match letter {
        'm' => Some(KeyModifiers::ALT),
        'c' => Some(KeyModifiers::CONTROL),
        's' => Some(KeyModifiers::SHIFT),
        _ => None,
    }
}

/// The modifier that a segment is the letter of.
pub(crate) fn modifier_named(segment: &str) -> Option<KeyModifiers>
    ensures { option_map (λ m. m.0) result ≡ modifier_letter segment.now }
{
    match segment.as_bytes() {
        [letter] => modifier_of(char::from(*letter)),
        _ => None,
    }
}

/// Whether a segment is this name, in any ASCII case.
fn is_name(segment: &str, name: &str) -> bool
    ensures { result ≡ bytes_eq (lowered segment.now) (lowered name.now) }
{
    segment.eq_ignore_ascii_case(name)
}

/// The key with this name, of those that end, take out or put in.
fn editing_key(name: &str) -> Option<KeyCode>
    ensures { result ≡ look_up (lowered name.now) editing_keys }
{
    match name {
        _ if is_name(name, "enter") => Some(KeyCode::Enter),
        _ if is_name(name, "tab") => Some(KeyCode::Tab),
        _ if is_name(name, "backtab") => Some(KeyCode::BackTab),
        _ if is_name(name, "backspace") => Some(KeyCode::Backspace),
        _ if is_name(name, "insert") => Some(KeyCode::Insert),
        _ if is_name(name, "delete") => Some(KeyCode::Delete),
        _ if is_name(name, "esc") => Some(KeyCode::Esc),
        _ if is_name(name, "dash") => Some(KeyCode::Char('-')),
        _ if is_name(name, "space") => Some(KeyCode::Char(' ')),
        _ => None,
    }
}

/// The key with this name, of those that move a cursor.
fn moving_key(name: &str) -> Option<KeyCode>
    ensures { result ≡ look_up (lowered name.now) moving_keys }
{
    match name {
        _ if is_name(name, "up") => Some(KeyCode::Up),
        _ if is_name(name, "down") => Some(KeyCode::Down),
        _ if is_name(name, "left") => Some(KeyCode::Left),
        _ if is_name(name, "right") => Some(KeyCode::Right),
        _ if is_name(name, "pageup") => Some(KeyCode::PageUp),
        _ if is_name(name, "pagedown") => Some(KeyCode::PageDown),
        _ if is_name(name, "home") => Some(KeyCode::Home),
        _ if is_name(name, "end") => Some(KeyCode::End),
        _ => None,
    }
}

/// The function key with this name.
fn function_key(name: &str) -> Option<KeyCode>
    ensures { result ≡ look_up (lowered name.now) function_keys }
{
    match name {
        _ if is_name(name, "f1") => Some(KeyCode::F(1)),
        _ if is_name(name, "f2") => Some(KeyCode::F(2)),
        _ if is_name(name, "f3") => Some(KeyCode::F(3)),
        _ if is_name(name, "f4") => Some(KeyCode::F(4)),
        _ if is_name(name, "f5") => Some(KeyCode::F(5)),
        _ if is_name(name, "f6") => Some(KeyCode::F(6)),
        _ if is_name(name, "f7") => Some(KeyCode::F(7)),
        _ if is_name(name, "f8") => Some(KeyCode::F(8)),
        _ if is_name(name, "f9") => Some(KeyCode::F(9)),
        _ if is_name(name, "f10") => Some(KeyCode::F(10)),
        _ if is_name(name, "f11") => Some(KeyCode::F(11)),
        _ if is_name(name, "f12") => Some(KeyCode::F(12)),
        _ => None,
    }
}

/// The key that a segment names.
pub(crate) fn key_code_named(segment: &str) -> Option<KeyCode>
    ensures { result ≡ key_named segment.now }
{
    if let [character] = segment.as_bytes() {
        return Some(KeyCode::Char(char::from(*character)));
    }
    if let Some(key) = editing_key(segment) {
        return Some(key);
    }
    if let Some(key) = moving_key(segment) {
        return Some(key);
    }
    function_key(segment)
}

/// The action with a button of the mouse that has this name.
fn button_action(name: &str) -> Option<MouseEventKind>
    ensures { result ≡ look_up (lowered name.now) button_actions }
{
    match name {
        _ if is_name(name, "left:down") => Some(MouseEventKind::Down(MouseButton::Left)),
        _ if is_name(name, "left:up") => Some(MouseEventKind::Up(MouseButton::Left)),
        _ if is_name(name, "left:drag") => Some(MouseEventKind::Drag(MouseButton::Left)),
        _ if is_name(name, "right:down") => Some(MouseEventKind::Down(MouseButton::Right)),
        _ if is_name(name, "right:up") => Some(MouseEventKind::Up(MouseButton::Right)),
        _ if is_name(name, "right:drag") => Some(MouseEventKind::Drag(MouseButton::Right)),
        _ if is_name(name, "mid:down") => Some(MouseEventKind::Down(MouseButton::Middle)),
        _ if is_name(name, "mid:up") => Some(MouseEventKind::Up(MouseButton::Middle)),
        _ if is_name(name, "mid:drag") => Some(MouseEventKind::Drag(MouseButton::Middle)),
        _ => None,
    }
}

/// The action of the mouse with this name that takes no button.
fn other_action(name: &str) -> Option<MouseEventKind>
    ensures { result ≡ look_up (lowered name.now) other_actions }
{
    match name {
        _ if is_name(name, "move") => Some(MouseEventKind::Moved),
        _ if is_name(name, "scroll:up") => Some(MouseEventKind::ScrollUp),
        _ if is_name(name, "scroll:down") => Some(MouseEventKind::ScrollDown),
        _ => None,
    }
}

/// The action of the mouse that a segment names.
pub(crate) fn mouse_action_named(segment: &str) -> Option<MouseEventKind>
    ensures { result ≡ action_named segment.now }
{
    match button_action(segment) {
        Some(action) => Some(action),
        None => other_action(segment),
    }
}
