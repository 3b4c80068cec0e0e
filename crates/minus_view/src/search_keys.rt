//! The keys that a pager program keeps for itself while its search prompt is open: all others are the prompt's.
ghost use Rattle.std.specs.Prelude.{◌≡◌};
ghost use Rattle.minus_view.specs.SearchKeys.{plain_key, control_key, pressed_key, search_key};

use minus_term::{Event, KeyCode, KeyEvent, KeyEventKind, KeyModifiers};

/// What a pager program does with an event while its search prompt is open.
#[derive(Clone, Copy, PartialEq, Eq)]
pub enum SearchKey {
    /// It hands the event to the prompt, where it types, moves or removes, or does nothing.
    Types,
    /// It keeps the query, and hands the event to the prompt, which takes the query.
    Takes,
    /// It closes the prompt, takes no query, and goes on to the next match of the one before.
    Repeats,
    /// It closes the prompt, and takes no query.
    Leaves,
    /// It closes the prompt, takes no query, and hands the terminal back.
    Suspends,
    /// It puts an older query in the place of the one in the prompt.
    Older,
    /// It puts a newer query there, or what was typed.
    Newer,
}

// What it does with a key without a modifier.
fn plain_key(code: KeyCode, is_empty: bool) -> SearchKey
    ensures { result ≡ plain_key code is_empty }
{
    match code {
        KeyCode::Esc => SearchKey::Leaves,
        KeyCode::Up => SearchKey::Older,
        KeyCode::Down => SearchKey::Newer,
        KeyCode::Enter => {
            if is_empty {
                SearchKey::Repeats
            } else {
                SearchKey::Takes
            }
        }
        KeyCode::Backspace => {
            if is_empty {
                SearchKey::Leaves
            } else {
                SearchKey::Types
            }
        }
        _ => SearchKey::Types,
    }
}

// What it does with a key with control.
fn control_key(code: KeyCode) -> SearchKey
    ensures { result ≡ control_key code }
{
    match code {
        KeyCode::Char('c') => SearchKey::Leaves,
        KeyCode::Char('z') => SearchKey::Suspends,
        _ => SearchKey::Types,
    }
}

// What it does with a key that is pressed.
fn pressed_key(key: &KeyEvent, is_empty: bool) -> SearchKey
    ensures { result ≡ pressed_key key.now is_empty }
{
    if key.modifiers == KeyModifiers::NONE {
        return plain_key(key.code, is_empty);
    }
    if key.modifiers == KeyModifiers::CONTROL {
        return control_key(key.code);
    }
    SearchKey::Types
}

/// What a pager program does with an event while its search prompt is open. `is_empty` says that the query is empty:
/// Enter then searches on for the one before, and Backspace leaves the prompt, as in `less`.
pub fn search_key(event: &Event, is_empty: bool) -> SearchKey
    ensures { result ≡ search_key event.now is_empty }
{
    match event {
        Event::Key(key) if key.kind == KeyEventKind::Press => pressed_key(key, is_empty),
        _ => SearchKey::Types,
    }
}
