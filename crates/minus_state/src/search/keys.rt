//! What the keys of a search prompt do.
ghost use Rattle.std.specs.Prelude.{◌≡◌};
ghost use Rattle.minus_state.specs.QueryKeys.{edit_of, key_edit, plain_edit, shifted_edit, controlled_edit};

use minus_term::{Event, KeyCode, KeyEvent, KeyEventKind, KeyModifiers};

/// What an event does to a query.
#[derive(Clone, Copy, Debug, PartialEq, Eq)]
pub enum QueryEdit {
    /// It does nothing.
    Nothing,
    /// It closes the prompt and drops the query.
    Cancels,
    /// It closes the prompt and takes the query.
    Confirms,
    /// It removes the character before the cursor.
    RemovesBefore,
    /// It removes the character under the cursor.
    RemovesUnder,
    /// It moves the cursor one character to the left.
    Left,
    /// It moves the cursor one character to the right.
    Right,
    /// It moves the cursor to the first character.
    Start,
    /// It moves the cursor behind the last character.
    End,
    /// It moves the cursor to the last start of a word before it, or to the first character.
    WordLeft,
    /// It moves the cursor to the first start of a word behind it, or behind the last character.
    WordRight,
    /// It inserts this character before the cursor.
    Inserts(char),
}

// What a key does without a modifier.
fn plain_edit(code: KeyCode) -> QueryEdit
    ensures { result ≡ plain_edit code }
{
    match code {
        KeyCode::Esc => QueryEdit::Cancels,
        KeyCode::Enter => QueryEdit::Confirms,
        KeyCode::Backspace => QueryEdit::RemovesBefore,
        KeyCode::Delete => QueryEdit::RemovesUnder,
        KeyCode::Left => QueryEdit::Left,
        KeyCode::Right => QueryEdit::Right,
        KeyCode::Home => QueryEdit::Start,
        KeyCode::End => QueryEdit::End,
        KeyCode::Char(character) => QueryEdit::Inserts(character),
        _ => QueryEdit::Nothing,
    }
}

// What a key does with shift alone.
fn shifted_edit(code: KeyCode) -> QueryEdit
    ensures { result ≡ shifted_edit code }
{
    match code {
        KeyCode::Char(character) => QueryEdit::Inserts(character),
        _ => QueryEdit::Nothing,
    }
}

// What a key does with control alone.
fn controlled_edit(code: KeyCode) -> QueryEdit
    ensures { result ≡ controlled_edit code }
{
    match code {
        KeyCode::Left => QueryEdit::WordLeft,
        KeyCode::Right => QueryEdit::WordRight,
        _ => QueryEdit::Nothing,
    }
}

// What a key does that is pressed.
fn key_edit(key: &KeyEvent) -> QueryEdit
    ensures { result ≡ key_edit key.now }
{
    if key.modifiers == KeyModifiers::NONE {
        return plain_edit(key.code);
    }
    if key.modifiers == KeyModifiers::SHIFT {
        return shifted_edit(key.code);
    }
    if key.modifiers == KeyModifiers::CONTROL {
        return controlled_edit(key.code);
    }
    QueryEdit::Nothing
}

/// What an event does to a query: a key that is pressed does what its code and modifiers say, and any other event does
/// nothing.
///
/// Without a modifier Esc cancels and Enter confirms, Backspace and Delete remove, Left, Right, Home and End move the
/// cursor; with control alone Left and Right move it from word to word; without a modifier or with shift alone a
/// character is inserted.
pub fn edit_of(event: &Event) -> QueryEdit
    ensures { result ≡ edit_of event.now }
{
    match event {
        Event::Key(key) if key.kind == KeyEventKind::Press => key_edit(key),
        _ => QueryEdit::Nothing,
    }
}
