//! The names of keys, and the table of them that a help page shows.
ghost use Rattle.std.specs.Prelude.{◌≡◌, ◌==◌, map, not, IfOk, OnOk, string_bytes};
ghost use Rattle.std.specs.List.{flat_map};
ghost use Rattle.minus_input.specs.HelpTable.{named_code_name, code_name, key_name, shown, shows_shift, entry_of, seen_entry, add_once, names_of, descriptions, group_line, help_table};

use bitflags::Flags;
use minus_term::{KeyCode, KeyEvent, KeyModifiers};
use std::alloc::{AllocError, Global};

/// The name of a key that is neither a character's nor a function key.
fn named_code(code: &KeyCode) -> &'static str
    ensures { result.now ≡ named_code_name code.now }
{
    match code {
        KeyCode::Enter => "Enter",
        KeyCode::Tab => "Tab",
        KeyCode::BackTab => "BackTab",
        KeyCode::Backspace => "Backspace",
        KeyCode::Esc => "Esc",
        KeyCode::Up => "Up",
        KeyCode::Down => "Down",
        KeyCode::Left => "Left",
        KeyCode::Right => "Right",
        KeyCode::PageUp => "PageUp",
        KeyCode::PageDown => "PageDown",
        KeyCode::Home => "Home",
        KeyCode::End => "End",
        KeyCode::Delete => "Delete",
        KeyCode::Insert => "Insert",
        KeyCode::Null => "Null",
        _ => "Unknown",
    }
}

/// The name of a key without its modifiers.
fn format_code(alloc: Global, code: &KeyCode) -> Result<String, AllocError>
    ensures { IfOk result (λ text. string_bytes text ≡ code_name code.now) }
{
    match code {
        KeyCode::Char(' ') => format!(in alloc; "<Space>"),
        KeyCode::Char(character) => format!(in alloc; "{character}"),
        KeyCode::F(number) => format!(in alloc; "F{number}"),
        other => {
            let name = named_code(other);
            format!(in alloc; "{name}")
        }
    }
}

/// Whether a key's name shows SHIFT: an ASCII capital says it already.
fn shows_shift(key: &KeyEvent) -> bool
    ensures { result ≡ shows_shift key.now }
{
    let capital = match key.code {
        KeyCode::Char(character) => character.is_ascii_uppercase(),
        _ => false,
    };
    key.modifiers.contains(KeyModifiers::SHIFT) && !capital
}

/// A text, if it is to be shown.
fn shown(whether: bool, text: &'static str) -> &'static str
    ensures { result.now ≡ shown whether text.now }
{
    if whether { text } else { "" }
}

/// A key's name, such as `Ctrl-Alt-x`, `Shift-g` or `<Space>`. Fails only if memory runs out.
pub fn format_key(alloc: Global, key: &KeyEvent) -> Result<String, AllocError>
    ensures { IfOk result (λ text. string_bytes text ≡ key_name key.now) }
{
    let control = shown(key.modifiers.contains(KeyModifiers::CONTROL), "Ctrl-");
    let alt = shown(key.modifiers.contains(KeyModifiers::ALT), "Alt-");
    let shift = shown(shows_shift(key), "Shift-");
    let code = format_code(alloc, &key.code)?;
    format!(in alloc; "{control}{alt}{shift}{code}")
}

/// An entry of the help table.
#[derive(Drop)]
struct Entry<'a> {
    /// The key's name.
    name: String,
    /// The description, without white space at its ends.
    description: &'a str,
}

/// The entries with their keys' names.
fn read_entries<'a>(
    alloc: Global,
    entries: &[(&KeyEvent, &'a str)],
) -> Result<Vec<Entry<'a>>, AllocError>
    ensures { IfOk result (λ read. map seen_entry read.items ≡ map entry_of entries.now) }
{
    let mut read = Vec::new(alloc);
    for (key, description) in entries {
        let name = format_key(alloc, key)?;
        read.push(Entry {
            name,
            description: description.trim(),
        })?;
    }
    Ok(read)
}

/// Adds a text, unless it is there.
fn push_once<'a>(texts: &mut Vec<&'a str>, text: &'a str) -> Result<(), AllocError>
    ensures { OnOk result (map (λ t. t.now) texts.new.items
        ≡ add_once (map (λ t. t.now) texts.old.items) text.now) }
{
    if !texts.contains(&text) {
        texts.push(text)?;
    }
    Ok(())
}

/// The names of the keys with a description.
fn names_of<'a>(
    alloc: Global,
    entries: &'a [Entry<'_>],
    description: &str,
) -> Result<Vec<&'a str>, AllocError>
    ensures { IfOk result (λ names. map (λ name. name.now) names.items
        ≡ names_of (map seen_entry entries.now) description.now) }
{
    let mut names = Vec::new(alloc);
    for entry in entries {
        if entry.description == description {
            push_once(&mut names, entry.name.as_str())?;
        }
    }
    Ok(names)
}

/// The descriptions that are not empty.
fn descriptions<'a>(alloc: Global, entries: &[Entry<'a>]) -> Result<Vec<&'a str>, AllocError>
    ensures { IfOk result (λ texts. map (λ text. text.now) texts.items
        ≡ descriptions (map seen_entry entries.now)) }
{
    let mut texts = Vec::new(alloc);
    for entry in entries {
        if !entry.description.is_empty() {
            push_once(&mut texts, entry.description)?;
        }
    }
    Ok(texts)
}

/// The line of a description.
fn format_group(
    alloc: Global,
    entries: &[Entry<'_>],
    description: &str,
) -> Result<String, AllocError>
    ensures { IfOk result (λ line. string_bytes line ≡ group_line (map seen_entry entries.now) description.now) }
{
    let names = names_of(alloc, entries, description)?;
    let joined = names.join(alloc, ", ")?;
    format!(in alloc; "  {joined:<30} {description}\n")
}

/// The lines of some descriptions.
fn format_groups(
    alloc: Global,
    entries: &[Entry<'_>],
    descriptions: &[&str],
) -> Result<String, AllocError>
    ensures { IfOk result (λ lines. string_bytes lines
        ≡ flat_map (group_line (map seen_entry entries.now)) (map (λ text. text.now) descriptions.now)) }
{
    let mut lines = String::new(alloc);
    for description in descriptions {
        let line = format_group(alloc, entries, description)?;
        lines.push_str(line.as_str())?;
    }
    Ok(lines)
}

/// The table of some entries.
fn format_entries(alloc: Global, entries: &[Entry<'_>]) -> Result<String, AllocError>
    ensures { IfOk result (λ table. string_bytes table ≡ help_table (map seen_entry entries.now)) }
{
    let texts = descriptions(alloc, entries)?;
    if texts.is_empty() {
        return Ok(String::new(alloc));
    }
    let lines = format_groups(alloc, entries, &texts)?;
    format!(in alloc;
        "             COMMAND SUMMARY\n\n  Key(s)                         Action\n  ------                         ------\n{lines}\n  -- Press q to return to pager --\n"
    )
}

/// The help table: a line for each description that is not empty, in the order of first ones, with
/// the names of its keys. White space at a description's ends does not count. Empty if there is no
/// such line. Fails only if memory runs out.
pub fn format_help_table_from_entries(
    alloc: Global,
    entries: &[(&KeyEvent, &str)],
) -> Result<String, AllocError>
    ensures { IfOk result (λ table. string_bytes table ≡ help_table (map entry_of entries.now)) }
{
    let read = read_entries(alloc, entries)?;
    format_entries(alloc, read.as_slice())
}
