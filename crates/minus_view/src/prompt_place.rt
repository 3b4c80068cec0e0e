//! The text of the prompt row: where in the text the page is.
ghost use Rattle.std.specs.Prelude.{◌≡◌, ◌++◌, string_bytes, IfOk};
ghost use Rattle.std.specs.List.{flat_map};
ghost use Rattle.std.specs.Str.{chars, encode_utf8_all};
ghost use Rattle.minus_view.specs.PromptPlace.{shown_as, percent, fits, end_within, name_within, place_text};

use crate::prepare::columns;
use std::alloc::{AllocError, Global};

/// Where in its text a page is.
#[derive(Clone, Copy, PartialEq, Eq)]
pub struct Place {
    /// The first displayed line, counted from 1; 0 where there is none.
    pub first: usize,
    /// The last displayed line, counted from 1; 0 where there is none.
    pub last: usize,
    /// How many lines there are.
    pub lines: usize,
    /// Where the row behind the last displayed one begins, in bytes; behind all rows, where the text ends.
    pub end: usize,
    /// The length of the text in bytes.
    pub bytes: usize,
}

// Adds the characters that a character of a name is shown as.
fn push_clean(shown: &mut Vec<char>, c: char) -> Result<(), AllocError>
    ensures { IfOk result (λ _. shown.new.items ≡ shown.old.items ++ shown_as c) }
{
    match c {
        '\0'..='\x1F' => {
            shown.push('^')?;
            shown.push(char::from(c as u8 + 64))?;
        }
        '\x7F' => {
            shown.push('^')?;
            shown.push('?')?;
        }
        '\u{80}'..='\u{9F}' => shown.push('?')?,
        _ => shown.push(c)?,
    }
    Ok(())
}

// The characters of a name, as they are shown: `^A` stands for a control character, and `?` for one from U+0080 to
// U+009F.
fn clean_characters(alloc: Global, name: &str) -> Result<Vec<char>, AllocError>
    ensures { IfOk result (λ shown. shown.items ≡ flat_map shown_as (chars name.now)) }
{
    let mut shown = Vec::new(alloc);
    for c in name.chars() {
        push_clean(&mut shown, c)?;
    }
    Ok(shown)
}

// Adds characters to a text.
fn push_all(text: &mut String, characters: &[char]) -> Result<(), AllocError>
    ensures { IfOk result (λ _. string_bytes text.new ≡ string_bytes text.old ++ encode_utf8_all characters.now) }
{
    for c in characters {
        text.push(*c)?;
    }
    Ok(())
}

/// How many per cent of a whole a part of it is, rounded down and at most 100; 100 where the whole is nothing.
pub fn percent(part: usize, whole: usize) -> usize
    ensures { result ≡ percent part whole }
{
    if whole == 0 {
        return 100;
    }
    let hundredths = part as u128 * 100 / whole as u128;
    hundredths.min(100) as usize
}

// Whether characters have no more columns than there are.
fn fits(room: usize, characters: &[char]) -> bool
    ensures { result ≡ fits room characters.now }
{
    let mut left = room;
    for c in characters {
        let columns = columns(*c);
        if left < columns {
            return false;
        }
        left -= columns;
    }
    true
}

// The longest end of characters that fits.
fn end_within(room: usize, characters: &[char]) -> &[char]
    ensures { result.now ≡ end_within room characters.now }
{
    for (at, _) in characters.iter().enumerate() {
        if fits(room, &characters[at..]) {
            return &characters[at..];
        }
    }
    &[]
}

// A name in this many columns: where it is longer, `..` and its end; nothing where even `..` is.
fn name_within(alloc: Global, room: usize, name: &[char]) -> Result<String, AllocError>
    ensures { IfOk result (λ text. string_bytes text ≡ name_within room name.now) }
{
    let mut text = String::new(alloc);
    if fits(room, name) {
        push_all(&mut text, name)?;
    } else if 2 <= room {
        text.push_str("..")?;
        push_all(&mut text, end_within(room - 2, name))?;
    }
    Ok(text)
}

/// The text of the prompt row, as `notes.txt  20-43/100  27%`: the name, with `^A` for a control character; the first
/// and the last displayed line; how many lines there are; and the part of the text up to the last displayed row, in per
/// cent. A text wider than the row has `..` and the end of the name, or no name; the numbers are always there.
///
/// # Errors
///
/// [`AllocError`] where there is no memory.
pub fn place_text(
    alloc: Global,
    columns: usize,
    name: &str,
    place: Place,
) -> Result<String, AllocError>
    ensures { IfOk result (λ text. string_bytes text ≡ place_text columns name.now place) }
{
    let (first, last, lines) = (place.first, place.last, place.lines);
    let part = percent(place.end, place.bytes);
    let numbers = format!(in alloc; "{first}-{last}/{lines}  {part}%")?;
    let room = columns.saturating_sub(numbers.len() + 2);
    let name = name_within(alloc, room, &clean_characters(alloc, name)?)?;
    if name.is_empty() {
        return Ok(numbers);
    }
    format!(in alloc; "{name}  {numbers}")
}
