//! Descriptions of keys and of actions of the mouse.
ghost use Rattle.std.specs.Prelude.{◌≡◌, ◌<◌, length, IfOk, IfErr};
ghost use Rattle.std.specs.Str.{IsAscii, trim};
ghost use Rattle.minus_input.specs.Description.{DescribesKey, DescribesMouse, KeyFault, MouseFault, EachTextHasOneMeaning};

use crate::key_seq::KeySeq;
use minus_term::{
    DescriptionError, KeyCode, KeyEvent, KeyEventKind, KeyEventState, MouseEvent, MouseEventKind,
};

/// The part of a text that is read: it is ASCII, and something stands in it.
fn described(text: &str) -> Result<&str, DescriptionError>
    ensures ok { IfOk result (λ part. IsAscii text.now × (0 < length part.now) × (part.now ≡ trim text.now)) }
    ensures err { IfErr result (KeyFault text.now) }
    ensures mouse { IfErr result (MouseFault text.now) }
{
    if !text.is_ascii() {
        return Err(DescriptionError::NotAscii);
    }
    let part = text.trim();
    if part.is_empty() {
        return Err(DescriptionError::Empty);
    }
    Ok(part)
}

/// The key that a text describes, pressed: its modifiers as `m-`, `c-` or `s-`, and a character or
/// a name, such as `c-s-h`, `f5` or `m-dash`. With modifiers alone it is the key Null. It takes no
/// memory.
///
/// # Errors
///
/// [`DescriptionError::NotAscii`] where a character is not ASCII, and else
/// [`DescriptionError::Empty`] where nothing but white space stands there. Else the fault of the
/// first segment from the left that has one: [`DescriptionError::EmptySegment`] where it is empty,
/// neither first nor last, and not right after a modifier, [`DescriptionError::RepeatedModifier`]
/// where it is a modifier that stands before it too, [`DescriptionError::UnknownName`] where it is
/// no modifier and names no key, and [`DescriptionError::SecondKey`] where it names a second one.
pub fn parse_key_event(text: &str) -> Result<KeyEvent, DescriptionError>
    ensures ok { IfOk result (DescribesKey text.now) }
    ensures err { IfErr result (KeyFault text.now) }
{
    let part = described(text)?;
    let seq = KeySeq::<KeyCode>::read_all(part)?;
    Ok(KeyEvent {
        code: seq.code.unwrap_or(KeyCode::Null),
        modifiers: seq.modifiers,
        kind: KeyEventKind::Press,
        state: KeyEventState::NONE,
    })
}

/// The action of the mouse that a text describes, at column and row 0: its modifiers, and an
/// action such as `left:down`, `move` or `scroll:up`. It takes no memory.
///
/// # Errors
///
/// [`DescriptionError::NotAscii`] where a character is not ASCII, and else
/// [`DescriptionError::Empty`] where nothing but white space stands there. Else the fault of the
/// first segment from the left that has one: [`DescriptionError::EmptySegment`] where it is empty,
/// neither first nor last, and not right after a modifier, [`DescriptionError::RepeatedModifier`]
/// where it is a modifier that stands before it too, [`DescriptionError::UnknownName`] where it is
/// no modifier and names no action, and [`DescriptionError::SecondKey`] where it names a second one.
/// [`DescriptionError::NoAction`] where no segment has a fault, and none names an action.
pub fn parse_mouse_event(text: &str) -> Result<MouseEvent, DescriptionError>
    ensures ok { IfOk result (DescribesMouse text.now) }
    ensures err { IfErr result (MouseFault text.now) }
{
    let part = described(text)?;
    let seq = KeySeq::<MouseEventKind>::read_all(part)?;
    let Some(kind) = seq.code else {
        return Err(DescriptionError::NoAction);
    };
    Ok(MouseEvent {
        kind,
        column: 0,
        row: 0,
        modifiers: seq.modifiers,
    })
}

/// A law: each text describes one event, or one error says why it describes none; for keys and
/// for the mouse.
pub fn each_text_has_one_meaning()
    ensures { EachTextHasOneMeaning }
{}
