//! The events that texts describe.
ghost use Rattle.std.specs.Prelude.{◌≡◌};
ghost use Rattle.std.specs.Option.{option_map};
ghost use Rattle.minus_script.specs.DescribedEvents.{key_described, mouse_described, mouse_said, split_last, u16_of};

use minus::{KeyEvent, MouseEvent, parse_key_event, parse_mouse_event, parse_usize};

/// The key that a text describes.
pub(crate) fn parse_key(text: &str) -> Option<KeyEvent>
    ensures { result ≡ key_described text.now }
{
    parse_key_event(text).ok()
}

/// The action of the mouse that a text describes.
fn parse_action(text: &str) -> Option<MouseEvent>
    ensures { result ≡ mouse_described text.now }
{
    parse_mouse_event(text).ok()
}

/// The number of a column or a row that a text writes.
fn parse_u16(text: &str) -> Option<u16>
    ensures { result ≡ u16_of text.now }
{
    u16::try_from(parse_usize(text)?).ok()
}

/// What stands before the last blank of a text, and the field after it.
fn split_last(text: &str) -> Option<(&str, &str)>
    ensures { option_map (λ fields. (fields.0.now, fields.1.now)) result ≡ split_last text.now }
{
    text.rsplit_once(' ')
}

/// The event of the mouse that an argument says: a description, a column and a row, with a blank between them.
pub(crate) fn parse_mouse(argument: &str) -> Option<MouseEvent>
    ensures { result ≡ mouse_said argument.now }
{
    let (front, row) = split_last(argument)?;
    let (description, column) = split_last(front)?;
    let mouse = parse_action(description)?;
    let column = parse_u16(column)?;
    let row = parse_u16(row)?;
    Some(MouseEvent {
        column,
        row,
        ..mouse
    })
}
