//! What an event asks for, as numbers.
ghost use Rattle.std.specs.Prelude.{◌≡◌, if◌then◌else◌, Some, None};
ghost use Rattle.minus_c.specs.InputEvents.{flag_of, is_place, typed, selecting, setting, asking, input_event_of};
ghost use Rattle.minus_c.specs.InputEvents.{kind_number, first_of, second_of};

use crate::enum_numbers::{line_numbers_of, number_of_mode, number_of_numbers, search_mode_of};
use minus::InputEvent;

/// What an event asks for.
#[repr(C)]
#[derive(Clone, Copy, Drop)]
pub struct AskedNumbers {
    /// The number of the refusal; 0 where the event was asked about.
    pub refusal: u8,
    /// Whether it asks for something.
    pub is_there: bool,
    /// The number of what it asks for.
    pub kind: u8,
    /// What it says more.
    pub first: usize,
    /// What it says more, behind that.
    pub second: usize,
}

// Whether a number is a flag, and which one.
fn flag_of(number: usize) -> Option<bool>
    ensures { result ≡ flag_of number }
{
    match number {
        0 => Some(false),
        1 => Some(true),
        _ => None,
    }
}

// A place on the page, where both are numbers of 16 bits.
fn place_of(x: usize, y: usize) -> Option<(u16, u16)>
    ensures { result ≡ (if is_place x y then Some (x, y) else None) }
{
    match (u16::try_from(x), u16::try_from(y)) {
        (Ok(x), Ok(y)) => Some((x, y)),
        _ => None,
    }
}

// The character that is typed to the prefix.
fn typed(code: usize) -> Option<InputEvent>
    ensures { result ≡ typed code }
{
    match u32::try_from(code) {
        Ok(code) => match char::from_u32(code) {
            Some(digit) => Some(InputEvent::Number(digit)),
            None => None,
        },
        Err(_) => None,
    }
}

// What begins or leads a selection.
fn selecting(kind: u8, x: usize, y: usize) -> Option<InputEvent>
    ensures { result ≡ selecting kind x y }
{
    let (x, y) = place_of(x, y)?;
    match kind {
        6 => Some(InputEvent::StartSelection { x, y }),
        7 => Some(InputEvent::UpdateSelection { x, y }),
        _ => None,
    }
}

// What sets something by a number.
fn setting(kind: u8, number: usize) -> Option<InputEvent>
    ensures { result ≡ setting kind number }
{
    match kind {
        4 => Some(InputEvent::UpdateLineNumber(line_numbers_of(number)?)),
        5 => Some(InputEvent::HorizontalScroll(flag_of(number)?)),
        10 => Some(InputEvent::Search(search_mode_of(number)?)),
        15 => Some(InputEvent::FollowOutput(flag_of(number)?)),
        18 => typed(number),
        _ => None,
    }
}

// What each number stands for.
fn asking(kind: u8, first: usize, second: usize) -> Option<InputEvent>
    ensures { result ≡ asking kind first second }
{
    match kind {
        0 => Some(InputEvent::Ignore),
        1 => Some(InputEvent::UpdateUpperMark(first)),
        2 => Some(InputEvent::UpdateTermArea(first, second)),
        3 => Some(InputEvent::UpdateLeftMark(first)),
        8 => Some(InputEvent::ClearSelection),
        9 => Some(InputEvent::CopySelection),
        11 => Some(InputEvent::NextMatch),
        12 => Some(InputEvent::PrevMatch),
        13 => Some(InputEvent::MoveToNextMatch(first)),
        14 => Some(InputEvent::MoveToPrevMatch(first)),
        16 => Some(InputEvent::RestorePrompt),
        17 => Some(InputEvent::ShowHelp),
        19 => Some(InputEvent::Exit),
        _ => None,
    }
}

/// What these numbers stand for, if they stand for something.
pub fn input_event_of(kind: u8, first: usize, second: usize) -> Option<InputEvent>
    ensures { result ≡ input_event_of kind first second }
{
    match kind {
        6 | 7 => selecting(kind, first, second),
        4 | 5 | 10 | 15 | 18 => setting(kind, first),
        _ => asking(kind, first, second),
    }
}

// The numbers of what an event asks for.
fn numbers_of(event: InputEvent) -> (u8, usize, usize)
    ensures { result ≡ (kind_number event, first_of event, second_of event) }
{
    match event {
        InputEvent::Ignore => (0, 0, 0),
        InputEvent::UpdateUpperMark(row) => (1, row, 0),
        InputEvent::UpdateTermArea(cols, rows) => (2, cols, rows),
        InputEvent::UpdateLeftMark(column) => (3, column, 0),
        InputEvent::UpdateLineNumber(numbers) => (4, number_of_numbers(numbers) as usize, 0),
        InputEvent::HorizontalScroll(wrapping) => (5, wrapping as usize, 0),
        InputEvent::StartSelection { x, y } => (6, x as usize, y as usize),
        InputEvent::UpdateSelection { x, y } => (7, x as usize, y as usize),
        InputEvent::ClearSelection => (8, 0, 0),
        InputEvent::CopySelection => (9, 0, 0),
        InputEvent::Search(mode) => (10, number_of_mode(mode) as usize, 0),
        InputEvent::NextMatch => (11, 0, 0),
        InputEvent::PrevMatch => (12, 0, 0),
        InputEvent::MoveToNextMatch(jump) => (13, jump, 0),
        InputEvent::MoveToPrevMatch(jump) => (14, jump, 0),
        InputEvent::FollowOutput(follow) => (15, follow as usize, 0),
        InputEvent::RestorePrompt => (16, 0, 0),
        InputEvent::ShowHelp => (17, 0, 0),
        InputEvent::Number(character) => (18, u32::from(character) as usize, 0),
        InputEvent::Exit => (19, 0, 0),
    }
}

impl AskedNumbers {
    ghost use Rattle.minus_c.specs.InputEvents.{asked_nothing, asked_numbers};

    /// It was not asked about.
    pub fn refusing(refusal: u8) -> AskedNumbers
        ensures { result ≡ asked_nothing refusal }
    {
        AskedNumbers {
            refusal,
            is_there: false,
            kind: 0,
            first: 0,
            second: 0,
        }
    }

    /// It asks for this, if for anything.
    pub fn of(event: Option<InputEvent>) -> AskedNumbers
        ensures { result ≡ asked_numbers event }
    {
        match event {
            Some(event) => {
                let (kind, first, second) = numbers_of(event);
                AskedNumbers {
                    refusal: 0,
                    is_there: true,
                    kind,
                    first,
                    second,
                }
            }
            None => AskedNumbers::refusing(0),
        }
    }
}
