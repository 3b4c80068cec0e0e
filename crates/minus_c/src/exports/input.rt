//! What happens at the terminal, and what a caller asks for in its place.
ghost use Rattle.std.specs.Prelude.{◌≡◌, true, None};
ghost use Rattle.minus_c.specs.Keys.{key_of};
ghost use Rattle.minus_c.specs.Mouse.{mouse_of};
ghost use Rattle.minus_c.specs.InputEvents.{input_event_of};
ghost use Rattle.minus_c.specs.EnumNumbers.{io_of};
ghost use Rattle.minus_c.specs.Reading.{read_first};

use crate::enum_numbers::io_of;
use crate::found::Found;
use crate::input_events::input_event_of;
use crate::kept::{Handed, Kept, hand_back, opened};
use crate::keys::KeyNumbers;
use crate::mouse::MouseNumbers;
use crate::reading::{ReadNumbers, read_first};
use crate::told::{BAD_ARGUMENT, Told};
use minus::{CommandOf, Event, InputOf};

/// What a terminal's bytes begin with; `late` says that nothing has followed them for a while.
#[unsafe(no_mangle)]
pub extern "C" fn minus_read(bytes: &[u8], late: bool) -> ReadNumbers
    ensures { result ≡ read_first bytes.now late }
{
    read_first(bytes, late)
}

/// Hands in a key.
#[unsafe(no_mangle)]
pub extern "C" fn minus_key(kept: Kept, key: KeyNumbers, out: &mut Handed) -> Told
    ensures given { out.new.given ≡ true }
    ensures bad { key_of key ≡ None → result.refusal ≡ 255 }
{
    let mut held = opened(kept);
    let answer = match key.key() {
        Some(key) => held.step(InputOf::Event(Event::Key(key))),
        None => held.refuse(BAD_ARGUMENT),
    };
    hand_back(held, out, answer)
}

/// The query that a key would leave in the search prompt, where there is room for it.
#[unsafe(no_mangle)]
pub extern "C" fn minus_query_after(
    kept: Kept,
    key: KeyNumbers,
    room: &mut [u8],
    out: &mut Handed,
) -> Found
    ensures given { out.new.given ≡ true }
    ensures bad { key_of key ≡ None → result.refusal ≡ 255 }
{
    let held = opened(kept);
    let answer = match key.key() {
        Some(key) => held.query_after(key, room),
        None => Found::refusing(BAD_ARGUMENT),
    };
    hand_back(held, out, answer)
}

/// Hands in what is done with the mouse.
#[unsafe(no_mangle)]
pub extern "C" fn minus_mouse(kept: Kept, mouse: MouseNumbers, out: &mut Handed) -> Told
    ensures given { out.new.given ≡ true }
    ensures bad { mouse_of mouse ≡ None → result.refusal ≡ 255 }
{
    let mut held = opened(kept);
    let answer = match mouse.event() {
        Some(mouse) => held.step(InputOf::Event(Event::Mouse(mouse))),
        None => held.refuse(BAD_ARGUMENT),
    };
    hand_back(held, out, answer)
}

/// Tells the columns and rows that the terminal has now.
#[unsafe(no_mangle)]
pub extern "C" fn minus_resize(kept: Kept, cols: u16, rows: u16, out: &mut Handed) -> Told
    ensures given { out.new.given ≡ true }
{
    let mut held = opened(kept);
    let answer = held.step(InputOf::Event(Event::Resize(cols, rows)));
    hand_back(held, out, answer)
}

/// Does what an event would ask for.
#[unsafe(no_mangle)]
pub extern "C" fn minus_user_input(
    kept: Kept,
    kind: u8,
    first: usize,
    second: usize,
    out: &mut Handed,
) -> Told
    ensures given { out.new.given ≡ true }
    ensures bad { input_event_of kind first second ≡ None → result.refusal ≡ 255 }
{
    let mut held = opened(kept);
    let answer = match input_event_of(kind, first, second) {
        Some(event) => held.step(InputOf::Command(CommandOf::UserInput(event))),
        None => held.refuse(BAD_ARGUMENT),
    };
    hand_back(held, out, answer)
}

/// Draws.
#[unsafe(no_mangle)]
pub extern "C" fn minus_io(kept: Kept, kind: u8, argument: usize, out: &mut Handed) -> Told
    ensures given { out.new.given ≡ true }
    ensures bad { io_of kind argument ≡ None → result.refusal ≡ 255 }
{
    let mut held = opened(kept);
    let answer = match io_of(kind, argument) {
        Some(command) => held.step(InputOf::Command(CommandOf::Io(command))),
        None => held.refuse(BAD_ARGUMENT),
    };
    hand_back(held, out, answer)
}
