//! Where a pager stands.
ghost use Rattle.std.specs.Prelude.{◌≡◌, true};

use crate::found::Found;
use crate::kept::{Handed, Kept, hand_back, opened};
use crate::state::State;

/// Where the pager stands.
#[unsafe(no_mangle)]
pub extern "C" fn minus_state(kept: Kept, out: &mut Handed) -> State
    ensures given { out.new.given ≡ true }
{
    let held = opened(kept);
    let answer = held.state();
    hand_back(held, out, answer)
}

/// A text of the pager, where there is room for it.
#[unsafe(no_mangle)]
pub extern "C" fn minus_text(kept: Kept, piece: u8, room: &mut [u8], out: &mut Handed) -> Found
    ensures given { out.new.given ≡ true }
{
    let held = opened(kept);
    let answer = held.text(piece, room);
    hand_back(held, out, answer)
}

/// A row of the displayed text, where there is room for it.
#[unsafe(no_mangle)]
pub extern "C" fn minus_row(kept: Kept, row: usize, room: &mut [u8], out: &mut Handed) -> Found
    ensures given { out.new.given ≡ true }
{
    let held = opened(kept);
    let answer = held.row(row, room);
    hand_back(held, out, answer)
}

/// The first row of a line of the displayed text.
#[unsafe(no_mangle)]
pub extern "C" fn minus_line_first_row(kept: Kept, line: usize, out: &mut Handed) -> Found
    ensures given { out.new.given ≡ true }
{
    let held = opened(kept);
    let answer = held.line_first_row(line);
    hand_back(held, out, answer)
}
