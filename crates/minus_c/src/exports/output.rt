//! What a pager wrote, and what it noted.
ghost use Rattle.std.specs.Prelude.{◌≡◌, true};

use crate::found::Found;
use crate::kept::{Handed, Kept, hand_back, opened};

/// Takes the bytes that wait, where there is room for all of them, and answers how many they are.
#[unsafe(no_mangle)]
pub extern "C" fn minus_take(kept: Kept, room: &mut [u8], out: &mut Handed) -> usize
    ensures given { out.new.given ≡ true }
{
    let mut held = opened(kept);
    let answer = held.take(room);
    hand_back(held, out, answer)
}

/// Takes the text that was copied in the last step, where there is room for it.
#[unsafe(no_mangle)]
pub extern "C" fn minus_take_copied(kept: Kept, room: &mut [u8], out: &mut Handed) -> Found
    ensures given { out.new.given ≡ true }
{
    let mut held = opened(kept);
    let answer = held.take_copied(room);
    hand_back(held, out, answer)
}

/// Takes the numbers of the inputs that were refused in the last step, where there is room for them.
#[unsafe(no_mangle)]
pub extern "C" fn minus_take_refused(kept: Kept, room: &mut [u8], out: &mut Handed) -> usize
    ensures given { out.new.given ≡ true }
{
    let mut held = opened(kept);
    let answer = held.take_refused(room);
    hand_back(held, out, answer)
}

/// Takes the bits of the hooks that were due.
#[unsafe(no_mangle)]
pub extern "C" fn minus_take_hooks(kept: Kept, out: &mut Handed) -> u8
    ensures given { out.new.given ≡ true }
{
    let mut held = opened(kept);
    let answer = held.take_hooks();
    hand_back(held, out, answer)
}
