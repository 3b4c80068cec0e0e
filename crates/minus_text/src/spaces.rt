//! Spaces.
ghost use Rattle.std.specs.Prelude.{◌≡◌, ◌++◌, replicate, OnOk};

use crate::push_text::PushText;
use std::alloc::AllocError;

// Spaces for a row of the most usual width.
const SPACES: &str =
    "                                                                                ";

// Adds this many spaces. An `Err` only means out of memory; it may leave some of them behind.
pub(crate) fn push_spaces<T: PushText>(out: &mut T, count: usize) -> Result<(), AllocError>
    ensures { OnOk result (T.bytes out.new ≡ T.bytes out.old ++ replicate count 32) }
{
    let mut left = count;
    while left > 0 {
        let piece = left.min(SPACES.len());
        out.push_text(&SPACES[..piece])?;
        left -= piece;
    }
    Ok(())
}
