//! The life of a pager.
ghost use Rattle.std.specs.Prelude.{◌≡◌, ◌==◌, true, None};
ghost use Rattle.minus_c.specs.EnumNumbers.{mode_of};

use crate::enum_numbers::mode_of;
use crate::held::Held;
use crate::kept::{Handed, Kept, hand_back, hand_out, opened};
use crate::told::{BAD_ARGUMENT, Told};
use minus::MinusError;
use std::alloc::Global;

// A pager in a box.
fn boxed(alloc: Global) -> Result<Box<Held>, MinusError> {
    let held = Held::new(alloc)?;
    let held = Box::new(alloc, held)?;
    Ok(held)
}

/// Makes a pager that waits.
#[unsafe(no_mangle)]
pub extern "C" fn minus_new(alloc: Global, out: &mut Handed) -> u8
    ensures given { out.new.given ≡ (result == 0) }
{
    match boxed(alloc) {
        Ok(held) => {
            hand_out(held, out);
            0
        }
        Err(_) => {
            out.given = false;
            1
        }
    }
}

/// Ends a pager.
#[unsafe(no_mangle)]
pub extern "C" fn minus_drop(kept: Kept) {
    let _ = opened(kept);
}

/// Starts the session, for a terminal of this many columns and rows.
#[unsafe(no_mangle)]
pub extern "C" fn minus_start(
    kept: Kept,
    mode: u8,
    cols: usize,
    rows: usize,
    out: &mut Handed,
) -> Told
    ensures given { out.new.given ≡ true }
    ensures bad { mode_of mode ≡ None → result.refusal ≡ 255 }
{
    let mut held = opened(kept);
    let answer = match mode_of(mode) {
        Some(mode) => held.start(mode, cols, rows),
        None => held.refuse(BAD_ARGUMENT),
    };
    hand_back(held, out, answer)
}

/// Writes a text that fits the terminal, or goes to none, and pages one that does not fit.
#[unsafe(no_mangle)]
pub extern "C" fn minus_page_all(
    kept: Kept,
    cols: usize,
    rows: usize,
    is_tty: bool,
    out: &mut Handed,
) -> Told
    ensures given { out.new.given ≡ true }
{
    let mut held = opened(kept);
    let answer = held.page_all(cols, rows, is_tty);
    hand_back(held, out, answer)
}

/// Ends the session.
#[unsafe(no_mangle)]
pub extern "C" fn minus_finish(kept: Kept, out: &mut Handed) -> Told
    ensures given { out.new.given ≡ true }
{
    let mut held = opened(kept);
    let answer = held.finish();
    hand_back(held, out, answer)
}
