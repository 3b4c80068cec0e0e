//! A pager as a pointer that a caller in another language holds.
ghost use Rattle.std.specs.Prelude.{◌≡◌, true};
ghost use base.Fml.{fex};
ghost use Rattle.std.specs.Box.Ownership.{box_owns};
ghost use Rattle.std.specs.contracts.impls.GlobalAllocator.TheImpl.{ghosts};
ghost use Rattle.minus_c.specs.contracts.held.Held.{the_row};

use crate::held::Held;
use std::alloc::Global;
use std::marker::Model;

/// A pager as it is handed out.
#[repr(C)]
#[derive(Drop)]
pub struct Handed {
    /// Where it stands.
    pub at: *mut u8,
    /// Whether one was handed out.
    pub given: bool,
}

/// A pager as it is handed in: one in a box stands there.
#[repr(C)]
#[derive(Drop)]
pub struct Kept {
    at: *mut u8,
    alloc: Global,
}

impl Model for Kept {
    ghost also_owns = { λ k. fex the_row.Denot (λ x. box_owns (ghosts.dealloc_token k.alloc) the_row k.at x) };
}

/// Hands a pager out.
pub fn hand_out(held: Box<Held>, out: &mut Handed)
    ensures { out.new.given ≡ true }
{
    out.at = Box::into_raw(held) as *mut u8;
    out.given = true;
}

/// Hands a pager back, with what a call answers.
pub fn hand_back<T>(held: Box<Held>, out: &mut Handed, answer: T) -> T
    ensures given { out.new.given ≡ true }
    ensures tells { result ≡ answer }
{
    hand_out(held, out);
    answer
}

/// Takes the pager that is handed in.
pub fn opened(kept: Kept) -> Box<Held> {
    let Kept { at, alloc } = kept;
    unsafe { Box::from_raw(alloc, at as *mut Held) }
}
