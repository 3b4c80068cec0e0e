//! Laws of registers: what is bound to each key after one was bound, or removed.
ghost use Rattle.minus_input.specs.EventForm.{same_event};
ghost use Rattle.minus_input.specs.Lookups.{BoundKeysAreFound, RemovedKeysAreGone};

/// A law: a key of a register that was bound has what it was bound to, and every other key what it had.
pub fn bound_keys_are_found<B>()
    ensures { BoundKeysAreFound same_event B }
{}

/// A law: nothing is bound to a key of a register that was removed, and every other key has what it had.
pub fn removed_keys_are_gone<B>()
    ensures { RemovedKeysAreGone same_event B }
{}
