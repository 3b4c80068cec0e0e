//! All events that some bytes make, and how many of the bytes they are.
ghost use Rattle.std.specs.Prelude.{◌≡◌, ◌+◌, ◌++◌, ◌∷◌, [], ◌≤◌, drop, take, length, IfOk, IfErr, None};
ghost use Rattle.minus_view.specs.KeySequences.{unit_len};
ghost use Rattle.minus_view.specs.Events.{AddsEvents, events_of, first_unit, late_events};
ghost use Rattle.minus_view.specs.Events.{PiecesJoin, UnitsAreDetermined};

use crate::key_sequences::unit_len;
use crate::keys::press;
use crate::meaning::meaning;
use minus_term::{Event, KeyCode};
use std::alloc::AllocError;

// Adds the event of a unit, if it has one.
fn push_event(events: &mut Vec<Event>, unit: &[u8]) -> Result<(), AllocError>
    ensures added { IfOk result (λ _. events.new.items ≡ events.old.items ++ events_of (unit.now ∷ [])) }
    ensures kept { IfErr result (λ _. events.new.items ≡ events.old.items) }
{
    if let Some(event) = meaning(unit) {
        events.push(event)?;
    }
    Ok(())
}

// Adds the events of the whole units at the front; where there is no memory, of some of them.
fn push_events(events: &mut Vec<Event>, bytes: &[u8]) -> Result<usize, AllocError>
    ensures within { IfOk result (λ taken. taken ≤ length bytes.now) }
    ensures read { IfOk result (λ taken.
        AddsEvents events.old.items events.new.items bytes.now (drop taken bytes.now)) }
    ensures cut { IfOk result (λ taken. unit_len (drop taken bytes.now) ≡ None) }
    ensures short { IfOk result (λ taken. length bytes.now ≤ taken + 65) }
    ensures front { IfErr result (λ _. take (length events.old.items) events.new.items ≡ events.old.items) }
{
    let mut taken = 0;
    while let Some(len) = unit_len(&bytes[taken..]) {
        push_event(events, &bytes[taken..taken + len])?;
        taken += len;
    }
    Ok(taken)
}

/// Adds the events of the whole units at the front of the bytes, and answers how many bytes these units are. The rest
/// is the beginning of a unit, at most 65 bytes: the caller keeps it, and puts what it reads next behind it.
///
/// # Errors
///
/// [`AllocError`] where there is no memory: nothing is added then.
pub fn read_events(events: &mut Vec<Event>, bytes: &[u8]) -> Result<usize, AllocError>
    ensures within { IfOk result (λ taken. taken ≤ length bytes.now) }
    ensures read { IfOk result (λ taken.
        AddsEvents events.old.items events.new.items bytes.now (drop taken bytes.now)) }
    ensures cut { IfOk result (λ taken. unit_len (drop taken bytes.now) ≡ None) }
    ensures short { IfOk result (λ taken. length bytes.now ≤ taken + 65) }
    ensures kept { IfErr result (λ _. events.new.items ≡ events.old.items) }
{
    let count = events.len();
    let taken = push_events(events, bytes);
    if taken.is_err() {
        events.truncate(count);
    }
    taken
}

/// The first unit of the bytes: how many bytes it is, and its event, if it has one. Nothing where the bytes end before
/// it does. It takes no memory.
pub fn read_unit(bytes: &[u8]) -> Option<(usize, Option<Event>)>
    ensures { result ≡ first_unit bytes.now }
{
    match unit_len(bytes) {
        Some(len) => Some((len, meaning(&bytes[..len]))),
        None => None,
    }
}

/// Adds the event of a rest that nothing has followed for a while, and answers how many bytes it takes of the rest:
/// one `ESC` is the Esc key then. Any other rest goes on waiting.
///
/// # Errors
///
/// [`AllocError`] where there is no memory: nothing is added then.
pub fn read_late_events(events: &mut Vec<Event>, rest: &[u8]) -> Result<usize, AllocError>
    ensures taken { IfOk result (λ taken. taken ≡ length (late_events rest.now)) }
    ensures read { IfOk result (λ _. events.new.items ≡ events.old.items ++ late_events rest.now) }
    ensures kept { IfErr result (λ _. events.new.items ≡ events.old.items) }
{
    match rest {
        [0x1B] => {
            events.push(press(KeyCode::Esc, 0))?;
            Ok(1)
        }
        _ => Ok(0),
    }
}

/// A law: the units of bytes that come in pieces are those of the whole, wherever these are cut.
pub fn pieces_join()
    ensures { PiecesJoin }
{}

/// A law: bytes have one list of units, so `read_events` can add no other events.
pub fn units_are_determined()
    ensures { UnitsAreDetermined }
{}
