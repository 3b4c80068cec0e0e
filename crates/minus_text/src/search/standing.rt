//! Whether what was found stands in the rows of a text.
ghost use Rattle.std.specs.Prelude.{◌≤◌, IsTrue, IfOk, IsCharBoundary, map};
ghost use Rattle.minus_text.specs.Document.{rows_of};
ghost use Rattle.minus_text.specs.Escapes.{CutsText};
ghost use Rattle.minus_text.specs.Found.{IsPlaced, IsPlacedIn, ArePlaced};
ghost use Rattle.minus_text.specs.FoundRows.{matches_of};

use crate::search::escapes::part;
use crate::search::found::FoundRow;
use crate::store::Store;
use std::alloc::{AllocError, Global};

// Whether a stretch of a text begins at a place or behind it, and both its ends lie between two characters.
fn cuts_at(text: &str, at: usize, start: usize, end: usize) -> bool
    ensures behind { IsTrue result → at ≤ start }
    ensures start { IsTrue result → IsCharBoundary text.now start }
    ensures order { IsTrue result → start ≤ end }
    ensures end { IsTrue result → IsCharBoundary text.now end }
{
    at <= start && start <= end && text.is_char_boundary(start) && text.is_char_boundary(end)
}

// Whether these places lie in order in a text, each between two characters.
fn cuts(text: &str, places: &[(usize, usize)]) -> bool
    ensures { IsTrue result → CutsText text.now 0 places.now }
{
    let mut at = 0;
    for place in places {
        if !cuts_at(text, at, place.0, place.1) {
            return false;
        }
        at = place.1;
    }
    true
}

// Whether what was found in a row stands in this one. It takes no memory where the row has no escape sequence.
fn stands(alloc: Global, row: &str, found: &FoundRow) -> Result<bool, AllocError>
    ensures { IfOk result (λ yes. IsTrue yes → IsPlaced row.now (matches_of found.now)) }
{
    let escapes = found.escapes.as_slice();
    let matches = found.matches.as_slice();
    if !cuts(row, escapes) {
        return Ok(false);
    }
    if escapes.is_empty() {
        return Ok(cuts(row, matches));
    }
    let parted = part(alloc, row, escapes)?;
    Ok(cuts(&parted.text, matches))
}

// Whether what was found in a row stands in the row of a text that has its number.
fn stands_in(alloc: Global, store: &Store, found: &FoundRow) -> Result<bool, AllocError>
    ensures { IfOk result (λ yes. IsTrue yes → IsPlacedIn 0 (rows_of store.now) (matches_of found.now)) }
{
    let Some(row) = store.row_text(found.row) else {
        return Ok(false);
    };
    stands(alloc, row, found)
}

// Whether all that was found stands in the rows of a text. Of these, only those in which something was found are read.
pub(crate) fn all_stand(
    alloc: Global,
    store: &Store,
    found: &[FoundRow],
) -> Result<bool, AllocError>
    ensures { IfOk result (λ yes. IsTrue yes → ArePlaced 0 (rows_of store.now) (map matches_of found.now)) }
{
    for row in found {
        if !stands_in(alloc, store, row)? {
            return Ok(false);
        }
    }
    Ok(true)
}
