//! The jumps among the matches that the program asks for itself.
ghost use Rattle.std.specs.Prelude.{◌≡◌};
ghost use Rattle.minus_state.specs.States.{control_of, IsFormed};
ghost use Rattle.minus_app.specs.Jumps.{jump_back, stands_before, IsFirstFrom, LeadsToMatch};

use minus::{InputEvent, PagerState};

// Whether the match at a place stands above a row.
fn stands_before(state: &PagerState, row: usize, place: usize) -> bool
    ensures { IsFormed state.now → result ≡ stands_before (control_of state.now) row place }
{
    match state.matches().row(place) {
        Some(stands) => stands < row,
        None => false,
    }
}

/// The place of the first match in a row or below it, or how many matches there are; both counted from 0.
pub fn first_match_from(state: &PagerState, row: usize) -> usize
    ensures { IsFormed state.now → IsFirstFrom (control_of state.now) row result }
{
    let (mut before, mut behind) = (0, state.matches().len());
    while before < behind {
        let middle = before + (behind - before) / 2;
        if stands_before(state, row, middle) {
            before = middle + 1;
        } else {
            behind = middle;
        }
    }
    before
}

/// The jump on from the page that leads to the match at this place, counted from 0.
pub fn jump_to(state: &PagerState, place: usize) -> usize
    ensures { IsFormed state.now → LeadsToMatch (control_of state.now) state.now.upper_mark place result }
{
    let matches = state.matches();
    let count = matches.len();
    let first = matches.nth_match(state.upper_mark, 1).unwrap_or(0);
    if place >= first {
        (place - first).saturating_add(1)
    } else {
        count.saturating_sub(first - place).saturating_add(1)
    }
}

/// What leads to the last match above the page that a query was typed at, from where that query led; where no match
/// stands above it, that stays. `mark` is the first row of that page.
pub fn jump_back(state: &PagerState, mark: usize) -> InputEvent
    ensures { IsFormed state.now → result ≡ jump_back (control_of state.now) mark }
{
    let matches = state.matches();
    match matches.row(state.search_mark()) {
        // (no match stands on that page or below it, so the query has led to the first one of all)
        Some(row) if row < mark => InputEvent::MoveToNextMatch(matches.len().saturating_sub(1)),
        Some(_) => InputEvent::MoveToPrevMatch(1),
        None => InputEvent::Ignore,
    }
}
