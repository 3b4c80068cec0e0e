//! Where queries lead, before they are taken and after, and the prompt that they are typed at. Where memory runs out,
//! each answer is `false`.
use crate::asked::set_term;
use crate::facts::assert_holds;
use crate::state::terms::{TEN_LINES, has_matches, has_page, state_of};
use minus_state::{
    Change, InputStatus, OpenPrompt, PagerState, SearchMode, SearchOpts, search_opts,
};
use minus_text::LineNumbers;
use regex::Regex;
use std::alloc::Global;

// What taking a query leads to.
fn taken(alloc: Global, state: &PagerState, query: &str) -> Option<Change> {
    match Regex::new(alloc, query) {
        Ok(query) => state.confirmed(alloc, query).ok(),
        Err(_) => None,
    }
}

// Whether a query that was taken for another text, whose rows are longer and match further right, is found in this one.
fn is_found_anew(alloc: Global) -> bool {
    let (Some(other), Some(mut state)) = (
        state_of(alloc, "no\nno\naaaaaaaaaa x\nbbbbbbbb x"),
        state_of(alloc, "x\nyx\nno"),
    ) else {
        return false;
    };
    let Some(change) = taken(alloc, &other, "x") else {
        return false;
    };
    let is_placed = state.place(alloc, change).is_ok();
    state.upper_mark = 0;
    is_placed
        && state.screen.orig_text() == "x\nyx\nno"
        && state.term().is_some()
        && has_matches(&state, &[0, 1])
        && has_page(
            alloc,
            &state,
            &["\x1b[7mx\x1b[27m", "y\x1b[7mx\x1b[27m", "no"],
        )
}

// What adding a text leads to.
fn added(alloc: Global, state: &PagerState, text: &str) -> Option<Change> {
    match String::from_str(alloc, text) {
        Ok(text) => state.added(alloc, text).ok(),
        Err(_) => None,
    }
}

// Whether a text that was added for another one, which it goes on in, goes on in this one.
fn is_added_anew(alloc: Global) -> bool {
    let (Some(other), Some(mut state)) = (
        state_of(alloc, "x\nno\naaaaaaaaaa"),
        state_of(alloc, "no\ny"),
    ) else {
        return false;
    };
    let Some(change) = added(alloc, &other, "x\nx") else {
        return false;
    };
    set_term(alloc, &mut state, "x")
        && state.place(alloc, change).is_ok()
        && state.screen.orig_text() == "no\nyx\nx"
        && has_matches(&state, &[1, 2])
        && has_page(
            alloc,
            &state,
            &["no", "y\x1b[7mx\x1b[27m", "\x1b[7mx\x1b[27m"],
        )
}

#[test]
fn what_was_formed_for_another_text_is_searched_anew(rt: HostRuntime) {
    assert_holds(&rt, is_found_anew(rt.alloc()));
    assert_holds(&rt, is_added_anew(rt.alloc()));
}

// A state of ten lines at its fourth one, under a direction.
fn begun(alloc: Global, search_mode: SearchMode) -> Option<PagerState> {
    let Some(mut state) = state_of(alloc, TEN_LINES) else {
        return None;
    };
    state.search_state.search_mode = search_mode;
    state.upper_mark = 3;
    Some(state)
}

// Whether an empty query is seen, in a direction, behind this character.
fn are_first(opts: &SearchOpts<'_>, search_mode: SearchMode, search_char: char) -> bool {
    let is_empty = opts.ev.is_none() && opts.string.is_empty() && opts.word_index.is_empty();
    is_empty
        && opts.input_status == InputStatus::Active
        && opts.cursor_position == 1
        && opts.search_mode == search_mode
        && opts.search_char == search_char
        && opts.rows == 4
        && opts.cols == 20
}

// Whether the text, the mark and the layout are seen of that state.
fn is_begun(opts: &SearchOpts<'_>) -> bool {
    match &opts.incremental_search_options {
        Some(seen) => {
            seen.initial_upper_mark == 3
                && seen.initial_left_mark == 0
                && seen.line_numbers == LineNumbers::Disabled
                && seen.screen.orig_text() == TEN_LINES
                && seen.lines_to_row_map.get(9) == Some(9)
        }
        None => false,
    }
}

// Whether that is seen at first under a direction.
fn sees_first(alloc: Global, search_mode: SearchMode, search_char: char) -> bool {
    let Some(state) = begun(alloc, search_mode) else {
        return false;
    };
    match search_opts(alloc, &state) {
        Some(opts) => are_first(&opts, search_mode, search_char) && is_begun(&opts),
        None => false,
    }
}

// Whether there is no prompt, and nothing is seen, where no search has begun.
fn is_refused(alloc: Global) -> bool {
    let Some(state) = begun(alloc, SearchMode::Unknown) else {
        return false;
    };
    match OpenPrompt::new(alloc, &state) {
        Ok(_) => false,
        Err(refusal) => refusal.number() == 9 && search_opts(alloc, &state).is_none(),
    }
}

#[test]
fn a_search_that_begins_sees_an_empty_query(rt: HostRuntime) {
    assert_holds(&rt, sees_first(rt.alloc(), SearchMode::Forward, '/'));
    assert_holds(&rt, sees_first(rt.alloc(), SearchMode::Reverse, '?'));
    assert_holds(&rt, is_refused(rt.alloc()));
}
