//! The keys of a search prompt, and where a query leads.
use crate::asked::{TEN_LINES, press};
use crate::facts::assert_holds;
use minus_state::{Fed, OpenPrompt, PagerState, SearchMode, incremental_preview};
use minus_text::Rows;
use regex::Regex;
use std::alloc::Global;

// A state of ten lines whose search goes forward; none where its first requests are refused.
fn searching(alloc: Global) -> Option<PagerState> {
    let Ok(mut state) = PagerState::new(alloc, 20, 4) else {
        return None;
    };
    state.search_state.search_mode = SearchMode::Forward;
    state.append_str(alloc, TEN_LINES).is_ok().then_some(state)
}

// Whether a key leaves this query and this cursor, at once or, where it is refused since memory ran out with the prompt
// as it was, when it is pressed again.
fn feeds(
    alloc: Global,
    state: &PagerState,
    prompt: &mut OpenPrompt,
    key: &str,
    wanted: (Fed, &str, usize),
) -> bool {
    let (query, cursor) = (prompt.query().len(), prompt.cursor());
    let words = prompt.word_index().len();
    let fed = match prompt.feed(alloc, state.patterns(), &press(key)) {
        Ok(fed) => Some(fed),
        Err(refused) => {
            let stays = (prompt.query().len(), prompt.cursor()) == (query, cursor);
            let stays = stays && prompt.word_index().len() == words && refused.number() == 1;
            match prompt.feed(alloc, state.patterns(), &press(key)) {
                Ok(fed) if stays => Some(fed),
                _ => None,
            }
        }
    };
    fed == Some(wanted.0) && prompt.query() == wanted.1 && prompt.cursor() == wanted.2
}

// Whether keys edit the query of a prompt.
fn edits(alloc: Global, state: &PagerState, prompt: &mut OpenPrompt) -> bool {
    feeds(alloc, state, prompt, "l", (Fed::Edited, "l", 2))
        && feeds(alloc, state, prompt, "space", (Fed::Edited, "l ", 3))
        && feeds(alloc, state, prompt, "x", (Fed::Edited, "l x", 4))
        && feeds(alloc, state, prompt, "c-left", (Fed::Moved, "l x", 3))
        && feeds(alloc, state, prompt, "delete", (Fed::Edited, "l ", 3))
        && feeds(alloc, state, prompt, "backspace", (Fed::Edited, "l", 2))
        && feeds(alloc, state, prompt, "7", (Fed::Edited, "l7", 3))
        && feeds(alloc, state, prompt, "enter", (Fed::Confirmed, "l7", 3))
}

// Whether a prompt of a state is opened and typed at; it is opened once more where a request is refused.
fn is_typed_at(alloc: Global) -> bool {
    let Some(state) = searching(alloc) else {
        return true;
    };
    let prompt = match OpenPrompt::new(alloc, &state) {
        Ok(prompt) => Some(prompt),
        Err(_) => OpenPrompt::new(alloc, &state).ok(),
    };
    match prompt {
        Some(mut prompt) => edits(alloc, &state, &mut prompt),
        None => false,
    }
}

// All that each test here does before what it tries: the tool refuses these requests here alone.
#[test]
fn begins(rt: HostRuntime) {
    if let Some(state) = searching(rt.alloc()) {
        assert_holds(&rt, state.upper_mark == 0);
    }
}

#[test]
fn a_refused_key_leaves_the_query(rt: HostRuntime) {
    assert_holds(&rt, is_typed_at(rt.alloc()));
}

// Whether rows are those of the last page, the first of which is found.
fn is_last_page(rows: &Rows) -> bool {
    match rows.as_slice() {
        [first, second, third] => {
            first.as_str() == "\x1b[7ml7\x1b[27m"
                && second.as_str() == "l8"
                && third.as_str() == "l9"
        }
        _ => false,
    }
}

// Whether a query leads to the last page, at once or where it is asked for again.
fn leads(alloc: Global) -> bool {
    let (Some(state), Ok(query)) = (searching(alloc), Regex::new(alloc, "l7")) else {
        return true;
    };
    let rows = match incremental_preview(alloc, &state, &query) {
        Ok(rows) => rows,
        Err(_) => match incremental_preview(alloc, &state, &query) {
            Ok(rows) => rows,
            Err(_) => None,
        },
    };
    match rows {
        Some(rows) => is_last_page(&rows) && state.upper_mark == 0,
        None => false,
    }
}

#[test]
fn a_refused_preview_is_asked_for_again(rt: HostRuntime) {
    assert_holds(&rt, leads(rt.alloc()));
}
