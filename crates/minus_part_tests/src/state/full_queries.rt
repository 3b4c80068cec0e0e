//! Queries of as many characters as one may have. Where memory runs out, each answer is `false`.
use super::queries::press_often;
use crate::asked::press;
use crate::facts::assert_holds;
use minus_state::{PagerState, QueryEditor};
use minus_text::Patterns;
use regex::Regex;
use std::alloc::Global;

// A text of this many letters.
fn letters(alloc: Global, count: usize) -> Option<String> {
    let mut text = String::new(alloc);
    for _ in 0..count {
        if text.push('x').is_err() {
            return None;
        }
    }
    Some(text)
}

// Whether there is no editor of a query of this many letters, for this number.
fn is_refused(alloc: Global, count: usize, number: u8) -> bool {
    let (Ok(patterns), Some(text)) = (Patterns::new(alloc), letters(alloc, count)) else {
        return false;
    };
    match QueryEditor::of_query(alloc, &patterns, text) {
        Ok(_) => false,
        Err(cause) => cause.number() == number,
    }
}

// Whether a key is refused by this number, and leaves the cursor where it is.
fn refuses(
    alloc: Global,
    patterns: &Patterns,
    editor: &mut QueryEditor,
    text: &str,
    number: u8,
) -> bool {
    let cursor = editor.cursor();
    match editor.feed(alloc, patterns, &press(text)) {
        Ok(_) => false,
        Err(cause) => cause.number() == number && editor.cursor() == cursor,
    }
}

// Whether a query of 65,534 letters is full, so that a character is refused until another one was removed.
fn is_full(alloc: Global) -> bool {
    let (Ok(patterns), Some(text)) = (Patterns::new(alloc), letters(alloc, 65_534)) else {
        return false;
    };
    let Ok(mut editor) = QueryEditor::of_query(alloc, &patterns, text) else {
        return false;
    };
    editor.cursor() == 65_535
        && refuses(alloc, &patterns, &mut editor, "y", 8)
        && press_often(alloc, &patterns, &mut editor, "home", 1)
        && refuses(alloc, &patterns, &mut editor, "s-y", 8)
        && press_often(alloc, &patterns, &mut editor, "delete", 1)
        && press_often(alloc, &patterns, &mut editor, "y", 1)
        && refuses(alloc, &patterns, &mut editor, "y", 8)
}

#[test]
fn a_full_query_is_refused(rt: HostRuntime) {
    assert_holds(&rt, is_full(rt.alloc()));
    assert_holds(&rt, is_refused(rt.alloc(), 65_535, 8));
}

// Whether a line of as many letters as a query may have is found by such a query.
fn finds_the_longest(alloc: Global) -> bool {
    let (Some(letters), Ok(mut state)) = (letters(alloc, 65_533), PagerState::new(alloc, 20, 4))
    else {
        return false;
    };
    // (another letter first, so that a match begins at one place alone)
    let Ok(line) = format!(in alloc; "y{letters}") else {
        return false;
    };
    let Ok(pattern) = Regex::new(alloc, &line) else {
        return false;
    };
    state.set_line_wrapping(alloc, false).is_ok()
        && state.append_str(alloc, "a\n").is_ok()
        && state.append_str(alloc, &line).is_ok()
        && state.set_term(alloc, Some(pattern)).is_ok()
        && state.screen.match_count() == 1
        && state.screen.match_row(0) == Some(1)
}

#[test]
fn the_longest_query_is_found(rt: HostRuntime) {
    assert_holds(&rt, finds_the_longest(rt.alloc()));
}
