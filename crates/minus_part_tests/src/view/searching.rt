//! The queries that come back at a search prompt, the keys that a program keeps there, and a text that waits.
use crate::facts::{assert_at, assert_holds};
use minus_term::KeyCode;
use minus_view::{History, SearchKey, TextQueue, press, search_key};
use std::alloc::Global;

// Whether steps lead to this query, `<` back and `>` on, after some were taken and a text was typed.
fn steps_lead_to(alloc: Global, steps: &str, wanted: &str) -> bool {
    let mut history = History::new(alloc);
    for query in ["a", "b", "b", "", "c"] {
        if history.take(query).is_err() {
            return false;
        }
    }
    history.begin();
    for step in steps.chars() {
        if step == '>' {
            let _ = history.go_on();
        } else if history.go_back("typed").is_err() {
            return false;
        }
    }
    history.shown() == wanted
}

#[test]
fn queries_come_back(rt: HostRuntime) {
    let cases: [(&str, &str); 7] = [
        ("<", "c"),
        ("<<", "b"),
        ("<<<<<", "a"),
        ("<<<>", "b"),
        ("<>", "typed"),
        ("<>>", "typed"),
        ("<>><", "c"),
    ];
    for (steps, wanted) in &cases {
        assert_at(&rt, steps, steps_lead_to(rt.alloc(), steps, wanted));
    }
}

// This many letters stand before the number of a query.
const LETTERS: &str = concat!(
    "xxxxxxxxxxxxxxxxxxxxxxxxxxxxxxxxxxxxxxxxxxxxxxxxxx",
    "xxxxxxxxxxxxxxxxxxxxxxxxxxxxxxxxxxxxxxxxxxxxxxxxxx"
);

// Whether a hundred queries of more than a hundred characters each are kept, and come back from the last to the first.
fn keeps_a_hundred(alloc: Global) -> bool {
    let mut history = History::new(alloc);
    for number in 0..100 {
        let Ok(query) = format!(in alloc; "{LETTERS}{number}") else {
            return false;
        };
        if history.take(&query).is_err() {
            return false;
        }
    }
    history.begin();
    let mut steps = 0_usize;
    for _ in 0..101 {
        match history.go_back("typed") {
            Ok(true) => steps = steps.saturating_add(1),
            Ok(false) => {}
            Err(_) => return false,
        }
    }
    steps == 100 && history.shown().strip_prefix(LETTERS) == Some("0")
}

#[test]
fn a_hundred_queries_are_kept(rt: HostRuntime) {
    assert_holds(&rt, keeps_a_hundred(rt.alloc()));
}

#[test]
fn a_program_keeps_some_keys_at_a_prompt(rt: HostRuntime) {
    let cases: [(KeyCode, u8, bool, SearchKey); 10] = [
        (KeyCode::Char('q'), 0, false, SearchKey::Types),
        (KeyCode::Char('c'), 2, false, SearchKey::Leaves),
        (KeyCode::Char('z'), 2, false, SearchKey::Suspends),
        (KeyCode::Esc, 0, false, SearchKey::Leaves),
        (KeyCode::Up, 0, false, SearchKey::Older),
        (KeyCode::Down, 0, true, SearchKey::Newer),
        (KeyCode::Enter, 0, false, SearchKey::Takes),
        (KeyCode::Enter, 0, true, SearchKey::Repeats),
        (KeyCode::Backspace, 0, false, SearchKey::Types),
        (KeyCode::Backspace, 0, true, SearchKey::Leaves),
    ];
    for (code, bits, is_empty, wanted) in &cases {
        let key = search_key(&press(*code, *bits), *is_empty);
        assert_holds(&rt, key == *wanted);
    }
}

// The lengths of the first four pieces of a text that was put in this many times.
fn pieces_of(alloc: Global, text: &str, times: usize) -> Option<String> {
    let mut queue = TextQueue::new(alloc);
    for _ in 0..times {
        queue.put(text).ok()?;
    }
    let mut lengths = String::new(alloc);
    for _ in 0..4 {
        if let Some(piece) = queue.take() {
            let len = piece.len();
            write!(lengths, "{len} ").ok()?;
        }
    }
    Some(lengths)
}

#[test]
fn a_text_waits_in_pieces(rt: HostRuntime) {
    let cases: [(usize, &str); 4] = [
        (0, ""),
        (3, "12 "),
        (16_384, "65536 "),
        (40_000, "65536 65536 28928 "),
    ];
    for (times, wanted) in &cases {
        let pieces = pieces_of(rt.alloc(), "text", *times);
        assert_at(
            &rt,
            wanted,
            pieces.is_some_and(|lengths| lengths.as_str() == *wanted),
        );
    }
}
