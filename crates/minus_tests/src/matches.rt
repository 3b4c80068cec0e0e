//! Jumps among the rows that match, asked for by keys and by commands. Where memory runs out, each answer is `false`.
use crate::facts::assert_at;
use crate::sessions::TEN_LINES;
use minus::{Change, InputClassifier, InputEvent, NextText, PagerState, SearchMode};
use minus_part_tests::asked::{At, press, set_term, state_of};
use minus_script::DefaultKeys;
use std::alloc::Global;

// A term, if there is one, the mark and the match that is reported, counted from 0; a typed prefix and a key, after a
// search forward; the mark that it leads to, and the match that is reported then. The last mark of the text is 7.
struct Jump<'a> {
    name: &'a str,
    term: Option<&'a str>,
    from: (usize, usize),
    pressed: (&'a str, &'a str),
    to: (usize, usize),
}

// The state that a jump begins in.
fn begun(alloc: Global, case: &Jump<'_>) -> Option<PagerState> {
    let at = At {
        prefix: case.pressed.0,
        mark: case.from.0,
    };
    let mut state = state_of(alloc, TEN_LINES, &at)?;
    let is_set = match case.term {
        Some(term) => set_term(alloc, &mut state, term),
        None => true,
    };
    state.set_search_mark(case.from.1);
    state.search_state.search_mode = SearchMode::Forward;
    is_set.then_some(state)
}

// A change with its mark at a row, if there is one.
fn at_row(mut change: Change, row: Option<usize>) -> Change {
    if let Some(row) = row {
        change.mark = row;
    }
    change
}

// What a jump leaves in a state, if a key asks for one.
fn asked(alloc: Global, state: &PagerState, key: &str) -> Option<Change> {
    let keys = DefaultKeys::new(alloc).ok()?;
    match keys.classify_input(press(key), state) {
        Some(InputEvent::MoveToNextMatch(jump)) => {
            Some(at_row(state.telling_next(jump), state.next_match_row(jump)))
        }
        Some(InputEvent::MoveToPrevMatch(jump)) => {
            Some(at_row(state.telling_prev(jump), state.prev_match_row(jump)))
        }
        _ => None,
    }
}

// Whether it is put in its place, its mark clamped, and leads to this mark and match.
fn settles(alloc: Global, state: &mut PagerState, mut change: Change, to: (usize, usize)) -> bool {
    match &change.text {
        NextText::Same => {}
        _ => return false,
    }
    change.clamp(&state.screen);
    state.place(alloc, change).is_ok() && state.upper_mark == to.0 && state.search_mark() == to.1
}

// Whether a key leads there.
fn leads(alloc: Global, case: &Jump<'_>) -> bool {
    let Some(mut state) = begun(alloc, case) else {
        return false;
    };
    match asked(alloc, &state, case.pressed.1) {
        Some(change) => settles(alloc, &mut state, change, case.to),
        None => false,
    }
}

// Rows 2, 5 and 8 match the first of these terms, and rows 2, 5 and 7 the second.
const THREE: Option<&str> = Some("l[258]");

const UP_TO_THE_LAST_MARK: Option<&str> = Some("l[257]");

const JUMPS: [&Jump<'static>; 16] = [
    &Jump {
        name: "on to the first",
        term: THREE,
        from: (0, 0),
        pressed: ("", "n"),
        to: (2, 0),
    },
    &Jump {
        name: "on from a match",
        term: THREE,
        from: (2, 0),
        pressed: ("", "n"),
        to: (5, 1),
    },
    &Jump {
        name: "on from between two",
        term: THREE,
        from: (3, 2),
        pressed: ("", "n"),
        to: (5, 1),
    },
    &Jump {
        name: "on to a row past the last mark",
        term: THREE,
        from: (5, 1),
        pressed: ("", "n"),
        to: (7, 2),
    },
    &Jump {
        name: "on past the last one",
        term: UP_TO_THE_LAST_MARK,
        from: (7, 2),
        pressed: ("", "n"),
        to: (2, 0),
    },
    &Jump {
        name: "on by three",
        term: THREE,
        from: (0, 0),
        pressed: ("3", "n"),
        to: (7, 2),
    },
    &Jump {
        name: "on by five, past the last one",
        term: THREE,
        from: (0, 0),
        pressed: ("5", "n"),
        to: (5, 1),
    },
    &Jump {
        name: "on by none, at a match",
        term: THREE,
        from: (5, 0),
        pressed: ("0", "n"),
        to: (5, 1),
    },
    &Jump {
        name: "back",
        term: THREE,
        from: (7, 2),
        pressed: ("", "p"),
        to: (5, 1),
    },
    &Jump {
        name: "back by more than there are",
        term: THREE,
        from: (7, 2),
        pressed: ("4", "s-n"),
        to: (2, 0),
    },
    &Jump {
        name: "back at the first one",
        term: THREE,
        from: (2, 0),
        pressed: ("", "p"),
        to: (2, 0),
    },
    &Jump {
        name: "back to a row below the mark",
        term: THREE,
        from: (3, 2),
        pressed: ("", "p"),
        to: (3, 1),
    },
    &Jump {
        name: "back to where no match is",
        term: THREE,
        from: (6, 9),
        pressed: ("2", "p"),
        to: (6, 7),
    },
    &Jump {
        name: "on where no row matches",
        term: Some("q"),
        from: (4, 3),
        pressed: ("", "n"),
        to: (4, 3),
    },
    &Jump {
        name: "back where no row matches",
        term: Some("q"),
        from: (4, 3),
        pressed: ("", "p"),
        to: (4, 3),
    },
    &Jump {
        name: "back without a term",
        term: None,
        from: (4, 3),
        pressed: ("2", "p"),
        to: (4, 3),
    },
];

#[test]
fn keys_jump_among_the_matches(rt: HostRuntime) {
    for case in &JUMPS {
        assert_at(&rt, case.name, leads(rt.alloc(), case));
    }
}
