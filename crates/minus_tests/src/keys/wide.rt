//! What the default bindings answer in a state without a text, with numbers, on 80 columns and five rows.
use crate::facts::{assert_at, assert_holds};
use crate::keys::registers::{Asks, lists, to_row};
use minus::{Event, EventTable, InputClassifier, InputEvent, LineNumbers, PagerState, SearchMode};
use minus_part_tests::asked::press;
use minus_script::DefaultKeys;
use std::alloc::Global;
use std::hash::RandomState;
use std::random::RandomSource;

// Whether the default bindings answer this to an event, at this mark and after a search in this direction.
fn is_answered(
    alloc: Global,
    event: Event,
    mark: usize,
    mode: SearchMode,
    wanted: InputEvent,
) -> bool {
    let (Ok(keys), Ok(mut state)) = (DefaultKeys::new(alloc), PagerState::new(alloc, 80, 5)) else {
        return false;
    };
    state.upper_mark = mark;
    state.line_numbers = LineNumbers::Enabled;
    state.search_state.search_mode = mode;
    keys.classify_input(event, &state) == Some(wanted)
}

// A key, the mark, the direction of the last search, and what the key asks for.
const KEYS: [(&str, usize, SearchMode, InputEvent); 1] = [
    // no further than the greatest mark
    (
        "down",
        usize::MAX,
        SearchMode::Unknown,
        InputEvent::UpdateUpperMark(usize::MAX),
    ),
];

#[test]
fn keys_ask_by_the_mark_and_the_last_search(rt: HostRuntime) {
    for (text, mark, mode, wanted) in &KEYS {
        let is_asked = is_answered(rt.alloc(), press(text), *mark, *mode, *wanted);
        assert_at(&rt, text, is_asked);
    }
}

// A register whose keys are hashed by a random seed.
type Random = EventTable<RandomState, Asks>;

// Whether the help of one lists the keys that have a description, and them alone.
fn lists_described<R: RandomSource + AllocGlobal>(rt: &R) -> bool {
    let Ok(mut register) = Random::with_default_hasher(rt) else {
        return false;
    };
    let is_added = register
        .add_described_key_events(&["q", "c-c"], "quit", Asks(InputEvent::Exit))
        .is_ok()
        && register
            .add_described_key_events(&["j", "down"], "scroll down", to_row(1))
            .is_ok()
        && register
            .add_key_events(&["x"], Asks(InputEvent::Exit))
            .is_ok();
    let lines = concat!(
        "  q, Ctrl-c                      quit\n",
        "  j, Down                        scroll down\n",
    );
    is_added && lists(rt.alloc(), &register, lines)
}

#[test]
fn help_lists_what_is_described(rt: HostRuntime) {
    assert_holds(&rt, lists_described(&rt));
}
