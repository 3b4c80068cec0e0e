//! Worked queries: what events do to one, and where its words start. Where memory runs out, each answer is `false`.
use crate::asked::press;
use crate::facts::assert_holds;
use minus_state::{InputStatus, QueryEditor, SearchMode};
use minus_text::Patterns;
use std::alloc::Global;

// Presses a key so often.
pub(super) fn press_often(
    alloc: Global,
    patterns: &Patterns,
    editor: &mut QueryEditor,
    text: &str,
    times: usize,
) -> bool {
    let mut is_pressed = true;
    for _ in 0..times {
        is_pressed &= editor.feed(alloc, patterns, &press(text)).is_ok();
    }
    is_pressed
}

#[test]
fn a_search_has_a_character_and_an_end(rt: HostRuntime) {
    let chars = [
        (SearchMode::Forward, Some('/')),
        (SearchMode::Reverse, Some('?')),
        (SearchMode::Unknown, None),
    ];
    for (mode, wanted) in chars {
        assert_holds(&rt, mode.search_char() == wanted);
    }
    let done = [
        (InputStatus::Confirmed, true),
        (InputStatus::Cancelled, true),
        (InputStatus::Active, false),
    ];
    for (status, wanted) in done {
        assert_holds(&rt, status.done() == wanted);
    }
}
