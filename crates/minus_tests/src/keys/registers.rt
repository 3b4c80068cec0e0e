//! Registers of bindings: what is added, refused and removed, in which order, and what the help table lists.
use crate::facts::assert_holds;
use minus::{
    ActionCall, DescriptionError, Event, EventTable, FixedSeed, InputClassifier, InputEvent,
    KeyCode, KeyEvent, KeyEventKind, KeyEventState, KeyModifiers, MinusError, PagerState,
};
use minus_part_tests::asked::{START, mouse, press, state_of};
use std::alloc::Global;

/// A callback that asks for the same at each event.
#[derive(Drop)]
pub struct Asks(pub InputEvent);

impl ActionCall for Asks {
    ghost answers = { λ callback event state answer. Unit {0} };

    fn ask(&self, _event: &Event, _state: &PagerState) -> InputEvent {
        self.0
    }
}

/// A register over such callbacks.
pub type Register = EventTable<FixedSeed, Asks>;

/// A register in which nothing is bound.
pub fn empty(alloc: Global) -> Register {
    EventTable::new(alloc, FixedSeed::new())
}

/// A callback that asks to move to a row.
pub fn to_row(row: usize) -> Asks {
    Asks(InputEvent::UpdateUpperMark(row))
}

/// Whether a classifier answers a move to this row at an event, or nothing where there is none.
pub fn goes<K: InputClassifier>(
    alloc: Global,
    classifier: &K,
    event: Event,
    row: Option<usize>,
) -> bool {
    match state_of(alloc, "a", &START) {
        Some(state) => {
            classifier.classify_input(event, &state) == row.map(InputEvent::UpdateUpperMark)
        }
        None => false,
    }
}

/// Whether the help of a classifier lists these lines, between its four first and its two last ones.
pub fn lists<K: InputClassifier>(alloc: Global, classifier: &K, lines: &str) -> bool {
    lists_both(alloc, classifier, lines, "")
}

/// Whether it lists these lines, and then those.
pub fn lists_both<K: InputClassifier>(
    alloc: Global,
    classifier: &K,
    lines: &str,
    others: &str,
) -> bool {
    let Ok(Some(text)) = classifier.format_help(alloc) else {
        return false;
    };
    let first = concat!(
        "             COMMAND SUMMARY\n",
        "\n",
        "  Key(s)                         Action\n",
        "  ------                         ------\n",
    );
    let last = "\n  -- Press q to return to pager --\n";
    match text.as_str().strip_prefix(first) {
        Some(rest) => match rest.strip_suffix(last) {
            Some(listed) => listed.strip_prefix(lines) == Some(others),
            None => false,
        },
        None => false,
    }
}

/// Whether a call is refused as the text at this place describes nothing, for this reason.
pub fn is_bad(called: Result<(), MinusError>, place: usize, fault: DescriptionError) -> bool {
    match called {
        Err(MinusError::BadDescription(at, cause)) => at == place && cause == fault,
        _ => false,
    }
}

/// Whether a call is refused as the key at this place is bound.
pub fn is_bound(called: Result<(), MinusError>, place: usize) -> bool {
    match called {
        Err(MinusError::Bound(at)) => at == place,
        _ => false,
    }
}

// Whether keys are bound to what a call adds, and bound again to what a later one does.
fn binds(alloc: Global) -> bool {
    let mut register = empty(alloc);
    let is_added = register.is_empty()
        && register.add_key_events(&[], to_row(9)).is_ok()
        && register.is_empty()
        && register
            .add_key_events(&["x", "c-y", "x"], to_row(1))
            .is_ok()
        && register.add_key_events(&["c-y", "z"], to_row(2)).is_ok();
    is_added
        && register.len() == 3
        && goes(alloc, &register, press("x"), Some(1))
        && goes(alloc, &register, press("c-y"), Some(2))
        && goes(alloc, &register, press("z"), Some(2))
        && goes(alloc, &register, press("y"), None)
}

#[test]
fn keys_are_bound_to_the_last_callback(rt: HostRuntime) {
    assert_holds(&rt, binds(rt.alloc()));
}

// Whether calls with a bad description, and checked ones with a bound key, change nothing.
fn refuses(alloc: Global) -> bool {
    let mut register = empty(alloc);
    let is_added = register.add_key_events(&["q"], to_row(1)).is_ok();
    let bad = register.add_key_events(&["x", "--"], to_row(2));
    let is_bad_first = is_bad(bad, 1, DescriptionError::EmptySegment);
    let bad = register.add_key_events_checked(&["q", "a-b"], to_row(2), false);
    let is_bad_then = is_bad(bad, 1, DescriptionError::SecondKey);
    let bound = register.add_key_events_checked(&["x", "q", "q"], to_row(2), false);
    let is_bound_once = is_bound(bound, 1);
    let bound = register.add_described_key_events_checked(&["q"], "text", to_row(2), false);
    is_added
        && is_bad_first
        && is_bad_then
        && is_bound_once
        && is_bound(bound, 0)
        && register.len() == 1
        && goes(alloc, &register, press("q"), Some(1))
}

#[test]
fn what_is_refused_changes_nothing(rt: HostRuntime) {
    assert_holds(&rt, refuses(rt.alloc()));
}

// Whether checked calls bind keys that were not bound before them, and others where they may be bound again.
fn binds_checked(alloc: Global) -> bool {
    let mut register = empty(alloc);
    let is_added = register
        .add_key_events_checked(&["x", "x"], to_row(1), false)
        .is_ok()
        && register
            .add_described_key_events_checked(&["x", "y"], "go", to_row(2), true)
            .is_ok();
    is_added
        && register.len() == 2
        && goes(alloc, &register, press("x"), Some(2))
        && lists(alloc, &register, "  x, y                           go\n")
}

#[test]
fn checked_calls_bind_again_where_they_may(rt: HostRuntime) {
    assert_holds(&rt, binds_checked(rt.alloc()));
}

// A register of three described keys and one that is not.
fn described(alloc: Global) -> Option<Register> {
    let mut register = empty(alloc);
    let is_added = register
        .add_described_key_events(&["a", "up"], "first", to_row(1))
        .is_ok()
        && register
            .add_described_key_events(&["s-b"], " second ", to_row(2))
            .is_ok()
        && register.add_key_events(&["x"], to_row(3)).is_ok();
    is_added.then_some(register)
}

const SECOND: &str = "  Shift-b                        second\n";

// Whether a key that is bound again keeps its place, and has the new description.
fn keeps_its_place(alloc: Global) -> bool {
    let Some(mut register) = described(alloc) else {
        return false;
    };
    let was_listed = lists(
        alloc,
        &register,
        concat!(
            "  a, Up                          first\n",
            "  Shift-b                        second\n",
        ),
    );
    let is_added = register
        .add_described_key_events(&["a"], "third", to_row(4))
        .is_ok();
    was_listed
        && is_added
        && lists(
            alloc,
            &register,
            concat!(
                "  a                              third\n",
                "  Up                             first\n",
                "  Shift-b                        second\n",
            ),
        )
}

#[test]
fn a_key_that_is_bound_again_keeps_its_place(rt: HostRuntime) {
    assert_holds(&rt, keeps_its_place(rt.alloc()));
}

// Whether a removed key closes up, a key that is not bound is skipped, and a key that is added again goes last.
fn closes_up(alloc: Global) -> bool {
    let Some(mut register) = described(alloc) else {
        return false;
    };
    let bad = register.remove_key_events(&["a", "foo"]);
    let is_refused = is_bad(bad, 1, DescriptionError::UnknownName) && register.len() == 4;
    let is_removed = register.remove_key_events(&["a", "z", "up", "a"]).is_ok()
        && register.len() == 2
        && goes(alloc, &register, press("up"), None)
        && goes(alloc, &register, press("B"), Some(2))
        && lists(alloc, &register, SECOND);
    let is_added = register
        .add_described_key_events(&["a", "up"], "first", to_row(5))
        .is_ok();
    is_refused
        && is_removed
        && is_added
        && lists(
            alloc,
            &register,
            concat!(
                "  Shift-b                        second\n",
                "  a, Up                          first\n",
            ),
        )
}

#[test]
fn a_removed_key_closes_up(rt: HostRuntime) {
    assert_holds(&rt, closes_up(rt.alloc()));
}

// Whether a key with SHIFT is bound for its capital, with SHIFT or without.
fn is_a_capital(alloc: Global) -> bool {
    let Some(register) = described(alloc) else {
        return false;
    };
    let released = Event::Key(KeyEvent {
        code: KeyCode::Char('B'),
        modifiers: KeyModifiers::NONE,
        kind: KeyEventKind::Release,
        state: KeyEventState::NONE,
    });
    goes(alloc, &register, press("s-b"), Some(2))
        && goes(alloc, &register, press("B"), Some(2))
        && goes(alloc, &register, press("s-B"), Some(2))
        && goes(alloc, &register, press("b"), None)
        && goes(alloc, &register, released, None)
}

#[test]
fn a_letter_with_shift_is_its_capital(rt: HostRuntime) {
    assert_holds(&rt, is_a_capital(rt.alloc()));
}

// Whether all other events are left to the callback that was set last for them.
fn has_wild_events(alloc: Global) -> bool {
    let Some(mut register) = described(alloc) else {
        return false;
    };
    let was_none = goes(alloc, &register, Event::FocusGained, None);
    register.insert_wild_event_matcher(to_row(7));
    register.insert_wild_event_matcher(to_row(8));
    was_none
        && register.len() == 4
        && goes(alloc, &register, Event::FocusGained, Some(8))
        && goes(alloc, &register, Event::Resize(1, 1), Some(8))
        && goes(alloc, &register, press("c-a"), Some(8))
        && goes(alloc, &register, press("a"), Some(1))
}

#[test]
fn other_events_are_wild(rt: HostRuntime) {
    assert_holds(&rt, has_wild_events(rt.alloc()));
}

// Whether a resize, to whatever size, is bound, bound again and removed.
fn binds_resizes(alloc: Global) -> bool {
    let mut register = empty(alloc);
    let is_added = register.add_resize_event(to_row(1)).is_ok()
        && goes(alloc, &register, Event::Resize(9, 9), Some(1))
        && register.add_resize_event(to_row(2)).is_ok()
        && register.len() == 1
        && goes(alloc, &register, Event::Resize(0, 65_535), Some(2));
    register.remove_resize_event();
    register.remove_resize_event();
    is_added && register.is_empty() && goes(alloc, &register, Event::Resize(9, 9), None)
}

#[test]
fn all_resizes_are_one_key(rt: HostRuntime) {
    assert_holds(&rt, binds_resizes(rt.alloc()));
}

// Adds what is done with the mouse to an empty register.
fn add_mouse(register: &mut Register) -> bool {
    let added = register.add_mouse_events(&["left:down", "c-scroll:up"], to_row(1));
    let bad = register.add_mouse_events(&["m"], to_row(2));
    let is_bad_first = is_bad(bad, 0, DescriptionError::UnknownName);
    let bad = register.add_mouse_events_checked(&["left:down", "c-"], to_row(2), false);
    let is_bad_then = is_bad(bad, 1, DescriptionError::NoAction);
    let bound = register.add_mouse_events_checked(&["move", "left:down"], to_row(2), false);
    added.is_ok() && is_bad_first && is_bad_then && is_bound(bound, 1) && register.len() == 2
}

// Whether a mouse's action is bound wherever the mouse is, bound again where it may, and removed.
fn binds_the_mouse(alloc: Global) -> bool {
    let mut register = empty(alloc);
    let is_added = add_mouse(&mut register)
        && goes(alloc, &register, mouse("left:down", 300, 2), Some(1))
        && goes(alloc, &register, mouse("c-scroll:up", 0, 0), Some(1))
        && goes(alloc, &register, mouse("scroll:up", 0, 0), None)
        && goes(alloc, &register, mouse("move", 0, 0), None);
    let is_added_again = register
        .add_mouse_events_checked(&["move", "left:down"], to_row(3), true)
        .is_ok()
        && goes(alloc, &register, mouse("left:down", 1, 1), Some(3));
    let is_removed = register
        .remove_mouse_events(&["left:down", "right:up"])
        .is_ok()
        && goes(alloc, &register, mouse("left:down", 1, 1), None)
        && is_bad(
            register.remove_mouse_events(&["move", "q"]),
            1,
            DescriptionError::UnknownName,
        );
    is_added && is_added_again && is_removed && register.len() == 2
}

#[test]
fn the_mouse_is_bound_wherever_it_is(rt: HostRuntime) {
    assert_holds(&rt, binds_the_mouse(rt.alloc()));
}
