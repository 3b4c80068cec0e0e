//! Classifiers of one's own.
use crate::facts::assert_holds;
use crate::sessions::{TEN_LINES, terminal};
use minus::{
    CommandOf, Core, Event, InputClassifier, InputEvent, InputOf, Kinds, NeverCalled, NeverShows,
    PagerOf, PagerState, RunMode, WithTty, init_core_with,
};
use minus_part_tests::shown::is_debugged;
use std::alloc::{AllocError, Global};

/// A classifier that asks at each event for a move to one row of the text, or past it.
#[derive(Drop)]
pub struct ToRow(pub usize);

impl InputClassifier for ToRow {
    ghost says = { record {
      allows = λ classifier event state answer. Unit {0};
      helps = λ classifier text. Unit {0};
    } };

    fn classify_input(&self, _event: Event, _state: &PagerState) -> Option<InputEvent> {
        Some(InputEvent::UpdateUpperMark(self.0))
    }

    fn format_help(&self, _alloc: Global) -> Result<Option<String>, AllocError> {
        Ok(None)
    }
}

type Own = Kinds<NeverCalled, NeverCalled, NeverShows, ToRow>;

type Moving = Core<WithTty<Vec<u8>>, Own>;

// A session of a text on four rows, whose events move to this row.
fn moving_to(alloc: Global, text: &str, row: usize) -> Option<Moving> {
    let mut pager: PagerOf<Own> = PagerOf::new(alloc);
    if pager.set_text(text).is_err() {
        return None;
    }
    match init_core_with(pager, RunMode::Static, terminal(alloc), 20, 4, ToRow(row)) {
        Ok(session) => Some(session),
        Err(_) => None,
    }
}

// Whether a step leads to this mark.
fn leads_to(session: &mut Moving, input: InputOf<Own>, mark: usize) -> bool {
    session.step(input).is_ok() && session.state().upper_mark == mark
}

// Whether an event moves to row 2, another classifier moves nothing when it is set, and the next event moves as far as
// the text goes, since it asks for more than that.
fn are_exchanged(alloc: Global) -> bool {
    let Some(mut session) = moving_to(alloc, TEN_LINES, 2) else {
        return false;
    };
    let other = CommandOf::SetInputClassifier(ToRow(usize::MAX));
    let moves = leads_to(&mut session, InputOf::Event(Event::FocusGained), 2);
    let stays = leads_to(&mut session, InputOf::Command(other), 2);
    moves && stays && leads_to(&mut session, InputOf::Event(Event::FocusGained), 7)
}

#[test]
fn the_classifier_last_set_decides(rt: HostRuntime) {
    assert_holds(&rt, are_exchanged(rt.alloc()));
}

// Whether commands that register two classifiers are equal, and one is shown by its name alone.
fn are_alike(alloc: Global) -> bool {
    let one: CommandOf<Own> = CommandOf::SetInputClassifier(ToRow(2));
    let other: CommandOf<Own> = CommandOf::SetInputClassifier(ToRow(5));
    one == other && is_debugged(alloc, &one, "SetInputClassifier")
}

#[test]
fn commands_do_not_tell_their_classifiers(rt: HostRuntime) {
    assert_holds(&rt, are_alike(rt.alloc()));
}
