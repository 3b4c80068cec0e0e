//! Callbacks and classifiers in boxes, and what a session keeps to decide about its events.
use crate::classifiers::ToRow;
use crate::facts::assert_holds;
use crate::keys::registers::{goes, is_bad, is_bound};
use crate::sessions::{TEN_LINES, terminal};
use minus::{
    ActionCallback, Calls, Classifier, CommandOf, Core, DescriptionError, Event, EventTable,
    HashedEventRegister, InputEvent, InputOf, KeptAction, OutputSink, Pager, PagerState, RunMode,
    init_core, init_core_with,
};
use minus_part_tests::asked::{START, answers, press};
use std::alloc::Global;
use std::random::RandomSource;

// A box that asks to move to a row. It is made where it is used, since no function may hand out a box that it makes.
macro_rules! boxed {
    ($alloc:expr, $row:expr) => {
        Box::new($alloc, |_event: &Event, _state: &PagerState| {
            InputEvent::UpdateUpperMark($row)
        })
    };
}

// Whether a register of boxes, in which `q` is bound, refuses bound keys and bad ones with nothing changed, and takes
// others.
fn refuses(alloc: Global) -> bool {
    let (Ok(one), Ok(two), Ok(three)) = (boxed!(alloc, 1), boxed!(alloc, 2), boxed!(alloc, 3))
    else {
        return false;
    };
    let (one, two, three): (ActionCallback, ActionCallback, ActionCallback) = (one, two, three);
    let Ok(mut register) = EventTable::default_bindings(alloc) else {
        return false;
    };
    let bound = register.add_key_events_checked(&["x", "q"], KeptAction::new(one), false);
    let bad = register.add_key_events(&["x", "--"], KeptAction::new(two));
    let is_refused = is_bound(bound, 1) && is_bad(bad, 1, DescriptionError::EmptySegment);
    let has_stayed = register.len() == 39
        && answers(
            alloc,
            &register,
            press("x"),
            &START,
            Some(InputEvent::Ignore),
        );
    let is_taken = register
        .add_key_events_checked(&["x"], KeptAction::new(three), false)
        .is_ok();
    is_refused
        && has_stayed
        && is_taken
        && register.len() == 40
        && goes(alloc, &register, press("x"), Some(3))
        && answers(alloc, &register, press("q"), &START, Some(InputEvent::Exit))
}

#[test]
fn a_register_of_boxes_refuses_what_is_bound(rt: HostRuntime) {
    assert_holds(&rt, refuses(rt.alloc()));
}

// Whether a step leads to this mark.
fn leads_to<S: OutputSink + Drop, P: Calls>(
    session: &mut Core<S, P>,
    input: InputOf<P>,
    mark: usize,
) -> bool {
    session.step(input).is_ok() && session.state().upper_mark == mark
}

// A pager of ten lines.
fn pager(alloc: Global) -> Option<Pager> {
    let mut pager = Pager::new(alloc);
    pager.set_text(TEN_LINES).is_ok().then_some(pager)
}

// Whether a session asks the boxed classifier that it is started with.
fn asks_a_box(alloc: Global) -> bool {
    let (Some(pager), Ok(boxed)) = (pager(alloc), Box::new(alloc, ToRow(2))) else {
        return false;
    };
    let classifier = Classifier::Boxed(boxed);
    match init_core_with(pager, RunMode::Static, terminal(alloc), 20, 4, classifier) {
        Ok(mut session) => leads_to(&mut session, InputOf::Event(Event::FocusGained), 2),
        Err(_) => false,
    }
}

#[test]
fn a_boxed_classifier_is_asked(rt: HostRuntime) {
    assert_holds(&rt, asks_a_box(rt.alloc()));
}

// Whether it asks the one that its pager was given, and not the default bindings.
fn asks_the_pagers(alloc: Global) -> bool {
    let (Some(mut pager), Ok(boxed)) = (pager(alloc), Box::new(alloc, ToRow(2))) else {
        return false;
    };
    let is_set = pager.set_input_classifier(Classifier::Boxed(boxed)).is_ok();
    match init_core(pager, RunMode::Static, terminal(alloc), 20, 4) {
        Ok(mut session) => is_set && leads_to(&mut session, InputOf::Event(press("j")), 2),
        Err(_) => false,
    }
}

#[test]
fn a_pager_hands_its_classifier_on(rt: HostRuntime) {
    assert_holds(&rt, asks_the_pagers(rt.alloc()));
}

// Whether a session goes by the default bindings until a command sets another classifier.
fn asks_the_last(alloc: Global) -> bool {
    let (Some(pager), Ok(boxed)) = (pager(alloc), Box::new(alloc, ToRow(5))) else {
        return false;
    };
    let set = CommandOf::SetInputClassifier(Classifier::Boxed(boxed));
    match init_core(pager, RunMode::Dynamic, terminal(alloc), 20, 4) {
        Ok(mut session) => {
            leads_to(&mut session, InputOf::Event(press("j")), 1)
                && leads_to(&mut session, InputOf::Command(set), 1)
                && leads_to(&mut session, InputOf::Event(press("j")), 5)
        }
        Err(_) => false,
    }
}

#[test]
fn a_command_sets_a_boxed_classifier(rt: HostRuntime) {
    assert_holds(&rt, asks_the_last(rt.alloc()));
}

// Whether a session of the default register and a box for one more key does what both say.
fn asks_a_register(alloc: Global) -> bool {
    let (Some(pager), Ok(made)) = (pager(alloc), boxed!(alloc, 4)) else {
        return false;
    };
    let callback: ActionCallback = made;
    let Ok(mut register) = EventTable::default_bindings(alloc) else {
        return false;
    };
    let is_added = register
        .add_key_events(&["x"], KeptAction::new(callback))
        .is_ok();
    let classifier = Classifier::Register(register);
    match init_core_with(pager, RunMode::Static, terminal(alloc), 20, 4, classifier) {
        Ok(mut session) => {
            is_added
                && leads_to(&mut session, InputOf::Event(press("x")), 4)
                && leads_to(&mut session, InputOf::Event(press("k")), 3)
        }
        Err(_) => false,
    }
}

#[test]
fn a_register_takes_a_box_beside_its_defaults(rt: HostRuntime) {
    assert_holds(&rt, asks_a_register(rt.alloc()));
}

// Whether one whose keys are hashed by a random seed does what its box says, and nothing else.
fn asks_a_random_register<R: RandomSource + AllocGlobal>(rt: &R) -> bool {
    let alloc = rt.alloc();
    let (Some(pager), Ok(made)) = (pager(alloc), boxed!(alloc, 4)) else {
        return false;
    };
    let callback: ActionCallback = made;
    let Ok(mut register) = HashedEventRegister::with_default_hasher(rt) else {
        return false;
    };
    let is_added = register
        .add_key_events(&["x"], KeptAction::new(callback))
        .is_ok();
    let classifier = Classifier::Random(register);
    match init_core_with(pager, RunMode::Static, terminal(alloc), 20, 4, classifier) {
        Ok(mut session) => {
            is_added
                && leads_to(&mut session, InputOf::Event(press("x")), 4)
                && leads_to(&mut session, InputOf::Event(press("k")), 4)
        }
        Err(_) => false,
    }
}

#[test]
fn a_register_of_a_random_seed_is_asked(rt: HostRuntime) {
    assert_holds(&rt, asks_a_random_register(&rt));
}
