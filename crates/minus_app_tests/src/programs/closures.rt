//! Closures in boxes, each made where its session is used.
use minus::{
    ActionCallback, Classifier, Event, EventTable, Hook, HookCallback, Input, InputEvent,
    KeptAction, KeptHook, MinusError, Pager, PagerState, RunMode, WithTty, init_core,
    init_core_with, parse_key_event,
};
use std::alloc::Global;
use std::cell::Cell;
use std::rc::Rc;

const TEN_LINES: &str = "1\n2\n3\n4\n5\n6\n7\n8\n9\n10\n";

// The page's first row behind the key x, to which a closure gives a meaning.
fn row_behind_x(alloc: Global) -> Result<usize, MinusError> {
    let mut pager = Pager::new(alloc);
    pager.set_text(TEN_LINES)?;
    let sink = WithTty::new(Vec::new(alloc), true);
    let made = Box::new(alloc, |_event: &Event, _state: &PagerState| {
        InputEvent::UpdateUpperMark(4)
    })?;
    let callback: ActionCallback = made;
    let mut register = EventTable::default_bindings(alloc)?;
    register.add_key_events(&["x"], KeptAction::new(callback))?;
    let classifier = Classifier::Register(register);
    let mut session = init_core_with(pager, RunMode::Static, sink, 20, 4, classifier)?;
    let _ = session.step(Input::Event(Event::Key(parse_key_event("x")?)))?;
    Ok(session.state().upper_mark)
}

#[test]
fn a_closure_is_asked_about_its_key(rt: HostRuntime) {
    assert_eq!(rt; row_behind_x(rt.alloc()).expect(&rt, "row"), 4);
}

// The first row that a closure was told as the page came to the end of the text.
fn row_at_the_end(alloc: Global) -> Result<usize, MinusError> {
    let told = Rc::new(alloc, Cell::new(0_usize))?;
    let at_end = told.clone()?;
    let boxed = Box::new(alloc, move |state: &PagerState| {
        at_end.set(state.upper_mark)
    })?;
    let callback: HookCallback = boxed;
    let mut pager = Pager::new(alloc);
    pager.add_hook(Hook::EofReached, 0, KeptHook::new(callback))?;
    pager.set_text(TEN_LINES)?;
    let sink = WithTty::new(Vec::new(alloc), true);
    let mut session = init_core(pager, RunMode::Static, sink, 20, 4)?;
    let _ = session.step(Input::Event(Event::Key(parse_key_event("s-g")?)))?;
    Ok(told.get())
}

#[test]
fn a_closure_is_called_at_the_end(rt: HostRuntime) {
    assert_eq!(rt; row_at_the_end(rt.alloc()).expect(&rt, "row"), 7);
}
