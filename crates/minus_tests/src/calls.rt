//! Public calls that the other tests do not make: a callback of a hook in a box, what a session keeps to decide about
//! its events and its help, the ids that the pager keeps, and small readers. Where memory runs out, each answer is
//! `false` or none.
use crate::facts::assert_holds;
use crate::sessions::{Asked, TEN_LINES, does, session_on, terminal};
use minus::{
    DefaultAction, Hook, HookCallback, InputClassifier, InputEvent, InputOf, KeptHook, Pager,
    PagerState, RunMode, has_newline, init_core, is_reserved, page_len, top_of,
};
use minus_part_tests::asked::press;
use std::alloc::Global;
use std::cell::Cell;
use std::rc::Rc;

// The last mark that a callback in a box was told at the end of ten lines, where a session goes to the end.
fn told_at_the_end(alloc: Global) -> Option<usize> {
    let Ok(log) = Rc::new(alloc, Cell::new(0_usize)) else {
        return None;
    };
    let Ok(at_end) = log.clone() else {
        return None;
    };
    let Ok(boxed) = Box::new(alloc, move |state: &PagerState| {
        at_end.set(state.upper_mark)
    }) else {
        return None;
    };
    let callback: HookCallback = boxed;
    let mut pager = Pager::new(alloc);
    let is_told = pager.set_text(TEN_LINES).is_ok()
        && pager
            .add_hook(Hook::EofReached, 0, KeptHook::new(callback))
            .is_ok();
    match init_core(pager, RunMode::Static, terminal(alloc), 20, 4) {
        Ok(mut session) => {
            let is_done = is_told && session.step(InputOf::Event(press("s-g"))).is_ok();
            is_done.then_some(log.get())
        }
        Err(_) => None,
    }
}

#[test]
fn a_callback_in_a_box_is_called_at_a_hook(rt: HostRuntime) {
    assert_holds(&rt, told_at_the_end(rt.alloc()) == Some(7));
}

// Whether what a session keeps says what a key asks for, with nothing done, and has a text for help.
fn tells_what_decides(alloc: Global) -> bool {
    let Some(mut session) = session_on(alloc, terminal(alloc), 20, 4) else {
        return false;
    };
    let is_told = does(alloc, &mut session, &[Asked::Push(TEN_LINES)]);
    let (keys, state) = (session.classifier(), session.state());
    let asked = keys.classify_input(press("j"), state);
    let has_help = match keys.format_help(alloc) {
        Ok(Some(text)) => text.contains("toggle follow"),
        _ => false,
    };
    is_told && asked == Some(InputEvent::UpdateUpperMark(1)) && state.upper_mark == 0 && has_help
}

#[test]
fn a_session_tells_what_decides_about_its_events(rt: HostRuntime) {
    assert_holds(&rt, tells_what_decides(rt.alloc()));
}

#[test]
fn an_id_of_a_hook_is_kept_for_the_pager(rt: HostRuntime) {
    let ids = [
        (Hook::PostPagerExit, 1, true),
        (Hook::PostPagerExit, 2, false),
        (Hook::PrePagerExit, 1, false),
        (Hook::EofReached, 1, false),
    ];
    for (hook, id, wanted) in ids {
        assert_holds(&rt, is_reserved(hook, id) == wanted);
    }
}

#[test]
fn small_readers_answer(rt: HostRuntime) {
    assert_holds(&rt, page_len(4) == 3 && top_of(10, 4) == 7);
    assert_holds(&rt, has_newline("a\nb") && !has_newline("a"));
    assert_holds(&rt, DefaultAction::Quit.description() == "quit");
    assert_holds(&rt, RunMode::Uninitialized.is_uninitialized());
    assert_holds(&rt, !RunMode::Static.is_uninitialized());
}
