//! Callbacks where commands are handled manually, and how commands with callbacks are told.
use crate::facts::assert_holds;
use crate::hooks::{Command, Writes, parts_of, shared};
use minus::{CommandOf, CommandQueueOf, Hook, handle_event};
use minus_part_tests::shown::is_debugged;
use std::alloc::Global;
use std::cell::Cell;
use std::rc::Rc;

// Whether a callback of an exit is kept as its command is handled, and not called.
fn is_kept_by_hand(alloc: Global, log: &Rc<Cell<u64>>) -> bool {
    let (Some(mut parts), Ok(at_exit)) = (parts_of(alloc), shared(log)) else {
        return false;
    };
    let mut queue = CommandQueueOf::new_zero(alloc);
    let adds = CommandOf::AddExitCallback(Writes {
        digit: 1,
        log: at_exit,
    });
    handle_event(alloc, adds, &mut parts, &mut queue).is_ok()
        && parts.exit_callbacks.len() == 1
        && queue.is_empty()
        && log.get() == 0
}

#[test]
fn a_callback_of_an_exit_is_kept_by_hand(rt: HostRuntime) {
    let Ok(log) = Rc::new(rt.alloc(), Cell::new(0)) else {
        return;
    };
    assert_holds(&rt, is_kept_by_hand(rt.alloc(), &log));
}

// Whether commands with callbacks are shown by what stands beside those, and are equal by that.
fn are_told_without_callbacks(alloc: Global, log: &Rc<Cell<u64>>) -> bool {
    let (Ok(one), Ok(other), Ok(third)) = (shared(log), shared(log), shared(log)) else {
        return false;
    };
    let one: Command = CommandOf::AddHook(Hook::EofReached, 2, Writes { digit: 1, log: one });
    let other: Command = CommandOf::AddHook(
        Hook::EofReached,
        2,
        Writes {
            digit: 2,
            log: other,
        },
    );
    let exit: Command = CommandOf::AddExitCallback(Writes {
        digit: 1,
        log: third,
    });
    let remove: Command = CommandOf::RemoveHook(Hook::EofReached, 2);
    one == other
        && is_debugged(alloc, &one, "AddHook(EofReached, 2)")
        && is_debugged(alloc, &exit, "AddExitCallback")
        && is_debugged(alloc, &remove, "RemoveHook(EofReached, 2)")
}

#[test]
fn commands_do_not_tell_their_callbacks(rt: HostRuntime) {
    let Ok(log) = Rc::new(rt.alloc(), Cell::new(0)) else {
        return;
    };
    assert_holds(&rt, are_told_without_callbacks(rt.alloc(), &log));
}
