//! Callbacks of hooks and exits: the ids that they are given, and who is called, in which order, with which state.
//! Where memory runs out, each answer is `false`.
use crate::asked::{At, TEN_LINES, state_of};
use crate::facts::{assert_at, assert_holds};
use minus_state::{
    ExitCall, ExitCallback, ExitCallbacks, HookCall, HookCallback, HookId, HookList, Hooks,
    KeptExit, KeptHook, PagerState,
};
use minus_term::Hook;
use std::alloc::{AllocError, Global};
use std::cell::Cell;
use std::rc::Rc;

// Writes a digit behind a number.
fn write_digit(log: &Cell<u64>, digit: u64) {
    log.set(log.get().wrapping_mul(10).wrapping_add(digit));
}

// A callback that writes its digit, and at a hook the mark behind it.
#[derive(Drop)]
struct Writes<'l> {
    digit: u64,
    log: &'l Cell<u64>,
}

impl HookCall for Writes<'_> {
    fn call(&mut self, state: &PagerState) {
        write_digit(self.log, self.digit);
        write_digit(self.log, state.upper_mark as u64);
    }
}

impl ExitCall for Writes<'_> {
    fn call(&mut self) {
        write_digit(self.log, self.digit);
    }
}

// A hook, the id that is asked for, and the id that is given or the number of the refusal.
type Asked = (Hook, u64, Result<u64, u8>);

const GREATEST: u64 = 18_446_744_073_709_551_615;

// In this order.
const ASKED: [&Asked; 13] = [
    &(Hook::EofReached, 0, Ok(2)),
    &(Hook::EofReached, 0, Ok(3)),
    &(Hook::EofReached, 10, Ok(10)),
    &(Hook::EofReached, 0, Ok(11)),
    &(Hook::EofReached, 2, Err(3)),
    &(Hook::EofReached, 1, Ok(1)),
    &(Hook::PostPagerExit, 1, Err(3)),
    // the ids of another hook do not count
    &(Hook::PostPagerExit, 0, Ok(2)),
    &(Hook::PostPagerExit, 10, Ok(10)),
    &(Hook::EofReached, GREATEST, Ok(GREATEST)),
    &(Hook::EofReached, 0, Err(4)),
    &(Hook::EofReached, GREATEST, Err(3)),
    &(Hook::PostPagerExit, 0, Ok(11)),
];

// Adds a callback, and answers whether it is given this id or refused by this number with nothing changed.
fn is_given<C: HookCall + Drop>(hooks: &mut HookList<C>, asked: &Asked, callback: C) -> bool {
    let (hook, id, wanted) = *asked;
    let count = hooks.ids().len();
    match (hooks.add_callback(hook, id, callback), wanted) {
        (Ok(()), Ok(given)) => {
            hooks.ids().len() == count + 1
                && hooks.ids().last() == Some(&HookId { hook, id: given })
        }
        (Err(refusal), Err(number)) => { refusal.number() == number && hooks.ids().len() == count }
        _ => false,
    }
}

#[test]
fn ids_are_given_or_refused(rt: HostRuntime) {
    let log = Cell::new(0);
    let mut hooks = HookList::new(rt.alloc());
    for asked in &ASKED {
        let callback = Writes {
            digit: 0,
            log: &log,
        };
        let is_so = is_given(&mut hooks, asked, callback);
        assert_holds(&rt, is_so);
    }
}

// Whether callbacks write down this when a hook is run at the mark 7.
fn runs<C: HookCall>(
    hooks: &mut HookList<C>,
    log: &Cell<u64>,
    hook: Hook,
    state: &PagerState,
    wanted: u64,
) -> bool {
    log.set(0);
    hooks.run_hooks(hook, state);
    log.get() == wanted
}

const AT_THE_END: At<'static> = At {
    prefix: "",
    mark: 7,
};

// Whether the callbacks of a hook are called once each, in the order of adding, until they are removed.
fn are_called(alloc: Global, log: &Cell<u64>) -> bool {
    let Some(state) = state_of(alloc, TEN_LINES, &AT_THE_END) else {
        return false;
    };
    let mut hooks = HookList::new(alloc);
    let (eof, exit) = (Hook::EofReached, Hook::PrePagerExit);
    is_given(&mut hooks, &(eof, 9, Ok(9)), Writes { digit: 1, log })
        && is_given(&mut hooks, &(exit, 0, Ok(2)), Writes { digit: 2, log })
        && is_given(&mut hooks, &(eof, 4, Ok(4)), Writes { digit: 3, log })
        && is_given(&mut hooks, &(eof, 9, Err(3)), Writes { digit: 4, log })
        && is_given(&mut hooks, &(eof, 0, Ok(10)), Writes { digit: 5, log })
        && runs(&mut hooks, log, eof, &state, 173_757)
        && runs(&mut hooks, log, exit, &state, 27)
        && runs(&mut hooks, log, Hook::PostPagerExit, &state, 0)
        && hooks.remove_callback(eof, 4)
        && !hooks.remove_callback(eof, 4)
        && !hooks.remove_callback(exit, 9)
        && runs(&mut hooks, log, eof, &state, 1_757)
        && runs(&mut hooks, log, exit, &state, 27)
        && is_given(&mut hooks, &(eof, 4, Ok(4)), Writes { digit: 6, log })
        && runs(&mut hooks, log, eof, &state, 175_767)
}

#[test]
fn callbacks_of_a_hook_are_called_in_order(rt: HostRuntime) {
    let log = Cell::new(0);
    assert_holds(&rt, are_called(rt.alloc(), &log));
}

// Whether each callback of an exit is called once, in the order of adding.
fn are_called_at_an_exit(alloc: Global, log: &Cell<u64>) -> bool {
    let mut exits = ExitCallbacks::new(alloc);
    let is_empty = exits.len() == 0;
    let are_added = exits.push(Writes { digit: 1, log }).is_ok()
        && exits.push(Writes { digit: 2, log }).is_ok()
        && exits.push(Writes { digit: 3, log }).is_ok();
    exits.run();
    is_empty && are_added && exits.len() == 3 && log.get() == 123
}

#[test]
fn callbacks_of_an_exit_are_called_in_order(rt: HostRuntime) {
    let log = Cell::new(0);
    assert_holds(&rt, are_called_at_an_exit(rt.alloc(), &log));
}

// One more holder of the log.
fn shared(log: &Rc<Cell<u64>>) -> Result<Rc<Cell<u64>>, AllocError> {
    log.clone()
}

// Whether callbacks in boxes are called.
fn are_boxes_called(alloc: Global) -> bool {
    let state = state_of(alloc, TEN_LINES, &AT_THE_END);
    let (Some(state), Ok(log)) = (state, Rc::new(alloc, Cell::new(0))) else {
        return false;
    };
    let (Ok(at_hook), Ok(at_exit)) = (shared(&log), shared(&log)) else {
        return false;
    };
    let (Ok(hook), Ok(exit)) = (
        Box::new(alloc, move |state: &PagerState| {
            write_digit(&at_hook, state.upper_mark as u64)
        }),
        Box::new(alloc, move || write_digit(&at_exit, 1)),
    ) else {
        return false;
    };
    let (hook, exit): (HookCallback, ExitCallback) = (hook, exit);
    let mut hooks: Hooks = HookList::new(alloc);
    let mut exits: ExitCallbacks<KeptExit> = ExitCallbacks::new(alloc);
    let asked = (Hook::PrePagerExit, 0, Ok(2));
    let are_added = is_given(&mut hooks, &asked, KeptHook::new(hook))
        && exits.push(KeptExit::new(exit)).is_ok();
    hooks.run_hooks(Hook::PrePagerExit, &state);
    exits.run();
    hooks.run_hooks(Hook::PostPagerExit, &state);
    are_added && log.get() == 71
}

#[test]
fn callbacks_in_boxes_are_called(rt: HostRuntime) {
    assert_holds(&rt, are_boxes_called(rt.alloc()));
}
