//! Callbacks of hooks and of an exit, for parts that are driven manually.
mod by_hand;

use minus::{
    CommandOf, Event, ExitCall, HookCall, InputClassifier, InputEvent, Kinds, NeverShows,
    PagerState, PartsOf,
};
use std::alloc::{AllocError, Global};
use std::cell::Cell;
use std::rc::Rc;

// Writes a digit behind a number.
fn write_digit(log: &Cell<u64>, digit: u64) {
    log.set(log.get().wrapping_mul(10).wrapping_add(digit));
}

// A callback that writes its digit, and at a hook the mark behind it.
#[derive(Drop)]
struct Writes {
    digit: u64,
    log: Rc<Cell<u64>>,
}

impl HookCall for Writes {
    fn call(&mut self, state: &PagerState) {
        write_digit(&self.log, self.digit);
        write_digit(&self.log, state.upper_mark as u64);
    }
}

impl ExitCall for Writes {
    fn call(&mut self) {
        write_digit(&self.log, self.digit);
    }
}

// A classifier that asks for nothing.
#[derive(Drop)]
struct Still;

impl InputClassifier for Still {
    ghost says = { record {
      allows = λ classifier event state answer. Unit {0};
      helps = λ classifier text. Unit {0};
    } };

    fn classify_input(&self, _event: Event, _state: &PagerState) -> Option<InputEvent> {
        None
    }

    fn format_help(&self, _alloc: Global) -> Result<Option<String>, AllocError> {
        Ok(None)
    }
}

type Own = Kinds<Writes, Writes, NeverShows, Still>;

type Command = CommandOf<Own>;

// One more holder of the log.
fn shared(log: &Rc<Cell<u64>>) -> Result<Rc<Cell<u64>>, AllocError> {
    log.clone()
}

// What a pager of four rows without a text has, for commands that are handled manually.
fn parts_of(alloc: Global) -> Option<PartsOf<Own>> {
    match PagerState::new(alloc, 20, 4) {
        Ok(state) => Some(PartsOf::keeping(alloc, state, Still, None)),
        Err(_) => None,
    }
}
