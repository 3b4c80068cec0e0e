//! What a session shares with its test while it runs: the bytes of its sink, and how often its callbacks were called.
use crate::facts::assert_holds;
use crate::plain_sessions::{Asked, PROMPT_ROW, has_page, number_of, start};
use minus::{ExitCall, HookCall, PagerState, WithTty};
use std::alloc::{AllocError, Global};
use std::cell::{Cell, RefCell};
use std::io;
use std::io::Write;
use std::rc::Rc;

/// Writes into a cell of the caller's. It tells no bytes to contracts, since no contract can say what a cell holds.
#[derive(Drop)]
pub struct Shared<'a> {
    held: &'a RefCell<Vec<u8>>,
}

impl<'a> Shared<'a> {
    /// What writes into a cell, and is a terminal or none.
    pub fn new(held: &'a RefCell<Vec<u8>>, is_terminal: bool) -> WithTty<Shared<'a>> {
        WithTty::new(Shared { held }, is_terminal)
    }

    /// A terminal that writes into a cell.
    pub fn terminal(held: &'a RefCell<Vec<u8>>) -> WithTty<Shared<'a>> {
        Shared::new(held, true)
    }
}

impl<'a> Write for Shared<'a> {
    fn write(&mut self, bytes: &[u8]) -> io::Result<usize> {
        match self.held.try_borrow_mut() {
            Ok(mut held) => match held.extend_from_slice(bytes) {
                Ok(()) => Ok(bytes.len()),
                Err(failed) => Err(io::Error::from(AllocError::from(failed))),
            },
            Err(_) => Ok(0),
        }
    }

    fn flush(&mut self) -> io::Result<()> {
        Ok(())
    }
}

/// A callback that counts its calls.
#[derive(Drop)]
pub struct Counting {
    calls: Rc<Cell<u32>>,
}

impl Counting {
    /// One that counts in this cell.
    pub fn of(calls: &Rc<Cell<u32>>) -> Result<Counting, AllocError> {
        Ok(Counting {
            calls: calls.clone()?,
        })
    }

    // Counts a call.
    fn count(&self) {
        self.calls.set(self.calls.get().saturating_add(1));
    }
}

impl HookCall for Counting {
    fn call(&mut self, _state: &PagerState) {
        self.count();
    }
}

impl ExitCall for Counting {
    fn call(&mut self) {
        self.count();
    }
}

/// How many bytes a cell holds.
pub fn count_held(held: &RefCell<Vec<u8>>) -> usize {
    match held.try_borrow() {
        Ok(held) => held.len(),
        Err(_) => 0,
    }
}

/// Whether a cell holds this behind this many bytes.
pub fn holds_behind(held: &RefCell<Vec<u8>>, before: usize, bytes: &[u8]) -> bool {
    match held.try_borrow() {
        Ok(held) => held.get(before..) == Some(bytes),
        Err(_) => false,
    }
}

// Whether the bytes of a push stand in the cell while the session goes on.
fn is_lent(alloc: Global, held: &RefCell<Vec<u8>>) -> bool {
    let Ok(mut session) = start(alloc, Shared::terminal(held), 20, 3) else {
        return false;
    };
    let before = count_held(held);
    number_of(alloc, &mut session, Asked::Push("a")) == 0
        && holds_behind(held, before, "\x1b[1;1H\x1b[2Ka".as_bytes())
        && has_page(&session, &["a", "", PROMPT_ROW])
}

#[test]
fn a_session_lends_its_bytes(rt: HostRuntime) {
    let held = RefCell::new(Vec::new(rt.alloc()));
    assert_holds(&rt, is_lent(rt.alloc(), &held));
}
