//! What a session keeps of what it is handed, and is told about its end, draws nothing.
use crate::classifiers::ToRow;
use crate::facts::assert_at;
use crate::sessions::terminal;
use minus::{
    CommandOf, ExitCall, InputOf, Kinds, NeverCalled, NeverShows, PagerOf, RunMode, init_core_with,
};
use std::alloc::Global;

// A callback that does nothing.
#[derive(Drop)]
struct Silent;

impl ExitCall for Silent {
    fn call(&mut self) {}
}

type Own = Kinds<NeverCalled, Silent, NeverShows, ToRow>;

// All that a session of two rows writes that is told a command, or none.
fn written(alloc: Global, command: Option<CommandOf<Own>>) -> Option<Vec<u8>> {
    let pager: PagerOf<Own> = PagerOf::new(alloc);
    let keys = ToRow(0);
    let Ok(mut session) = init_core_with(pager, RunMode::Static, terminal(alloc), 20, 2, keys)
    else {
        return None;
    };
    let is_done = match command {
        Some(command) => session.step(InputOf::Command(command)).is_ok(),
        None => true,
    };
    let (sink, cleaned) = session.finish();
    if is_done && cleaned.is_ok() {
        return Some(sink.inner);
    }
    None
}

// Whether a session writes the same with a command and without one.
fn draws_nothing(alloc: Global, command: CommandOf<Own>) -> bool {
    let (Some(without), Some(with)) = (written(alloc, None), written(alloc, Some(command))) else {
        return false;
    };
    !with.is_empty() && with.as_slice() == without.as_slice()
}

#[test]
fn what_is_handed_over_draws_nothing(rt: HostRuntime) {
    let alloc = rt.alloc();
    let classifier = draws_nothing(alloc, CommandOf::SetInputClassifier(ToRow(1)));
    assert_at(&rt, "a classifier", classifier);
    let condition = draws_nothing(alloc, CommandOf::IncrementalSearchCondition(NeverShows));
    assert_at(&rt, "a condition", condition);
    let exit = draws_nothing(alloc, CommandOf::AddExitCallback(Silent));
    assert_at(&rt, "a callback of an exit", exit);
    let overflow = draws_nothing(alloc, CommandOf::SetRunNoOverflow(true));
    assert_at(&rt, "how a text that fits ends", overflow);
}
