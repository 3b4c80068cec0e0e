//! What keys ask for where it turns on what is set, and an event that asks for nothing.
use super::TYPED_ROW;
use crate::facts::assert_holds;
use crate::sessions::{PROMPT_ROW, has_page, terminal};
use minus::{
    DefaultInputClassifier, InputOf, Kinds, NeverCalled, NeverShows, PagerOf, RunMode,
    init_core_with,
};
use minus_part_tests::asked::press;
use std::alloc::Global;

type Exact = Kinds<NeverCalled, NeverCalled, NeverShows, DefaultInputClassifier>;

// Whether a key that the classifier gives no answer to clears the typed prefix.
fn is_cleared(alloc: Global) -> bool {
    let pager: PagerOf<Exact> = PagerOf::new(alloc);
    let keys = DefaultInputClassifier;
    let Ok(mut session) = init_core_with(pager, RunMode::Static, terminal(alloc), 20, 2, keys)
    else {
        return false;
    };
    session.step(InputOf::Event(press("5"))).is_ok()
        && has_page(&session, &["", TYPED_ROW])
        && session.step(InputOf::Event(press("y"))).is_ok()
        && has_page(&session, &["", PROMPT_ROW])
}

#[test]
fn an_event_without_an_answer_clears_the_prefix(rt: HostRuntime) {
    assert_holds(&rt, is_cleared(rt.alloc()));
}
