//! Commands that are handled manually, one behind the other, and what they leave of the parts. Where memory runs out,
//! each answer is `false`.

use crate::facts::assert_holds;
use minus::{
    CommandOf, CommandQueueOf, InputEvent, IoCommand, PagerState, PartsOf, Selection, handle_event,
};
use minus_script::{DefaultKeys, ScriptKinds};
use std::alloc::Global;

// Whether a selection without a start goes as it is copied, with the whole page to draw.
fn copies_no_start(alloc: Global) -> bool {
    let (Ok(mut state), Ok(keys), Ok(mut queue)) = (
        PagerState::new(alloc, 80, 10),
        DefaultKeys::new(alloc),
        CommandQueueOf::new(alloc),
    ) else {
        return false;
    };
    state.selection = Some(Selection {
        absolute_row: 0,
        col: 0,
    });
    let mut parts: PartsOf<ScriptKinds> = PartsOf::keeping(alloc, state, keys, None);
    let copy = CommandOf::UserInput(InputEvent::CopySelection);
    let is_handled = handle_event(alloc, copy, &mut parts, &mut queue).is_ok();
    let waits = queue.pop_front();
    is_handled
        && matches!(waits, Some(CommandOf::Io(IoCommand::RedrawDisplay)))
        && parts.state.selection.is_none()
        && parts.state.ends().anchor.is_none()
}

#[test]
fn a_selection_without_a_start_goes_as_it_is_copied(rt: HostRuntime) {
    assert_holds(&rt, copies_no_start(rt.alloc()));
}
