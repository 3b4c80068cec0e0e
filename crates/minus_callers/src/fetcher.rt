//! A program that shows the beginning of a text, and fetches more of it when the reader comes to its end.
ghost use Rattle.std.specs.Prelude.{◌≡◌, string_bytes, IfOk};
ghost use Rattle.minus.specs.Core.{seen_of};
ghost use Rattle.minus_callers.specs.Fetcher.{one_at_end, IsFetched};

use minus::{
    Calls, CommandOf, Core, DefaultInputClassifier, Hook, HookCall, InputOf, Kinds, MinusError,
    NeverCalled, NeverShows, OutputSink, PagerOf, PagerState, RunMode, init_core_with,
};
use std::alloc::Global;
use std::cell::Cell;
use std::rc::Rc;

/// A callback that notes that the page shows the end of the text.
#[derive(Drop)]
pub struct NotesEnd {
    is_at_end: Rc<Cell<bool>>,
}

impl HookCall for NotesEnd {
    fn call(&mut self, _state: &PagerState) {
        self.is_at_end.set(true);
    }
}

/// What a session of the program keeps.
pub type FetcherKinds = Kinds<NotesEnd, NeverCalled, NeverShows, DefaultInputClassifier>;

/// Shows the beginning of a text on a sink. Each move of the page to its end is noted in the cell.
///
/// # Errors
///
/// [`MinusError::Memory`], and those of [`init_core_with`].
pub fn page_beginning<S: OutputSink + Drop>(
    alloc: Global,
    sink: S,
    cols: usize,
    rows: usize,
    beginning: &str,
    is_at_end: Rc<Cell<bool>>,
) -> Result<Core<S, FetcherKinds>, MinusError>
    ensures text { IfOk result (λ session. (seen_of session).control.text ≡ beginning.now) }
    ensures hook { IfOk result (λ session. (seen_of session).kept.ids ≡ one_at_end) }
{
    let mut pager: PagerOf<FetcherKinds> = PagerOf::new(alloc);
    pager.push_str(beginning)?;
    pager.add_hook(Hook::EofReached, 0, NotesEnd { is_at_end })?;
    let keys = DefaultInputClassifier;
    let session = init_core_with(pager, RunMode::Dynamic, sink, cols, rows, keys)?;
    Ok(session)
}

/// Adds more text where the page has come to the end since the last call, and answers whether it has. A program calls
/// it after each step, with what it would fetch next.
///
/// # Errors
///
/// Those of [`Core::step`].
pub fn fetch<S: OutputSink + Drop, P: Calls>(
    session: &mut Core<S, P>,
    is_at_end: &Cell<bool>,
    more: String,
) -> Result<bool, MinusError>
    ensures { IfOk result (λ fetched.
        IsFetched fetched (seen_of session.old) (seen_of session.new) (string_bytes more)) }
{
    if !is_at_end.replace(false) {
        return Ok(false);
    }
    let _ = session.step(InputOf::Command(CommandOf::AppendData(more)))?;
    Ok(true)
}
