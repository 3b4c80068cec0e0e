//! A tool with a key of its own: it goes to a line of a report.
ghost use Rattle.std.specs.Prelude.{◌≡◌, IfOk};
ghost use Rattle.minus.specs.Core.{seen_of};
ghost use Rattle.minus_callers.specs.Report.{HasSummaryKey};
ghost use Rattle.minus_input.specs.EventTables.{register_of};

use minus::{
    ActionCall, Core, Event, EventTable, FixedSeed, InputEvent, Kinds, MinusError, NeverCalled,
    NeverShows, OutputSink, PagerOf, PagerState, RunMode, init_core_with,
};
use std::alloc::Global;

/// An action of a key: the page begins at this line, counted from 0, where the text has it.
#[derive(Clone, Copy, Drop)]
pub struct GoToLine {
    line: usize,
}

impl ActionCall for GoToLine {
    ghost use Rattle.minus_callers.specs.Report.{line_answer};

    ghost answers = { λ key event state answer. answer ≡ line_answer key.line state };

    fn ask(&self, _event: &Event, state: &PagerState) -> InputEvent {
        match state.line_first_row(self.line) {
            Some(row) => InputEvent::UpdateUpperMark(row),
            None => InputEvent::Ignore,
        }
    }
}

/// A register of bindings whose keys may have such actions.
pub type ReportKeys = EventTable<FixedSeed, GoToLine>;

/// What a session of the tool keeps: no condition is handed to it.
pub type ReportKinds = Kinds<NeverCalled, NeverCalled, NeverShows, ReportKeys>;

/// The default bindings, and the key `s`, which goes to the line of the summary.
///
/// # Errors
///
/// [`MinusError::Memory`] where there is no memory.
pub fn report_keys(alloc: Global, summary: usize) -> Result<ReportKeys, MinusError>
    ensures { IfOk result (λ keys. HasSummaryKey summary (register_of keys)) }
{
    let mut keys = ReportKeys::default_bindings(alloc)?;
    keys.add_described_key_events(&["s"], "go to the summary", GoToLine { line: summary })?;
    Ok(keys)
}

/// Shows the first page of a report on a sink; `s` goes to the line of its summary, counted from 0.
///
/// # Errors
///
/// Those of [`init_core_with`] and of [`report_keys`].
pub fn page_report<S: OutputSink + Drop>(
    alloc: Global,
    sink: S,
    cols: usize,
    rows: usize,
    report: &str,
    summary: usize,
) -> Result<Core<S, ReportKinds>, MinusError>
    ensures text { IfOk result (λ session. (seen_of session).control.text ≡ report.now) }
    ensures keys { IfOk result (λ session. HasSummaryKey summary (register_of (seen_of session).classifier)) }
{
    let mut pager: PagerOf<ReportKinds> = PagerOf::new(alloc);
    pager.push_str(report)?;
    let keys = report_keys(alloc, summary)?;
    let session = init_core_with(pager, RunMode::Static, sink, cols, rows, keys)?;
    Ok(session)
}
