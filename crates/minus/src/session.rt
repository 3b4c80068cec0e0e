//! A session: a pager over a sink.
ghost use Rattle.std.specs.Prelude.{◌≡◌, string_bytes};
ghost use Rattle.minus_state.specs.ClampedMark.{IsClamped};
ghost use Rattle.minus_state.specs.ShownPrompt.{prompt_row as row_shown};
ghost use Rattle.minus_state.specs.States.{control_of, IsFormed};
ghost use Rattle.minus.specs.declared.status.Status.TheVariants as stands;

use crate::answer::Answer;
use crate::done::Done;
use crate::state::{PagerState, RunMode};
use crate::status::Status;
use crate::waiting::last_of;
use minus_commands::commands::InputOf;
use minus_commands::parts::{Boxes, Calls, Parts, PartsOf};
use minus_draw::page::{Page, page_of};
use minus_term::{CleanupError, MinusError, OutputSink, cleanup};
use std::alloc::Global;
use std::collections::VecDeque;

/// A pager over a sink, generic in what it keeps of its caller's.
pub struct Core<S, P: Parts> {
    pub(crate) alloc: Global,
    pub(crate) sink: S,
    pub(crate) parts: PartsOf<P>,
    pub(crate) prompt_row: String,
    pub(crate) drawing: Vec<u8>,
    pub(crate) waiting: VecDeque<InputOf<P>>,
    pub(crate) mode: RunMode,
    pub(crate) status: Status,
    ghost formed: { IsFormed parts.state },
    ghost clamped: { IsClamped (control_of parts.state) },
    ghost prompted: { status ≡ stands.Running → string_bytes prompt_row
        ≡ row_shown (control_of parts.state) },
}

// Hand-written: a derived drop would stand again in the proof of each function that lets one go.
impl<S: Drop, P: Parts> Drop for Core<S, P> {
    fn drop(self) {
        let Core {
            alloc: _,
            sink: _,
            parts: _,
            prompt_row: _,
            drawing: _,
            waiting: _,
            mode: _,
            status: _,
        } = self;
    }
}

/// A pager over a sink that keeps what its caller boxes, or a register of bindings, the default one at first.
pub type Session<S> = Core<S, Boxes>;

impl<S, P: Parts> Core<S, P> {
    ghost use Rattle.std.specs.Prelude.{map, IfOk, IfErr};
    ghost use Rattle.minus_state.specs.Page.{page};
    ghost use Rattle.minus.specs.Core.{seen_of};
    ghost use Rattle.minus.specs.Steps.{mode_told};

    /// The state: what its screen answers is the document of the displayed text.
    pub fn state(&self) -> &PagerState
        ensures same { result.now ≡ self.now.parts.state }
        ensures control { control_of result.now ≡ (seen_of self.now).control }
        ensures formed { IsFormed result.now }
    {
        &self.parts.state
    }

    /// What decides about its events.
    pub fn classifier(&self) -> &P::Classifier
        ensures { result.now ≡ self.now.parts.classifier }
    {
        &self.parts.classifier
    }

    /// The mode that the session was started in; `Uninitialized` after an exit or a failure.
    pub fn mode(&self) -> RunMode
        ensures { result ≡ mode_told (seen_of self.now) }
    {
        match self.status {
            Status::Running => self.mode,
            Status::Ended | Status::Failed => RunMode::Uninitialized,
        }
    }

    /// The page that the commands define.
    ///
    /// # Errors
    ///
    /// [`MinusError::Memory`] where there is no memory for its texts.
    pub fn page(&self) -> Result<Page, MinusError>
        ensures rows { IfOk result (λ p. map string_bytes p.rows.items ≡ (page (seen_of self.now).control).texts) }
        ensures cursor { IfOk result (λ p. p.cursor ≡ (page (seen_of self.now).control).cursor) }
        ensures memory { IfErr result (λ e. e ≡ MinusError.Memory) }
    {
        page_of(self.alloc, &self.parts.state)
    }

    /// Makes room for this number of bytes of text more, so that a program that knows how much it appends takes the
    /// memory for it once. The session stays as it is, in each status, whether there is room or not; nothing is
    /// written. The room goes where the text is formed again: at another text, another size, numbers or wrapping, and
    /// as help is opened or left.
    ///
    /// # Errors
    ///
    /// [`MinusError::Memory`] where there is no memory for it.
    pub fn reserve(&mut self, bytes: usize) -> Result<(), MinusError>
        ensures seen { seen_of self.new ≡ seen_of self.old }
        ensures sink { self.new.sink ≡ self.old.sink }
        ensures memory { IfErr result (λ e. e ≡ MinusError.Memory) }
    {
        self.parts.state.reserve(bytes)
    }
}

impl<S: OutputSink + Drop, P: Calls> Core<S, P> {
    ghost use Rattle.std.specs.Prelude.{◌<◌, ◌↔◌, [], None, Some, OnOk, OnErr, IfOk, IfErr, IsOk, IsErrOf};
    ghost use Rattle.std.specs.Io.KnownBytes.{Appends};
    ghost use Rattle.minus_term.specs.Counts.{Stays, Rises};
    ghost use Rattle.minus_term.specs.Terminal.{CleanupBreaksOff};
    ghost use Rattle.minus_term.specs.Refusals.{refusal_of};
    ghost use Rattle.minus.specs.SessionCallbacks.{CallsTaken, CallsUntaken};
    ghost use Rattle.minus.specs.Core.{seen_of};
    ghost use Rattle.minus_commands.specs.Reads.{told_of};
    ghost use Rattle.minus.specs.Says.{says_of};
    ghost use Rattle.minus.specs.SessionSteps.{IsStepOf, IsRefusedStepOf};
    ghost use Rattle.minus.specs.Steps.{cleanup_after};

    /// Performs an input, and draws what has changed. An event that types nothing lets the typed prefix go; a command
    /// leaves it. A prompt row that is another one than before is drawn after what the command asks for.
    ///
    /// While the search prompt is open each other event is a key of it: it edits the query or moves its cursor, and the
    /// page shows where the query leads, or it closes the prompt, with the query taken or not. A command, or a new
    /// size, waits. Once the prompt is closed, what waits is performed in its order, until a prompt is open again or
    /// the session exits, which lets the rest go. What cannot be done does not wait; where it cannot be done once it is
    /// performed, it is skipped, and its refusal is answered.
    ///
    /// # Errors
    ///
    /// [`MinusError::Failed`] where the sink refused before, and [`MinusError::Ended`] where the session has exited.
    /// [`MinusError::NewlineInPrompt`] where a prompt or a message has a newline, [`MinusError::BadSize`] where a size
    /// is asked for whose columns or rows are not from 1 to 65,535, [`MinusError::QueryFull`] where a key types a
    /// character to a query of 65,534 characters, and [`MinusError::Memory`] where there is no memory: nothing has
    /// changed then, and nothing was written. Where there is no memory for an input that waited, or for its refusal,
    /// the session has failed. [`MinusError::Draw`] and, at an exit, [`MinusError::Cleanup`] where the sink refuses a
    /// write or the flush, or takes nothing: a beginning of the bytes was written, and the session has failed.
    pub fn step(&mut self, input: InputOf<P>) -> Result<Answer, MinusError>
        ensures step { IfOk result (λ a.
            IsStepOf S.seen (says_of P.Condition.judges P.Classifier.says) self.old (told_of input) self.new a) }

        // The callbacks, where nothing waited.
        ensures called { IfOk result (λ a. (seen_of self.old).waiting ≡ [] →
            CallsTaken self.old input self.new a.exited) }
        ensures uncalled { IfErr result (λ e. (seen_of self.old).waiting ≡ [] →
            CallsUntaken (refusal_of e) self.old self.new) }

        // A refusal: what it leaves, and when it comes.
        ensures refused { IfErr result (λ e.
            IsRefusedStepOf S.seen (says_of P.Condition.judges P.Classifier.says) self.old
            (told_of input) self.new e) }
        ensures failed { IsErrOf result MinusError.Failed ↔ ((seen_of self.old).status ≡ stands.Failed) }
        ensures ended { IsErrOf result MinusError.Ended ↔ ((seen_of self.old).status ≡ stands.Ended) }
    {
        match self.status {
            Status::Running => {}
            Status::Ended => return Err(MinusError::Ended),
            Status::Failed => return Err(MinusError::Failed),
        }
        let first = self.take(input)?;
        let mut refused = Vec::new(self.alloc);
        let mut copied = match first {
            Done::On(text) => text,
            Done::Exit(strategy, code) => {
                return Ok(Answer::of_step(Some((strategy, code)), None, refused));
            }
        };
        while let Some(next) = self.next_waiting() {
            match self.take_next(next) {
                Ok(Done::On(text)) => copied = last_of(copied, text),
                Ok(Done::Exit(strategy, code)) => {
                    return Ok(Answer::of_step(Some((strategy, code)), copied, refused));
                }
                Err(refusal) => self.pass_over(&mut refused, refusal)?,
            }
        }
        Ok(Answer::of_step(None, copied, refused))
    }

    /// Ends the session and hands its sink back. Unless it has exited, the terminal is cleaned up first, also where the
    /// session has failed.
    ///
    /// # Errors
    ///
    /// The part of the cleanup that the sink refused: a beginning of the cleanup was written.
    pub fn finish(self) -> (S, Result<(), CleanupError>)
        ensures ended { (seen_of self).status ≡ stands.Ended → (result.0 ≡ self.sink) × IsOk result.1 }
        ensures ok { OnOk result.1 (Appends (S.seen self.sink).bytes (S.seen result.0).bytes
            (cleanup_after (seen_of self).status)) }
        ensures stays { OnOk result.1 (Stays (S.seen self.sink).refusals (S.seen result.0).refusals) }
        ensures broken { IfErr result.1 (λ e. CleanupBreaksOff e (S.seen self.sink).bytes (S.seen result.0).bytes) }
        ensures rises { OnErr result.1 (Rises (S.seen self.sink).refusals (S.seen result.0).refusals) }
    {
        let needs_cleanup = self.status.needs_cleanup();
        let Core {
            alloc: _,
            mut sink,
            parts: _,
            prompt_row: _,
            drawing: _,
            waiting: _,
            mode: _,
            status: _,
        } = self;
        let cleaned = cleanup(&mut sink, needs_cleanup);
        (sink, cleaned)
    }
}
