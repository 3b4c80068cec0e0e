//! What a session draws: the drawing of a change in its buffer, and the write of that to the sink.
ghost use Rattle.std.specs.Prelude.{◌≡◌, string_bytes};
ghost use Rattle.std.specs.Option.{option_map, unwrap_or};
ghost use Rattle.minus_state.specs.States.{control_of};
ghost use Rattle.minus.specs.declared.status.Status.TheVariants as stands;

use crate::session::Core;
use crate::status::Status;
use minus_commands::outcome::Outcome;
use minus_commands::parts::Parts;
use minus_draw::drawings::{Drawing, push_step};
use minus_state::change::Change;
use minus_term::{MinusError, OutputSink, draw_bytes};

// The prompt row: a new one, or the one that is kept.
fn row_of<'a>(new: &'a Option<String>, kept: &'a str) -> &'a str
    ensures { result.now ≡ unwrap_or (option_map string_bytes new.now) kept.now }
{
    match new {
        Some(row) => row.as_str(),
        None => kept,
    }
}

// Puts a value in the place of the one that is kept, if there is one.
fn keep<T: Drop>(kept: &mut T, new: Option<T>)
    ensures { kept.new ≡ unwrap_or new kept.old }
{
    if let Some(new) = new {
        *kept = new;
    }
}

impl<S, P: Parts> Core<S, P> {
    ghost use Rattle.std.specs.Prelude.{OnOk, OnErr, IfOk, IfErr};
    ghost use Rattle.minus_state.specs.Changes.{IsFormedFor};
    ghost use Rattle.minus_state.specs.Page.{page};
    ghost use Rattle.minus_state.specs.Sizes.{IsSize};
    ghost use Rattle.minus_commands.specs.Callbacks.{callbacks_of};
    ghost use Rattle.minus.specs.Core.{seen_of};
    ghost use Rattle.minus_commands.specs.Outcomes.{LeadsClamped};
    ghost use Rattle.minus.specs.SessionDrawings.{DrawsWithRow, DrawsChange, PutsChange};

    // Draws the page that a change leads to into the buffer of drawings: its prompt row is this one, or else the one
    // drawn last.
    fn draw(&mut self, change: &Change, row: &Option<String>) -> Result<(), MinusError>
        requires belongs { IsFormedFor self.old.parts.state change.now }
        requires running { self.old.status ≡ Status.Running }
        ensures drawn { OnOk result (DrawsWithRow self.old change.now (option_map string_bytes row.now) self.new) }
        ensures rest { self.new ≡ record self.old { drawing = self.new.drawing } }
        ensures memory { IfErr result (λ e. e ≡ MinusError.Memory) }
    {
        self.drawing.clear();
        let kept = self.prompt_row.as_str();
        let prompt = row_of(row, kept);
        let state = &self.parts.state;
        let drawing = Drawing::of(state, change);
        push_step(
            state,
            self.alloc,
            &mut self.drawing,
            drawing,
            change,
            prompt,
            kept,
        )?;
        Ok(())
    }

    // Draws the result of a request into the buffer, and puts it in its place. Answers the text that it copies, if it
    // copies one. An `Err` changes nothing.
    pub(crate) fn apply(&mut self, mut outcome: Outcome) -> Result<Option<String>, MinusError>
        requires running { self.old.status ≡ Status.Running }
        requires leads { LeadsClamped (control_of self.old.parts.state) outcome.change }
        ensures done { OnOk result (PutsChange self.old outcome.change self.new) }
        ensures drawn { OnOk result (DrawsChange self.old outcome.change self.new) }
        ensures copied { IfOk result (λ text. text ≡ outcome.copied) }
        ensures size { OnOk result (IsSize self.new.parts.state.cols self.new.parts.state.rows) }
        ensures sink { self.new.sink ≡ self.old.sink }
        ensures waiting { self.new.waiting ≡ self.old.waiting }
        ensures callbacks { callbacks_of self.new.parts ≡ callbacks_of self.old.parts }
        ensures err { OnErr result (seen_of self.new ≡ seen_of self.old) }
        ensures memory { IfErr result (λ e. e ≡ MinusError.Memory) }
    {
        let copied = outcome.copied.take();
        let change = outcome.into_change();
        let row = self.parts.state.new_prompt_row(self.alloc, &change)?;
        self.draw(&change, &row)?;
        self.parts.state.place(self.alloc, change)?;
        keep(&mut self.prompt_row, row);
        Ok(copied)
    }
}

impl<S: OutputSink, P: Parts> Core<S, P> {
    ghost use Rattle.std.specs.Prelude.{◌<◌, ◌==◌, length, OnOk, OnErr, IfErr, if◌then◌else◌};
    ghost use Rattle.std.specs.Io.KnownBytes.{Appends};
    ghost use Rattle.minus_commands.specs.Callbacks.{callbacks_of};
    ghost use Rattle.minus_term.specs.Counts.{AppendsFront, Stays, Rises, RisesBy};
    ghost use Rattle.minus_term.specs.Refusals.{refusal_of, at_drawing};
    ghost use Rattle.minus.specs.Core.{seen_of};

    // Writes what was drawn. A refusal of the sink fails the session.
    pub(crate) fn write_drawing(&mut self) -> Result<(), MinusError>
        ensures ok { OnOk result (Appends (S.seen self.old.sink).bytes (S.seen self.new.sink).bytes
            self.old.drawing.items) }
        ensures stays { OnOk result (Stays (S.seen self.old.sink).refusals (S.seen self.new.sink).refusals) }
        ensures rest { OnOk result (self.new ≡ record self.old { sink = self.new.sink }) }
        ensures front { OnErr result (AppendsFront (S.seen self.old.sink).bytes (S.seen self.new.sink).bytes
            self.old.drawing.items) }
        ensures some { OnErr result (0 < length self.old.drawing.items) }
        ensures rises { OnErr result (Rises (S.seen self.old.sink).refusals (S.seen self.new.sink).refusals) }
        ensures fails { OnErr result (seen_of self.new ≡ record (seen_of self.old) { status = stands.Failed }) }
        ensures waiting { self.new.waiting ≡ self.old.waiting }
        ensures cause { IfErr result (λ e. refusal_of e ≡ at_drawing) }
        ensures callbacks { callbacks_of self.new.parts ≡ callbacks_of self.old.parts }
        ensures settled { OnOk result (RisesBy (S.seen self.old.sink).settles (S.seen self.new.sink).settles
            (if length self.old.drawing.items == 0 then 0 else 1)) }
    {
        if self.drawing.is_empty() {
            return Ok(());
        }
        if let Err(cause) = draw_bytes(&mut self.sink, &self.drawing) {
            self.status = Status::Failed;
            return Err(MinusError::Draw(cause));
        }
        Ok(())
    }
}
