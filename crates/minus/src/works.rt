//! How a session takes an input: what it asks for, the result of that, and how it is drawn.
//!
//! 1. While the search prompt is open its editor has a key, and any other input waits.
//! 2. Else an input becomes a request: a command as it is, an event by the classifier.
//! 3. What is registered is kept; an exit cleans the terminal up; of any other request an outcome is formed.
//! 4. The outcome is drawn into the buffer, put in its place, and written.
//! 5. The callbacks of the end are called, where the mark was moved there.
//!
//! So the key `j` becomes a move of the mark by a row, which is drawn as a scroll by that row.
ghost use Rattle.std.specs.Prelude.{◌≡◌, string_bytes};
ghost use Rattle.std.specs.Option.{option_map};
ghost use Rattle.minus_state.specs.States.{control_of};
ghost use Rattle.minus.specs.declared.status.Status.TheVariants as stands;

use crate::done::Done;
use crate::hooks::Hook;
use crate::input::{InputClassifier, InputEvent};
use crate::joined::JoinedAppends;
use crate::session::Core;
use crate::status::Status;
use crate::waiting::fed_event;
use minus_commands::callbacks::{call_due, end_hook, leave};
use minus_commands::commands::{CommandOf, InputOf};
use minus_commands::outcome::{Outcome, outcome_of};
use minus_commands::parts::{Calls, set_help};
use minus_commands::registration::{Handed, exit_of, keep_handed};
use minus_commands::request::Request;
use minus_term::{Event, MinusError, OutputSink, cleanup};

impl<S: OutputSink + Drop, P: Calls> Core<S, P> {
    ghost use Rattle.std.specs.Prelude.{◌≤◌, ◌<◌, is_some, true, option_map, None, Some, OnOk, OnErr, IfOk, IfErr};
    ghost use Rattle.std.specs.VecDeque.{deque_len};
    ghost use Rattle.minus_term.specs.Refusals.{refusal_of};
    ghost use Rattle.minus.specs.Waiting.{checked_as};
    ghost use Rattle.minus_commands.specs.Callbacks.{callbacks_of, with_handed, KeepsOfInput, IsDue, CallsHook, CallsExit};
    ghost use Rattle.minus.specs.SessionCallbacks.{CallsOutcome, CallsRequest, CallsWorked, CallsTaken, CallsUntaken, exit_in};
    ghost use Rattle.minus.specs.Core.{seen_of};
    ghost use Rattle.minus_commands.specs.Outcomes.{LeadsClamped};
    ghost use Rattle.minus.specs.Works.{IsTakenBy};
    ghost use Rattle.minus_commands.specs.Reads.{an_event, told_of, wanted_by, handing_of};
    ghost use Rattle.minus.specs.Says.{says_of};
    ghost use Rattle.minus.specs.SessionSteps.{IsAsked, IsTakenOf, IsUntakenOf, IsTakenWithOf, IsUntakenWithOf};
    ghost use Rattle.minus.specs.TakenParts.{IsOutcomeTaken, IsOutcomeUntaken, IsHandingTaken, IsHandingUntaken};
    ghost use Rattle.minus.specs.TakenParts.{IsExitTaken, IsExitUntaken, IsTakenAs, IsUntakenAs};
    ghost use Rattle.minus.specs.TakenParts.{AreJoinedTaken, AreJoinedUntaken};
    ghost use Rattle.minus.specs.RefusedSteps.{IsSinkFault};
    ghost use Rattle.minus_commands.specs.Table.{hook_after};
    ghost use Rattle.minus_draw.specs.Drawn.{Work};

    // The request that an input is, for an event by the classifier's answer, and whether the typed prefix goes with it.
    fn resolve(&self, input: InputOf<P>) -> Result<(Request<P>, bool), MinusError>
        ensures asked { IfOk result (λ r.
            IsAsked (says_of P.Condition.judges P.Classifier.says) self.now (told_of input) (wanted_by r.0) r.1) }
        ensures keeps { IfOk result (λ r. KeepsOfInput input r.0) }
        ensures due { IfOk result (λ r. IsDue input (seen_of self.now).control
            (hook_after (seen_of self.now).control (wanted_by r.0))) }
        ensures memory { IfErr result (λ e. e ≡ MinusError.Memory) }
    {
        match input {
            InputOf::Command(command) => {
                let mut request = Request::of_command(command);
                set_help(&self.parts, self.alloc, &mut request)?;
                Ok((request, false))
            }
            InputOf::Event(event) => {
                let answer = self
                    .parts
                    .classifier
                    .classify_input(event, &self.parts.state);
                let answer = answer.unwrap_or(InputEvent::Ignore);
                let mut request = Request::of_event(answer);
                set_help(&self.parts, self.alloc, &mut request)?;
                Ok((request, answer.clears_prefix()))
            }
        }
    }

    // Calls the callbacks of a hook, if one is given.
    fn call_hook(&mut self, hook: Option<Hook>)
        ensures seen { seen_of self.new ≡ seen_of self.old }
        ensures sink { self.new.sink ≡ self.old.sink }
        ensures waiting { self.new.waiting ≡ self.old.waiting }
        ensures called { CallsHook hook (callbacks_of self.old.parts) (callbacks_of self.new.parts) }
    {
        call_due(&mut self.parts, hook);
    }

    // Applies the result of an input that does not exit, writes what was drawn, and then calls the callbacks of the
    // end, if the mark was moved and the page shows it. A refusal of the sink fails the session.
    fn change(&mut self, outcome: Outcome) -> Result<Done, MinusError>
        requires running { self.old.status ≡ stands.Running }
        requires leads { LeadsClamped (control_of self.old.parts.state) outcome.change }
        ensures taken { IfOk result (λ t.
            IsOutcomeTaken S.seen (says_of P.Condition.judges P.Classifier.says) self.old outcome self.new t) }
        ensures refused { IfErr result (λ e.
            IsOutcomeUntaken S.seen (says_of P.Condition.judges P.Classifier.says) self.old outcome self.new e) }
        ensures waiting { self.new.waiting ≡ self.old.waiting }
        ensures called { OnOk result (CallsOutcome outcome self.old self.new) }
        ensures uncalled { OnErr result (callbacks_of self.new.parts ≡ callbacks_of self.old.parts) }
        ensures goes_on { IfOk result (λ t. exit_in t ≡ None) }
    {
        let is_move = outcome.moves_to.is_some();
        let copied = self.apply(outcome)?;
        self.write_drawing()?;
        let hook = end_hook(is_move, &self.parts.state);
        self.call_hook(hook);
        Ok(Done::On(copied))
    }

    // Keeps what is registered.
    fn take_handed(&mut self, handed: Handed<P>) -> Result<Done, MinusError>
        requires running { self.old.status ≡ stands.Running }
        requires closed { (control_of self.old.parts.state).search ≡ None }
        ensures taken { IfOk result (λ t. IsHandingTaken S.seen (says_of P.Condition.judges P.Classifier.says)
            self.old (handing_of handed) self.new t) }
        ensures refused { IfErr result (λ e. IsHandingUntaken S.seen (says_of P.Condition.judges P.Classifier.says)
            self.old (handing_of handed) self.new e) }
        ensures waiting { self.new.waiting ≡ self.old.waiting }
        ensures callbacks { OnOk result (callbacks_of self.new.parts
            ≡ with_handed (callbacks_of self.old.parts) handed) }
        ensures uncalled { OnErr result (callbacks_of self.new.parts ≡ callbacks_of self.old.parts) }
        ensures goes_on { IfOk result (λ t. exit_in t ≡ None) }
    {
        keep_handed(&mut self.parts, handed)?;
        Ok(Done::On(None))
    }

    // Calls what is called at an exit, cleans the terminal up, and ends the session; the typed prefix goes, or stays,
    // and nothing waits any more. A refusal fails the session.
    fn exit(&mut self, prefix: Option<String>) -> Result<Done, MinusError>
        requires running { self.old.status ≡ stands.Running }
        requires closed { (control_of self.old.parts.state).search ≡ None }
        ensures taken { IfOk result (λ t. IsExitTaken S.seen (says_of P.Condition.judges P.Classifier.says)
            self.old (option_map string_bytes prefix) self.new t) }
        ensures refused { IfErr result (λ e. IsExitUntaken S.seen (says_of P.Condition.judges P.Classifier.says)
            self.old (option_map string_bytes prefix) self.new e) }
        ensures fewer { deque_len self.new.waiting ≤ deque_len self.old.waiting }
        ensures called { OnOk result (CallsExit (callbacks_of self.old.parts) (callbacks_of self.new.parts)) }
        ensures uncalled { IfErr result (λ e. CallsUntaken (refusal_of e) self.old self.new) }
        ensures sink_alone { IfErr result (λ e. IsSinkFault (refusal_of e)) }
        ensures exits { IfOk result (λ t. is_some (exit_in t) ≡ true) }
    {
        leave(&mut self.parts, prefix);
        if let Err(cause) = cleanup(&mut self.sink, true) {
            self.status = Status::Failed;
            return Err(MinusError::Cleanup(cause));
        }
        self.status = Status::Ended;
        self.let_none_wait();
        self.call_hook(Some(Hook::PostPagerExit));
        let (strategy, code) = exit_of(&self.parts);
        Ok(Done::Exit(strategy, code))
    }

    // Performs a request: keeps what is registered, or forms its result, and applies that, or exits. The typed
    // prefix goes, or stays.
    fn execute(&mut self, request: Request<P>, clears_prefix: bool) -> Result<Done, MinusError>
        requires running { self.old.status ≡ stands.Running }
        requires closed { (control_of self.old.parts.state).search ≡ None }
        ensures taken { IfOk result (λ t. IsTakenAs S.seen (says_of P.Condition.judges P.Classifier.says)
            self.old (wanted_by request) clears_prefix self.new t) }
        ensures refused { IfErr result (λ e. IsUntakenAs S.seen (says_of P.Condition.judges P.Classifier.says)
            self.old (wanted_by request) clears_prefix self.new e) }
        ensures fewer { deque_len self.new.waiting ≤ deque_len self.old.waiting }
        ensures called { IfOk result (λ t. CallsRequest (exit_in t) request self.old self.new) }
        ensures uncalled { IfErr result (λ e. CallsUntaken (refusal_of e) self.old self.new) }
    {
        if let Request::HandOver(handed) = request {
            return self.take_handed(handed);
        }
        let mut outcome = outcome_of(&self.parts.state, self.alloc, request, clears_prefix)?;
        if outcome.exits {
            return self.exit(outcome.change.prefix.take());
        }
        self.change(outcome)
    }

    // Performs an input, with no search prompt open.
    fn perform(&mut self, input: InputOf<P>) -> Result<Done, MinusError>
        requires running { self.old.status ≡ stands.Running }
        requires closed { (control_of self.old.parts.state).search ≡ None }
        ensures taken { IfOk result (λ t.
            IsTakenOf S.seen (says_of P.Condition.judges P.Classifier.says) self.old (told_of input) self.new t) }
        ensures refused { IfErr result (λ e.
            IsUntakenOf S.seen (says_of P.Condition.judges P.Classifier.says) self.old (told_of input) self.new e) }
        ensures fewer { deque_len self.new.waiting ≤ deque_len self.old.waiting }
        ensures called { IfOk result (λ t. CallsWorked (exit_in t) input self.old self.new) }
        ensures uncalled { IfErr result (λ e. CallsUntaken (refusal_of e) self.old self.new) }
    {
        let (request, clears_prefix) = self.resolve(input)?;
        let taken = self.execute(request, clears_prefix)?;
        Ok(taken)
    }

    // The result of a key of the search prompt that is open.
    fn keyed(&self, event: &Event) -> Result<Outcome, MinusError>
        requires searching { is_some (control_of self.now.parts.state).search ≡ true }
        requires fed { checked_as {Q = P.Condition} {K = P.Classifier} (an_event event.now) ≡ None }
        ensures leads { IfOk result (λ o. LeadsClamped (control_of self.now.parts.state) o.change) }
        ensures taken { IfOk result (λ o. (work : Work) × IsTakenBy (says_of P.Condition.judges P.Classifier.says)
            (seen_of self.now) (an_event event.now) o work) }
        ensures refused { IfErr result (λ e. IsUntakenOf S.seen (says_of P.Condition.judges P.Classifier.says)
            self.now (an_event event.now) self.now e) }
        ensures still { IfOk result (λ o. o.moves_to ≡ None) }
    {
        let condition = self.parts.condition.as_ref();
        let change = self.parts.state.keyed(self.alloc, condition, event)?;
        let outcome = Outcome::of(change);
        Ok(outcome)
    }

    // Edits the query of the open search prompt by an event, or closes the prompt, and draws what has changed.
    fn edit(&mut self, event: Event) -> Result<Done, MinusError>
        requires running { self.old.status ≡ stands.Running }
        requires searching { is_some (control_of self.old.parts.state).search ≡ true }
        requires fed { checked_as {Q = P.Condition} {K = P.Classifier} (an_event event) ≡ None }
        ensures taken { IfOk result (λ t.
            IsTakenOf S.seen (says_of P.Condition.judges P.Classifier.says) self.old (an_event event) self.new t) }
        ensures refused { IfErr result (λ e.
            IsUntakenOf S.seen (says_of P.Condition.judges P.Classifier.says) self.old (an_event event) self.new e) }
        ensures callbacks { callbacks_of self.new.parts ≡ callbacks_of self.old.parts }
    {
        let outcome = self.keyed(&event)?;
        self.change(outcome)
    }

    // Takes an input while the search prompt is open: its editor has it, or it waits.
    fn take_searching(&mut self, input: InputOf<P>) -> Result<Done, MinusError>
        requires running { self.old.status ≡ stands.Running }
        requires searching { is_some (control_of self.old.parts.state).search ≡ true }
        ensures taken { IfOk result (λ t.
            IsTakenOf S.seen (says_of P.Condition.judges P.Classifier.says) self.old (told_of input) self.new t) }
        ensures refused { IfErr result (λ e.
            IsUntakenOf S.seen (says_of P.Condition.judges P.Classifier.says) self.old (told_of input) self.new e) }
        ensures callbacks { callbacks_of self.new.parts ≡ callbacks_of self.old.parts }
    {
        match fed_event(&input) {
            Some(event) => self.edit(event),
            None => self.wait(input),
        }
    }

    // Performs appends in one go, the first of which was taken from those that wait: if memory runs out the others
    // wait still.
    fn take_joined(&mut self, joined: JoinedAppends) -> Result<Done, MinusError>
        requires running { self.old.status ≡ stands.Running }
        requires closed { (control_of self.old.parts.state).search ≡ None }
        ensures taken { IfOk result (λ t.
            AreJoinedTaken S.seen (says_of P.Condition.judges P.Classifier.says) self.old joined self.new t) }
        ensures refused { IfErr result (λ e.
            AreJoinedUntaken S.seen (says_of P.Condition.judges P.Classifier.says) self.old joined self.new e) }
        ensures fewer { deque_len self.new.waiting ≤ deque_len self.old.waiting }
    {
        let JoinedAppends { text, count } = joined;
        match self.perform(InputOf::Command(CommandOf::AppendData(text))) {
            Ok(taken) => {
                self.let_go(count);
                Ok(taken)
            }
            Err(refusal) => {
                if self.status.is_running() {
                    return Err(refusal);
                }
                self.let_go(count);
                Err(refusal)
            }
        }
    }

    // Takes the next of those that waited, with no search prompt open: the appends behind it go with it, where they may
    // be performed in one go.
    pub(crate) fn take_next(&mut self, input: InputOf<P>) -> Result<Done, MinusError>
        requires running { self.old.status ≡ stands.Running }
        requires closed { (control_of self.old.parts.state).search ≡ None }
        ensures taken { IfOk result (λ t.
            IsTakenWithOf S.seen (says_of P.Condition.judges P.Classifier.says) self.old (told_of input) self.new t) }
        ensures refused { IfErr result (λ e.
            IsUntakenWithOf S.seen (says_of P.Condition.judges P.Classifier.says) self.old (told_of input) self.new e) }
        ensures fewer { deque_len self.new.waiting ≤ deque_len self.old.waiting }
    {
        match self.appends_behind(&input) {
            Some(joined) => self.take_joined(joined),
            None => self.perform(input),
        }
    }

    // Takes one input: with no search prompt open it is performed.
    pub(crate) fn take(&mut self, input: InputOf<P>) -> Result<Done, MinusError>
        requires running { self.old.status ≡ stands.Running }
        ensures taken { IfOk result (λ t.
            IsTakenOf S.seen (says_of P.Condition.judges P.Classifier.says) self.old (told_of input) self.new t) }
        ensures refused { IfErr result (λ e.
            IsUntakenOf S.seen (says_of P.Condition.judges P.Classifier.says) self.old (told_of input) self.new e) }
        ensures fewer { (control_of self.old.parts.state).search ≡ None →
            deque_len self.new.waiting ≤ deque_len self.old.waiting }
        ensures called { IfOk result (λ t. CallsTaken self.old input self.new (exit_in t)) }
        ensures uncalled { IfErr result (λ e. CallsUntaken (refusal_of e) self.old self.new) }
    {
        if self.is_searching() {
            return self.take_searching(input);
        }
        self.perform(input)
    }
}
