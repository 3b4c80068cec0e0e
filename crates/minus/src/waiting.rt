//! Inputs that wait while the search prompt is open, and their refusals.
ghost use Rattle.std.specs.Prelude.{◌≡◌, ◌≤◌, true, is_some, Some, None, drop, option_map, string_bytes};
ghost use Rattle.std.specs.Prelude.{OnOk, IfErr, IfSome, IfNone};
ghost use Rattle.std.specs.VecDeque.{deque_len};
ghost use Rattle.minus_term.specs.Refusals.{refusal_of};
ghost use Rattle.minus.specs.Waiting.{checked_as};
ghost use Rattle.minus_commands.specs.Reads.{an_event, told_of};
ghost use Rattle.minus.specs.declared.status.Status.TheVariants as stands;
ghost use Rattle.minus.specs.Steps.{is_passed};
ghost use Rattle.minus_commands.specs.Table.{Wanted, IsPossible, IsFault};
ghost use Rattle.minus.specs.Works.{last_copied};

use crate::done::Done;
use crate::joined::{JoinedAppends, joined_behind};
use crate::session::Core;
use crate::status::Status;
use minus_commands::commands::InputOf;
use minus_commands::parts::Parts;
use minus_commands::request::{check_command, check_size};
use minus_term::{Event, MinusError};
use std::collections::VecDeque;

// The text that was copied last.
pub(crate) fn last_of(before: Option<String>, text: Option<String>) -> Option<String>
    ensures { option_map string_bytes result
        ≡ last_copied (option_map string_bytes before) (option_map string_bytes text) }
{
    match text {
        Some(text) => Some(text),
        None => before,
    }
}

// Whether an input that is to wait can be done.
fn check<P: Parts>(input: &InputOf<P>) -> Result<(), MinusError>
    ensures ok { OnOk result ((wanted : Wanted P.Condition P.Classifier) →
        checked_as (told_of input.now) ≡ Some wanted → IsPossible wanted) }
    ensures err { IfErr result (λ e. (wanted : Wanted P.Condition P.Classifier) →
        checked_as (told_of input.now) ≡ Some wanted → IsFault (refusal_of e) wanted) }
{
    match input {
        InputOf::Command(command) => check_command(command),
        InputOf::Event(Event::Resize(cols, rows)) => {
            check_size(usize::from(*cols), usize::from(*rows))
        }
        InputOf::Event(_) => Ok(()),
    }
}

// The event that goes to the editor of an open search prompt, if an input is one.
pub(crate) fn fed_event<P: Parts>(input: &InputOf<P>) -> Option<Event>
    ensures fed { IfSome result (λ event. told_of input.now ≡ an_event event) }
    ensures alone { IfSome result (λ event. checked_as (told_of input.now) ≡ None) }
    ensures waits { IfNone result (is_some (checked_as (told_of input.now)) ≡ true) }
{
    match input {
        InputOf::Command(_) | InputOf::Event(Event::Resize(..)) => None,
        InputOf::Event(event) => Some(*event),
    }
}

// Whether an input that waited is skipped for a refusal: what it asks for cannot be done.
fn is_passed(refusal: &MinusError) -> bool
    ensures { result ≡ is_passed (refusal_of refusal.now) }
{
    match refusal {
        MinusError::NewlineInPrompt | MinusError::BadSize(..) => true,
        MinusError::HookIdTaken(..) | MinusError::NoFreeHookId => true,
        MinusError::BadDescription(..) | MinusError::Bound(..) => true,
        MinusError::QueryFull | MinusError::BadMode | MinusError::SearchExpError(..) => true,
        _ => false,
    }
}

// Lets this many of the first in a queue go.
fn let_first_go<T: Drop>(queue: &mut VecDeque<T>, count: usize)
    ensures items { queue.new.items ≡ drop count queue.old.items }
    ensures fewer { deque_len queue.new ≤ deque_len queue.old }
{
    for _ in 0..count {
        let _ = queue.pop_front();
    }
}

impl<S, P: Parts> Core<S, P> {
    ghost use Rattle.std.specs.Prelude.{◌+◌, ◌∷◌, ◌++◌, []};
    ghost use Rattle.std.specs.Prelude.{OnErr, IfOk};
    ghost use Rattle.minus_commands.specs.Callbacks.{callbacks_of};
    ghost use Rattle.minus.specs.Core.{seen_of};
    ghost use Rattle.minus.specs.Joined.{MayGoWith};
    ghost use Rattle.minus.specs.SessionSteps.{IsKept, IsNotKept, IsNotPassed};
    ghost use Rattle.minus.specs.Waiting.{IsNext, leaving, IsAtRest};

    // Whether the search prompt is open.
    pub(crate) fn is_searching(&self) -> bool
        ensures { result ≡ is_some (seen_of self.now).control.search }
    {
        self.parts.state.open_search().is_some()
    }

    // Lets an input wait for the search prompt to close.
    pub(crate) fn wait(&mut self, input: InputOf<P>) -> Result<Done, MinusError>
        requires waits { is_some (checked_as (told_of input)) ≡ true }
        ensures kept { IfOk result (λ t. IsKept self.old (told_of input) self.new t) }
        ensures refused { IfErr result (λ e. IsNotKept self.old (told_of input) self.new e) }
        ensures callbacks { callbacks_of self.new.parts ≡ callbacks_of self.old.parts }
    {
        check(&input)?;
        if self.waiting.push_back(input).is_err() {
            return Err(MinusError::Memory);
        }
        Ok(Done::On(None))
    }

    // Lets no input wait any more.
    pub(crate) fn let_none_wait(&mut self)
        ensures seen { seen_of self.new ≡ record (seen_of self.old) { waiting = [] } }
        ensures sink { self.new.sink ≡ self.old.sink }
        ensures rest { self.new ≡ record self.old { waiting = self.new.waiting } }
        ensures fewer { deque_len self.new.waiting ≤ deque_len self.old.waiting }
    {
        self.waiting.clear();
    }

    // Lets this many of the inputs that wait go, those that were taken with another one.
    pub(crate) fn let_go(&mut self, count: usize)
        ensures seen { seen_of self.new ≡ leaving (seen_of self.old) (drop count (seen_of self.old).waiting) }
        ensures sink { self.new.sink ≡ self.old.sink }
        ensures fewer { deque_len self.new.waiting ≤ deque_len self.old.waiting }
    {
        let_first_go(&mut self.waiting, count);
    }

    // The appends that wait behind an input, joined with it, where they may be performed in one go.
    pub(crate) fn appends_behind(&self, input: &InputOf<P>) -> Option<JoinedAppends>
        requires { (seen_of self.now).control.search ≡ None }
        ensures { IfSome result (λ j. MayGoWith (seen_of self.now).control (told_of input.now)
            (seen_of self.now).waiting (string_bytes j.text) j.count) }
    {
        let (front, _) = self.waiting.as_slices();
        joined_behind(self.alloc, &self.parts.state, input, front)
    }

    // Takes the next of the inputs that wait from them, with no search prompt open.
    pub(crate) fn next_waiting(&mut self) -> Option<InputOf<P>>
        ensures next { IfSome result (λ input.
            IsNext (seen_of self.old) (told_of input) (seen_of self.new).waiting) }
        ensures seen { seen_of self.new ≡ leaving (seen_of self.old) (seen_of self.new).waiting }
        ensures rest { IfNone result ((seen_of self.new ≡ seen_of self.old) × IsAtRest (seen_of self.new)) }
        ensures less { IfSome result (λ input. deque_len self.new.waiting + 1 ≡ deque_len self.old.waiting) }
        ensures sink { self.new.sink ≡ self.old.sink }
        ensures callbacks { callbacks_of self.new.parts ≡ callbacks_of self.old.parts }
    {
        if self.is_searching() {
            return None;
        }
        self.waiting.pop_front()
    }

    // Keeps the refusal of an input that is skipped. Any other refusal fails the session, and so does running out of
    // memory for this.
    pub(crate) fn pass_over(
        &mut self,
        refused: &mut Vec<MinusError>,
        refusal: MinusError,
    ) -> Result<(), MinusError>
        ensures kept { OnOk result (refused.new.items ≡ refused.old.items ++ refusal ∷ []) }
        ensures passed { OnOk result (is_passed (refusal_of refusal) ≡ true) }
        ensures unchanged { OnOk result (self.new ≡ self.old) }
        ensures fails { OnErr result (seen_of self.new ≡ record (seen_of self.old) { status = stands.Failed }) }
        ensures sink { self.new.sink ≡ self.old.sink }
        ensures cause { IfErr result (λ e. IsNotPassed e refusal) }
    {
        if !is_passed(&refusal) {
            self.status = Status::Failed;
            return Err(refusal);
        }
        if refused.push(refusal).is_err() {
            self.status = Status::Failed;
            return Err(MinusError::Memory);
        }
        Ok(())
    }
}
