//! A program that runs commands manually, on parts of its own and on a sink that no session has.
ghost use Rattle.std.specs.Prelude.{◌≡◌, [], OnOk, IfOk, IfErr};
ghost use Rattle.minus_term.specs.Refusals.{refusal_of};
ghost use Rattle.minus_state.specs.States.{control_of, IsFormed};
ghost use Rattle.minus_commands.specs.Queued.{waiting_in};
ghost use Rattle.minus_commands.specs.Reads.{io_of, kept_of};
ghost use Rattle.minus_callers.specs.ByHand.{LeavesBy, left_by_all, CannotPerform, IsIoFault, IsPerformed};

use minus::{
    Calls, CommandOf, CommandQueueOf, Handled, MinusError, OutputSink, PartsOf, handle_event,
    handle_io_command,
};
use std::alloc::Global;

// Does what a command that waits asks for, if it asks for a drawing; no other waits.
fn do_next<W: OutputSink, P: Calls>(
    alloc: Global,
    command: CommandOf<P>,
    parts: &mut PartsOf<P>,
    out: &mut W,
) -> Result<(), MinusError>
    ensures control { OnOk result (LeavesBy P.Condition P.Classifier parts.old.state (io_of command)
        parts.new.state) }
    ensures refused { IfErr result (λ e. IsIoFault (refusal_of e)) }
    ensures kept { kept_of parts.new ≡ kept_of parts.old }
    ensures classifier { parts.new.classifier ≡ parts.old.classifier }
    ensures condition { parts.new.condition ≡ parts.old.condition }
    ensures formed { IsFormed parts.old.state → IsFormed parts.new.state }
{
    if let CommandOf::Io(command) = command {
        return handle_io_command(alloc, command, out, parts);
    }
    Ok(())
}

// Does what waits in a queue, in its order.
fn do_waiting<W: OutputSink, P: Calls>(
    alloc: Global,
    parts: &mut PartsOf<P>,
    queue: &mut CommandQueueOf<P>,
    out: &mut W,
) -> Result<(), MinusError>
    ensures control { OnOk result (IsFormed parts.old.state → control_of parts.new.state
        ≡ left_by_all (control_of parts.old.state) (waiting_in queue.old)) }
    ensures none { OnOk result (waiting_in queue.new ≡ []) }
    ensures refused { IfErr result (λ e. IsIoFault (refusal_of e)) }
    ensures kept { kept_of parts.new ≡ kept_of parts.old }
    ensures classifier { parts.new.classifier ≡ parts.old.classifier }
    ensures condition { parts.new.condition ≡ parts.old.condition }
    ensures formed { IsFormed parts.old.state → IsFormed parts.new.state }
{
    while let Some(command) = queue.pop_front() {
        do_next(alloc, command, parts, out)?;
    }
    Ok(())
}

/// Performs a command on parts, where nothing waits in the queue: leaves the state as a session's step does with the
/// command, and draws on a sink what the command asks to be drawn. Nothing waits then. Answers whether the command is
/// an exit, which is left to the caller, and the text that was copied.
///
/// # Errors
///
/// Those of [`handle_event`], with nothing changed, and of [`handle_io_command`]: what waits behind that stays in the
/// queue.
pub fn perform<W: OutputSink, P: Calls>(
    alloc: Global,
    command: CommandOf<P>,
    parts: &mut PartsOf<P>,
    queue: &mut CommandQueueOf<P>,
    out: &mut W,
) -> Result<Handled, MinusError>
    ensures done { IfOk result (λ handled. waiting_in queue.old ≡ [] →
        IsPerformed P.Classifier.says parts.old command parts.new handled) }
    ensures none { OnOk result (waiting_in queue.new ≡ []) }
    ensures refused { IfErr result (λ e. CannotPerform (refusal_of e) P.Classifier.says parts.old command) }
    ensures formed { IsFormed parts.old.state → IsFormed parts.new.state }
{
    let handled = handle_event(alloc, command, parts, queue)?;
    do_waiting(alloc, parts, queue, out)?;
    Ok(handled)
}
