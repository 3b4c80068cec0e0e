//! Commands that a program handles manually, one at a time, on parts of its own.
ghost use Rattle.std.specs.Prelude.{◌≡◌, OnOk, OnErr, IfOk, IfErr};
ghost use Rattle.minus_term.specs.Refusals.{refusal_of};
ghost use Rattle.minus_term.specs.Written.{written_all};
ghost use Rattle.minus_state.specs.Changes.{Leads};
ghost use Rattle.minus_state.specs.ClampedMark.{clamp};
ghost use Rattle.minus_state.specs.States.{control_of, IsFormed};
ghost use Rattle.minus_state.specs.declared.change.NextText.TheVariants.{Same};
ghost use Rattle.minus_commands.specs.Callbacks.{callbacks_of, with_command, CallsIo};
ghost use Rattle.minus_commands.specs.EvHandler.{Handles, IsUnhandled, CannotHandle, io_left, io_redraw, is_io_move, io_ops, IsIoDone, IsIoUndone};
ghost use Rattle.minus_commands.specs.Queued.{waiting_in, drawing_command, move_command};
ghost use Rattle.minus_commands.specs.Reads.{kept_of};

use crate::callbacks::{call_due, end_hook};
use crate::command_queue::CommandQueueOf;
use crate::commands::{CommandOf, IoCommand};
use crate::outcome::unmoved;
use crate::parts::{Calls, PartsOf, with_help};
use crate::registration::keep_handed;
use crate::request::Request;
use minus_draw::drawings::{Drawing, draw_page};
use minus_state::change::{Change, Redraw};
use minus_state::state::PagerState;
use minus_term::{MinusError, OutputSink, draw_bytes};
use std::alloc::Global;

/// What a command that was handled answers.
#[derive(Debug, Drop)]
pub struct Handled {
    /// Whether it was an exit.
    pub exited: bool,
    /// The text that was copied.
    pub copied: Option<String>,
}

impl Handled {
    ghost use Rattle.std.specs.Prelude.{None, false};

    // Nothing is answered.
    pub(crate) fn nothing() -> Handled
        ensures { result ≡ record { exited = false; copied = None } }
    {
        Handled {
            exited: false,
            copied: None,
        }
    }
}

// The command for what is asked to be drawn, or for the prompt row where only that may have changed, if either is.
fn drawing_command(redraw: Redraw, row_only: bool) -> Option<IoCommand>
    ensures { result ≡ drawing_command redraw row_only }
{
    match redraw {
        Redraw::Whole | Redraw::Appended => Some(IoCommand::RedrawDisplay),
        Redraw::Opening => Some(IoCommand::FetchSearchQuery),
        _ if row_only => Some(IoCommand::RedrawPrompt),
        _ => None,
    }
}

// The command for a move to a mark, if the mark is moved.
fn move_command(to: Option<usize>) -> Option<IoCommand>
    ensures { result ≡ move_command to }
{
    Some(IoCommand::SetUpperMark(to?))
}

// Clamps the mark.
fn clamp_mark(state: &mut PagerState)
    ensures control { IsFormed state.old → control_of state.new ≡ clamp (control_of state.old) }
    ensures formed { IsFormed state.old → IsFormed state.new }
{
    state.upper_mark = state.upper_mark.min(state.top());
}

/// Handles a command by its line of the table of commands, without its drawing, its move, its callbacks and the opening
/// of a search prompt: these wait in the queue, in this order, as commands that ask for a drawing, which
/// [`handle_io_command`] does. Such a command waits there itself. An exit is answered, and left to the caller.
///
/// # Errors
///
/// [`MinusError::NewlineInPrompt`], [`MinusError::HookIdTaken`], [`MinusError::NoFreeHookId`] and
/// [`MinusError::BadSize`] where a session's step has them, and [`MinusError::Memory`] where there is no memory;
/// nothing has changed.
pub fn handle_event<P: Calls>(
    alloc: Global,
    command: CommandOf<P>,
    parts: &mut PartsOf<P>,
    queue: &mut CommandQueueOf<P>,
) -> Result<Handled, MinusError>
    ensures handled { IfOk result (λ handled. Handles P.Classifier.says parts.old (waiting_in queue.old) command
        parts.new (waiting_in queue.new) handled) }
    ensures refused { IfErr result (λ e. CannotHandle (refusal_of e) P.Classifier.says parts.old command) }
    ensures unhandled { OnErr result (IsUnhandled parts.old (waiting_in queue.old) parts.new (waiting_in queue.new)) }
    ensures callbacks { OnOk result (callbacks_of parts.new ≡ with_command (callbacks_of parts.old) command) }
    ensures uncalled { OnErr result (callbacks_of parts.new ≡ callbacks_of parts.old) }
    ensures formed { IsFormed parts.old.state → IsFormed parts.new.state }
{
    if command.io().is_some() {
        queue.push_back(command)?;
        return Ok(Handled::nothing());
    }
    queue.reserve(2)?;
    let request = with_help(parts, alloc, Request::of_command(command))?;
    if let Request::HandOver(handed) = request {
        keep_handed(parts, handed)?;
        clamp_mark(&mut parts.state);
        return Ok(Handled::nothing());
    }
    let mut outcome = unmoved(&parts.state, alloc, request)?;
    let drawing = drawing_command(outcome.change.redraw, outcome.row_only);
    let movement = move_command(outcome.moves_to);
    let handled = Handled {
        exited: outcome.exits,
        copied: outcome.copied.take(),
    };
    parts.state.place(alloc, outcome.into_change())?;
    queue.push_reserved(drawing);
    queue.push_reserved(movement);
    Ok(handled)
}

// Whether a command moves the mark.
fn is_move(command: IoCommand) -> bool
    ensures { result ≡ is_io_move command }
{
    matches!(command, IoCommand::SetUpperMark(_))
}

// The state with its mark clamped, to be drawn so.
fn clamped(state: &PagerState, redraw: Redraw) -> Change
    ensures leads { Leads state.now result (clamp (control_of state.now)) }
    ensures redraw { result.redraw ≡ redraw }
    ensures text { result.text ≡ Same }
{
    let mut change = state.moved_to(state.upper_mark);
    change.redraw = redraw;
    change
}

// The change that a command leads a state to which asks for a drawing. Its text stays.
fn io_change<P: Calls>(
    alloc: Global,
    state: &PagerState,
    command: IoCommand,
) -> Result<Change, MinusError>
    ensures leads { IfOk result (λ c. Leads state.now c
        (io_left P.Condition P.Classifier (control_of state.now) command)) }
    ensures redraw { IfOk result (λ c. c.redraw
        ≡ io_redraw P.Condition P.Classifier (control_of state.now) command) }
    ensures text { IfOk result (λ c. c.text ≡ Same) }
    ensures memory { IfErr result (λ e. e ≡ MinusError.Memory) }
{
    match command {
        IoCommand::RedrawPrompt => Ok(clamped(state, Redraw::PromptRow)),
        IoCommand::RedrawDisplay | IoCommand::DrawAppendedText(..) => {
            Ok(clamped(state, Redraw::Whole))
        }
        IoCommand::SetUpperMark(mark) => Ok(state.moved_to(mark)),
        IoCommand::FetchSearchQuery => {
            let mut change = state.opened(alloc, state.search_state.search_mode)?;
            change.clamp(&state.screen);
            Ok(change)
        }
    }
}

// The change that a command leads to which asks for a drawing, and the bytes of the drawing.
fn drawn_io<P: Calls>(
    alloc: Global,
    state: &PagerState,
    command: IoCommand,
) -> Result<(Change, Vec<u8>), MinusError>
    ensures leads { IfOk result (λ d. Leads state.now d.0
        (io_left P.Condition P.Classifier (control_of state.now) command)) }
    ensures bytes { IfOk result (λ d. IsFormed state.now → d.1.items
        ≡ written_all (io_ops P.Condition P.Classifier (control_of state.now) command)) }
    ensures memory { IfErr result (λ e. e ≡ MinusError.Memory) }
{
    let change = io_change::<P>(alloc, state, command)?;
    let drawing = Drawing::of(state, &change);
    let (_, bytes) = draw_page(alloc, state, drawing, &change)?;
    Ok((change, bytes))
}

/// Does what a command asks for that asks for a drawing, by its line of the table of commands, and draws it. Then it
/// calls the callbacks of [`Hook::EofReached`], where the mark was moved, also by no rows, and the page shows the end
/// of more rows than the terminal has.
///
/// # Errors
///
/// [`MinusError::Memory`] where there is no memory: nothing has changed, and nothing was written. [`MinusError::Draw`]
/// where the sink refused a write or the flush: a beginning of the bytes was written, and what was asked for is done.
pub fn handle_io_command<W: OutputSink, P: Calls>(
    alloc: Global,
    command: IoCommand,
    out: &mut W,
    parts: &mut PartsOf<P>,
) -> Result<(), MinusError>
    ensures done { OnOk result (IsIoDone W.seen parts.old out.old command parts.new out.new) }
    ensures undone { IfErr result (λ e. IsIoUndone (refusal_of e) W.seen parts.old out.old command parts.new out.new) }
    ensures formed { IsFormed parts.old.state → IsFormed parts.new.state }
    ensures kept { kept_of parts.new ≡ kept_of parts.old }
    ensures called { OnOk result (IsFormed parts.old.state →
        CallsIo (control_of parts.old.state) command parts.old parts.new) }
    ensures uncalled { OnErr result (callbacks_of parts.new ≡ callbacks_of parts.old) }
    ensures classifier { parts.new.classifier ≡ parts.old.classifier }
    ensures condition { parts.new.condition ≡ parts.old.condition }
{
    let is_move = is_move(command);
    let (change, bytes) = drawn_io::<P>(alloc, &parts.state, command)?;
    parts.state.place(alloc, change)?;
    if let Err(cause) = draw_bytes(out, &bytes) {
        return Err(MinusError::Draw(cause));
    }
    let hook = end_hook(is_move, &parts.state);
    call_due(parts, hook);
    Ok(())
}
