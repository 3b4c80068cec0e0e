//! A run of a script.
ghost use Rattle.std.specs.Prelude.{◌≡◌, map, Some, IfOk, IfErr, OnOk};
ghost use Rattle.std.specs.Io.KnownBytes.{Appends};
ghost use Rattle.minus_commands.specs.Reads.{told_of};
ghost use Rattle.minus.specs.Core.{seen_of};
ghost use Rattle.minus.specs.Steps.{cleanup_after};
ghost use Rattle.minus.specs.declared.status.Status.TheVariants.{Running};
ghost use Rattle.minus_script.specs.Runs.{exit_code, printed_exit, printed_after, IsShown, IsScriptRun, IsRunFault, IsBeforePrinting};
ghost use Rattle.minus_script.specs.Runs.{RunsOn, IsStopped};
ghost use Rattle.minus_script.specs.ShowFaults.{IsShowFault, IsCleanupFault};
ghost use Rattle.minus_script.specs.declared.fault.ScriptFault.TheVariants.{Refused};
ghost use Rattle.minus_term.specs.declared.error.MinusError.TheVariants.{Memory};

use crate::arguments::Mode;
use crate::fault::ScriptFault;
use crate::keys::{DefaultKeys, ScriptKinds};
use crate::printed::{print_rows, write_out};
use crate::reading::read_script;
use crate::script::{ScriptInput, parse_script};
use minus::{Answer, Core, MinusError, OutputSink, PagerOf, RunMode, WithTty, init_core_with};
use std::alloc::{AllocError, Global};
use std::io::{Read, Write};

// The sink of the program's sessions, which keeps all that is written to it.
type Held = WithTty<Vec<u8>>;

// A session that runs a script.
type Session = Core<Held, ScriptKinds>;

// The code of an exit that the last step answered.
fn exit_code(last: &Option<Answer>) -> Option<u8>
    ensures { result ≡ exit_code last.now }
{
    match last {
        Some(
            Answer {
                exited: Some((_, code)),
                ..
            },
        ) => Some(*code),
        _ => None,
    }
}

// The line that tells an exit.
fn print_exit(alloc: Global, code: u8) -> Result<Vec<u8>, AllocError>
    ensures { IfOk result (λ printed. printed.items ≡ printed_exit code) }
{
    let line = format!(in alloc; "exit {code}\n")?;
    let mut printed = Vec::new(alloc);
    printed.extend_from_slice(line.as_bytes())?;
    Ok(printed)
}

// The rows of the page, or, after an exit, its code.
fn print_page(
    alloc: Global,
    session: &Session,
    last: &Option<Answer>,
) -> Result<Vec<u8>, ScriptFault>
    ensures page { IfOk result (λ printed. printed.items
        ≡ printed_after (exit_code last.now) (seen_of session.now).control) }
    ensures memory { IfErr result (λ e. e ≡ Refused Memory) }
{
    match exit_code(last) {
        Some(code) => Ok(print_exit(alloc, code)?),
        None => {
            let mut printed = Vec::new(alloc);
            print_rows(&mut printed, &session.page()?.rows)?;
            Ok(printed)
        }
    }
}

// All bytes of a session's sink, with those that clean the terminal up.
fn all_written(session: Session) -> Result<Vec<u8>, ScriptFault>
    ensures bytes { IfOk result (λ written.
        Appends (Some session.sink.inner.items) (Some written.items) (cleanup_after (seen_of session).status)) }
    ensures cleanup { IfErr result IsCleanupFault }
{
    let (sink, cleaned) = session.finish();
    match cleaned {
        Ok(()) => Ok(sink.inner),
        Err(cause) => Err(ScriptFault::from(MinusError::from(cause))),
    }
}

// Performs inputs in order, up to one that exits or is refused, and answers the answer of the last one.
fn perform_all<S: OutputSink + Drop>(
    session: &mut Core<S, ScriptKinds>,
    inputs: Vec<ScriptInput>,
) -> Result<Option<Answer>, MinusError>
    requires { (seen_of session.old).status ≡ Running }
    ensures run { IfOk result (λ last.
        RunsOn S.seen session.old session.new (map told_of inputs.items) last) }
    ensures refused { IfErr result (λ e.
        IsStopped S.seen session.old session.new (map told_of inputs.items) e) }
{
    let mut left = inputs;
    let mut last = None;
    while !left.is_empty() {
        let ran = session.run(left);
        if let Some(refusal) = ran.stopped {
            return Err(refusal);
        }
        last = ran.last;
        if exit_code(&last).is_some() {
            return Ok(last);
        }
        // A run also ends after a step that copies a text or refuses items, and a script goes on.
        left = ran.rest;
    }
    Ok(last)
}

// What the mode prints of a pager that was told all inputs, from no text.
fn show(
    alloc: Global,
    mode: Mode,
    cols: usize,
    rows: usize,
    inputs: Vec<ScriptInput>,
) -> Result<Vec<u8>, ScriptFault>
    ensures shown { IfOk result (λ printed. IsShown mode cols rows (map told_of inputs.items) printed.items) }
    ensures fault { IfErr result (IsShowFault cols rows (map told_of inputs.items)) }
{
    let sink = WithTty::new(Vec::new(alloc), true);
    let keys = DefaultKeys::new(alloc)?;
    let pager = PagerOf::new(alloc);
    let mut session = match init_core_with(pager, RunMode::Dynamic, sink, cols, rows, keys) {
        Ok(session) => session,
        Err(refused) => return Err(ScriptFault::from(refused.cause)),
    };
    let last = match perform_all(&mut session, inputs) {
        Ok(last) => last,
        Err(refusal) => return Err(ScriptFault::from(refusal)),
    };
    match mode {
        Mode::Page => print_page(alloc, &session, &last),
        Mode::Bytes => all_written(session),
    }
}

/// Reads a script to its end, runs it on a pager of this many columns and rows, and prints what the mode asks for: the
/// rows of the last page, or, after an exit, `exit` and its code; or all bytes that the terminal was sent, with those
/// that clean it up at the end. What follows an exit in the script is not run; what follows a copied text is.
///
/// # Errors
///
/// [`ScriptFault::Io`] where the reader fails, [`ScriptFault::Line`] at the first faulty line, counted from 1, and
/// [`ScriptFault::Refused`] with the pager's refusal: [`MinusError::BadSize`] names a size that is none of a terminal,
/// [`MinusError::NewlineInPrompt`] comes of a prompt or a message with a newline, [`MinusError::Memory`] where memory
/// runs out, and `Setup`, `Cleanup` or `Draw` where the pager's sink wanted it. Nothing is written then.
/// [`ScriptFault::Io`] where the writer fails: a beginning of what was to be printed was written.
pub fn run_script<R: Read, W: Write>(
    alloc: Global,
    mode: Mode,
    cols: usize,
    rows: usize,
    reader: &mut R,
    writer: &mut W,
) -> Result<(), ScriptFault>
    ensures shown { OnOk result (IsScriptRun mode cols rows
        (R.remaining reader.old) (R.remaining reader.new) (W.contents writer.old) (W.contents writer.new)) }
    ensures fault { IfErr result (IsRunFault mode cols rows
        (R.remaining reader.old) (R.remaining reader.new) (W.contents writer.old) (W.contents writer.new)) }
    ensures untouched { IfErr result (λ e. IsBeforePrinting e → writer.new ≡ writer.old) }
{
    let script = read_script(alloc, reader)?;
    let inputs = parse_script(alloc, &script)?;
    let printed = show(alloc, mode, cols, rows, inputs)?;
    write_out(writer, &printed)?;
    Ok(())
}
