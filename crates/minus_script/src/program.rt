//! The program's faults, and the statuses that it ends with.
ghost use Rattle.std.specs.Prelude.{◌≡◌, map, string_bytes, OnOk, IfErr, IsErrOf};
ghost use Rattle.minus_script.specs.Programs.{ProgramRuns, ProgramFails, IsSilent};
ghost use Rattle.minus_script.specs.declared.program.ProgramFault.TheVariants.{Usage, Script};
ghost use Rattle.minus_script.specs.declared.fault.ScriptFault.TheVariants.{Refused};
ghost use Rattle.minus_term.specs.declared.error.MinusError.TheVariants.{Memory};

use crate::arguments::{Arguments, parse_arguments};
use crate::fault::ScriptFault;
use crate::run::run_script;
use minus::MinusError;
use std::alloc::{AllocError, Global};
use std::env;
use std::io::{ErrorKind, Read, Write};
use std::process::ExitCode;
use thiserror::Error;

/// Why the program fails.
#[derive(Debug, Drop, Error)]
pub enum ProgramFault {
    /// The arguments have another form.
    #[error("usage: minus_show page|bytes COLS ROWS")]
    Usage,
    /// The script was not run to its end.
    #[error("{0}")]
    Script(ScriptFault),
}

impl From<AllocError> for ProgramFault {
    ghost from_gives = { λ cause e. e ≡ Script (Refused Memory) };

    fn from(cause: AllocError) -> ProgramFault {
        ProgramFault::Script(ScriptFault::from(cause))
    }
}

impl ProgramFault {
    ghost use Rattle.minus_script.specs.Statuses.{status_of};

    /// The status that the program ends with: 1 where its input or output failed, 2 for its arguments or a line of its
    /// script, 3 where the pager refused.
    pub fn status(&self) -> u8
        ensures { result ≡ status_of self.now }
    {
        match self {
            ProgramFault::Usage | ProgramFault::Script(ScriptFault::Line(_)) => 2,
            ProgramFault::Script(ScriptFault::Io(..)) => 1,
            ProgramFault::Script(ScriptFault::Refused(_)) => 3,
        }
    }
}

// The words after the program's name. One that is not UTF-8 has no form that the program takes.
fn words(rt: &HostRuntime) -> Result<Vec<String>, ProgramFault> {
    match env::args(rt) {
        Ok(mut words) => {
            let _ = words.next();
            Ok(Vec::from_iter(rt.alloc(), words)?)
        }
        Err(cause) if cause.kind() == ErrorKind::OutOfMemory => {
            Err(ProgramFault::Script(ScriptFault::Refused(MinusError::Memory)))
        }
        Err(_) => Err(ProgramFault::Usage),
    }
}

/// Runs the script that a reader gives, as the words after the program's name say, and prints to a writer.
///
/// # Errors
///
/// [`ProgramFault::Usage`] where the words are no arguments: nothing is read or written then.
/// [`ProgramFault::Script`] where [`run_script`] is refused.
pub fn run_words<R: Read, W: Write>(
    alloc: Global,
    words: &[String],
    reader: &mut R,
    writer: &mut W,
) -> Result<(), ProgramFault>
    ensures run { OnOk result (ProgramRuns R.remaining W.contents (map string_bytes words.now)
        reader.old reader.new writer.old writer.new) }
    ensures fault { IfErr result (ProgramFails R.remaining W.contents (map string_bytes words.now)
        reader.old reader.new writer.old writer.new) }
    ensures unread { IsErrOf result ProgramFault.Usage → reader.new ≡ reader.old }
    ensures unwritten { IfErr result (λ e. IsSilent e → writer.new ≡ writer.old) }
{
    let Some(Arguments { mode, cols, rows }) = parse_arguments(words) else {
        return Err(ProgramFault::Usage);
    };
    match run_script(alloc, mode, cols, rows, reader, writer) {
        Ok(()) => Ok(()),
        Err(fault) => Err(ProgramFault::Script(fault)),
    }
}

/// Runs the script on standard input, and prints to standard output.
fn run_program(rt: &HostRuntime) -> Result<(), ProgramFault> {
    let words = words(rt)?;
    run_words(rt.alloc(), &words, &mut rt.stdin(), &mut rt.stdout())
}

/// Runs the program, tells a fault on standard error, and answers the status that the process ends with.
pub fn run_to_end(rt: &HostRuntime) -> ExitCode {
    match run_program(rt) {
        Ok(()) => ExitCode::SUCCESS,
        Err(fault) => {
            let status = fault.status();
            let _ = rt.eprintln(fault);
            ExitCode::from(status)
        }
    }
}
