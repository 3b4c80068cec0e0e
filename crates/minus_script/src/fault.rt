//! The errors of the program.
ghost use Rattle.std.specs.Prelude.{◌≡◌};
ghost use Rattle.minus_term.specs.declared.error.MinusError.TheVariants.{Memory};
ghost use Rattle.minus_script.specs.declared.fault.ScriptFault.TheVariants.{Refused};

use minus::MinusError;
use std::alloc::{AllocError, AllocFailed};
use std::{fmt, io};
use thiserror::Error;

/// A stream of the program.
#[derive(Clone, Copy, Debug)]
pub enum Stream {
    /// Standard input.
    Input,
    /// Standard output.
    Output,
}

impl fmt::Display for Stream {
    fn fmt<W: fmt::Write>(&self, f: &mut fmt::Formatter<W>) -> fmt::Result {
        match self {
            Stream::Input => f.write_str("input"),
            Stream::Output => f.write_str("output"),
        }
    }
}

/// Why the program ends without having run its script.
#[derive(Debug, Drop, Error)]
pub enum ScriptFault {
    /// Standard input or output failed.
    #[error("standard {0} failed")]
    Io(Stream, io::Error),
    /// The line with this number, counted from 1, is faulty.
    #[error("script line {0}")]
    Line(usize),
    /// A call was refused; printed by the refusal's number.
    #[error("refused {}", .0.number())]
    Refused(MinusError),
}

impl From<AllocError> for ScriptFault {
    ghost from_gives = { λ cause e. e ≡ Refused Memory };

    fn from(_cause: AllocError) -> ScriptFault {
        ScriptFault::Refused(MinusError::Memory)
    }
}

impl<T: Drop> From<AllocFailed<T>> for ScriptFault {
    ghost from_gives = { λ cause e. e ≡ Refused Memory };

    fn from(_cause: AllocFailed<T>) -> ScriptFault {
        ScriptFault::Refused(MinusError::Memory)
    }
}

impl From<MinusError> for ScriptFault {
    ghost from_gives = { λ cause e. e ≡ Refused cause };

    fn from(cause: MinusError) -> ScriptFault {
        ScriptFault::Refused(cause)
    }
}
