//! Why a program fails.
use minus::MinusError;
use std::alloc::{AllocError, AllocFailed};
use std::io;
use thiserror::Error;

/// Why a program fails.
#[derive(Debug, Drop, Error)]
pub enum Fault {
    /// What the application says.
    #[error("{0}")]
    Own(String),
    /// No key of the register ends the program.
    #[error("no key ends the program")]
    NoEnd,
    /// The terminal, the text or the clock failed.
    #[error("{0}")]
    Io(io::Error),
    /// The pager refused.
    #[error("{0}")]
    Pager(MinusError),
}

impl From<io::Error> for Fault {
    fn from(cause: io::Error) -> Fault {
        Fault::Io(cause)
    }
}

impl From<MinusError> for Fault {
    fn from(cause: MinusError) -> Fault {
        Fault::Pager(cause)
    }
}

impl From<AllocError> for Fault {
    fn from(_cause: AllocError) -> Fault {
        Fault::Pager(MinusError::Memory)
    }
}

impl<T: Drop> From<AllocFailed<T>> for Fault {
    fn from(_cause: AllocFailed<T>) -> Fault {
        Fault::Pager(MinusError::Memory)
    }
}
