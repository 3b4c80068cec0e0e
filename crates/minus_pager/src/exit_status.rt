//! Why the program pages nothing, and the status with which it exits then.
ghost use Rattle.std.specs.Prelude.{◌≡◌};
ghost use Rattle.minus_pager.specs.ExitStatus.{status_of};

use minus::MinusError;
use minus_app::Fault;
use minus_view::ArgumentFault;
use std::alloc::{AllocError, AllocFailed, Global};
use std::io;
use thiserror::Error;

/// Why the program pages nothing, or no more.
#[derive(Debug, Drop, Error)]
pub enum Refusal {
    /// The words ask for nothing that there is.
    #[error("{0}")]
    Words(String),
    /// The text is not there, or the terminal is not, or the pager refuses.
    #[error("{0}")]
    Failed(Fault),
}

impl Refusal {
    /// What is said of a word at fault.
    ///
    /// # Errors
    ///
    /// [`AllocError`] where there is no memory.
    pub fn of_words(alloc: Global, fault: &ArgumentFault<'_>) -> Result<Refusal, AllocError> {
        let said = match fault {
            ArgumentFault::UnknownOption(word) => format!(in alloc; "no such option: {word}")?,
            ArgumentFault::BadNumber(word) => format!(in alloc; "no number: {word}")?,
            ArgumentFault::NoValue(word) => format!(in alloc;
                "nothing follows the option: {word}"
            )?,
        };
        Ok(Refusal::Words(said))
    }

    /// What is said of a file that is not read.
    ///
    /// # Errors
    ///
    /// [`AllocError`] where there is no memory.
    pub fn of_file(alloc: Global, path: &str, why: &str) -> Result<Refusal, AllocError> {
        let said = format!(in alloc; "{path}{why}")?;
        Ok(Refusal::Failed(Fault::Own(said)))
    }

    /// The status that the program ends with.
    pub fn status(&self) -> u8
        ensures { result ≡ status_of self.now }
    {
        match self {
            Refusal::Words(_) => 2,
            Refusal::Failed(_) => 1,
        }
    }
}

impl From<Fault> for Refusal {
    fn from(cause: Fault) -> Refusal {
        Refusal::Failed(cause)
    }
}

impl From<MinusError> for Refusal {
    fn from(cause: MinusError) -> Refusal {
        Refusal::Failed(Fault::Pager(cause))
    }
}

impl From<io::Error> for Refusal {
    fn from(cause: io::Error) -> Refusal {
        Refusal::Failed(Fault::Io(cause))
    }
}

impl From<AllocError> for Refusal {
    fn from(_cause: AllocError) -> Refusal {
        Refusal::Failed(Fault::Pager(MinusError::Memory))
    }
}

impl<T: Drop> From<AllocFailed<T>> for Refusal {
    fn from(_cause: AllocFailed<T>) -> Refusal {
        Refusal::Failed(Fault::Pager(MinusError::Memory))
    }
}
