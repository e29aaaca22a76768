// Why a program ends with status 1, as the line that it writes on standard error.
ghost use Rattle.std.specs.Prelude.{◌≡◌};
ghost use Rattle.console.specs.declared.failure.Failure.TheVariants.{Refused};
ghost use Rattle.sheets.specs.declared.refusal.Refusal.TheVariants.{NoMemory};

use sheets::Refusal;
use std::alloc::{AllocError, AllocFailed};
use std::io;
use thiserror::Error;

#[derive(Debug, Drop, Error)]
pub enum Failure {
    // wrong use, with the line that tells the right one
    #[error("{0}")]
    Usage(&'static str),
    // a file that cannot be read, by its name
    #[error("cannot read {0}")]
    Unreadable(String),
    #[error(transparent)]
    Refused(#[from] Refusal),
    // standard output does not take what is written
    #[error("cannot write the output")]
    NoOutput,
}

// A derived `From` keeps the error that it turns, and these let it go.
impl From<AllocError> for Failure {
    ghost from_gives = { λ _ f. f ≡ Refused NoMemory };

    fn from(_: AllocError) -> Failure {
        Failure::Refused(Refusal::NoMemory)
    }
}

impl<T: Drop> From<AllocFailed<T>> for Failure {
    ghost from_gives = { λ _ f. f ≡ Refused NoMemory };

    fn from(_: AllocFailed<T>) -> Failure {
        Failure::Refused(Refusal::NoMemory)
    }
}

impl From<io::Error> for Failure {
    fn from(_: io::Error) -> Failure {
        Failure::NoOutput
    }
}
