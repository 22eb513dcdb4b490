//! Why a call on records is refused.
use sqlite::{Error, ErrorCode};
use std::alloc::{AllocError, AllocFailed};
use thiserror::Error as ErrorOf;

/// Why a call on records is refused.
#[derive(Clone, Copy, Debug, PartialEq, Eq, ErrorOf)]
pub enum RecordsError {
    #[error("out of memory")]
    NoMemory,
    #[error("the database refused")]
    Database(Error),
}

impl From<Error> for RecordsError {
    ghost use Rattle.std.specs.Prelude.{◌≡◌};
    ghost use Rattle.cs_store_sql.specs.Faults.{refusal_of};

    ghost from_gives = { λ error e. e ≡ refusal_of error };

    fn from(error: Error) -> RecordsError {
        match error {
            Error::SqliteFailure(ErrorCode::OutOfMemory) => RecordsError::NoMemory,
            error => RecordsError::Database(error),
        }
    }
}

impl From<AllocError> for RecordsError {
    ghost use Rattle.std.specs.Prelude.{◌≡◌};
    ghost use Rattle.cs_store_sql.specs.declared.fault.RecordsError.TheVariants.{NoMemory as OutOfMemory};

    ghost from_gives = { λ _ e. e ≡ OutOfMemory };

    fn from(_refusal: AllocError) -> RecordsError {
        RecordsError::NoMemory
    }
}

impl<T: Drop> From<AllocFailed<T>> for RecordsError {
    ghost use Rattle.std.specs.Prelude.{◌≡◌};
    ghost use Rattle.cs_store_sql.specs.declared.fault.RecordsError.TheVariants.{NoMemory as OutOfMemory};

    ghost from_gives = { λ _ e. e ≡ OutOfMemory };

    fn from(_refusal: AllocFailed<T>) -> RecordsError {
        RecordsError::NoMemory
    }
}
