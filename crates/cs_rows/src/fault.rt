//! Why a store refuses a call.
ghost use Rattle.cs_rows.specs.Faults.{code_of, class_of, name_of};

use cs_value::{Fault, NoMemory};
use std::alloc::{AllocError, AllocFailed};
use thiserror::Error;

/// Why the database of a store refuses a call.
#[derive(Clone, Copy, Debug, PartialEq, Eq, Error)]
pub enum Cause {
    #[error("another connection has it open")]
    Busy,
    #[error("it is not a database that can be read")]
    NotADatabase,
    #[error("the disk is full")]
    Full,
    #[error("a file cannot be read or written")]
    InputOutput,
    #[error("it does not carry out the call")]
    Other,
}

/// Why a store refuses a call.
#[derive(Clone, Copy, Debug, PartialEq, Eq, Error)]
pub enum StoreError {
    #[error("there is a table of this name")]
    TableExists,
    #[error("there is no table of this name")]
    NoTable,
    #[error("the name, the columns or the key make no table")]
    BadSchema,
    #[error("there is a row with this key")]
    KeyTaken,
    #[error("there is no row with this key")]
    NoRow,
    #[error("the row has not a value for each column")]
    RowWidth,
    #[error("a key column of the row is NULL")]
    NullInKey,
    #[error("a column of the row that refuses NULL has it")]
    NotNull,
    #[error("what is stored is not valid")]
    DamagedStore,
    #[error("the database refused: {0}")]
    StoreFault(Cause),
    #[error("out of memory")]
    NoMemory,
}

impl Fault for StoreError {
    ghost code_of = { code_of };

    ghost class_of = { class_of };

    ghost name_of = { name_of };

    fn code(&self) -> u8 {
        match self {
            StoreError::TableExists => 30,
            StoreError::NoTable => 31,
            StoreError::BadSchema => 32,
            StoreError::KeyTaken => 33,
            StoreError::NoRow => 34,
            StoreError::RowWidth => 35,
            StoreError::NullInKey => 36,
            StoreError::DamagedStore => 37,
            StoreError::StoreFault(_) => 38,
            StoreError::NotNull => 39,
            StoreError::NoMemory => NoMemory.code(),
        }
    }

    fn class(&self) -> u8 {
        match self {
            StoreError::DamagedStore => 11,
            StoreError::NotNull => 19,
            StoreError::NoMemory => NoMemory.class(),
            _ => 1,
        }
    }

    fn name(&self) -> &'static str {
        match self {
            StoreError::TableExists => "TableExists",
            StoreError::NoTable => "NoTable",
            StoreError::BadSchema => "BadSchema",
            StoreError::KeyTaken => "KeyTaken",
            StoreError::NoRow => "NoRow",
            StoreError::RowWidth => "RowWidth",
            StoreError::NullInKey => "NullInKey",
            StoreError::DamagedStore => "DamagedStore",
            StoreError::StoreFault(_) => "StoreFault",
            StoreError::NotNull => "NotNull",
            StoreError::NoMemory => NoMemory.name(),
        }
    }
}

impl From<NoMemory> for StoreError {
    ghost use Rattle.std.specs.Prelude.{◌≡◌};
    ghost use Rattle.cs_rows.specs.declared.fault.StoreError.TheVariants.{NoMemory as OutOfMemory};

    ghost from_gives = { λ _ e. e ≡ OutOfMemory };

    fn from(_refusal: NoMemory) -> StoreError {
        StoreError::NoMemory
    }
}

impl From<AllocError> for StoreError {
    ghost use Rattle.std.specs.Prelude.{◌≡◌};
    ghost use Rattle.cs_rows.specs.declared.fault.StoreError.TheVariants.{NoMemory as OutOfMemory};

    ghost from_gives = { λ _ e. e ≡ OutOfMemory };

    fn from(_refusal: AllocError) -> StoreError {
        StoreError::NoMemory
    }
}

impl<T: Drop> From<AllocFailed<T>> for StoreError {
    ghost use Rattle.std.specs.Prelude.{◌≡◌};
    ghost use Rattle.cs_rows.specs.declared.fault.StoreError.TheVariants.{NoMemory as OutOfMemory};

    ghost from_gives = { λ _ e. e ≡ OutOfMemory };

    fn from(_refusal: AllocFailed<T>) -> StoreError {
        StoreError::NoMemory
    }
}
