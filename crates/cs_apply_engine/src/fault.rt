//! Why a run is refused.
ghost use Rattle.cs_apply_engine.specs.Faults.{code_of, class_of, name_of};

use crate::conflict::Conflict;
use cs_rows::StoreError;
use cs_value::{Fault, NoMemory};
use cs_wire::{ReadError, ReadFault};
use std::alloc::{AllocError, AllocFailed};
use thiserror::Error;

/// Why a changeset is not applied.
#[derive(Debug, Drop, Error)]
pub enum ApplyFault {
    /// The file is no changeset's.
    #[error("{0}")]
    Read(ReadFault),
    /// The table of the group at this zero-based index has more columns than the group.
    #[error("a table has more columns than group {0} says")]
    Wider(usize),
    /// The handler chose to abort at this conflict.
    #[error("aborted at {0}")]
    Abort(Conflict),
    /// The handler chose to replace a row that does not exist, or to carry out an entry that its table refuses.
    #[error("replace is not possible at {0}")]
    Misuse(Conflict),
    /// The store refused, for another cause than memory.
    #[error("{0}")]
    Store(StoreError),
    /// Memory was refused.
    #[error("out of memory")]
    NoMemory,
}

impl Fault for ApplyFault {
    ghost code_of = { code_of };

    ghost class_of = { class_of };

    ghost name_of = { name_of };

    fn code(&self) -> u8 {
        match self {
            ApplyFault::Read(fault) => fault.code(),
            ApplyFault::Wider(_) => 40,
            ApplyFault::Abort(_) => 41,
            ApplyFault::Misuse(_) => 42,
            ApplyFault::Store(error) => error.code(),
            ApplyFault::NoMemory => NoMemory.code(),
        }
    }

    fn class(&self) -> u8 {
        match self {
            ApplyFault::Read(fault) => fault.class(),
            ApplyFault::Wider(_) => 17,
            ApplyFault::Abort(_) => 4,
            ApplyFault::Misuse(_) => 21,
            ApplyFault::Store(error) => error.class(),
            ApplyFault::NoMemory => NoMemory.class(),
        }
    }

    fn name(&self) -> &'static str {
        match self {
            ApplyFault::Read(fault) => fault.name(),
            ApplyFault::Wider(_) => "Wider",
            ApplyFault::Abort(_) => "Abort",
            ApplyFault::Misuse(_) => "Misuse",
            ApplyFault::Store(error) => error.name(),
            ApplyFault::NoMemory => NoMemory.name(),
        }
    }
}

impl From<StoreError> for ApplyFault {
    ghost use Rattle.std.specs.Prelude.{◌≡◌};
    ghost use Rattle.cs_apply_engine.specs.Faults.{fault_of};

    ghost from_gives = { λ error e. e ≡ fault_of error };

    fn from(error: StoreError) -> ApplyFault {
        match error {
            StoreError::NoMemory => ApplyFault::NoMemory,
            error => ApplyFault::Store(error),
        }
    }
}

impl From<ReadError> for ApplyFault {
    ghost use Rattle.std.specs.Prelude.{◌≡◌};
    ghost use Rattle.cs_apply_engine.specs.Faults.{read_fault_of};

    ghost from_gives = { λ error e. e ≡ read_fault_of error };

    fn from(error: ReadError) -> ApplyFault {
        match error {
            ReadError::Fault(fault) => ApplyFault::Read(fault),
            ReadError::NoMemory => ApplyFault::NoMemory,
        }
    }
}

impl From<NoMemory> for ApplyFault {
    ghost use Rattle.std.specs.Prelude.{◌≡◌};
    ghost use Rattle.cs_apply_engine.specs.declared.fault.ApplyFault.TheVariants.{NoMemory as OutOfMemory};

    ghost from_gives = { λ _ e. e ≡ OutOfMemory };

    fn from(_refusal: NoMemory) -> ApplyFault {
        ApplyFault::NoMemory
    }
}

impl From<AllocError> for ApplyFault {
    ghost use Rattle.std.specs.Prelude.{◌≡◌};
    ghost use Rattle.cs_apply_engine.specs.declared.fault.ApplyFault.TheVariants.{NoMemory as OutOfMemory};

    ghost from_gives = { λ _ e. e ≡ OutOfMemory };

    fn from(_refusal: AllocError) -> ApplyFault {
        ApplyFault::NoMemory
    }
}

impl<T: Drop> From<AllocFailed<T>> for ApplyFault {
    ghost use Rattle.std.specs.Prelude.{◌≡◌};
    ghost use Rattle.cs_apply_engine.specs.declared.fault.ApplyFault.TheVariants.{NoMemory as OutOfMemory};

    ghost from_gives = { λ _ e. e ≡ OutOfMemory };

    fn from(_refusal: AllocFailed<T>) -> ApplyFault {
        ApplyFault::NoMemory
    }
}
