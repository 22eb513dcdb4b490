//! Why a session refuses a call.
ghost use Rattle.cs_session_notes.specs.Faults.{code_of, class_of, name_of};

use cs_apply_engine::ApplyFault;
use cs_rows::StoreError;
use cs_value::{Fault, NoMemory};
use std::alloc::{AllocError, AllocFailed};
use thiserror::Error;

/// Why a session refuses a call.
#[derive(Debug, Drop, Error)]
pub enum SessionFault {
    /// The store refused, for another cause than memory.
    #[error("{0}")]
    Store(StoreError),
    /// A changeset was not applied, for another cause than the store or memory.
    #[error("{0}")]
    Apply(ApplyFault),
    /// The table is attached to the session.
    #[error("the table is attached")]
    AlreadyAttached,
    /// The store has not the table as it was attached.
    #[error("the store has not the table as it was attached")]
    WrongStore,
    /// Memory was refused.
    #[error("out of memory")]
    NoMemory,
}

impl Fault for SessionFault {
    ghost code_of = { code_of };

    ghost class_of = { class_of };

    ghost name_of = { name_of };

    fn code(&self) -> u8 {
        match self {
            SessionFault::Store(error) => error.code(),
            SessionFault::Apply(fault) => fault.code(),
            SessionFault::AlreadyAttached => 50,
            SessionFault::WrongStore => 51,
            SessionFault::NoMemory => NoMemory.code(),
        }
    }

    fn class(&self) -> u8 {
        match self {
            SessionFault::Store(error) => error.class(),
            SessionFault::Apply(fault) => fault.class(),
            SessionFault::AlreadyAttached => 1,
            SessionFault::WrongStore => 1,
            SessionFault::NoMemory => NoMemory.class(),
        }
    }

    fn name(&self) -> &'static str {
        match self {
            SessionFault::Store(error) => error.name(),
            SessionFault::Apply(fault) => fault.name(),
            SessionFault::AlreadyAttached => "AlreadyAttached",
            SessionFault::WrongStore => "WrongStore",
            SessionFault::NoMemory => NoMemory.name(),
        }
    }
}

impl From<StoreError> for SessionFault {
    ghost use Rattle.std.specs.Prelude.{◌≡◌};
    ghost use Rattle.cs_session_notes.specs.Faults.{fault_of};

    ghost from_gives = { λ error e. e ≡ fault_of error };

    fn from(error: StoreError) -> SessionFault {
        match error {
            StoreError::NoMemory => SessionFault::NoMemory,
            error => SessionFault::Store(error),
        }
    }
}

impl From<ApplyFault> for SessionFault {
    ghost use Rattle.std.specs.Prelude.{◌≡◌};
    ghost use Rattle.cs_session_notes.specs.Faults.{apply_fault_of};

    ghost from_gives = { λ fault e. e ≡ apply_fault_of fault };

    fn from(fault: ApplyFault) -> SessionFault {
        match fault {
            ApplyFault::NoMemory => SessionFault::NoMemory,
            ApplyFault::Store(error) => SessionFault::Store(error),
            fault => SessionFault::Apply(fault),
        }
    }
}

impl From<NoMemory> for SessionFault {
    ghost use Rattle.std.specs.Prelude.{◌≡◌};
    ghost use Rattle.cs_session_notes.specs.declared.fault.SessionFault.TheVariants.{NoMemory as OutOfMemory};

    ghost from_gives = { λ _ e. e ≡ OutOfMemory };

    fn from(_refusal: NoMemory) -> SessionFault {
        SessionFault::NoMemory
    }
}

impl From<AllocError> for SessionFault {
    ghost use Rattle.std.specs.Prelude.{◌≡◌};
    ghost use Rattle.cs_session_notes.specs.declared.fault.SessionFault.TheVariants.{NoMemory as OutOfMemory};

    ghost from_gives = { λ _ e. e ≡ OutOfMemory };

    fn from(_refusal: AllocError) -> SessionFault {
        SessionFault::NoMemory
    }
}

impl<T: Drop> From<AllocFailed<T>> for SessionFault {
    ghost use Rattle.std.specs.Prelude.{◌≡◌};
    ghost use Rattle.cs_session_notes.specs.declared.fault.SessionFault.TheVariants.{NoMemory as OutOfMemory};

    ghost from_gives = { λ _ e. e ≡ OutOfMemory };

    fn from(_refusal: AllocFailed<T>) -> SessionFault {
        SessionFault::NoMemory
    }
}
