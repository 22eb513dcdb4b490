//! Why a history refuses a call.
ghost use Rattle.cs_history.specs.Faults.{class_of, code_of, name_of};

use cs_apply::ApplyFault;
use cs_session::SessionFault;
use cs_store::StoreError;
use cs_value::{Fault, NoMemory};
use std::alloc::{AllocError, AllocFailed};
use thiserror::Error;

/// Why a history refuses a call.
#[derive(Debug, Drop, Error)]
pub enum HistoryFault {
    /// The store refused, for another cause than memory.
    #[error("{0}")]
    Store(StoreError),
    /// The changeset of an action was not applied or reverted, for another cause than the store or memory.
    #[error("{0}")]
    Apply(ApplyFault),
    /// A table is not there as the session has attached it.
    #[error("the store has not the table as it was attached")]
    WrongStore,
    /// No table has the name, or the one that has it is not a history.
    #[error("the table is not a history")]
    NotHistory,
    /// No action is left to undo, or to redo.
    #[error("no action is left")]
    NothingLeft,
    /// The session has changes of the table of the history.
    #[error("the session has changes of the history")]
    OwnTable,
    /// The changeset or the label is longer than a value can be, or no number before the first row is left.
    #[error("the history cannot take the action")]
    TooLarge,
    /// A row of the history is not one of an action.
    #[error("a row of the history is not one of an action")]
    Damaged,
    /// Memory was refused.
    #[error("out of memory")]
    NoMemory,
}

impl Fault for HistoryFault {
    ghost code_of = { code_of };

    ghost class_of = { class_of };

    ghost name_of = { name_of };

    fn code(&self) -> u8 {
        match self {
            HistoryFault::Store(error) => error.code(),
            HistoryFault::Apply(fault) => fault.code(),
            HistoryFault::WrongStore => 51,
            HistoryFault::NotHistory => 100,
            HistoryFault::NothingLeft => 101,
            HistoryFault::Damaged => 102,
            HistoryFault::TooLarge => 103,
            HistoryFault::OwnTable => 104,
            HistoryFault::NoMemory => NoMemory.code(),
        }
    }

    fn class(&self) -> u8 {
        match self {
            HistoryFault::Store(error) => error.class(),
            HistoryFault::Apply(fault) => fault.class(),
            HistoryFault::WrongStore
            | HistoryFault::NotHistory
            | HistoryFault::NothingLeft
            | HistoryFault::Damaged
            | HistoryFault::TooLarge
            | HistoryFault::OwnTable => 1,
            HistoryFault::NoMemory => NoMemory.class(),
        }
    }

    fn name(&self) -> &'static str {
        match self {
            HistoryFault::Store(error) => error.name(),
            HistoryFault::Apply(fault) => fault.name(),
            HistoryFault::WrongStore => "WrongStore",
            HistoryFault::NotHistory => "NotHistory",
            HistoryFault::NothingLeft => "NothingLeft",
            HistoryFault::Damaged => "DamagedHistory",
            HistoryFault::TooLarge => "HistoryFull",
            HistoryFault::OwnTable => "OwnTable",
            HistoryFault::NoMemory => NoMemory.name(),
        }
    }
}

impl From<StoreError> for HistoryFault {
    ghost use Rattle.std.specs.Prelude.{◌≡◌};
    ghost use Rattle.cs_history.specs.Faults.{store_fault};

    ghost from_gives = { λ error e. e ≡ store_fault error };

    fn from(error: StoreError) -> HistoryFault {
        match error {
            StoreError::NoMemory => HistoryFault::NoMemory,
            error => HistoryFault::Store(error),
        }
    }
}

impl From<ApplyFault> for HistoryFault {
    ghost use Rattle.std.specs.Prelude.{◌≡◌};
    ghost use Rattle.cs_history.specs.Faults.{apply_fault};

    ghost from_gives = { λ fault e. e ≡ apply_fault fault };

    fn from(fault: ApplyFault) -> HistoryFault {
        match fault {
            ApplyFault::NoMemory => HistoryFault::NoMemory,
            ApplyFault::Store(error) => HistoryFault::Store(error),
            fault => HistoryFault::Apply(fault),
        }
    }
}

impl From<SessionFault> for HistoryFault {
    ghost use Rattle.std.specs.Prelude.{◌≡◌};
    ghost use Rattle.cs_history.specs.Faults.{session_fault};

    ghost from_gives = { λ fault e. e ≡ session_fault fault };

    fn from(fault: SessionFault) -> HistoryFault {
        match fault {
            SessionFault::NoMemory => HistoryFault::NoMemory,
            SessionFault::Store(error) => HistoryFault::Store(error),
            SessionFault::Apply(fault) => HistoryFault::Apply(fault),
            _ => HistoryFault::WrongStore,
        }
    }
}

impl From<NoMemory> for HistoryFault {
    ghost use Rattle.std.specs.Prelude.{◌≡◌};
    ghost use Rattle.cs_history.specs.declared.fault.HistoryFault.TheVariants.{NoMemory as OutOfMemory};

    ghost from_gives = { λ _ e. e ≡ OutOfMemory };

    fn from(_refusal: NoMemory) -> HistoryFault {
        HistoryFault::NoMemory
    }
}

impl From<AllocError> for HistoryFault {
    ghost use Rattle.std.specs.Prelude.{◌≡◌};
    ghost use Rattle.cs_history.specs.declared.fault.HistoryFault.TheVariants.{NoMemory as OutOfMemory};

    ghost from_gives = { λ _ e. e ≡ OutOfMemory };

    fn from(_refusal: AllocError) -> HistoryFault {
        HistoryFault::NoMemory
    }
}

impl<T: Drop> From<AllocFailed<T>> for HistoryFault {
    ghost use Rattle.std.specs.Prelude.{◌≡◌};
    ghost use Rattle.cs_history.specs.declared.fault.HistoryFault.TheVariants.{NoMemory as OutOfMemory};

    ghost from_gives = { λ _ e. e ≡ OutOfMemory };

    fn from(_refusal: AllocFailed<T>) -> HistoryFault {
        HistoryFault::NoMemory
    }
}
