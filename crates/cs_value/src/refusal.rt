//! Why calls fail: a fault of their own, or memory that runs out.
ghost use Rattle.std.specs.Prelude.{◌≡◌, ℕ, List, codes};
ghost use Rattle.cs_value.specs.Refusals.{of_refusal};
ghost use Rattle.cs_value.specs.declared.refusal.OrNoMemory.TheVariants.{NoMemory as OutOfMemory};

use std::alloc::{AllocError, AllocFailed};
use std::fmt::Display;
use thiserror::Error;

/// A fault of the product. It has a number, a class and a name. Returning them allocates nothing.
pub trait Fault {
    ghost code_of: { Self → ℕ };

    ghost class_of: { Self → ℕ };

    ghost name_of: { Self → List ℕ };

    /// Returns the number of this fault, which no other fault of the product has.
    fn code(&self) -> u8
        ensures { result ≡ code_of self.now };

    /// Returns SQLite's result code for it, such as `SQLITE_CORRUPT`.
    fn class(&self) -> u8
        ensures { result ≡ class_of self.now };

    /// Returns the name that error lines print.
    fn name(&self) -> &'static str
        ensures { result.now ≡ name_of self.now };
}

/// The fault of a call that runs out of memory.
#[derive(Clone, Copy, Debug, PartialEq, Eq, Drop, Error)]
#[error("out of memory")]
pub struct NoMemory;

impl Fault for NoMemory {
    ghost code_of = { λ _. 60 };

    ghost class_of = { λ _. 7 };

    ghost name_of = { λ _. codes "NoMemory" };

    fn code(&self) -> u8 {
        60
    }

    fn class(&self) -> u8 {
        7
    }

    fn name(&self) -> &'static str {
        "NoMemory"
    }
}

impl From<AllocError> for NoMemory {
    fn from(_error: AllocError) -> NoMemory {
        NoMemory
    }
}

impl<T: Drop> From<AllocFailed<T>> for NoMemory {
    fn from(_error: AllocFailed<T>) -> NoMemory {
        NoMemory
    }
}

/// Why a call fails that allocates: a fault of its own, or memory that runs out.
#[derive(Debug, PartialEq, Eq, Drop, Error)]
#[error_bound(F: Display)]
pub enum OrNoMemory<F> {
    /// The call's own fault.
    #[error("{0}")]
    Fault(F),
    /// Memory runs out.
    #[error("out of memory")]
    NoMemory,
}

impl<F: Fault> Fault for OrNoMemory<F> {
    ghost code_of = { of_refusal F.code_of 60 };

    ghost class_of = { of_refusal F.class_of 7 };

    ghost name_of = { of_refusal F.name_of (codes "NoMemory") };

    fn code(&self) -> u8 {
        match self {
            OrNoMemory::Fault(fault) => fault.code(),
            OrNoMemory::NoMemory => NoMemory.code(),
        }
    }

    fn class(&self) -> u8 {
        match self {
            OrNoMemory::Fault(fault) => fault.class(),
            OrNoMemory::NoMemory => NoMemory.class(),
        }
    }

    fn name(&self) -> &'static str {
        match self {
            OrNoMemory::Fault(fault) => fault.name(),
            OrNoMemory::NoMemory => NoMemory.name(),
        }
    }
}

impl<F> From<NoMemory> for OrNoMemory<F> {
    ghost from_gives = { λ _ e. e ≡ OutOfMemory };

    fn from(_refusal: NoMemory) -> OrNoMemory<F> {
        OrNoMemory::NoMemory
    }
}

impl<F> From<AllocError> for OrNoMemory<F> {
    ghost from_gives = { λ _ e. e ≡ OutOfMemory };

    fn from(_refusal: AllocError) -> OrNoMemory<F> {
        OrNoMemory::NoMemory
    }
}

impl<T: Drop, F> From<AllocFailed<T>> for OrNoMemory<F> {
    ghost from_gives = { λ _ e. e ≡ OutOfMemory };

    fn from(_refusal: AllocFailed<T>) -> OrNoMemory<F> {
        OrNoMemory::NoMemory
    }
}
