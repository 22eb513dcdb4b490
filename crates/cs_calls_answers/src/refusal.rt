//! Refusals that name nothing.
ghost use Rattle.std.specs.Prelude.{◌≡◌};
ghost use Rattle.cs_calls_answers.specs.Refusals.{plain_refusal};

use crate::answer::Refused;
use cs_value::{Fault, NoMemory};
use std::alloc::{AllocError, AllocFailed};

impl Refused {
    /// Returns the refusal that has a code, and no part.
    pub fn plain(code: u64) -> Refused
        ensures { result ≡ plain_refusal code }
    {
        Refused {
            code,
            table: None,
            column: None,
            key: None,
            detail: None,
        }
    }
}

impl From<NoMemory> for Refused {
    ghost use Rattle.std.specs.Prelude.{◌≡◌};
    ghost use Rattle.cs_calls_answers.specs.Refusals.{out_of_memory};

    ghost from_gives = { λ _ why. why ≡ out_of_memory };

    fn from(refusal: NoMemory) -> Refused {
        Refused::plain(u64::from(refusal.code()))
    }
}

impl From<AllocError> for Refused {
    ghost use Rattle.std.specs.Prelude.{◌≡◌};
    ghost use Rattle.cs_calls_answers.specs.Refusals.{out_of_memory};

    ghost from_gives = { λ _ why. why ≡ out_of_memory };

    fn from(_refusal: AllocError) -> Refused {
        Refused::from(NoMemory)
    }
}

impl<T: Drop> From<AllocFailed<T>> for Refused {
    ghost use Rattle.std.specs.Prelude.{◌≡◌};
    ghost use Rattle.cs_calls_answers.specs.Refusals.{out_of_memory};

    ghost from_gives = { λ _ why. why ≡ out_of_memory };

    fn from(_refusal: AllocFailed<T>) -> Refused {
        Refused::from(NoMemory)
    }
}
