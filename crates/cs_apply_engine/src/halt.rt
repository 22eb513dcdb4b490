//! How a run ends at a conflict.
ghost use Rattle.std.specs.Prelude.{◌≡◌};
ghost use Rattle.cs_apply_engine.specs.Steps.{halt_by, refusal_of};

use crate::conflict::Conflict;
use crate::fault::ApplyFault;
use cs_apply_conflict_kinds::Choice;

/// How a run ended at an entry.
#[derive(Drop)]
pub(crate) enum Halt {
    /// The handler chose to abort at this conflict.
    Aborted(Conflict),
    /// The handler chose to replace a row that is not there, or to carry out an entry that its table refuses.
    Misused(Conflict),
}

impl Halt {
    /// Returns how a run ends at a conflict, by what the handler chose.
    pub(crate) fn at(conflict: Conflict, choice: Choice) -> Halt
        ensures { result ≡ halt_by conflict choice }
    {
        if choice == Choice::Abort {
            Halt::Aborted(conflict)
        } else {
            Halt::Misused(conflict)
        }
    }

    /// Returns the fault of a run that ended so.
    pub(crate) fn into_fault(self) -> ApplyFault
        ensures { result ≡ refusal_of self }
    {
        match self {
            Halt::Aborted(conflict) => ApplyFault::Abort(conflict),
            Halt::Misused(conflict) => ApplyFault::Misuse(conflict),
        }
    }
}
