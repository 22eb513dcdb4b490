//! Why words ask for nothing.
ghost use Rattle.std.specs.Prelude.{◌≡◌};
ghost use Rattle.clap.specs.Words.{kind_of};
ghost use Rattle.cs_shell_command_line.specs.Words.{fault_of_kind};
ghost use Rattle.cs_shell_command_line.specs.declared.fault.WordsFault.TheVariants as fault;

use clap::error::ErrorKind;
use std::alloc::AllocError;

/// Why the words of a command line ask for nothing that is done.
#[derive(Clone, Copy, Debug, PartialEq, Eq, Drop)]
pub enum WordsFault {
    /// They fit no command.
    Usage,
    /// They ask for help.
    Help,
    /// There is no memory to read them.
    NoMemory,
}

impl From<AllocError> for WordsFault {
    ghost from_gives = { λ _ why. why ≡ fault.NoMemory };

    fn from(_error: AllocError) -> WordsFault {
        WordsFault::NoMemory
    }
}

impl From<clap::Error> for WordsFault {
    ghost from_gives = { λ error why. why ≡ fault_of_kind (kind_of error) };

    fn from(error: clap::Error) -> WordsFault {
        match error.kind() {
            ErrorKind::DisplayHelp => WordsFault::Help,
            ErrorKind::OutOfMemory => WordsFault::NoMemory,
            _ => WordsFault::Usage,
        }
    }
}
