//! Why a line of a script, or a command line, is refused.
ghost use Rattle.std.specs.Prelude.{◌≡◌};
ghost use Rattle.cs_shell_replies.specs.ErrorLines.{code_of, class_of, name_of, detail_of, detail_in};
ghost use Rattle.cs_shell_replies.specs.ErrorLines.{of_hex, of_line, of_read, of_print, of_files};
ghost use Rattle.cs_shell_replies.specs.ErrorLines.{of_store, of_apply, of_session, of_column};
ghost use Rattle.cs_shell_replies.specs.declared.refusal.Refusal.TheVariants as refusal;

use cs_apply::{ApplyFault, Conflict};
use cs_files::{FileFault, OutputFault, PrintError, ToolFault};
use cs_rows::StoreError;
use cs_session::SessionFault;
use cs_shell_columns::{ColumnError, UnknownColumn};
use cs_shell_grammar::{LineFault, SyntaxFault};
use cs_value::{Fault, NoMemory};
use cs_wire::{ReadError, ReadFault};
use hex::FromHexError;
use std::alloc::AllocError;

/// Why a line or a command line is refused.
#[derive(Debug, Drop)]
pub enum Refusal {
    /// Memory was refused.
    NoMemory,
    /// Bytes are no changeset's file.
    Read(ReadFault),
    /// Two changesets are not joined, or one of two files is no changeset's.
    Files(FileFault),
    /// A store refused, for another cause than memory.
    Store(StoreError),
    /// A changeset is not applied: a table is wider, or a conflict ends it.
    Apply(ApplyFault),
    /// A table is not attached.
    Session(SessionFault),
    /// The line asks for nothing that there is.
    Syntax(SyntaxFault),
    /// A slot was not filled.
    EmptySlot,
    /// The script has more than 16777216 bytes.
    ScriptTooLong,
    /// No session is open.
    NoSession,
    /// A session is open.
    SessionOpen,
    /// The digits are not hexadecimal, two for each byte.
    BadHex,
    /// A name is not that of a column, is repeated, or is missing.
    UnknownColumn,
    /// The line is not UTF-8.
    LineText,
    /// A file is missing or too long, or a read failed.
    Input,
    /// A file is not written, or a write failed.
    Output(OutputFault),
}

/// The rest of an error line, after its name.
#[derive(Clone, Copy, Debug)]
pub enum Detail<'a> {
    Nothing,
    /// A place, or a column.
    Number(usize),
    /// The kind of a conflict, and its table.
    Conflict(&'a Conflict),
}

impl Fault for Refusal {
    ghost code_of = { code_of };

    ghost class_of = { class_of };

    ghost name_of = { name_of };

    fn code(&self) -> u8 {
        match self {
            Refusal::NoMemory => NoMemory.code(),
            Refusal::Read(fault) => fault.code(),
            Refusal::Files(fault) => fault.code(),
            Refusal::Store(error) => error.code(),
            Refusal::Apply(fault) => fault.code(),
            Refusal::Session(fault) => fault.code(),
            Refusal::Syntax(fault) => fault.code(),
            Refusal::EmptySlot => 62,
            Refusal::ScriptTooLong => 63,
            Refusal::NoSession => 64,
            Refusal::SessionOpen => 65,
            Refusal::BadHex => 66,
            Refusal::UnknownColumn => UnknownColumn.code(),
            Refusal::LineText => 68,
            Refusal::Input => 71,
            Refusal::Output(fault) => fault.code(),
        }
    }

    fn class(&self) -> u8 {
        match self {
            Refusal::NoMemory => NoMemory.class(),
            Refusal::Read(fault) => fault.class(),
            Refusal::Files(fault) => fault.class(),
            Refusal::Store(error) => error.class(),
            Refusal::Apply(fault) => fault.class(),
            Refusal::Session(fault) => fault.class(),
            Refusal::Syntax(fault) => fault.class(),
            Refusal::EmptySlot | Refusal::ScriptTooLong | Refusal::BadHex | Refusal::LineText => 1,
            Refusal::NoSession | Refusal::SessionOpen => 1,
            Refusal::UnknownColumn => UnknownColumn.class(),
            Refusal::Input => 10,
            Refusal::Output(fault) => fault.class(),
        }
    }

    fn name(&self) -> &'static str {
        match self {
            Refusal::NoMemory => NoMemory.name(),
            Refusal::Read(fault) => fault.name(),
            Refusal::Files(fault) => fault.name(),
            Refusal::Store(error) => error.name(),
            Refusal::Apply(fault) => fault.name(),
            Refusal::Session(fault) => fault.name(),
            Refusal::Syntax(fault) => fault.name(),
            Refusal::EmptySlot => "EmptySlot",
            Refusal::ScriptTooLong => "ScriptTooLong",
            Refusal::NoSession => "NoSession",
            Refusal::SessionOpen => "SessionOpen",
            Refusal::BadHex => "BadHex",
            Refusal::UnknownColumn => UnknownColumn.name(),
            Refusal::LineText => "LineText",
            Refusal::Input => "InputFault",
            Refusal::Output(fault) => fault.name(),
        }
    }
}

impl Refusal {
    /// The rest of an error line, after its name.
    pub fn detail(&self) -> Detail<'_>
        ensures { detail_in result ≡ detail_of self.now }
    {
        match self {
            Refusal::Read(fault) => Detail::Number(fault.place),
            Refusal::Files(FileFault::First(fault) | FileFault::Second(fault)) => {
                Detail::Number(fault.place)
            }
            Refusal::Files(FileFault::Schema(fault)) => Detail::Number(fault.place),
            Refusal::Apply(fault) => apply_detail(fault),
            Refusal::Syntax(fault) => Detail::Number(fault.column),
            _ => Detail::Nothing,
        }
    }
}

/// What an error line says of an apply that is refused.
fn apply_detail(fault: &ApplyFault) -> Detail<'_>
    ensures { detail_in result ≡ detail_of (refusal.Apply fault.now) }
{
    match fault {
        ApplyFault::Read(fault) => Detail::Number(fault.place),
        ApplyFault::Wider(place) => Detail::Number(*place),
        ApplyFault::Abort(conflict) | ApplyFault::Misuse(conflict) => Detail::Conflict(conflict),
        ApplyFault::Store(_) | ApplyFault::NoMemory => Detail::Nothing,
    }
}

impl From<NoMemory> for Refusal {
    ghost from_gives = { λ _ r. r ≡ refusal.NoMemory };

    fn from(_fault: NoMemory) -> Refusal {
        Refusal::NoMemory
    }
}

impl From<AllocError> for Refusal {
    ghost from_gives = { λ _ r. r ≡ refusal.NoMemory };

    fn from(_fault: AllocError) -> Refusal {
        Refusal::NoMemory
    }
}

impl From<FromHexError> for Refusal {
    ghost from_gives = { λ error r. r ≡ of_hex error };

    fn from(error: FromHexError) -> Refusal {
        match error {
            FromHexError::OutOfMemory => Refusal::NoMemory,
            _ => Refusal::BadHex,
        }
    }
}

impl From<LineFault> for Refusal {
    ghost from_gives = { λ fault r. r ≡ of_line fault };

    fn from(fault: LineFault) -> Refusal {
        match fault {
            LineFault::Fault(fault) => Refusal::Syntax(fault),
            LineFault::NoMemory => Refusal::NoMemory,
        }
    }
}

impl From<ReadError> for Refusal {
    ghost from_gives = { λ error r. r ≡ of_read error };

    fn from(error: ReadError) -> Refusal {
        match error {
            ReadError::Fault(fault) => Refusal::Read(fault),
            ReadError::NoMemory => Refusal::NoMemory,
        }
    }
}

impl From<PrintError> for Refusal {
    ghost from_gives = { λ fault r. r ≡ of_print fault };

    fn from(fault: PrintError) -> Refusal {
        match fault {
            PrintError::Read(error) => Refusal::from(error),
            PrintError::Output(fault) => Refusal::from(fault),
        }
    }
}

impl From<ToolFault> for Refusal {
    ghost from_gives = { λ error r. r ≡ of_files error };

    fn from(error: ToolFault) -> Refusal {
        match error {
            ToolFault::Fault(fault) => Refusal::Files(fault),
            ToolFault::NoMemory => Refusal::NoMemory,
        }
    }
}

impl From<StoreError> for Refusal {
    ghost from_gives = { λ error r. r ≡ of_store error };

    fn from(error: StoreError) -> Refusal {
        match error {
            StoreError::NoMemory => Refusal::NoMemory,
            error => Refusal::Store(error),
        }
    }
}

impl From<ApplyFault> for Refusal {
    ghost from_gives = { λ fault r. r ≡ of_apply fault };

    fn from(fault: ApplyFault) -> Refusal {
        match fault {
            ApplyFault::NoMemory => Refusal::NoMemory,
            ApplyFault::Read(fault) => Refusal::Read(fault),
            ApplyFault::Store(error) => Refusal::from(error),
            fault => Refusal::Apply(fault),
        }
    }
}

impl From<SessionFault> for Refusal {
    ghost from_gives = { λ fault r. r ≡ of_session fault };

    fn from(fault: SessionFault) -> Refusal {
        match fault {
            SessionFault::NoMemory => Refusal::NoMemory,
            SessionFault::Store(error) => Refusal::from(error),
            SessionFault::Apply(fault) => Refusal::from(fault),
            fault => Refusal::Session(fault),
        }
    }
}

impl From<ColumnError> for Refusal {
    ghost from_gives = { λ fault r. r ≡ of_column fault };

    fn from(fault: ColumnError) -> Refusal {
        match fault {
            ColumnError::Fault(_) => Refusal::UnknownColumn,
            ColumnError::NoMemory => Refusal::NoMemory,
        }
    }
}

impl From<OutputFault> for Refusal {
    ghost from_gives = { λ fault r. r ≡ refusal.Output fault };

    fn from(fault: OutputFault) -> Refusal {
        Refusal::Output(fault)
    }
}
