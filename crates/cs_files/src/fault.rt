//! Faults of calls on files.
ghost use Rattle.std.specs.Prelude.{◌≡◌};
ghost use Rattle.cs_files.specs.Faults.{code_of, class_of, name_of, of_first, of_second};
ghost use Rattle.cs_files.specs.Faults.{print_code_of, print_class_of, print_name_of, of_print};
ghost use Rattle.cs_files.specs.declared.fault.PrintError.TheVariants as print;

use cs_file_texts::OutputFault;
use cs_group::SchemaFault;
use cs_value::{Fault, OrNoMemory};
use cs_wire::{ReadError, ReadFault};
use thiserror::Error;

/// Why a file is not printed.
#[derive(Debug, PartialEq, Eq, Drop, Error)]
pub enum PrintError {
    /// The file is not a changeset, or memory ran out. Nothing is written.
    #[error("{0}")]
    Read(ReadError),
    /// A write failed or accepted no byte. A prefix of the text is written.
    #[error("{0}")]
    Output(OutputFault),
}

impl Fault for PrintError {
    ghost code_of = { print_code_of };

    ghost class_of = { print_class_of };

    ghost name_of = { print_name_of };

    fn code(&self) -> u8 {
        match self {
            PrintError::Read(error) => error.code(),
            PrintError::Output(fault) => fault.code(),
        }
    }

    fn class(&self) -> u8 {
        match self {
            PrintError::Read(error) => error.class(),
            PrintError::Output(fault) => fault.class(),
        }
    }

    fn name(&self) -> &'static str {
        match self {
            PrintError::Read(error) => error.name(),
            PrintError::Output(fault) => fault.name(),
        }
    }
}

impl From<ReadError> for PrintError {
    ghost from_gives = { λ error fault. fault ≡ print.Read error };

    fn from(error: ReadError) -> PrintError {
        PrintError::Read(error)
    }
}

impl From<OutputFault> for PrintError {
    ghost from_gives = { λ output fault. fault ≡ print.Output output };

    fn from(fault: OutputFault) -> PrintError {
        PrintError::Output(fault)
    }
}

/// What is wrong with the first file, with the second, or with both together.
#[derive(Clone, Copy, Debug, PartialEq, Eq, Drop, Error)]
pub enum FileFault {
    /// The first file, or the only one, is not a changeset.
    #[error("{0}")]
    First(ReadFault),
    /// The first file is a changeset, and the second is not.
    #[error("{0}")]
    Second(ReadFault),
    /// The files cannot be concatenated: a table differs.
    #[error("{0}")]
    Schema(SchemaFault),
}

impl Fault for FileFault {
    ghost code_of = { code_of };

    ghost class_of = { class_of };

    ghost name_of = { name_of };

    fn code(&self) -> u8 {
        match self {
            FileFault::First(fault) | FileFault::Second(fault) => fault.code(),
            FileFault::Schema(fault) => fault.code(),
        }
    }

    fn class(&self) -> u8 {
        match self {
            FileFault::First(fault) | FileFault::Second(fault) => fault.class(),
            FileFault::Schema(fault) => fault.class(),
        }
    }

    fn name(&self) -> &'static str {
        match self {
            FileFault::First(fault) | FileFault::Second(fault) => fault.name(),
            FileFault::Schema(fault) => fault.name(),
        }
    }
}

/// Why a call on files fails: a fault of the files, or out of memory.
pub type ToolFault = OrNoMemory<FileFault>;

/// Returns the error of a first or only file that cannot be read.
pub fn first_fault(error: ReadError) -> ToolFault
    ensures { result ≡ of_first error }
{
    match error {
        ReadError::Fault(fault) => ToolFault::Fault(FileFault::First(fault)),
        ReadError::NoMemory => ToolFault::NoMemory,
    }
}

/// Returns the error of a text that cannot be made in memory. A write fails there only if memory runs out.
pub(crate) fn text_fault(fault: PrintError) -> ToolFault
    ensures { result ≡ of_print fault }
{
    match fault {
        PrintError::Read(error) => first_fault(error),
        PrintError::Output(OutputFault) => ToolFault::NoMemory,
    }
}

/// Returns the error of a second file that cannot be read.
pub(crate) fn second_fault(error: ReadError) -> ToolFault
    ensures { result ≡ of_second error }
{
    match error {
        ReadError::Fault(fault) => ToolFault::Fault(FileFault::Second(fault)),
        ReadError::NoMemory => ToolFault::NoMemory,
    }
}
