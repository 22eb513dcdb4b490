//! Why a file is refused.
ghost use Rattle.std.specs.Prelude.{◌≡◌, ◌+◌, ◌≤◌, ◌<◌, ◌^◌};
ghost use Rattle.cs_value.specs.declared.refusal.OrNoMemory.TheVariants as tool;
ghost use Rattle.cs_wire_entries.specs.ReadFaults.{code_of, name_of, kind_of};

use cs_value::{Fault, FieldFault, FieldFaultKind, OrNoMemory};
use thiserror::Error;

/// What is wrong with bytes that are not a changeset.
#[derive(Clone, Copy, Debug, PartialEq, Eq, Error)]
pub enum ReadFaultKind {
    #[error("the file ends inside a part")]
    Truncated,
    #[error("the file does not begin with a table")]
    NotTable,
    #[error("the file is a patchset")]
    Patchset,
    #[error("a count is not spelled as a varint")]
    BadVarint,
    #[error("a table has no column, or more than 32767")]
    ColumnCount,
    #[error("a table has no key column")]
    NoKey,
    #[error("a table's name is empty or not UTF-8")]
    BadName,
    #[error("a table stands twice")]
    DuplicateTable,
    #[error("a table has no change")]
    EmptyGroup,
    #[error("a change has no operation of the format")]
    BadOp,
    #[error("an indirect flag is neither 0 nor 1")]
    BadFlag,
    #[error("a field has no type of the format")]
    BadType,
    #[error("a field is a real number")]
    RealValue,
    #[error("a text is not UTF-8")]
    BadText,
    #[error("a field that has to be defined is not")]
    UndefinedField,
    #[error("a field of an update is defined on one side alone")]
    Unpaired,
    #[error("a key is NULL")]
    NullKey,
    #[error("a key stands twice in a table")]
    DuplicateKey,
}

impl ReadFaultKind {
    /// Returns the number of the fault, 1 to 18.
    pub fn code(self) -> u8
        ensures code { result ≡ code_of self }
        ensures range { (1 ≤ result) × (result ≤ 18) }
    {
        match self {
            ReadFaultKind::Truncated => 1,
            ReadFaultKind::NotTable => 2,
            ReadFaultKind::Patchset => 3,
            ReadFaultKind::BadVarint => 4,
            ReadFaultKind::ColumnCount => 5,
            ReadFaultKind::NoKey => 6,
            ReadFaultKind::BadName => 7,
            ReadFaultKind::DuplicateTable => 8,
            ReadFaultKind::EmptyGroup => 9,
            ReadFaultKind::BadOp => 10,
            ReadFaultKind::BadFlag => 11,
            ReadFaultKind::BadType => 12,
            ReadFaultKind::RealValue => 13,
            ReadFaultKind::BadText => 14,
            ReadFaultKind::UndefinedField => 15,
            ReadFaultKind::Unpaired => 16,
            ReadFaultKind::NullKey => 17,
            ReadFaultKind::DuplicateKey => 18,
        }
    }

    /// Returns the name, as in error lines.
    pub fn name(self) -> &'static str
        ensures { result.now ≡ name_of self }
    {
        match self {
            ReadFaultKind::Truncated => "Truncated",
            ReadFaultKind::NotTable => "NotTable",
            ReadFaultKind::Patchset => "Patchset",
            ReadFaultKind::BadVarint => "BadVarint",
            ReadFaultKind::ColumnCount => "ColumnCount",
            ReadFaultKind::NoKey => "NoKey",
            ReadFaultKind::BadName => "BadName",
            ReadFaultKind::DuplicateTable => "DuplicateTable",
            ReadFaultKind::EmptyGroup => "EmptyGroup",
            ReadFaultKind::BadOp => "BadOp",
            ReadFaultKind::BadFlag => "BadFlag",
            ReadFaultKind::BadType => "BadType",
            ReadFaultKind::RealValue => "RealValue",
            ReadFaultKind::BadText => "BadText",
            ReadFaultKind::UndefinedField => "UndefinedField",
            ReadFaultKind::Unpaired => "Unpaired",
            ReadFaultKind::NullKey => "NullKey",
            ReadFaultKind::DuplicateKey => "DuplicateKey",
        }
    }
}

/// A fault, and its byte offset in the file, zero-based.
#[derive(Clone, Copy, Debug, PartialEq, Eq, Error)]
#[error("{kind} at byte {place}")]
pub struct ReadFault {
    pub kind: ReadFaultKind,
    pub place: usize,
}

impl Fault for ReadFault {
    ghost code_of = { λ fault. code_of fault.kind };

    ghost class_of = { λ _. 11 };

    ghost name_of = { λ fault. name_of fault.kind };

    fn code(&self) -> u8 {
        self.kind.code()
    }

    fn class(&self) -> u8 {
        11
    }

    fn name(&self) -> &'static str {
        self.kind.name()
    }
}

/// Why a file is not read: it is not a changeset, or memory ran out.
pub type ReadError = OrNoMemory<ReadFault>;

impl From<ReadFault> for ReadError {
    ghost from_gives = { λ fault e. e ≡ tool.Fault fault };

    fn from(fault: ReadFault) -> ReadError {
        ReadError::Fault(fault)
    }
}

/// Returns the error of a fault at a byte offset.
pub fn fault_at(kind: ReadFaultKind, place: usize) -> ReadFault
    ensures { result ≡ record { kind = kind; place = place } }
{
    ReadFault { kind, place }
}

/// Returns the error of a field or a varint that was read from the byte offset `start` on.
pub fn fault_behind(start: usize, fault: FieldFault) -> ReadFault
    requires { start + fault.place < 2 ^ 64 }
    ensures { result ≡ record { kind = kind_of fault.kind; place = start + fault.place } }
{
    let kind = match fault.kind {
        FieldFaultKind::Truncated => ReadFaultKind::Truncated,
        FieldFaultKind::BadVarint => ReadFaultKind::BadVarint,
        FieldFaultKind::BadType => ReadFaultKind::BadType,
        FieldFaultKind::RealValue => ReadFaultKind::RealValue,
        FieldFaultKind::BadText => ReadFaultKind::BadText,
    };
    fault_at(kind, start + fault.place)
}
