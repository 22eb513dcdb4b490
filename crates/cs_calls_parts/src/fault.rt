//! Why bytes are no call.
ghost use Rattle.std.specs.Prelude.{◌≡◌, ◌-◌, length};
ghost use Rattle.cs_calls_parts.specs.Faults.{code_of, class_of, name_of};

use cs_value::{Fault, FieldFaultKind, OrNoMemory};
use thiserror::Error;

/// Why bytes are no call.
#[derive(Clone, Copy, Debug, PartialEq, Eq, Error)]
pub enum CallFaultKind {
    /// A count, a text or a value cannot be read, or the bytes end inside the call.
    #[error("{0}")]
    Field(FieldFaultKind),
    /// A value is undefined.
    #[error("a value is undefined")]
    UndefinedField,
    /// A byte has none of the numbers that its place allows.
    #[error("a byte is out of range")]
    BadByte,
    /// The first byte is no call's number.
    #[error("there is no call of this number")]
    UnknownCall,
    /// The first byte is no answer's number.
    #[error("there is no answer of this number")]
    UnknownAnswer,
    /// Bytes follow the call or the answer.
    #[error("bytes follow it")]
    ExtraBytes,
}

impl CallFaultKind {
    /// Returns the number of this fault. A value that is undefined has the number that it has in a changeset file.
    pub fn code(self) -> u8
        ensures { result ≡ code_of self }
    {
        match self {
            CallFaultKind::Field(kind) => kind.code(),
            CallFaultKind::UndefinedField => 15,
            CallFaultKind::BadByte => 90,
            CallFaultKind::UnknownCall => 91,
            CallFaultKind::ExtraBytes => 92,
            CallFaultKind::UnknownAnswer => 93,
        }
    }

    /// Returns the name that goes with the number.
    pub fn name(self) -> &'static str
        ensures { result.now ≡ name_of self }
    {
        match self {
            CallFaultKind::Field(kind) => kind.name(),
            CallFaultKind::UndefinedField => "UndefinedField",
            CallFaultKind::BadByte => "BadByte",
            CallFaultKind::UnknownCall => "UnknownCall",
            CallFaultKind::ExtraBytes => "ExtraBytes",
            CallFaultKind::UnknownAnswer => "UnknownAnswer",
        }
    }
}

/// A fault, and its byte offset in the call: where the first part that cannot be read begins, or the place in it that
/// `docs/CALLS.md` says.
#[derive(Clone, Copy, Debug, PartialEq, Eq, Error)]
#[error("{kind} at byte {place}")]
pub struct CallFault {
    pub kind: CallFaultKind,
    pub place: usize,
}

impl Fault for CallFault {
    ghost code_of = { λ fault. code_of fault.kind };

    ghost class_of = { λ fault. class_of fault.kind };

    ghost name_of = { λ fault. name_of fault.kind };

    fn code(&self) -> u8 {
        self.kind.code()
    }

    fn class(&self) -> u8 {
        11
    }

    fn name(&self) -> &'static str {
        self.kind.name()
    }
}

/// Why a call is not read: the bytes are none, or memory ran out.
pub type CallError = OrNoMemory<CallFault>;

/// A fault, and the number of bytes from its place to the end of the call.
#[derive(Clone, Copy)]
pub struct Misread {
    pub kind: CallFaultKind,
    pub left: usize,
}

/// Why a part of a call is not read.
pub type Unread = OrNoMemory<Misread>;

impl Misread {
    /// Returns the fault with its place among the bytes of the whole call.
    pub fn of_call(self, call: &[u8]) -> CallFault
        ensures { result ≡ record { kind = self.kind; place = length call.now - self.left } }
    {
        CallFault {
            kind: self.kind,
            place: call.len().saturating_sub(self.left),
        }
    }
}
