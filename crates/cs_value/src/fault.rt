//! The faults of reading a field, a varint or an image.
ghost use Rattle.std.specs.Prelude.{◌≡◌, ◌+◌, ◌<◌, ◌^◌};
ghost use Rattle.cs_value.specs.FieldFaults.{code_of, name_of};

use crate::refusal::{Fault, OrNoMemory};
use thiserror::Error;

/// Why bytes do not begin with a field or a varint.
#[derive(Clone, Copy, Debug, PartialEq, Eq, Error)]
pub enum FieldFaultKind {
    /// The bytes end inside the field.
    #[error("the bytes end inside a field")]
    Truncated,
    /// The count of bytes is not in its shortest spelling, or above 2147483647.
    #[error("a count is not spelled as a varint")]
    BadVarint,
    /// The type byte is above 0x05.
    #[error("a field has no type of the format")]
    BadType,
    /// The type byte is 0x02, a real number.
    #[error("a field is a real number")]
    RealValue,
    /// A text is not UTF-8.
    #[error("a text is not UTF-8")]
    BadText,
}

impl FieldFaultKind {
    /// Returns the number of this fault among the faults of the product.
    pub fn code(self) -> u8
        ensures { result ≡ code_of self }
    {
        match self {
            FieldFaultKind::Truncated => 1,
            FieldFaultKind::BadVarint => 4,
            FieldFaultKind::BadType => 12,
            FieldFaultKind::RealValue => 13,
            FieldFaultKind::BadText => 14,
        }
    }

    /// Returns the name that error lines print.
    pub fn name(self) -> &'static str
        ensures { result.now ≡ name_of self }
    {
        match self {
            FieldFaultKind::Truncated => "Truncated",
            FieldFaultKind::BadVarint => "BadVarint",
            FieldFaultKind::BadType => "BadType",
            FieldFaultKind::RealValue => "RealValue",
            FieldFaultKind::BadText => "BadText",
        }
    }
}

/// A fault, and its byte offset in the slice that was read.
#[derive(Clone, Copy, Debug, PartialEq, Eq, Error)]
#[error("{kind} at byte {place}")]
pub struct FieldFault {
    pub kind: FieldFaultKind,
    pub place: usize,
}

impl Fault for FieldFault {
    ghost code_of = { λ fault. code_of fault.kind };

    ghost class_of = { λ _. 11 };

    ghost name_of = { λ fault. name_of fault.kind };

    fn code(&self) -> u8 {
        self.kind.code()
    }

    fn class(&self) -> u8 {
        11
    }

    fn name(&self) -> &'static str {
        self.kind.name()
    }
}

impl FieldFault {
    /// Returns the fault with `start` added to its offset. `start` is the offset at which the field was read.
    pub fn behind(self, start: usize) -> FieldFault
        requires { start + self.place < 2 ^ 64 }
        ensures { result ≡ record { kind = self.kind; place = start + self.place } }
    {
        FieldFault {
            kind: self.kind,
            place: start + self.place,
        }
    }
}

/// Why an image is not read: the bytes begin with fewer fields than there are columns, or memory runs out.
pub type ImageFault = OrNoMemory<FieldFault>;
