//! The fault of a failed write.
ghost use Rattle.std.specs.Prelude.{codes};

use cs_value::Fault;
use thiserror::Error;

/// A write failed, or accepted no byte. The bytes written so far remain.
#[derive(Clone, Copy, Debug, PartialEq, Eq, Drop, Error)]
#[error("a write failed")]
pub struct OutputFault;

impl Fault for OutputFault {
    ghost code_of = { λ _. 72 };

    ghost class_of = { λ _. 10 };

    ghost name_of = { λ _. codes "OutputFault" };

    fn code(&self) -> u8 {
        72
    }

    fn class(&self) -> u8 {
        10
    }

    fn name(&self) -> &'static str {
        "OutputFault"
    }
}
