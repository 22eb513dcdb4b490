//! Why statements are refused.
ghost use Rattle.std.specs.Prelude.{codes};

use cs_value::{Fault, OrNoMemory};
use thiserror::Error;

/// A name is that of no column, or is there twice, or is missing.
#[derive(Clone, Copy, Debug, PartialEq, Eq, Drop, Error)]
#[error("the names do not fit the columns")]
pub struct UnknownColumn;

impl Fault for UnknownColumn {
    ghost code_of = { λ _. 67 };

    ghost class_of = { λ _. 1 };

    ghost name_of = { λ _. codes "UnknownColumn" };

    fn code(&self) -> u8 {
        67
    }

    fn class(&self) -> u8 {
        1
    }

    fn name(&self) -> &'static str {
        "UnknownColumn"
    }
}

/// Why the columns of a statement are refused: a name does not fit them, or memory was refused.
pub type ColumnError = OrNoMemory<UnknownColumn>;
