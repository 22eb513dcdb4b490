//! Faults of lines.
ghost use Rattle.std.specs.Prelude.{codes};

use cs_value::{Fault, OrNoMemory};
use thiserror::Error;

/// A line is not a command.
#[derive(Clone, Copy, Debug, PartialEq, Eq, Drop, Error)]
#[error("the line does not fit at column {column}")]
pub struct SyntaxFault {
    /// The one-based column of the first token or word that is malformed or does not fit. If the line ends too early,
    /// its length plus 1.
    pub column: usize,
}

impl Fault for SyntaxFault {
    ghost code_of = { λ _. 61 };

    ghost class_of = { λ _. 1 };

    ghost name_of = { λ _. codes "Syntax" };

    fn code(&self) -> u8 {
        61
    }

    fn class(&self) -> u8 {
        1
    }

    fn name(&self) -> &'static str {
        "Syntax"
    }
}

/// Why a line is not read: it is not a command, or memory ran out.
pub type LineFault = OrNoMemory<SyntaxFault>;
