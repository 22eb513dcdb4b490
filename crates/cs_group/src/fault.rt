//! Why two changesets cannot be concatenated.
ghost use Rattle.std.specs.Prelude.{codes};

use cs_value::{Fault, OrNoMemory};
use thiserror::Error;

/// A table has another number of columns or another key in the second changeset than in the first.
#[derive(Clone, Copy, Debug, PartialEq, Eq, Drop, Error)]
#[error("a table has other columns or another key at group {place}")]
pub struct SchemaFault {
    /// The index of the group of the table in the second changeset, zero-based.
    pub place: usize,
}

impl Fault for SchemaFault {
    ghost code_of = { λ _. 43 };

    ghost class_of = { λ _. 17 };

    ghost name_of = { λ _. codes "Schema" };

    fn code(&self) -> u8 {
        43
    }

    fn class(&self) -> u8 {
        17
    }

    fn name(&self) -> &'static str {
        "Schema"
    }
}

/// Why two changesets are not concatenated: a table differs, or memory ran out.
pub type ConcatFault = OrNoMemory<SchemaFault>;
