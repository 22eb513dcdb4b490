//! The conflicts of reports.
ghost use Rattle.std.specs.Prelude.{◌≡◌, ◌≤◌, ◌++◌, length, OnOk, OnErr, take};
ghost use Rattle.cs_value.specs.declared.TheConstants.{MAX_CONTENT_LEN};
ghost use Rattle.cs_calls_parts.specs.Reading.{Gives};
ghost use Rattle.cs_calls_answers.specs.Reading.{met_of};
ghost use Rattle.cs_calls_answers.specs.Spelling.{met_bytes, MetCounts};

use cs_apply_conflict_kinds::{Choice, Kind};
use cs_calls_parts::{
    Part, Unread, read_choice, read_kind, read_row, read_text, write_choice, write_kind, write_row,
    write_text,
};
use cs_value::{NoMemory, Row, Text};
use std::alloc::Global;

/// A conflict that an apply met, and the choice for it.
#[derive(Drop)]
pub struct MetConflict {
    pub kind: Kind,
    pub choice: Choice,
    pub table: Text,
    /// The values of the key columns.
    pub key: Row,
}

impl Part for MetConflict {
    ghost part_of = { met_of };

    ghost part_bytes = { met_bytes };

    ghost IsCounted = { MetCounts };

    #[tactic(auto, unfolding(crate::specs::Reading::met_of))]
    fn read(alloc: Global, bytes: &[u8]) -> Result<(MetConflict, &[u8]), Unread> {
        let (kind, rest) = read_kind(bytes)?;
        let (choice, rest) = read_choice(rest)?;
        let (table, rest) = read_text(alloc, rest)?;
        let (key, rest) = read_row(alloc, rest)?;
        let met = MetConflict {
            kind,
            choice,
            table,
            key,
        };
        Ok((met, rest))
    }

    #[tactic(auto, unfolding(crate::specs::Spelling::met_bytes))]
    fn write(&self, out: &mut Vec<u8>) -> Result<(), NoMemory> {
        write_kind(out, self.kind)?;
        write_choice(out, self.choice)?;
        write_text(out, &self.table)?;
        write_row(out, &self.key)
    }
}
