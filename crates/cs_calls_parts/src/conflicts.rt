//! The conflicts that an apply would meet, and the choices for them.
ghost use Rattle.std.specs.Prelude.{◌≡◌, ◌≤◌, ◌++◌, length, OnOk, OnErr, IfSome, take};
ghost use Rattle.cs_value.specs.declared.TheConstants.{MAX_CONTENT_LEN};
ghost use Rattle.cs_calls_parts.specs.Reading.{Gives, chosen_of, found_of};
ghost use Rattle.cs_calls_parts.specs.Spelling.{ChosenCounts, FoundCounts, chosen_bytes, found_bytes};

use crate::fault::Unread;
use crate::part::Part;
use crate::spell::{write_choice, write_kind, write_number, write_option, write_row, write_text};
use crate::step::{read_choice, read_kind, read_number, read_option, read_row, read_text};
use cs_apply_conflict_kinds::Kind;
use cs_apply_engine::Choice;
use cs_value::{NoMemory, Row, Text};
use std::alloc::Global;

/// A conflict that an apply would meet.
#[derive(Drop)]
pub struct FoundConflict {
    /// The index of its entry in the file, from 0.
    pub index: u64,
    pub kind: Kind,
    pub table: Text,
    /// The values of the key columns.
    pub key: Row,
    /// The row of the key, if there is one.
    pub current: Option<Row>,
}

/// A conflict that an apply would meet, and the choice for it.
#[derive(Drop)]
pub struct ChosenConflict {
    pub conflict: FoundConflict,
    pub choice: Choice,
}

impl Part for FoundConflict {
    ghost part_of = { found_of };

    ghost part_bytes = { found_bytes };

    ghost IsCounted = { FoundCounts };

    #[tactic(auto, unfolding(crate::specs::Reading::found_of))]
    fn read(alloc: Global, bytes: &[u8]) -> Result<(FoundConflict, &[u8]), Unread> {
        let (index, rest) = read_number(bytes)?;
        let (kind, rest) = read_kind(rest)?;
        let (table, rest) = read_text(alloc, rest)?;
        let (key, rest) = read_row(alloc, rest)?;
        let (current, rest) = read_option(alloc, rest)?;
        let found = FoundConflict {
            index,
            kind,
            table,
            key,
            current,
        };
        Ok((found, rest))
    }

    #[tactic(auto, unfolding(crate::specs::Spelling::found_bytes))]
    fn write(&self, out: &mut Vec<u8>) -> Result<(), NoMemory> {
        write_number(out, self.index)?;
        write_kind(out, self.kind)?;
        write_text(out, &self.table)?;
        write_row(out, &self.key)?;
        write_option(out, &self.current)
    }
}

impl Part for ChosenConflict {
    ghost part_of = { chosen_of };

    ghost part_bytes = { chosen_bytes };

    ghost IsCounted = { ChosenCounts };

    #[tactic(auto, unfolding(crate::specs::Reading::chosen_of))]
    fn read(alloc: Global, bytes: &[u8]) -> Result<(ChosenConflict, &[u8]), Unread> {
        let (conflict, rest) = FoundConflict::read(alloc, bytes)?;
        let (choice, rest) = read_choice(rest)?;
        Ok((ChosenConflict { conflict, choice }, rest))
    }

    #[tactic(auto, unfolding(crate::specs::Spelling::chosen_bytes))]
    fn write(&self, out: &mut Vec<u8>) -> Result<(), NoMemory> {
        self.conflict.write(out)?;
        write_choice(out, self.choice)
    }
}
