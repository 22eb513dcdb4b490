//! The lists of answers. Contracts see each as a list.
ghost use Rattle.std.specs.Prelude.{◌≡◌};

use crate::conflicts::MetConflict;
use cs_calls_parts::FoundConflict;
use cs_value::{Row, Text};
use std::marker::Model;

/// The names of tables.
#[derive(Drop)]
pub struct Names {
    names: Vec<Text>,
}

impl Model for Names {
    ghost use Rattle.std.specs.Prelude.{List, ℕ};

    ghost Value = { List (List ℕ) };

    ghost view = { λ l. l.names.items };
}

impl Names {
    /// Returns the list of some names. It allocates nothing.
    pub fn new(names: Vec<Text>) -> Names
        ensures { result ≡ names.items }
    {
        Names { names }
    }

    /// Returns the names.
    pub fn as_slice(&self) -> &[Text]
        ensures { result.now ≡ self.now }
    {
        &self.names
    }
}

/// Rows of a table.
#[derive(Drop)]
pub struct RowList {
    rows: Vec<Row>,
}

impl Model for RowList {
    ghost use Rattle.std.specs.Prelude.{List, ℕ};
    ghost use Rattle.cs_value.specs.declared.value.OwnedValue.{OwnedValue};

    ghost Value = { List (List OwnedValue) };

    ghost view = { λ l. l.rows.items };
}

impl RowList {
    /// Returns the list of some rows. It allocates nothing.
    pub fn new(rows: Vec<Row>) -> RowList
        ensures { result ≡ rows.items }
    {
        RowList { rows }
    }

    /// Returns the rows.
    pub fn as_slice(&self) -> &[Row]
        ensures { result.now ≡ self.now }
    {
        &self.rows
    }
}

/// The conflicts that an apply met, in their order.
#[derive(Drop)]
pub struct MetConflicts {
    conflicts: Vec<MetConflict>,
}

impl Model for MetConflicts {
    ghost use Rattle.std.specs.Prelude.{List, ℕ};
    ghost use Rattle.cs_calls_answers.specs.declared.conflicts.MetConflict.{MetConflict};

    ghost Value = { List MetConflict };

    ghost view = { λ l. l.conflicts.items };
}

impl MetConflicts {
    /// Returns the list of some conflicts. It allocates nothing.
    pub fn new(conflicts: Vec<MetConflict>) -> MetConflicts
        ensures { result ≡ conflicts.items }
    {
        MetConflicts { conflicts }
    }

    /// Returns the conflicts.
    pub fn as_slice(&self) -> &[MetConflict]
        ensures { result.now ≡ self.now }
    {
        &self.conflicts
    }
}

/// The conflicts that an apply would meet, in their order.
#[derive(Drop)]
pub struct FoundConflicts {
    conflicts: Vec<FoundConflict>,
}

impl Model for FoundConflicts {
    ghost use Rattle.std.specs.Prelude.{List, ℕ};
    ghost use Rattle.cs_calls_parts.specs.declared.conflicts.FoundConflict.{FoundConflict};

    ghost Value = { List FoundConflict };

    ghost view = { λ l. l.conflicts.items };
}

impl FoundConflicts {
    /// Returns the list of some conflicts. It allocates nothing.
    pub fn new(conflicts: Vec<FoundConflict>) -> FoundConflicts
        ensures { result ≡ conflicts.items }
    {
        FoundConflicts { conflicts }
    }

    /// Returns the conflicts.
    pub fn as_slice(&self) -> &[FoundConflict]
        ensures { result.now ≡ self.now }
    {
        &self.conflicts
    }
}
