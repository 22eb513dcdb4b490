//! The lists of calls: columns and choices.
ghost use Rattle.std.specs.Prelude.{◌≡◌};

use crate::conflicts::ChosenConflict;
use cs_value::Text;
use std::marker::Model;

/// A column of a table that is declared.
#[derive(Drop)]
pub struct Column {
    pub name: Text,
    /// Whether it is a column of the primary key.
    pub is_key: bool,
    /// Whether it is declared NOT NULL. Columns of the key refuse NULL anyway.
    pub refuses_null: bool,
}

/// The columns of a table that is declared, in their order. Contracts see their list.
#[derive(Drop)]
pub struct Columns {
    columns: Vec<Column>,
}

impl Model for Columns {
    ghost use Rattle.std.specs.Prelude.{List};
    ghost use Rattle.cs_calls_parts.specs.declared.lists.Column.{Column};

    ghost Value = { List Column };

    ghost view = { λ c. c.columns.items };
}

impl Columns {
    /// Returns the list of some columns. It allocates nothing.
    pub fn new(columns: Vec<Column>) -> Columns
        ensures { result ≡ columns.items }
    {
        Columns { columns }
    }

    /// Returns the columns.
    pub fn as_slice(&self) -> &[Column]
        ensures { result.now ≡ self.now }
    {
        &self.columns
    }
}

/// Conflicts with the choices for them, in their order. Contracts see their list.
#[derive(Drop)]
pub struct Choices {
    choices: Vec<ChosenConflict>,
}

impl Model for Choices {
    ghost use Rattle.std.specs.Prelude.{List};
    ghost use Rattle.cs_calls_parts.specs.declared.conflicts.ChosenConflict.{ChosenConflict};

    ghost Value = { List ChosenConflict };

    ghost view = { λ c. c.choices.items };
}

impl Choices {
    /// Returns the list of some conflicts with choices. It allocates nothing.
    pub fn new(choices: Vec<ChosenConflict>) -> Choices
        ensures { result ≡ choices.items }
    {
        Choices { choices }
    }

    /// Returns the conflicts with the choices.
    pub fn as_slice(&self) -> &[ChosenConflict]
        ensures { result.now ≡ self.now }
    {
        &self.choices
    }
}
