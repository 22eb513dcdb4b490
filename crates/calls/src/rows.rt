//! Calls on tables in memory.

use cs_apply_engine::{ApplyFault, Choice, Direction, Noop, run_in};
use cs_rows::{Edit, MemRows, Rows, StoreError, edit_in};
use cs_value::{Key, NoMemory, OwnedValue, Row};
use std::alloc::Global;

/// The DELETE of the row (2, 1) of the table t, whose first column is its key, and the INSERT of (3, 'x').
const CHANGES: &[u8] = b"T\x02\x01\x00t\x00\
\x09\x00\x01\x00\x00\x00\x00\x00\x00\x00\x02\x01\x00\x00\x00\x00\x00\x00\x00\x01\
\x12\x00\x01\x00\x00\x00\x00\x00\x00\x00\x03\x03\x01x";

/// Tables in memory.
#[derive(Drop)]
pub(crate) struct TestRows {
    rows: MemRows,
}

/// A row of two integers.
fn row_of(alloc: Global, first: i64, second: i64) -> Result<Row, NoMemory> {
    let mut values = Vec::new(alloc);
    values.push(OwnedValue::Int(first))?;
    values.push(OwnedValue::Int(second))?;
    Ok(Row::new(values))
}

/// The key of one integer.
fn key_of(alloc: Global, number: i64) -> Result<Key, NoMemory> {
    let mut values = Vec::new(alloc);
    values.push(OwnedValue::Int(number))?;
    Key::from_values(alloc, &values)
}

/// Two names of columns.
fn column_names(alloc: Global) -> Result<Vec<String>, NoMemory> {
    let mut names = Vec::new(alloc);
    names.push(String::from_str(alloc, "a")?)?;
    names.push(String::from_str(alloc, "b")?)?;
    Ok(names)
}

impl TestRows {
    /// No table.
    pub(crate) fn new(alloc: Global) -> TestRows {
        TestRows {
            rows: MemRows::new(alloc),
        }
    }

    /// Declares the table t.
    pub(crate) fn declare(&mut self, alloc: Global) -> Result<usize, StoreError> {
        self.rows.declare(
            alloc,
            "t",
            &column_names(alloc)?,
            &[true, false],
            &[false, false],
        )?;
        Ok(0)
    }

    /// Carries out an edit, and returns how many keys were written.
    fn edit(&mut self, alloc: Global, edit: &Edit) -> Result<usize, StoreError> {
        Ok(edit_in(alloc, &mut self.rows, edit)?.len())
    }

    /// Inserts the row (1, 1).
    pub(crate) fn insert(&mut self, alloc: Global) -> Result<usize, StoreError> {
        let table = String::from_str(alloc, "t")?;
        let row = row_of(alloc, 1, 1)?;
        self.edit(alloc, &Edit::Insert { table, row })
    }

    /// Makes the row with the key 1 the row (2, 1).
    pub(crate) fn update(&mut self, alloc: Global) -> Result<usize, StoreError> {
        let table = String::from_str(alloc, "t")?;
        let key = key_of(alloc, 1)?;
        let row = row_of(alloc, 2, 1)?;
        self.edit(alloc, &Edit::Update { table, key, row })
    }

    /// Removes the row with the key 2.
    pub(crate) fn delete(&mut self, alloc: Global) -> Result<usize, StoreError> {
        let table = String::from_str(alloc, "t")?;
        let key = key_of(alloc, 2)?;
        self.edit(alloc, &Edit::Delete { table, key })
    }

    /// Applies a file, with the entries that have a conflict passed over, and returns how many keys were written.
    pub(crate) fn apply(&mut self, alloc: Global) -> Result<usize, ApplyFault> {
        let handler = |_: &_| Choice::Omit;
        let report = run_in(
            alloc,
            &mut self.rows,
            CHANGES,
            Direction::Forward,
            Noop::Report,
            &handler,
        )?;
        Ok(report.written.len())
    }

    /// How many rows t has.
    pub(crate) fn count(&mut self, alloc: Global) -> Result<usize, StoreError> {
        match self.rows.schema(alloc, "t")? {
            Some(_) => Ok(self.rows.list(alloc, "t")?.len()),
            None => Ok(0),
        }
    }
}
