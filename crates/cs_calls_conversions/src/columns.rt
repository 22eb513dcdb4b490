//! The columns of tables, as calls have them and as schemas do.
ghost use Rattle.std.specs.Prelude.{◌≡◌, ◌||◌, IfOk, if◌then◌else◌, map, string_bytes};
ghost use Rattle.cs_rows.specs.Editing.{schema_of};
ghost use Rattle.cs_calls_conversions.specs.Columns.{declared_schema, schema_columns};

use crate::key::{is_key, text_of};
use cs_calls_parts::{Column, Columns};
use cs_rows::Schema;
use cs_value::NoMemory;
use std::alloc::Global;

/// What is declared: a name for each column, whether it is of the key, and whether it is declared NOT NULL.
#[derive(Drop)]
pub struct Declaration {
    pub names: Vec<String>,
    pub keys: Vec<bool>,
    pub refuses: Vec<bool>,
}

/// Returns what columns declare.
///
/// # Errors
///
/// `NoMemory` if out of memory.
pub fn declaration_of(alloc: Global, columns: &Columns) -> Result<Declaration, NoMemory>
    ensures { IfOk result (λ it. schema_of it.names.items it.keys.items it.refuses.items
        ≡ declared_schema columns.now) }
{
    let mut names = Vec::new(alloc);
    let mut keys = Vec::new(alloc);
    let mut refuses = Vec::new(alloc);
    for column in columns.as_slice() {
        names.push(String::from_str(alloc, column.name.as_str())?)?;
        keys.push(column.is_key)?;
        refuses.push(column.refuses_null)?;
    }
    Ok(Declaration {
        names,
        keys,
        refuses,
    })
}

/// Returns the columns of a table.
///
/// # Errors
///
/// `NoMemory` if out of memory.
pub fn columns_of(alloc: Global, schema: &Schema) -> Result<Columns, NoMemory>
    ensures { IfOk result (λ columns. columns ≡ schema_columns schema.now) }
{
    let flags = schema.flags();
    let mut columns = Vec::new(alloc);
    for (index, name) in schema.columns().iter().enumerate() {
        columns.push(Column {
            name: text_of(alloc, name.as_str())?,
            is_key: is_key(flags, index),
            refuses_null: schema.refuses_at(index),
        })?;
    }
    Ok(Columns::new(columns))
}
