//! Keys as calls have them: the values of the key columns of a table, in column order.
ghost use Rattle.std.specs.Prelude.{◌≡◌, ◌⊎◌, ◌≤◌, false, if◌then◌else◌, length, map, None, Some, get_or};
ghost use Rattle.std.specs.Prelude.{IfOk, IfErr, OnOk, count_by, position, slice_get};
ghost use Rattle.cs_value.specs.Key.{key_columns};
ghost use Rattle.cs_value.specs.Spelling.{row_bytes};
ghost use Rattle.cs_value.specs.State.{is_marked};
ghost use Rattle.cs_calls_answers.specs.Refusals.{plain_refusal};
ghost use Rattle.cs_calls_conversions.specs.Keys.{key_names as names_of_key, key_refusal};
ghost use Rattle.cs_calls_conversions.specs.Refusals.{is_null as is_null_value, of_column as column_part};

use crate::refusal::{is_null, of_column, of_table};
use cs_calls_answers::Refused;
use cs_rows::Schema;
use cs_value::{Key, MAX_CONTENT_LEN, NoMemory, OwnedValue, Row, Text};
use std::alloc::Global;

/// Returns whether a column is of the key. A column past the last flag is not.
pub(crate) fn is_key(flags: &[u8], column: usize) -> bool
    ensures { result ≡ is_marked (get_or flags.now column 0) }
{
    column < flags.len() && flags[column] != 0
}

/// Returns how many columns are of the key.
fn key_len(flags: &[u8]) -> usize
    ensures { result ≡ count_by is_marked flags.now }
{
    flags.iter().filter(|flag| **flag != 0).count()
}

/// Returns the values of the key columns of a row. There is a flag for each column, and those other than 0 mark the key
/// columns.
///
/// # Errors
///
/// `NoMemory` if out of memory.
pub fn key_values(alloc: Global, flags: &[u8], row: &Row) -> Result<Row, NoMemory>
    ensures { IfOk result (λ key. key ≡ key_columns flags.now row.now) }
{
    let mut values = Vec::new(alloc);
    for (column, value) in row.values().iter().enumerate() {
        if is_key(flags, column) {
            values.push(value.copy(alloc)?)?;
        }
    }
    Ok(Row::new(values))
}

/// Returns the text of a name that is short enough.
pub(crate) fn text_of(alloc: Global, name: &str) -> Result<Text, NoMemory>
    requires { length name.now ≤ MAX_CONTENT_LEN }
    ensures { IfOk result (λ text. text ≡ name.now) }
{
    Ok(Text::new(String::from_str(alloc, name)?))
}

/// Returns the names of the key columns.
fn key_names(alloc: Global, schema: &Schema) -> Result<Vec<Text>, NoMemory>
    ensures { IfOk result (λ names. names.items ≡ names_of_key schema.now) }
{
    let flags = schema.flags();
    let mut names = Vec::new(alloc);
    for (column, name) in schema.columns().iter().enumerate() {
        if is_key(flags, column) {
            names.push(text_of(alloc, name.as_str())?)?;
        }
    }
    Ok(names)
}

/// Returns the name of a key column, by its index among the key columns.
fn key_name(alloc: Global, schema: &Schema, index: usize) -> Result<Option<Text>, NoMemory>
    ensures { IfOk result (λ name. name ≡ slice_get (names_of_key schema.now) index) }
{
    let names = key_names(alloc, schema)?;
    match names.get(index) {
        Some(name) => Ok(Some(name.copy(alloc)?)),
        None => Ok(None),
    }
}

/// Returns the index of the first value that is NULL.
fn null_index(values: &[OwnedValue]) -> Option<usize>
    ensures { result ≡ position is_null_value values.now }
{
    values.iter().position(is_null)
}

/// Returns the key of these values of the key columns of a table, in column order.
///
/// # Errors
///
/// 35 RowWidth if there are more or fewer values than key columns, and then 36 NullInKey with the column if one is
/// NULL; both with the table. 60 NoMemory if out of memory.
pub fn key_of_call(
    alloc: Global,
    table: &Text,
    schema: &Schema,
    values: &Row,
) -> Result<Key, Refused>
    ensures key { IfOk result (λ key. key ≡ row_bytes values.now) }
    ensures named { OnOk result (key_refusal table.now schema.now values.now ≡ None) }
    ensures refused { IfErr result (λ why. (key_refusal table.now schema.now values.now ≡ Some why)
        ⊎ (why ≡ plain_refusal 60)) }
{
    if values.values().len() != key_len(schema.flags()) {
        return Err(of_table(alloc, 35, table)?);
    }
    match null_index(values.values()) {
        Some(index) => {
            let column = key_name(alloc, schema, index)?;
            Err(of_column(alloc, 36, table, column)?)
        }
        None => Ok(Key::from_values(alloc, values.values())?),
    }
}
