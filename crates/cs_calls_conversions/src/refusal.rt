//! Why calls on the tables of stores are refused, with the parts that come with each code. If memory runs out for a
//! part, the refusal is 60 NoMemory, which has none.
ghost use Rattle.std.specs.Prelude.{◌≡◌, ◌⊎◌, IfOk, option_and_then, slice_get, position, ◌&&◌};
ghost use Rattle.std.specs.List.{zip};
ghost use Rattle.cs_value.specs.State.{is_marked};
ghost use Rattle.cs_calls_answers.specs.Refusals.{plain_refusal};
ghost use Rattle.cs_calls_conversions.specs.Refusals.{of_table as table_part, of_row as row_part, of_column as column_part};
ghost use Rattle.cs_calls_conversions.specs.Refusals.{of_error, of_read_error, of_row_error, of_edit_error, of_declare_error, cause_number as number_of_cause};
ghost use Rattle.cs_calls_conversions.specs.Refusals.{is_null as is_null_value};

use crate::key::{key_values, text_of};
use cs_calls_answers::Refused;
use cs_rows::{Cause, Edit, Schema, StoreError};
use cs_value::{Fault, NoMemory, OwnedValue, Row, Text};
use std::alloc::Global;

/// Returns SQLite's number of a cause.
fn cause_number(cause: Cause) -> u64
    ensures { result ≡ number_of_cause cause }
{
    match cause {
        Cause::Busy => 5,
        Cause::NotADatabase => 26,
        Cause::Full => 13,
        Cause::InputOutput => 10,
        Cause::Other => 1,
    }
}

/// Returns the refusal of an error of a store. Its only part is the cause of a `StoreFault`.
pub fn store_refusal(error: StoreError) -> Refused
    ensures { result ≡ of_error error }
{
    let code = u64::from(error.code());
    let detail = match error {
        StoreError::StoreFault(cause) => Some(cause_number(cause)),
        _ => None,
    };
    Refused {
        code,
        table: None,
        column: None,
        key: None,
        detail,
    }
}

/// Returns a refusal that names a table.
pub(crate) fn of_table(alloc: Global, code: u64, table: &Text) -> Result<Refused, NoMemory>
    ensures { IfOk result (λ why. why ≡ table_part code table.now) }
{
    Ok(Refused {
        code,
        table: Some(table.copy(alloc)?),
        column: None,
        key: None,
        detail: None,
    })
}

/// Returns a refusal that names a column of a table.
pub(crate) fn of_column(
    alloc: Global,
    code: u64,
    table: &Text,
    column: Option<Text>,
) -> Result<Refused, NoMemory>
    ensures { IfOk result (λ why. why ≡ column_part code table.now column) }
{
    Ok(Refused {
        code,
        table: Some(table.copy(alloc)?),
        column,
        key: None,
        detail: None,
    })
}

/// Returns a refusal that names a row of a table by its key.
pub(crate) fn of_row(alloc: Global, code: u64, table: &Text, key: Row) -> Result<Refused, NoMemory>
    ensures { IfOk result (λ why. why ≡ row_part code table.now key) }
{
    Ok(Refused {
        code,
        table: Some(table.copy(alloc)?),
        column: None,
        key: Some(key),
        detail: None,
    })
}

/// Returns whether a value is NULL.
pub(crate) fn is_null(value: &OwnedValue) -> bool
    ensures { result ≡ is_null_value value.now }
{
    matches!(value, OwnedValue::Null)
}

/// Returns the index of the first column that is of the key and has NULL.
fn null_key_index(flags: &[u8], row: &[OwnedValue]) -> Option<usize>
    ensures { result ≡ position (λ p. is_marked p.1 && is_null_value p.0) (zip row.now flags.now) }
{
    row.iter()
        .zip(flags)
        .position(|(value, flag)| *flag != 0 && is_null(value))
}

/// Returns the index of the first column that refuses NULL and has it.
fn null_index(refuses: &[bool], row: &[OwnedValue]) -> Option<usize>
    ensures { result ≡ position (λ p. p.1 && is_null_value p.0) (zip row.now refuses.now) }
{
    row.iter()
        .zip(refuses)
        .position(|(value, refuses)| *refuses && is_null(value))
}

/// Returns the refusal of a read, with all its parts.
fn named_read_refusal(alloc: Global, table: &Text, error: StoreError) -> Result<Refused, NoMemory>
    ensures { IfOk result (λ why. why ≡ of_read_error table.now error) }
{
    match error {
        StoreError::NoTable => of_table(alloc, 31, table),
        error => Ok(store_refusal(error)),
    }
}

/// Returns the refusal of a read of a table: 31 NoTable with the table, and the others as [`store_refusal`]. It is 60
/// NoMemory if memory runs out for the name.
pub fn read_refusal(alloc: Global, table: &Text, error: StoreError) -> Refused
    ensures { (result ≡ of_read_error table.now error) ⊎ (result ≡ plain_refusal 60) }
{
    match named_read_refusal(alloc, table, error) {
        Ok(refused) => refused,
        Err(refusal) => Refused::from(refusal),
    }
}

/// Returns the name of a column of a table, if there is one at the index.
fn column_name(
    alloc: Global,
    schema: &Schema,
    index: Option<usize>,
) -> Result<Option<Text>, NoMemory>
    ensures { IfOk result (λ name. name ≡ option_and_then (slice_get schema.now.columns) index) }
{
    let Some(index) = index else {
        return Ok(None);
    };
    let (columns, _) = (schema.columns(), schema.flags());
    if index >= columns.len() {
        return Ok(None);
    }
    Ok(Some(text_of(alloc, columns[index].as_str())?))
}

/// Returns why a row is not put into a table, by the error of the store.
fn row_refusal(
    alloc: Global,
    table: &Text,
    schema: &Schema,
    row: &Row,
    error: StoreError,
) -> Result<Refused, NoMemory>
    ensures { IfOk result (λ why. why ≡ of_row_error table.now schema.now row.now error) }
{
    match error {
        StoreError::RowWidth => of_table(alloc, 35, table),
        StoreError::NullInKey => {
            let index = null_key_index(schema.flags(), row.values());
            of_column(alloc, 36, table, column_name(alloc, schema, index)?)
        }
        StoreError::NotNull => {
            let index = null_index(schema.refuses(), row.values());
            of_column(alloc, 39, table, column_name(alloc, schema, index)?)
        }
        StoreError::KeyTaken => {
            of_row(alloc, 33, table, key_values(alloc, schema.flags(), row)?)
        }
        error => named_read_refusal(alloc, table, error),
    }
}

/// Returns why no row has a key: 34 NoRow with the table and the key.
fn no_row_refusal(alloc: Global, table: &Text, key: &Row) -> Result<Refused, NoMemory>
    ensures { IfOk result (λ why. why ≡ row_part 34 table.now key.now) }
{
    of_row(alloc, 34, table, key.copy(alloc)?)
}

/// Returns the refusal with all its parts.
fn named_edit_refusal(
    alloc: Global,
    table: &Text,
    schema: &Schema,
    key: &Row,
    edit: &Edit,
    error: StoreError,
) -> Result<Refused, NoMemory>
    ensures { IfOk result (λ why. why ≡ of_edit_error table.now schema.now key.now edit.now error) }
{
    match edit {
        Edit::Insert { row, .. } => row_refusal(alloc, table, schema, row, error),
        Edit::Update { row, .. } => match error {
            StoreError::NoRow => no_row_refusal(alloc, table, key),
            error => row_refusal(alloc, table, schema, row, error),
        },
        Edit::Delete { .. } => match error {
            StoreError::NoRow => no_row_refusal(alloc, table, key),
            error => named_read_refusal(alloc, table, error),
        },
    }
}

/// Returns the refusal of an edit, by the error of the store. It has the table, and 34 NoRow also
/// the key that the call names, 33 KeyTaken the key of the row, 36 NullInKey the first column of
/// the key that has NULL, and 39 NotNull the first column that has NULL and refuses it. An
/// insertion names no key. 37, 38 and 60 are as [`store_refusal`] has them. It is 60 NoMemory if
/// memory runs out for a part.
pub fn edit_refusal(
    alloc: Global,
    table: &Text,
    schema: &Schema,
    key: &Row,
    edit: &Edit,
    error: StoreError,
) -> Refused
    ensures { (result ≡ of_edit_error table.now schema.now key.now edit.now error) ⊎ (result ≡ plain_refusal 60) }
{
    match named_edit_refusal(alloc, table, schema, key, edit, error) {
        Ok(refused) => refused,
        Err(refusal) => Refused::from(refusal),
    }
}

/// Returns a refusal that names a table, or 60 NoMemory if memory runs out for its name.
pub fn table_refusal(alloc: Global, code: u64, table: &Text) -> Refused
    ensures { (result ≡ table_part code table.now) ⊎ (result ≡ plain_refusal 60) }
{
    match of_table(alloc, code, table) {
        Ok(refused) => refused,
        Err(refusal) => Refused::from(refusal),
    }
}

/// Returns the refusal of a declaration, by the error of the store: 30 TableExists and 32 BadSchema with the table, and
/// the others as [`store_refusal`]. It is 60 NoMemory if memory runs out for the name.
pub fn declare_refusal(alloc: Global, table: &Text, error: StoreError) -> Refused
    ensures { (result ≡ of_declare_error table.now error) ⊎ (result ≡ plain_refusal 60) }
{
    match error {
        StoreError::TableExists => table_refusal(alloc, 30, table),
        StoreError::BadSchema => table_refusal(alloc, 32, table),
        error => store_refusal(error),
    }
}
