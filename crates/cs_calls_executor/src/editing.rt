//! Calls that declare tables and edit rows.
ghost use Rattle.std.specs.Prelude.{◌≡◌, IfOk, string_bytes};
ghost use Rattle.sqlite.specs.Held.{state};
ghost use Rattle.cs_rows.specs.Editing.{edited};
ghost use Rattle.cs_calls_conversions.specs.Refusals.{of_edit_error};
ghost use Rattle.cs_calls_executor.specs.Answered.{Edits, Makes};
ghost use Rattle.cs_calls_executor.specs.TableCalls.{putting as edit_that_puts};
ghost use Rattle.cs_calls_executor.specs.TableCalls.{Declared, edit_outcome, inserts, updates, deletes, puts};

use crate::reading::{find_row, find_schema};
use cs_calls_answers::Refused;
use cs_calls_conversions::{
    declaration_of, declare_refusal, edit_refusal, key_of_call, key_values,
};
use cs_calls_parts::Columns;
use cs_rows::{Edit, Schema, Written};
use cs_store::Transaction;
use cs_value::{Key, NoMemory, Row, Text};
use sqlite::Alter;
use std::alloc::Global;

/// Declares a table without rows. No key is written.
///
/// # Errors
///
/// In this order: 32 BadSchema if the name or the columns make no table; 30 TableExists. Each has
/// the table. The others are as for [`insert`].
pub fn declare<S: Alter + Drop>(
    alloc: Global,
    transaction: &mut Transaction<S>,
    table: &Text,
    columns: &Columns,
) -> Result<Vec<Written>, Refused>
    ensures { Makes (λ tables. Declared tables table.now columns.now)
        (state S.Store transaction.old) (state S.Store transaction.new) result }
{
    transaction.store_law();
    let it = declaration_of(alloc, columns)?;
    match transaction.declare(alloc, table.as_str(), &it.names, &it.keys, &it.refuses) {
        Ok(()) => Ok(Vec::new(alloc)),
        Err(error) => Err(declare_refusal(alloc, table, error)),
    }
}

/// Carries out an edit of a table, and returns the keys that it wrote. A call names the row of an update or a deletion
/// by the values of its key.
fn carry_out<S: Alter + Drop>(
    alloc: Global,
    transaction: &mut Transaction<S>,
    table: &Text,
    schema: &Schema,
    key: &Row,
    edit: &Edit,
) -> Result<Vec<Written>, Refused>
    ensures { Edits (λ tables. edit_outcome (of_edit_error table.now schema.now key.now edit.now)
        (edited tables edit.now)) (state S.Store transaction.old) (state S.Store transaction.new) result }
{
    match transaction.edit(alloc, edit) {
        Ok(written) => Ok(written),
        Err(error) => Err(edit_refusal(alloc, table, schema, key, edit, error)),
    }
}

/// Returns the name of a table.
fn name_of(alloc: Global, table: &Text) -> Result<String, NoMemory>
    ensures { IfOk result (λ name. string_bytes name ≡ table.now) }
{
    Ok(String::from_str(alloc, table.as_str())?)
}

/// Inserts a row, and returns the key that was written. The transaction then has it under its key.
///
/// # Errors
///
/// In this order: 31 NoTable; 35 RowWidth, 36 NullInKey and 39 NotNull if the row does not fit the table; 33 KeyTaken.
/// Each has the table, 36 and 39 also the column, and 33 the key. Nothing has changed then.
///
/// 38 StoreFault if the database refuses, 60 NoMemory if out of memory, and 37 DamagedStore if the disk does not return
/// what was written. Nothing has changed then, or the transaction has ended, and the store is as it was when the
/// transaction began. An edit of a transaction that has ended is always refused.
pub fn insert<S: Alter + Drop>(
    alloc: Global,
    transaction: &mut Transaction<S>,
    table: &Text,
    row: Row,
) -> Result<Vec<Written>, Refused>
    ensures { Edits (λ tables. inserts tables table.now row)
        (state S.Store transaction.old) (state S.Store transaction.new) result }
{
    transaction.store_law();
    let schema = find_schema(alloc, transaction, table)?;
    let no_key = Row::new(Vec::new(alloc));
    let name = name_of(alloc, table)?;
    let edit = Edit::Insert { table: name, row };
    carry_out(alloc, transaction, table, &schema, &no_key, &edit)
}

/// Puts a row in the place of that of a key, and returns the keys that were written, with the rows from before. It is
/// then under its own key, and none is under the former one if that is another.
///
/// # Errors
///
/// In this order: 31 NoTable; 35 RowWidth and 36 NullInKey if the values are those of no key; these
/// two and 39 NotNull if the row does not fit the table; 34 NoRow with the values; 33 KeyTaken with
/// the key of the row. The others are as for [`insert`].
pub fn update<S: Alter + Drop>(
    alloc: Global,
    transaction: &mut Transaction<S>,
    table: &Text,
    values: &Row,
    row: Row,
) -> Result<Vec<Written>, Refused>
    ensures { Edits (λ tables. updates tables table.now values.now row)
        (state S.Store transaction.old) (state S.Store transaction.new) result }
{
    transaction.store_law();
    let schema = find_schema(alloc, transaction, table)?;
    let key = key_of_call(alloc, table, &schema, values)?;
    let name = name_of(alloc, table)?;
    let edit = Edit::Update {
        table: name,
        key,
        row,
    };
    carry_out(alloc, transaction, table, &schema, values, &edit)
}

/// Removes the row of a key, and returns the key with the row from before. No row then has the key.
///
/// # Errors
///
/// In this order: 31 NoTable; 35 RowWidth and 36 NullInKey if the values are those of no key; 34 NoRow with the values.
/// The others are as for [`insert`].
pub fn delete<S: Alter + Drop>(
    alloc: Global,
    transaction: &mut Transaction<S>,
    table: &Text,
    values: &Row,
) -> Result<Vec<Written>, Refused>
    ensures { Edits (λ tables. deletes tables table.now values.now)
        (state S.Store transaction.old) (state S.Store transaction.new) result }
{
    transaction.store_law();
    let schema = find_schema(alloc, transaction, table)?;
    let key = key_of_call(alloc, table, &schema, values)?;
    let name = name_of(alloc, table)?;
    let edit = Edit::Delete { table: name, key };
    carry_out(alloc, transaction, table, &schema, values, &edit)
}

/// Returns the edit that puts a row into a table: an update, if a row has its key, or else an insertion.
fn putting(table: String, key: Key, row: Row, is_there: bool) -> Edit
    ensures { result ≡ edit_that_puts table key row is_there }
{
    if is_there {
        Edit::Update { table, key, row }
    } else {
        drop(key);
        Edit::Insert { table, row }
    }
}

/// Puts a row in the place of the one that has its key, or inserts it, and returns the key with the row from before, if
/// there was one. The transaction then has it under its key.
///
/// # Errors
///
/// In this order: 31 NoTable; 35 RowWidth, 36 NullInKey and 39 NotNull if the row does not fit the
/// table. The others are as for [`insert`].
pub fn put<S: Alter + Drop>(
    alloc: Global,
    transaction: &mut Transaction<S>,
    table: &Text,
    row: Row,
) -> Result<Vec<Written>, Refused>
    ensures { Edits (λ tables. puts tables table.now row)
        (state S.Store transaction.old) (state S.Store transaction.new) result }
{
    transaction.store_law();
    let schema = find_schema(alloc, transaction, table)?;
    let name = name_of(alloc, table)?;
    let values = key_values(alloc, schema.flags(), &row)?;
    let key = Key::from_values(alloc, values.values())?;
    let found = find_row(alloc, transaction, table, &key)?;
    let edit = putting(name, key, row, found.is_some());
    carry_out(alloc, transaction, table, &schema, &values, &edit)
}
