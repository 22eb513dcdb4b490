//! Calls that read tables.
ghost use Rattle.std.specs.Prelude.{◌≡◌, map as map_list, Ok, Some, None, option_map, length};
ghost use Rattle.std.specs.FinMap as map;
ghost use Rattle.sqlite.specs.Held.{state};
ghost use Rattle.cs_value.specs.State.{row_at};
ghost use Rattle.cs_calls_executor.specs.Answered.{Reads};
ghost use Rattle.cs_calls_executor.specs.TableCalls.{on_table, table_columns, table_row, table_count, table_page, page_at};

use cs_calls_answers::{Names, Refused, RowList};
use cs_calls_conversions::{
    Page, columns_of, key_of_call, names_of, read_refusal, store_refusal, table_refusal,
};
use cs_calls_parts::Columns;
use cs_rows::Schema;
use cs_store::Transaction;
use cs_value::{Key, Row, Text};
use sqlite::Alter;
use std::alloc::Global;

/// Returns the schema of a table.
pub(crate) fn find_schema<S: Alter>(
    alloc: Global,
    transaction: &mut Transaction<S>,
    table: &Text,
) -> Result<Schema, Refused>
    ensures { Reads (λ tables. on_table tables table.now (λ schema. Ok schema))
        (state S.Store transaction.old) (state S.Store transaction.new) result }
{
    match transaction.schema(alloc, table.as_str()) {
        Ok(Some(schema)) => Ok(schema),
        Ok(None) => Err(table_refusal(alloc, 31, table)),
        Err(error) => Err(store_refusal(error)),
    }
}

/// Returns the row of a table under a key, if there is one.
pub(crate) fn find_row<S: Alter>(
    alloc: Global,
    transaction: &mut Transaction<S>,
    table: &Text,
    key: &Key,
) -> Result<Option<Row>, Refused>
    ensures { Reads (λ tables. on_table tables table.now (λ _. Ok (row_at tables table.now key.now)))
        (state S.Store transaction.old) (state S.Store transaction.new) result }
{
    match transaction.get(alloc, table.as_str(), key) {
        Ok(row) => Ok(row),
        Err(error) => Err(read_refusal(alloc, table, error)),
    }
}

/// Returns the names of the tables, in the order of their bytes.
///
/// # Errors
///
/// 38 StoreFault if the database refuses. 60 NoMemory if out of memory, or if a name has more than
/// 2147483647 bytes. 37 DamagedStore if the disk does not return what was written. Nothing has
/// changed then, or the transaction has ended. In one that has ended, reads show the store as it was
/// when the transaction began.
pub fn list_tables<S: Alter>(
    alloc: Global,
    transaction: &mut Transaction<S>,
) -> Result<Names, Refused>
    ensures { Reads (λ tables. Ok (map.keys tables))
        (state S.Store transaction.old) (state S.Store transaction.new) result }
{
    match transaction.tables(alloc) {
        Ok(names) => Ok(names_of(alloc, &names)?),
        Err(error) => Err(store_refusal(error)),
    }
}

/// Returns the columns of a table. Columns of the key are marked as refusing NULL too.
///
/// # Errors
///
/// 31 NoTable with the table. The others are as for [`list_tables`].
pub fn read_columns<S: Alter>(
    alloc: Global,
    transaction: &mut Transaction<S>,
    table: &Text,
) -> Result<Columns, Refused>
    ensures { Reads (λ tables. table_columns tables table.now)
        (state S.Store transaction.old) (state S.Store transaction.new) result }
{
    let schema = find_schema(alloc, transaction, table)?;
    Ok(columns_of(alloc, &schema)?)
}

/// Returns the row of a key, if there is one.
///
/// # Errors
///
/// In this order: 31 NoTable; 35 RowWidth if there are more or fewer values than key columns; 36
/// NullInKey if one is NULL. Each has the table, and 36 also the column. The others are as for
/// [`list_tables`].
pub fn read_row<S: Alter>(
    alloc: Global,
    transaction: &mut Transaction<S>,
    table: &Text,
    key: &Row,
) -> Result<Option<Row>, Refused>
    ensures { Reads (λ tables. table_row tables table.now key.now)
        (state S.Store transaction.old) (state S.Store transaction.new) result }
{
    let schema = find_schema(alloc, transaction, table)?;
    let key = key_of_call(alloc, table, &schema, key)?;
    find_row(alloc, transaction, table, &key)
}

/// Returns the number of the rows of a table.
///
/// # Errors
///
/// Those of [`read_columns`].
pub fn count_rows<S: Alter>(
    alloc: Global,
    transaction: &mut Transaction<S>,
    table: &Text,
) -> Result<u64, Refused>
    ensures { Reads (λ tables. table_count tables table.now)
        (state S.Store transaction.old) (state S.Store transaction.new) result }
{
    match transaction.count(alloc, table.as_str()) {
        Ok(number) => Ok(number),
        Err(error) => Err(read_refusal(alloc, table, error)),
    }
}

/// Returns a page of the rows of a table: at most so many, from the first one or from the one after a key.
fn page_after<S: Alter>(
    alloc: Global,
    transaction: &mut Transaction<S>,
    table: &Text,
    after: Option<&Key>,
    limit: u32,
) -> Result<Page, Refused>
    ensures { Reads (λ tables. on_table tables table.now
        (λ schema. Ok (page_at tables table.now schema (option_map (λ k. k.now) after.entry) limit)))
        (state S.Store transaction.old) (state S.Store transaction.new) result }
{
    transaction.store_law();
    // One row more than the page has, if there are others after it.
    match transaction.page(alloc, table.as_str(), after, u64::from(limit) + 1) {
        Ok(mut rows) => {
            let more = rows.len() > limit as usize;
            rows.truncate(limit as usize);
            Ok(Page {
                rows: RowList::new(rows),
                more,
            })
        }
        Err(error) => Err(read_refusal(alloc, table, error)),
    }
}

/// Returns a page of the rows of a table, in the order of the bytes of their keys: at most so many,
/// from the first one or from the one after a key, which need not be there.
///
/// # Errors
///
/// Those of [`read_row`]; 35 and 36 only if there is a key.
pub fn read_page<S: Alter>(
    alloc: Global,
    transaction: &mut Transaction<S>,
    table: &Text,
    after: Option<&Row>,
    limit: u32,
) -> Result<Page, Refused>
    ensures { Reads (λ tables. table_page tables table.now (option_map (λ r. r.now) after.entry) limit)
        (state S.Store transaction.old) (state S.Store transaction.new) result }
{
    let Some(values) = after else {
        return page_after(alloc, transaction, table, None, limit);
    };
    let schema = find_schema(alloc, transaction, table)?;
    let key = key_of_call(alloc, table, &schema, values)?;
    page_after(alloc, transaction, table, Some(&key), limit)
}
