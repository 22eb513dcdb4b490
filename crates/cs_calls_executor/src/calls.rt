//! Calls on tables: each reads them, edits them, or applies a changeset file to them.
ghost use Rattle.std.specs.Prelude.{◌≡◌, ◌↔◌, IfOk, IfErr};
ghost use Rattle.sqlite.specs.Held.{state};
ghost use Rattle.cs_calls_executor.specs.Answered.{Makes, Reads};
ghost use Rattle.cs_calls_executor.specs.Calls.{CarriesOut, EditsTo, IsUnsent, Spells, read_answer};

use crate::applying::{ApplyCall, apply};
use crate::editing::{declare, delete, insert, put, update};
use crate::reading::{count_rows, list_tables, read_columns, read_page, read_row};
use cs_calls_answers::{Answer, Refused, answer_write, has_counts};
use cs_calls_parts::Columns;
use cs_rows::Written;
use cs_store::Transaction;
use cs_value::{Row, Text};
use sqlite::Alter;
use std::alloc::Global;

/// A call that reads tables.
#[derive(Drop)]
pub enum ReadCall {
    /// Lists the tables.
    Tables,
    /// Shows the columns of a table.
    Schema {
        table: Text,
    },
    /// Reads the row of a key.
    Get {
        table: Text,
        key: Row,
    },
    /// Reads at most so many rows in the order of the bytes of their keys, from the first one or from
    /// the one after a key.
    Rows {
        table: Text,
        after: Option<Row>,
        limit: u32,
    },
    /// Counts the rows of a table.
    Count {
        table: Text,
    },
}

/// A call that edits tables.
#[derive(Drop)]
pub enum EditCall {
    /// Declares a table.
    Declare { table: Text, columns: Columns },
    /// Inserts a row.
    Insert { table: Text, row: Row },
    /// Puts a row in the place of that of a key.
    Update { table: Text, key: Row, row: Row },
    /// Removes the row of a key.
    Delete { table: Text, key: Row },
    /// Inserts a row, or puts it in the place of that of its key.
    Put { table: Text, row: Row },
}

/// A call on tables.
#[derive(Drop)]
pub enum TableCall {
    Read(ReadCall),
    Edit(EditCall),
    Apply(ApplyCall),
}

/// Returns what a call that reads is answered.
fn read<S: Alter>(
    alloc: Global,
    transaction: &mut Transaction<S>,
    call: &ReadCall,
) -> Result<Answer, Refused>
    ensures { Reads (λ tables. read_answer call.now tables)
        (state S.Store transaction.old) (state S.Store transaction.new) result }
{
    match call {
        ReadCall::Tables => {
            let names = list_tables(alloc, transaction)?;
            Ok(Answer::Names(names))
        }
        ReadCall::Schema { table } => {
            let columns = read_columns(alloc, transaction, table)?;
            Ok(Answer::Schema(columns))
        }
        ReadCall::Get { table, key } => {
            let row = read_row(alloc, transaction, table, key)?;
            Ok(Answer::Row(row))
        }
        ReadCall::Rows {
            table,
            after,
            limit,
        } => {
            let page = read_page(alloc, transaction, table, after.as_ref(), *limit)?;
            Ok(Answer::Rows {
                rows: page.rows,
                more: page.more,
            })
        }
        ReadCall::Count { table } => {
            let count = count_rows(alloc, transaction, table)?;
            Ok(Answer::Number(count))
        }
    }
}

/// Carries out a call that edits, and returns the keys that it wrote.
fn edit<S: Alter + Drop>(
    alloc: Global,
    transaction: &mut Transaction<S>,
    call: EditCall,
) -> Result<Vec<Written>, Refused>
    ensures { Makes (λ tables outcome. EditsTo call tables outcome)
        (state S.Store transaction.old) (state S.Store transaction.new) result }
{
    match call {
        EditCall::Declare { table, columns } => declare(alloc, transaction, &table, &columns),
        EditCall::Insert { table, row } => insert(alloc, transaction, &table, row),
        EditCall::Update { table, key, row } => update(alloc, transaction, &table, &key, row),
        EditCall::Delete { table, key } => delete(alloc, transaction, &table, &key),
        EditCall::Put { table, row } => put(alloc, transaction, &table, row),
    }
}

/// The most bytes of an answer, since a frame holds no more.
const FRAME_LEN: usize = 4_294_967_295;

/// Returns the bytes of an answer.
///
/// # Errors
///
/// 94 FrameTooLong if a row or a list of it has more than 2147483647 parts, or if it has more than
/// 4294967295 bytes. 60 NoMemory if out of memory.
pub fn bytes_of(alloc: Global, answer: &Answer) -> Result<Vec<u8>, Refused>
    ensures ok { IfOk result (Spells answer.now) }
    ensures err { IfErr result (IsUnsent answer.now) }
{
    if !has_counts(answer) {
        return Err(Refused::plain(94));
    }
    let mut bytes = Vec::new(alloc);
    answer_write(&mut bytes, answer)?;
    if bytes.len() > FRAME_LEN {
        return Err(Refused::plain(94));
    }
    Ok(bytes)
}

/// What a call did that was carried out.
#[derive(Drop)]
pub struct Carried {
    /// The bytes of the answer.
    pub bytes: Vec<u8>,
    /// The keys that were written, with the rows from before.
    pub written: Vec<Written>,
}

/// Carries out a call on tables in a transaction, and returns the bytes of its answer and the keys that it wrote.
///
/// # Errors
///
/// 97 TransactionEnded if the transaction has ended. Otherwise those of the call, and those of
/// [`bytes_of`]. Nothing has changed then, or the transaction has ended, and the store is as it was
/// when the transaction began.
pub fn carry_out<S: Alter + Drop>(
    alloc: Global,
    transaction: &mut Transaction<S>,
    call: TableCall,
) -> Result<Carried, Refused>
    ensures { CarriesOut call (state S.Store transaction.old) (state S.Store transaction.new) result }
{
    transaction.store_law();
    if transaction.has_ended() {
        return Err(Refused::plain(97));
    }
    match call {
        TableCall::Read(call) => {
            let answer = read(alloc, transaction, &call)?;
            let bytes = bytes_of(alloc, &answer)?;
            let written = Vec::new(alloc);
            Ok(Carried { bytes, written })
        }
        TableCall::Edit(call) => {
            let bytes = bytes_of(alloc, &Answer::Done)?;
            let written = edit(alloc, transaction, call)?;
            Ok(Carried { bytes, written })
        }
        TableCall::Apply(call) => apply(alloc, transaction, &call),
    }
}
