//! Actions that are noted.
ghost use Rattle.std.specs.Prelude.{◌≡◌, [], false, true, IfOk, OnOk};
ghost use Rattle.sqlite.specs.Held.{state};
ghost use Rattle.cs_value.specs.State.{rows_at};
ghost use Rattle.cs_wire.specs.Changeset.{IsNewName, file_bytes};
ghost use Rattle.cs_session_notes.specs.FirstImages.{recorded_changes, rewound_state};
ghost use Rattle.cs_history.specs.Actions.{Notes};
ghost use Rattle.cs_history.specs.Carrying.{Carries, Works};
ghost use Rattle.cs_history.specs.Moving.{AddsRow, Forgotten, NotesAction};
ghost use Rattle.cs_history.specs.Stored.{IsHistory, content_of, rows_of};

use crate::fault::HistoryFault;
use crate::rows::{check_place, first_row, new_row, remove_row};
use crate::table::check_table;
use cs_session::Session;
use cs_store::{Edit, Transaction};
use cs_value::{Bytes, OwnedValue, Row, Text};
use cs_wire::{Changeset, write};
use sqlite::Alter;
use std::alloc::Global;

/// Notes what a session recorded as an action of a history, in a transaction. What was undone is forgotten. Returns
/// false, and notes nothing, if the session has no changes. Nothing is committed.
///
/// Each action takes a session of its own, which has the tables that it writes and has noted nothing before it, as
/// [`Session::unwritten`] returns one. Then an undo restores these tables. If the transaction is rolled back, drop the
/// session.
///
/// # Errors
///
/// [`NotHistory`](HistoryFault::NotHistory) if the table is not a history, and
/// [`WrongStore`](HistoryFault::WrongStore) if another table is not as the session has attached it.
/// [`OwnTable`](HistoryFault::OwnTable) if the session has changes of the table of the history.
/// [`TooLarge`](HistoryFault::TooLarge) if the label or the changeset has more than 2147483647 bytes, or the last
/// number is taken, and [`Damaged`](HistoryFault::Damaged) if another program has changed a row of the history.
/// `StoreFault` or `NoMemory` if the transaction has ended, the database refuses or memory runs out. If the disk does
/// not return what was written, [`DamagedStore`](cs_store::StoreError::DamagedStore) or any of these. After a refusal
/// the transaction shows what it showed before, with the edits of the action, or it has ended and the store is as it
/// was when it began.
pub fn act_in_transaction<S: Alter + Drop>(
    alloc: Global,
    transaction: &mut Transaction<S>,
    name: &str,
    label: &str,
    session: &Session,
) -> Result<bool, HistoryFault>
    ensures noted { Carries (λ noted old new. Notes name.now label.now (recorded_changes session.now old)
        (rewound_state session.now old) noted old new)
        (state S.Store transaction.old) (state S.Store transaction.new) result }
{
    transaction.store_law();
    transaction.mark()?;
    let result = act_on_rows(alloc, transaction, name, label, session);
    transaction.end_call(result.is_ok())?;
    result
}

fn act_on_rows<S: Alter + Drop>(
    alloc: Global,
    transaction: &mut Transaction<S>,
    name: &str,
    label: &str,
    session: &Session,
) -> Result<bool, HistoryFault>
    ensures works { Works (λ noted old new. Notes name.now label.now (recorded_changes session.now old)
        (rewound_state session.now old) noted old new)
        (state S.Store transaction.old) (state S.Store transaction.new) result }
{
    transaction.store_law();
    session.notes_law();
    check_table(alloc, transaction, name)?;
    let changeset = session.changeset_in_transaction(alloc, transaction)?;
    if changeset.groups().is_empty() {
        return Ok(false);
    }
    note_changes(alloc, transaction, name, label, &changeset)?;
    Ok(true)
}

/// Drops the actions that are undone, and adds one as the last one that is done.
fn note_changes<S: Alter + Drop>(
    alloc: Global,
    transaction: &mut Transaction<S>,
    name: &str,
    label: &str,
    changeset: &Changeset,
) -> Result<(), HistoryFault>
    ensures works { Works (λ _ old new. IsHistory old name.now
        → NotesAction name.now (record { label = label.now; changeset = file_bytes changeset.now }) old new)
        (state S.Store transaction.old) (state S.Store transaction.new) result }
    ensures apart { OnOk result (IsNewName changeset.now name.now) }
{
    if changeset.find(name).is_some() {
        return Err(HistoryFault::OwnTable);
    }
    let label = text_of(alloc, label)?;
    let file = file_of(alloc, changeset)?;
    forget_undone(alloc, transaction, name)?;
    add_row(alloc, transaction, name, label, file)
}

/// Returns the value of a label.
fn text_of(alloc: Global, label: &str) -> Result<OwnedValue, HistoryFault>
    ensures made { IfOk result (λ v. content_of v ≡ label.now) }
{
    if !OwnedValue::fits(label.len()) {
        return Err(HistoryFault::TooLarge);
    }
    Ok(OwnedValue::Text(Text::new(String::from_str(alloc, label)?)))
}

/// Returns the value of the file of a changeset.
fn file_of(alloc: Global, changeset: &Changeset) -> Result<OwnedValue, HistoryFault>
    ensures made { IfOk result (λ v. content_of v ≡ file_bytes changeset.now) }
{
    let file = write(alloc, changeset)?;
    if !OwnedValue::fits(file.len()) {
        return Err(HistoryFault::TooLarge);
    }
    Ok(OwnedValue::Blob(Bytes::new(file)))
}

/// Drops the actions that are undone.
fn forget_undone<S: Alter + Drop>(
    alloc: Global,
    transaction: &mut Transaction<S>,
    name: &str,
) -> Result<(), HistoryFault>
    ensures works { Works (λ _ old new. IsHistory old name.now → Forgotten name.now old new
        × (rows_of false (rows_at new name.now) ≡ [])) (state S.Store transaction.old)
        (state S.Store transaction.new) result }
{
    for _ in 0..u64::MAX {
        match first_row(alloc, transaction, name, false)? {
            Some(row) => remove_row(alloc, transaction, name, &row)?,
            None => return Ok(()),
        }
    }
    Err(HistoryFault::TooLarge)
}

/// Adds the row of an action as the last one that is done.
fn add_row<S: Alter + Drop>(
    alloc: Global,
    transaction: &mut Transaction<S>,
    name: &str,
    label: OwnedValue,
    changeset: OwnedValue,
) -> Result<(), HistoryFault>
    ensures works { Works (λ _ old new. IsHistory old name.now → AddsRow name.now
        (record { label = content_of label; changeset = content_of changeset }) old new)
        (state S.Store transaction.old) (state S.Store transaction.new) result }
{
    transaction.store_law();
    let first = first_row(alloc, transaction, name, true)?;
    let number = next_number(first.as_ref())?;
    let row = new_row(alloc, number, label, changeset)?;
    check_place(alloc, &row, true, first.as_ref())?;
    let table = String::from_str(alloc, name)?;
    transaction.edit(alloc, &Edit::Insert { table, row })?;
    Ok(())
}

/// Returns the number of the next action, by the row of the last one that is done.
fn next_number(last: Option<&Row>) -> Result<i64, HistoryFault> {
    let Some(row) = last else {
        return Ok(-1);
    };
    let [OwnedValue::Int(number), _, _] = row.values() else {
        return Err(HistoryFault::Damaged);
    };
    match number.checked_sub(1) {
        Some(number) => Ok(number),
        None => Err(HistoryFault::TooLarge),
    }
}
