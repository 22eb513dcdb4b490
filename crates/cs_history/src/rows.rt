//! The rows of a history.
ghost use Rattle.std.specs.Prelude.{◌≡◌, ◌∷◌, if◌then◌else◌, [], true, Some, None, IfOk, IfErr, OnOk, option_map};
ghost use Rattle.sqlite.specs.Held.{state};
ghost use Rattle.cs_value.specs.Key.{row_key};
ghost use Rattle.cs_value.specs.State.{rows_at};
ghost use Rattle.cs_value.specs.declared.value.OwnedValue.TheVariants.{Int as Number};
ghost use Rattle.cs_store_sql.specs.Records.{is_above};
ghost use Rattle.cs_store.specs.Pages.{page_in};
ghost use Rattle.cs_history.specs.Faults.{IsOther};
ghost use Rattle.cs_history.specs.Carrying.{Works};
ghost use Rattle.cs_history.specs.Moving.{IsInFront, IsNextAfter, MovesRow, RemovesRow, first_of, start_of};
ghost use Rattle.cs_history.specs.Stored.{IsHistory, action_of, history_schema, is_of, last_undone};

use crate::fault::HistoryFault;
use crate::table::FLAGS;
use cs_store::{Edit, Transaction};
use cs_value::{Key, OwnedValue, Row};
use sqlite::Alter;
use std::alloc::Global;
use std::cmp::Ordering;

/// The key of the greatest number. Those of numbers below zero come after it.
const LAST_UNDONE: [u8; 9] = [1, 127, 255, 255, 255, 255, 255, 255, 255];

/// Returns the row of the last action that is done, or else that of the one to redo next, if there is one.
pub(crate) fn first_row<S: Alter + Drop>(
    alloc: Global,
    transaction: &mut Transaction<S>,
    name: &str,
    done: bool,
) -> Result<Option<Row>, HistoryFault>
    ensures works { Works (λ o old new. (new ≡ old) × (IsHistory old name.now
        → o ≡ first_of done (rows_at old name.now))) (state S.Store transaction.old)
        (state S.Store transaction.new) result }
    ensures named { IfErr result IsOther }
{
    transaction.store_law();
    let mut rows = first_page(alloc, transaction, name, done)?;
    match rows.pop() {
        Some(row) => of_side(alloc, row, done),
        None => Ok(None),
    }
}

/// Returns a page with the first row that is not before those of this side, if there is one.
fn first_page<S: Alter + Drop>(
    alloc: Global,
    transaction: &mut Transaction<S>,
    name: &str,
    done: bool,
) -> Result<Vec<Row>, HistoryFault>
    ensures works { Works (λ rows old new. (new ≡ old)
        × (rows.items ≡ page_in (rows_at old name.now) (start_of done) 1)) (state S.Store transaction.old)
        (state S.Store transaction.new) result }
    ensures named { IfErr result IsOther }
{
    if !done {
        return Ok(transaction.page(alloc, name, None, 1)?);
    }
    let last = last_undone_key(alloc)?;
    Ok(transaction.page(alloc, name, Some(&last), 1)?)
}

/// Returns the key after which the rows of the actions come that are done.
pub(crate) fn last_undone_key(alloc: Global) -> Result<Key, HistoryFault>
    ensures key { IfOk result (λ key. key ≡ last_undone) }
    ensures named { IfErr result IsOther }
{
    Ok(Key::from_bytes(Vec::from_slice(alloc, &LAST_UNDONE)?))
}

/// Returns the first row after a key, if there is one.
pub(crate) fn row_after<S: Alter + Drop>(
    alloc: Global,
    transaction: &mut Transaction<S>,
    name: &str,
    key: &Key,
) -> Result<Option<Row>, HistoryFault>
    ensures works { Works (λ o old new. (new ≡ old) × (IsHistory old name.now
        → IsNextAfter key.now o (rows_at old name.now))) (state S.Store transaction.old)
        (state S.Store transaction.new) result }
    ensures named { IfErr result IsOther }
{
    transaction.store_law();
    let mut rows = transaction.page(alloc, name, Some(key), 1)?;
    Ok(rows.pop())
}

/// Returns the row if its action is done, or else if it is undone.
fn of_side(alloc: Global, row: Row, done: bool) -> Result<Option<Row>, HistoryFault>
    ensures found { IfOk result (λ o. o ≡ (if is_of done (row_key history_schema.flags row) then Some row else None)) }
    ensures named { IfErr result IsOther }
{
    let key = key_of(alloc, &row)?;
    if is_done(&key) == done {
        Ok(Some(row))
    } else {
        Ok(None)
    }
}

/// Returns the key of a row.
pub(crate) fn key_of(alloc: Global, row: &Row) -> Result<Key, HistoryFault>
    ensures key { IfOk result (λ key. key ≡ row_key history_schema.flags row.now) }
    ensures named { IfErr result IsOther }
{
    if row.values().len() != FLAGS.len() {
        return Err(HistoryFault::Damaged);
    }
    Ok(Key::of_row(alloc, &FLAGS, row)?)
}

/// Returns whether a key is that of an action that is done.
fn is_done(key: &Key) -> bool
    ensures { result ≡ is_above last_undone key.now }
{
    key.bytes().cmp(&LAST_UNDONE[..]) == Ordering::Greater
}

/// Returns the changeset of a row.
pub(crate) fn changeset_of(row: &Row) -> Result<&[u8], HistoryFault>
    ensures content { IfOk result (λ file. file.now ≡ (action_of row.now).changeset) }
    ensures named { IfErr result IsOther }
{
    match row.values() {
        [_, _, OwnedValue::Blob(file)] => Ok(file.as_slice()),
        _ => Err(HistoryFault::Damaged),
    }
}

/// Gives the first row of the actions that are done a number of those that are undone, or the other way round. It is
/// the first one of those then.
pub(crate) fn move_row<S: Alter + Drop>(
    alloc: Global,
    transaction: &mut Transaction<S>,
    name: &str,
    row: &Row,
    done: bool,
) -> Result<(), HistoryFault>
    ensures works { Works (λ _ old new. IsHistory old name.now
        → MovesRow done name.now row.now old new) (state S.Store transaction.old)
        (state S.Store transaction.new) result }
    ensures named { IfErr result IsOther }
{
    transaction.store_law();
    let key = key_of(alloc, row)?;
    let next = with_number(alloc, row)?;
    let first = first_row(alloc, transaction, name, !done)?;
    check_place(alloc, &next, !done, first.as_ref())?;
    let table = String::from_str(alloc, name)?;
    let row = next;
    transaction.edit(alloc, &Edit::Update { table, key, row })?;
    Ok(())
}

/// Removes a row.
pub(crate) fn remove_row<S: Alter + Drop>(
    alloc: Global,
    transaction: &mut Transaction<S>,
    name: &str,
    row: &Row,
) -> Result<(), HistoryFault>
    ensures works { Works (λ _ old new. IsHistory old name.now
        → RemovesRow name.now row.now old new) (state S.Store transaction.old)
        (state S.Store transaction.new) result }
    ensures named { IfErr result IsOther }
{
    transaction.store_law();
    let key = key_of(alloc, row)?;
    let table = String::from_str(alloc, name)?;
    transaction.edit(alloc, &Edit::Delete { table, key })?;
    Ok(())
}

/// Checks that the row of an action is on this side, and in front of the first row there.
pub(crate) fn check_place(
    alloc: Global,
    row: &Row,
    done: bool,
    first: Option<&Row>,
) -> Result<(), HistoryFault>
    ensures placed { OnOk result (is_of done (row_key history_schema.flags row.now) ≡ true) }
    ensures front { OnOk result (IsInFront (row_key history_schema.flags row.now)
        (option_map (λ r. r.now) first.entry)) }
    ensures named { IfErr result IsOther }
{
    let key = key_of(alloc, row)?;
    if is_done(&key) != done {
        return Err(HistoryFault::TooLarge);
    }
    let Some(first) = first else {
        return Ok(());
    };
    if key < key_of(alloc, first)? {
        Ok(())
    } else {
        Err(HistoryFault::TooLarge)
    }
}

/// Returns a copy of a row with the number on the other side of zero.
fn with_number(alloc: Global, row: &Row) -> Result<Row, HistoryFault>
    ensures same { IfOk result (λ r. action_of r ≡ action_of row.now) }
    ensures named { IfErr result IsOther }
{
    let [OwnedValue::Int(number), label, changeset] = row.values() else {
        return Err(HistoryFault::Damaged);
    };
    let Some(number) = number.checked_neg() else {
        return Err(HistoryFault::TooLarge);
    };
    new_row(alloc, number, label.copy(alloc)?, changeset.copy(alloc)?)
}

/// Returns the row of an action.
pub(crate) fn new_row(
    alloc: Global,
    number: i64,
    label: OwnedValue,
    changeset: OwnedValue,
) -> Result<Row, HistoryFault>
    ensures made { IfOk result (λ r. r ≡ Number number ∷ label ∷ changeset ∷ []) }
    ensures named { IfErr result IsOther }
{
    let mut values = Vec::new(alloc);
    values.push(OwnedValue::Int(number))?;
    values.push(label)?;
    values.push(changeset)?;
    Ok(Row::new(values))
}
