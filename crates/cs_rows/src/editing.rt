//! Edits of rows, through whatever holds them.
ghost use Rattle.std.specs.Prelude.{◌≡◌, ◌≢◌, ◌⊎◌, [], ◌∷◌, Some, None, Ok};
ghost use Rattle.std.specs.Prelude.{Err, map, string_bytes, IfOk, IfErr, IsSome, OnOk};
ghost use Rattle.std.specs.Rc.{rc_str_bytes};
ghost use Rattle.cs_value.specs.Value.{IsRow};
ghost use Rattle.cs_value.specs.Table.{IsKeyedRow};
ghost use Rattle.cs_value.specs.State.{State, IsRowAt, schema_at, row_at, with_row, without_row};
ghost use Rattle.cs_rows.specs.Rows.{IsDeclared, Fits};
ghost use Rattle.cs_rows.specs.Faults.{IsCaused, IsResource, IsEditRefusal, is_answered};
ghost use Rattle.cs_rows.specs.Editing.{edited, written_of, row_fault, in_table, inserted, updated, deleted};
ghost use Rattle.cs_rows.specs.Editing.{IsWriteOf, IsPutOf, IsUpdateOf, IsRemovalOf};
ghost use Rattle.cs_rows.specs.declared.fault.StoreError.TheVariants.{NoTable as NoSuchTable};
ghost use Rattle.cs_rows.specs.declared.fault.StoreError.TheVariants.{NoRow as NoSuchRow, KeyTaken as TakenKey, NoMemory as OutOfMemory};

use crate::edit::{Edit, Written};
use crate::fault::StoreError;
use crate::rows::Rows;
use crate::schema::Schema;
use cs_value::{Key, Row};
use std::alloc::Global;
use std::rc::RcStr;

/// Carries out an edit, and reports the keys that it wrote with the rows that they had before.
///
/// # Errors
///
/// In this order: `NoTable`; `RowWidth`, `NullInKey` and `NotNull` for the given row; `NoRow` for an update and a
/// deletion; `KeyTaken` for an insertion and for an update to another key. It returns the refusals of the rows too:
/// `NoMemory`, `StoreFault` and `DamagedStore`.
pub fn edit_in<B: Rows>(
    alloc: Global,
    rows: &mut B,
    edit: &Edit,
) -> Result<Vec<Written>, StoreError>
    ensures edited { B.is_honest rows.new → IfOk result (λ w. edited (B.state rows.old) edit.now
        ≡ Ok (record { state = B.state rows.new; written = map written_of w.items })) }
    ensures refused { B.is_honest rows.new → IfErr result (λ e. (edited (B.state rows.old) edit.now ≡ Err e)
        ⊎ IsResource e) }
    ensures named { IfErr result IsEditRefusal }
    ensures caused { B.is_honest rows.new → IfErr result (IsCaused
        (B.fails (IsWriteOf (B.state rows.old) edit.now) rows.old rows.new)) }
    ensures was_honest { B.is_honest rows.new → B.is_honest rows.old }
    ensures kept { B.keeps (IsWriteOf (B.state rows.old) edit.now) (is_answered result) rows.old rows.new }
    ensures leaves { (held : State) → B.leaves_only rows.old held → B.leaves_only rows.new held }
{
    match edit {
        Edit::Insert { table, row } => insert_row(alloc, rows, table.as_str(), row),
        Edit::Update { table, key, row } => update_row(alloc, rows, table.as_str(), key, row),
        Edit::Delete { table, key } => delete_row(alloc, rows, table.as_str(), key),
    }
}

/// The schema of a table that has to be declared.
fn find_schema<B: Rows>(alloc: Global, rows: &mut B, table: &str) -> Result<Schema, StoreError>
    ensures found { B.is_honest rows.new → IfOk result (λ s. schema_at (B.state rows.old) table.now ≡ Some s) }
    ensures same { B.is_honest rows.new → OnOk result (B.state rows.new ≡ B.state rows.old) }
    ensures refused { B.is_honest rows.new → IfErr result (λ e. ((e ≡ NoSuchTable)
        × (schema_at (B.state rows.old) table.now ≡ None)) ⊎ IsResource e) }
    ensures named { IfErr result IsEditRefusal }
    ensures caused { B.is_honest rows.new → IfErr result (IsCaused
        (B.fails (λ _ _. ⊥) rows.old rows.new)) }
    ensures was_honest { B.is_honest rows.new → B.is_honest rows.old }
    ensures kept { B.keeps (λ _ _. ⊥) (is_answered result) rows.old rows.new }
{
    match rows.schema(alloc, table)? {
        Some(schema) => Ok(schema),
        None => Err(StoreError::NoTable),
    }
}

/// Returns the row under a key of a declared table.
fn find_row<B: Rows>(alloc: Global, rows: &mut B, table: &str, key: &Key) -> Result<Row, StoreError>
    requires { B.is_honest rows.old → IsDeclared (B.state rows.old) table.now }
    ensures found { B.is_honest rows.new → IfOk result (λ row. row_at (B.state rows.old) table.now key.now ≡ Some row) }
    ensures same { B.is_honest rows.new → OnOk result (B.state rows.new ≡ B.state rows.old) }
    ensures refused { B.is_honest rows.new → IfErr result (λ e. ((e ≡ NoSuchRow)
        × (row_at (B.state rows.old) table.now key.now ≡ None)) ⊎ IsResource e) }
    ensures named { IfErr result IsEditRefusal }
    ensures caused { B.is_honest rows.new → IfErr result (IsCaused
        (B.fails (λ _ _. ⊥) rows.old rows.new)) }
    ensures was_honest { B.is_honest rows.new → B.is_honest rows.old }
    ensures kept { B.keeps (λ _ _. ⊥) (is_answered result) rows.old rows.new }
{
    match rows.get(alloc, table, key)? {
        Some(row) => Ok(row),
        None => Err(StoreError::NoRow),
    }
}

/// Returns the key of a row that fits a table of this schema.
fn key_for(alloc: Global, schema: &Schema, row: &Row) -> Result<Key, StoreError>
    ensures key { IfOk result (λ key. IsRowAt schema.now key row.now) }
    ensures fits { OnOk result (row_fault schema.now row.now ≡ None) }
    ensures refused { IfErr result (λ e. (row_fault schema.now row.now ≡ Some e) ⊎ IsResource e) }
    ensures named { IfErr result IsEditRefusal }
    ensures caused { IfErr result (IsCaused (λ _. ⊥)) }
{
    if row.values().len() != schema.flags().len() {
        return Err(StoreError::RowWidth);
    }
    if !row.is_keyed(schema.flags()) {
        return Err(StoreError::NullInKey);
    }
    if !schema.is_obeyed_by(row) {
        return Err(StoreError::NotNull);
    }
    Ok(Key::of_row(alloc, schema.flags(), row)?)
}

/// Returns the report of a key that is written.
fn note(alloc: Global, table: RcStr, key: &Key, former: Option<Row>) -> Result<Written, StoreError>
    ensures noted { IfOk result (λ w. written_of w
        ≡ record { table = rc_str_bytes table; key = key.now; former = former }) }
    ensures refused { IfErr result (λ e. e ≡ OutOfMemory) }
{
    Ok(Written {
        table,
        key: key.copy(alloc)?,
        former,
    })
}

/// Returns the report of one key that is written.
fn note_one(
    alloc: Global,
    table: &str,
    key: &Key,
    former: Option<Row>,
) -> Result<Vec<Written>, StoreError>
    ensures noted { IfOk result (λ w. map written_of w.items
        ≡ record { table = table.now; key = key.now; former = former } ∷ []) }
    ensures refused { IfErr result (λ e. e ≡ OutOfMemory) }
{
    let table = RcStr::from_str(alloc, table)?;
    let mut written = Vec::new(alloc);
    written.push(note(alloc, table, key, former)?)?;
    Ok(written)
}

/// Returns the report of a row that gets another key.
fn note_move(
    alloc: Global,
    table: &str,
    key: &Key,
    former: Row,
    next: &Key,
) -> Result<Vec<Written>, StoreError>
    ensures noted { IfOk result (λ w. map written_of w.items
        ≡ record { table = table.now; key = key.now; former = Some former }
        ∷ record { table = table.now; key = next.now; former = None } ∷ []) }
    ensures refused { IfErr result (λ e. e ≡ OutOfMemory) }
{
    let table = RcStr::from_str(alloc, table)?;
    let mut written = Vec::new(alloc);
    written.push(note(alloc, table.clone()?, key, Some(former))?)?;
    written.push(note(alloc, table, next, None)?)?;
    Ok(written)
}

fn insert_row<B: Rows>(
    alloc: Global,
    rows: &mut B,
    table: &str,
    row: &Row,
) -> Result<Vec<Written>, StoreError>
    ensures edited { B.is_honest rows.new
        → IfOk result (λ w. inserted (B.state rows.old) table.now row.now
        ≡ Ok (record { state = B.state rows.new; written = map written_of w.items })) }
    ensures refused { B.is_honest rows.new
        → IfErr result (λ e. (inserted (B.state rows.old) table.now row.now ≡ Err e) ⊎ IsResource e) }
    ensures named { IfErr result IsEditRefusal }
    ensures caused { B.is_honest rows.new → IfErr result (IsCaused
        (B.fails (IsPutOf (B.state rows.old) table.now row.now) rows.old rows.new)) }
    ensures was_honest { B.is_honest rows.new → B.is_honest rows.old }
    ensures kept { B.keeps (IsPutOf (B.state rows.old) table.now row.now) (is_answered result) rows.old rows.new }
{
    let schema = find_schema(alloc, rows, table)?;
    let key = key_for(alloc, &schema, row)?;
    let written = note_one(alloc, table, &key, None)?;
    if !rows.add(alloc, table, &key, row)? {
        return Err(StoreError::KeyTaken);
    }
    Ok(written)
}

/// Puts a row in place of the one that has its key.
fn replace_row<B: Rows>(
    alloc: Global,
    rows: &mut B,
    table: &str,
    key: &Key,
    former: Row,
    row: &Row,
) -> Result<Vec<Written>, StoreError>
    requires fits { B.is_honest rows.old → Fits (B.state rows.old) table.now key.now row.now }
    ensures put { B.is_honest rows.new → OnOk result (B.state rows.new
        ≡ with_row (B.state rows.old) table.now key.now row.now) }
    ensures reported { IfOk result (λ w. map written_of w.items
        ≡ record { table = table.now; key = key.now; former = Some former } ∷ []) }
    ensures refused { IfErr result IsResource }
    ensures caused { B.is_honest rows.new → IfErr result (IsCaused
        (B.fails (IsPutOf (B.state rows.old) table.now row.now) rows.old rows.new)) }
    ensures was_honest { B.is_honest rows.new → B.is_honest rows.old }
    ensures kept { B.keeps (IsPutOf (B.state rows.old) table.now row.now) (is_answered result) rows.old rows.new }
{
    let written = note_one(alloc, table, key, Some(former))?;
    rows.put(alloc, table, key, row)?;
    Ok(written)
}

/// Puts a row under another key than that of the one whose place it takes. It is put first, so that rows which
/// refuse to take it have the former still.
fn move_row<B: Rows>(
    alloc: Global,
    rows: &mut B,
    table: &str,
    key: &Key,
    former: Row,
    next: &Key,
    row: &Row,
) -> Result<Vec<Written>, StoreError>
    requires fits { B.is_honest rows.old → Fits (B.state rows.old) table.now next.now row.now }
    requires apart { key.now ≢ next.now }
    ensures moved { B.is_honest rows.new → OnOk result ((row_at (B.state rows.old) table.now next.now ≡ None)
        × (B.state rows.new ≡ with_row (without_row (B.state rows.old) table.now key.now) table.now next.now row.now)) }
    ensures reported { IfOk result (λ w. map written_of w.items
        ≡ record { table = table.now; key = key.now; former = Some former }
        ∷ record { table = table.now; key = next.now; former = None } ∷ []) }
    ensures refused { B.is_honest rows.new → IfErr result (λ e. ((e ≡ TakenKey)
        × IsSome (row_at (B.state rows.old) table.now next.now)) ⊎ IsResource e) }
    ensures named { IfErr result IsEditRefusal }
    ensures caused { B.is_honest rows.new → IfErr result (IsCaused
        (B.fails (IsUpdateOf (B.state rows.old) table.now key.now row.now) rows.old rows.new)) }
    ensures was_honest { B.is_honest rows.new → B.is_honest rows.old }
    ensures kept { B.keeps (IsUpdateOf (B.state rows.old) table.now key.now row.now)
        (is_answered result) rows.old rows.new }
{
    let written = note_move(alloc, table, key, former, next)?;
    if !rows.add(alloc, table, next, row)? {
        return Err(StoreError::KeyTaken);
    }
    rows.remove(alloc, table, key)?;
    Ok(written)
}

fn update_row<B: Rows>(
    alloc: Global,
    rows: &mut B,
    table: &str,
    key: &Key,
    row: &Row,
) -> Result<Vec<Written>, StoreError>
    ensures edited { B.is_honest rows.new
        → IfOk result (λ w. updated (B.state rows.old) table.now key.now row.now
        ≡ Ok (record { state = B.state rows.new; written = map written_of w.items })) }
    ensures refused { B.is_honest rows.new
        → IfErr result (λ e. (updated (B.state rows.old) table.now key.now row.now ≡ Err e) ⊎ IsResource e) }
    ensures named { IfErr result IsEditRefusal }
    ensures caused { B.is_honest rows.new → IfErr result (IsCaused
        (B.fails (IsUpdateOf (B.state rows.old) table.now key.now row.now) rows.old rows.new)) }
    ensures was_honest { B.is_honest rows.new → B.is_honest rows.old }
    ensures kept { B.keeps (IsUpdateOf (B.state rows.old) table.now key.now row.now)
        (is_answered result) rows.old rows.new }
{
    let schema = find_schema(alloc, rows, table)?;
    let next = key_for(alloc, &schema, row)?;
    let former = find_row(alloc, rows, table, key)?;
    if *key == next {
        replace_row(alloc, rows, table, key, former, row)
    } else {
        move_row(alloc, rows, table, key, former, &next, row)
    }
}

fn delete_row<B: Rows>(
    alloc: Global,
    rows: &mut B,
    table: &str,
    key: &Key,
) -> Result<Vec<Written>, StoreError>
    ensures edited { B.is_honest rows.new
        → IfOk result (λ w. deleted (B.state rows.old) table.now key.now
        ≡ Ok (record { state = B.state rows.new; written = map written_of w.items })) }
    ensures refused { B.is_honest rows.new
        → IfErr result (λ e. (deleted (B.state rows.old) table.now key.now ≡ Err e) ⊎ IsResource e) }
    ensures named { IfErr result IsEditRefusal }
    ensures caused { B.is_honest rows.new → IfErr result (IsCaused
        (B.fails (IsRemovalOf (B.state rows.old) table.now key.now) rows.old rows.new)) }
    ensures was_honest { B.is_honest rows.new → B.is_honest rows.old }
    ensures kept { B.keeps (IsRemovalOf (B.state rows.old) table.now key.now)
        (is_answered result) rows.old rows.new }
{
    let _schema = find_schema(alloc, rows, table)?;
    let former = find_row(alloc, rows, table, key)?;
    let written = note_one(alloc, table, key, Some(former))?;
    rows.remove(alloc, table, key)?;
    Ok(written)
}
