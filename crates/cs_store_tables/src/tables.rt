//! The tables of a store, one call at a time, by its records.
ghost use Rattle.std.specs.FinMap as map;
ghost use Rattle.cs_rows.specs.declared.fault.StoreError.TheVariants.{DamagedStore as Damaged};
ghost use Rattle.std.specs.Prelude.{◌≡◌, ◌⊎◌, ◌<◌, ◌^◌, unwrap_or, map as map_list, IsTrue, OnOk, IfOk};
ghost use Rattle.std.specs.Prelude.{is_some, IsSome, IfErr, IfSome, Option, Some, None, ℕ, List, [], ◌∷◌, false, length, option_map, string_bytes};
ghost use Rattle.std.specs.List.{AllByRecursion};
ghost use Rattle.cs_value.specs.Table.{IsName};
ghost use Rattle.cs_value.specs.declared.value.OwnedValue.{OwnedValue};
ghost use Rattle.cs_value.specs.Spelling.{row_bytes};
ghost use Rattle.cs_value.specs.State.{SchemaData, IsSchema, schema_at, row_at, rows_at};
ghost use Rattle.cs_value.specs.State.{with_row, without_row};
ghost use Rattle.cs_store_encoding.specs.Declaration.{declaration_bytes};
ghost use Rattle.sqlite.specs.State.{HasCleanDisk, IsUnchanged};
ghost use Rattle.sqlite.specs.Effect.{Database};
ghost use Rattle.cs_store_sql.specs.Records.{IsAt, IsPlaced, KeepsCrash, Rests};
ghost use Rattle.sqlite.specs.Held.{state};
ghost use Rattle.cs_rows.specs.Faults.{IsCaused, IsResource, IsReadRefusal};
ghost use Rattle.cs_store_sql.specs.Failing.{puts, put_at, remove_at};
ghost use Rattle.cs_store_tables.specs.Failing.{BatchFails, IsDeclarationOf, LeadsOn, ReadFails, WriteFails, Writes};
ghost use Rattle.cs_store_tables.specs.Refusals.{refusal_of};
ghost use Rattle.cs_rows.specs.Rows.{Adds, IsDeclared, Fits, IsRowIn, puts_row};
ghost use Rattle.cs_store_tables.specs.Pages.{page_in};
ghost use Rattle.cs_store_tables.specs.Store.{IsSound, KeepsStore, Recovers, RecoversList, RefusesShut};
ghost use Rattle.cs_store_tables.specs.Store.{AddsTable, AreNamed, AreStored, tables_in};

use crate::refusal::{is_not_unique, refused};
use cs_rows::{Schema, StoreError};
use cs_store_encoding::{read_declaration, read_name, read_row, write_declaration};
use cs_store_sql::{
    Found, Keyed, Place, RecordsError, add_record, count_records, find_record, list_records,
    put_record, remove_record,
};
use cs_value::{Key, Row, row_write};
use sqlite::{Alter, Connection};
use std::alloc::Global;

/// The schema of a table, and none where no table has the name.
pub fn find_schema<S: Alter>(
    conn: &mut Connection<S>,
    alloc: Global,
    name: &str,
) -> Result<Option<Schema>, StoreError>
    ensures found { IsSound (state S.Store conn.old) → HasCleanDisk (state S.Store conn.new)
        → IfOk result (λ o. o ≡ schema_at (tables_in (state S.Store conn.old).now) name.now) }
    ensures same { HasCleanDisk (state S.Store conn.new) → OnOk result ((state S.Store conn.new).now
        ≡ (state S.Store conn.old).now) }
    ensures refused { IsSound (state S.Store conn.old) → HasCleanDisk (state S.Store conn.new)
        → IfErr result IsResource }
    ensures shut { HasCleanDisk (state S.Store conn.new) → RefusesShut (state S.Store conn.old) IsResource result }
    ensures caused { IsSound (state S.Store conn.old) → HasCleanDisk (state S.Store conn.new)
        → IfErr result (IsCaused (ReadFails (state S.Store conn.old) (state S.Store conn.new))) }
    ensures named { IfErr result IsReadRefusal }
    ensures leads { HasCleanDisk (state S.Store conn.new)
        → OnOk result (LeadsOn (λ _ _. ⊥) (state S.Store conn.old) (state S.Store conn.new)) }
    ensures reads { HasCleanDisk (state S.Store conn.new)
        → OnOk result (IsUnchanged (state S.Store conn.old) (state S.Store conn.new)) }
    ensures rests { HasCleanDisk (state S.Store conn.new) → Rests (state S.Store conn.old) (state S.Store conn.new) }
    ensures kept { KeepsStore (state S.Store conn.old) (state S.Store conn.new) }
{
    match find_record(conn, "", name.as_bytes()) {
        // the record under the empty name is the version of the format
        Ok(found) => {
            if name.is_empty() {
                Ok(None)
            } else {
                schema_in(alloc, found)
            }
        }
        Err(error) => Err(refused(error)),
    }
}

/// The schema whose declaration is stored, if one is.
fn schema_in(alloc: Global, stored: Option<Found>) -> Result<Option<Schema>, StoreError>
    ensures found { (o : Option SchemaData) → IfSome o IsSchema
        → option_map (λ f. f.1) stored ≡ option_map declaration_bytes o
        → Recovers result o }
    ensures caused { IfErr result (IsCaused (λ _. ⊥)) }
    ensures named { IfErr result IsReadRefusal }
{
    match stored {
        Some(found) => Ok(Some(read_declaration(alloc, &found.value)?)),
        None => Ok(None),
    }
}

/// The row under a key of the table of this name, which has this schema, and where it is.
pub fn find_row<S: Alter>(
    conn: &mut Connection<S>,
    alloc: Global,
    name: &str,
    schema: &Schema,
    key: &Key,
) -> Result<(Option<Row>, Place), StoreError>
    ensures found { IsSound (state S.Store conn.old) → HasCleanDisk (state S.Store conn.new)
        → schema_at (tables_in (state S.Store conn.old).now) name.now ≡ Some schema.now
        → IfOk result (λ p. p.0 ≡ row_at (tables_in (state S.Store conn.old).now) name.now key.now) }
    ensures placed { IsSound (state S.Store conn.old) → HasCleanDisk (state S.Store conn.new)
        → IfOk result (λ p. IsPlaced (state S.Store conn.old).now name.now key.now p.1) }
    ensures refused { IsSound (state S.Store conn.old) → HasCleanDisk (state S.Store conn.new)
        → schema_at (tables_in (state S.Store conn.old).now) name.now ≡ Some schema.now → IfErr result IsResource }
    ensures same { HasCleanDisk (state S.Store conn.new) → OnOk result ((state S.Store conn.new).now
        ≡ (state S.Store conn.old).now) }
    ensures fits { IsSound (state S.Store conn.old) → HasCleanDisk (state S.Store conn.new)
        → schema_at (tables_in (state S.Store conn.old).now) name.now ≡ Some schema.now
        → IfOk result (λ p. IfSome p.0 (Fits (tables_in (state S.Store conn.old).now) name.now key.now)) }
    ensures caused { IsSound (state S.Store conn.old) → HasCleanDisk (state S.Store conn.new)
        → IfErr result (IsCaused (ReadFails (state S.Store conn.old) (state S.Store conn.new))) }
    ensures named { IfErr result IsReadRefusal }
    ensures leads { HasCleanDisk (state S.Store conn.new)
        → OnOk result (LeadsOn (λ _ _. ⊥) (state S.Store conn.old) (state S.Store conn.new)) }
    ensures reads { HasCleanDisk (state S.Store conn.new)
        → OnOk result (IsUnchanged (state S.Store conn.old) (state S.Store conn.new)) }
    ensures rests { HasCleanDisk (state S.Store conn.new) → Rests (state S.Store conn.old) (state S.Store conn.new) }
    ensures kept { KeepsStore (state S.Store conn.old) (state S.Store conn.new) }
{
    match find_record(conn, name, key.bytes()) {
        Ok(found) => {
            let place = place_of(&found);
            Ok((row_in(alloc, schema, found)?, place))
        }
        Err(error) => Err(refused(error)),
    }
}

/// Where the record is that was looked for.
fn place_of(found: &Option<Found>) -> Place
    ensures { (db : Database) (tab key : List ℕ) → IfSome found.now (λ f. IsAt db tab key f.0)
        → IsPlaced db tab key result }
{
    match found {
        Some(found) => Place::At(found.rowid),
        None => Place::Unknown,
    }
}

/// The row that is stored, if one is.
fn row_in(alloc: Global, schema: &Schema, stored: Option<Found>) -> Result<Option<Row>, StoreError>
    ensures found { (o : Option (List OwnedValue)) → IfSome o (IsRowIn schema.now)
        → option_map (λ f. f.1) stored ≡ option_map row_bytes o → Recovers result o }
    ensures caused { IfErr result (IsCaused (λ _. ⊥)) }
    ensures named { IfErr result IsReadRefusal }
{
    match stored {
        Some(found) => Ok(Some(read_row(alloc, schema, &found.value)?)),
        None => Ok(None),
    }
}

/// The rows of the table of this name, which has this schema.
pub fn list_rows<S: Alter>(
    conn: &mut Connection<S>,
    alloc: Global,
    name: &str,
    schema: &Schema,
) -> Result<Vec<Row>, StoreError>
    ensures listed { IsSound (state S.Store conn.old) → HasCleanDisk (state S.Store conn.new)
        → schema_at (tables_in (state S.Store conn.old).now) name.now ≡ Some schema.now
        → RecoversList result (map.values (rows_at (tables_in (state S.Store conn.old).now) name.now)) }
    ensures same { HasCleanDisk (state S.Store conn.new) → OnOk result ((state S.Store conn.new).now
        ≡ (state S.Store conn.old).now) }
    ensures caused { IsSound (state S.Store conn.old) → HasCleanDisk (state S.Store conn.new)
        → IfErr result (IsCaused (ReadFails (state S.Store conn.old) (state S.Store conn.new))) }
    ensures named { IfErr result IsReadRefusal }
    ensures leads { HasCleanDisk (state S.Store conn.new)
        → OnOk result (LeadsOn (λ _ _. ⊥) (state S.Store conn.old) (state S.Store conn.new)) }
    ensures reads { HasCleanDisk (state S.Store conn.new)
        → OnOk result (IsUnchanged (state S.Store conn.old) (state S.Store conn.new)) }
    ensures rests { HasCleanDisk (state S.Store conn.new) → Rests (state S.Store conn.old) (state S.Store conn.new) }
    ensures kept { KeepsStore (state S.Store conn.old) (state S.Store conn.new) }
{
    match list_records(conn, alloc, name) {
        Ok(listed) => rows_in(alloc, schema, &listed),
        Err(error) => Err(refused(error)),
    }
}

/// The number of the rows of the table of this name.
pub fn count_rows<S: Alter>(conn: &mut Connection<S>, name: &str) -> Result<u64, StoreError>
    ensures counted { (schema : SchemaData) → IsSound (state S.Store conn.old) → HasCleanDisk (state S.Store conn.new)
        → schema_at (tables_in (state S.Store conn.old).now) name.now ≡ Some schema → IfOk result
        (λ n. n ≡ length (map.values (rows_at (tables_in (state S.Store conn.old).now) name.now))) }
    ensures same { HasCleanDisk (state S.Store conn.new) → OnOk result ((state S.Store conn.new).now
        ≡ (state S.Store conn.old).now) }
    ensures refused { IfErr result IsResource }
    ensures caused { IsSound (state S.Store conn.old) → HasCleanDisk (state S.Store conn.new)
        → IfErr result (IsCaused (ReadFails (state S.Store conn.old) (state S.Store conn.new))) }
    ensures leads { HasCleanDisk (state S.Store conn.new)
        → OnOk result (LeadsOn (λ _ _. ⊥) (state S.Store conn.old) (state S.Store conn.new)) }
    ensures reads { HasCleanDisk (state S.Store conn.new)
        → OnOk result (IsUnchanged (state S.Store conn.old) (state S.Store conn.new)) }
    ensures rests { HasCleanDisk (state S.Store conn.new) → Rests (state S.Store conn.old) (state S.Store conn.new) }
    ensures kept { KeepsStore (state S.Store conn.old) (state S.Store conn.new) }
{
    match count_records(conn, name) {
        Ok(number) => Ok(number),
        Err(error) => Err(refused(error)),
    }
}

/// The bytes of a key, and no bytes where there is none.
fn bytes_of<'a>(key: Option<&'a Key>) -> &'a [u8]
    ensures { result.now ≡ unwrap_or (option_map (λ k. k.now) key.entry) [] }
{
    match key {
        Some(key) => key.bytes(),
        None => &[],
    }
}

/// The rows of a page of the table of this name, which has this schema.
pub fn list_page<S: Alter>(
    conn: &mut Connection<S>,
    alloc: Global,
    name: &str,
    schema: &Schema,
    after: Option<&Key>,
    limit: u64,
) -> Result<Vec<Row>, StoreError>
    requires { limit < 2 ^ 63 }
    ensures listed { IsSound (state S.Store conn.old) → HasCleanDisk (state S.Store conn.new)
        → schema_at (tables_in (state S.Store conn.old).now) name.now ≡ Some schema.now
        → RecoversList result (page_in (rows_at (tables_in (state S.Store conn.old).now) name.now)
        (option_map (λ k. k.now) after.entry) limit) }
    ensures same { HasCleanDisk (state S.Store conn.new) → OnOk result ((state S.Store conn.new).now
        ≡ (state S.Store conn.old).now) }
    ensures caused { IsSound (state S.Store conn.old) → HasCleanDisk (state S.Store conn.new)
        → IfErr result (IsCaused (ReadFails (state S.Store conn.old) (state S.Store conn.new))) }
    ensures named { IfErr result IsReadRefusal }
    ensures leads { HasCleanDisk (state S.Store conn.new)
        → OnOk result (LeadsOn (λ _ _. ⊥) (state S.Store conn.old) (state S.Store conn.new)) }
    ensures reads { HasCleanDisk (state S.Store conn.new)
        → OnOk result (IsUnchanged (state S.Store conn.old) (state S.Store conn.new)) }
    ensures rests { HasCleanDisk (state S.Store conn.new) → Rests (state S.Store conn.old) (state S.Store conn.new) }
    ensures kept { KeepsStore (state S.Store conn.old) (state S.Store conn.new) }
{
    match cs_store_sql::list_page(conn, alloc, name, bytes_of(after), limit) {
        Ok(listed) => rows_in(alloc, schema, &listed),
        Err(error) => Err(refused(error)),
    }
}

/// The rows that are stored.
fn rows_in(alloc: Global, schema: &Schema, listed: &[Keyed]) -> Result<Vec<Row>, StoreError>
    ensures read { IfOk result (λ rows. AreStored schema.now (map_list (λ e. e.1) listed.now) rows.items) }
    ensures refused { IfErr result (λ e. ((e ≡ Damaged) × ((rows : List (List OwnedValue))
        → ¬ (AreStored schema.now (map_list (λ e. e.1) listed.now) rows))) ⊎ IsResource e) }
    ensures caused { IfErr result (IsCaused (λ _. ⊥)) }
{
    let mut rows = Vec::new(alloc);
    for record in listed {
        match read_row(alloc, schema, &record.value) {
            Ok(row) => rows.push(row)?,
            Err(error) => return Err(error),
        }
    }
    Ok(rows)
}

/// Whether a row of a declared table has this key.
fn has_row<S: Alter>(conn: &mut Connection<S>, name: &str, key: &Key) -> Result<bool, StoreError>
    ensures found { IsSound (state S.Store conn.old) → HasCleanDisk (state S.Store conn.new)
        → IsDeclared (tables_in (state S.Store conn.old).now) name.now
        → IfOk result (λ has. has ≡ is_some (row_at (tables_in (state S.Store conn.old).now) name.now key.now)) }
    ensures refused { IfErr result IsResource }
    ensures caused { IsSound (state S.Store conn.old) → HasCleanDisk (state S.Store conn.new)
        → IfErr result (IsCaused (ReadFails (state S.Store conn.old) (state S.Store conn.new))) }
    ensures reads { HasCleanDisk (state S.Store conn.new)
        → OnOk result (IsUnchanged (state S.Store conn.old) (state S.Store conn.new)) }
    ensures rests { HasCleanDisk (state S.Store conn.new) → Rests (state S.Store conn.old) (state S.Store conn.new) }
    ensures keeps_crash { KeepsCrash (state S.Store conn.old) (state S.Store conn.new) }
{
    match find_record(conn, name, key.bytes()) {
        Ok(found) => Ok(found.is_some()),
        Err(error) => Err(refused(error)),
    }
}

/// Returns false where a row has the key of a new row that the database refused as not unique, and else the refusal:
/// another index refused the row.
fn expect_row<S: Alter>(
    conn: &mut Connection<S>,
    name: &str,
    key: &Key,
    refusal: RecordsError,
) -> Result<bool, StoreError>
    ensures found { IsSound (state S.Store conn.old) → HasCleanDisk (state S.Store conn.new)
        → IsDeclared (tables_in (state S.Store conn.old).now) name.now → IfOk result (λ added. (added ≡ false)
        × IsSome (row_at (tables_in (state S.Store conn.old).now) name.now key.now)) }
    ensures refused { IfErr result IsResource }
    ensures caused { IsSound (state S.Store conn.old) → HasCleanDisk (state S.Store conn.new)
        → IsDeclared (tables_in (state S.Store conn.old).now) name.now → IfErr result (λ e.
        IsCaused (ReadFails (state S.Store conn.old) (state S.Store conn.new)) e ⊎ ((e ≡ refusal_of refusal)
        × (row_at (tables_in (state S.Store conn.old).now) name.now key.now ≡ None))) }
    ensures reads { HasCleanDisk (state S.Store conn.new)
        → OnOk result (IsUnchanged (state S.Store conn.old) (state S.Store conn.new)) }
    ensures rests { HasCleanDisk (state S.Store conn.new) → Rests (state S.Store conn.old) (state S.Store conn.new) }
    ensures keeps_crash { KeepsCrash (state S.Store conn.old) (state S.Store conn.new) }
{
    if has_row(conn, name, key)? {
        Ok(false)
    } else {
        Err(refused(refusal))
    }
}

/// Adds a row under its key to a table that it fits, inside a transaction, and returns whether it does: nothing changes
/// where a row has the key.
pub fn add_row<S: Alter>(
    conn: &mut Connection<S>,
    alloc: Global,
    name: &str,
    key: &Key,
    row: &Row,
) -> Result<bool, StoreError>
    requires { HasCleanDisk (state S.Store conn.old)
        → Fits (tables_in (state S.Store conn.old).now) name.now key.now row.now }
    ensures added { IsSound (state S.Store conn.old) → IsTrue (state S.Store conn.old).in_transaction
        → HasCleanDisk (state S.Store conn.new) → IfOk result (λ added. Adds
        (tables_in (state S.Store conn.old).now) name.now key.now row.now added
        (tables_in (state S.Store conn.new).now)) }
    ensures refused { IfErr result IsResource }
    ensures caused { IsSound (state S.Store conn.old) → IsTrue (state S.Store conn.old).in_transaction
        → HasCleanDisk (state S.Store conn.new) → IfErr result (IsCaused (BatchFails (Writes (λ held write.
        (held ≡ tables_in (state S.Store conn.old).now) × (write ≡ puts_row name.now key.now row.now)))
        (state S.Store conn.old) (state S.Store conn.new))) }
    ensures leads { IsSound (state S.Store conn.old) → IsTrue (state S.Store conn.old).in_transaction
        → HasCleanDisk (state S.Store conn.new) → OnOk result (LeadsOn (Writes (λ held write.
        (held ≡ tables_in (state S.Store conn.old).now) × (write ≡ puts_row name.now key.now row.now)))
        (state S.Store conn.old) (state S.Store conn.new)) }
    ensures kept { IsSound (state S.Store conn.old) → IsTrue (state S.Store conn.old).in_transaction
        → KeepsStore (state S.Store conn.old) (state S.Store conn.new) }
{
    let mut bytes = Vec::new(alloc);
    row_write(&mut bytes, row)?;
    match add_record(conn, name, key.bytes(), &bytes) {
        Ok(()) => Ok(true),
        Err(error) if is_not_unique(&error) => expect_row(conn, name, key, error),
        Err(error) => Err(refused(error)),
    }
}

/// Puts a row under its key in a table that it fits, inside a transaction. If it is known where the row of the key is, none
/// is looked for.
pub fn put_row<S: Alter>(
    conn: &mut Connection<S>,
    alloc: Global,
    name: &str,
    key: &Key,
    row: &Row,
    place: Place,
) -> Result<(), StoreError>
    requires fits { HasCleanDisk (state S.Store conn.old)
        → Fits (tables_in (state S.Store conn.old).now) name.now key.now row.now }
    requires placed { HasCleanDisk (state S.Store conn.old)
        → IsPlaced (state S.Store conn.old).now name.now key.now place }
    ensures put { IsSound (state S.Store conn.old) → IsTrue (state S.Store conn.old).in_transaction
        → HasCleanDisk (state S.Store conn.new)
        → OnOk result (tables_in (state S.Store conn.new).now
        ≡ with_row (tables_in (state S.Store conn.old).now) name.now key.now row.now) }
    ensures refused { IfErr result IsResource }
    ensures caused { IsSound (state S.Store conn.old) → IsTrue (state S.Store conn.old).in_transaction
        → HasCleanDisk (state S.Store conn.new) → IfErr result
        (IsCaused (WriteFails (state S.Store conn.old) (state S.Store conn.new) (put_at place name.now key.now (row_bytes row.now)))) }
    ensures leads { IsSound (state S.Store conn.old) → IsTrue (state S.Store conn.old).in_transaction
        → HasCleanDisk (state S.Store conn.new)
        → OnOk result (LeadsOn (λ held statement. (held ≡ tables_in (state S.Store conn.old).now)
        × (statement ≡ put_at place name.now key.now (row_bytes row.now))) (state S.Store conn.old) (state S.Store conn.new)) }
    ensures kept { IsSound (state S.Store conn.old) → IsTrue (state S.Store conn.old).in_transaction
        → KeepsStore (state S.Store conn.old) (state S.Store conn.new) }
{
    let mut bytes = Vec::new(alloc);
    row_write(&mut bytes, row)?;
    put_record(conn, name, key.bytes(), &bytes, place).map_err(refused)
}

/// Removes the row under a key of a declared table, if there is one, inside a transaction. If it is known where the row
/// is, none is looked for.
pub fn remove_row<S: Alter>(
    conn: &mut Connection<S>,
    name: &str,
    key: &Key,
    place: Place,
) -> Result<(), StoreError>
    requires declared { HasCleanDisk (state S.Store conn.old)
        → IsDeclared (tables_in (state S.Store conn.old).now) name.now }
    requires placed { HasCleanDisk (state S.Store conn.old)
        → IsPlaced (state S.Store conn.old).now name.now key.now place }
    ensures removed { IsSound (state S.Store conn.old) → IsTrue (state S.Store conn.old).in_transaction
        → HasCleanDisk (state S.Store conn.new)
        → OnOk result (tables_in (state S.Store conn.new).now
        ≡ without_row (tables_in (state S.Store conn.old).now) name.now key.now) }
    ensures refused { IfErr result IsResource }
    ensures caused { IsSound (state S.Store conn.old) → IsTrue (state S.Store conn.old).in_transaction
        → HasCleanDisk (state S.Store conn.new) → IfErr result
        (IsCaused (WriteFails (state S.Store conn.old) (state S.Store conn.new) (remove_at place name.now key.now))) }
    ensures leads { IsSound (state S.Store conn.old) → IsTrue (state S.Store conn.old).in_transaction
        → HasCleanDisk (state S.Store conn.new)
        → OnOk result (LeadsOn (λ held statement. (held ≡ tables_in (state S.Store conn.old).now)
        × (statement ≡ remove_at place name.now key.now)) (state S.Store conn.old) (state S.Store conn.new)) }
    ensures kept { IsSound (state S.Store conn.old) → IsTrue (state S.Store conn.old).in_transaction
        → KeepsStore (state S.Store conn.old) (state S.Store conn.new) }
{
    remove_record(conn, name, key.bytes(), place).map_err(refused)
}

/// The names of the tables, by their bytes.
pub fn list_tables<S: Alter>(
    conn: &mut Connection<S>,
    alloc: Global,
) -> Result<Vec<String>, StoreError>
    ensures listed { IsSound (state S.Store conn.old) → HasCleanDisk (state S.Store conn.new)
        → IfOk result (λ names. map_list string_bytes names.items ≡ map.keys (tables_in (state S.Store conn.old).now)) }
    ensures same { HasCleanDisk (state S.Store conn.new) → OnOk result ((state S.Store conn.new).now
        ≡ (state S.Store conn.old).now) }
    ensures refused { IsSound (state S.Store conn.old) → HasCleanDisk (state S.Store conn.new)
        → IfErr result IsResource }
    ensures shut { HasCleanDisk (state S.Store conn.new) → RefusesShut (state S.Store conn.old) IsResource result }
    ensures caused { IsSound (state S.Store conn.old) → HasCleanDisk (state S.Store conn.new)
        → IfErr result (IsCaused (ReadFails (state S.Store conn.old) (state S.Store conn.new))) }
    ensures named { IfErr result IsReadRefusal }
    ensures reads { HasCleanDisk (state S.Store conn.new)
        → OnOk result (IsUnchanged (state S.Store conn.old) (state S.Store conn.new)) }
    ensures rests { HasCleanDisk (state S.Store conn.new) → Rests (state S.Store conn.old) (state S.Store conn.new) }
    ensures kept { KeepsStore (state S.Store conn.old) (state S.Store conn.new) }
{
    match list_records(conn, alloc, "") {
        Ok(listed) => names_behind(alloc, &listed),
        Err(error) => Err(refused(error)),
    }
}

/// Returns the names that the records under the empty name are of. The first record is the version's.
fn names_behind(alloc: Global, listed: &[Keyed]) -> Result<Vec<String>, StoreError>
    ensures read { (names : List (List ℕ)) → map_list (λ e. e.0) listed.now ≡ [] ∷ names → AllByRecursion IsName names
        → AreNamed result names }
    ensures caused { IfErr result (IsCaused (λ _. ⊥)) }
    ensures named { IfErr result IsReadRefusal }
{
    match listed {
        [_version, declared @ ..] => names_of(alloc, declared),
        [] => Ok(Vec::new(alloc)),
    }
}

/// The names that the records are of.
fn names_of(alloc: Global, listed: &[Keyed]) -> Result<Vec<String>, StoreError>
    ensures read { IfOk result (λ names. map_list string_bytes names.items ≡ map_list (λ e. e.0) listed.now) }
    ensures refused { IfErr result (λ e. ((e ≡ Damaged) × (¬ AllByRecursion IsName (map_list (λ e. e.0) listed.now)))
        ⊎ IsResource e) }
    ensures caused { IfErr result (IsCaused (λ _. ⊥)) }
{
    let mut names = Vec::new(alloc);
    for record in listed {
        match read_name(alloc, &record.key) {
            Ok(name) => names.push(name)?,
            Err(error) => return Err(error),
        }
    }
    Ok(names)
}

/// Declares a table without rows under a name that no table has, inside a transaction.
pub fn put_table<S: Alter>(
    conn: &mut Connection<S>,
    alloc: Global,
    name: &str,
    schema: &Schema,
) -> Result<(), StoreError>
    requires named { IsName name.now }
    requires free { HasCleanDisk (state S.Store conn.old)
        → schema_at (tables_in (state S.Store conn.old).now) name.now ≡ None }
    ensures declared { IsSound (state S.Store conn.old) → IsTrue (state S.Store conn.old).in_transaction
        → HasCleanDisk (state S.Store conn.new)
        → OnOk result (AddsTable (tables_in (state S.Store conn.old).now) name.now schema.now
        (tables_in (state S.Store conn.new).now)) }
    ensures refused { IfErr result IsResource }
    ensures caused { IsSound (state S.Store conn.old) → IsTrue (state S.Store conn.old).in_transaction
        → HasCleanDisk (state S.Store conn.new) → IfErr result
        (IsCaused (WriteFails (state S.Store conn.old) (state S.Store conn.new) (puts false [] name.now (declaration_bytes schema.now)))) }
    ensures leads { IsSound (state S.Store conn.old) → IsTrue (state S.Store conn.old).in_transaction
        → HasCleanDisk (state S.Store conn.new)
        → OnOk result (LeadsOn (IsDeclarationOf (tables_in (state S.Store conn.old).now) name.now schema.now) (state S.Store conn.old) (state S.Store conn.new)) }
    ensures kept { IsSound (state S.Store conn.old) → IsTrue (state S.Store conn.old).in_transaction
        → KeepsStore (state S.Store conn.old) (state S.Store conn.new) }
{
    let bytes = write_declaration(alloc, schema)?;
    put_record(conn, "", name.as_bytes(), &bytes, Place::Unknown).map_err(refused)
}
