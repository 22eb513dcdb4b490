//! What is read and written through a store. The table that was looked up last is known: inside a transaction its schema
//! is not read again. It stays known when a transaction begins and when it is committed, and is forgotten when a call
//! fails. The key that was looked up last and where its row is are known until the next write or the end of the
//! transaction: a row that is put or removed there is not looked for again.
ghost use Rattle.std.specs.Prelude.{◌≡◌, ◌⊎◌, ◌<◌, ◌^◌, true, false, IsTrue, IfOk, IfErr, OnOk, OnErr, IfSome, None, Some};
ghost use Rattle.std.specs.Prelude.{length, option_map};
ghost use Rattle.std.specs.FinMap as map;
ghost use Rattle.cs_value.specs.Table.{IsName};
ghost use Rattle.cs_value.specs.State.{schema_at, row_at, rows_at, with_row, without_row};
ghost use Rattle.cs_rows.specs.declared.fault.StoreError.TheVariants.{TableExists as TakenName};
ghost use Rattle.cs_rows.specs.Faults.{IsCaused, IsResource, IsReadRefusal, is_answered};
ghost use Rattle.cs_rows.specs.Rows.{Adds, IsDeclared, Fits, puts_row, removes_row};
ghost use Rattle.cs_store_tables.specs.Failing.{BatchFails, BeginFails, CommitFails, IsDeclarationOf, LeadsOn};
ghost use Rattle.cs_store_tables.specs.Failing.{PutFails, ReadFails, RemoveFails, Writes};
ghost use Rattle.cs_store_tables.specs.Pages.{page_in};
ghost use Rattle.cs_store_tables.specs.Store.{AddsTable, Begins, IsKnown, IsSound, KeepsStore, Knows, RefusesShut};
ghost use Rattle.cs_store_tables.specs.Store.{tables_in, without_key};
ghost use Rattle.sqlite.specs.State.{HasCleanDisk, IsUnchanged, Shows, Survives};
ghost use Rattle.sqlite.specs.Effect.{Database};
ghost use Rattle.cs_store_sql.specs.Records.{IsPlaced, IsUndone, KeepsContent, KeepsCrash, Rests};
ghost use Rattle.sqlite.specs.Held.{state};

use crate::ending::commit;
use crate::refusal::refused;
use crate::tables;
use cs_rows::{Cause, Schema, StoreError};
use cs_store_sql::{Place, transactions};
use cs_value::{Key, Row};
use sqlite::{Alter, Connection};
use std::alloc::Global;
use std::marker::Model;

/// A table whose schema is known.
#[derive(Drop)]
pub struct KnownTable {
    name: String,
    schema: Schema,
    // The key that was looked up last, if nothing was written since.
    sought: Option<Sought>,
}

/// A key of a table, and where its row is.
#[derive(Drop)]
struct Sought {
    key: Key,
    place: Place,
}

impl Model for Sought {
    ghost use Rattle.std.specs.Prelude.{List, ℕ};
    ghost use Rattle.cs_store_sql.specs.declared.records.Place.{Place as PlaceOf};

    ghost Value = { List ℕ × PlaceOf };

    ghost view = { λ s. (s.key, s.place) };
}

impl Model for KnownTable {
    ghost use Rattle.std.specs.Prelude.{string_bytes};
    ghost use Rattle.cs_store_tables.specs.Store.{KnownData};

    ghost Value = { KnownData };

    ghost view = { λ t. (string_bytes t.name, t.schema, t.sought) };
}

/// The schema of a table, and none where no table has the name.
pub fn find_schema<S: Alter>(
    conn: &mut Connection<S>,
    known: &mut Option<KnownTable>,
    alloc: Global,
    name: &str,
) -> Result<Option<Schema>, StoreError>
    requires sound { IsSound (state S.Store conn.old) }
    requires knows { Knows (state S.Store conn.old) known.old }
    ensures found { HasCleanDisk (state S.Store conn.new)
        → IfOk result (λ o. o ≡ schema_at (tables_in (state S.Store conn.old).now) name.now) }
    ensures same { HasCleanDisk (state S.Store conn.new) → OnOk result ((state S.Store conn.new).now
        ≡ (state S.Store conn.old).now) }
    ensures refused { HasCleanDisk (state S.Store conn.new)
        → IfErr result IsResource }
    ensures shut { HasCleanDisk (state S.Store conn.new) → RefusesShut (state S.Store conn.old) IsResource result }
    ensures caused { HasCleanDisk (state S.Store conn.new)
        → IfErr result (IsCaused (ReadFails (state S.Store conn.old) (state S.Store conn.new))) }
    ensures named { IfErr result IsReadRefusal }
    ensures knows { Knows (state S.Store conn.new) known.new }
    ensures leads { HasCleanDisk (state S.Store conn.new)
        → OnOk result (LeadsOn (λ _ _. ⊥) (state S.Store conn.old) (state S.Store conn.new)) }
    ensures reads { HasCleanDisk (state S.Store conn.new)
        → OnOk result (IsUnchanged (state S.Store conn.old) (state S.Store conn.new)) }
    ensures rests { HasCleanDisk (state S.Store conn.new) → Rests (state S.Store conn.old) (state S.Store conn.new) }
    ensures kept { KeepsStore (state S.Store conn.old) (state S.Store conn.new) }
{
    look_up(conn, known, alloc, name)?;
    match known {
        Some(table) => Ok(Some(table.schema.copy(alloc)?)),
        None => Ok(None),
    }
}

/// The row of a table under a key, and none where no row has the key or no table the name. A table is known then,
/// if one has the name.
pub fn find_row<S: Alter>(
    conn: &mut Connection<S>,
    known: &mut Option<KnownTable>,
    alloc: Global,
    name: &str,
    key: &Key,
) -> Result<Option<Row>, StoreError>
    requires sound { IsSound (state S.Store conn.old) }
    requires knows { Knows (state S.Store conn.old) known.old }
    ensures found { HasCleanDisk (state S.Store conn.new)
        → IfOk result (λ o. o ≡ row_at (tables_in (state S.Store conn.old).now) name.now key.now) }
    ensures fits { HasCleanDisk (state S.Store conn.new)
        → IfOk result (λ o. IfSome o (Fits (tables_in (state S.Store conn.old).now) name.now key.now)) }
    ensures tells { HasCleanDisk (state S.Store conn.new) → OnOk result (option_map (λ t. t.1) known.new
        ≡ schema_at (tables_in (state S.Store conn.old).now) name.now) }
    ensures same { HasCleanDisk (state S.Store conn.new) → OnOk result ((state S.Store conn.new).now
        ≡ (state S.Store conn.old).now) }
    ensures refused { HasCleanDisk (state S.Store conn.new) → IfErr result IsResource }
    ensures shut { HasCleanDisk (state S.Store conn.new) → RefusesShut (state S.Store conn.old) IsResource result }
    ensures caused { HasCleanDisk (state S.Store conn.new)
        → IfErr result (IsCaused (ReadFails (state S.Store conn.old) (state S.Store conn.new))) }
    ensures named { IfErr result IsReadRefusal }
    ensures knows { Knows (state S.Store conn.new) known.new }
    ensures leads { HasCleanDisk (state S.Store conn.new)
        → OnOk result (LeadsOn (λ _ _. ⊥) (state S.Store conn.old) (state S.Store conn.new)) }
    ensures reads { HasCleanDisk (state S.Store conn.new)
        → OnOk result (IsUnchanged (state S.Store conn.old) (state S.Store conn.new)) }
    ensures rests { HasCleanDisk (state S.Store conn.new) → Rests (state S.Store conn.old) (state S.Store conn.new) }
    ensures kept { KeepsStore (state S.Store conn.old) (state S.Store conn.new) }
{
    look_up(conn, known, alloc, name)?;
    match known {
        Some(table) => match tables::find_row(conn, alloc, name, &table.schema, key) {
            Ok((row, place)) => {
                if !conn.is_autocommit() {
                    let key = key.copy(alloc)?;
                    table.sought = Some(Sought { key, place });
                }
                Ok(row)
            }
            Err(error) => {
                *known = None;
                Err(error)
            }
        },
        None => Ok(None),
    }
}

/// The rows of a table by the bytes of their keys, and none where no table has the name. A table is known then, if
/// one has the name.
pub fn list_rows<S: Alter>(
    conn: &mut Connection<S>,
    known: &mut Option<KnownTable>,
    alloc: Global,
    name: &str,
) -> Result<Vec<Row>, StoreError>
    requires sound { IsSound (state S.Store conn.old) }
    requires knows { Knows (state S.Store conn.old) known.old }
    ensures listed { HasCleanDisk (state S.Store conn.new)
        → IfOk result (λ rows. rows.items ≡ map.values (rows_at (tables_in (state S.Store conn.old).now) name.now)) }
    ensures tells { HasCleanDisk (state S.Store conn.new) → OnOk result (option_map (λ t. t.1) known.new
        ≡ schema_at (tables_in (state S.Store conn.old).now) name.now) }
    ensures same { HasCleanDisk (state S.Store conn.new) → OnOk result ((state S.Store conn.new).now
        ≡ (state S.Store conn.old).now) }
    ensures refused { HasCleanDisk (state S.Store conn.new) → IfErr result IsResource }
    ensures shut { HasCleanDisk (state S.Store conn.new) → RefusesShut (state S.Store conn.old) IsResource result }
    ensures caused { HasCleanDisk (state S.Store conn.new)
        → IfErr result (IsCaused (ReadFails (state S.Store conn.old) (state S.Store conn.new))) }
    ensures named { IfErr result IsReadRefusal }
    ensures knows { Knows (state S.Store conn.new) known.new }
    ensures leads { HasCleanDisk (state S.Store conn.new)
        → OnOk result (LeadsOn (λ _ _. ⊥) (state S.Store conn.old) (state S.Store conn.new)) }
    ensures reads { HasCleanDisk (state S.Store conn.new)
        → OnOk result (IsUnchanged (state S.Store conn.old) (state S.Store conn.new)) }
    ensures rests { HasCleanDisk (state S.Store conn.new) → Rests (state S.Store conn.old) (state S.Store conn.new) }
    ensures kept { KeepsStore (state S.Store conn.old) (state S.Store conn.new) }
{
    look_up(conn, known, alloc, name)?;
    match known {
        Some(table) => match tables::list_rows(conn, alloc, name, &table.schema) {
            Ok(listed) => Ok(listed),
            Err(error) => {
                *known = None;
                Err(error)
            }
        },
        None => Ok(Vec::new(alloc)),
    }
}

/// A page of the rows of a table, and none where no table has the name: the first rows by the bytes of their keys, or
/// the first after a key. A table is known then, if one has the name.
pub fn list_page<S: Alter>(
    conn: &mut Connection<S>,
    known: &mut Option<KnownTable>,
    alloc: Global,
    name: &str,
    after: Option<&Key>,
    limit: u64,
) -> Result<Vec<Row>, StoreError>
    requires sound { IsSound (state S.Store conn.old) }
    requires knows { Knows (state S.Store conn.old) known.old }
    requires limit { limit < 2 ^ 63 }
    ensures listed { HasCleanDisk (state S.Store conn.new)
        → IfOk result (λ rows. rows.items ≡ page_in (rows_at (tables_in (state S.Store conn.old).now) name.now)
        (option_map (λ k. k.now) after.entry) limit) }
    ensures tells { HasCleanDisk (state S.Store conn.new) → OnOk result (option_map (λ t. t.1) known.new
        ≡ schema_at (tables_in (state S.Store conn.old).now) name.now) }
    ensures same { HasCleanDisk (state S.Store conn.new) → OnOk result ((state S.Store conn.new).now
        ≡ (state S.Store conn.old).now) }
    ensures refused { HasCleanDisk (state S.Store conn.new) → IfErr result IsResource }
    ensures shut { HasCleanDisk (state S.Store conn.new) → RefusesShut (state S.Store conn.old) IsResource result }
    ensures caused { HasCleanDisk (state S.Store conn.new)
        → IfErr result (IsCaused (ReadFails (state S.Store conn.old) (state S.Store conn.new))) }
    ensures named { IfErr result IsReadRefusal }
    ensures knows { Knows (state S.Store conn.new) known.new }
    ensures leads { HasCleanDisk (state S.Store conn.new)
        → OnOk result (LeadsOn (λ _ _. ⊥) (state S.Store conn.old) (state S.Store conn.new)) }
    ensures reads { HasCleanDisk (state S.Store conn.new)
        → OnOk result (IsUnchanged (state S.Store conn.old) (state S.Store conn.new)) }
    ensures rests { HasCleanDisk (state S.Store conn.new) → Rests (state S.Store conn.old) (state S.Store conn.new) }
    ensures kept { KeepsStore (state S.Store conn.old) (state S.Store conn.new) }
{
    look_up(conn, known, alloc, name)?;
    match known {
        Some(table) => match tables::list_page(conn, alloc, name, &table.schema, after, limit) {
            Ok(listed) => Ok(listed),
            Err(error) => {
                *known = None;
                Err(error)
            }
        },
        None => Ok(Vec::new(alloc)),
    }
}

/// The number of the rows of a table, and 0 where no table has the name. A table is known then, if one has the name.
pub fn count_rows<S: Alter>(
    conn: &mut Connection<S>,
    known: &mut Option<KnownTable>,
    alloc: Global,
    name: &str,
) -> Result<u64, StoreError>
    requires sound { IsSound (state S.Store conn.old) }
    requires knows { Knows (state S.Store conn.old) known.old }
    ensures counted { HasCleanDisk (state S.Store conn.new)
        → IfOk result (λ n. n ≡ length (map.values (rows_at (tables_in (state S.Store conn.old).now) name.now))) }
    ensures tells { HasCleanDisk (state S.Store conn.new) → OnOk result (option_map (λ t. t.1) known.new
        ≡ schema_at (tables_in (state S.Store conn.old).now) name.now) }
    ensures same { HasCleanDisk (state S.Store conn.new) → OnOk result ((state S.Store conn.new).now
        ≡ (state S.Store conn.old).now) }
    ensures refused { HasCleanDisk (state S.Store conn.new) → IfErr result IsResource }
    ensures shut { HasCleanDisk (state S.Store conn.new) → RefusesShut (state S.Store conn.old) IsResource result }
    ensures caused { HasCleanDisk (state S.Store conn.new)
        → IfErr result (IsCaused (ReadFails (state S.Store conn.old) (state S.Store conn.new))) }
    ensures named { IfErr result IsReadRefusal }
    ensures knows { Knows (state S.Store conn.new) known.new }
    ensures leads { HasCleanDisk (state S.Store conn.new)
        → OnOk result (LeadsOn (λ _ _. ⊥) (state S.Store conn.old) (state S.Store conn.new)) }
    ensures reads { HasCleanDisk (state S.Store conn.new)
        → OnOk result (IsUnchanged (state S.Store conn.old) (state S.Store conn.new)) }
    ensures rests { HasCleanDisk (state S.Store conn.new) → Rests (state S.Store conn.old) (state S.Store conn.new) }
    ensures kept { KeepsStore (state S.Store conn.old) (state S.Store conn.new) }
{
    look_up(conn, known, alloc, name)?;
    match known {
        Some(_) => match tables::count_rows(conn, name) {
            Ok(number) => Ok(number),
            Err(error) => {
                *known = None;
                Err(error)
            }
        },
        None => Ok(0),
    }
}

/// Adds a row under its key to a table that it fits, and returns whether it does: nothing changes where a row has the
/// key. It is refused outside a transaction.
pub fn add_row<S: Alter>(
    conn: &mut Connection<S>,
    known: &mut Option<KnownTable>,
    alloc: Global,
    name: &str,
    key: &Key,
    row: &Row,
) -> Result<bool, StoreError>
    requires sound { IsSound (state S.Store conn.old) }
    requires knows { Knows (state S.Store conn.old) known.old }
    requires fits { HasCleanDisk (state S.Store conn.old)
        → Fits (tables_in (state S.Store conn.old).now) name.now key.now row.now }
    ensures added { HasCleanDisk (state S.Store conn.new) → IfOk result (λ added. Adds
        (tables_in (state S.Store conn.old).now) name.now key.now row.now added
        (tables_in (state S.Store conn.new).now)) }
    ensures refused { IfErr result IsResource }
    ensures caused { HasCleanDisk (state S.Store conn.new) → IfErr result (IsCaused (BatchFails (Writes (λ held write.
        (held ≡ tables_in (state S.Store conn.old).now) × (write ≡ puts_row name.now key.now row.now)))
        (state S.Store conn.old) (state S.Store conn.new))) }
    ensures knows { Knows (state S.Store conn.new) known.new }
    ensures leads { HasCleanDisk (state S.Store conn.new)
        → OnOk result (LeadsOn (Writes (λ held write. (held ≡ tables_in (state S.Store conn.old).now)
        × (write ≡ puts_row name.now key.now row.now))) (state S.Store conn.old) (state S.Store conn.new)) }
    ensures kept { KeepsStore (state S.Store conn.old) (state S.Store conn.new) }
{
    if conn.is_autocommit() {
        return Err(StoreError::StoreFault(Cause::Other));
    }
    match tables::add_row(conn, alloc, name, key, row) {
        Ok(added) => {
            forget_key(known);
            Ok(added)
        }
        Err(error) => {
            *known = None;
            Err(error)
        }
    }
}

/// Puts a row under its key in a table that it fits. It is refused outside a transaction.
pub fn put_row<S: Alter>(
    conn: &mut Connection<S>,
    known: &mut Option<KnownTable>,
    alloc: Global,
    name: &str,
    key: &Key,
    row: &Row,
) -> Result<(), StoreError>
    requires sound { IsSound (state S.Store conn.old) }
    requires knows { Knows (state S.Store conn.old) known.old }
    requires fits { HasCleanDisk (state S.Store conn.old)
        → Fits (tables_in (state S.Store conn.old).now) name.now key.now row.now }
    ensures put { HasCleanDisk (state S.Store conn.new) → OnOk result (tables_in (state S.Store conn.new).now
        ≡ with_row (tables_in (state S.Store conn.old).now) name.now key.now row.now) }
    ensures refused { IfErr result IsResource }
    ensures caused { HasCleanDisk (state S.Store conn.new) → IfErr result
        (IsCaused (PutFails (state S.Store conn.old) (state S.Store conn.new) name.now key.now row.now)) }
    ensures knows { Knows (state S.Store conn.new) known.new }
    ensures leads { HasCleanDisk (state S.Store conn.new)
        → OnOk result (LeadsOn (Writes (λ held write. (held ≡ tables_in (state S.Store conn.old).now)
        × (write ≡ puts_row name.now key.now row.now))) (state S.Store conn.old) (state S.Store conn.new)) }
    ensures kept { KeepsStore (state S.Store conn.old) (state S.Store conn.new) }
{
    if conn.is_autocommit() {
        return Err(StoreError::StoreFault(Cause::Other));
    }
    let place = place_in(known, name, key);
    match tables::put_row(conn, alloc, name, key, row, place) {
        Ok(()) => {
            forget_key(known);
            Ok(())
        }
        Err(error) => {
            *known = None;
            Err(error)
        }
    }
}

/// Removes the row under a key of a declared table, if there is one. It is refused outside a transaction.
pub fn remove_row<S: Alter>(
    conn: &mut Connection<S>,
    known: &mut Option<KnownTable>,
    name: &str,
    key: &Key,
) -> Result<(), StoreError>
    requires sound { IsSound (state S.Store conn.old) }
    requires knows { Knows (state S.Store conn.old) known.old }
    requires declared { HasCleanDisk (state S.Store conn.old)
        → IsDeclared (tables_in (state S.Store conn.old).now) name.now }
    ensures removed { HasCleanDisk (state S.Store conn.new) → OnOk result (tables_in (state S.Store conn.new).now
        ≡ without_row (tables_in (state S.Store conn.old).now) name.now key.now) }
    ensures refused { IfErr result IsResource }
    ensures caused { HasCleanDisk (state S.Store conn.new) → IfErr result
        (IsCaused (RemoveFails (state S.Store conn.old) (state S.Store conn.new) name.now key.now)) }
    ensures knows { Knows (state S.Store conn.new) known.new }
    ensures leads { HasCleanDisk (state S.Store conn.new)
        → OnOk result (LeadsOn (Writes (λ held write. (held ≡ tables_in (state S.Store conn.old).now)
        × (write ≡ removes_row name.now key.now))) (state S.Store conn.old) (state S.Store conn.new)) }
    ensures kept { KeepsStore (state S.Store conn.old) (state S.Store conn.new) }
{
    if conn.is_autocommit() {
        return Err(StoreError::StoreFault(Cause::Other));
    }
    let place = place_in(known, name, key);
    match tables::remove_row(conn, name, key, place) {
        Ok(()) => {
            forget_key(known);
            Ok(())
        }
        Err(error) => {
            *known = None;
            Err(error)
        }
    }
}

/// Adds a table without rows, where none has the name. It is refused outside a transaction.
pub fn add_table<S: Alter>(
    conn: &mut Connection<S>,
    known: &mut Option<KnownTable>,
    alloc: Global,
    name: &str,
    schema: &Schema,
) -> Result<(), StoreError>
    requires sound { IsSound (state S.Store conn.old) }
    requires knows { Knows (state S.Store conn.old) known.old }
    requires named { IsName name.now }
    ensures declared { HasCleanDisk (state S.Store conn.new)
        → OnOk result (AddsTable (tables_in (state S.Store conn.old).now) name.now schema.now
        (tables_in (state S.Store conn.new).now)) }
    ensures refused { HasCleanDisk (state S.Store conn.new) → IfErr result (λ e. ((e ≡ TakenName)
        × IsDeclared (tables_in (state S.Store conn.old).now) name.now) ⊎ IsResource e) }
    ensures caused { HasCleanDisk (state S.Store conn.new) → IfErr result (IsCaused
        (BatchFails (IsDeclarationOf (tables_in (state S.Store conn.old).now) name.now schema.now)
        (state S.Store conn.old) (state S.Store conn.new))) }
    ensures named { IfErr result (λ e. (e ≡ TakenName) ⊎ IsReadRefusal e) }
    ensures knows { Knows (state S.Store conn.new) known.new }
    ensures leads { HasCleanDisk (state S.Store conn.new) → is_answered result ≡ true
        → LeadsOn (IsDeclarationOf (tables_in (state S.Store conn.old).now) name.now schema.now)
        (state S.Store conn.old) (state S.Store conn.new) }
    ensures kept { KeepsStore (state S.Store conn.old) (state S.Store conn.new) }
{
    match find_schema(conn, known, alloc, name) {
        Ok(Some(_)) => Err(StoreError::TableExists),
        Ok(None) => put_table(conn, known, alloc, name, schema),
        Err(error) => Err(error),
    }
}

/// Puts a table without rows under a name that no table has. It is refused outside a transaction.
fn put_table<S: Alter>(
    conn: &mut Connection<S>,
    known: &mut Option<KnownTable>,
    alloc: Global,
    name: &str,
    schema: &Schema,
) -> Result<(), StoreError>
    requires sound { IsSound (state S.Store conn.old) }
    requires named { IsName name.now }
    requires free { HasCleanDisk (state S.Store conn.old)
        → schema_at (tables_in (state S.Store conn.old).now) name.now ≡ None }
    ensures declared { HasCleanDisk (state S.Store conn.new)
        → OnOk result (AddsTable (tables_in (state S.Store conn.old).now) name.now schema.now
        (tables_in (state S.Store conn.new).now)) }
    ensures refused { IfErr result IsResource }
    ensures caused { HasCleanDisk (state S.Store conn.new) → IfErr result (IsCaused
        (BatchFails (IsDeclarationOf (tables_in (state S.Store conn.old).now) name.now schema.now)
        (state S.Store conn.old) (state S.Store conn.new))) }
    ensures knows { Knows (state S.Store conn.new) known.new }
    ensures leads { HasCleanDisk (state S.Store conn.new)
        → OnOk result (LeadsOn (IsDeclarationOf (tables_in (state S.Store conn.old).now) name.now schema.now) (state S.Store conn.old) (state S.Store conn.new)) }
    ensures kept { KeepsStore (state S.Store conn.old) (state S.Store conn.new) }
{
    *known = None;
    if conn.is_autocommit() {
        return Err(StoreError::StoreFault(Cause::Other));
    }
    tables::put_table(conn, alloc, name, schema)
}

/// Begins a transaction of a store. The known table stays known. It is refused if a transaction is open.
pub fn begin_with<S: Alter>(
    conn: &mut Connection<S>,
    known: &mut Option<KnownTable>,
) -> Result<(), StoreError>
    requires sound { IsSound (state S.Store conn.old) }
    requires knows { Knows (state S.Store conn.old) known.old }
    ensures begun { HasCleanDisk (state S.Store conn.new)
        → OnOk result (Begins (state S.Store conn.old) (state S.Store conn.new)) }
    ensures refused { IfErr result IsResource }
    ensures caused { HasCleanDisk (state S.Store conn.new)
        → IfErr result (IsCaused (BeginFails (state S.Store conn.old) (state S.Store conn.new))) }
    ensures kept { HasCleanDisk (state S.Store conn.new)
        → OnErr result (KeepsContent (state S.Store conn.old) (state S.Store conn.new)) }
    ensures sound { IsSound (state S.Store conn.new) }
    ensures knows { Knows (state S.Store conn.new) known.new }
    ensures survives { KeepsCrash (state S.Store conn.old) (state S.Store conn.new) }
{
    match transactions::begin(conn) {
        Ok(()) => {
            forget_key(known);
            Ok(())
        }
        Err(error) => {
            *known = None;
            Err(refused(error))
        }
    }
}

/// Commits the transaction of a store, as [`commit`] does. The known table stays known.
pub fn commit_with<S: Alter>(
    conn: &mut Connection<S>,
    known: &mut Option<KnownTable>,
) -> Result<(), StoreError>
    requires sound { IsSound (state S.Store conn.old) }
    requires knows { Knows (state S.Store conn.old) known.old }
    ensures committed { HasCleanDisk (state S.Store conn.new)
        → OnOk result (IsTrue (state S.Store conn.old).in_transaction
        × Shows (state S.Store conn.old) (state S.Store conn.new)
        (state S.Store conn.old).now (state S.Store conn.old).now false) }
    ensures refused { IfErr result IsResource }
    ensures caused { HasCleanDisk (state S.Store conn.new)
        → IfErr result (IsCaused (CommitFails (state S.Store conn.old) (state S.Store conn.new))) }
    ensures undone { HasCleanDisk (state S.Store conn.new)
        → OnErr result (IsUndone (state S.Store conn.old) (state S.Store conn.new)) }
    ensures sound { IsSound (state S.Store conn.new) }
    ensures knows { Knows (state S.Store conn.new) known.new }
    ensures survives { Survives (state S.Store conn.old) (state S.Store conn.new)
        (λ db. (db ≡ (state S.Store conn.old).now.trees) × IsTrue (state S.Store conn.old).in_transaction) }
{
    match commit(conn) {
        Ok(()) => {
            forget_key(known);
            Ok(())
        }
        Err(error) => {
            *known = None;
            Err(error)
        }
    }
}

/// Makes the table of this name the known one, and none where no table has the name.
fn look_up<S: Alter>(
    conn: &mut Connection<S>,
    known: &mut Option<KnownTable>,
    alloc: Global,
    name: &str,
) -> Result<(), StoreError>
    requires sound { IsSound (state S.Store conn.old) }
    requires knows { Knows (state S.Store conn.old) known.old }
    ensures found { HasCleanDisk (state S.Store conn.new)
        → OnOk result (option_map (λ t. t.1) known.new
        ≡ schema_at (tables_in (state S.Store conn.old).now) name.now) }
    ensures is_it { OnOk result (IfSome known.new (λ t. t.0 ≡ name.now)) }
    ensures same { HasCleanDisk (state S.Store conn.new) → OnOk result ((state S.Store conn.new).now
        ≡ (state S.Store conn.old).now) }
    ensures refused { HasCleanDisk (state S.Store conn.new)
        → IfErr result IsResource }
    ensures shut { HasCleanDisk (state S.Store conn.new) → RefusesShut (state S.Store conn.old) IsResource result }
    ensures caused { HasCleanDisk (state S.Store conn.new)
        → IfErr result (IsCaused (ReadFails (state S.Store conn.old) (state S.Store conn.new))) }
    ensures named { IfErr result IsReadRefusal }
    ensures knows { Knows (state S.Store conn.new) known.new }
    ensures leads { HasCleanDisk (state S.Store conn.new)
        → OnOk result (LeadsOn (λ _ _. ⊥) (state S.Store conn.old) (state S.Store conn.new)) }
    ensures reads { HasCleanDisk (state S.Store conn.new)
        → OnOk result (IsUnchanged (state S.Store conn.old) (state S.Store conn.new)) }
    ensures rests { HasCleanDisk (state S.Store conn.new) → Rests (state S.Store conn.old) (state S.Store conn.new) }
    ensures kept { KeepsStore (state S.Store conn.old) (state S.Store conn.new) }
{
    if !conn.is_autocommit() && has_name(known, name) {
        return Ok(());
    }
    *known = None;
    if let Some(schema) = tables::find_schema(conn, alloc, name)? {
        let name = String::from_str(alloc, name)?;
        *known = Some(KnownTable {
            name,
            schema,
            sought: None,
        });
    }
    Ok(())
}

/// Whether a table is known, and has this name.
fn has_name(known: &Option<KnownTable>, name: &str) -> bool
    ensures { IsTrue result → option_map (λ t. t.0) known.now ≡ Some name.now }
{
    match known {
        Some(table) => table.name.as_str() == name,
        None => false,
    }
}

/// Where the row is that has this key in the table of this name, as far as is known.
fn place_in(known: &Option<KnownTable>, name: &str, key: &Key) -> Place
    ensures { (db : Database) → IfSome known.now (IsKnown db) → IsPlaced db name.now key.now result }
{
    match known {
        Some(table) if has_name(known, name) => place_of(table, key),
        _ => Place::Unknown,
    }
}

/// Where the row is that has this key in a table, as far as is known.
fn place_of(table: &KnownTable, key: &Key) -> Place
    ensures { (db : Database) → IsKnown db table.now → IsPlaced db table.now.0 key.now result }
{
    match &table.sought {
        Some(sought) if sought.key.bytes() == key.bytes() => sought.place,
        _ => Place::Unknown,
    }
}

/// Forgets the key that was looked up last.
fn forget_key(known: &mut Option<KnownTable>)
    ensures { known.new ≡ without_key known.old }
{
    if let Some(table) = known {
        table.sought = None;
    }
}
