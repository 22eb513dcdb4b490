//! Stores: tables of rows in a database.
ghost use Rattle.std.specs.Prelude.{◌≡◌, ◌⊎◌, IsTrue, IfOk, IfErr, OnOk, OnErr, IfSome, None, Ok, Err, MatchResult};
ghost use Rattle.std.specs.Prelude.{◌<◌, ◌^◌, map as map_list, option_map, string_bytes, true};
ghost use Rattle.std.specs.FinMap as map;
ghost use Rattle.cs_value.specs.State as tables;
ghost use Rattle.cs_value.specs.State.{schema_at, row_at, rows_at};
ghost use Rattle.cs_rows.specs.declared.fault.StoreError.TheVariants.{DamagedStore as Damaged, NoTable as NoSuchTable};
ghost use Rattle.cs_rows.specs.declared.fault.StoreError.TheVariants.{BadSchema as NoSchema, TableExists as TakenName};
ghost use Rattle.cs_rows.specs.Faults.{IsCaused, IsResource, IsReadRefusal, IsEditRefusal, is_answered};
ghost use Rattle.cs_store_tables.specs.Failing.{AdoptFails, BeginFails, IsDeclarationOf, ReadFails};
ghost use Rattle.cs_store_tables.specs.Failing.{StoreFails, Writes};
ghost use Rattle.cs_rows.specs.Editing.{Declares, EditsInto, IsWriteOf, schema_of, edited, written_of};
ghost use Rattle.cs_store_tables.specs.Crash.{CanBegin, IsAtomic, IsLeftOf, LeavesOnly, LeavesTakenOver, MayLeave};
ghost use Rattle.cs_store_sql.specs.Records.{KeepsContent, KeepsCrash, KeepsOthers, Rests};
ghost use Rattle.cs_rows.specs.Rows.{IsDeclared, Fits};
ghost use Rattle.sqlite.specs.Effect.{IsDatabase};
ghost use Rattle.sqlite.specs.State.{HasCleanDisk, IsUnchanged, Survives};
ghost use Rattle.sqlite.specs.Held.{state};
ghost use Rattle.sqlite_trees.specs.Tree.{Trees};
ghost use Rattle.sqlite.specs.Steps.{over_memory};
ghost use Rattle.cs_store_tables.specs.Store.{Adopts, Begins, HoldsTables, IsAtRest, IsDamaged, KeepsStore};
ghost use Rattle.cs_store_tables.specs.Pages.{page_in};
ghost use Rattle.cs_store_tables.specs.Store.{RefusesShut, tables_in};
ghost use Rattle.cs_store.specs.Transacts.{Transacts};

use crate::batch::SqlBatch;
use cs_rows::{Edit, Schema, StoreError, Written, edit_in};
use cs_store_adoption::adopt;
use cs_store_sql::RecordsError;
use cs_store_tables::{KnownTable, begin_with, list_page, refused};
use cs_value::{Key, Row, is_table_name};
use sqlite::{Alter, Connection, MemStore};
use std::alloc::Global;
use std::marker::Model;

/// Tables of rows in a database, in memory or in a file.
///
/// Once a failure of the disk has shut the connection, each call that asks the database for anything is refused with
/// [`StoreFault`](StoreError::StoreFault) or [`NoMemory`](StoreError::NoMemory).
#[derive(Drop)]
pub struct Store<S: Alter> {
    pub(crate) conn: Connection<S>,
    pub(crate) known: Option<KnownTable>,
}

impl<S: Alter> Model for Store<S> {
    ghost use Rattle.sqlite.specs.Held.{Held, held_code, state};
    ghost use Rattle.cs_store_tables.specs.Store.{IsSound, Knows};

    ghost Value = { Held S };

    ghost coded = { held_code S.code };

    ghost view = { λ s. s.conn };

    ghost invariant = { λ s. IsSound (state S.Store s.conn) × Knows (state S.Store s.conn) s.known };
}

impl Store<MemStore> {
    /// Returns a new store in memory, without tables.
    ///
    /// # Errors
    ///
    /// `StoreFault` if the database refuses, and `NoMemory` if out of memory.
    pub fn new_memory(alloc: Global) -> Result<Store<MemStore>, StoreError>
        ensures empty { IfOk result (λ s. tables_in (state over_memory s).now ≡ map.empty) }
        ensures at_rest { IfOk result (λ s. IsAtRest (state over_memory s)) }
        ensures named { IfErr result IsResource }
    {
        match Connection::open_in_memory(alloc) {
            Ok(conn) => match Store::adopt(alloc, conn) {
                Ok(store) => Ok(store),
                Err((error, _conn)) => Err(error),
            },
            Err(error) => Err(refused(RecordsError::from(error))),
        }
    }
}

impl<S: Alter> Store<S> {
    /// Adopts a database as a store, in one transaction.
    ///
    /// The database may have other tables, indexes, views and triggers, which stay as they are. If it has no table of
    /// records, or an empty one, a new store is made there. Else each record is checked, and records of the former
    /// version get the current one, which keeps their tables. A crash leaves the last commit, or the store with the
    /// tables that the database held. What a crash left of a store is adopted with its tables, or refused because
    /// memory is out or by the database.
    ///
    /// # Errors
    ///
    /// They come with the connection as it was. `DamagedStore` if the records are not those of tables, or a table of
    /// the name `rec` is declared otherwise. `StoreFault` if a transaction is open, the database refuses, or the
    /// table `rec` cannot be read or written: it has a trigger, for example, or another table refers to it. `NoMemory`
    /// if out of memory.
    pub fn adopt(
        alloc: Global,
        mut conn: Connection<S>,
    ) -> Result<Store<S>, (StoreError, Connection<S>)>
        ensures adopted { IfOk result (λ s. HasCleanDisk (state S.Store s)
            → Adopts (state S.Store conn) (state S.Store s)) }
        ensures refused { IfErr result (λ e. HasCleanDisk (state S.Store e.1) → ((e.0 ≡ Damaged)
            × IsDamaged (state S.Store conn).now) ⊎ IsResource e.0) }
        ensures damaged { IfErr result (λ e. HasCleanDisk (state S.Store e.1) → e.0 ≡ Damaged
            → CanBegin (state S.Store conn)) }
        ensures caused { IfErr result (λ e. HasCleanDisk (state S.Store e.1)
            → IsCaused (AdoptFails S.Store conn e.1) e.0) }
        ensures found { (held : tables.State) → HoldsTables (state S.Store conn).now held → MatchResult result
            (λ s. HasCleanDisk (state S.Store s) → tables_in (state S.Store s).now ≡ held)
            (λ e. HasCleanDisk (state S.Store e.1) → IsResource e.0) }
        ensures recovers { (held : tables.State) → IsLeftOf held (state S.Store conn).now → MatchResult result
            (λ s. HasCleanDisk (state S.Store s) → tables_in (state S.Store s).now ≡ held)
            (λ e. HasCleanDisk (state S.Store e.1) → IsResource e.0) }
        ensures named { IfErr result (λ e. IsReadRefusal e.0) }
        ensures kept { IfErr result (λ e. HasCleanDisk (state S.Store e.1)
            → KeepsContent (state S.Store conn) (state S.Store e.1)) }
        ensures survives { MatchResult result
            (λ s. Survives (state S.Store conn) (state S.Store s) (MayLeave (HoldsTables (state S.Store conn).now)))
            (λ e. Survives (state S.Store conn) (state S.Store e.1) (MayLeave (HoldsTables (state S.Store conn).now))) }
        ensures leaves { MatchResult result (λ s. LeavesTakenOver (state S.Store conn) (state S.Store s))
            (λ e. LeavesTakenOver (state S.Store conn) (state S.Store e.1)) }
    {
        match adopt(&mut conn, alloc) {
            Ok(()) => Ok(Store { conn, known: None }),
            Err(error) => Err((error, conn)),
        }
    }

    /// Has no effect. Its contract says that an open store has the tables of a state: names, schemas and rows are well
    /// formed.
    pub fn tables_law(&self)
        ensures { HasCleanDisk (state S.Store self.now) → IsTrue (state S.Store self.now).is_open
            → tables.IsState (tables_in (state S.Store self.now).now) }
    {
        let _ = &self.conn;
    }

    /// Has no effect. Its contract says that an open store shows a database: its trees list its schema, and obey it.
    pub fn database_law(&self)
        ensures { HasCleanDisk (state S.Store self.now) → IsTrue (state S.Store self.now).is_open
            → IsDatabase (state S.Store self.now).now }
    {
        let _ = &self.conn;
    }

    /// Has no effect. Its contract says that a crash of an open store leaves its last commit, and nothing else.
    pub fn crash_law(&self)
        ensures { IsTrue (state S.Store self.now).is_open → LeavesOnly
            (λ left. left ≡ tables_in (state S.Store self.now).committed) (state S.Store self.now) }
    {
        let _ = &self.conn;
    }

    /// Has no effect. Its contract says that a crash of an open store leaves all of its database as the last commit: so
    /// also the other tables.
    pub fn others_law(&self)
        ensures { IsTrue (state S.Store self.now).is_open → (trees : Trees)
            → (state S.Store self.now).may_leave trees → trees ≡ (state S.Store self.now).committed.trees }
    {
        let _ = &self.conn;
    }

    /// Has no effect. Its contract speaks of a database with trees that a crash may leave of this store, if a crash
    /// leaves only those of some tables: [`adopt`](Store::adopt) adopts it with these tables.
    pub fn left_law<T: Alter>(&self, found: &Connection<T>)
        ensures { (held : tables.State) → HasCleanDisk (state S.Store self.now)
            → LeavesOnly (λ left. left ≡ held) (state S.Store self.now)
            → (state S.Store self.now).may_leave (state T.Store found.now).now.trees
            → IsDatabase (state T.Store found.now).now → IsLeftOf held (state T.Store found.now).now }
    {
        let _ = &self.conn;
        let _ = found;
    }

    /// Returns the connection to the database of the store.
    pub fn into_connection(self) -> Connection<S>
        ensures { result ≡ self }
    {
        let Store { conn, .. } = self;
        conn
    }
}

impl<S: Alter> Store<S> {
    ghost use Rattle.std.specs.Borrow.{sem, RestsIfErr};
    ghost use Rattle.cs_store.specs.contracts.store.Store.{the_row};

    /// Begins a batch of writes. They last once it is committed, and dropping it undoes them.
    ///
    /// A crash leaves no more than it could before, and once the batch has begun, the tables that the store shows and
    /// nothing else.
    ///
    /// # Errors
    ///
    /// `StoreFault` if the database refuses or a transaction is open, and `NoMemory` if out of memory. What the store
    /// shows and what was committed stay.
    pub fn begin(&mut self) -> Result<SqlBatch<'_, S>, StoreError>
        ensures* refused { sem 𝓛 (RestsIfErr (the_row S.row S.Store) self.entry
            (λ b. b.store.ghost_name) result
            (λ last. KeepsCrash (state S.Store self.old) (state S.Store last)
            × (HasCleanDisk (state S.Store last)
            → KeepsContent (state S.Store self.old) (state S.Store last))
            × (HasCleanDisk (state S.Store last)
            → IfErr result (IsCaused (BeginFails (state S.Store self.old) (state S.Store last)))))) }
        ensures named { IfErr result IsResource }
        ensures same_reference { IfOk result (λ b. b.store.ghost_name ≡ self.entry.ghost_name) }
        ensures begun { IfOk result (λ b. HasCleanDisk (state S.Store b.store.now)
            → Begins (state S.Store self.old) (state S.Store b.store.now)) }
        ensures survives { IfOk result (λ b. KeepsCrash (state S.Store self.old)
            (state S.Store b.store.now)) }
        ensures leaves { IfOk result (λ b. LeavesOnly
            (λ left. left ≡ tables_in (state S.Store self.old).now) (state S.Store b.store.now)) }
    {
        match begin_with(&mut self.conn, &mut self.known) {
            Ok(()) => Ok(SqlBatch { store: self }),
            Err(error) => Err(error),
        }
    }

    /// Declares a table without rows.
    ///
    /// `columns` has the names of its columns. Those marked in `keys` are the key. Those of the key and those marked in
    /// `refuses` refuse NULL. A crash leaves the tables as before or with this one; only these once the call is done,
    /// and only those once it is refused and the store is still open.
    ///
    /// # Errors
    ///
    /// A refusal changes nothing. `BadSchema` if the name or the columns make no table, and then `TableExists`.
    /// `DamagedStore` and `NoMemory` as of [`tables`](Store::tables). `StoreFault` if a transaction is open or the
    /// database refuses.
    pub fn declare(
        &mut self,
        alloc: Global,
        name: &str,
        columns: &[String],
        keys: &[bool],
        refuses: &[bool],
    ) -> Result<(), StoreError>
        ensures declared { HasCleanDisk (state S.Store self.new)
            → OnOk result (Declares (tables_in (state S.Store self.old).now) name.now
            (schema_of columns.now keys.now refuses.now) (Ok (tables_in (state S.Store self.new).now))) }
        ensures refused { HasCleanDisk (state S.Store self.new)
            → IfErr result (λ e. (Declares (tables_in (state S.Store self.old).now) name.now
            (schema_of columns.now keys.now refuses.now) (Err e)) ⊎ IsResource e) }
        ensures shut { HasCleanDisk (state S.Store self.new) → RefusesShut (state S.Store self.old)
            (λ e. (held : tables.State) → Declares held name.now (schema_of columns.now keys.now refuses.now) (Err e)
            ⊎ IsResource e) result }
        ensures caused { HasCleanDisk (state S.Store self.new) → IfErr result (IsCaused (StoreFails
            (IsDeclarationOf (tables_in (state S.Store self.old).now) name.now
            (schema_of columns.now keys.now refuses.now)) (state S.Store self.old) (state S.Store self.new))) }
        ensures named { IfErr result (λ e. (e ≡ NoSchema) ⊎ (e ≡ TakenName) ⊎ IsReadRefusal e) }
        ensures transacts { Transacts (λ left. Declares (tables_in (state S.Store self.old).now) name.now
            (schema_of columns.now keys.now refuses.now) (Ok left))
            (state S.Store self.old) (state S.Store self.new) result }
    {
        self.crash_law();
        if !is_table_name(name) {
            return Err(StoreError::BadSchema);
        }
        let schema = Schema::new(alloc, columns, keys, refuses)?;
        let mut batch = self.begin()?;
        batch.declare(alloc, name, &schema)?;
        batch.commit()?;
        Ok(())
    }

    /// Returns the names of the tables, in the order of their bytes.
    ///
    /// # Errors
    ///
    /// `StoreFault` if the database refuses, and `NoMemory` if out of memory. `DamagedStore` if the disk does not
    /// return what was written.
    pub fn tables(&mut self, alloc: Global) -> Result<Vec<String>, StoreError>
        ensures listed { HasCleanDisk (state S.Store self.new) → IfOk result (λ names. map_list string_bytes names.items
            ≡ map.keys (tables_in (state S.Store self.old).now)) }
        ensures same { HasCleanDisk (state S.Store self.new) → OnOk result ((state S.Store self.new).now
            ≡ (state S.Store self.old).now) }
        ensures refused { HasCleanDisk (state S.Store self.new) → IfErr result IsResource }
        ensures shut { HasCleanDisk (state S.Store self.new)
            → RefusesShut (state S.Store self.old) IsResource result }
        ensures caused { HasCleanDisk (state S.Store self.new)
            → IfErr result (IsCaused (ReadFails (state S.Store self.old) (state S.Store self.new))) }
        ensures named { IfErr result IsReadRefusal }
        ensures reads { HasCleanDisk (state S.Store self.new) → is_answered result ≡ true
            → IsUnchanged (state S.Store self.old) (state S.Store self.new) }
        ensures rests { HasCleanDisk (state S.Store self.new)
            → Rests (state S.Store self.old) (state S.Store self.new) }
        ensures kept { KeepsStore (state S.Store self.old) (state S.Store self.new) }
    {
        self.known = None;
        cs_store_tables::list_tables(&mut self.conn, alloc)
    }

    /// Returns the schema of a table, or None if no table has the name.
    ///
    /// # Errors
    ///
    /// Those of [`tables`](Store::tables).
    pub fn schema(&mut self, alloc: Global, name: &str) -> Result<Option<Schema>, StoreError>
        ensures found { HasCleanDisk (state S.Store self.new)
            → IfOk result (λ o. o ≡ schema_at (tables_in (state S.Store self.old).now) name.now) }
        ensures same { HasCleanDisk (state S.Store self.new) → OnOk result ((state S.Store self.new).now
            ≡ (state S.Store self.old).now) }
        ensures refused { HasCleanDisk (state S.Store self.new) → IfErr result IsResource }
        ensures shut { HasCleanDisk (state S.Store self.new)
            → RefusesShut (state S.Store self.old) IsResource result }
        ensures caused { HasCleanDisk (state S.Store self.new)
            → IfErr result (IsCaused (ReadFails (state S.Store self.old) (state S.Store self.new))) }
        ensures named { IfErr result IsReadRefusal }
        ensures reads { HasCleanDisk (state S.Store self.new) → is_answered result ≡ true
            → IsUnchanged (state S.Store self.old) (state S.Store self.new) }
        ensures rests { HasCleanDisk (state S.Store self.new)
            → Rests (state S.Store self.old) (state S.Store self.new) }
        ensures kept { KeepsStore (state S.Store self.old) (state S.Store self.new) }
    {
        cs_store_tables::find_schema(&mut self.conn, &mut self.known, alloc, name)
    }

    /// Returns the rows of a table, in the order of the bytes of their keys.
    ///
    /// # Errors
    ///
    /// `NoTable` if no table has the name, and those of [`tables`](Store::tables).
    pub fn rows(&mut self, alloc: Global, name: &str) -> Result<Vec<Row>, StoreError>
        ensures listed { HasCleanDisk (state S.Store self.new)
            → IfOk result (λ rows. rows.items
            ≡ map.values (rows_at (tables_in (state S.Store self.old).now) name.now)) }
        ensures declared { HasCleanDisk (state S.Store self.new)
            → OnOk result (IsDeclared (tables_in (state S.Store self.old).now) name.now) }
        ensures same { HasCleanDisk (state S.Store self.new) → OnOk result ((state S.Store self.new).now
            ≡ (state S.Store self.old).now) }
        ensures refused { HasCleanDisk (state S.Store self.new) → IfErr result (λ e. ((e ≡ NoSuchTable)
            × (schema_at (tables_in (state S.Store self.old).now) name.now ≡ None)) ⊎ IsResource e) }
        ensures shut { HasCleanDisk (state S.Store self.new)
            → RefusesShut (state S.Store self.old) IsResource result }
        ensures caused { HasCleanDisk (state S.Store self.new)
            → IfErr result (IsCaused (ReadFails (state S.Store self.old) (state S.Store self.new))) }
        ensures named { IfErr result (λ e. (e ≡ NoSuchTable) ⊎ IsReadRefusal e) }
        ensures reads { HasCleanDisk (state S.Store self.new) → is_answered result ≡ true
            → IsUnchanged (state S.Store self.old) (state S.Store self.new) }
        ensures rests { HasCleanDisk (state S.Store self.new)
            → Rests (state S.Store self.old) (state S.Store self.new) }
        ensures kept { KeepsStore (state S.Store self.old) (state S.Store self.new) }
    {
        let listed = cs_store_tables::list_rows(&mut self.conn, &mut self.known, alloc, name)?;
        match &self.known {
            Some(_) => Ok(listed),
            None => Err(StoreError::NoTable),
        }
    }

    /// Returns a page of the rows of a table, as [`page`](crate::Transaction::page) of a transaction does.
    pub(crate) fn page(
        &mut self,
        alloc: Global,
        name: &str,
        after: Option<&Key>,
        limit: u64,
    ) -> Result<Vec<Row>, StoreError>
        requires { limit < 2 ^ 63 }
        ensures listed { HasCleanDisk (state S.Store self.new)
            → IfOk result (λ rows. rows.items
            ≡ page_in (rows_at (tables_in (state S.Store self.old).now) name.now)
            (option_map (λ k. k.now) after.entry) limit) }
        ensures declared { HasCleanDisk (state S.Store self.new)
            → OnOk result (IsDeclared (tables_in (state S.Store self.old).now) name.now) }
        ensures same { HasCleanDisk (state S.Store self.new) → OnOk result ((state S.Store self.new).now
            ≡ (state S.Store self.old).now) }
        ensures refused { HasCleanDisk (state S.Store self.new) → IfErr result (λ e. ((e ≡ NoSuchTable)
            × (schema_at (tables_in (state S.Store self.old).now) name.now ≡ None)) ⊎ IsResource e) }
        ensures shut { HasCleanDisk (state S.Store self.new)
            → RefusesShut (state S.Store self.old) IsResource result }
        ensures caused { HasCleanDisk (state S.Store self.new)
            → IfErr result (IsCaused (ReadFails (state S.Store self.old) (state S.Store self.new))) }
        ensures named { IfErr result (λ e. (e ≡ NoSuchTable) ⊎ IsReadRefusal e) }
        ensures reads { HasCleanDisk (state S.Store self.new) → is_answered result ≡ true
            → IsUnchanged (state S.Store self.old) (state S.Store self.new) }
        ensures rests { HasCleanDisk (state S.Store self.new)
            → Rests (state S.Store self.old) (state S.Store self.new) }
        ensures kept { KeepsStore (state S.Store self.old) (state S.Store self.new) }
    {
        let listed = list_page(&mut self.conn, &mut self.known, alloc, name, after, limit)?;
        match &self.known {
            Some(_) => Ok(listed),
            None => Err(StoreError::NoTable),
        }
    }

    /// Returns the row of a table under a key, or None if no row has the key.
    ///
    /// # Errors
    ///
    /// `NoTable` if no table has the name, and those of [`tables`](Store::tables).
    pub fn get(&mut self, alloc: Global, name: &str, key: &Key) -> Result<Option<Row>, StoreError>
        ensures found { HasCleanDisk (state S.Store self.new)
            → IfOk result (λ o. o ≡ row_at (tables_in (state S.Store self.old).now) name.now key.now) }
        ensures fits { HasCleanDisk (state S.Store self.new)
            → IfOk result (λ o. IfSome o (Fits (tables_in (state S.Store self.old).now) name.now key.now)) }
        ensures declared { HasCleanDisk (state S.Store self.new)
            → OnOk result (IsDeclared (tables_in (state S.Store self.old).now) name.now) }
        ensures same { HasCleanDisk (state S.Store self.new) → OnOk result ((state S.Store self.new).now
            ≡ (state S.Store self.old).now) }
        ensures refused { HasCleanDisk (state S.Store self.new) → IfErr result (λ e. ((e ≡ NoSuchTable)
            × (schema_at (tables_in (state S.Store self.old).now) name.now ≡ None)) ⊎ IsResource e) }
        ensures shut { HasCleanDisk (state S.Store self.new)
            → RefusesShut (state S.Store self.old) IsResource result }
        ensures caused { HasCleanDisk (state S.Store self.new)
            → IfErr result (IsCaused (ReadFails (state S.Store self.old) (state S.Store self.new))) }
        ensures named { IfErr result (λ e. (e ≡ NoSuchTable) ⊎ IsReadRefusal e) }
        ensures reads { HasCleanDisk (state S.Store self.new) → is_answered result ≡ true
            → IsUnchanged (state S.Store self.old) (state S.Store self.new) }
        ensures rests { HasCleanDisk (state S.Store self.new)
            → Rests (state S.Store self.old) (state S.Store self.new) }
        ensures kept { KeepsStore (state S.Store self.old) (state S.Store self.new) }
    {
        let found = cs_store_tables::find_row(&mut self.conn, &mut self.known, alloc, name, key)?;
        match &self.known {
            Some(_) => Ok(found),
            None => Err(StoreError::NoTable),
        }
    }

    /// Carries out an edit as [`edit_in`] does, and commits it.
    ///
    /// A crash leaves the tables as before or as edited; only these once the call is done, and only those once it is
    /// refused and the store is still open.
    ///
    /// # Errors
    ///
    /// Those of [`edit_in`], and `StoreFault` if a transaction is open. A refusal changes nothing.
    pub fn edit(&mut self, alloc: Global, edit: &Edit) -> Result<Vec<Written>, StoreError>
        ensures edited { HasCleanDisk (state S.Store self.new)
            → IfOk result (λ w. edited (tables_in (state S.Store self.old).now) edit.now
            ≡ Ok (record { state = tables_in (state S.Store self.new).now; written = map_list written_of w.items })) }
        ensures refused { HasCleanDisk (state S.Store self.new) → IfErr result (λ e.
            (edited (tables_in (state S.Store self.old).now) edit.now ≡ Err e) ⊎ IsResource e) }
        ensures shut { HasCleanDisk (state S.Store self.new)
            → RefusesShut (state S.Store self.old) IsResource result }
        ensures caused { HasCleanDisk (state S.Store self.new) → IfErr result (IsCaused (StoreFails
            (Writes (IsWriteOf (tables_in (state S.Store self.old).now) edit.now)) (state S.Store self.old)
            (state S.Store self.new))) }
        ensures named { IfErr result IsEditRefusal }
        ensures transacts { Transacts (EditsInto (tables_in (state S.Store self.old).now) edit.now)
            (state S.Store self.old) (state S.Store self.new) result }
    {
        self.crash_law();
        let mut batch = self.begin()?;
        let written = edit_in(alloc, &mut batch, edit)?;
        batch.commit()?;
        Ok(written)
    }
}
