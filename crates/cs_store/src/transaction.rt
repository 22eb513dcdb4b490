//! Transactions that own their store.
ghost use Rattle.std.specs.Prelude.{◌≡◌, ◌⊎◌, true, false, List, None, Ok, Err, IsTrue, OnOk, OnErr, IfOk, IfErr};
ghost use Rattle.std.specs.Prelude.{◌<◌, ◌^◌, length, option_map, IfSome, MatchResult, map as map_list, not, string_bytes};
ghost use Rattle.std.specs.FinMap as map;
ghost use Rattle.sqlite.specs.Effect.{Database};
ghost use Rattle.sqlite.specs.State.{HasCleanDisk, IsUnchanged, Savepoint, Shows, Survives};
ghost use Rattle.sqlite.specs.Held.{state};
ghost use Rattle.cs_value.specs.State.{schema_at, row_at, rows_at};
ghost use Rattle.cs_value.specs.Table.{IsName};
ghost use Rattle.cs_rows.specs.declared.fault.StoreError.TheVariants.{BadSchema as NoSchema, TableExists as TakenName};
ghost use Rattle.cs_rows.specs.declared.fault.StoreError.TheVariants.{NoTable as NoSuchTable};
ghost use Rattle.cs_rows.specs.Faults.{IsCaused, IsResource, IsReadRefusal, IsEditRefusal, is_answered};
ghost use Rattle.cs_rows.specs.Rows.{IsDeclared, Fits};
ghost use Rattle.cs_rows.specs.Editing.{Declares, EditsInto, schema_of, IsWriteOf, edited, written_of};
ghost use Rattle.cs_store_sql.specs.Marks.{HasMark, IsMarked};
ghost use Rattle.cs_store_sql.specs.Records.{IsUndone, KeepsContent, KeepsCrash, KeepsOthers, Rests};
ghost use Rattle.cs_store_tables.specs.Crash.{IsAtomic, LeavesOnly};
ghost use Rattle.cs_store_tables.specs.Failing.{BatchFails, BeginFails, CommitFails, IsDeclarationOf, LeadsOn, MarkFails};
ghost use Rattle.cs_store_tables.specs.Failing.{ReadFails, ReleaseFails, Writes};
ghost use Rattle.cs_store_tables.specs.Pages.{page_in};
ghost use Rattle.cs_store_tables.specs.Store.{AddsTable, Begins, Ends, HoldsState, IsInside, KeepsStore, RefusesShut};
ghost use Rattle.cs_store_tables.specs.Store.{tables_in};
ghost use Rattle.cs_store.specs.Within.{EndsCall, HasBefore, Within};

use crate::store::Store;
use cs_rows::{Edit, Rows, Schema, StoreError, Written, edit_in};
use cs_store_sql::transactions;
use cs_store_tables::{begin_with, commit_with, count_rows};
use cs_value::{Key, Row, is_table_name};
use sqlite::{Alter, Connection};
use std::alloc::Global;
use std::marker::Model;

/// A transaction that owns its store. Reads show what it wrote, and nothing lasts before
/// [`commit`](Transaction::commit).
///
/// A call that fails with `StoreFault`, `NoMemory` or `DamagedStore` may end it. Then reads show the store as it was
/// when the transaction began, and each call that writes or commits is refused. Dropping it drops the store too, and
/// what was written is lost; [`roll_back`](Transaction::roll_back) gives the store back.
#[derive(Drop)]
pub struct Transaction<S: Alter> {
    pub(crate) store: Store<S>,
}

impl<S: Alter> Model for Transaction<S> {
    ghost use Rattle.sqlite.specs.Held.{Held, held_code};

    ghost Value = { Held S };

    ghost coded = { held_code S.code };

    ghost view = { λ t. t.store };
}

impl<S: Alter + Drop> Store<S> {
    /// Begins a transaction that owns the store. A crash leaves no more than it could before, and once the transaction
    /// has begun, the tables that the store shows and nothing else.
    ///
    /// # Errors
    ///
    /// They come with the store. `StoreFault` if a transaction is open or the database refuses, and `NoMemory` if out
    /// of memory. What the store shows and what was committed stay.
    pub fn into_transaction(self) -> Result<Transaction<S>, (StoreError, Store<S>)>
        ensures begun { IfOk result (λ t. HasCleanDisk (state S.Store t)
            → Begins (state S.Store self) (state S.Store t)) }
        ensures survives { IfOk result (λ t. KeepsCrash (state S.Store self) (state S.Store t)) }
        ensures leaves { IfOk result (λ t. LeavesOnly (λ left. left ≡ tables_in (state S.Store self).now)
            (state S.Store t)) }
        ensures refused { IfErr result (λ e. IsResource e.0) }
        ensures caused { IfErr result (λ e. HasCleanDisk (state S.Store e.1)
            → IsCaused (BeginFails (state S.Store self) (state S.Store e.1)) e.0) }
        ensures kept { IfErr result (λ e. HasCleanDisk (state S.Store e.1)
            → KeepsContent (state S.Store self) (state S.Store e.1)) }
        ensures keeps_crash { IfErr result (λ e. KeepsCrash (state S.Store self) (state S.Store e.1)) }
    {
        let mut store = self;
        match begin_with(&mut store.conn, &mut store.known) {
            Ok(()) => Ok(Transaction { store }),
            Err(error) => Err((error, store)),
        }
    }
}

impl<S: Alter + Drop> Transaction<S> {
    /// Commits what was written. All but the records is as it was committed last.
    ///
    /// A crash leaves the tables as when the transaction began, or as it has them; only these once the call is done,
    /// and only those once it is refused and the store is still open.
    ///
    /// # Errors
    ///
    /// They come with the store, which is as when the transaction began. `StoreFault` if the transaction has ended or
    /// the database refuses, and `NoMemory` if out of memory.
    pub fn commit(self) -> Result<Store<S>, (StoreError, Store<S>)>
        ensures committed { IfOk result (λ s. HasCleanDisk (state S.Store s)
            → Ends (state S.Store self) (state S.Store s)) }
        ensures others { IfOk result (λ s. HasCleanDisk (state S.Store s)
            → KeepsOthers (state S.Store self).committed (state S.Store s).now) }
        ensures atomic { IfOk result (λ s. IsAtomic IsInside (λ left. left ≡ tables_in (state S.Store self).now)
            (state S.Store self) (state S.Store s)) }
        ensures left { IfOk result (λ s. LeavesOnly (λ left. left ≡ tables_in (state S.Store self).now)
            (state S.Store s)) }
        ensures undone { IfErr result (λ e. HasCleanDisk (state S.Store e.1)
            → IsUndone (state S.Store self) (state S.Store e.1)) }
        ensures unsure { IfErr result (λ e. IsAtomic IsInside (λ left. left ≡ tables_in (state S.Store self).now)
            (state S.Store self) (state S.Store e.1)) }
        ensures stands { IfErr result (λ e. IsTrue (state S.Store e.1).is_open → LeavesOnly
            (λ left. left ≡ tables_in (state S.Store self).committed) (state S.Store e.1)) }
        ensures survives { MatchResult result
            (λ s. Survives (state S.Store self) (state S.Store s)
            (λ db. (db ≡ (state S.Store self).now.trees) × IsTrue (state S.Store self).in_transaction))
            (λ e. Survives (state S.Store self) (state S.Store e.1)
            (λ db. (db ≡ (state S.Store self).now.trees) × IsTrue (state S.Store self).in_transaction)) }
        ensures refused { IfErr result (λ e. IsResource e.0) }
        ensures caused { IfErr result (λ e. HasCleanDisk (state S.Store e.1)
            → IsCaused (CommitFails (state S.Store self) (state S.Store e.1)) e.0) }
    {
        let Transaction { mut store } = self;
        match commit_with(&mut store.conn, &mut store.known) {
            Ok(()) => Ok(store),
            Err(error) => Err((error, store)),
        }
    }

    /// Marks where the transaction is. [`go_back`](Transaction::go_back) goes back there, and
    /// [`release`](Transaction::release) drops the mark.
    ///
    /// # Errors
    ///
    /// `StoreFault` if the transaction has ended or the database refuses, and `NoMemory` if out of memory. The
    /// transaction has ended then, and the store is as it was when the transaction began.
    pub fn mark(&mut self) -> Result<(), StoreError>
        ensures marked { HasCleanDisk (state S.Store self.new) → OnOk result
            (IsTrue (state S.Store self.old).in_transaction × Shows (state S.Store self.old) (state S.Store self.new)
            (state S.Store self.old).now (state S.Store self.old).committed true
            × IsMarked (state S.Store self.old).marks (state S.Store self.old).now (state S.Store self.new)) }
        ensures undone { HasCleanDisk (state S.Store self.new)
            → OnErr result (IsUndone (state S.Store self.old) (state S.Store self.new)) }
        ensures refused { IfErr result IsResource }
        ensures caused { HasCleanDisk (state S.Store self.new)
            → IfErr result (IsCaused (MarkFails (state S.Store self.old) (state S.Store self.new))) }
        ensures survives { KeepsCrash (state S.Store self.old) (state S.Store self.new) }
    {
        let store = &mut self.store;
        match cs_store_tables::mark(&mut store.conn) {
            Ok(()) => Ok(()),
            Err(error) => {
                store.known = None;
                Err(error)
            }
        }
    }

    /// Drops the newest mark, which must be there. What was written since stays.
    ///
    /// # Errors
    ///
    /// `StoreFault` if the database refuses, and `NoMemory` if out of memory. The transaction has ended then, and the
    /// store is as it was when the transaction began.
    pub fn release(&mut self) -> Result<(), StoreError>
        requires { HasCleanDisk (state S.Store self.old) → HasMark (state S.Store self.old) }
        ensures released { (before : List Savepoint) (db : Database) → IsMarked before db (state S.Store self.old)
            → HasCleanDisk (state S.Store self.new) → OnOk result
            (Shows (state S.Store self.old) (state S.Store self.new) (state S.Store self.old).now
            (state S.Store self.old).committed true × ((state S.Store self.new).marks ≡ before)) }
        ensures undone { HasCleanDisk (state S.Store self.new)
            → OnErr result (IsUndone (state S.Store self.old) (state S.Store self.new)) }
        ensures refused { IfErr result IsResource }
        ensures caused { HasCleanDisk (state S.Store self.new)
            → IfErr result (IsCaused (ReleaseFails (state S.Store self.old) (state S.Store self.new))) }
        ensures survives { KeepsCrash (state S.Store self.old) (state S.Store self.new) }
    {
        let store = &mut self.store;
        match cs_store_tables::release(&mut store.conn) {
            Ok(()) => Ok(()),
            Err(error) => {
                store.known = None;
                return Err(error);
            }
        }
    }

    /// Goes back to the newest mark, and drops it. An open transaction must have one, set where it showed tables.
    ///
    /// # Errors
    ///
    /// Those of [`mark`](Transaction::mark).
    pub fn go_back(&mut self) -> Result<(), StoreError>
        requires { HasCleanDisk (state S.Store self.old) → IsTrue (state S.Store self.old).in_transaction
            → HasBefore (state S.Store self.old) }
        ensures back { (before : List Savepoint) (db : Database)
            → (IsTrue (state S.Store self.old).in_transaction → IsMarked before db (state S.Store self.old))
            → HasCleanDisk (state S.Store self.new) → OnOk result
            (IsTrue (state S.Store self.old).in_transaction × Shows (state S.Store self.old) (state S.Store self.new)
            db (state S.Store self.old).committed true × ((state S.Store self.new).marks ≡ before)) }
        ensures undone { HasCleanDisk (state S.Store self.new)
            → OnErr result (IsUndone (state S.Store self.old) (state S.Store self.new)) }
        ensures refused { IfErr result IsResource }
        ensures caused { HasCleanDisk (state S.Store self.new)
            → IfErr result (IsCaused (MarkFails (state S.Store self.old) (state S.Store self.new))) }
        ensures survives { KeepsCrash (state S.Store self.old) (state S.Store self.new) }
    {
        let store = &mut self.store;
        store.known = None;
        cs_store_tables::go_back(&mut store.conn)
    }

    /// Returns whether the transaction has ended.
    pub fn has_ended(&self) -> bool
        ensures value { result ≡ not (state S.Store self.now).in_transaction }
        ensures settled { IsTrue result → IsTrue (state S.Store self.now).is_open
            → (state S.Store self.now).now ≡ (state S.Store self.now).committed }
    {
        self.store.conn.is_autocommit()
    }

    /// Ends a call that set a mark first: drops the mark if the call is accepted, and goes back to it if the call is
    /// refused. It does nothing if the refused call has ended the transaction. An accepted call must have left the
    /// transaction open, and the mark must have been set where it showed tables.
    ///
    /// # Errors
    ///
    /// Those of [`release`](Transaction::release).
    pub fn end_call(&mut self, accepted: bool) -> Result<(), StoreError>
        requires inside { IsTrue accepted → HasCleanDisk (state S.Store self.old)
            → IsTrue (state S.Store self.old).in_transaction }
        requires marked { HasCleanDisk (state S.Store self.old) → IsTrue (state S.Store self.old).in_transaction
            → HasBefore (state S.Store self.old) }
        ensures ends { (before : List Savepoint) (db : Database)
            → (IsTrue (state S.Store self.old).in_transaction → IsMarked before db (state S.Store self.old))
            → HasCleanDisk (state S.Store self.new) → OnOk result
            (EndsCall accepted before db (state S.Store self.old) (state S.Store self.new)) }
        ensures undone { HasCleanDisk (state S.Store self.new)
            → OnErr result (IsUndone (state S.Store self.old) (state S.Store self.new)) }
        ensures refused { IfErr result IsResource }
        ensures caused { HasCleanDisk (state S.Store self.new)
            → IfErr result (IsCaused (ReleaseFails (state S.Store self.old) (state S.Store self.new))) }
        ensures survives { KeepsCrash (state S.Store self.old) (state S.Store self.new) }
    {
        if accepted {
            return self.release();
        }
        if self.has_ended() {
            return Ok(());
        }
        self.go_back()
    }

    /// Drops what was written, and returns the store as it was when the transaction began.
    pub fn roll_back(self) -> Store<S>
        ensures undone { HasCleanDisk (state S.Store result) → IsUndone (state S.Store self) (state S.Store result) }
        ensures survives { KeepsCrash (state S.Store self) (state S.Store result) }
    {
        let Transaction { mut store } = self;
        store.known = None;
        transactions::roll_back(&mut store.conn);
        store
    }
}

impl<S: Alter> Transaction<S> {
    /// Has no effect. Its contract says that a transaction whose connection is open shows the tables of a state, and
    /// all but the records as it was committed last. One that has ended shows what was committed last, and one that has
    /// not is open.
    pub fn store_law(&self)
        ensures holds { HasCleanDisk (state S.Store self.now) → IsTrue (state S.Store self.now).is_open
            → HoldsState (state S.Store self.now).now
            × KeepsOthers (state S.Store self.now).committed (state S.Store self.now).now }
        ensures settled { HasCleanDisk (state S.Store self.now) → (state S.Store self.now).in_transaction ≡ false
            → IsTrue (state S.Store self.now).is_open
            → (state S.Store self.now).now ≡ (state S.Store self.now).committed }
        ensures inside { HasCleanDisk (state S.Store self.now) → IsTrue (state S.Store self.now).in_transaction
            → IsTrue (state S.Store self.now).is_open }
    {
        let _ = &self.store.conn;
    }

    /// Returns the names of the tables that the transaction shows, in the order of their bytes.
    ///
    /// # Errors
    ///
    /// Those of [`Store::tables`].
    pub fn tables(&mut self, alloc: Global) -> Result<Vec<String>, StoreError>
        ensures listed { HasCleanDisk (state S.Store self.new) → IfOk result (λ names. map_list string_bytes names.items
            ≡ map.keys (tables_in (state S.Store self.old).now)) }
        ensures same { HasCleanDisk (state S.Store self.new) → OnOk result ((state S.Store self.new).now
            ≡ (state S.Store self.old).now) }
        ensures refused { HasCleanDisk (state S.Store self.new) → IfErr result IsResource }
        ensures shut { HasCleanDisk (state S.Store self.new)
            → RefusesShut (state S.Store self.old) IsResource result }
        ensures caused { HasCleanDisk (state S.Store self.new)
            → IfErr result (IsCaused (ReadFails (state S.Store self.old) (state S.Store self.new))) }
        ensures named { IfErr result IsReadRefusal }
        ensures reads { HasCleanDisk (state S.Store self.new) → is_answered result ≡ true
            → IsUnchanged (state S.Store self.old) (state S.Store self.new) }
        ensures rests { HasCleanDisk (state S.Store self.new)
            → Rests (state S.Store self.old) (state S.Store self.new) }
        ensures kept { KeepsStore (state S.Store self.old) (state S.Store self.new) }
    {
        self.store.tables(alloc)
    }

    /// Returns the schema of a table, or None if no table has the name.
    ///
    /// # Errors
    ///
    /// Those of [`tables`](Transaction::tables).
    pub fn schema(&mut self, alloc: Global, name: &str) -> Result<Option<Schema>, StoreError>
        ensures found { HasCleanDisk (state S.Store self.new)
            → IfOk result (λ o. o ≡ schema_at (tables_in (state S.Store self.old).now) name.now) }
        ensures same { HasCleanDisk (state S.Store self.new) → OnOk result ((state S.Store self.new).now
            ≡ (state S.Store self.old).now) }
        ensures refused { HasCleanDisk (state S.Store self.new) → IfErr result IsResource }
        ensures shut { HasCleanDisk (state S.Store self.new)
            → RefusesShut (state S.Store self.old) IsResource result }
        ensures caused { HasCleanDisk (state S.Store self.new)
            → IfErr result (IsCaused (ReadFails (state S.Store self.old) (state S.Store self.new))) }
        ensures named { IfErr result IsReadRefusal }
        ensures reads { HasCleanDisk (state S.Store self.new) → is_answered result ≡ true
            → IsUnchanged (state S.Store self.old) (state S.Store self.new) }
        ensures rests { HasCleanDisk (state S.Store self.new)
            → Rests (state S.Store self.old) (state S.Store self.new) }
        ensures kept { KeepsStore (state S.Store self.old) (state S.Store self.new) }
    {
        self.store.schema(alloc, name)
    }

    /// Returns the rows of a table, in the order of the bytes of their keys.
    ///
    /// # Errors
    ///
    /// `NoTable` if no table has the name, and those of [`tables`](Transaction::tables).
    pub fn rows(&mut self, alloc: Global, name: &str) -> Result<Vec<Row>, StoreError>
        ensures listed { HasCleanDisk (state S.Store self.new)
            → IfOk result (λ rows. rows.items
            ≡ map.values (rows_at (tables_in (state S.Store self.old).now) name.now)) }
        ensures declared { HasCleanDisk (state S.Store self.new)
            → OnOk result (IsDeclared (tables_in (state S.Store self.old).now) name.now) }
        ensures same { HasCleanDisk (state S.Store self.new) → OnOk result ((state S.Store self.new).now
            ≡ (state S.Store self.old).now) }
        ensures refused { HasCleanDisk (state S.Store self.new) → IfErr result (λ e. ((e ≡ NoSuchTable)
            × (schema_at (tables_in (state S.Store self.old).now) name.now ≡ None)) ⊎ IsResource e) }
        ensures shut { HasCleanDisk (state S.Store self.new)
            → RefusesShut (state S.Store self.old) IsResource result }
        ensures caused { HasCleanDisk (state S.Store self.new)
            → IfErr result (IsCaused (ReadFails (state S.Store self.old) (state S.Store self.new))) }
        ensures named { IfErr result (λ e. (e ≡ NoSuchTable) ⊎ IsReadRefusal e) }
        ensures reads { HasCleanDisk (state S.Store self.new) → is_answered result ≡ true
            → IsUnchanged (state S.Store self.old) (state S.Store self.new) }
        ensures rests { HasCleanDisk (state S.Store self.new)
            → Rests (state S.Store self.old) (state S.Store self.new) }
        ensures kept { KeepsStore (state S.Store self.old) (state S.Store self.new) }
    {
        self.store.rows(alloc, name)
    }

    /// Returns a page of the rows of a table, in the order of the bytes of their keys: at most `limit` rows, from the
    /// first one or from the one after a key, which need not be there. No other rows are read. `limit` is below 2^63.
    ///
    /// # Errors
    ///
    /// `NoTable` if no table has the name, and those of [`tables`](Transaction::tables).
    pub fn page(
        &mut self,
        alloc: Global,
        name: &str,
        after: Option<&Key>,
        limit: u64,
    ) -> Result<Vec<Row>, StoreError>
        requires { limit < 2 ^ 63 }
        ensures listed { HasCleanDisk (state S.Store self.new)
            → IfOk result (λ rows. rows.items
            ≡ page_in (rows_at (tables_in (state S.Store self.old).now) name.now)
            (option_map (λ k. k.now) after.entry) limit) }
        ensures declared { HasCleanDisk (state S.Store self.new)
            → OnOk result (IsDeclared (tables_in (state S.Store self.old).now) name.now) }
        ensures same { HasCleanDisk (state S.Store self.new) → OnOk result ((state S.Store self.new).now
            ≡ (state S.Store self.old).now) }
        ensures refused { HasCleanDisk (state S.Store self.new) → IfErr result (λ e. ((e ≡ NoSuchTable)
            × (schema_at (tables_in (state S.Store self.old).now) name.now ≡ None)) ⊎ IsResource e) }
        ensures shut { HasCleanDisk (state S.Store self.new)
            → RefusesShut (state S.Store self.old) IsResource result }
        ensures caused { HasCleanDisk (state S.Store self.new)
            → IfErr result (IsCaused (ReadFails (state S.Store self.old) (state S.Store self.new))) }
        ensures named { IfErr result (λ e. (e ≡ NoSuchTable) ⊎ IsReadRefusal e) }
        ensures reads { HasCleanDisk (state S.Store self.new) → is_answered result ≡ true
            → IsUnchanged (state S.Store self.old) (state S.Store self.new) }
        ensures rests { HasCleanDisk (state S.Store self.new)
            → Rests (state S.Store self.old) (state S.Store self.new) }
        ensures kept { KeepsStore (state S.Store self.old) (state S.Store self.new) }
    {
        self.store.page(alloc, name, after, limit)
    }

    /// Returns the number of the rows of a table. No list of them is made.
    ///
    /// # Errors
    ///
    /// `NoTable` if no table has the name, and those of [`tables`](Transaction::tables). `NoMemory` also from 2^63 - 1
    /// rows on.
    pub fn count(&mut self, alloc: Global, name: &str) -> Result<u64, StoreError>
        ensures counted { HasCleanDisk (state S.Store self.new) → IfOk result (λ n. n
            ≡ length (map.values (rows_at (tables_in (state S.Store self.old).now) name.now))) }
        ensures declared { HasCleanDisk (state S.Store self.new)
            → OnOk result (IsDeclared (tables_in (state S.Store self.old).now) name.now) }
        ensures same { HasCleanDisk (state S.Store self.new) → OnOk result ((state S.Store self.new).now
            ≡ (state S.Store self.old).now) }
        ensures refused { HasCleanDisk (state S.Store self.new) → IfErr result (λ e. ((e ≡ NoSuchTable)
            × (schema_at (tables_in (state S.Store self.old).now) name.now ≡ None)) ⊎ IsResource e) }
        ensures shut { HasCleanDisk (state S.Store self.new)
            → RefusesShut (state S.Store self.old) IsResource result }
        ensures caused { HasCleanDisk (state S.Store self.new)
            → IfErr result (IsCaused (ReadFails (state S.Store self.old) (state S.Store self.new))) }
        ensures named { IfErr result (λ e. (e ≡ NoSuchTable) ⊎ IsReadRefusal e) }
        ensures reads { HasCleanDisk (state S.Store self.new) → is_answered result ≡ true
            → IsUnchanged (state S.Store self.old) (state S.Store self.new) }
        ensures rests { HasCleanDisk (state S.Store self.new)
            → Rests (state S.Store self.old) (state S.Store self.new) }
        ensures kept { KeepsStore (state S.Store self.old) (state S.Store self.new) }
    {
        let store = &mut self.store;
        let number = count_rows(&mut store.conn, &mut store.known, alloc, name)?;
        match &store.known {
            Some(_) => Ok(number),
            None => Err(StoreError::NoTable),
        }
    }

    /// Returns the row of a table under a key, or None if no row has the key.
    ///
    /// # Errors
    ///
    /// `NoTable` if no table has the name, and those of [`tables`](Transaction::tables).
    pub fn get(&mut self, alloc: Global, name: &str, key: &Key) -> Result<Option<Row>, StoreError>
        ensures found { HasCleanDisk (state S.Store self.new)
            → IfOk result (λ o. o ≡ row_at (tables_in (state S.Store self.old).now) name.now key.now) }
        ensures fits { HasCleanDisk (state S.Store self.new)
            → IfOk result (λ o. IfSome o (Fits (tables_in (state S.Store self.old).now) name.now key.now)) }
        ensures declared { HasCleanDisk (state S.Store self.new)
            → OnOk result (IsDeclared (tables_in (state S.Store self.old).now) name.now) }
        ensures same { HasCleanDisk (state S.Store self.new) → OnOk result ((state S.Store self.new).now
            ≡ (state S.Store self.old).now) }
        ensures refused { HasCleanDisk (state S.Store self.new) → IfErr result (λ e. ((e ≡ NoSuchTable)
            × (schema_at (tables_in (state S.Store self.old).now) name.now ≡ None)) ⊎ IsResource e) }
        ensures shut { HasCleanDisk (state S.Store self.new)
            → RefusesShut (state S.Store self.old) IsResource result }
        ensures caused { HasCleanDisk (state S.Store self.new)
            → IfErr result (IsCaused (ReadFails (state S.Store self.old) (state S.Store self.new))) }
        ensures named { IfErr result (λ e. (e ≡ NoSuchTable) ⊎ IsReadRefusal e) }
        ensures reads { HasCleanDisk (state S.Store self.new) → is_answered result ≡ true
            → IsUnchanged (state S.Store self.old) (state S.Store self.new) }
        ensures rests { HasCleanDisk (state S.Store self.new)
            → Rests (state S.Store self.old) (state S.Store self.new) }
        ensures kept { KeepsStore (state S.Store self.old) (state S.Store self.new) }
    {
        self.store.get(alloc, name, key)
    }
}

impl<S: Alter + Drop> Transaction<S> {
    /// Declares a table without rows.
    ///
    /// `columns`, `keys` and `refuses` are as for [`Store::declare`].
    ///
    /// # Errors
    ///
    /// `BadSchema` if the name or the columns make no table, and then `TableExists`. `DamagedStore` and `NoMemory` as
    /// for [`tables`](Transaction::tables). `StoreFault` or `NoMemory` if the transaction has ended, and `StoreFault`
    /// if the database refuses. A refusal leaves what one of [`edit`](Transaction::edit) leaves.
    pub fn declare(
        &mut self,
        alloc: Global,
        name: &str,
        columns: &[String],
        keys: &[bool],
        refuses: &[bool],
    ) -> Result<(), StoreError>
        ensures declared { HasCleanDisk (state S.Store self.new)
            → OnOk result (Declares (tables_in (state S.Store self.old).now) name.now
            (schema_of columns.now keys.now refuses.now) (Ok (tables_in (state S.Store self.new).now))) }
        ensures refused { HasCleanDisk (state S.Store self.new)
            → IfErr result (λ e. (Declares (tables_in (state S.Store self.old).now) name.now
            (schema_of columns.now keys.now refuses.now) (Err e)) ⊎ IsResource e) }
        ensures caused { HasCleanDisk (state S.Store self.new) → IfErr result (IsCaused (BatchFails
            (IsDeclarationOf (tables_in (state S.Store self.old).now) name.now
            (schema_of columns.now keys.now refuses.now)) (state S.Store self.old) (state S.Store self.new))) }
        ensures named { IfErr result (λ e. (e ≡ NoSchema) ⊎ (e ≡ TakenName) ⊎ IsReadRefusal e) }
        ensures over { HasCleanDisk (state S.Store self.new) → (state S.Store self.old).in_transaction ≡ false
            → IfErr result (λ e. (e ≡ NoSchema) ⊎ IsResource e) }
        ensures within { Within (λ left. Declares (tables_in (state S.Store self.old).now) name.now
            (schema_of columns.now keys.now refuses.now) (Ok left))
            IsReadRefusal (state S.Store self.old) (state S.Store self.new) result }
    {
        self.store_law();
        if !is_table_name(name) {
            return Err(StoreError::BadSchema);
        }
        let schema = Schema::new(alloc, columns, keys, refuses)?;
        self.mark()?;
        let result = self.add_table(alloc, name, &schema);
        self.end_call(result.is_ok())?;
        result
    }

    /// Adds a table without rows, where none has the name.
    fn add_table(&mut self, alloc: Global, name: &str, schema: &Schema) -> Result<(), StoreError>
        requires { IsName name.now }
        ensures declared { HasCleanDisk (state S.Store self.new)
            → OnOk result (AddsTable (tables_in (state S.Store self.old).now) name.now schema.now
            (tables_in (state S.Store self.new).now)) }
        ensures refused { HasCleanDisk (state S.Store self.new) → IfErr result (λ e. ((e ≡ TakenName)
            × IsDeclared (tables_in (state S.Store self.old).now) name.now) ⊎ IsResource e) }
        ensures caused { HasCleanDisk (state S.Store self.new) → IfErr result (IsCaused (BatchFails
            (IsDeclarationOf (tables_in (state S.Store self.old).now) name.now schema.now)
            (state S.Store self.old) (state S.Store self.new))) }
        ensures named { IfErr result (λ e. (e ≡ TakenName) ⊎ IsReadRefusal e) }
        ensures leads { HasCleanDisk (state S.Store self.new) → is_answered result ≡ true → LeadsOn
            (IsDeclarationOf (tables_in (state S.Store self.old).now) name.now schema.now)
            (state S.Store self.old) (state S.Store self.new) }
        ensures kept { KeepsStore (state S.Store self.old) (state S.Store self.new) }
    {
        let store = &mut self.store;
        cs_store_tables::add_table(&mut store.conn, &mut store.known, alloc, name, schema)
    }

    /// Carries out an edit as [`edit_in`] does.
    ///
    /// # Errors
    ///
    /// Those of [`edit_in`], and `StoreFault` or `NoMemory` if the transaction has ended. After a refusal the
    /// transaction shows what it showed before. Or the error is `StoreFault`, `NoMemory` or `DamagedStore`, the
    /// transaction has [ended](Transaction::has_ended), and the store is as it was when the transaction began.
    pub fn edit(&mut self, alloc: Global, edit: &Edit) -> Result<Vec<Written>, StoreError>
        ensures edited { HasCleanDisk (state S.Store self.new)
            → IfOk result (λ w. edited (tables_in (state S.Store self.old).now) edit.now
            ≡ Ok (record { state = tables_in (state S.Store self.new).now; written = map_list written_of w.items })) }
        ensures refused { HasCleanDisk (state S.Store self.new) → IfErr result (λ e.
            (edited (tables_in (state S.Store self.old).now) edit.now ≡ Err e) ⊎ IsResource e) }
        ensures caused { HasCleanDisk (state S.Store self.new) → IfErr result (IsCaused (BatchFails
            (Writes (IsWriteOf (tables_in (state S.Store self.old).now) edit.now)) (state S.Store self.old)
            (state S.Store self.new))) }
        ensures named { IfErr result IsEditRefusal }
        ensures over { HasCleanDisk (state S.Store self.new) → (state S.Store self.old).in_transaction ≡ false
            → IfErr result IsResource }
        ensures within { Within (EditsInto (tables_in (state S.Store self.old).now) edit.now) IsReadRefusal
            (state S.Store self.old) (state S.Store self.new) result }
    {
        self.store_law();
        self.mark()?;
        let result = edit_in(alloc, self, edit);
        self.end_call(result.is_ok())?;
        result
    }
}

impl<S: Alter> Rows for Transaction<S> {
    ghost use Rattle.std.proofs.Common.{◌≡◌, true, refl};
    ghost use Rattle.sqlite.specs.State.{HasCleanDisk};
    ghost use Rattle.sqlite.specs.Held.{state as shown};
    ghost use Rattle.cs_store_tables.specs.Crash.{LeavesOnly};
    ghost use Rattle.cs_store_tables.specs.Failing.{BatchFails, LeadsOn, Writes};
    ghost use Rattle.cs_store_tables.specs.Store.{KeepsStore, tables_in};
    ghost use Rattle.cs_store_tables.specs.Laws as laws;

    ghost state = { λ t. tables_in (shown S.Store t).now };

    ghost is_honest = { λ t. HasCleanDisk (shown S.Store t) };

    ghost keeps = { λ Is accepted a b. KeepsStore (shown S.Store a) (shown S.Store b)
        × (accepted ≡ true → HasCleanDisk (shown S.Store b)
        → LeadsOn (Writes Is) (shown S.Store a) (shown S.Store b)) };

    ghost keeps_itself = { λ Is b. (laws.keeps_itself, λ accepted clean. laws.leads_itself) };

    ghost keeps_then = { λ Is accepted a b c one two. (
      laws.keeps_then one.0 two.0,
      λ is clean. laws.leads_on_then one.0.crash (one.1 refl (laws.was_clean (shown S.Store b)
          (shown S.Store c) two.0.crash clean)) (two.1 is clean),
    ) };

    ghost keeps_refused = { λ Is accepted a b one. (one.0, λ is clean. one.1 refl clean) };

    ghost keeps_so = { λ Is Are accepted a b so kept. (
      kept.0,
      λ is clean. laws.writes_so Is Are (λ held write. so held write clean) (kept.1 is clean),
    ) };

    ghost leaves_only = { λ t held. LeavesOnly (λ left. left ≡ held) (shown S.Store t) };

    ghost leaves_still = { λ Is accepted a b held kept leaves. laws.leaves_then kept.0 leaves };

    ghost fails = { λ Is a b. BatchFails (Writes Is) (shown S.Store a) (shown S.Store b) };

    ghost fails_then = { λ Is accepted a b c cause one two clean failed. laws.batch_fails_then (Writes Is)
        (shown S.Store a) (shown S.Store b) (shown S.Store c) cause one.0 two.0.crash (one.1 refl) clean failed };

    ghost fails_so = { λ Is Are a b cause so failed. laws.batch_fails_so Is Are (shown S.Store a)
        (shown S.Store b) cause so failed };

    fn schema(&mut self, alloc: Global, table: &str) -> Result<Option<Schema>, StoreError> {
        let store = &mut self.store;
        cs_store_tables::find_schema(&mut store.conn, &mut store.known, alloc, table)
    }

    fn get(&mut self, alloc: Global, table: &str, key: &Key) -> Result<Option<Row>, StoreError> {
        let store = &mut self.store;
        cs_store_tables::find_row(&mut store.conn, &mut store.known, alloc, table, key)
    }

    fn add(&mut self, alloc: Global, name: &str, key: &Key, row: &Row) -> Result<bool, StoreError> {
        let store = &mut self.store;
        cs_store_tables::add_row(&mut store.conn, &mut store.known, alloc, name, key, row)
    }

    fn put(&mut self, alloc: Global, table: &str, key: &Key, row: &Row) -> Result<(), StoreError> {
        let store = &mut self.store;
        cs_store_tables::put_row(&mut store.conn, &mut store.known, alloc, table, key, row)
    }

    fn remove(&mut self, _alloc: Global, table: &str, key: &Key) -> Result<(), StoreError> {
        let store = &mut self.store;
        cs_store_tables::remove_row(&mut store.conn, &mut store.known, table, key)
    }

    fn list(&mut self, alloc: Global, table: &str) -> Result<Vec<Row>, StoreError> {
        let store = &mut self.store;
        cs_store_tables::list_rows(&mut store.conn, &mut store.known, alloc, table)
    }
}
