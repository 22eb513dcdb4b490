//! Batches: rows of a store that are written together.
ghost use Rattle.std.specs.Prelude.{◌≡◌, ◌⊎◌, IsTrue, OnOk, OnErr, IfErr, true, false};
ghost use Rattle.sqlite.specs.State.{HasCleanDisk, Shows, Survives};
ghost use Rattle.sqlite.specs.Held.{state};
ghost use Rattle.cs_value.specs.Table.{IsName};
ghost use Rattle.cs_rows.specs.declared.fault.StoreError.TheVariants.{TableExists as TakenName};
ghost use Rattle.cs_rows.specs.Faults.{IsCaused, IsResource, IsReadRefusal, is_answered};
ghost use Rattle.cs_store_tables.specs.Failing.{BatchFails, CommitFails, IsDeclarationOf, LeadsOn};
ghost use Rattle.cs_rows.specs.Rows.{IsDeclared};
ghost use Rattle.cs_store_sql.specs.Records.{IsUndone, KeepsCrash, KeepsOthers};
ghost use Rattle.cs_store_tables.specs.Crash.{IsAtomic, LeavesOnly};
ghost use Rattle.cs_store_tables.specs.Store.{AddsTable, Ends, IsInside, KeepsStore, tables_in};

use crate::store::Store;
use cs_rows::{Rows, Schema, StoreError};
use cs_store_sql::transactions;
use cs_store_tables::commit_with;
use cs_value::{Key, Row};
use sqlite::{Alter, Connection};
use std::alloc::Global;

/// A batch of writes to a store. Dropping it undoes them.
pub struct SqlBatch<'c, S: Alter> {
    pub(crate) store: &'c mut Store<S>,
}

impl<S: Alter> SqlBatch<'_, S> {
    /// Adds a table without rows.
    pub(crate) fn declare(
        &mut self,
        alloc: Global,
        name: &str,
        schema: &Schema,
    ) -> Result<(), StoreError>
        requires { IsName name.now }
        ensures declared { HasCleanDisk (state S.Store self.new.store.now)
            → OnOk result (AddsTable (tables_in (state S.Store self.old.store.now).now) name.now schema.now
            (tables_in (state S.Store self.new.store.now).now)) }
        ensures refused { HasCleanDisk (state S.Store self.new.store.now) → IfErr result (λ e. ((e ≡ TakenName)
            × IsDeclared (tables_in (state S.Store self.old.store.now).now) name.now) ⊎ IsResource e) }
        ensures caused { HasCleanDisk (state S.Store self.new.store.now)
            → IfErr result (IsCaused (BatchFails (IsDeclarationOf (tables_in (state S.Store self.old.store.now).now) name.now schema.now)
            (state S.Store self.old.store.now) (state S.Store self.new.store.now))) }
        ensures named { IfErr result (λ e. (e ≡ TakenName) ⊎ IsReadRefusal e) }
        ensures same_reference { self.new.store.ghost_name ≡ self.old.store.ghost_name }
        ensures leads { HasCleanDisk (state S.Store self.new.store.now) → is_answered result ≡ true
            → LeadsOn (IsDeclarationOf (tables_in (state S.Store self.old.store.now).now) name.now schema.now)
            (state S.Store self.old.store.now) (state S.Store self.new.store.now) }
        ensures kept { KeepsStore (state S.Store self.old.store.now) (state S.Store self.new.store.now) }
    {
        let store = &mut *self.store;
        cs_store_tables::add_table(&mut store.conn, &mut store.known, alloc, name, schema)
    }

    /// Commits the writes of the batch.
    ///
    /// A crash leaves the tables as when the batch began, or as it has them; only these once the call is done, and only
    /// those once it is refused and the store is still open.
    ///
    /// # Errors
    ///
    /// `StoreFault` if the database refuses, and `NoMemory` if out of memory. The store is as when the batch began.
    pub fn commit(self) -> Result<(), StoreError>
        ensures committed { HasCleanDisk (state S.Store self.exit.0.now)
            → OnOk result (Ends (state S.Store self.entry.store.now) (state S.Store self.exit.0.now)) }
        ensures others { HasCleanDisk (state S.Store self.exit.0.now) → OnOk result
            (KeepsOthers (state S.Store self.entry.store.now).committed (state S.Store self.exit.0.now).now) }
        ensures undone { HasCleanDisk (state S.Store self.exit.0.now)
            → OnErr result (IsUndone (state S.Store self.entry.store.now) (state S.Store self.exit.0.now)) }
        ensures refused { IfErr result IsResource }
        ensures caused { HasCleanDisk (state S.Store self.exit.0.now)
            → IfErr result (IsCaused
            (CommitFails (state S.Store self.entry.store.now) (state S.Store self.exit.0.now))) }
        ensures atomic { IsAtomic IsInside (λ left. left ≡ tables_in (state S.Store self.entry.store.now).now)
            (state S.Store self.entry.store.now) (state S.Store self.exit.0.now) }
        ensures left { OnOk result (LeavesOnly (λ left. left ≡ tables_in (state S.Store self.entry.store.now).now)
            (state S.Store self.exit.0.now)) }
        ensures stands { OnErr result (IsTrue (state S.Store self.exit.0.now).is_open → LeavesOnly
            (λ left. left ≡ tables_in (state S.Store self.entry.store.now).committed) (state S.Store self.exit.0.now)) }
    {
        let SqlBatch { store } = self;
        commit_with(&mut store.conn, &mut store.known)
    }
}

impl<S: Alter> Drop for SqlBatch<'_, S> {
    fn drop(self)
        ensures undone { HasCleanDisk (state S.Store self.exit.0.now)
            → IsUndone (state S.Store self.entry.store.now) (state S.Store self.exit.0.now) }
        ensures survives { KeepsCrash (state S.Store self.entry.store.now) (state S.Store self.exit.0.now) }
    {
        let SqlBatch { store } = self;
        store.known = None;
        transactions::roll_back(&mut store.conn);
    }
}

impl<S: Alter> Rows for SqlBatch<'_, S> {
    ghost use Rattle.std.proofs.Common.{◌≡◌, true, refl, ◌∙◌};
    ghost use Rattle.sqlite.specs.State.{HasCleanDisk};
    ghost use Rattle.sqlite.specs.Held.{state as shown};
    ghost use Rattle.cs_store_tables.specs.Crash.{LeavesOnly};
    ghost use Rattle.cs_store_tables.specs.Failing.{BatchFails, LeadsOn, Writes};
    ghost use Rattle.cs_store_tables.specs.Store.{KeepsStore, tables_in};
    ghost use Rattle.cs_store_tables.specs.Laws as laws;

    ghost state = { λ b. tables_in (shown S.Store b.store.now).now };

    ghost is_honest = { λ b. HasCleanDisk (shown S.Store b.store.now) };

    ghost keeps = { λ Is accepted a b. (b.store.ghost_name ≡ a.store.ghost_name)
        × KeepsStore (shown S.Store a.store.now) (shown S.Store b.store.now)
        × (accepted ≡ true → HasCleanDisk (shown S.Store b.store.now)
        → LeadsOn (Writes Is) (shown S.Store a.store.now) (shown S.Store b.store.now)) };

    ghost keeps_itself = { λ Is b. (refl, laws.keeps_itself, λ accepted clean. laws.leads_itself) };

    ghost keeps_then = { λ Is accepted a b c one two. (
      two.0 ∙ one.0,
      laws.keeps_then one.1 two.1,
      λ is clean. laws.leads_on_then one.1.crash (one.2 refl (laws.was_clean (shown S.Store b.store.now)
          (shown S.Store c.store.now) two.1.crash clean)) (two.2 is clean),
    ) };

    ghost keeps_refused = { λ Is accepted a b one. (one.0, one.1, λ is clean. one.2 refl clean) };

    ghost keeps_so = { λ Is Are accepted a b so kept. (
      kept.0,
      kept.1,
      λ is clean. laws.writes_so Is Are
          (λ held write. so held write clean) (kept.2 is clean),
    ) };

    ghost leaves_only = { λ b held. LeavesOnly (λ left. left ≡ held) (shown S.Store b.store.now) };

    ghost leaves_still = { λ Is accepted a b held kept leaves. laws.leaves_then kept.1 leaves };

    ghost fails = { λ Is a b. BatchFails (Writes Is) (shown S.Store a.store.now) (shown S.Store b.store.now) };

    ghost fails_then = { λ Is accepted a b c cause one two clean failed. laws.batch_fails_then (Writes Is)
        (shown S.Store a.store.now) (shown S.Store b.store.now) (shown S.Store c.store.now) cause one.1 two.1.crash
        (one.2 refl) clean failed };

    ghost fails_so = { λ Is Are a b cause so failed. laws.batch_fails_so Is Are (shown S.Store a.store.now)
        (shown S.Store b.store.now) cause so failed };

    fn schema(&mut self, alloc: Global, table: &str) -> Result<Option<Schema>, StoreError> {
        let store = &mut *self.store;
        cs_store_tables::find_schema(&mut store.conn, &mut store.known, alloc, table)
    }

    fn get(&mut self, alloc: Global, table: &str, key: &Key) -> Result<Option<Row>, StoreError> {
        let store = &mut *self.store;
        cs_store_tables::find_row(&mut store.conn, &mut store.known, alloc, table, key)
    }

    fn add(&mut self, alloc: Global, name: &str, key: &Key, row: &Row) -> Result<bool, StoreError> {
        let store = &mut *self.store;
        cs_store_tables::add_row(&mut store.conn, &mut store.known, alloc, name, key, row)
    }

    fn put(&mut self, alloc: Global, table: &str, key: &Key, row: &Row) -> Result<(), StoreError> {
        let store = &mut *self.store;
        cs_store_tables::put_row(&mut store.conn, &mut store.known, alloc, table, key, row)
    }

    fn remove(&mut self, _alloc: Global, table: &str, key: &Key) -> Result<(), StoreError> {
        let store = &mut *self.store;
        cs_store_tables::remove_row(&mut store.conn, &mut store.known, table, key)
    }

    fn list(&mut self, alloc: Global, table: &str) -> Result<Vec<Row>, StoreError> {
        let store = &mut *self.store;
        cs_store_tables::list_rows(&mut store.conn, &mut store.known, alloc, table)
    }
}
