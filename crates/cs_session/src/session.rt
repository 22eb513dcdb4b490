//! Sessions, and the tables that are attached to them.
ghost use Rattle.std.specs.Prelude.{◌≡◌, ◌⊎◌, ◌↔◌, [], ◌∷◌, ◌++◌, All, Any, IsTrue, OnOk, OnErr, IfOk, IfErr, MatchResult};
ghost use Rattle.std.specs.Fn.{FnReturnsAt};
ghost use Rattle.sqlite.specs.State.{HasCleanDisk};
ghost use Rattle.sqlite.specs.Held.{state};
ghost use Rattle.cs_store.specs.Editing.{EditsInto, IsWriteOf};
ghost use Rattle.cs_store.specs.Failing.{ReadFails, StoreFails, Writes};
ghost use Rattle.cs_store.specs.Records.{KeepsContent, KeepsCrash, KeepsOthers};
ghost use Rattle.cs_store.specs.Transacts.{Transacts};
ghost use Rattle.cs_store.specs.Store.{IsAtRest, KeepsStore, RefusesShut, tables_in};
ghost use Rattle.cs_value.specs.Table.{IsName};
ghost use Rattle.cs_value.specs.State.{State, rows_at};
ghost use Rattle.cs_session_notes.specs.declared.fault.SessionFault.TheVariants.{AlreadyAttached as IsThere};
ghost use Rattle.cs_session_notes.specs.declared.fault.SessionFault.TheVariants.{NoMemory as OutOfMemory, WrongStore as NoSuchStore};
ghost use Rattle.cs_session_notes.specs.FirstImages.{AttachedTable, IsNotes, rewound, recorded_changes};
ghost use Rattle.cs_session_notes.specs.Attaching.{Attaches, RefusesAttach, IsAttachRefusal, IsNewTable};
ghost use Rattle.cs_session_notes.specs.Changes.{HasTables, IsCaused, IsChangesRefusal, IsResource, RefusesChanges};
ghost use Rattle.cs_session.specs.Recording.{Records, RefusesEdit, IsEditRefusal, RecordsApply, RefusesApply, IsApplyRefusal};
ghost use Rattle.cs_apply_engine.specs.declared.running.Direction.TheVariants.{Forward as ForwardRun, Inverse as InverseRun};
ghost use Rattle.cs_apply_conflict_kinds.specs.declared.conflict.Noop.TheVariants.{Report as Reported};
ghost use Rattle.cs_apply.specs.Crash.{AppliesInto};
ghost use Rattle.cs_apply_engine.specs.Running.{AlwaysAborts, Leads};
ghost use Rattle.cs_apply_engine.specs.Writes.{IsFileWrite};
ghost use Rattle.cs_session.specs.Undoing.{LeadsBackTo, Undoes, UndoesInto, IsUndoRefusal, IsUndoWrite};

use crate::applying::apply_batch;
use crate::editing::edit_batch;
use crate::undoing::undo_rows;
use cs_apply::{Choice, Conflict, Direction, Noop, Report};
use cs_session_notes::{AttachedTables, SessionFault, are_unwritten, net_changeset};
use cs_store::{Edit, Schema, Store, StoreError};
use cs_value::is_table_name;
use cs_wire::{Changeset, changeset_files_law};
use sqlite::Alter;
use std::alloc::Global;
use std::marker::Model;

/// What was written to the rows of the tables that are attached to it, each since it was attached.
#[derive(Debug, Drop)]
pub struct Session {
    pub(crate) tables: AttachedTables,
}

impl Model for Session {
    ghost use Rattle.std.specs.Prelude.{map};
    ghost use Rattle.std.specs.List.{AllByRecursion};
    ghost use Rattle.cs_session_notes.specs.FirstImages.{Notes, IsNotes};
    ghost use Rattle.cs_session_notes.specs.Views.{attached_of, HasNonePending};

    ghost Value = { Notes };

    ghost view = { λ s. map attached_of s.tables };

    ghost invariant = { λ s. IsNotes (map attached_of s.tables)
        × AllByRecursion HasNonePending s.tables };
}

impl Session {
    /// A session without tables.
    pub fn new(alloc: Global) -> Session
        ensures { result ≡ [] }
    {
        Session {
            tables: AttachedTables::new(alloc),
        }
    }

    /// Whether nothing was written to the attached tables, each since it was attached. It takes no
    /// memory.
    pub fn is_empty(&self) -> bool
        ensures { IsTrue result ↔ All (λ t. t.firsts ≡ []) self.now }
    {
        are_unwritten(self.tables.as_slice())
    }

    /// Whether no table is attached. It takes no memory.
    pub fn has_no_tables(&self) -> bool
        ensures { IsTrue result ↔ (self.now ≡ []) }
    {
        self.tables.as_slice().is_empty()
    }

    /// Has no effect. Its contract says that what a session remembers is well formed: it has no table twice, no key
    /// of a table twice, and each row fits its table.
    pub fn notes_law(&self)
        ensures { IsNotes self.now }
    {
        let _ = &self.tables;
    }

    /// Attaches a table of a store, after the others. Nothing is noted of it yet.
    ///
    /// Refuses with [`AlreadyAttached`](SessionFault::AlreadyAttached), and then with
    /// [`NoTable`](StoreError::NoTable), and with `StoreFault` if the database refuses. A refusal changes nothing.
    pub fn attach<S: Alter>(
        &mut self,
        alloc: Global,
        store: &mut Store<S>,
        name: &str,
    ) -> Result<(), SessionFault>
        ensures attached { HasCleanDisk (state S.Store store.new)
            → OnOk result (Attaches (tables_in (state S.Store store.old).now) name.now self.old self.new) }
        ensures rewound { HasCleanDisk (state S.Store store.new)
            → OnOk result (rewound self.new (tables_in (state S.Store store.old).now)
            ≡ rewound self.old (tables_in (state S.Store store.old).now)
            ++ rows_at (tables_in (state S.Store store.old).now) name.now ∷ []) }
        ensures refused { HasCleanDisk (state S.Store store.new)
            → IfErr result (RefusesAttach (tables_in (state S.Store store.old).now) name.now self.old) }
        ensures shut { HasCleanDisk (state S.Store store.new) → RefusesShut (state S.Store store.old)
            (λ e. ((e ≡ IsThere) × Any (λ t. t.name ≡ name.now) self.old) ⊎ IsResource e) result }
        ensures caused { HasCleanDisk (state S.Store store.new) → IfErr result (IsCaused
            (ReadFails (state S.Store store.old) (state S.Store store.new))) }
        ensures named { IfErr result IsAttachRefusal }
        ensures same { OnErr result (self.new ≡ self.old) }
        ensures read { HasCleanDisk (state S.Store store.new)
            → OnOk result ((state S.Store store.new).now ≡ (state S.Store store.old).now) }
        ensures kept { KeepsStore (state S.Store store.old) (state S.Store store.new) }
    {
        if self.tables.index_of(name).is_some() {
            return Err(SessionFault::AlreadyAttached);
        }
        let Some(schema) = store.schema(alloc, name)? else {
            return Err(SessionFault::Store(StoreError::NoTable));
        };
        if !is_table_name(name) {
            return Err(SessionFault::Store(StoreError::NoTable));
        }
        self.push(alloc, name, schema)
    }

    /// Carries out an edit, and notes the keys that it wrote where their table is attached, with the previous rows,
    /// each at its first write. The edit is committed.
    ///
    /// # Errors
    ///
    /// [`WrongStore`](SessionFault::WrongStore) if the table is attached and the store does not have it as it was,
    /// and then those of [`Store::edit`]. A refusal changes nothing. A crash leaves the tables as before, or as
    /// edited: only the latter once the call is done, and only the former once it is refused and the store is still
    /// open.
    pub fn edit<S: Alter>(
        &mut self,
        alloc: Global,
        store: &mut Store<S>,
        edit: &Edit,
    ) -> Result<(), SessionFault>
        ensures recorded { HasCleanDisk (state S.Store store.new) → OnOk result (Records
            (tables_in (state S.Store store.old).now) edit.now self.old
            (tables_in (state S.Store store.new).now) self.new) }
        ensures rewound { HasCleanDisk (state S.Store store.new) → OnOk result
            (rewound self.new (tables_in (state S.Store store.new).now)
            ≡ rewound self.old (tables_in (state S.Store store.old).now)) }
        ensures refused { HasCleanDisk (state S.Store store.new)
            → IfErr result (RefusesEdit (tables_in (state S.Store store.old).now) edit.now self.old) }
        ensures shut { HasCleanDisk (state S.Store store.new)
            → RefusesShut (state S.Store store.old) IsResource result }
        ensures caused { HasCleanDisk (state S.Store store.new) → IfErr result (IsCaused
            (StoreFails (Writes (IsWriteOf (tables_in (state S.Store store.old).now) edit.now))
            (state S.Store store.old) (state S.Store store.new))) }
        ensures named { IfErr result IsEditRefusal }
        ensures same { OnErr result (self.new ≡ self.old) }
        ensures transacts { Transacts (EditsInto (tables_in (state S.Store store.old).now) edit.now)
            (state S.Store store.old) (state S.Store store.new) result }
    {
        let result = edit_batch(alloc, &mut self.tables, store, edit);
        self.tables.settle(result.is_ok());
        result
    }

    /// Applies the changeset of a file in one transaction, as [`apply`](cs_apply::apply) does, and notes the keys that
    /// were written where their table is attached.
    ///
    /// # Errors
    ///
    /// [`WrongStore`](SessionFault::WrongStore) if the store does not have each table as it was attached, and then
    /// those of `apply`. A refusal changes nothing. A crash leaves the tables as before, or as applied: only the
    /// latter once the call is done, and only the former once it is refused and the store is still open.
    pub fn apply_recorded<S: Alter, H: Fn(&Conflict) -> Choice>(
        &mut self,
        alloc: Global,
        store: &mut Store<S>,
        file: &[u8],
        noop: Noop,
        handler: &H,
    ) -> Result<Report, SessionFault>
        requires { H.IsAlwaysCallable handler.now }
        ensures recorded { HasCleanDisk (state S.Store store.new) → IfOk result (λ report.
            RecordsApply (FnReturnsAt H.Fn handler.now) noop file.now ForwardRun
            (tables_in (state S.Store store.old).now) self.old report
            (tables_in (state S.Store store.new).now) self.new) }
        ensures clean { HasCleanDisk (state S.Store store.new) → IfOk result (λ report. report.conflicts.items ≡ []
            → report.ignored ≡ 0 → Leads file.now (tables_in (state S.Store store.old).now) (tables_in (state S.Store store.new).now)) }
        ensures rewound { HasCleanDisk (state S.Store store.new) → OnOk result
            (rewound self.new (tables_in (state S.Store store.new).now)
            ≡ rewound self.old (tables_in (state S.Store store.old).now)) }
        ensures refused { HasCleanDisk (state S.Store store.new) → IfErr result (RefusesApply
            (FnReturnsAt H.Fn handler.now) noop file.now ForwardRun (tables_in (state S.Store store.old).now)
            self.old) }
        ensures shut { HasCleanDisk (state S.Store store.new)
            → RefusesShut (state S.Store store.old) IsResource result }
        ensures caused { HasCleanDisk (state S.Store store.new) → IfErr result (IsCaused
            (StoreFails (Writes (IsFileWrite ForwardRun file.now)) (state S.Store store.old)
            (state S.Store store.new))) }
        ensures named { IfErr result IsApplyRefusal }
        ensures same { OnErr result (self.new ≡ self.old) }
        ensures transacts { Transacts (AppliesInto (FnReturnsAt H.Fn handler.now) noop file.now ForwardRun (tables_in (state S.Store store.old).now))
            (state S.Store store.old) (state S.Store store.new) result }
    {
        store.tables_law();
        let direction = Direction::Forward;
        let result = apply_batch(
            alloc,
            &mut self.tables,
            store,
            file,
            direction,
            noop,
            handler,
        );
        self.tables.settle(result.is_ok());
        result
    }

    /// Applies the inverse of the changeset of a file in one transaction, as [`revert`](cs_apply::revert) does, and
    /// notes the keys that were written where their table is attached. It aborts at the first conflict.
    ///
    /// # Errors
    ///
    /// [`WrongStore`](SessionFault::WrongStore) if the store does not have each table as it was attached, and then
    /// those of `revert`. A refusal changes nothing. A crash leaves the tables as before, or as reverted: only the
    /// latter once the call is done, and only the former once it is refused and the store is still open.
    pub fn revert<S: Alter>(
        &mut self,
        alloc: Global,
        store: &mut Store<S>,
        file: &[u8],
    ) -> Result<Report, SessionFault>
        ensures recorded { HasCleanDisk (state S.Store store.new) → IfOk result (λ report.
            RecordsApply AlwaysAborts Reported file.now InverseRun (tables_in (state S.Store store.old).now) self.old
            report (tables_in (state S.Store store.new).now) self.new) }
        ensures reverts { HasCleanDisk (state S.Store store.new) → (before : State)
            → Leads file.now before (tables_in (state S.Store store.old).now)
            → MatchResult result (λ report. (report.conflicts.items ≡ [])
            × (tables_in (state S.Store store.new).now ≡ before)) (λ e. (e ≡ NoSuchStore) ⊎ IsResource e) }
        ensures rewound { HasCleanDisk (state S.Store store.new) → OnOk result
            (rewound self.new (tables_in (state S.Store store.new).now)
            ≡ rewound self.old (tables_in (state S.Store store.old).now)) }
        ensures refused { HasCleanDisk (state S.Store store.new) → IfErr result (RefusesApply AlwaysAborts Reported
            file.now InverseRun (tables_in (state S.Store store.old).now) self.old) }
        ensures shut { HasCleanDisk (state S.Store store.new)
            → RefusesShut (state S.Store store.old) IsResource result }
        ensures caused { HasCleanDisk (state S.Store store.new) → IfErr result (IsCaused
            (StoreFails (Writes (IsFileWrite InverseRun file.now)) (state S.Store store.old)
            (state S.Store store.new))) }
        ensures named { IfErr result IsApplyRefusal }
        ensures same { OnErr result (self.new ≡ self.old) }
        ensures transacts { Transacts (AppliesInto AlwaysAborts Reported file.now InverseRun
            (tables_in (state S.Store store.old).now)) (state S.Store store.old) (state S.Store store.new) result }
    {
        changeset_files_law();
        let direction = Direction::Inverse;
        let abort = |_: &Conflict| Choice::Abort;
        let result = apply_batch(
            alloc,
            &mut self.tables,
            store,
            file,
            direction,
            Noop::Report,
            &abort,
        );
        self.tables.settle(result.is_ok());
        result
    }

    /// Returns the net changeset: for each written key the change from its first row to the current one, if these
    /// differ. Tables are in the order in which they were attached, the keys of a table in that of their first write.
    ///
    /// # Errors
    ///
    /// [`WrongStore`](SessionFault::WrongStore) if the store does not have each table as it was attached, and
    /// `StoreFault` if a transaction is open or the database refuses. Nothing changes.
    pub fn changeset<S: Alter>(
        &self,
        alloc: Global,
        store: &mut Store<S>,
    ) -> Result<Changeset, SessionFault>
        ensures made { HasCleanDisk (state S.Store store.new) → IfOk result (λ c. c
            ≡ recorded_changes self.now (tables_in (state S.Store store.old).now)) }
        ensures attached { HasCleanDisk (state S.Store store.new)
            → OnOk result (HasTables (tables_in (state S.Store store.old).now) self.now) }
        ensures leads { HasCleanDisk (state S.Store store.new)
            → IfOk result (LeadsBackTo self.now (tables_in (state S.Store store.old).now)) }
        ensures refused { HasCleanDisk (state S.Store store.new)
            → IfErr result (RefusesChanges (tables_in (state S.Store store.old).now) self.now) }
        ensures shut { HasCleanDisk (state S.Store store.new)
            → RefusesShut (state S.Store store.old) IsResource result }
        ensures caused { HasCleanDisk (state S.Store store.new) → IfErr result (IsCaused
            (StoreFails (Writes (λ _ _. ⊥)) (state S.Store store.old) (state S.Store store.new))) }
        ensures named { IfErr result IsChangesRefusal }
        ensures kept { HasCleanDisk (state S.Store store.new)
            → KeepsContent (state S.Store store.old) (state S.Store store.new) }
        ensures survives { KeepsCrash (state S.Store store.old) (state S.Store store.new) }
    {
        store.tables_law();
        let mut batch = store.begin()?;
        net_changeset(alloc, &mut batch, self.tables.as_slice())
    }

    /// Restores the rows that the attached tables had, by the inverse of the net changeset, in one transaction. What is
    /// noted stays.
    ///
    /// # Errors
    ///
    /// [`WrongStore`](SessionFault::WrongStore) if the store does not have each table as it was attached, and
    /// `StoreFault` if a transaction is open or the database refuses. A refusal changes nothing. A crash leaves the
    /// tables as before, or as undone: only the latter once the call is done, and only the former once it is refused
    /// and the store is still open.
    pub fn undo<S: Alter>(
        &self,
        alloc: Global,
        store: &mut Store<S>,
    ) -> Result<Report, SessionFault>
        ensures undone { HasCleanDisk (state S.Store store.new) → IfOk result (λ report.
            Undoes self.now (tables_in (state S.Store store.old).now) report
            (tables_in (state S.Store store.new).now)) }
        ensures refused { HasCleanDisk (state S.Store store.new)
            → IfErr result (RefusesChanges (tables_in (state S.Store store.old).now) self.now) }
        ensures shut { HasCleanDisk (state S.Store store.new)
            → RefusesShut (state S.Store store.old) IsResource result }
        ensures caused { HasCleanDisk (state S.Store store.new) → IfErr result (IsCaused
            (StoreFails (Writes (IsUndoWrite self.now (tables_in (state S.Store store.old).now)))
            (state S.Store store.old) (state S.Store store.new))) }
        ensures named { IfErr result IsUndoRefusal }
        ensures transacts { Transacts (UndoesInto self.now (tables_in (state S.Store store.old).now))
            (state S.Store store.old) (state S.Store store.new) result }
    {
        store.tables_law();
        store.crash_law();
        let mut batch = store.begin()?;
        let report = undo_rows(alloc, &mut batch, self.tables.as_slice())?;
        batch.commit()?;
        Ok(report)
    }

    /// Appends a table that is not attached.
    fn push(&mut self, alloc: Global, name: &str, schema: Schema) -> Result<(), SessionFault>
        requires named { IsName name.now }
        requires fresh { IsNewTable self.old name.now }
        ensures pushed { OnOk result (self.new ≡ self.old ++ (let t : AttachedTable = record {
          name = name.now;
          schema = schema;
          firsts = [];
        } in t) ∷ []) }
        ensures same { OnErr result (self.new ≡ self.old) }
        ensures refused { IfErr result (λ e. e ≡ OutOfMemory) }
    {
        self.tables.push(alloc, name, schema)?;
        Ok(())
    }
}
