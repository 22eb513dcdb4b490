//! Calls of a session in a transaction that goes on.
ghost use Rattle.std.specs.Prelude.{◌≡◌, ◌⊎◌, [], false, map, OnOk, OnErr, IfOk, IfErr, MatchResult};
ghost use Rattle.std.specs.Fn.{FnReturnsAt};
ghost use Rattle.sqlite.specs.State.{HasCleanDisk};
ghost use Rattle.sqlite.specs.Held.{state};
ghost use Rattle.cs_value.specs.State.{State};
ghost use Rattle.cs_rows.specs.Editing.{EditsInto, IsWriteOf};
ghost use Rattle.cs_store.specs.Failing.{BatchFails, Writes};
ghost use Rattle.cs_store.specs.Store.{tables_in};
ghost use Rattle.cs_store.specs.Within.{Within};
ghost use Rattle.cs_apply_conflict_kinds.specs.declared.conflict.Noop.TheVariants.{Report as Reported};
ghost use Rattle.cs_apply_engine.specs.declared.running.Direction.TheVariants.{Forward as ForwardRun, Inverse as InverseRun};
ghost use Rattle.cs_apply_engine.specs.Running.{AlwaysAborts, Leads};
ghost use Rattle.cs_apply_engine.specs.Writes.{IsFileWrite};
ghost use Rattle.cs_apply.specs.Crash.{AppliesInto};
ghost use Rattle.cs_session_notes.specs.declared.fault.SessionFault.TheVariants.{WrongStore as NoSuchStore};
ghost use Rattle.cs_session_notes.specs.Changes.{HasTables, IsCaused, IsChangesRefusal, IsResource, IsRowsRefusal, RefusesChanges};
ghost use Rattle.cs_session_notes.specs.FirstImages.{IsNotes, rewound, recorded_changes};
ghost use Rattle.cs_session_notes.specs.Views.{attached_of, kept_of};
ghost use Rattle.cs_session.specs.Recording.{Records, RefusesEdit, IsEditRefusal, RecordsApply, RefusesApply, IsApplyRefusal};
ghost use Rattle.cs_session.specs.Undoing.{IsUndoRefusal, IsUndoWrite, LeadsBackTo, Undoes, UndoesInto};

use crate::applying::apply_rows;
use crate::editing::edit_rows;
use crate::session::Session;
use crate::undoing::undo_rows;
use cs_apply::{Choice, Conflict, Direction, Noop, Report};
use cs_session_notes::{AttachedTables, SessionFault, net_changeset};
use cs_store::{Edit, Transaction};
use cs_wire::{Changeset, changeset_files_law};
use sqlite::Alter;
use std::alloc::Global;

impl Session {
    /// Carries out an edit in a transaction, as [`Transaction::edit`] does, and notes the keys that it wrote where
    /// their table is attached. Nothing is committed.
    ///
    /// # Errors
    ///
    /// `StoreFault` or `NoMemory` if the transaction has ended. Otherwise [`WrongStore`](SessionFault::WrongStore) if
    /// the table is attached and the transaction does not show it as it was attached, and then those of
    /// [`Transaction::edit`]. A refusal notes nothing. After it the transaction shows what it showed before. Or the
    /// error is `StoreFault`, `NoMemory` or `DamagedStore`, the transaction has ended ([`Transaction::has_ended`]), and
    /// the store is as it was when the transaction began.
    pub fn edit_in_transaction<S: Alter + Drop>(
        &mut self,
        alloc: Global,
        transaction: &mut Transaction<S>,
        edit: &Edit,
    ) -> Result<(), SessionFault>
        ensures recorded { HasCleanDisk (state S.Store transaction.new) → OnOk result (Records
            (tables_in (state S.Store transaction.old).now) edit.now self.old
            (tables_in (state S.Store transaction.new).now) self.new) }
        ensures rewound { HasCleanDisk (state S.Store transaction.new) → OnOk result
            (rewound self.new (tables_in (state S.Store transaction.new).now)
            ≡ rewound self.old (tables_in (state S.Store transaction.old).now)) }
        ensures refused { HasCleanDisk (state S.Store transaction.new) → IfErr result (RefusesEdit
            (tables_in (state S.Store transaction.old).now) edit.now self.old) }
        ensures caused { HasCleanDisk (state S.Store transaction.new) → IfErr result (IsCaused (BatchFails
            (Writes (IsWriteOf (tables_in (state S.Store transaction.old).now) edit.now))
            (state S.Store transaction.old) (state S.Store transaction.new))) }
        ensures named { IfErr result IsEditRefusal }
        ensures over { HasCleanDisk (state S.Store transaction.new)
            → (state S.Store transaction.old).in_transaction ≡ false → IfErr result IsResource }
        ensures same { OnErr result (self.new ≡ self.old) }
        ensures within { Within (EditsInto (tables_in (state S.Store transaction.old).now) edit.now) IsRowsRefusal
            (state S.Store transaction.old) (state S.Store transaction.new) result }
    {
        let result = edit_call(alloc, &mut self.tables, transaction, edit);
        self.tables.settle(result.is_ok());
        result
    }

    /// Applies the changeset of a file in a transaction, as [`apply_in_transaction`](cs_apply::apply_in_transaction)
    /// does, and notes the keys that were written where their table is attached. Nothing is committed.
    ///
    /// # Errors
    ///
    /// `StoreFault` or `NoMemory` if the transaction has ended. Otherwise [`WrongStore`](SessionFault::WrongStore) if
    /// the transaction does not show each table as it was attached, and then those of `apply_in_transaction`. A refusal
    /// leaves what one of [`edit_in_transaction`](Session::edit_in_transaction) leaves.
    pub fn apply_in_transaction<S: Alter + Drop, H: Fn(&Conflict) -> Choice>(
        &mut self,
        alloc: Global,
        transaction: &mut Transaction<S>,
        file: &[u8],
        noop: Noop,
        handler: &H,
    ) -> Result<Report, SessionFault>
        requires { H.IsAlwaysCallable handler.now }
        ensures recorded { HasCleanDisk (state S.Store transaction.new) → IfOk result (λ report.
            RecordsApply (FnReturnsAt H.Fn handler.now) noop file.now ForwardRun
            (tables_in (state S.Store transaction.old).now) self.old report
            (tables_in (state S.Store transaction.new).now) self.new) }
        ensures clean { HasCleanDisk (state S.Store transaction.new) → IfOk result (λ report.
            report.conflicts.items ≡ [] → report.ignored ≡ 0
            → Leads file.now (tables_in (state S.Store transaction.old).now)
            (tables_in (state S.Store transaction.new).now)) }
        ensures rewound { HasCleanDisk (state S.Store transaction.new) → OnOk result
            (rewound self.new (tables_in (state S.Store transaction.new).now)
            ≡ rewound self.old (tables_in (state S.Store transaction.old).now)) }
        ensures refused { HasCleanDisk (state S.Store transaction.new) → IfErr result
            (RefusesApply (FnReturnsAt H.Fn handler.now) noop file.now ForwardRun
            (tables_in (state S.Store transaction.old).now) self.old) }
        ensures caused { HasCleanDisk (state S.Store transaction.new) → IfErr result (IsCaused (BatchFails
            (Writes (IsFileWrite ForwardRun file.now)) (state S.Store transaction.old)
            (state S.Store transaction.new))) }
        ensures named { IfErr result IsApplyRefusal }
        ensures over { HasCleanDisk (state S.Store transaction.new)
            → (state S.Store transaction.old).in_transaction ≡ false → IfErr result IsResource }
        ensures same { OnErr result (self.new ≡ self.old) }
        ensures within { Within (AppliesInto (FnReturnsAt H.Fn handler.now) noop file.now ForwardRun
            (tables_in (state S.Store transaction.old).now)) IsRowsRefusal
            (state S.Store transaction.old) (state S.Store transaction.new) result }
    {
        transaction.store_law();
        let direction = Direction::Forward;
        let result = apply_call(
            alloc,
            &mut self.tables,
            transaction,
            file,
            direction,
            noop,
            handler,
        );
        self.tables.settle(result.is_ok());
        result
    }

    /// Applies the inverse of the changeset of a file in a transaction, as
    /// [`revert_in_transaction`](cs_apply::revert_in_transaction) does, and notes the keys that were written where
    /// their table is attached. It aborts at the first conflict. Nothing is committed.
    ///
    /// # Errors
    ///
    /// Those of [`apply_in_transaction`](Session::apply_in_transaction).
    pub fn revert_in_transaction<S: Alter + Drop>(
        &mut self,
        alloc: Global,
        transaction: &mut Transaction<S>,
        file: &[u8],
    ) -> Result<Report, SessionFault>
        ensures recorded { HasCleanDisk (state S.Store transaction.new) → IfOk result (λ report.
            RecordsApply AlwaysAborts Reported file.now InverseRun
            (tables_in (state S.Store transaction.old).now) self.old report
            (tables_in (state S.Store transaction.new).now) self.new) }
        ensures reverts { HasCleanDisk (state S.Store transaction.new) → (before : State)
            → Leads file.now before (tables_in (state S.Store transaction.old).now)
            → MatchResult result (λ report. (report.conflicts.items ≡ [])
            × (tables_in (state S.Store transaction.new).now ≡ before)) (λ e. (e ≡ NoSuchStore) ⊎ IsResource e) }
        ensures rewound { HasCleanDisk (state S.Store transaction.new) → OnOk result
            (rewound self.new (tables_in (state S.Store transaction.new).now)
            ≡ rewound self.old (tables_in (state S.Store transaction.old).now)) }
        ensures refused { HasCleanDisk (state S.Store transaction.new) → IfErr result (RefusesApply AlwaysAborts
            Reported file.now InverseRun (tables_in (state S.Store transaction.old).now) self.old) }
        ensures caused { HasCleanDisk (state S.Store transaction.new) → IfErr result (IsCaused (BatchFails
            (Writes (IsFileWrite InverseRun file.now)) (state S.Store transaction.old)
            (state S.Store transaction.new))) }
        ensures named { IfErr result IsApplyRefusal }
        ensures over { HasCleanDisk (state S.Store transaction.new)
            → (state S.Store transaction.old).in_transaction ≡ false → IfErr result IsResource }
        ensures same { OnErr result (self.new ≡ self.old) }
        ensures within { Within (AppliesInto AlwaysAborts Reported file.now InverseRun
            (tables_in (state S.Store transaction.old).now)) IsRowsRefusal
            (state S.Store transaction.old) (state S.Store transaction.new) result }
    {
        changeset_files_law();
        let (direction, noop) = (Direction::Inverse, Noop::Report);
        let abort = |_: &Conflict| Choice::Abort;
        let result = apply_call(
            alloc,
            &mut self.tables,
            transaction,
            file,
            direction,
            noop,
            &abort,
        );
        self.tables.settle(result.is_ok());
        result
    }

    /// Returns the net changeset, as [`changeset`](Session::changeset) does, from the rows that a transaction shows.
    ///
    /// # Errors
    ///
    /// `StoreFault` or `NoMemory` if the transaction has ended. Otherwise [`WrongStore`](SessionFault::WrongStore) if
    /// the transaction does not show each table as it was attached; that does not end it. `StoreFault`, `NoMemory` or
    /// `DamagedStore` if the database refuses, memory runs out or a row cannot be of its table. After a refusal the
    /// transaction shows what it showed before, or it has ended.
    pub fn changeset_in_transaction<S: Alter + Drop>(
        &self,
        alloc: Global,
        transaction: &mut Transaction<S>,
    ) -> Result<Changeset, SessionFault>
        ensures made { HasCleanDisk (state S.Store transaction.new) → IfOk result (λ c. c
            ≡ recorded_changes self.now (tables_in (state S.Store transaction.old).now)) }
        ensures attached { HasCleanDisk (state S.Store transaction.new)
            → OnOk result (HasTables (tables_in (state S.Store transaction.old).now) self.now) }
        ensures leads { HasCleanDisk (state S.Store transaction.new)
            → IfOk result (LeadsBackTo self.now (tables_in (state S.Store transaction.old).now)) }
        ensures same { HasCleanDisk (state S.Store transaction.new) → OnOk result ((state S.Store transaction.new).now
            ≡ (state S.Store transaction.old).now) }
        ensures refused { HasCleanDisk (state S.Store transaction.new)
            → IfErr result (RefusesChanges (tables_in (state S.Store transaction.old).now) self.now) }
        ensures caused { HasCleanDisk (state S.Store transaction.new) → IfErr result (IsCaused (BatchFails
            (Writes (λ _ _. ⊥)) (state S.Store transaction.old) (state S.Store transaction.new))) }
        ensures named { IfErr result IsChangesRefusal }
        ensures over { HasCleanDisk (state S.Store transaction.new)
            → (state S.Store transaction.old).in_transaction ≡ false → IfErr result IsResource }
        ensures within { Within (λ left. left ≡ tables_in (state S.Store transaction.old).now) IsRowsRefusal
            (state S.Store transaction.old) (state S.Store transaction.new) result }
    {
        transaction.store_law();
        transaction.mark()?;
        let result = net_changeset(alloc, transaction, self.tables.as_slice());
        transaction.end_call(result.is_ok())?;
        result
    }

    /// Restores the rows that the attached tables had, as [`undo`](Session::undo) does, in a transaction. What is noted
    /// stays. Nothing is committed.
    ///
    /// # Errors
    ///
    /// `StoreFault` or `NoMemory` if the transaction has ended. Otherwise [`WrongStore`](SessionFault::WrongStore) if
    /// the transaction does not show each table as it was attached, and `StoreFault`, `NoMemory` or `DamagedStore` if
    /// the database refuses, memory runs out or a row cannot be of its table. `Wider`, `Abort` and `Misuse` come only if
    /// the disk does not return what was written. A refusal leaves what one of
    /// [`edit_in_transaction`](Session::edit_in_transaction) leaves.
    pub fn undo_in_transaction<S: Alter + Drop>(
        &self,
        alloc: Global,
        transaction: &mut Transaction<S>,
    ) -> Result<Report, SessionFault>
        ensures undone { HasCleanDisk (state S.Store transaction.new) → IfOk result (λ report.
            Undoes self.now (tables_in (state S.Store transaction.old).now) report
            (tables_in (state S.Store transaction.new).now)) }
        ensures refused { HasCleanDisk (state S.Store transaction.new)
            → IfErr result (RefusesChanges (tables_in (state S.Store transaction.old).now) self.now) }
        ensures caused { HasCleanDisk (state S.Store transaction.new) → IfErr result (IsCaused (BatchFails
            (Writes (IsUndoWrite self.now (tables_in (state S.Store transaction.old).now)))
            (state S.Store transaction.old) (state S.Store transaction.new))) }
        ensures named { IfErr result IsUndoRefusal }
        ensures over { HasCleanDisk (state S.Store transaction.new)
            → (state S.Store transaction.old).in_transaction ≡ false → IfErr result IsResource }
        ensures within { Within (UndoesInto self.now (tables_in (state S.Store transaction.old).now)) IsRowsRefusal
            (state S.Store transaction.old) (state S.Store transaction.new) result }
    {
        transaction.store_law();
        transaction.mark()?;
        let result = undo_rows(alloc, transaction, self.tables.as_slice());
        transaction.end_call(result.is_ok())?;
        result
    }
}

/// Carries out an edit in a transaction, after a mark to which a refusal goes back, and notes the keys that it wrote.
/// After a refusal the kept notes are as before.
fn edit_call<S: Alter + Drop>(
    alloc: Global,
    tables: &mut AttachedTables,
    transaction: &mut Transaction<S>,
    edit: &Edit,
) -> Result<(), SessionFault>
    requires { IsNotes (map attached_of tables.old) }
    ensures recorded { HasCleanDisk (state S.Store transaction.new) → OnOk result (Records
        (tables_in (state S.Store transaction.old).now) edit.now (map attached_of tables.old)
        (tables_in (state S.Store transaction.new).now) (map attached_of tables.new)) }
    ensures well_formed { OnOk result (IsNotes (map attached_of tables.new)) }
    ensures notes { map kept_of tables.new ≡ map kept_of tables.old }
    ensures refused { HasCleanDisk (state S.Store transaction.new) → IfErr result (RefusesEdit
        (tables_in (state S.Store transaction.old).now) edit.now (map attached_of tables.old)) }
    ensures caused { HasCleanDisk (state S.Store transaction.new) → IfErr result (IsCaused (BatchFails
        (Writes (IsWriteOf (tables_in (state S.Store transaction.old).now) edit.now))
        (state S.Store transaction.old) (state S.Store transaction.new))) }
    ensures named { IfErr result IsEditRefusal }
    ensures over { HasCleanDisk (state S.Store transaction.new)
        → (state S.Store transaction.old).in_transaction ≡ false → IfErr result IsResource }
    ensures within { Within (EditsInto (tables_in (state S.Store transaction.old).now) edit.now) IsRowsRefusal
        (state S.Store transaction.old) (state S.Store transaction.new) result }
{
    transaction.store_law();
    transaction.mark()?;
    let result = edit_rows(alloc, tables, transaction, edit);
    transaction.end_call(result.is_ok())?;
    result
}

/// Applies a file, or its inverse, in a transaction, after a mark to which a refusal goes back, and notes the keys that
/// were written. After a refusal the kept notes are as before.
fn apply_call<S: Alter + Drop, H: Fn(&Conflict) -> Choice>(
    alloc: Global,
    tables: &mut AttachedTables,
    transaction: &mut Transaction<S>,
    file: &[u8],
    direction: Direction,
    noop: Noop,
    handler: &H,
) -> Result<Report, SessionFault>
    requires callable { H.IsAlwaysCallable handler.now }
    requires notes { IsNotes (map attached_of tables.old) }
    ensures recorded { HasCleanDisk (state S.Store transaction.new) → IfOk result (λ report.
        RecordsApply (FnReturnsAt H.Fn handler.now) noop file.now direction
        (tables_in (state S.Store transaction.old).now) (map attached_of tables.old) report
        (tables_in (state S.Store transaction.new).now) (map attached_of tables.new)) }
    ensures well_formed { OnOk result (IsNotes (map attached_of tables.new)) }
    ensures notes { map kept_of tables.new ≡ map kept_of tables.old }
    ensures refused { HasCleanDisk (state S.Store transaction.new) → IfErr result (RefusesApply
        (FnReturnsAt H.Fn handler.now) noop file.now direction (tables_in (state S.Store transaction.old).now)
        (map attached_of tables.old)) }
    ensures caused { HasCleanDisk (state S.Store transaction.new) → IfErr result (IsCaused (BatchFails
        (Writes (IsFileWrite direction file.now)) (state S.Store transaction.old) (state S.Store transaction.new))) }
    ensures named { IfErr result IsApplyRefusal }
    ensures over { HasCleanDisk (state S.Store transaction.new)
        → (state S.Store transaction.old).in_transaction ≡ false → IfErr result IsResource }
    ensures within { Within (AppliesInto (FnReturnsAt H.Fn handler.now) noop file.now direction
        (tables_in (state S.Store transaction.old).now)) IsRowsRefusal
        (state S.Store transaction.old) (state S.Store transaction.new) result }
{
    transaction.store_law();
    transaction.mark()?;
    let result = apply_rows(alloc, tables, transaction, file, direction, noop, handler);
    transaction.end_call(result.is_ok())?;
    result
}
