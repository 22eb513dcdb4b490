//! Applies whose keys are noted.
ghost use Rattle.std.specs.Prelude.{◌≡◌, map, IsTrue, IfOk, IfErr, OnOk, OnErr, is_ok};
ghost use Rattle.std.specs.Fn.{FnReturnsAt};
ghost use Rattle.std.specs.List.{AllByRecursion};
ghost use Rattle.sqlite.specs.State.{HasCleanDisk};
ghost use Rattle.sqlite.specs.Held.{state};
ghost use Rattle.cs_value.specs.State.{IsState};
ghost use Rattle.cs_store.specs.Crash.{CanBegin, IsAtomic, LeavesOnly};
ghost use Rattle.cs_store.specs.Failing.{StoreFails, Writes};
ghost use Rattle.cs_store.specs.Records.{KeepsContent, KeepsOthers};
ghost use Rattle.cs_store.specs.Transacts.{Transacts};
ghost use Rattle.cs_store.specs.Store.{IsAtRest, RefusesShut, tables_in};
ghost use Rattle.cs_apply_engine.specs.Writes.{IsFileWrite};
ghost use Rattle.cs_apply.specs.Crash.{AppliesInto};
ghost use Rattle.cs_session_notes.specs.Changes.{IsCaused, IsResource, is_answered};
ghost use Rattle.cs_session_notes.specs.FirstImages.{IsNotes};
ghost use Rattle.cs_session.specs.Recording.{RecordsApply, RefusesApply, IsApplyRefusal};
ghost use Rattle.cs_session_notes.specs.Views.{attached_of, kept_of, HasNonePending};

use cs_apply::{Choice, Conflict, Direction, Noop, Report, run_in};
use cs_session_notes::{AttachedTables, SessionFault, check_tables};
use cs_store::{Rows, Store};
use sqlite::Alter;
use std::alloc::Global;

/// Applies a file, or its inverse, in a batch of a store, notes the keys that were written, and commits the batch.
/// After a refusal the kept notes are as before.
pub(crate) fn apply_batch<S: Alter, H: Fn(&Conflict) -> Choice>(
    alloc: Global,
    tables: &mut AttachedTables,
    store: &mut Store<S>,
    file: &[u8],
    direction: Direction,
    noop: Noop,
    handler: &H,
) -> Result<Report, SessionFault>
    requires callable { H.IsAlwaysCallable handler.now }
    requires notes { IsNotes (map attached_of tables.old) }
    ensures recorded { HasCleanDisk (state S.Store store.new) → IfOk result (λ report.
        RecordsApply (FnReturnsAt H.Fn handler.now) noop file.now direction (tables_in (state S.Store store.old).now)
        (map attached_of tables.old) report (tables_in (state S.Store store.new).now) (map attached_of tables.new)) }
    ensures well_formed { OnOk result (IsNotes (map attached_of tables.new)) }
    ensures notes { map kept_of tables.new ≡ map kept_of tables.old }
    ensures refused { HasCleanDisk (state S.Store store.new) → IfErr result (RefusesApply (FnReturnsAt H.Fn handler.now)
        noop file.now direction (tables_in (state S.Store store.old).now) (map attached_of tables.old)) }
    ensures shut { HasCleanDisk (state S.Store store.new) → RefusesShut (state S.Store store.old) IsResource result }
    ensures caused { HasCleanDisk (state S.Store store.new) → IfErr result (IsCaused
        (StoreFails (Writes (IsFileWrite direction file.now)) (state S.Store store.old) (state S.Store store.new))) }
    ensures named { IfErr result IsApplyRefusal }
    ensures transacts { Transacts (AppliesInto (FnReturnsAt H.Fn handler.now) noop file.now direction (tables_in (state S.Store store.old).now))
        (state S.Store store.old) (state S.Store store.new) result }
{
    store.tables_law();
    store.crash_law();
    let mut batch = store.begin()?;
    let report = apply_rows(alloc, tables, &mut batch, file, direction, noop, handler)?;
    batch.commit()?;
    Ok(report)
}

/// Applies a file, or its inverse, to rows, and notes the keys that were written. After a refusal the kept notes are as
/// before.
pub(crate) fn apply_rows<B: Rows, H: Fn(&Conflict) -> Choice>(
    alloc: Global,
    tables: &mut AttachedTables,
    rows: &mut B,
    file: &[u8],
    direction: Direction,
    noop: Noop,
    handler: &H,
) -> Result<Report, SessionFault>
    requires callable { H.IsAlwaysCallable handler.now }
    requires notes { IsNotes (map attached_of tables.old) }
    requires state { B.is_honest rows.old → IsState (B.state rows.old) }
    ensures recorded { B.is_honest rows.new → IfOk result (λ report.
        RecordsApply (FnReturnsAt H.Fn handler.now) noop file.now direction (B.state rows.old)
        (map attached_of tables.old) report (B.state rows.new) (map attached_of tables.new)) }
    ensures well_formed { OnOk result (IsNotes (map attached_of tables.new)) }
    ensures notes { map kept_of tables.new ≡ map kept_of tables.old }
    ensures refused { B.is_honest rows.new → IfErr result (RefusesApply (FnReturnsAt H.Fn handler.now)
        noop file.now direction (B.state rows.old) (map attached_of tables.old)) }
    ensures named { IfErr result IsApplyRefusal }
    ensures caused { B.is_honest rows.new → IfErr result (IsCaused
        (B.fails (IsFileWrite direction file.now) rows.old rows.new)) }
    ensures was_honest { B.is_honest rows.new → B.is_honest rows.old }
    ensures kept { B.keeps (IsFileWrite direction file.now) (is_answered result) rows.old rows.new }
{
    check_tables(alloc, rows, tables.as_slice())?;
    let report = run_in(alloc, rows, file, direction, noop, handler)?;
    tables.note_all(alloc, &report.written)?;
    Ok(report)
}
