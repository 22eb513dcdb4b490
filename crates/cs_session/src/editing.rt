//! Edits whose keys are noted.
ghost use Rattle.std.specs.Prelude.{◌≡◌, map, IsTrue, OnOk, OnErr, IfErr, is_ok};
ghost use Rattle.std.specs.List.{AllByRecursion};
ghost use Rattle.sqlite.specs.State.{HasCleanDisk};
ghost use Rattle.sqlite.specs.Held.{state};
ghost use Rattle.cs_value.specs.State.{IsState};
ghost use Rattle.cs_rows.specs.Editing.{IsWriteOf};
ghost use Rattle.cs_store.specs.Crash.{CanBegin, IsAtomic, LeavesOnly};
ghost use Rattle.cs_store.specs.Failing.{StoreFails, Writes};
ghost use Rattle.cs_store.specs.Editing.{EditsInto};
ghost use Rattle.cs_store.specs.Records.{KeepsContent, KeepsOthers};
ghost use Rattle.cs_store.specs.Transacts.{Transacts};
ghost use Rattle.cs_store.specs.Store.{IsAtRest, RefusesShut, tables_in};
ghost use Rattle.cs_session_notes.specs.Changes.{IsCaused, IsResource, is_answered};
ghost use Rattle.cs_session_notes.specs.FirstImages.{IsNotes};
ghost use Rattle.cs_session.specs.Recording.{Records, RefusesEdit, IsEditRefusal, table_of};
ghost use Rattle.cs_session_notes.specs.Views.{attached_of, kept_of, HasNonePending};

use cs_session_notes::{AttachedTables, SessionFault, check_named};
use cs_store::{Edit, Rows, Store, edit_in};
use sqlite::Alter;
use std::alloc::Global;

/// Carries out an edit in a batch of a store, notes the keys that it wrote, and commits the batch. After a refusal the
/// kept notes are as before.
pub(crate) fn edit_batch<S: Alter>(
    alloc: Global,
    tables: &mut AttachedTables,
    store: &mut Store<S>,
    edit: &Edit,
) -> Result<(), SessionFault>
    requires { IsNotes (map attached_of tables.old) }
    ensures recorded { HasCleanDisk (state S.Store store.new)
        → OnOk result (Records (tables_in (state S.Store store.old).now) edit.now (map attached_of tables.old)
        (tables_in (state S.Store store.new).now) (map attached_of tables.new)) }
    ensures well_formed { OnOk result (IsNotes (map attached_of tables.new)) }
    ensures notes { map kept_of tables.new ≡ map kept_of tables.old }
    ensures refused { HasCleanDisk (state S.Store store.new)
        → IfErr result (RefusesEdit (tables_in (state S.Store store.old).now) edit.now (map attached_of tables.old)) }
    ensures shut { HasCleanDisk (state S.Store store.new) → RefusesShut (state S.Store store.old) IsResource result }
    ensures caused { HasCleanDisk (state S.Store store.new) → IfErr result (IsCaused
        (StoreFails (Writes (IsWriteOf (tables_in (state S.Store store.old).now) edit.now))
        (state S.Store store.old) (state S.Store store.new))) }
    ensures named { IfErr result IsEditRefusal }
    ensures transacts { Transacts (EditsInto (tables_in (state S.Store store.old).now) edit.now)
        (state S.Store store.old) (state S.Store store.new) result }
{
    store.tables_law();
    store.crash_law();
    let mut batch = store.begin()?;
    edit_rows(alloc, tables, &mut batch, edit)?;
    batch.commit()?;
    Ok(())
}

/// Carries out an edit on rows, and notes the keys that it wrote. After a refusal the kept notes are as before.
pub(crate) fn edit_rows<B: Rows>(
    alloc: Global,
    tables: &mut AttachedTables,
    rows: &mut B,
    edit: &Edit,
) -> Result<(), SessionFault>
    requires notes { IsNotes (map attached_of tables.old) }
    requires state { B.is_honest rows.old → IsState (B.state rows.old) }
    ensures recorded { B.is_honest rows.new → OnOk result (Records (B.state rows.old) edit.now
        (map attached_of tables.old) (B.state rows.new) (map attached_of tables.new)) }
    ensures well_formed { OnOk result (IsNotes (map attached_of tables.new)) }
    ensures notes { map kept_of tables.new ≡ map kept_of tables.old }
    ensures refused { B.is_honest rows.new
        → IfErr result (RefusesEdit (B.state rows.old) edit.now (map attached_of tables.old)) }
    ensures named { IfErr result IsEditRefusal }
    ensures caused { B.is_honest rows.new → IfErr result (IsCaused
        (B.fails (IsWriteOf (B.state rows.old) edit.now) rows.old rows.new)) }
    ensures was_honest { B.is_honest rows.new → B.is_honest rows.old }
    ensures kept { B.keeps (IsWriteOf (B.state rows.old) edit.now) (is_answered result) rows.old rows.new }
{
    check_named(alloc, rows, tables, edited_table(edit))?;
    let written = edit_in(alloc, rows, edit)?;
    tables.note_all(alloc, &written)
}

/// The name of the table that an edit is of.
fn edited_table(edit: &Edit) -> &str
    ensures { result.now ≡ table_of edit.now }
{
    match edit {
        Edit::Insert { table, .. } => table.as_str(),
        Edit::Update { table, .. } => table.as_str(),
        Edit::Delete { table, .. } => table.as_str(),
    }
}
