//! The rows from before, restored.
ghost use Rattle.std.specs.Prelude.{◌≡◌, map, IfOk, IfErr};
ghost use Rattle.cs_value.specs.State.{IsState};
ghost use Rattle.cs_session_notes.specs.FirstImages.{IsNotes};
ghost use Rattle.cs_session_notes.specs.Changes.{RefusesChanges, IsCaused, is_answered};
ghost use Rattle.cs_session.specs.Undoing.{Undoes, IsUndoRefusal, IsUndoWrite};
ghost use Rattle.cs_session_notes.specs.Views.{attached_of};

use cs_apply::{Choice, Direction, Report, run_changeset_in};
use cs_session_notes::{Attached, SessionFault, net_changeset};
use cs_store::Rows;
use cs_wire::changeset_files_law;
use std::alloc::Global;

/// Applies the inverse of the net changeset of tables that are attached.
pub(crate) fn undo_rows<B: Rows>(
    alloc: Global,
    rows: &mut B,
    tables: &[Attached],
) -> Result<Report, SessionFault>
    requires notes { IsNotes (map attached_of tables.now) }
    requires state { B.is_honest rows.old → IsState (B.state rows.old) }
    ensures undone { B.is_honest rows.new → IfOk result (λ report.
        Undoes (map attached_of tables.now) (B.state rows.old) report (B.state rows.new)) }
    ensures refused { B.is_honest rows.new
        → IfErr result (RefusesChanges (B.state rows.old) (map attached_of tables.now)) }
    ensures named { IfErr result IsUndoRefusal }
    ensures caused { B.is_honest rows.new → IfErr result (IsCaused (B.fails
        (IsUndoWrite (map attached_of tables.now) (B.state rows.old)) rows.old rows.new)) }
    ensures was_honest { B.is_honest rows.new → B.is_honest rows.old }
    ensures kept { B.keeps (IsUndoWrite (map attached_of tables.now) (B.state rows.old))
        (is_answered result) rows.old rows.new }
{
    changeset_files_law();
    let changeset = net_changeset(alloc, rows, tables)?;
    Ok(run_changeset_in(
        alloc,
        rows,
        &changeset,
        Direction::Inverse,
        &|_| Choice::Abort,
    )?)
}
