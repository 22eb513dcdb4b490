//! What holds of all runs of a history. A law is a function without effect: its contract states the law, and a caller
//! that needs it calls it.
ghost use Rattle.cs_history.specs.Runs.{BeginsSound, ForgetsSound, MovesSound, RunsSound, SameTables, ThereAndBack, UndoRestores, RedoRestores};

use cs_wire::changeset_files_law;

/// Has no effect. Its contract says that a history stays sound over any run of its calls, if nothing else writes the
/// tables: to revert the actions that are done, the last one first, meets no conflict and leads to the tables of the
/// beginning, and to apply those that are undone, the next one first, meets none. If actions are forgotten, the
/// beginning is where these led.
///
/// `empty`: a history without actions is sound. `runs`: a run keeps it sound. `moves`: an undo of it meets no
/// conflict, nor does a redo. `forgets`: what a forgetting makes the beginning.
/// `same`: the actions that are done say what the tables are.
pub fn history_law()
    ensures empty { BeginsSound }
    ensures runs { RunsSound }
    ensures moves { MovesSound }
    ensures forgets { ForgetsSound }
    ensures same { SameTables }
{
    changeset_files_law();
}

/// Has no effect. Its contract says what an undo and a redo restore: the tables but that of the history, and which
/// actions are done.
///
/// `undo`: after an action and its undo, all is as before the action, which is the only one that is undone. `redo`:
/// after an undo and a redo, all is as before the undo. `back`: so many undos and as many redos restore all.
pub fn restores_law()
    ensures undo { UndoRestores }
    ensures redo { RedoRestores }
    ensures back { ThereAndBack }
{}
