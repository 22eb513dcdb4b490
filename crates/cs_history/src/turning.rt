//! Actions that are undone, and done again.
ghost use Rattle.std.specs.Prelude.{◌≡◌, [], true, false, IfErr, IsTrue};
ghost use Rattle.sqlite.specs.State.{HasCleanDisk};
ghost use Rattle.sqlite.specs.Held.{state};
ghost use Rattle.cs_value.specs.State.{State, rows_at};
ghost use Rattle.cs_apply_engine.specs.Running.{Leads};
ghost use Rattle.cs_store.specs.Store.{tables_in};
ghost use Rattle.cs_history.specs.Actions.{CanMove, Moves, Runs};
ghost use Rattle.cs_history.specs.Carrying.{Works};
ghost use Rattle.cs_history.specs.Faults.{IsOther, IsTold};
ghost use Rattle.cs_history.specs.Moving.{Turning};
ghost use Rattle.cs_history.specs.Stored.{IsHistory, actions_of};

use crate::fault::HistoryFault;
use crate::rows::{changeset_of, first_row, move_row};
use crate::table::check_table;
use cs_apply::{Choice, Conflict, Noop, apply_in_transaction, revert_in_transaction};
use cs_store::Transaction;
use cs_wire::changeset_files_law;
use sqlite::Alter;
use std::alloc::Global;

/// Undoes the last action that is done, or else does the one again that was undone last: reverts or applies its
/// changeset, and moves its row to the other side.
pub(crate) fn turn<S: Alter + Drop>(
    alloc: Global,
    transaction: &mut Transaction<S>,
    name: &str,
    done: bool,
) -> Result<(), HistoryFault>
    ensures works { Works (λ _ old new. Moves done name.now old new) (state S.Store transaction.old)
        (state S.Store transaction.new) result }
    ensures refused { HasCleanDisk (state S.Store transaction.new)
        → IsTrue (state S.Store transaction.old).in_transaction → IfErr result (IsTold
        (actions_of done (rows_at (tables_in (state S.Store transaction.old).now) name.now) ≡ [])
        (¬ CanMove done name.now (tables_in (state S.Store transaction.old).now))
        (¬ IsHistory (tables_in (state S.Store transaction.old).now) name.now)) }
{
    transaction.store_law();
    check_table(alloc, transaction, name)?;
    let Some(row) = first_row(alloc, transaction, name, done)? else {
        return Err(HistoryFault::NothingLeft);
    };
    run_changeset(alloc, transaction, changeset_of(&row)?, done)?;
    move_row(alloc, transaction, name, &row, done)
}

/// Reverts a changeset, or else applies it.
fn run_changeset<S: Alter + Drop>(
    alloc: Global,
    transaction: &mut Transaction<S>,
    file: &[u8],
    reverts: bool,
) -> Result<(), HistoryFault>
    ensures works { Works (λ _ old new. Runs reverts file.now old new × ((reached : State)
        → Turning reverts file.now old reached → new ≡ reached)) (state S.Store transaction.old)
        (state S.Store transaction.new) result }
    ensures named { IfErr result (IsTold ⊥ (Unit {0}) ⊥) }
    ensures clean { HasCleanDisk (state S.Store transaction.new) → (reached : State)
        → Turning reverts file.now (tables_in (state S.Store transaction.old).now) reached → IfErr result IsOther }
{
    if reverts {
        revert_file(alloc, transaction, file)
    } else {
        apply_file(alloc, transaction, file)
    }
}

fn revert_file<S: Alter + Drop>(
    alloc: Global,
    transaction: &mut Transaction<S>,
    file: &[u8],
) -> Result<(), HistoryFault>
    ensures works { Works (λ _ old new. Runs true file.now old new × ((reached : State)
        → Leads file.now reached old → new ≡ reached)) (state S.Store transaction.old)
        (state S.Store transaction.new) result }
    ensures named { IfErr result (IsTold ⊥ (Unit {0}) ⊥) }
    ensures clean { HasCleanDisk (state S.Store transaction.new) → (reached : State)
        → Leads file.now reached (tables_in (state S.Store transaction.old).now) → IfErr result IsOther }
{
    revert_in_transaction(alloc, transaction, file)?;
    Ok(())
}

fn apply_file<S: Alter + Drop>(
    alloc: Global,
    transaction: &mut Transaction<S>,
    file: &[u8],
) -> Result<(), HistoryFault>
    ensures works { Works (λ _ old new. Runs false file.now old new × ((reached : State)
        → Leads file.now old reached → new ≡ reached)) (state S.Store transaction.old)
        (state S.Store transaction.new) result }
    ensures named { IfErr result (IsTold ⊥ (Unit {0}) ⊥) }
    ensures clean { HasCleanDisk (state S.Store transaction.new) → (reached : State)
        → Leads file.now (tables_in (state S.Store transaction.old).now) reached → IfErr result IsOther }
{
    changeset_files_law();
    let abort = |_: &Conflict| Choice::Abort;
    apply_in_transaction(alloc, transaction, file, Noop::Report, &abort)?;
    Ok(())
}
