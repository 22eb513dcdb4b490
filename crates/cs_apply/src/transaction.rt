//! Changesets applied in a transaction that goes on.
ghost use Rattle.std.specs.Prelude.{◌≡◌, [], false, IfOk, IfErr, MatchResult};
ghost use Rattle.std.specs.Fn.{FnReturnsAt};
ghost use Rattle.sqlite.specs.State.{HasCleanDisk};
ghost use Rattle.sqlite.specs.Held.{state};
ghost use Rattle.cs_value.specs.State.{State};
ghost use Rattle.cs_store.specs.Failing.{BatchFails, Writes};
ghost use Rattle.cs_store.specs.Store.{tables_in};
ghost use Rattle.cs_store.specs.Within.{Within};
ghost use Rattle.cs_apply_conflict_kinds.specs.declared.conflict.Noop.TheVariants.{Report as Reported};
ghost use Rattle.cs_apply_engine.specs.declared.running.Direction.TheVariants.{Forward as ForwardRun, Inverse as InverseRun};
ghost use Rattle.cs_apply_engine.specs.Running.{AlwaysAborts, Applies, Leads, Refuses, IsCaused, IsNamed, IsResource};
ghost use Rattle.cs_apply_engine.specs.Steps.{IsStoreRefusal};
ghost use Rattle.cs_apply_engine.specs.Writes.{IsFileWrite};
ghost use Rattle.cs_apply.specs.Crash.{AppliesInto};

use crate::store::abort;
use cs_apply_conflict_kinds::{Choice, Noop};
use cs_apply_engine::{ApplyFault, Conflict, Direction, Report, run_in};
use cs_store::Transaction;
use cs_wire::changeset_files_law;
use sqlite::Alter;
use std::alloc::Global;

/// Applies the changeset of a file in a transaction, as [`run_in`] does. Nothing is committed.
///
/// If the report is clean ([`Report::is_clean`]), [`revert_in_transaction`] restores the tables.
///
/// # Errors
///
/// Those of [`run_in`], and `StoreFault` or `NoMemory` if the transaction has ended. After a refusal the transaction
/// shows what it showed before. Or the error is of the store or `NoMemory`, the transaction has ended
/// ([`Transaction::has_ended`]), and the store is as it was when the transaction began.
pub fn apply_in_transaction<S: Alter + Drop, H: Fn(&Conflict) -> Choice>(
    alloc: Global,
    transaction: &mut Transaction<S>,
    file: &[u8],
    noop: Noop,
    handler: &H,
) -> Result<Report, ApplyFault>
    requires { H.IsAlwaysCallable handler.now }
    ensures applied { HasCleanDisk (state S.Store transaction.new) → IfOk result (λ report.
        Applies (FnReturnsAt H.Fn handler.now) noop file.now ForwardRun
        (tables_in (state S.Store transaction.old).now) report (tables_in (state S.Store transaction.new).now)) }
    ensures clean { HasCleanDisk (state S.Store transaction.new) → IfOk result (λ report. report.conflicts.items ≡ []
        → report.ignored ≡ 0 → Leads file.now (tables_in (state S.Store transaction.old).now)
        (tables_in (state S.Store transaction.new).now)) }
    ensures refused { HasCleanDisk (state S.Store transaction.new) → IfErr result
        (Refuses (FnReturnsAt H.Fn handler.now) noop file.now ForwardRun
        (tables_in (state S.Store transaction.old).now)) }
    ensures caused { HasCleanDisk (state S.Store transaction.new) → IfErr result (IsCaused (BatchFails
        (Writes (IsFileWrite ForwardRun file.now)) (state S.Store transaction.old) (state S.Store transaction.new))) }
    ensures named { IfErr result IsNamed }
    ensures over { HasCleanDisk (state S.Store transaction.new) → (state S.Store transaction.old).in_transaction ≡ false
        → IfErr result IsResource }
    ensures within { Within (AppliesInto (FnReturnsAt H.Fn handler.now) noop file.now ForwardRun
        (tables_in (state S.Store transaction.old).now)) IsStoreRefusal
        (state S.Store transaction.old) (state S.Store transaction.new) result }
{
    transaction.store_law();
    call(alloc, transaction, file, Direction::Forward, noop, handler)
}

/// Applies the inverse of the changeset of a file in a transaction, and aborts at the first conflict. Nothing is
/// committed.
///
/// After a clean apply of the file it has no conflict and restores the previous tables. It then fails only if memory or
/// the database refuses.
///
/// # Errors
///
/// Those of [`apply_in_transaction`].
pub fn revert_in_transaction<S: Alter + Drop>(
    alloc: Global,
    transaction: &mut Transaction<S>,
    file: &[u8],
) -> Result<Report, ApplyFault>
    ensures applied { HasCleanDisk (state S.Store transaction.new) → IfOk result (λ report.
        Applies AlwaysAborts Reported file.now InverseRun (tables_in (state S.Store transaction.old).now) report
        (tables_in (state S.Store transaction.new).now)) }
    ensures refused { HasCleanDisk (state S.Store transaction.new) → IfErr result
        (Refuses AlwaysAborts Reported file.now InverseRun (tables_in (state S.Store transaction.old).now)) }
    ensures reverts { HasCleanDisk (state S.Store transaction.new) → (before : State)
        → Leads file.now before (tables_in (state S.Store transaction.old).now)
        → MatchResult result (λ report. (report.conflicts.items ≡ [])
        × (tables_in (state S.Store transaction.new).now ≡ before)) IsResource }
    ensures caused { HasCleanDisk (state S.Store transaction.new) → IfErr result (IsCaused (BatchFails
        (Writes (IsFileWrite InverseRun file.now)) (state S.Store transaction.old) (state S.Store transaction.new))) }
    ensures named { IfErr result IsNamed }
    ensures over { HasCleanDisk (state S.Store transaction.new) → (state S.Store transaction.old).in_transaction ≡ false
        → IfErr result IsResource }
    ensures within { Within (AppliesInto AlwaysAborts Reported file.now InverseRun
        (tables_in (state S.Store transaction.old).now)) IsStoreRefusal
        (state S.Store transaction.old) (state S.Store transaction.new) result }
{
    changeset_files_law();
    let (direction, noop) = (Direction::Inverse, Noop::Report);
    call(alloc, transaction, file, direction, noop, &abort)
}

/// Applies a file, or its inverse, in a transaction, after a mark to which a refusal goes back.
fn call<S: Alter + Drop, H: Fn(&Conflict) -> Choice>(
    alloc: Global,
    transaction: &mut Transaction<S>,
    file: &[u8],
    direction: Direction,
    noop: Noop,
    handler: &H,
) -> Result<Report, ApplyFault>
    requires { H.IsAlwaysCallable handler.now }
    ensures applied { HasCleanDisk (state S.Store transaction.new) → IfOk result (λ report.
        Applies (FnReturnsAt H.Fn handler.now) noop file.now direction
        (tables_in (state S.Store transaction.old).now) report (tables_in (state S.Store transaction.new).now)) }
    ensures refused { HasCleanDisk (state S.Store transaction.new) → IfErr result
        (Refuses (FnReturnsAt H.Fn handler.now) noop file.now direction
        (tables_in (state S.Store transaction.old).now)) }
    ensures caused { HasCleanDisk (state S.Store transaction.new) → IfErr result (IsCaused (BatchFails
        (Writes (IsFileWrite direction file.now)) (state S.Store transaction.old) (state S.Store transaction.new))) }
    ensures named { IfErr result IsNamed }
    ensures over { HasCleanDisk (state S.Store transaction.new) → (state S.Store transaction.old).in_transaction ≡ false
        → IfErr result IsResource }
    ensures within { Within (AppliesInto (FnReturnsAt H.Fn handler.now) noop file.now direction
        (tables_in (state S.Store transaction.old).now)) IsStoreRefusal
        (state S.Store transaction.old) (state S.Store transaction.new) result }
{
    transaction.store_law();
    transaction.mark()?;
    let result = run_in(alloc, transaction, file, direction, noop, handler);
    transaction.end_call(result.is_ok())?;
    result
}
