//! Changesets applied to stores.
ghost use Rattle.std.specs.Prelude.{◌≡◌, [], IsTrue, IfOk, IfErr, OnOk, OnErr, MatchResult};
ghost use Rattle.std.specs.Fn.{FnReturnsAt};
ghost use Rattle.sqlite.specs.State.{HasCleanDisk};
ghost use Rattle.sqlite.specs.Held.{state};
ghost use Rattle.cs_value.specs.State.{State};
ghost use Rattle.cs_store.specs.Crash.{CanBegin, IsAtomic, LeavesOnly};
ghost use Rattle.cs_store.specs.Failing.{StoreFails, Writes};
ghost use Rattle.cs_store.specs.Records.{KeepsContent, KeepsOthers};
ghost use Rattle.cs_store.specs.Transacts.{Transacts};
ghost use Rattle.cs_store.specs.Store.{IsAtRest, RefusesShut, tables_in};
ghost use Rattle.cs_apply_conflict_kinds.specs.declared.conflict.Choice.TheVariants.{Abort as AbortChoice};
ghost use Rattle.cs_apply_conflict_kinds.specs.declared.conflict.Noop.TheVariants.{Report as Reported};
ghost use Rattle.cs_apply_engine.specs.declared.running.Direction.TheVariants.{Forward as ForwardRun, Inverse as InverseRun};
ghost use Rattle.cs_apply.specs.Crash.{AppliesInto};
ghost use Rattle.cs_apply_engine.specs.Tally.{Tallies, is_listed};
ghost use Rattle.cs_apply_engine.specs.Running.{Applies, AppliesCounted, AppliesTallied, Refuses, AlwaysAborts, Leads};
ghost use Rattle.cs_apply_engine.specs.Running.{IsCaused, IsNamed, IsResource};
ghost use Rattle.cs_apply_engine.specs.Writes.{IsFileWrite};

use cs_apply_conflict_kinds::{Choice, Noop};
use cs_apply_engine::{
    ApplyFault, Conflict, Direction, Report, Summary, Tally, Writings, tally_in,
};
use cs_store::Store;
use cs_wire::changeset_files_law;
use sqlite::Alter;
use std::alloc::Global;

/// Applies the changeset of a file to a store in one transaction, as [`run_in`](crate::run_in) does.
///
/// If the report is clean ([`Report::is_clean`]), [`revert`] restores the tables. A crash leaves the previous tables or
/// those of the apply: only the latter once the call has returned Ok, and only the former if it has failed and the
/// store is still open.
///
/// # Errors
///
/// Those of [`run_in`](crate::run_in), and `StoreFault` if a transaction is open. An error changes nothing.
pub fn apply<S: Alter, H: Fn(&Conflict) -> Choice>(
    alloc: Global,
    store: &mut Store<S>,
    file: &[u8],
    noop: Noop,
    handler: &H,
) -> Result<Report, ApplyFault>
    requires { H.IsAlwaysCallable handler.now }
    ensures applied { HasCleanDisk (state S.Store store.new) → IfOk result (λ report.
        Applies (FnReturnsAt H.Fn handler.now) noop file.now ForwardRun (tables_in (state S.Store store.old).now) report
        (tables_in (state S.Store store.new).now)) }
    ensures clean { HasCleanDisk (state S.Store store.new) → IfOk result (λ report. report.conflicts.items ≡ []
        → report.ignored ≡ 0 → Leads file.now (tables_in (state S.Store store.old).now) (tables_in (state S.Store store.new).now)) }
    ensures refused { HasCleanDisk (state S.Store store.new) → IfErr result
        (Refuses (FnReturnsAt H.Fn handler.now) noop file.now ForwardRun (tables_in (state S.Store store.old).now)) }
    ensures shut { HasCleanDisk (state S.Store store.new) → RefusesShut (state S.Store store.old) IsResource result }
    ensures caused { HasCleanDisk (state S.Store store.new) → IfErr result (IsCaused (StoreFails
        (Writes (IsFileWrite ForwardRun file.now)) (state S.Store store.old) (state S.Store store.new))) }
    ensures named { IfErr result IsNamed }
    ensures transacts { Transacts (AppliesInto (FnReturnsAt H.Fn handler.now) noop file.now ForwardRun (tables_in (state S.Store store.old).now))
        (state S.Store store.old) (state S.Store store.new) result }
{
    store.tables_law();
    let written = Writings::Listed(Vec::new(alloc));
    let tally = run(
        alloc,
        store,
        file,
        Direction::Forward,
        noop,
        handler,
        written,
    )?;
    Ok(tally.into_report())
}

/// Applies the changeset of a file to a store in one transaction, as [`apply`] does, but only counts what it writes.
///
/// # Errors
///
/// Those of [`run_in`](crate::run_in), and `StoreFault` if a transaction is open. An error changes nothing.
pub fn apply_counted<S: Alter, H: Fn(&Conflict) -> Choice>(
    alloc: Global,
    store: &mut Store<S>,
    file: &[u8],
    noop: Noop,
    handler: &H,
) -> Result<Summary, ApplyFault>
    requires { H.IsAlwaysCallable handler.now }
    ensures applied { HasCleanDisk (state S.Store store.new) → IfOk result (λ summary.
        AppliesCounted (FnReturnsAt H.Fn handler.now) noop file.now ForwardRun (tables_in (state S.Store store.old).now)
        summary (tables_in (state S.Store store.new).now)) }
    ensures clean { HasCleanDisk (state S.Store store.new) → IfOk result (λ summary. summary.conflicts.items ≡ []
        → summary.ignored ≡ 0 → Leads file.now (tables_in (state S.Store store.old).now)
        (tables_in (state S.Store store.new).now)) }
    ensures refused { HasCleanDisk (state S.Store store.new) → IfErr result
        (Refuses (FnReturnsAt H.Fn handler.now) noop file.now ForwardRun (tables_in (state S.Store store.old).now)) }
    ensures shut { HasCleanDisk (state S.Store store.new) → RefusesShut (state S.Store store.old) IsResource result }
    ensures caused { HasCleanDisk (state S.Store store.new) → IfErr result (IsCaused (StoreFails
        (Writes (IsFileWrite ForwardRun file.now)) (state S.Store store.old) (state S.Store store.new))) }
    ensures named { IfErr result IsNamed }
    ensures transacts { Transacts (AppliesInto (FnReturnsAt H.Fn handler.now) noop file.now ForwardRun (tables_in (state S.Store store.old).now))
        (state S.Store store.old) (state S.Store store.new) result }
{
    store.tables_law();
    let written = Writings::Counted(0);
    let tally = run(
        alloc,
        store,
        file,
        Direction::Forward,
        noop,
        handler,
        written,
    )?;
    Ok(tally.into_summary())
}

/// Applies the inverse of the changeset of a file to a store in one transaction, and aborts at the first conflict.
///
/// After a clean apply of the file it has no conflict and restores the previous tables. It then fails only if memory or
/// the database refuses. A crash leaves what a crash in [`apply`] leaves.
///
/// # Errors
///
/// Those of [`run_in`](crate::run_in), and `StoreFault` if a transaction is open. An error changes nothing.
pub fn revert<S: Alter>(
    alloc: Global,
    store: &mut Store<S>,
    file: &[u8],
) -> Result<Report, ApplyFault>
    ensures applied { HasCleanDisk (state S.Store store.new) → IfOk result (λ report.
        Applies AlwaysAborts Reported file.now InverseRun (tables_in (state S.Store store.old).now) report
        (tables_in (state S.Store store.new).now)) }
    ensures refused { HasCleanDisk (state S.Store store.new) → IfErr result
        (Refuses AlwaysAborts Reported file.now InverseRun (tables_in (state S.Store store.old).now)) }
    ensures reverts { HasCleanDisk (state S.Store store.new) → (before : State)
        → Leads file.now before (tables_in (state S.Store store.old).now)
        → MatchResult result (λ report. (report.conflicts.items ≡ [])
        × (tables_in (state S.Store store.new).now ≡ before)) IsResource }
    ensures shut { HasCleanDisk (state S.Store store.new) → RefusesShut (state S.Store store.old) IsResource result }
    ensures caused { HasCleanDisk (state S.Store store.new) → IfErr result (IsCaused (StoreFails
        (Writes (IsFileWrite InverseRun file.now)) (state S.Store store.old) (state S.Store store.new))) }
    ensures named { IfErr result IsNamed }
    ensures transacts { Transacts (AppliesInto AlwaysAborts Reported file.now InverseRun (tables_in (state S.Store store.old).now))
        (state S.Store store.old) (state S.Store store.new) result }
{
    changeset_files_law();
    let written = Writings::Listed(Vec::new(alloc));
    let (direction, noop) = (Direction::Inverse, Noop::Report);
    let tally = run(alloc, store, file, direction, noop, &abort, written)?;
    Ok(tally.into_report())
}

/// Aborts at each conflict.
pub(crate) fn abort(_conflict: &Conflict) -> Choice
    ensures { result ≡ AbortChoice }
{
    Choice::Abort
}

/// Applies a file, or its inverse, in a batch of a store.
fn run<S: Alter, H: Fn(&Conflict) -> Choice>(
    alloc: Global,
    store: &mut Store<S>,
    file: &[u8],
    direction: Direction,
    noop: Noop,
    handler: &H,
    written: Writings,
) -> Result<Tally, ApplyFault>
    requires callable { H.IsAlwaysCallable handler.now }
    requires none { Tallies written [] }
    ensures applied { HasCleanDisk (state S.Store store.new) → IfOk result (λ tally.
        AppliesTallied (FnReturnsAt H.Fn handler.now) noop file.now direction (tables_in (state S.Store store.old).now)
        tally (tables_in (state S.Store store.new).now)) }
    ensures listed { IfOk result (λ tally. is_listed tally.written ≡ is_listed written) }
    ensures refused { HasCleanDisk (state S.Store store.new) → IfErr result
        (Refuses (FnReturnsAt H.Fn handler.now) noop file.now direction (tables_in (state S.Store store.old).now)) }
    ensures shut { HasCleanDisk (state S.Store store.new) → RefusesShut (state S.Store store.old) IsResource result }
    ensures caused { HasCleanDisk (state S.Store store.new) → IfErr result (IsCaused (StoreFails
        (Writes (IsFileWrite direction file.now)) (state S.Store store.old) (state S.Store store.new))) }
    ensures named { IfErr result IsNamed }
    ensures transacts { Transacts (AppliesInto (FnReturnsAt H.Fn handler.now) noop file.now direction (tables_in (state S.Store store.old).now))
        (state S.Store store.old) (state S.Store store.new) result }
{
    store.crash_law();
    let mut batch = store.begin()?;
    let tally = tally_in(alloc, &mut batch, file, direction, noop, handler, written)?;
    batch.commit()?;
    Ok(tally)
}
