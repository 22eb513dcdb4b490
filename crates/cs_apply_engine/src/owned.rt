//! An owned changeset, applied to rows.
ghost use Rattle.std.specs.Prelude.{◌≡◌, ◌≢◌, ◌<◌, ◌+◌, [], ◌∷◌, ◌++◌, List, IfOk, IfErr, OnOk, is_ok};
ghost use Rattle.std.specs.List.{AllByRecursion};
ghost use Rattle.std.specs.Fn.{FnReturnsAt};
ghost use Rattle.cs_value.specs.State.{State};
ghost use Rattle.cs_wire.specs.Changeset.{GroupData, file_bytes};
ghost use Rattle.cs_apply_conflict_kinds.specs.declared.conflict.Noop.TheVariants.{Report as Reported};
ghost use Rattle.cs_apply_engine.specs.Running.{Applies, Refuses, IsCaused, IsNamed, IsNoReadFault, IsResource, directed as directed_groups};
ghost use Rattle.cs_apply_engine.specs.Running.{is_answered};
ghost use Rattle.cs_apply_engine.specs.Steps.{IsStoreRefusal};
ghost use Rattle.cs_apply_engine.specs.Tally.{is_listed};
ghost use Rattle.cs_apply_engine.specs.Run.{IsBehind, directed_group};
ghost use Rattle.cs_apply_engine.specs.Writes.{IsGroupWrite, IsRunWrite};

use crate::conflict::Conflict;
use crate::fault::ApplyFault;
use crate::report::Report;
use crate::run::Run;
use crate::running::{Direction, directed};
use crate::tally::Writings;
use cs_apply_conflict_kinds::{Choice, Noop};
use cs_rows::Rows;
use cs_wire::{Changeset, EntryRef, Group, HeaderRef};
use std::alloc::Global;

/// Applies an owned changeset to rows, or its inverse, as [`run_in`](crate::run_in) applies its file. No file is
/// written, and no entry is ignored.
///
/// # Errors
///
/// Those of [`run_in`](crate::run_in), but never [`Read`](ApplyFault::Read).
pub fn run_changeset_in<B: Rows, H: Fn(&Conflict) -> Choice>(
    alloc: Global,
    rows: &mut B,
    changeset: &Changeset,
    direction: Direction,
    handler: &H,
) -> Result<Report, ApplyFault>
    requires { H.IsAlwaysCallable handler.now }
    ensures applied { B.is_honest rows.new → IfOk result (λ report.
        Applies (FnReturnsAt H.Fn handler.now) Reported (file_bytes changeset.now) direction (B.state rows.old) report (B.state rows.new)) }
    ensures refused { B.is_honest rows.new → IfErr result
        (Refuses (FnReturnsAt H.Fn handler.now) Reported (file_bytes changeset.now) direction (B.state rows.old)) }
    ensures named { IfErr result IsNamed }
    ensures read { IfErr result IsNoReadFault }
    ensures caused { B.is_honest rows.new → IfErr result (IsCaused
        (B.fails (IsRunWrite (directed_groups direction changeset.now)) rows.old rows.new)) }
    ensures was_honest { B.is_honest rows.new → B.is_honest rows.old }
    ensures kept { B.keeps (IsRunWrite (directed_groups direction changeset.now))
        (is_answered result) rows.old rows.new }
{
    let written = Writings::Listed(Vec::new(alloc));
    let mut run = Run::new(alloc, Noop::Report, written)?;
    for group in changeset.groups() {
        take_group(alloc, rows, group, direction, handler, &mut run)?;
    }
    let tally = run.finish()?;
    Ok(tally.into_report())
}

/// Applies a group: its header, and then its entries.
fn take_group<B: Rows, H: Fn(&Conflict) -> Choice>(
    alloc: Global,
    rows: &mut B,
    group: &Group,
    direction: Direction,
    handler: &H,
    run: &mut Run,
) -> Result<(), ApplyFault>
    requires callable { H.IsAlwaysCallable handler.now }
    requires count { run.old.tables < usize.MAX }
    requires reported { (run.old.noop ≡ Reported) × (run.old.tally.ignored ≡ 0) }
    ensures behind { B.is_honest rows.new → OnOk result ((before : State) (closed : List GroupData)
        → AllByRecursion (λ g. g.header.name ≢ group.now.header.name) closed
        → IsBehind (FnReturnsAt H.Fn handler.now) before closed run.old (B.state rows.old)
        → IsBehind (FnReturnsAt H.Fn handler.now) before
        (closed ++ directed_group direction group.now ∷ []) run.new (B.state rows.new)) }
    ensures tables { OnOk result (run.new.tables ≡ run.old.tables + 1) }
    ensures reported { OnOk result ((run.new.noop ≡ Reported) × (run.new.tally.ignored ≡ 0)) }
    ensures listed { is_listed run.new.tally.written ≡ is_listed run.old.tally.written }
    ensures refused { B.is_honest rows.new → IfErr result IsResource }
    ensures named { IfErr result IsStoreRefusal }
    ensures caused { B.is_honest rows.new → IfErr result (IsCaused
        (B.fails (IsGroupWrite (directed_group direction group.now)) rows.old rows.new)) }
    ensures was_honest { B.is_honest rows.new → B.is_honest rows.old }
    ensures kept { B.keeps (IsGroupWrite (directed_group direction group.now))
        (is_ok result) rows.old rows.new }
{
    let header = HeaderRef {
        name: group.header().name(),
        flags: group.flags(),
    };
    run.take_table(alloc, rows, header)?;
    for entry in group.entries() {
        let entry = EntryRef::from_entry(header.flags, entry);
        run.take_entry(alloc, rows, directed(entry, direction), handler)?;
    }
    Ok(())
}
