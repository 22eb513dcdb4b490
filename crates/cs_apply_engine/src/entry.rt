//! One entry of a changeset, carried out.
ghost use Rattle.std.specs.Prelude.{◌≡◌, ◌≢◌, ◌↔◌, ◌<◌, ◌≤◌, ◌+◌, [], ◌∷◌, ◌++◌, List, false, None, Some, IfOk, IfErr, IfSome, IsTrue, OnOk, option_map, is_ok};
ghost use Rattle.std.specs.Fn.{FnReturnsAt};
ghost use Rattle.std.specs.Rc.{rc_str_bytes};
ghost use Rattle.cs_wire.specs.Entry.{key_of, before_image};
ghost use Rattle.cs_rows.specs.Rows.{Fits};
ghost use Rattle.cs_apply_conflict_kinds.specs.declared.conflict.Kind.TheVariants.{NotFound as NotFoundKind};
ghost use Rattle.cs_apply_conflict_kinds.specs.declared.conflict.Noop.TheVariants.{Report as Reported};
ghost use Rattle.cs_apply_conflict_kinds.specs.Conflicts.{conflict_kind as kind_of, kind_between};
ghost use Rattle.cs_apply_conflict_kinds.specs.Conflicts.{is_refused as breaks_rule, ends};
ghost use Rattle.cs_apply_conflict_kinds.specs.Conflicts.{row_after as row_of_change};
ghost use Rattle.cs_apply_conflict_kinds.specs.Applying.{conflict_with, refuses_at};
ghost use Rattle.cs_apply_engine.specs.declared.entry.Settled.TheVariants.{Carried as CarriedOut};
ghost use Rattle.cs_value.specs.State.{WrittenData};
ghost use Rattle.cs_apply_engine.specs.Tally.{Tallies, is_listed};
ghost use Rattle.cs_apply_engine.specs.Running.{IsCaused, IsResource};
ghost use Rattle.cs_apply_engine.specs.Steps.{HasTable, ComesTo, IsStoreRefusal, SettlesAs, AnswersAs, is_ignored, is_left_out, header_in, placed_in_table, settled_as, with_result};
ghost use Rattle.cs_apply_engine.specs.Steps.{AddsEntry, IsResultWrite};
ghost use Rattle.cs_apply_engine.specs.Writes.{IsEntryWrite};

use crate::conflict::{Conflict, Met};
use crate::fault::ApplyFault;
use crate::halt::Halt;
use crate::tally::{Tally, Writings};
use cs_apply_conflict_kinds::{Choice, Kind, Noop, agrees, conflict_kind, is_refused, row_after};
use cs_rows::Rows;
use cs_value::{Key, NoMemory, Row};
use cs_wire::EntryRef;
use std::alloc::Global;
use std::rc::RcStr;

/// What is done about an entry.
#[derive(Drop)]
pub(crate) enum Settled {
    /// It is carried out: it has no conflict, or the handler chose to replace the row.
    Carried,
    /// It is skipped, as the handler chose.
    Passed,
    /// It is ignored, since it changes nothing.
    Ignored,
    /// The run ends at it.
    Ended(Halt),
}

impl Settled {
    /// Whether the entry is carried out.
    fn is_carried(&self) -> bool
        ensures { IsTrue result ↔ (self.now ≡ CarriedOut) }
    {
        matches!(self, Settled::Carried)
    }
}

/// Carries out an entry of a compatible table. If the entry has a conflict that is not to be ignored, the handler
/// decides. Returns how the run ends at this entry, if it does: then the rows are unchanged.
pub(crate) fn apply_entry<B: Rows, H: Fn(&Conflict) -> Choice>(
    alloc: Global,
    rows: &mut B,
    table: &RcStr,
    entry: &EntryRef<'_>,
    refuses: &[bool],
    noop: Noop,
    handler: &H,
    tally: &mut Tally,
) -> Result<Option<Halt>, ApplyFault>
    requires callable { H.IsAlwaysCallable handler.now }
    requires count { tally.old.ignored < usize.MAX }
    requires table { B.is_honest rows.old
        → HasTable (B.state rows.old) (header_in (rc_str_bytes table.now) entry.now) }
    requires rules { B.is_honest rows.old → refuses.now ≡ refuses_at (B.state rows.old) (rc_str_bytes table.now) }
    ensures comes_to { B.is_honest rows.new → IfOk result (ComesTo (FnReturnsAt H.Fn handler.now) noop
        (placed_in_table (rc_str_bytes table.now) entry.now) (B.state rows.old) tally.old (B.state rows.new)
        tally.new) }
    ensures skipped { tally.new.skipped ≡ tally.old.skipped }
    ensures ignored { tally.new.ignored ≤ tally.old.ignored + 1 }
    ensures reported { noop ≡ Reported → tally.new.ignored ≡ tally.old.ignored }
    ensures listed { is_listed tally.new.written ≡ is_listed tally.old.written }
    ensures refused { B.is_honest rows.new → IfErr result IsResource }
    ensures named { IfErr result IsStoreRefusal }
    ensures caused { B.is_honest rows.new → IfErr result (IsCaused (B.fails
        (IsEntryWrite (header_in (rc_str_bytes table.now) entry.now) entry.now.entry) rows.old rows.new)) }
    ensures was_honest { B.is_honest rows.new → B.is_honest rows.old }
    ensures kept { B.keeps (IsEntryWrite (header_in (rc_str_bytes table.now) entry.now) entry.now.entry)
        (is_ok result) rows.old rows.new }
{
    let key = entry.key(alloc)?;
    if add_row(alloc, rows, table.as_str(), entry, &key, refuses)? {
        tally.written.note(table, key, None)?;
        return Ok(None);
    }
    apply_at_row(
        alloc, rows, table, entry, key, refuses, noop, handler, tally,
    )
}

/// Carries out an entry of a compatible table as [`apply_entry`] does, by the row of its key.
fn apply_at_row<B: Rows, H: Fn(&Conflict) -> Choice>(
    alloc: Global,
    rows: &mut B,
    table: &RcStr,
    entry: &EntryRef<'_>,
    key: Key,
    refuses: &[bool],
    noop: Noop,
    handler: &H,
    tally: &mut Tally,
) -> Result<Option<Halt>, ApplyFault>
    requires callable { H.IsAlwaysCallable handler.now }
    requires key { key ≡ key_of entry.now.flags entry.now.entry.change }
    requires count { tally.old.ignored < usize.MAX }
    requires table { B.is_honest rows.old
        → HasTable (B.state rows.old) (header_in (rc_str_bytes table.now) entry.now) }
    requires rules { B.is_honest rows.old → refuses.now ≡ refuses_at (B.state rows.old) (rc_str_bytes table.now) }
    ensures comes_to { B.is_honest rows.new → IfOk result (ComesTo (FnReturnsAt H.Fn handler.now) noop
        (placed_in_table (rc_str_bytes table.now) entry.now) (B.state rows.old) tally.old (B.state rows.new)
        tally.new) }
    ensures skipped { tally.new.skipped ≡ tally.old.skipped }
    ensures ignored { tally.new.ignored ≤ tally.old.ignored + 1 }
    ensures reported { noop ≡ Reported → tally.new.ignored ≡ tally.old.ignored }
    ensures listed { is_listed tally.new.written ≡ is_listed tally.old.written }
    ensures refused { B.is_honest rows.new → IfErr result IsResource }
    ensures named { IfErr result IsStoreRefusal }
    ensures caused { B.is_honest rows.new → IfErr result (IsCaused (B.fails
        (IsEntryWrite (header_in (rc_str_bytes table.now) entry.now) entry.now.entry) rows.old rows.new)) }
    ensures was_honest { B.is_honest rows.new → B.is_honest rows.old }
    ensures kept { B.keeps (IsEntryWrite (header_in (rc_str_bytes table.now) entry.now) entry.now.entry)
        (is_ok result) rows.old rows.new }
{
    let name = table.as_str();
    let current = rows.get(alloc, name, &key)?;
    let conflicts = &mut tally.conflicts;
    match settle(
        alloc,
        name,
        entry,
        current.as_ref(),
        refuses,
        noop,
        handler,
        conflicts,
    )? {
        Settled::Carried => {
            let written = &mut tally.written;
            carry_out(alloc, rows, table, entry, key, current, written)?;
            Ok(None)
        }
        Settled::Passed => Ok(None),
        Settled::Ignored => {
            tally.ignored += 1;
            Ok(None)
        }
        Settled::Ended(ending) => Ok(Some(ending)),
    }
}

/// Adds the row of an entry that has no conflict where no row has its key, and returns whether it does. It leaves other
/// entries to `apply_at_row`, and may leave any: then nothing changes.
fn add_row<B: Rows>(
    alloc: Global,
    rows: &mut B,
    table: &str,
    entry: &EntryRef<'_>,
    key: &Key,
    refuses: &[bool],
) -> Result<bool, ApplyFault>
    requires key { key.now ≡ key_of entry.now.flags entry.now.entry.change }
    requires table { B.is_honest rows.old → HasTable (B.state rows.old) (header_in table.now entry.now) }
    requires rules { B.is_honest rows.old → refuses.now ≡ refuses_at (B.state rows.old) table.now }
    ensures added { B.is_honest rows.new → IfOk result (λ added. AddsEntry (B.state rows.old) table.now key.now
        (kind_of (breaks_rule refuses.now entry.now.flags entry.now.entry.change) entry.now.entry.change None)
        (row_of_change entry.now.flags entry.now.entry.change None) added (B.state rows.new)) }
    ensures refused { IfErr result IsResource }
    ensures caused { B.is_honest rows.new → IfErr result (IsCaused (B.fails
        (IsEntryWrite (header_in table.now entry.now) entry.now.entry) rows.old rows.new)) }
    ensures was_honest { B.is_honest rows.new → B.is_honest rows.old }
    ensures kept { B.keeps (IsEntryWrite (header_in table.now entry.now) entry.now.entry)
        (is_ok result) rows.old rows.new }
{
    if conflict_kind(entry, None, refuses).is_some() {
        return Ok(false);
    }
    match row_after(alloc, entry, None)? {
        Some(row) => Ok(rows.add(alloc, table, key, &row)?),
        None => Ok(false),
    }
}

/// Decides about an entry of a table whose columns with these marks refuse NULL. Reports a conflict and the choice,
/// unless the run ends there or the entry is ignored.
fn settle<H: Fn(&Conflict) -> Choice>(
    alloc: Global,
    table: &str,
    entry: &EntryRef<'_>,
    current: Option<&Row>,
    refuses: &[bool],
    noop: Noop,
    handler: &H,
    conflicts: &mut Vec<Met>,
) -> Result<Settled, NoMemory>
    requires callable { H.IsAlwaysCallable handler.now }
    ensures ignored { IfOk result (λ settled. is_left_out settled
        ≡ is_ignored noop (breaks_rule refuses.now entry.now.flags entry.now.entry.change) entry.now.flags
        entry.now.entry.change (option_map (λ r. r.now) current.entry)) }
    ensures settles { IfOk result (SettlesAs (FnReturnsAt H.Fn handler.now)
        (breaks_rule refuses.now entry.now.flags entry.now.entry.change)
        (placed_in_table table.now entry.now) (option_map (λ r. r.now) current.entry) conflicts.old.items
        conflicts.new.items) }
{
    let kind = match conflict_kind(entry, current, refuses) {
        None => return Ok(Settled::Carried),
        Some(kind) => kind,
    };
    if noop == Noop::Ignore && agrees(entry, current) {
        return Ok(Settled::Ignored);
    }
    let settled = ask(alloc, kind, table, entry, current, handler, conflicts)?;
    if is_refused(entry, refuses) && settled.is_carried() {
        let kind = Kind::Constraint;
        return ask(alloc, kind, table, entry, current, handler, conflicts);
    }
    Ok(settled)
}

/// Asks the handler about an entry with a conflict of this kind. Reports the conflict and the choice, unless the run
/// ends there.
fn ask<H: Fn(&Conflict) -> Choice>(
    alloc: Global,
    kind: Kind,
    table: &str,
    entry: &EntryRef<'_>,
    current: Option<&Row>,
    handler: &H,
    conflicts: &mut Vec<Met>,
) -> Result<Settled, NoMemory>
    requires callable { H.IsAlwaysCallable handler.now }
    ensures { IfOk result (AnswersAs (FnReturnsAt H.Fn handler.now)
        (conflict_with (placed_in_table table.now entry.now) (option_map (λ r. r.now) current.entry) kind)
        conflicts.old.items conflicts.new.items) }
{
    let conflict = Conflict::copy_of(alloc, kind, table, entry, current)?;
    let choice = handler(&conflict);
    if ends_run(kind, choice) {
        return Ok(Settled::Ended(Halt::at(conflict, choice)));
    }
    conflicts.push(Met { conflict, choice })?;
    Ok(settled_by(choice))
}

/// Returns what is done about an entry if the run goes on after its conflict.
fn settled_by(choice: Choice) -> Settled
    ensures { result ≡ settled_as choice }
{
    match choice {
        Choice::Replace => Settled::Carried,
        _ => Settled::Passed,
    }
}

/// Returns whether a run ends at a conflict of this kind with this choice.
fn ends_run(kind: Kind, choice: Choice) -> bool
    ensures { result ≡ ends kind choice }
{
    match choice {
        Choice::Omit => false,
        Choice::Replace => kind == Kind::NotFound || kind == Kind::Constraint,
        Choice::Abort => true,
    }
}

/// Writes the new row of an entry, and notes its key and the previous row.
fn carry_out<B: Rows>(
    alloc: Global,
    rows: &mut B,
    table: &RcStr,
    entry: &EntryRef<'_>,
    key: Key,
    current: Option<Row>,
    written: &mut Writings,
) -> Result<(), ApplyFault>
    requires key { key ≡ key_of entry.now.flags entry.now.entry.change }
    requires found { kind_between (before_image entry.now.entry.change) current ≢ Some NotFoundKind }
    requires obeys { B.is_honest rows.old → breaks_rule (refuses_at (B.state rows.old) (rc_str_bytes table.now))
        entry.now.flags entry.now.entry.change ≡ false }
    requires table { B.is_honest rows.old
        → HasTable (B.state rows.old) (header_in (rc_str_bytes table.now) entry.now) }
    requires row { B.is_honest rows.old → IfSome current (Fits (B.state rows.old) (rc_str_bytes table.now) key) }
    ensures written { B.is_honest rows.new → OnOk result (B.state rows.new
        ≡ with_result (B.state rows.old) (rc_str_bytes table.now) key
        (row_of_change entry.now.flags entry.now.entry.change current)) }
    ensures reported { OnOk result ((reported : List WrittenData) → Tallies written.old reported
        → Tallies written.new (reported ++ record { table = rc_str_bytes table.now; key = key; former = current } ∷ [])) }
    ensures listed { is_listed written.new ≡ is_listed written.old }
    ensures refused { IfErr result IsResource }
    ensures caused { B.is_honest rows.new → IfErr result (IsCaused (B.fails
        (IsResultWrite (B.state rows.old) (rc_str_bytes table.now) key
        (row_of_change entry.now.flags entry.now.entry.change current)) rows.old rows.new)) }
    ensures was_honest { B.is_honest rows.new → B.is_honest rows.old }
    ensures kept { B.keeps
        (IsResultWrite (B.state rows.old) (rc_str_bytes table.now) key
        (row_of_change entry.now.flags entry.now.entry.change current))
        (is_ok result) rows.old rows.new }
{
    write(alloc, rows, table.as_str(), entry, &key, current.as_ref())?;
    written.note(table, key, current)?;
    Ok(())
}

/// Writes the row that an entry leaves at its key, or removes the row.
fn write<B: Rows>(
    alloc: Global,
    rows: &mut B,
    table: &str,
    entry: &EntryRef<'_>,
    key: &Key,
    current: Option<&Row>,
) -> Result<(), ApplyFault>
    requires key { key.now ≡ key_of entry.now.flags entry.now.entry.change }
    requires found { kind_between (before_image entry.now.entry.change) (option_map (λ r. r.now) current) ≢ Some NotFoundKind }
    requires obeys { B.is_honest rows.old → breaks_rule (refuses_at (B.state rows.old) table.now)
        entry.now.flags entry.now.entry.change ≡ false }
    requires table { B.is_honest rows.old → HasTable (B.state rows.old) (header_in table.now entry.now) }
    requires row { B.is_honest rows.old → IfSome current (λ r. Fits (B.state rows.old) table.now key.now r.now) }
    ensures written { B.is_honest rows.new → OnOk result (B.state rows.new
        ≡ with_result (B.state rows.old) table.now key.now
        (row_of_change entry.now.flags entry.now.entry.change (option_map (λ r. r.now) current.entry))) }
    ensures refused { IfErr result IsResource }
    ensures caused { B.is_honest rows.new → IfErr result (IsCaused (B.fails
        (IsResultWrite (B.state rows.old) table.now key.now
        (row_of_change entry.now.flags entry.now.entry.change (option_map (λ r. r.now) current.entry)))
        rows.old rows.new)) }
    ensures was_honest { B.is_honest rows.new → B.is_honest rows.old }
    ensures kept { B.keeps
        (IsResultWrite (B.state rows.old) table.now key.now
        (row_of_change entry.now.flags entry.now.entry.change (option_map (λ r. r.now) current.entry)))
        (is_ok result) rows.old rows.new }
{
    match row_after(alloc, entry, current)? {
        Some(row) => rows.put(alloc, table, key, &row)?,
        None => rows.remove(alloc, table, key)?,
    }
    Ok(())
}
