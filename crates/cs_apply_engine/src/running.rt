//! The changeset of a file, applied to rows.
ghost use Rattle.std.specs.Prelude.{◌≡◌, ◌≢◌, ◌<◌, ◌≤◌, ◌+◌, ◌∷◌, ◌++◌, [], List, IfOk, IfErr, OnOk, length, is_ok};
ghost use Rattle.std.specs.List.{AllByRecursion};
ghost use Rattle.std.specs.Fn.{FnReturnsAt};
ghost use Rattle.cs_value.specs.State.{State};
ghost use Rattle.cs_wire_entries.specs.declared.entry.Entry.{Entry as EntryData};
ghost use Rattle.cs_wire.specs.Entry.{IsEntry};
ghost use Rattle.cs_wire.specs.Changeset.{GroupData, IsGroup};
ghost use Rattle.cs_wire.specs.Headers.{header_of};
ghost use Rattle.cs_file_scan.specs.Tables.{EntriesLeft};
ghost use Rattle.cs_apply_engine.specs.Running.{Applies, AppliesTallied, Refuses, IsCaused, IsNamed, IsResource, is_answered};
ghost use Rattle.cs_apply_engine.specs.Steps.{IsStoreRefusal};
ghost use Rattle.cs_apply_engine.specs.Tally.{Tallies, is_listed};
ghost use Rattle.cs_apply_engine.specs.Run.{IsBehind, directed_entry, directed_group, group_of};
ghost use Rattle.cs_apply_engine.specs.Writes.{IsFileWrite, IsGroupWrite};

use crate::conflict::Conflict;
use crate::fault::ApplyFault;
use crate::report::Report;
use crate::run::Run;
use crate::tally::{Tally, Writings};
use cs_apply_conflict_kinds::{Choice, Noop};
use cs_file_scan::Tables;
use cs_rows::Rows;
use cs_wire::{EntryRef, HeaderRef};
use std::alloc::Global;

/// Whether a file is applied as it is, or inverted.
#[derive(Clone, Copy, Debug, PartialEq, Eq)]
pub enum Direction {
    Forward,
    Inverse,
}

/// Applies the changeset of a file to rows, or its inverse, as SQLite's `sqlite3changeset_apply` has it.
///
/// A group is skipped if its table does not exist, has fewer columns or has another key. The handler is
/// asked about each conflict. With [`Noop::Ignore`] it is not asked about a no-op: a delete whose row does not exist,
/// an insert whose row exists in all columns, and an update whose row has the new values. An entry that would leave
/// NULL in a column that refuses it has a conflict. If the handler chose to replace a row, that is a second conflict of
/// the entry. The report has the conflicts, the skipped tables and the written keys in the order of the file, and the
/// number of ignored entries.
///
/// # Errors
///
/// In this order:
///
/// - [`Read`](ApplyFault::Read) if the file is not a changeset.
/// - [`Wider`](ApplyFault::Wider) for the first group whose table has more columns.
/// - [`Abort`](ApplyFault::Abort) for the first conflict at which the handler aborts, or
///   [`Misuse`](ApplyFault::Misuse) for the first at which it replaces a row that does not exist, or carries out an
///   entry that the table refuses.
///
/// At any point [`Store`](ApplyFault::Store) if the rows refuse, and [`NoMemory`](ApplyFault::NoMemory).
///
/// The file is checked to its end first: after `Read` no row was written, and the handler was not asked. After another
/// error some rows may have been written (drop them), and the handler may have been asked.
pub fn run_in<B: Rows, H: Fn(&Conflict) -> Choice>(
    alloc: Global,
    rows: &mut B,
    file: &[u8],
    direction: Direction,
    noop: Noop,
    handler: &H,
) -> Result<Report, ApplyFault>
    requires { H.IsAlwaysCallable handler.now }
    ensures applied { B.is_honest rows.new → IfOk result (λ report.
        Applies (FnReturnsAt H.Fn handler.now) noop file.now direction (B.state rows.old) report (B.state rows.new)) }
    ensures refused { B.is_honest rows.new → IfErr result
        (Refuses (FnReturnsAt H.Fn handler.now) noop file.now direction (B.state rows.old)) }
    ensures named { IfErr result IsNamed }
    ensures caused { B.is_honest rows.new → IfErr result (IsCaused
        (B.fails (IsFileWrite direction file.now) rows.old rows.new)) }
    ensures was_honest { B.is_honest rows.new → B.is_honest rows.old }
    ensures kept { B.keeps (IsFileWrite direction file.now) (is_answered result) rows.old rows.new }
    ensures leaves { (held : State) → B.leaves_only rows.old held → B.leaves_only rows.new held }
{
    let written = Writings::Listed(Vec::new(alloc));
    let tally = tally_in(alloc, rows, file, direction, noop, handler, written)?;
    Ok(tally.into_report())
}

/// Applies the changeset of a file to rows, or its inverse, as [`run_in`] does. `written` is empty. Its variant says
/// whether the keys are listed or only counted.
///
/// # Errors
///
/// Those of [`run_in`].
pub fn tally_in<B: Rows, H: Fn(&Conflict) -> Choice>(
    alloc: Global,
    rows: &mut B,
    file: &[u8],
    direction: Direction,
    noop: Noop,
    handler: &H,
    written: Writings,
) -> Result<Tally, ApplyFault>
    requires callable { H.IsAlwaysCallable handler.now }
    requires none { Tallies written [] }
    ensures applied { B.is_honest rows.new → IfOk result (λ tally.
        AppliesTallied (FnReturnsAt H.Fn handler.now) noop file.now direction (B.state rows.old) tally
        (B.state rows.new)) }
    ensures listed { IfOk result (λ tally. is_listed tally.written ≡ is_listed written) }
    ensures refused { B.is_honest rows.new → IfErr result
        (Refuses (FnReturnsAt H.Fn handler.now) noop file.now direction (B.state rows.old)) }
    ensures named { IfErr result IsNamed }
    ensures caused { B.is_honest rows.new → IfErr result (IsCaused
        (B.fails (IsFileWrite direction file.now) rows.old rows.new)) }
    ensures was_honest { B.is_honest rows.new → B.is_honest rows.old }
    ensures kept { B.keeps (IsFileWrite direction file.now) (is_answered result) rows.old rows.new }
    ensures leaves { (held : State) → B.leaves_only rows.old held → B.leaves_only rows.new held }
{
    let mut tables = Tables::read(alloc, file)?;
    let mut run = Run::new(alloc, noop, written)?;
    'tables: while let Some(header) = tables.next_table() {
        take_table(
            alloc,
            rows,
            &mut tables,
            header,
            direction,
            handler,
            &mut run,
        )?;
    }
    run.finish()
}

/// Applies the table that is open: its header, and then its entries.
fn take_table<B: Rows, H: Fn(&Conflict) -> Choice>(
    alloc: Global,
    rows: &mut B,
    tables: &mut Tables<'_>,
    header: HeaderRef<'_>,
    direction: Direction,
    handler: &H,
    run: &mut Run,
) -> Result<(), ApplyFault>
    requires callable { H.IsAlwaysCallable handler.now }
    requires count { run.old.tables < usize.MAX }
    requires ignored { run.old.tally.ignored ≤ tables.old.place }
    requires place { tables.old.place ≤ length tables.old.file }
    requires room { length tables.old.file ≤ usize.MAX }
    requires flags { tables.old.flags ≡ (header_of header).flags }
    ensures behind { B.is_honest rows.new → OnOk result ((before : State) (closed : List GroupData)
        (entries : List EntryData) (others : List GroupData) → EntriesLeft tables.old entries others
        → IsGroup (group_of (header_of header.entry) entries)
        → AllByRecursion (λ g. g.header.name ≢ (header_of header.entry).name) closed
        → IsBehind (FnReturnsAt H.Fn handler.now) before closed run.old (B.state rows.old)
        → IsBehind (FnReturnsAt H.Fn handler.now) before
        (closed ++ directed_group direction (group_of (header_of header.entry) entries) ∷ []) run.new
        (B.state rows.new)) }
    ensures left { OnOk result ((entries : List EntryData) (others : List GroupData)
        → EntriesLeft tables.old entries others → EntriesLeft tables.new [] others) }
    ensures file { tables.new.file ≡ tables.old.file }
    ensures place { (tables.old.place ≤ tables.new.place) × (tables.new.place ≤ length tables.new.file) }
    ensures tables { OnOk result (run.new.tables ≡ run.old.tables + 1) }
    ensures ignored { OnOk result (run.new.tally.ignored ≤ tables.new.place) }
    ensures noop { run.new.noop ≡ run.old.noop }
    ensures listed { is_listed run.new.tally.written ≡ is_listed run.old.tally.written }
    ensures refused { B.is_honest rows.new → IfErr result IsResource }
    ensures named { IfErr result IsStoreRefusal }
    ensures caused { B.is_honest rows.new → (entries : List EntryData) (others : List GroupData)
        → EntriesLeft tables.old entries others → IfErr result (IsCaused (B.fails
        (IsGroupWrite (directed_group direction (group_of (header_of header.entry) entries))) rows.old rows.new)) }
    ensures was_honest { B.is_honest rows.new → B.is_honest rows.old }
    ensures kept { (entries : List EntryData) (others : List GroupData)
        → EntriesLeft tables.old entries others
        → B.keeps (IsGroupWrite (directed_group direction (group_of (header_of header.entry) entries)))
        (is_ok result) rows.old rows.new }
{
    run.take_table(alloc, rows, header)?;
    'entries: while let Some(entry) = tables.next_entry() {
        run.take_entry(alloc, rows, directed(entry, direction), handler)?;
    }
    Ok(())
}

/// Returns the entry to be carried out: this one, or its inverse.
pub(crate) fn directed(entry: EntryRef<'_>, direction: Direction) -> EntryRef<'_>
    requires { IsEntry entry.flags entry.entry }
    ensures { result ≡ record { flags = entry.entry.flags; entry = directed_entry direction entry.entry.flags entry.entry.entry } }
{
    match direction {
        Direction::Forward => entry,
        Direction::Inverse => entry.inverted(),
    }
}
