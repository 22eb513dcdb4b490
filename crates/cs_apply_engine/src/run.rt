//! The state of a run between two items of a changeset.
ghost use Rattle.std.specs.Prelude.{◌≡◌, ◌↔◌, ◌<◌, ◌≤◌, ◌+◌, ◌∷◌, ◌++◌, [], ℕ, List, IfOk, IfErr, IsTrue, OnOk, is_ok};
ghost use Rattle.std.specs.Fn.{FnReturnsAt};
ghost use Rattle.std.specs.Rc.{rc_str_bytes};
ghost use Rattle.cs_value.specs.State.{State, schema_at};
ghost use Rattle.cs_wire_entries.specs.declared.entry.Entry.{Entry as EntryData};
ghost use Rattle.cs_wire.specs.Changeset.{GroupData, HeaderData};
ghost use Rattle.cs_wire.specs.Headers.{header_of};
ghost use Rattle.cs_apply_conflict_kinds.specs.Applying.{refuses_at};
ghost use Rattle.cs_apply_conflict_kinds.specs.declared.judging.Judgement.TheVariants.{Compatible as CompatibleTable};
ghost use Rattle.cs_apply_conflict_kinds.specs.declared.conflict.Noop.TheVariants.{Report as Reported};
ghost use Rattle.cs_apply_engine.specs.Running.{IsCaused, IsResource};
ghost use Rattle.cs_apply_engine.specs.Steps.{HasTable, IsStoreRefusal, header_in};
ghost use Rattle.cs_apply_engine.specs.Tally.{Tallies, is_listed};
ghost use Rattle.cs_apply_engine.specs.Run.{IsAtStart, IsBehind, IsNewEntry, TakesEntries, TakesTable, answer_of, group_of};
ghost use Rattle.cs_apply_engine.specs.Writes.{IsEntryWrite};

use crate::conflict::Conflict;
use crate::entry::apply_entry;
use crate::fault::ApplyFault;
use crate::halt::Halt;
use crate::judging::judge_table;
use crate::tally::{Tally, Writings};
use cs_apply_conflict_kinds::{Choice, Judgement, Noop};
use cs_rows::Rows;
use cs_value::NoMemory;
use cs_wire::{EntryRef, HeaderRef};
use std::alloc::Global;
use std::rc::RcStr;

/// What is known after the items so far.
#[derive(Drop)]
pub(crate) struct Run {
    // The name of the open table, which all written keys share, and whether the table fits.
    table: RcStr,
    judgement: Judgement,
    // Which of its columns refuse NULL.
    refuses: Vec<bool>,
    // The number of tables so far.
    tables: usize,
    // The index of the first table with more columns than its group.
    wider: Option<usize>,
    // How the run ended, if it ended at an entry.
    ended: Option<Halt>,
    // What is done about no-op entries.
    noop: Noop,
    tally: Tally,
}

impl Run {
    /// Returns a run before its first item.
    pub(crate) fn new(alloc: Global, noop: Noop, written: Writings) -> Result<Run, NoMemory>
        requires { Tallies written [] }
        ensures start { IfOk result IsAtStart }
        ensures noop { IfOk result (λ run. run.noop ≡ noop) }
        ensures listed { IfOk result (λ run. is_listed run.tally.written ≡ is_listed written) }
    {
        Ok(Run {
            table: RcStr::from_str(alloc, "")?,
            judgement: Judgement::Skipped,
            refuses: Vec::new(alloc),
            tables: 0,
            wider: None,
            ended: None,
            noop,
            tally: Tally::new(alloc, written),
        })
    }

    /// Opens a table: decides whether it fits, and reports it if it is skipped. Remembers the first table with more
    /// columns than its group, also after the end of the run.
    pub(crate) fn take_table<B: Rows>(
        &mut self,
        alloc: Global,
        rows: &mut B,
        header: HeaderRef<'_>,
    ) -> Result<(), ApplyFault>
        requires { self.old.tables < usize.MAX }
        ensures takes { B.is_honest rows.new → OnOk result
            (TakesTable (B.state rows.old) self.old (header_of header.entry) self.new (B.state rows.new)) }
        ensures tables { OnOk result (self.new.tables ≡ self.old.tables + 1) }
        ensures ignored { self.new.tally.ignored ≡ self.old.tally.ignored }
        ensures noop { self.new.noop ≡ self.old.noop }
        ensures listed { is_listed self.new.tally.written ≡ is_listed self.old.tally.written }
        ensures refused { B.is_honest rows.new → IfErr result IsResource }
        ensures named { IfErr result IsStoreRefusal }
        ensures caused { B.is_honest rows.new → IfErr result (IsCaused (B.fails (λ _ _. ⊥) rows.old rows.new)) }
        ensures was_honest { B.is_honest rows.new → B.is_honest rows.old }
        ensures kept { B.keeps (λ _ _. ⊥) (is_ok result) rows.old rows.new }
    {
        (self.judgement, self.refuses) = judge_table(alloc, rows, &header)?;
        self.table = RcStr::from_str(alloc, header.name)?;
        let place = self.tables;
        self.tables = place + 1;
        match self.judgement {
            Judgement::Wider if self.wider.is_none() => self.wider = Some(place),
            Judgement::Skipped => {
                let table = String::from_str(alloc, header.name)?;
                self.tally.skipped.push(table)?;
            }
            _ => {}
        }
        Ok(())
    }

    /// Returns whether entries of the open table are carried out.
    fn takes_entries(&self) -> bool
        ensures { IsTrue result ↔ TakesEntries self.now }
    {
        self.judgement == Judgement::Compatible && self.wider.is_none() && self.ended.is_none()
    }

    /// Takes an entry of the open table. If the table fits and the run has not ended, the entry is carried out, or the
    /// handler decides.
    pub(crate) fn take_entry<B: Rows, H: Fn(&Conflict) -> Choice>(
        &mut self,
        alloc: Global,
        rows: &mut B,
        entry: EntryRef<'_>,
        handler: &H,
    ) -> Result<(), ApplyFault>
        requires callable { H.IsAlwaysCallable handler.now }
        requires count { self.old.tally.ignored < usize.MAX }
        requires table { B.is_honest rows.old → self.old.judgement ≡ CompatibleTable
            → HasTable (B.state rows.old) (header_in (rc_str_bytes self.old.table) entry) }
        requires rules { B.is_honest rows.old
            → self.old.refuses.items ≡ refuses_at (B.state rows.old) (rc_str_bytes self.old.table) }
        ensures behind { B.is_honest rows.new → OnOk result ((before : State) (closed : List GroupData)
            (header : HeaderData) (entries : List EntryData) → entry.entry.flags ≡ header.flags
            → IsNewEntry closed header entries entry.entry.entry
            → IsBehind (FnReturnsAt H.Fn handler.now) before (closed ++ group_of header entries ∷ []) self.old (B.state rows.old)
            → IsBehind (FnReturnsAt H.Fn handler.now) before
            (closed ++ group_of header (entries ++ entry.entry.entry ∷ []) ∷ []) self.new (B.state rows.new)) }
        ensures schemas { B.is_honest rows.new → OnOk result ((name : List ℕ)
            → schema_at (B.state rows.new) name ≡ schema_at (B.state rows.old) name) }
        ensures table { (self.new.table ≡ self.old.table) × (self.new.judgement ≡ self.old.judgement)
            × (self.new.refuses ≡ self.old.refuses) }
        ensures tables { self.new.tables ≡ self.old.tables }
        ensures ignored { self.new.tally.ignored ≤ self.old.tally.ignored + 1 }
        ensures reported { self.old.noop ≡ Reported → self.new.tally.ignored ≡ self.old.tally.ignored }
        ensures noop { self.new.noop ≡ self.old.noop }
        ensures listed { is_listed self.new.tally.written ≡ is_listed self.old.tally.written }
        ensures refused { B.is_honest rows.new → IfErr result IsResource }
        ensures named { IfErr result IsStoreRefusal }
        ensures caused { B.is_honest rows.new → IfErr result (IsCaused (B.fails
            (IsEntryWrite (header_in (rc_str_bytes self.old.table) entry.entry) entry.entry.entry) rows.old rows.new)) }
        ensures was_honest { B.is_honest rows.new → B.is_honest rows.old }
        ensures kept { B.keeps
            (IsEntryWrite (header_in (rc_str_bytes self.old.table) entry.entry) entry.entry.entry)
            (is_ok result) rows.old rows.new }
    {
        if !self.takes_entries() {
            return Ok(());
        }
        let tally = &mut self.tally;
        let (table, refuses) = (&self.table, &self.refuses);
        self.ended = apply_entry(
            alloc, rows, table, &entry, refuses, self.noop, handler, tally,
        )?;
        Ok(())
    }

    /// Returns the result of the run after the last item.
    pub(crate) fn finish(self) -> Result<Tally, ApplyFault>
        ensures { result ≡ answer_of self }
    {
        let Run {
            wider,
            ended,
            tally,
            ..
        } = self;
        match (wider, ended) {
            (Some(place), _) => Err(ApplyFault::Wider(place)),
            (None, Some(ending)) => Err(ending.into_fault()),
            (None, None) => Ok(tally),
        }
    }
}
