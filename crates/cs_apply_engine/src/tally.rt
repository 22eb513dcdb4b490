//! What a run has done so far.
ghost use Rattle.std.specs.Prelude.{◌≡◌, ◌∷◌, ◌++◌, [], IsTrue, List, OnOk, map};
ghost use Rattle.std.specs.Rc.{rc_str_bytes};
ghost use Rattle.cs_value.specs.State.{WrittenData};
ghost use Rattle.cs_rows.specs.Editing.{written_of};
ghost use Rattle.cs_apply_engine.specs.Tally.{Tallies, count_in, is_listed};

use crate::conflict::Met;
use crate::report::{Report, Summary};
use cs_rows::Written;
use cs_value::{Key, NoMemory, Row};
use std::alloc::Global;
use std::rc::RcStr;

/// What is kept of the entries that were carried out.
#[derive(Debug, Drop)]
pub enum Writings {
    /// Their keys, with the previous rows.
    Listed(Vec<Written>),
    /// Their number.
    Counted(usize),
}

impl Writings {
    /// Returns the number of entries.
    fn count(&self) -> usize
        ensures { result ≡ count_in self.now }
    {
        match self {
            Writings::Listed(written) => written.len(),
            Writings::Counted(count) => *count,
        }
    }

    /// Notes an entry that was carried out.
    pub(crate) fn note(
        &mut self,
        table: &RcStr,
        key: Key,
        former: Option<Row>,
    ) -> Result<(), NoMemory>
        ensures reported { OnOk result ((reported : List WrittenData) → Tallies self.old reported
            → Tallies self.new (reported ++ record { table = rc_str_bytes table.now; key = key; former = former } ∷ [])) }
        ensures listed { is_listed self.new ≡ is_listed self.old }
    {
        match self {
            Writings::Listed(written) => {
                let table = table.clone()?;
                written.push(Written { table, key, former })?;
            }
            // A run carries out at most an entry for each byte of its file, so this never overflows.
            Writings::Counted(count) => *count = count.checked_add(1).ok_or(NoMemory)?,
        }
        Ok(())
    }
}

/// What a run did, in the order of the file, with what is kept of the entries that were carried out.
#[derive(Debug, Drop)]
pub struct Tally {
    /// The conflicts, with the choices for them.
    pub conflicts: Vec<Met>,
    /// The tables whose changes were skipped.
    pub skipped: Vec<String>,
    /// The entries that were carried out.
    pub written: Writings,
    /// The number of no-op entries that were ignored.
    pub ignored: usize,
}

impl Tally {
    /// Returns the tally of a run that did nothing.
    pub(crate) fn new(alloc: Global, written: Writings) -> Tally
        ensures conflicts { result.conflicts.items ≡ [] }
        ensures skipped { result.skipped.items ≡ [] }
        ensures written { result.written ≡ written }
        ensures ignored { result.ignored ≡ 0 }
    {
        Tally {
            conflicts: Vec::new(alloc),
            skipped: Vec::new(alloc),
            written,
            ignored: 0,
        }
    }

    /// Returns the report. The entries must be listed.
    pub fn into_report(self) -> Report
        requires { IsTrue (is_listed self.written) }
        ensures conflicts { result.conflicts ≡ self.conflicts }
        ensures skipped { result.skipped ≡ self.skipped }
        ensures written { (reported : List WrittenData) → Tallies self.written reported
            → map written_of result.written.items ≡ reported }
        ensures ignored { result.ignored ≡ self.ignored }
    {
        let Tally {
            conflicts,
            skipped,
            written,
            ignored,
        } = self;
        match written {
            Writings::Listed(written) => Report {
                conflicts,
                skipped,
                written,
                ignored,
            },
            Writings::Counted(_) => unreachable!(),
        }
    }

    /// Returns the summary.
    pub fn into_summary(self) -> Summary
        ensures conflicts { result.conflicts ≡ self.conflicts }
        ensures skipped { result.skipped ≡ self.skipped }
        ensures written { result.written ≡ count_in self.written }
        ensures ignored { result.ignored ≡ self.ignored }
    {
        let Tally {
            conflicts,
            skipped,
            written,
            ignored,
        } = self;
        let written = written.count();
        Summary {
            conflicts,
            skipped,
            written,
            ignored,
        }
    }
}
