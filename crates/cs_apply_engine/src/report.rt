//! What a run reports.
ghost use Rattle.std.specs.Prelude.{◌≡◌, ◌↔◌, [], IsTrue};
ghost use Rattle.cs_apply_engine.specs.Running.{Summarizes};

use crate::conflict::Met;
use cs_rows::Written;

/// What a run did, in the order of the file.
#[derive(Debug, Drop)]
pub struct Report {
    /// The conflicts, with the choices for them.
    pub conflicts: Vec<Met>,
    /// The tables whose changes were skipped.
    pub skipped: Vec<String>,
    /// The keys of the entries that were carried out, with the previous rows.
    pub written: Vec<Written>,
    /// The number of no-op entries that were ignored.
    pub ignored: usize,
}

impl Report {
    /// Returns whether there was no conflict and no ignored entry. Then a revert restores the rows. It takes no memory.
    pub fn is_clean(&self) -> bool
        ensures { IsTrue result ↔ ((self.now.conflicts.items ≡ []) × (self.now.ignored ≡ 0)) }
    {
        self.conflicts.is_empty() && self.ignored == 0
    }

    /// Returns the summary.
    pub fn into_summary(self) -> Summary
        ensures { Summarizes result self }
    {
        let Report {
            conflicts,
            skipped,
            written,
            ignored,
        } = self;
        let written = written.len();
        Summary {
            conflicts,
            skipped,
            written,
            ignored,
        }
    }
}

/// What a run did, in the order of the file, with the number of the entries that were carried out.
#[derive(Debug, Drop)]
pub struct Summary {
    /// The conflicts, with the choices for them.
    pub conflicts: Vec<Met>,
    /// The tables whose changes were skipped.
    pub skipped: Vec<String>,
    /// The number of the entries that were carried out.
    pub written: usize,
    /// The number of no-op entries that were ignored.
    pub ignored: usize,
}

impl Summary {
    /// Returns whether there was no conflict and no ignored entry, as [`Report::is_clean`].
    pub fn is_clean(&self) -> bool
        ensures { IsTrue result ↔ ((self.now.conflicts.items ≡ []) × (self.now.ignored ≡ 0)) }
    {
        self.ignored == 0 && self.conflicts.is_empty()
    }
}
