//! Changesets carried out on rows, entry by entry.
//!
//! ```rust
//! // Entries with a conflict are skipped.
//! let report = run_in(alloc, &mut rows, file, Direction::Forward, Noop::Report, &|_| Choice::Omit)?;
//! assert!(rt; report.is_clean());
//! ```
//!
//! `running` applies a file to any rows, and `owned` an owned changeset. `run` is their state between two items.
//! `judging` decides whether a group fits its table, `entry` carries out an entry, and `halt` says how an entry ends
//! a run. `conflict` has what a handler is asked and what it chose, `policy` a handler that goes by the kind of the
//! conflict, `tally` and `report` what a run did, and `fault` why it fails. `cs_apply` does this in a batch of a store.
#![tactic(auto)]

mod conflict;
mod entry;
mod fault;
mod halt;
mod judging;
mod owned;
mod policy;
mod report;
mod run;
mod running;
mod tally;

pub use conflict::{Conflict, Met};
pub use cs_apply_conflict_kinds::{Choice, Kind, Noop};
pub use fault::ApplyFault;
pub use owned::run_changeset_in;
pub use policy::Policy;
pub use report::{Report, Summary};
pub use running::{Direction, run_in, tally_in};
pub use tally::{Tally, Writings};
