//! Changesets applied to stores, and reverted.
//!
//! ```rust
//! // Each conflict ends the call, and nothing is changed.
//! let report = apply(alloc, &mut store, file, Noop::Report, &|_| Choice::Abort)?;
//! assert!(rt; report.is_clean());
//! // The same file restores the rows.
//! revert(alloc, &mut store, file)?;
//! ```
//!
//! `store` applies a file to the rows of a batch, by `cs_apply_engine`, and commits the batch or drops it.
//! `transaction` applies one in a transaction that goes on. The names of `cs_apply_engine` are passed on. `CALLING.md`,
//! next to this folder, shows a caller.
#![tactic(auto)]

mod store;
mod transaction;

pub use cs_apply_engine::{
    ApplyFault, Choice, Conflict, Direction, Kind, Met, Noop, Policy, Report, Summary,
    run_changeset_in, run_in,
};
pub use store::{apply, apply_counted, revert};
pub use transaction::{apply_in_transaction, revert_in_transaction};
