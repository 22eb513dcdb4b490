//! Sessions: the net changes of tables since they were attached.
//!
//! ```rust
//! let mut session = Session::new(alloc);
//! session.attach(alloc, &mut store, "t")?;
//! session.edit(alloc, &mut store, &edit)?;
//! let changeset = session.changeset(alloc, &mut store)?;
//! // The rows of t are as they were attached.
//! session.undo(alloc, &mut store)?;
//! ```
//!
//! `session` has the calls on a store, each of them one transaction, and `transaction` those in a transaction that goes
//! on. `editing` and `applying` write rows and note the keys, and `undoing` applies the inverse of the net changeset.
//! `merging` has how a session merges the notes of another one. `cs_session_notes` has what is noted. `laws` has what
//! holds over all that is done with a session. `CALLING.md`, alongside this folder, has callers.
#![tactic(auto)]

mod applying;
mod editing;
mod laws;
mod merging;
mod session;
mod transaction;
mod undoing;

pub use cs_session_notes::SessionFault;
pub use laws::{merge_law, runs_law};
pub use merging::MergedSession;
pub use session::Session;
