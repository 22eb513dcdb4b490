//! Histories: actions on a store that are undone and done again, kept in a table of the store.
//!
//! ```rust
//! let (store, opened) = call(alloc, store, "undo", HistoryCall::Open);
//! // Edits in a transaction, through a session that has attached what they write, and has noted nothing before.
//! act_in_transaction(alloc, &mut transaction, "undo", "Rename", &session)?;
//! let (store, undone) = call(alloc, store, "undo", HistoryCall::Undo);
//! ```
//!
//! `acting` notes an action in a transaction, whose commit makes it last. `calling` has the calls that take no session,
//! and `storing` the same on a store, each in a transaction of its own: `table` declares the table of a history,
//! `turning` undoes and redoes an action, and `forgetting` drops the oldest. `watching` has the session of an action,
//! `rows` the rows of the table, `fault` why a call is refused, and `laws` what holds of all runs.
#![tactic(auto)]

mod acting;
mod calling;
mod fault;
mod forgetting;
mod laws;
mod rows;
mod storing;
mod table;
mod turning;
mod watching;

pub use acting::act_in_transaction;
pub use calling::{HistoryCall, call_in_transaction};
pub use fault::HistoryFault;
pub use laws::{history_law, restores_law};
pub use storing::call;
pub use watching::watch;
