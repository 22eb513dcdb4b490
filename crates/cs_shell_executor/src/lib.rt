//! What the command of a line does to a store, slots and a session, and what the line is answered.
//!
//! ```rust
//! let mut store = Store::new_memory(alloc)?;
//! let mut work = Workspace::new(alloc);
//! // The INSERT of ('x') into the table t of one column, as hexadecimal digits, into the slot a.
//! answer_line(alloc, &mut store, &mut work, b".load a 54010174001200030178")?;
//! let reply = answer_line(alloc, &mut store, &mut work, b".invert b c");
//! assert!(matches!(reply, Err(Refusal::EmptySlot)));
//! ```
//!
//! `answering` parses a line as a command and carries it out. A caller makes sure once that no batch is open in the
//! store. `workspace` has the `slots`, which are bytes with names, and the session, if one is open. `statements` has
//! the commands on tables, `changesets` those on slots, `applying` the applies and `sessions` those of a session.
#![tactic(auto)]

mod answering;
mod applying;
mod changesets;
mod sessions;
mod slots;
mod statements;
mod workspace;

pub use answering::{answer_line, check_at_rest_once};
pub use applying::apply_unnoted;
pub use slots::Slots;
pub use workspace::Workspace;
