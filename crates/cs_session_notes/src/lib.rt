//! What a session notes: the tables that are attached, the keys that were written in each, and the row that was there
//! before the first write.
//!
//! ```rust
//! let mut tables = AttachedTables::new(alloc);
//! tables.push(alloc, "t", schema)?;
//! let written = edit_in(alloc, &mut rows, &edit)?;
//! tables.note_all(alloc, &written)?;
//! // What was noted lasts, or is forgotten.
//! tables.settle(true);
//! let changeset = net_changeset(alloc, &mut rows, tables.as_slice())?;
//! ```
//!
//! `tables` has the attached tables, by their names, `attached` one of them, and `first_images` the keys of a table
//! with their first rows. `writes` has what tables note, as writes that others can note. `changes` makes the net
//! changeset, on any rows. `checking` says whether rows have the tables as they were attached, and `fault` why a
//! session refuses a call. It uses no SQL.
#![tactic(auto)]

mod attached;
mod changes;
mod checking;
mod fault;
mod first_images;
mod tables;
mod writes;

pub use attached::{Attached, are_unwritten};
pub use changes::net_changeset;
pub use checking::{check_named, check_tables};
pub use fault::SessionFault;
pub use tables::AttachedTables;
