//! The tables of a changeset's file, for what goes through a file whole: inverses, concatenations and texts.
//!
//! `Tables::read` checks a file once, and then hands out its tables and entries, which borrow from the file. The tables
//! can be indexed by their names, and the entries of a table by their keys.
//!
//! ```rust
//! // An INSERT of ('x') into the table t of one column.
//! let mut tables = Tables::read(alloc, b"\x54\x01\x01t\x00\x12\x00\x03\x01x")?;
//! while let Some(header) = tables.next_table() {
//!     assert_eq!(rt; header.name, "t");
//!     while let Some(entry) = tables.next_entry() {
//!         assert_eq!(rt; entry.op(), 0x12);
//!     }
//! }
//! ```
//!
//! `tables` has the iterator, and `checked` the quick check of a file, which compares numbers of names and keys that
//! `distinct` computes. `visit` has what is done with the headers and entries as they are checked. `named` lists the
//! tables of a file as it makes the quick check, and indexes them by their names, which `hashed` does. `keyed` indexes
//! the entries of a table by their keys: `chains` finds the places of a key's number. `CALLING.md`, next to this
//! folder, shows a caller.
#![tactic(auto)]

mod chains;
mod checked;
mod distinct;
mod hashed;
mod keyed;
mod named;
mod tables;
mod visit;

pub use chains::NumberChains;
pub use checked::part;
pub use distinct::number_of;
pub use keyed::{FoundEntry, KeyedEntries};
pub use named::NamedTables;
pub use tables::Tables;
pub use visit::Visit;
