//! The entries of changesets: inserts, deletes and updates of rows, owned or borrowed from a file, and the faults of
//! reading. The format is that of SQLite's session extension.
//!
//! ```rust
//! // In a file, after the header of a table of one key column: an INSERT of ('x').
//! let (entry, end) = read_entry(b"\x12\x00\x03\x01x", 0, b"\x01")?;
//! assert_eq!(rt; (entry.op(), end), (0x12, 5));
//! assert_eq!(rt; entry.old(0), None);
//! let owned = entry.to_entry(alloc)?;
//! ```
//!
//! An `entry` is owned. An `entry_ref` is borrowed, and has the `fields` of a `record_ref`, which is `spelled` in a
//! file or owned. `reader` and `writer` go from bytes to an entry and back. `inverse` inverts entries. `fault` has why
//! a file is refused, and `format` the bytes of the format.
//!
//! `cs_wire`, the crate above, has the headers, and the changesets that entries make. `invert_entries`, `rest_from`,
//! `fault_at`, `fault_behind`, `undo_refused`, `TABLE` and `PATCHSET` are for it.
#![tactic(auto)]

mod entry;
mod entry_ref;
mod fault;
mod fields;
mod format;
mod inverse;
mod reader;
mod record_ref;
mod spelled;
mod writer;

pub use entry::{Change, Entry};
pub use entry_ref::EntryRef;
pub use fault::{ReadError, ReadFault, ReadFaultKind, fault_at, fault_behind};
pub use fields::Fields;
pub use format::{PATCHSET, TABLE};
pub use inverse::invert_entries;
pub use reader::{has_entry, read_entry, rest_from};
pub use spelled::KeyColumns;
pub use writer::undo_refused;
