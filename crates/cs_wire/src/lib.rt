//! Changesets and their files: the format of SQLite's session extension.
//!
//! A changeset is a list of groups, one for each table. A group has a header, with the name of the table and the flags
//! of its columns, and entries: inserts, deletes and updates of rows. The format is that of the comment "changeset
//! format" of SQLite's `ext/session/sqlite3session.c`. A file is accepted if and only if it is the file of a changeset.
//! A fault has a kind and a byte offset.
//!
//! ```rust
//! // An INSERT of ('x') into the table t of one column.
//! let file = b"\x54\x01\x01t\x00\x12\x00\x03\x01x";
//! let changeset = read(alloc, file)?;
//! assert_eq!(rt; changeset.groups().len(), 1);
//! assert_eq!(rt; write(alloc, &changeset)?, file);
//!
//! // The same file, item by item.
//! let mut cursor = Cursor::new(alloc, file);
//! while let Some(item) = cursor.next()? {
//!     match item {
//!         Item::Table(header) => assert_eq!(rt; header.name, "t"),
//!         Item::Entry(entry) => assert_eq!(rt; entry.old(0), None),
//!     }
//! }
//! ```
//!
//! `header`, `group` and `changeset` have the parts of a file, besides its entries, which `cs_wire_entries` has.
//! `reader` reads files, and `writer` writes them. A `cursor` goes through a file by a `walk`, until its `ending`, and
//! returns each `item`, borrowed from the file. A name or a key that it has `seen` before is a fault. `draft` collects
//! the tables that `reader` reads. `indices` finds entries and groups, and `laws` has the laws of all changesets. The
//! names of `cs_wire_entries` are passed on. `CALLING.md`, next to this folder, shows a caller.
//!
//! `read_header`, `has_entry`, `read_entry`, `KeyColumns` and `word_of` are for the crate above, `cs_file_scan`.
#![tactic(auto)]

mod changeset;
mod cursor;
mod draft;
mod ending;
mod group;
mod header;
mod indices;
mod item;
mod laws;
mod reader;
mod seen;
mod walk;
mod writer;

pub use changeset::Changeset;
pub use cs_wire_entries::{
    Change, Entry, EntryRef, Fields, KeyColumns, ReadError, ReadFault, ReadFaultKind, has_entry,
    read_entry,
};
pub use cursor::Cursor;
pub use group::Group;
pub use header::{Header, HeaderRef};
pub use item::Item;
pub use laws::{changeset_files_law, entry_inverses_law, row_keys_law};
pub use reader::header::read_header;
pub use reader::read;
pub use seen::word_of;
pub use writer::write;
