//! Inverses, concatenations and readable texts of SQLite changeset files.
//!
//! ```rust
//! // An INSERT of ('x') into the table t of one column, and the DELETE of that row.
//! let inverse = invert_bytes(alloc, b"\x54\x01\x01t\x00\x12\x00\x03\x01x")?;
//! assert_eq!(rt; inverse, b"\x54\x01\x01t\x00\x09\x00\x03\x01x");
//! let text = sql_file(alloc, &inverse)?;
//! assert_eq!(rt; text, b"DELETE FROM \"t\" WHERE c1='x';\n");
//! ```
//!
//! `files` has the calls on files. `inverting` writes an inverse, `joining` a concatenation, and `numbering` a file
//! whose key columns are numbered. `selecting` keeps the tables that are named: the names come in one buffer, since a
//! list of slices does not cross to C. `fault` has the faults.
//!
//! The names of `cs_file_texts` are passed on: the texts of changesets, the streams that they are written to, and the
//! pieces of lines.
#![tactic(auto)]

mod fault;
mod files;
mod inverting;
mod joining;
mod numbering;
mod selecting;

pub use cs_file_texts::{
    Gather, OutputFault, Piece, Told, add_pieces, dump_text, sql_text, write_whole,
};
pub use fault::{FileFault, PrintError, ToolFault, first_fault};
pub use files::{
    concat_bytes, dump_file, invert_bytes, number_keys_bytes, print_dump, print_sql, sql_file,
};
pub use selecting::select_bytes;
