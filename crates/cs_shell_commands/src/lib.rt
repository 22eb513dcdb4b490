//! The commands of the command line, carried out on the files of a folder and on stores.
//!
//! ```rust
//! // The file a has an INSERT of ('x') into the table t of one column.
//! folder.replace(alloc, "a", b"\x54\x01\x01t\x00\x12\x00\x03\x01x")?;
//! invert(alloc, &mut folder, "a", "b")?;
//! assert_eq!(rt; folder.read(alloc, "b")?, b"\x54\x01\x01t\x00\x09\x00\x03\x01x");
//! ```
//!
//! `files` has the commands that read, write and print files of a [`cs_folder`]. `applying` applies a file to a store
//! of a [`cs_store_folder`], or to one in memory.
#![tactic(auto)]

mod applying;
mod files;

pub use applying::apply;
pub use files::{concat, dump, invert, sql};
