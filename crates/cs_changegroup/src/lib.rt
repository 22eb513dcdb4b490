//! Concatenations of changeset files that grow by one file after another.
//!
//! ```rust
//! // An INSERT of ('x') into the table t of one column, and the DELETE of that row.
//! let mut group = Changegroup::new(alloc);
//! group.add(alloc, b"\x54\x01\x01t\x00\x12\x00\x03\x01x")?;
//! group.add(alloc, b"\x54\x01\x01t\x00\x09\x00\x03\x01x")?;
//! assert_eq!(rt; group.to_bytes(alloc)?, b"");
//! ```
//!
//! `changegroup` has the concatenation, and `many` that of many files that are in one buffer. `tables` finds the tables
//! by their names, and `table` the entries of one by their keys. `slot` says where the bytes of an entry are.
#![tactic(auto)]

mod changegroup;
mod many;
mod slot;
mod table;
mod tables;

pub use changegroup::Changegroup;
pub use many::{ChainError, concat_all_bytes};
