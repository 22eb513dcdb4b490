//! The inverse of a changeset, and the concatenation of two.
//!
//! ```rust
//! // An INSERT of ('k', 'x') into the table t, whose first column is its key, and the UPDATE of that
//! // 'x' to 'y'.
//! let insert = read(alloc, b"\x54\x02\x01\x00t\x00\x12\x00\x03\x01k\x03\x01x")?;
//! let update = read(alloc, b"\x54\x02\x01\x00t\x00\x17\x00\x03\x01k\x03\x01x\x00\x03\x01y")?;
//! let both = concat(alloc, &insert, &update)?;
//! assert_eq!(rt; write(alloc, &both)?, b"\x54\x02\x01\x00t\x00\x12\x00\x03\x01k\x03\x01y");
//! ```
//!
//! `inverse` inverts a changeset, `numbering` numbers its key columns as SQLite does, and `joining` concatenates two:
//! `columns` decides whether their tables agree, `entries` goes through the keys of a table, `keyed` finds groups by
//! name and entries by key, `joined` collects the result, and `merging` merges two entries. `net` has the change from
//! one row to another, `image` the rows of entries before and after, and `fault` why two changesets are not
//! concatenated. `CALLING.md`, next to this folder, shows a caller. What a changeset does to a row is said by
//! `cs_apply_conflict_kinds`.
#![tactic(auto)]

mod columns;
mod entries;
mod fault;
mod image;
mod inverse;
mod joined;
mod joining;
mod keyed;
mod merging;
mod net;
mod numbering;

pub use columns::{have_same_columns, is_of_key};
pub use fault::{ConcatFault, SchemaFault};
pub use inverse::{changeset_inverses_law, inverse_twice_law, invert};
pub use joining::concat;
pub use merging::{Merged, merge, merge_refs};
pub use net::{net_change, net_row_change};
pub use numbering::{number_flags, number_keys};
