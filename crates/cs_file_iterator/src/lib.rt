//! An iterator over the changes of a changeset's file that keeps nothing: an offset goes in, and a change and the next
//! offset come out.
//!
//! ```rust
//! // An INSERT of ('x') into the table t of one column.
//! let file = b"\x54\x01\x01t\x00\x12\x00\x03\x01x";
//! let Ok(Some((change, place))) = next_change(file, 0, &ChangeSpan::none()) else {
//!     return;
//! };
//! assert_eq!(rt; (change.operation, change.columns, place), (0x12, 1, 10));
//! assert_eq!(rt; next_change(file, place, &change), Ok(None));
//! ```
//!
//! A file is no changeset if a table or a key is twice in it. The iterator does not notice that: a caller that has to
//! know checks the file first, as `cs_file_scan` does.
//!
//! `change` has the step from one change to the next, `value` the values of a change, and `count` a loop
//! over all changes. `CALLING.md`, next to this folder, shows how to call them.
#![tactic(auto)]

mod change;
mod count;
mod value;

pub use change::{ChangeSpan, next_change};
pub use count::count_changes;
pub use value::{Side, ValueSpan, change_value, change_values};
