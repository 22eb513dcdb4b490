//! What a changeset does to the rows of a table, and which conflicts its entries have there.
//!
//! ```rust
//! // An INSERT of ('k', 'x') into the table t, whose first column is its key. `row` is a row of the key 'k'.
//! let changeset = read(alloc, b"\x54\x02\x01\x00t\x00\x12\x00\x03\x01k\x03\x01x")?;
//! let group = &changeset.groups()[0];
//! let entry = EntryRef::from_entry(group.flags(), &group.entries()[0]);
//! assert_eq!(rt; judge(group.flags(), Some(&[1, 0])), Judgement::Compatible);
//! assert_eq!(rt; conflict_kind(&entry, None, &[false, false]), None);
//! assert_eq!(rt; conflict_kind(&entry, Some(&row), &[false, false]), Some(Kind::Conflict));
//! ```
//!
//! `judging` decides whether a group fits its table, `conflict` has the conflicts of entries and the rows that they
//! leave, and `laws` what holds of all states and changesets, also of the inverses and concatenations of `cs_group`.
//! `CALLING.md`, next to this folder, shows a caller.
#![tactic(auto)]

mod conflict;
mod judging;
mod laws;

pub use conflict::{Choice, Kind, Noop, agrees, conflict_kind, is_refused, row_after};
pub use judging::{Judgement, judge};
pub use laws::{
    applied_once_law, applied_reverts_law, idle_law, ignored_law, join_applies_law, join_nets_law,
    numbering_does_law, written_tells_law,
};
