//! The conflicts that an apply would have, and choices for them that are made in advance.
//!
//! ```rust
//! // Nothing is changed. The caller makes a choice for each conflict.
//! let found = rehearse(alloc, &mut transaction, file, noop)?;
//! let chosen = Chosen::new(alloc, found, &choices)?;
//! let handler = |conflict: &Conflict| chosen.choose(conflict);
//! let report = apply_in_transaction(alloc, &mut transaction, file, noop, &handler)?;
//! ```
//!
//! `rehearsal` lists the conflicts, and `chosen` has the choices. `found` has a conflict with the index of its entry,
//! `places` the entries of a changeset, `numbering` the search for an index, and `order` the order by which a choice is
//! found. `laws` has what holds of each apply with such choices.
#![tactic(auto)]

mod chosen;
mod found;
mod laws;
mod numbering;
mod order;
mod places;
mod rehearsal;

pub use chosen::Chosen;
pub use found::Found;
pub use laws::rehearsal_law;
pub use rehearsal::rehearse;
