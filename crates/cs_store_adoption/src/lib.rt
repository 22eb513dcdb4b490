//! How a database is adopted as a store, in one transaction.
//!
//! ```rust
//! let mut conn = Connection::open_in_memory(alloc)?;
//! // The database has the table of records now, with the version and no table.
//! adopt(&mut conn, alloc)?;
//! ```
//!
//! `adoption` makes the table of records if nothing has its name. If the table is there, it checks each record, and
//! writes the version of this crate over a former one. `proofs/AdoptionLemmas` says which tables databases hold.
#![tactic(auto)]

mod adoption;

pub use adoption::adopt;
