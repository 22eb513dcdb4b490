//! The tables and rows of a store, read and written through a connection to its database.
//!
//! ```rust
//! let mut known = None;
//! begin_with(&mut conn, &mut known)?;
//! put_row(&mut conn, &mut known, alloc, "t", &key, &row)?;
//! assert_eq!(rt; find_row(&mut conn, &mut known, alloc, "t", &key)?, Some(row));
//! commit_with(&mut conn, &mut known)?;
//! ```
//!
//! `known` has the calls on tables and rows, which read the schema of a table once, and begins and commits a transaction
//! so that the table stays known. `tables` has what they do with records. `ending` ends a transaction, and marks it.
//! `refusal` turns a refusal of the database into one of a store.
#![tactic(auto)]

mod ending;
mod known;
mod refusal;
mod tables;

pub use ending::{commit, go_back, mark, release};
pub use known::{
    KnownTable, add_row, add_table, begin_with, commit_with, count_rows, find_row, find_schema,
    list_page, list_rows, put_row, remove_row,
};
pub use refusal::refused;
pub use tables::list_tables;
