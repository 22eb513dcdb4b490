//! Stores: tables of rows by key in a database.
//!
//! ```rust
//! let mut store = Store::new_memory(alloc)?;
//! store.declare(alloc, "t", &[name_a, name_b], &[true, false], &[false, false])?;
//! store.edit(alloc, &Edit::Insert { table: name_t, row })?;
//! assert_eq!(rt; store.rows(alloc, "t")?.len(), 1);
//! ```
//!
//! `store` has what a caller holds, and `batch` the rows of a store inside one transaction. A `transaction` owns its
//! store, and gives it back as it ends. `opening` opens the files of a database as a store, and `adoption` takes one
//! over in one transaction.
//!
//! The names of `cs_rows` are passed on.
#![tactic(auto)]

mod batch;
mod laws;
mod opening;
mod store;
mod transaction;

pub use batch::SqlBatch;
pub use cs_rows::{Cause, Edit, MemRows, Rows, Schema, StoreError, Written, edit_in};
pub use laws::memory_law;
pub use opening::Unopened;
pub use store::Store;
pub use transaction::Transaction;
