//! Tables of rows by key, and edits of their rows.
//!
//! ```rust
//! let mut rows = MemRows::new(alloc);
//! rows.declare(alloc, "t", &[name_a, name_b], &[true, false], &[false, false])?;
//! let insert = Edit::Insert { table: name_t, row };
//! let written = edit_in(alloc, &mut rows, &insert)?;
//! assert_eq!(rt; rows.list(alloc, "t")?.len(), 1);
//! ```
//!
//! `rows` has the trait of what holds rows: a finite map. `memory` holds them in memory. `schema` has what a table
//! declares, `edit` the edits of rows, `editing` carries them out over any rows, and `fault` says why a call is
//! refused.
#![tactic(auto)]

mod edit;
mod editing;
mod fault;
mod memory;
mod rows;
mod schema;

pub use edit::{Edit, Written};
pub use editing::edit_in;
pub use fault::{Cause, StoreError};
pub use memory::MemRows;
pub use rows::Rows;
pub use schema::Schema;
