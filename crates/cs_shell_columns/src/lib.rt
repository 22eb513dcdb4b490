//! What statements ask of a table: which of its columns are its key, which row conditions name, and what
//! assignments make of a row.
//!
//! ```rust
//! // of a table t(a, b) whose key is a: UPDATE t SET b='y' WHERE a=1;
//! check_assignments(alloc, &schema, &sets)?;
//! check_conditions(alloc, &schema, &conditions)?;
//! if let Some(key) = named_key(alloc, &schema, &conditions)? { .. }
//! let row = assign(alloc, &schema, &sets, &former)?;
//! ```
//!
//! `columns` has the columns of a key, and checks the columns of assignments and of conditions. `rows` makes
//! the key that conditions name, and the row that assignments make. `names` has the names that both look up,
//! and `fault` what is refused.
#![tactic(auto)]

mod columns;
mod fault;
mod names;
mod rows;

pub use columns::{check_assignments, check_conditions, key_marks};
pub use fault::{ColumnError, UnknownColumn};
pub use rows::{assign, named_key};
