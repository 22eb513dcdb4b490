//! The records of tables: what is stored of schemas and rows, and whether records are those of tables.
//!
//! ```rust
//! let bytes = write_declaration(alloc, &schema)?;
//! assert_eq!(rt; read_declaration(alloc, &bytes)?.columns().len(), schema.columns().len());
//! ```
//!
//! `declaration` has the bytes of schemas and `stored_row` those of rows. `version` has the versions of the records
//! that are read, and `check` reads the declarations of a store and tests whether each record is a row of a table.
#![tactic(auto)]

mod check;
mod declaration;
mod stored_row;
mod version;

pub use check::{Schemas, read_name, read_schemas, read_version};
pub use declaration::{read_declaration, write_declaration};
pub use stored_row::read_row;
pub use version::{VERSION, Version};
