//! What lies between calls and stores: the key that a call names, the columns of tables, pages of
//! rows, and why a call is refused.
//!
//! ```rust
//! let key = key_of_call(alloc, &table, &schema, &values)?;
//! let columns = columns_of(alloc, &schema)?;
//! ```
//!
//! `key` has the keys, `columns` the columns, `names` the names of tables, `page` the pages,
//! `conflicts` the keys of conflicts, and `refusal` the refusals, with the parts that `docs/CALLS.md` lists.
#![tactic(auto)]

mod columns;
mod conflicts;
mod key;
mod names;
mod page;
mod refusal;

pub use columns::{Declaration, columns_of, declaration_of};
pub use conflicts::change_key;
pub use key::{key_of_call, key_values};
pub use names::{name_text, names_of};
pub use page::Page;
pub use refusal::{declare_refusal, edit_refusal, read_refusal, store_refusal, table_refusal};
