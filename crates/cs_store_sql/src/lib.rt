//! One SQL table of records, a statement at a time.
//!
//! A record has the name of a table, a key and a value; no two records have the same name and key. The records are the
//! rows of the table `rec` of a database.
//!
//! ```rust
//! let mut conn = Connection::open_in_memory(alloc)?;
//! transactions::begin(&mut conn)?;
//! make_table(&mut conn, alloc)?;
//! put_record(&mut conn, "t", b"key", b"value", Place::Unknown)?;
//! transactions::commit(&mut conn)?;
//! assert_eq!(rt; find_record(&mut conn, "t", b"key")?.map(|found| found.value), Some(value));
//! ```
//!
//! `records` has the statements that read and write records, `scan` the one that tests them all, and `texts` their
//! texts. `layout` finds the table of records among what a database declares. `meaning` compiles each text under that
//! schema, and `expected` compares what is compiled with the statement that it is meant to be. `transactions` has the
//! statements that begin and end a transaction, and `fault` says why a call is refused.
#![tactic(auto)]

mod expected;
mod fault;
mod layout;
mod meaning;
mod records;
mod scan;
mod texts;
pub mod transactions;

pub use fault::RecordsError;
pub use layout::{Declaration, declaration_of};
pub use records::{
    Found, Keyed, Place, add_record, count_records, find_record, list_page, list_records,
    make_table, put_record, remove_record,
};
pub use scan::{RecordTest, all_pass};
