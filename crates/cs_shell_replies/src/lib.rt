//! The answers to lines of a script and to command lines, and how they are printed.
//!
//! ```rust
//! let refusal = Refusal::from(StoreError::NoTable);
//! write_refusal(&mut Told::new(&mut output), &refusal)?;
//! assert_eq!(rt; output, b"error 31 NoTable\n");
//! ```
//!
//! A line is answered with a `reply` or a `refusal`, and a command line too. `print` writes them, and `report` the
//! text of what an apply did.
#![tactic(auto)]

mod print;
mod refusal;
mod reply;
mod report;

pub use print::{write_answer, write_refusal, write_reply};
pub use refusal::{Detail, Refusal};
pub use reply::Reply;
pub use report::report_text;
