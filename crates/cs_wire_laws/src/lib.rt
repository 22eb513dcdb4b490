//! Laws of the read faults of changesets.
//!
//! ```rust
//! read_fault_once_law();
//! ```
//!
//! A law is a function without effect. Its contract states the law, and a caller that needs it calls it.
#![tactic(auto)]

mod laws;

pub use laws::{read_fault_once_law, read_fault_some_law};
