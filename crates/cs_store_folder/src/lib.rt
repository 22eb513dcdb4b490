//! Stores in the files of a folder.
//!
//! `visiting` says what a visit of a store is, `host` visits the stores of the machine, and `memory` those in files in
//! memory.
#![tactic(auto)]

mod host;
mod memory;
mod visiting;

pub use visiting::{StoreFolder, Visitor};
