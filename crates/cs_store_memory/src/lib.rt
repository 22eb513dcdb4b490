//! Stores in memory, over files in memory.
//!
//! ```rust
//! let mut store = open_memory(alloc)?;
//! store.declare(alloc, "t", &[name_a, name_b], &[true, false], &[false, false])?;
//! ```
//!
//! `file` has a file in memory as a disk, and `store` opens a store in two of them. A row is removed in the time that a
//! store in a file takes. [`Store::new_memory`](cs_store::Store::new_memory) takes time in proportion to the store for
//! that.
#![tactic(auto)]

mod file;
mod store;

pub use file::MemoryFile;
pub use store::{
    MemoryStore, close_file, closed_file_law, memory_files_law, memory_options, open_file,
    open_memory,
};
