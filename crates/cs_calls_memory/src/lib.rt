//! Stores in memory that answer calls, without a runtime.
//!
//! ```rust
//! let mut host = MemoryHost::open(alloc, file)?;
//! let answer = host.answer(alloc, call)?;
//! let saved = host.to_bytes(alloc)?;
//! ```
//!
//! `host` has the store, which is open or closed. `closed` has a closed one, and `files` its files: they are copied
//! before they are opened, so that a store is not lost if memory runs out.
#![tactic(auto)]

mod closed;
mod files;
mod host;

pub use closed::ClosedStore;
pub use host::{MemoryHost, SaveFault};
