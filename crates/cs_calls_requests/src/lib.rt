//! The calls of stores, and their bytes.
//!
//! A program that is not written in Rattle reaches a store by calls: it sends the bytes of one, and is sent those of an
//! answer. `docs/CALLS.md` has each call and each byte.
//!
//! ```rust
//! let call = call_read(alloc, b"\x06\x01t")?;
//! assert!(rt; matches!(&call, Call::Count { table } if table.as_str() == "t"));
//! call_write(&mut out, &call)?;
//! assert_eq!(rt; out, b"\x06\x01t");
//! ```
//!
//! `call` has the calls, `kind` their numbers, `reading` reads them, and `writing` writes them. `laws` has the law of
//! their bytes. The parts of calls are
//! those of [`cs_calls_parts`].
#![tactic(auto)]

mod call;
mod kind;
mod laws;
mod reading;
mod writing;

pub use call::Call;
pub use cs_calls_parts::{CallError, CallFault, CallFaultKind, Choices, Column, Columns};
pub use laws::call_bytes_law;
pub use reading::call_read;
pub use writing::call_write;
