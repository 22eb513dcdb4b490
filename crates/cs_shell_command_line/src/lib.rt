//! The options and operands of the command line, and what its words ask for.
//!
//! ```rust
//! // changeset a.cs invert b.cs
//! let words = env::args(&rt)?.collect(rt.alloc())?;
//! match parse_words(alloc, &words)? {
//!     Action::Invert { file, out } => invert(alloc, &mut folder, file, out)?,
//!     _ => {}
//! }
//! ```
//!
//! `command_line` has the options and the operands as `clap` reads them, and `usage` the text that lists them. `parse`
//! takes from what `clap` matched what is asked for: an `action`, or else a `fault`.
#![tactic(auto)]

mod action;
mod command_line;
mod fault;
mod parse;
mod usage;

pub use action::{Action, IN_MEMORY};
pub use fault::WordsFault;
pub use parse::parse_words;
pub use usage::USAGE;
