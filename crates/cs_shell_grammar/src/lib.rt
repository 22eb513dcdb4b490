//! The lines of a script: statements on tables and rows, and dot lines on changesets and on the session.
//!
//! ```rust
//! let Some(Command::Select { table }) = parse_line(alloc, "select * from t;")? else { .. };
//! assert_eq!(rt; table, "t");
//! ```
//!
//! `line` reads a line as a `command`, or returns a `fault`. A line is a `statement`, which consists of tokens, or a
//! `dot` line, which consists of words. `.apply` has options: a choice for each kind of conflict, and `noop=ignore` to
//! ignore changes that would change nothing. `cs_shell_tokens` takes tokens and words from the front of a line.
//! `choice` has the names of the kinds of conflicts and of the choices.
#![tactic(auto)]

mod choice;
mod command;
mod dot;
mod fault;
mod line;
mod statement;

pub use choice::{choice_name, kind_name};
pub use command::{Assignment, Command};
pub use fault::{LineFault, SyntaxFault};
pub use line::parse_line;
