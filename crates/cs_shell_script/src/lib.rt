//! Scripts: lines are read from an input, answered one after another, and the replies are printed.
//!
//! ```rust
//! let mut store = Store::new_memory(alloc)?;
//! let lines = b"CREATE TABLE t(a, PRIMARY KEY(a));\nINSERT INTO t VALUES('x');\nSELECT * FROM t;\n";
//! let status = run_script(alloc, &mut store, &mut Told::new(lines.as_slice()), &mut Told::new(&mut output));
//! assert_eq!(rt; output, b"'x'\n");
//! ```
//!
//! `script` reads lines by a `reader`, passes each to an interpreter, and prints the replies. `shell` is the
//! interpreter over a store: [`cs_shell_executor`] has what it answers. `laws` has what holds of whole scripts.
//! [`cs_shell_replies`] has the replies and how they are printed.
#![tactic(auto)]

mod laws;
mod reader;
mod script;
mod shell;

pub use laws::{net_law, script_net_law};
pub use script::Status;
pub use shell::run_script;
