//! The `changeset` tool as a library: the command line. It passes on the names of lower crates that a program needs.
//!
//! ```rust
//! // An INSERT of ('x') into the table t of one column, and the DELETE of that row.
//! let inverse = invert_bytes(alloc, b"\x54\x01\x01t\x00\x12\x00\x03\x01x")?;
//! assert_eq!(rt; inverse, b"\x54\x01\x01t\x00\x09\x00\x03\x01x");
//! let mut store = Store::new_memory(alloc)?;
//! let lines = b"CREATE TABLE t(a, PRIMARY KEY(a));\nINSERT INTO t VALUES('x');\nSELECT * FROM t;\n";
//! let status = run_script(alloc, &mut store, &mut Told::new(lines.as_slice()), &mut Told::new(&mut output));
//! assert_eq!(rt; output, b"'x'\n");
//! ```
//!
//! [`cs_shell_command_line`] reads the words of a command line. [`cs_shell_commands`] has the commands, over a folder
//! of [`cs_folder`] and [`cs_store_folder`], and `scripting` the script that a command line runs on the store in a
//! file. `words` carries out the words of a command line.
#![tactic(auto)]

mod scripting;
mod words;

pub use cs_files::{
    FileFault, OutputFault, PrintError, Told, ToolFault, concat_bytes, dump_file, dump_text,
    first_fault, invert_bytes, number_keys_bytes, print_dump, print_sql, sql_file, sql_text,
};
pub use cs_folder::{Folder, FolderError, HostFolder, MemoryFolder};
pub use cs_group::SchemaFault;
pub use cs_shell_command_line::{Action, WordsFault, parse_words};
pub use cs_shell_commands::{apply, concat, dump, invert, sql};
pub use cs_shell_grammar::{Assignment, Command, LineFault, SyntaxFault, parse_line};
pub use cs_shell_replies::report_text;
pub use cs_shell_script::{Status, run_script, script_net_law};
pub use cs_store_folder::{StoreFolder, Visitor};
pub use cs_wire::{ReadError, ReadFault, ReadFaultKind};
pub use words::{print_usage, run_words, run_words_in};
