//! Files by their names: those of a machine, and some in memory.
//!
//! ```rust
//! let mut folder = MemoryFolder::new(alloc);
//! folder.replace(alloc, "a", b"bytes")?;
//! assert_eq!(rt; folder.read(alloc, "a")?.as_slice(), b"bytes");
//! ```
//!
//! `folder` says what reading and replacing a file is, `host` has the files of the machine, which `output` replaces
//! one as a whole, and `memory` has files in memory.
#![tactic(auto)]

mod folder;
mod host;
mod memory;
mod output;

pub use folder::{FILE_LIMIT, Folder, FolderError};
pub use host::HostFolder;
pub use memory::MemoryFolder;
