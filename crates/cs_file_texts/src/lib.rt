//! The readable texts of changesets, and how they are written.
//!
//! ```rust
//! // An INSERT of ('x') into the table t of one column.
//! let changeset = cs_wire::read(alloc, b"\x54\x01\x01t\x00\x12\x00\x03\x01x")?;
//! let mut text = Told::new(Vec::new(alloc));
//! sql_text(&changeset, &mut text)?;
//! assert_eq!(rt; text.into_inner(), b"INSERT INTO \"t\" VALUES('x');\n");
//! ```
//!
//! `texts` prints changesets, owned ones and those in a file. `gather` buffers what is printed. `told` wraps a reader
//! or a writer and remembers whether a call failed. `fault` is a failed write.
//!
//! A crate above writes lines of its own by [`add_pieces`], and then [`Gather::flush`]. `Form` and `write_tables` are
//! for `cs_files`, which prints files.
#![tactic(auto)]

mod fault;
mod gather;
mod texts;
mod told;

pub use fault::OutputFault;
pub use gather::Gather;
pub use texts::{Form, Piece, add_pieces, dump_text, sql_text, write_tables};
pub use told::{ReadCall, Told, WriteCall, write_whole};
