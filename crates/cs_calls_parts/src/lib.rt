//! What the calls of a store and their answers are made of, and the bytes of each part.
//!
//! ```rust
//! let (name, rest) = read_text(alloc, b"\x01t\x02")?;
//! assert_eq!(rt; name.as_str(), "t");
//! let (limit, rest) = read_count(rest)?;
//! assert!(rt; limit == 2 && rest.is_empty());
//! ```
//!
//! `step` reads the parts, one after another, and `spell` writes them. `part` has what lists are made of, and `lists`
//! the lists of columns and choices. `conflicts` has the conflicts for which choices are made, and `fault` the reasons
//! why bytes are no part.
#![tactic(auto)]

mod conflicts;
mod fault;
mod lists;
mod part;
mod spell;
mod step;

pub use conflicts::{ChosenConflict, FoundConflict};
pub use fault::{CallError, CallFault, CallFaultKind, Misread, Unread};
pub use lists::{Choices, Column, Columns};
pub use part::Part;
pub use spell::{
    write_choice, write_file, write_flag, write_kind, write_list, write_noop, write_number,
    write_option, write_policy, write_row, write_text,
};
pub use step::{
    read_choice, read_count, read_file, read_flag, read_kind, read_list, read_noop, read_number,
    read_option, read_policy, read_row, read_text, refuse,
};
