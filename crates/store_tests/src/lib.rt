//! Tests of the public calls on rows, stores, applies and sessions: of what no contract and no line of a script says.
//!
//! `rows` makes rows and edits, and has tables in memory, `edits` the edits of rows in memory and in a batch, `apply`
//! runs of changesets over rows in memory and in batches, and the text of a report, `adoption` databases that are
//! adopted as stores, `session` attached tables, changesets, undos and stores that are not those of a session,
//! `history` actions that are undone and done again, `calling` the callers that `CALLING.md` of `cs_store`, `cs_apply`
//! and `cs_session` shows, and `command_line` command lines over files in memory.
//!
//! The table t of these tests has the columns a and b, with the key a.
#![tactic(auto)]

#[cfg(test)]
mod adoption;
#[cfg(test)]
mod apply;
#[cfg(test)]
mod calling;
#[cfg(test)]
mod command_line;
#[cfg(test)]
mod edits;
#[cfg(test)]
mod history;
#[cfg(test)]
mod rows;
#[cfg(test)]
mod session;

/// An INSERT of (1, 'x') into the table t, whose first column is its key.
#[cfg(test)]
const INSERT: &[u8] = b"T\x02\x01\x00t\x00\x12\x00\x01\x00\x00\x00\x00\x00\x00\x00\x01\x03\x01x";

/// The DELETE of that row.
#[cfg(test)]
const DELETE: &[u8] = b"T\x02\x01\x00t\x00\x09\x00\x01\x00\x00\x00\x00\x00\x00\x00\x01\x03\x01x";

/// The UPDATE of that 'x' to 'y'.
#[cfg(test)]
const UPDATE: &[u8] =
    b"T\x02\x01\x00t\x00\x17\x00\x01\x00\x00\x00\x00\x00\x00\x00\x01\x03\x01x\x00\x03\x01y";

/// An INSERT of (1, NULL).
#[cfg(test)]
const NULL_INSERT: &[u8] = b"T\x02\x01\x00t\x00\x12\x00\x01\x00\x00\x00\x00\x00\x00\x00\x01\x05";
