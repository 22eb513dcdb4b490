//! Tests of the public calls on values, changesets and files: of what no contract and no line of a script says.
//!
//! `values` has numbers, texts, rows and keys, `entries` the items of a file and net changes, `files` printed texts,
//! `faults` and `refusals` the numbers, names and texts of faults, `requests` and `answers` calls of stores and what
//! they are answered, `conversions` what lies between calls and stores, `serving` frames, and `calling` the callers
//! that `CALLING.md` of `cs_wire` and of `cs_group` shows. No crate with SQL is linked.
#![tactic(auto)]

#[cfg(test)]
mod answers;
#[cfg(test)]
mod calling;
#[cfg(test)]
mod conversions;
#[cfg(test)]
mod entries;
#[cfg(test)]
mod faults;
#[cfg(test)]
mod files;
#[cfg(test)]
mod refusals;
#[cfg(test)]
mod requests;
#[cfg(test)]
mod serving;
#[cfg(test)]
mod values;

/// An INSERT of (1, 'x') into the table t, whose first column is its key.
#[cfg(test)]
const INSERT: &[u8] = b"T\x02\x01\x00t\x00\x12\x00\x01\x00\x00\x00\x00\x00\x00\x00\x01\x03\x01x";

/// The DELETE of that row.
#[cfg(test)]
const DELETE: &[u8] = b"T\x02\x01\x00t\x00\x09\x00\x01\x00\x00\x00\x00\x00\x00\x00\x01\x03\x01x";

/// The UPDATE of that 'x' to 'y'.
#[cfg(test)]
const UPDATE: &[u8] =
    b"T\x02\x01\x00t\x00\x17\x00\x01\x00\x00\x00\x00\x00\x00\x00\x01\x03\x01x\x00\x03\x01y";
