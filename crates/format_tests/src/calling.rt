//! Callers of `cs_wire` and `cs_group`, as `CALLING.md` of these crates shows them.

use crate::{DELETE, INSERT, UPDATE};
use cs_group::{ConcatFault, concat, invert};
use cs_value::{OwnedValue, Row};
use cs_wire::{Change, Changeset, Entry, ReadError, read, write};
use std::alloc::Global;
use std::process::Abort;

/// An INSERT of (1, NULL, NULL) into a table t of three columns, whose first column is its key.
const WIDER_INSERT: &[u8] =
    b"T\x03\x01\x00\x00t\x00\x12\x00\x01\x00\x00\x00\x00\x00\x00\x00\x01\x05\x05";

/// The file with one more entry in each table whose columns it fits and that has not its key yet.
fn add_to_each(alloc: Global, file: &[u8], entry: &Entry) -> Result<Vec<u8>, ReadError> {
    let mut all = Changeset::new(alloc);
    for mut group in read(alloc, file)?.into_groups() {
        if group.header().admits(entry) {
            let key = group.key_of(alloc, entry)?;
            if group.find(&key).is_none() {
                group.push_with_key(key, entry.copy(alloc)?)?;
            }
        }
        if all.find(group.header().name()).is_none() {
            all.push(group)?;
        }
    }
    Ok(write(alloc, &all)?)
}

/// Returns the insertion of a row of one number.
fn insertion(rt: &(impl Abort + AllocGlobal), number: i64) -> Entry {
    let values = vec![in rt.alloc(); OwnedValue::Int(number)].expect(rt, "memory");
    Entry {
        indirect: false,
        change: Change::Insert(Row::new(values)),
    }
}

/// The INSERT of 'a' into a table u of one column, which is its key, and that with the INSERT of 2 after it.
const ONE: &[u8] = b"T\x01\x01u\x00\x12\x00\x03\x01a";

const BOTH: &[u8] = b"T\x01\x01u\x00\x12\x00\x03\x01a\x12\x00\x01\x00\x00\x00\x00\x00\x00\x00\x02";

#[test]
fn adds_an_entry(rt: HostRuntime) {
    let entry = insertion(&rt, 2);
    for file in [ONE, BOTH] {
        let both = add_to_each(rt.alloc(), file, &entry).expect(&rt, "memory");
        assert!(rt; both.as_slice() == BOTH);
    }
}

/// The file that undoes two others, the one after the other, or None where a table of theirs
/// differs.
fn undo_of(alloc: Global, first: &[u8], second: &[u8]) -> Result<Option<Vec<u8>>, ReadError> {
    let (first, second) = (read(alloc, first)?, read(alloc, second)?);
    match concat(alloc, &first, &second) {
        Ok(both) => Ok(Some(write(alloc, &invert(alloc, both)?)?)),
        Err(ConcatFault::Fault(_)) => Ok(None),
        Err(ConcatFault::NoMemory) => Err(ReadError::NoMemory),
    }
}

#[test]
fn undoes_two_files(rt: HostRuntime) {
    for (first, second, undone) in [
        (DELETE, INSERT, Some(b"".as_slice())),
        (DELETE, UPDATE, Some(INSERT)),
        (INSERT, WIDER_INSERT, None),
    ] {
        let undo = undo_of(rt.alloc(), first, second).expect(&rt, "memory");
        assert!(rt; undo.as_deref() == undone);
    }
}

/// How many keys a large file has.
const MANY: u64 = 20_000;

/// Returns a file with many entries of this operation, each of a row of a table u of one column.
fn many(rt: &(impl Abort + AllocGlobal), operation: u8) -> Vec<u8> {
    let mut file = Vec::from_slice(rt.alloc(), b"T\x01\x01u\x00").expect(rt, "memory");
    for key in 0..MANY {
        file.extend_from_slice(&[operation, 0, 1])
            .expect(rt, "memory");
        file.extend_from_slice(&key.to_be_bytes())
            .expect(rt, "memory");
    }
    file
}

#[test]
fn undoes_two_files_of_many_keys(rt: HostRuntime) {
    let (inserts, deletes) = (many(&rt, 0x12), many(&rt, 0x09));
    for (first, second, undone) in [
        (&deletes, &inserts, b"".as_slice()),
        (&inserts, &inserts, deletes.as_slice()),
    ] {
        let undo = undo_of(rt.alloc(), first, second).expect(&rt, "memory");
        assert!(rt; undo.as_deref() == Some(undone));
    }
}
