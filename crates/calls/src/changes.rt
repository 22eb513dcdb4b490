//! Calls on changesets.

use cs_group::{ConcatFault, Merged, concat, merge, number_keys};
use cs_value::{NoMemory, OwnedValue, Row};
use cs_wire::{Change, Changeset, Cursor, Entry, Group, Header, Item, ReadError, read, write};
use std::alloc::Global;

/// The INSERTs of ('k', 'x') and ('l', 'y') into the table t, whose first column is its key, and that of 'b' into u.
const INSERTS: &[u8] =
    b"T\x02\x01\x00t\x00\x12\x00\x03\x01k\x03\x01x\x12\x00\x03\x01l\x03\x01yT\x01\x01u\x00\x12\x00\x03\x01b";

/// The UPDATE of that 'x' to 'z', and the INSERT of ('m', NULL).
const UPDATE: &[u8] =
    b"T\x02\x01\x00t\x00\x17\x00\x03\x01k\x03\x01x\x00\x03\x01z\x12\x00\x03\x01m\x05";

/// Goes through the first items of a file, copies each, and returns how many bytes names and keys have.
pub(crate) fn go_through(alloc: Global) -> Result<usize, ReadError> {
    let mut cursor = Cursor::new(alloc, INSERTS);
    let mut bytes = 0usize;
    for _ in 0..4 {
        match cursor.next()? {
            Some(Item::Table(header)) => {
                let header = header.to_header(alloc)?;
                bytes = bytes.saturating_add(header.name().len());
            }
            Some(Item::Entry(entry)) => {
                let _copy = entry.to_entry(alloc)?;
                bytes = bytes.saturating_add(entry.key(alloc)?.bytes().len());
            }
            None => {}
        }
    }
    Ok(bytes)
}

/// Asks for the first item of a file that claims 32767 columns, and has none.
pub(crate) fn read_claim(alloc: Global) -> Result<usize, ReadError> {
    let mut cursor = Cursor::new(alloc, b"\x54\x81\xff\x7f");
    match cursor.next()? {
        Some(_) => Ok(1),
        None => Ok(0),
    }
}

/// Copies the groups of a changeset, and returns how many bytes the copy is written with.
pub(crate) fn copy_groups(alloc: Global) -> Result<usize, ReadError> {
    let mut copies = Changeset::new(alloc);
    for group in read(alloc, INSERTS)?.groups() {
        if copies.find(group.header().name()).is_none() {
            copies.push(group.copy(alloc)?)?;
        }
    }
    Ok(write(alloc, &copies)?.len())
}

/// Adds an entry to the groups of a file that it fits, and returns how many entries all groups have.
pub(crate) fn add_entry(alloc: Global) -> Result<usize, ReadError> {
    let entry = insertion(alloc, 1)?;
    let mut count = 0usize;
    for mut group in read(alloc, INSERTS)?.into_groups() {
        if group.header().admits(&entry) {
            let key = group.key_of(alloc, &entry)?;
            if group.find(&key).is_none() {
                group.push_with_key(key, entry.copy(alloc)?)?;
            }
        }
        count = count.saturating_add(group.entries().len());
    }
    Ok(count)
}

/// A row of one number.
fn row_of(alloc: Global, number: i64) -> Result<Row, NoMemory> {
    let mut values = Vec::new(alloc);
    values.push(OwnedValue::Int(number))?;
    Ok(Row::new(values))
}

/// The INSERT of a row of one number.
fn insertion(alloc: Global, number: i64) -> Result<Entry, NoMemory> {
    Ok(Entry {
        indirect: false,
        change: Change::Insert(row_of(alloc, number)?),
    })
}

/// Makes a group of two entries, and returns how many it has.
pub(crate) fn make_group(alloc: Global) -> Result<usize, NoMemory> {
    match first_group(alloc)? {
        Some(mut group) => {
            add_second(alloc, &mut group)?;
            Ok(group.entries().len())
        }
        None => Ok(0),
    }
}

/// Makes a group of an INSERT of 1.
fn first_group(alloc: Global) -> Result<Option<Group>, NoMemory> {
    let flags = [1];
    if !Header::fits("t", &flags) {
        return Ok(None);
    }
    let name = String::from_str(alloc, "t")?;
    let header = Header::new(name, Vec::from_slice(alloc, &flags)?);
    let first = insertion(alloc, 1)?;
    if !header.admits(&first) {
        return Ok(None);
    }
    Ok(Some(Group::new(alloc, header, first)?))
}

/// Adds the INSERT of 2 to a group that it fits.
fn add_second(alloc: Global, group: &mut Group) -> Result<(), NoMemory> {
    let second = insertion(alloc, 2)?;
    if group.header().admits(&second) && group.find(&group.key_of(alloc, &second)?).is_none() {
        group.push(second)?;
    }
    Ok(())
}

/// Numbers the keys of a changeset, and returns how many bytes it is written with.
pub(crate) fn number_read(alloc: Global) -> Result<usize, ReadError> {
    let numbered = number_keys(alloc, read(alloc, UPDATE)?)?;
    Ok(write(alloc, &numbered)?.len())
}

/// Concatenates two changesets, and returns how many bytes the result is written with.
pub(crate) fn join_read(alloc: Global) -> Result<usize, ReadError> {
    let (first, second) = (read(alloc, INSERTS)?, read(alloc, UPDATE)?);
    match concat(alloc, &first, &second) {
        Ok(both) => Ok(write(alloc, &both)?.len()),
        Err(ConcatFault::Fault(_)) => Ok(0),
        Err(ConcatFault::NoMemory) => Err(ReadError::NoMemory),
    }
}

/// Merges the INSERT of a row and its DELETE, and returns whether nothing is left.
pub(crate) fn merge_two(alloc: Global) -> Result<usize, NoMemory> {
    let mut values = Vec::new(alloc);
    values.push(OwnedValue::Int(1))?;
    let row = Row::new(values);
    let first = Entry {
        indirect: false,
        change: Change::Insert(row.copy(alloc)?),
    };
    let second = Entry {
        indirect: false,
        change: Change::Delete(row),
    };
    match merge(alloc, &[1], &first, &second)? {
        Merged::Vanish => Ok(1),
        _ => Ok(0),
    }
}
