//! The items of a file, in place, and net changes.

use crate::UPDATE;
use cs_group::{changeset_inverses_law, inverse_twice_law, net_change};
use cs_value::{Field, Value};
use cs_wire::{
    Change, Cursor, EntryRef, Item, ReadError, ReadFault, ReadFaultKind, changeset_files_law,
    entry_inverses_law, row_keys_law,
};
use std::process::Abort;

/// Returns the kind of an item, if there is one.
fn word_of(next: &Result<Option<Item<'_>>, ReadError>) -> &'static str {
    match next {
        Ok(Some(Item::Table(_))) => "table",
        Ok(Some(Item::Entry(_))) => "entry",
        _ => "none",
    }
}

/// Whether a cursor returned this fault, or the end if it is none.
fn is_ending(next: &Result<Option<Item<'_>>, ReadError>, fault: Option<ReadFault>) -> bool {
    match next {
        Ok(None) => fault.is_none(),
        Err(ReadError::Fault(found)) => fault == Some(*found),
        _ => false,
    }
}

/// A file, its items up to its end or its first fault, and that fault.
type Ending = (&'static [u8], &'static [&'static str], Option<ReadFault>);

const ENDINGS: &[Ending] = &[
    (b"", &[], None),
    (UPDATE, &["table", "entry"], None),
    (
        b"\x50",
        &[],
        Some(ReadFault {
            kind: ReadFaultKind::Patchset,
            place: 0,
        }),
    ),
    (
        b"T\x02\x01\x00t\x00\x12",
        &["table"],
        Some(ReadFault {
            kind: ReadFaultKind::Truncated,
            place: 7,
        }),
    ),
    // The INSERT and the DELETE of one row.
    (
        b"T\x02\x01\x00t\x00\x12\x00\x01\x00\x00\x00\x00\x00\x00\x00\x01\x03\x01x\
\x09\x00\x01\x00\x00\x00\x00\x00\x00\x00\x01\x03\x01x",
        &["table", "entry"],
        Some(ReadFault {
            kind: ReadFaultKind::DuplicateKey,
            place: 20,
        }),
    ),
];

/// Asserts what a cursor over a file returns in turn. Its end or fault comes once, and three more times.
fn expect_items(rt: &(impl Abort + AllocGlobal), ending: Ending) {
    let (file, words, fault) = ending;
    let mut cursor = Cursor::new(rt.alloc(), file);
    for word in words {
        assert!(rt; word_of(&cursor.next()) == *word);
    }
    for _ in 0..4 {
        assert!(rt; is_ending(&cursor.next(), fault));
    }
}

#[test]
fn returns_an_end_or_a_fault_again(rt: HostRuntime) {
    for ending in ENDINGS {
        expect_items(&rt, *ending);
    }
}

/// The entry of a file that has one.
fn entry_of<'a>(rt: &(impl Abort + AllocGlobal), file: &'a [u8]) -> EntryRef<'a> {
    let mut cursor = Cursor::new(rt.alloc(), file);
    let _table = cursor.next();
    match cursor.next() {
        Ok(Some(Item::Entry(entry))) => entry,
        _ => panic!(rt; "no entry"),
    }
}

/// The entry of [`UPDATE`], and its inverse.
const UPDATE_ENTRY: &[u8] = b"\x17\x00\x01\x00\x00\x00\x00\x00\x00\x00\x01\x03\x01x\x00\x03\x01y";

const INVERSE_ENTRY: &[u8] = b"\x17\x00\x01\x00\x00\x00\x00\x00\x00\x00\x01\x03\x01y\x00\x03\x01x";

/// Asserts that an entry updates the row (1, old) to (1, new).
fn expect_update(rt: &impl Abort, entry: &EntryRef<'_>, old: &str, new: &str) {
    assert!(rt; entry.op() == 0x17 && !entry.indirect());
    assert!(rt; entry.column_count() == 2);
    for (column, before, after) in [
        (0, Field::Defined(Value::Int(1)), Field::Undefined),
        (
            1,
            Field::Defined(Value::Text(old)),
            Field::Defined(Value::Text(new)),
        ),
    ] {
        assert!(rt; column < entry.column_count());
        assert!(rt; entry.old(column) == Some(before));
        assert!(rt; entry.new(column) == Some(after));
    }
}

#[test]
fn shows_an_update_and_its_inverse_in_place(rt: HostRuntime) {
    let entry = entry_of(&rt, UPDATE);
    expect_update(&rt, &entry, "x", "y");
    expect_update(&rt, &entry.inverted(), "y", "x");
}

/// Returns the bytes of the copy of an entry.
fn copied(rt: &(impl Abort + AllocGlobal), entry: &EntryRef<'_>) -> Vec<u8> {
    let copy = entry.to_entry(rt.alloc()).expect(rt, "memory");
    let mut out = Vec::new(rt.alloc());
    let written = EntryRef::from_entry(entry.flags(), &copy).write_to(&mut out);
    written.expect(rt, "memory");
    out
}

#[test]
fn copies_an_update_and_its_inverse(rt: HostRuntime) {
    let entry = entry_of(&rt, UPDATE);
    assert!(rt; copied(&rt, &entry).as_slice() == UPDATE_ENTRY);
    assert!(rt; copied(&rt, &entry.inverted()).as_slice() == INVERSE_ENTRY);
}

#[test]
fn returns_a_change_if_rows_differ(rt: HostRuntime) {
    let row = [Field::Defined(Value::Int(1)), Field::Defined(Value::Null)];
    let other = [Field::Defined(Value::Int(1)), Field::Defined(Value::Int(2))];
    let alloc = rt.alloc();
    let none = net_change(alloc, &[1, 0], Some(&row), Some(&row)).expect(&rt, "memory");
    assert!(rt; none.is_none());
    let some = net_change(alloc, &[1, 0], Some(&row), Some(&other)).expect(&rt, "memory");
    assert!(rt; matches!(some, Some(Change::Update { .. })));
}

/// They do nothing, and are called for their contracts.
#[test]
fn laws_return() {
    changeset_files_law();
    entry_inverses_law();
    row_keys_law();
    changeset_inverses_law();
    inverse_twice_law();
}
