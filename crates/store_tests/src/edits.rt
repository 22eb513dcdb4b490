//! Edits of rows in memory, and the order in which rows are listed. `calls_tests` has those of stores.

use crate::rows::{Call, edit_of, row_of, tables};
use cs_store::{Rows, StoreError, Written, edit_in};
use cs_value::{Row, Value};
use std::process::Abort;

/// An edit, the number of keys that it writes or why it is refused, and the number of rows of t after it.
type Case = (Call, Result<usize, StoreError>, usize);

/// Edits of a table t that refuses NULL in b and has no rows, in turn.
const CASES: &[Case] = &[
    (
        Call::Insert("t", &[Value::Int(2), Value::Text("x")]),
        Ok(1),
        1,
    ),
    (
        Call::Insert("t", &[Value::Text("a"), Value::Blob(b"y")]),
        Ok(1),
        2,
    ),
    (
        Call::Insert("u", &[Value::Int(3)]),
        Err(StoreError::NoTable),
        2,
    ),
    (
        Call::Insert("t", &[Value::Null]),
        Err(StoreError::RowWidth),
        2,
    ),
    (
        Call::Insert("t", &[Value::Null, Value::Null]),
        Err(StoreError::NullInKey),
        2,
    ),
    (
        Call::Insert("t", &[Value::Int(2), Value::Null]),
        Err(StoreError::NotNull),
        2,
    ),
    (
        Call::Insert("t", &[Value::Int(2), Value::Int(7)]),
        Err(StoreError::KeyTaken),
        2,
    ),
    (
        Call::Update("u", 2, &[Value::Int(3)]),
        Err(StoreError::NoTable),
        2,
    ),
    (
        Call::Update("t", 1, &[Value::Null]),
        Err(StoreError::RowWidth),
        2,
    ),
    (
        Call::Update("t", 1, &[Value::Int(1), Value::Null]),
        Err(StoreError::NotNull),
        2,
    ),
    (
        Call::Update("t", 1, &[Value::Int(1), Value::Int(7)]),
        Err(StoreError::NoRow),
        2,
    ),
    (
        Call::Update("t", 2, &[Value::Text("a"), Value::Int(7)]),
        Err(StoreError::KeyTaken),
        2,
    ),
    (
        Call::Update("t", 2, &[Value::Int(2), Value::Int(7)]),
        Ok(1),
        2,
    ),
    (
        Call::Update("t", 2, &[Value::Int(3), Value::Int(7)]),
        Ok(2),
        2,
    ),
    (Call::Delete("u", 3), Err(StoreError::NoTable), 2),
    (Call::Delete("t", 2), Err(StoreError::NoRow), 2),
    (Call::Delete("t", 3), Ok(1), 1),
];

/// Returns the rows of t.
pub(crate) fn listed<B: Rows>(rt: &(impl Abort + AllocGlobal), rows: &mut B) -> Vec<Row> {
    match rows.schema(rt.alloc(), "t").expect(rt, "memory") {
        Some(_) => rows.list(rt.alloc(), "t").expect(rt, "memory"),
        None => panic!(rt; "no table"),
    }
}

/// Returns the number of keys that were written.
fn count(answer: Result<Vec<Written>, StoreError>) -> Result<usize, StoreError> {
    match answer {
        Ok(written) => Ok(written.len()),
        Err(error) => Err(error),
    }
}

/// Carries out an edit, and returns the number of keys that it writes.
fn edit<B: Rows>(
    rt: &(impl Abort + AllocGlobal),
    rows: &mut B,
    call: Call,
) -> Result<usize, StoreError> {
    count(edit_in(rt.alloc(), rows, &edit_of(rt, call)))
}

/// Asserts what rows return for the edits, and how many rows there are after each.
fn expect_answers<B: Rows>(rt: &(impl Abort + AllocGlobal), rows: &mut B) {
    for (place, case) in CASES.iter().enumerate() {
        let (call, answer, held) = *case;
        assert!(rt; edit(rt, rows, call) == answer, "at {place}");
        assert!(rt; listed(rt, rows).len() == held, "at {place}");
    }
}

/// Rows in the order in which they are listed, by the bytes of their keys.
const LISTED: &[&[Value<'static>]] = &[
    &[Value::Int(0), Value::Int(7)],
    &[Value::Int(256), Value::Int(7)],
    &[Value::Int(-1), Value::Int(7)],
    &[Value::Text(""), Value::Int(7)],
    &[Value::Text("\0"), Value::Int(7)],
    &[Value::Text("b"), Value::Int(7)],
    &[Value::Text("aa"), Value::Int(7)],
    &[Value::Blob(b""), Value::Int(7)],
    &[Value::Blob(b"\x00"), Value::Int(7)],
    &[Value::Blob(b"\x01"), Value::Int(7)],
    &[Value::Blob(b"\x00\x00"), Value::Int(7)],
];

/// Inserts these rows in another order, and asserts how they are listed.
fn expect_order<B: Rows>(rt: &(impl Abort + AllocGlobal), rows: &mut B) {
    for row in LISTED.iter().rev() {
        assert!(rt; edit(rt, rows, Call::Insert("t", row)) == Ok(1));
    }
    let listed = listed(rt, rows);
    assert!(rt; listed.len() == LISTED.len());
    for (row, wanted) in listed.iter().zip(LISTED) {
        assert!(rt; *row == row_of(rt, wanted));
    }
}

#[test]
fn edits_rows_in_memory(rt: HostRuntime) {
    expect_answers(&rt, &mut tables(&rt));
    expect_order(&rt, &mut tables(&rt));
}
