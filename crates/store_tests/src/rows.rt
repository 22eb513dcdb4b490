//! Rows, edits, tables in memory, and stores in memory.

use cs_store::{Edit, MemRows, Schema, Store, StoreError, edit_in};
use cs_value::{Key, OwnedValue, Row, Value};
use sqlite::{Alter, MemStore};
use std::process::Abort;

/// Returns two names.
pub(crate) fn names(rt: &(impl Abort + AllocGlobal), first: &str, second: &str) -> Vec<String> {
    let first = String::from_str(rt.alloc(), first).expect(rt, "memory");
    let second = String::from_str(rt.alloc(), second).expect(rt, "memory");
    vec![in rt.alloc(); first, second].expect(rt, "memory")
}

/// Returns a value that owns its content.
fn owned(rt: &(impl Abort + AllocGlobal), value: Value<'_>) -> OwnedValue {
    match value {
        Value::Int(number) => OwnedValue::Int(number),
        Value::Text(text) => {
            assert!(rt; OwnedValue::fits(text.len()));
            Value::Text(text).to_owned(rt.alloc()).expect(rt, "memory")
        }
        Value::Blob(bytes) => {
            assert!(rt; OwnedValue::fits(bytes.len()));
            Value::Blob(bytes).to_owned(rt.alloc()).expect(rt, "memory")
        }
        Value::Null => OwnedValue::Null,
    }
}

/// Returns the row of these values.
pub(crate) fn row_of(rt: &(impl Abort + AllocGlobal), values: &[Value<'_>]) -> Row {
    let mut row = Vec::new(rt.alloc());
    for value in values {
        row.push(owned(rt, *value)).expect(rt, "memory");
    }
    Row::new(row)
}

/// Returns the key of an integer.
fn key_of(rt: &(impl Abort + AllocGlobal), number: i64) -> Key {
    Key::from_values(rt.alloc(), &[OwnedValue::Int(number)]).expect(rt, "memory")
}

/// An edit of borrowed values.
#[derive(Clone, Copy)]
pub(crate) enum Call {
    Insert(&'static str, &'static [Value<'static>]),
    Update(&'static str, i64, &'static [Value<'static>]),
    Delete(&'static str, i64),
}

/// Returns the insertion of a row.
fn insertion(rt: &(impl Abort + AllocGlobal), table: &str, values: &[Value<'_>]) -> Edit {
    Edit::Insert {
        table: String::from_str(rt.alloc(), table).expect(rt, "memory"),
        row: row_of(rt, values),
    }
}

/// Returns the update of the row with this key.
fn update(rt: &(impl Abort + AllocGlobal), table: &str, key: i64, values: &[Value<'_>]) -> Edit {
    Edit::Update {
        table: String::from_str(rt.alloc(), table).expect(rt, "memory"),
        key: key_of(rt, key),
        row: row_of(rt, values),
    }
}

/// Returns the deletion of the row with this key.
fn deletion(rt: &(impl Abort + AllocGlobal), table: &str, key: i64) -> Edit {
    Edit::Delete {
        table: String::from_str(rt.alloc(), table).expect(rt, "memory"),
        key: key_of(rt, key),
    }
}

/// Returns the edit that owns these values.
pub(crate) fn edit_of(rt: &(impl Abort + AllocGlobal), call: Call) -> Edit {
    match call {
        Call::Insert(table, row) => insertion(rt, table, row),
        Call::Update(table, key, row) => update(rt, table, key, row),
        Call::Delete(table, key) => deletion(rt, table, key),
    }
}

/// Returns tables in memory with t, which refuses NULL in b and has no rows.
pub(crate) fn tables(rt: &(impl Abort + AllocGlobal)) -> MemRows {
    let mut rows = MemRows::new(rt.alloc());
    let columns = names(rt, "a", "b");
    rows.declare(rt.alloc(), "t", &columns, &[true, false], &[false, true])
        .expect(rt, "a table");
    rows
}

/// Declares a table in a store, with the columns of t. It refuses NULL in the columns with these marks.
fn declaration<S: Alter>(
    rt: &(impl Abort + AllocGlobal),
    store: &mut Store<S>,
    name: &str,
    refuses: &[bool],
) -> Result<(), StoreError> {
    let columns = names(rt, "a", "b");
    store.declare(rt.alloc(), name, &columns, &[true, false], refuses)
}

/// Returns a store in memory with t, which refuses NULL in the columns with these marks and has no rows.
pub(crate) fn store_of(rt: &(impl Abort + AllocGlobal), refuses: &[bool]) -> Store<MemStore> {
    let mut store = Store::new_memory(rt.alloc()).expect(rt, "a store");
    declaration(rt, &mut store, "t", refuses).expect(rt, "a table");
    store
}

/// Returns the rows of t in a store.
pub(crate) fn rows_of<S: Alter>(rt: &(impl Abort + AllocGlobal), store: &mut Store<S>) -> Vec<Row> {
    store.rows(rt.alloc(), "t").expect(rt, "a table")
}

/// Ends a store.
pub(crate) fn end(store: Store<MemStore>) {
    let _conn = store.into_connection();
}

/// Marks of the key and of the columns that refuse NULL with which two columns make no table: no column is of the key,
/// or there are fewer or more marks.
const OTHER_MARKS: &[(&[bool], &[bool])] = &[
    (&[false, false], &[false, false]),
    (&[false, false], &[true, true]),
    (&[], &[]),
    (&[], &[false, false]),
    (&[true], &[false, false]),
    (&[true], &[true]),
    (&[true, false, false], &[false, false]),
    (&[true, false, false], &[false, false, false]),
    (&[true, false], &[]),
    (&[true, false], &[false]),
    (&[true, false], &[true]),
    (&[true, false], &[false, false, false]),
];

#[test]
fn refuses_other_marks_in_memory(rt: HostRuntime) {
    let columns = names(&rt, "a", "b");
    let mut rows = MemRows::new(rt.alloc());
    for (keys, refuses) in OTHER_MARKS {
        let schema = Schema::new(rt.alloc(), &columns, keys, refuses);
        assert!(rt; matches!(schema, Err(StoreError::BadSchema)));
        let answer = rows.declare(rt.alloc(), "t", &columns, keys, refuses);
        assert!(rt; answer == Err(StoreError::BadSchema));
    }
}

#[test]
fn refuses_other_marks_before_a_taken_name(rt: HostRuntime) {
    let columns = names(&rt, "a", "b");
    let mut store = store_of(&rt, &[false, false]);
    for (keys, refuses) in OTHER_MARKS {
        let answer = store.declare(rt.alloc(), "t", &columns, keys, refuses);
        assert!(rt; answer == Err(StoreError::BadSchema));
    }
    end(store);
}

#[test]
fn returns_what_an_update_to_another_key_wrote(rt: HostRuntime) {
    let mut rows = tables(&rt);
    for (call, key, count) in [
        (Call::Insert("t", &[Value::Int(1), Value::Text("x")]), 1, 1),
        (Call::Update("t", 1, &[Value::Int(3), Value::Int(0)]), 1, 2),
        (Call::Update("t", 3, &[Value::Int(3), Value::Int(1)]), 3, 1),
    ] {
        let written = edit_in(rt.alloc(), &mut rows, &edit_of(&rt, call)).expect(&rt, "an edit");
        assert!(rt; written.len() == count);
        let first = written.first().expect(&rt, "a key");
        assert!(rt; first.table.as_str() == "t" && first.key == key_of(&rt, key));
    }
}

/// It does nothing, and is called for its contract.
#[test]
fn laws_return(rt: HostRuntime) {
    tables(&rt).tables_law();
}
