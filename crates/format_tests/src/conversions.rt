//! What lies between calls and stores: keys, columns, and the parts of refusals.

use cs_calls_answers::Refused;
use cs_calls_conversions::{columns_of, declaration_of, edit_refusal, key_of_call};
use cs_calls_parts::read_row;
use cs_calls_requests::{Call, call_read};
use cs_rows::{Cause, Edit, Schema, StoreError};
use cs_value::{Key, Row, Text};
use std::process::Abort;

/// The call that declares t: a and c are its key, and b is NOT NULL.
const DECLARE: &[u8] = b"\x03\x01t\x03\x01a\x01\x01b\x02\x01c\x01";

/// Returns the schema of t.
fn schema_of_t(rt: &(impl Abort + AllocGlobal)) -> Schema {
    let call = call_read(rt.alloc(), DECLARE).expect(rt, "a call");
    let Call::Declare { columns, .. } = call else {
        panic!(rt; "another call");
    };
    let it = declaration_of(rt.alloc(), &columns).expect(rt, "memory");
    Schema::new(rt.alloc(), &it.names, &it.keys, &it.refuses).expect(rt, "a schema")
}

/// Returns the row of its bytes.
fn row_of(rt: &(impl Abort + AllocGlobal), bytes: &[u8]) -> Row {
    match read_row(rt.alloc(), bytes) {
        Ok((row, _)) => row,
        Err(_) => panic!(rt; "no row"),
    }
}

/// The columns of t: each name, whether it is a key column, and whether it refuses NULL.
const COLUMNS: [(&str, bool, bool); 3] = [("a", true, true), ("b", false, true), ("c", true, true)];

#[test]
fn shows_the_columns_that_were_declared(rt: HostRuntime) {
    let schema = schema_of_t(&rt);
    let columns = columns_of(rt.alloc(), &schema).expect(&rt, "memory");
    assert!(rt; columns.as_slice().len() == 3);
    for (column, (name, is_key, refuses)) in columns.as_slice().iter().zip(COLUMNS) {
        assert!(rt;
            column.name.as_str() == name && column.is_key == is_key,
            "{name}"
        );
        assert!(rt; column.refuses_null == refuses, "{name}");
    }
}

/// Returns the name of t.
fn name_of_t(rt: &(impl Abort + AllocGlobal)) -> Text {
    Text::new(String::from_str(rt.alloc(), "t").expect(rt, "memory"))
}

/// Returns the edit that deletes a row of t, if no row is given, or else updates it.
fn edit_of(rt: &(impl Abort + AllocGlobal), row: Option<&[u8]>) -> Edit {
    let table = String::from_str(rt.alloc(), "t").expect(rt, "memory");
    let key = Key::from_bytes(Vec::new(rt.alloc()));
    match row {
        Some(row) => Edit::Update {
            table,
            key,
            row: row_of(rt, row),
        },
        None => Edit::Delete { table, key },
    }
}

/// The parts of a refusal: its code, the name of the column and the bytes of the key, which are empty if there is none,
/// and the detail, or 0.
type Parts = (u64, &'static str, &'static [u8], u64);

/// Returns the name of the column of a refusal.
fn column_of(refused: &Refused) -> &str {
    match &refused.column {
        Some(column) => column.as_str(),
        None => "",
    }
}

/// Returns whether a refusal has the key of these bytes.
fn has_key(rt: &(impl Abort + AllocGlobal), refused: &Refused, bytes: &[u8]) -> bool {
    let Some(values) = &refused.key else {
        return bytes.is_empty();
    };
    let key = Key::from_values(rt.alloc(), values.values()).expect(rt, "memory");
    key.bytes() == bytes
}

/// Returns whether a refusal has these parts.
fn has_parts(rt: &(impl Abort + AllocGlobal), refused: &Refused, parts: Parts) -> bool {
    let (code, column, key, detail) = parts;
    refused.code == code
        && column_of(refused) == column
        && has_key(rt, refused, key)
        && refused.detail.unwrap_or(0) == detail
}

/// Rows that are put into the place of that of the key (7, 7), or none for its deletion; an error of a store, and the
/// parts of the refusal.
const REFUSALS: &[(Option<&[u8]>, StoreError, Parts)] = &[
    (Some(b"\x01\x05"), StoreError::RowWidth, (35, "", b"", 0)),
    (
        Some(b"\x03\x03\x01x\x05\x05"),
        StoreError::NullInKey,
        (36, "c", b"", 0),
    ),
    (
        Some(b"\x03\x03\x01x\x05\x03\x01y"),
        StoreError::NotNull,
        (39, "b", b"", 0),
    ),
    (
        Some(b"\x03\x03\x01x\x03\x01z\x03\x01y"),
        StoreError::KeyTaken,
        (33, "", b"\x03\x01x\x03\x01y", 0),
    ),
    (
        Some(b"\x03\x03\x01x\x03\x01z\x03\x01y"),
        StoreError::NoRow,
        (34, "", b"\x03\x017\x03\x017", 0),
    ),
    (None, StoreError::NoRow, (34, "", b"\x03\x017\x03\x017", 0)),
    (None, StoreError::StoreFault(Cause::Busy), (38, "", b"", 5)),
    (None, StoreError::DamagedStore, (37, "", b"", 0)),
];

/// Returns the refusal of an edit of the row of the key (7, 7).
fn refusal_of(rt: &(impl Abort + AllocGlobal), row: Option<&[u8]>, error: StoreError) -> Refused {
    let (schema, edit) = (schema_of_t(rt), edit_of(rt, row));
    let key = row_of(rt, b"\x02\x03\x017\x03\x017");
    edit_refusal(rt.alloc(), &name_of_t(rt), &schema, &key, &edit, error)
}

#[test]
fn names_what_refuses_an_edit(rt: HostRuntime) {
    for (row, error, parts) in REFUSALS {
        let refused = refusal_of(&rt, *row, *error);
        assert!(rt; has_parts(&rt, &refused, *parts), "{error}");
    }
}

/// Values that name no key of t, and the parts of the refusal.
const KEYS: &[(&[u8], Parts)] = &[
    (b"\x01\x03\x01x", (35, "", b"", 0)),
    (b"\x02\x03\x01x\x05", (36, "c", b"", 0)),
];

/// Returns whether values name no key of t, by this refusal.
fn is_no_key(rt: &(impl Abort + AllocGlobal), values: &[u8], parts: Parts) -> bool {
    let (schema, values) = (schema_of_t(rt), row_of(rt, values));
    match key_of_call(rt.alloc(), &name_of_t(rt), &schema, &values) {
        Ok(_) => false,
        Err(refused) => has_parts(rt, &refused, parts),
    }
}

#[test]
fn refuses_values_of_no_key(rt: HostRuntime) {
    for (at, (values, parts)) in KEYS.iter().enumerate() {
        assert!(rt; is_no_key(&rt, values, *parts), "at {at}");
    }
}
