//! An order of conflicts.
ghost use Rattle.std.specs.Prelude.{◌≡◌, ◌↔◌, IsTrue};
ghost use Rattle.std.specs.Cmp.Lexicographic.{slice_cmp};
ghost use Rattle.cs_apply_engine.specs.Report.{conflict_of};
ghost use Rattle.cs_apply_rehearsal.specs.Order.{conflict_cmp, bytes_in, change_cmp, change_type, entry_cmp, field_cmp, new_in};
ghost use Rattle.cs_apply_rehearsal.specs.Order.{number_in, old_in, row_in, value_cmp, value_type};

use cs_apply_engine::Conflict;
use cs_value::{OwnedField, OwnedValue};
use cs_wire::{Change, Entry};
use std::cmp::Ordering;

/// Returns the place of the type of a value in the order.
fn type_of_value(value: &OwnedValue) -> u8
    ensures { result ≡ value_type value.now }
{
    match value {
        OwnedValue::Int(_) => 0,
        OwnedValue::Text(_) => 1,
        OwnedValue::Blob(_) => 2,
        OwnedValue::Null => 3,
    }
}

/// Returns the number that a value is, or 0.
fn number_of(value: &OwnedValue) -> i64
    ensures { result ≡ number_in value.now }
{
    match value {
        OwnedValue::Int(number) => *number,
        OwnedValue::Text(_) | OwnedValue::Blob(_) | OwnedValue::Null => 0,
    }
}

/// Returns the bytes of a text or a blob, or none.
fn content_of(value: &OwnedValue) -> &[u8]
    ensures { result.now ≡ bytes_in value.now }
{
    match value {
        OwnedValue::Text(text) => text.as_str().as_bytes(),
        OwnedValue::Blob(bytes) => bytes.as_slice(),
        OwnedValue::Int(_) | OwnedValue::Null => &[],
    }
}

/// Compares two values, by type and then by content.
fn compare_values(one: &OwnedValue, other: &OwnedValue) -> Ordering
    ensures { result ≡ value_cmp one.now other.now }
{
    let types = type_of_value(one).cmp(&type_of_value(other));
    let numbers = number_of(one).cmp(&number_of(other));
    types
        .then(numbers)
        .then(content_of(one).cmp(&content_of(other)))
}

/// Compares two fields. An undefined one is first.
fn compare_fields(one: &OwnedField, other: &OwnedField) -> Ordering
    ensures { result ≡ field_cmp one.now other.now }
{
    match (one, other) {
        (OwnedField::Undefined, OwnedField::Undefined) => Ordering::Equal,
        (OwnedField::Undefined, OwnedField::Defined(_)) => Ordering::Less,
        (OwnedField::Defined(_), OwnedField::Undefined) => Ordering::Greater,
        (OwnedField::Defined(value), OwnedField::Defined(with)) => compare_values(value, with),
    }
}

/// Compares two rows: the first values that differ decide, and then the lengths.
fn compare_rows(one: &[OwnedValue], other: &[OwnedValue]) -> Ordering
    ensures { result ≡ slice_cmp value_cmp one.now other.now }
{
    for (index, value) in one.iter().enumerate() {
        if index >= other.len() {
            return Ordering::Greater;
        }
        let order = compare_values(value, &other[index]);
        if order != Ordering::Equal {
            return order;
        }
    }
    one.len().cmp(&other.len())
}

/// Compares the fields of two records: the first ones that differ decide, and then the lengths.
fn compare_images(one: &[OwnedField], other: &[OwnedField]) -> Ordering
    ensures { result ≡ slice_cmp field_cmp one.now other.now }
{
    for (index, field) in one.iter().enumerate() {
        if index >= other.len() {
            return Ordering::Greater;
        }
        let order = compare_fields(field, &other[index]);
        if order != Ordering::Equal {
            return order;
        }
    }
    one.len().cmp(&other.len())
}

/// Returns the place of the type of a change in the order.
fn type_of_change(change: &Change) -> u8
    ensures { result ≡ change_type change.now }
{
    match change {
        Change::Insert(_) => 0,
        Change::Delete(_) => 1,
        Change::Update { .. } => 2,
    }
}

/// Returns the row of an insert or a delete, or no values.
fn row_of(change: &Change) -> &[OwnedValue]
    ensures { result.now ≡ row_in change.now }
{
    match change {
        Change::Insert(row) | Change::Delete(row) => row.values(),
        Change::Update { .. } => &[],
    }
}

/// Returns the old record of an update, or no fields.
fn old_of(change: &Change) -> &[OwnedField]
    ensures { result.now ≡ old_in change.now }
{
    match change {
        Change::Update { old, .. } => old.fields(),
        Change::Insert(_) | Change::Delete(_) => &[],
    }
}

/// Returns the new record of an update, or no fields.
fn new_of(change: &Change) -> &[OwnedField]
    ensures { result.now ≡ new_in change.now }
{
    match change {
        Change::Update { new, .. } => new.fields(),
        Change::Insert(_) | Change::Delete(_) => &[],
    }
}

/// Compares two changes, by type and then by their records.
fn compare_changes(one: &Change, other: &Change) -> Ordering
    ensures { result ≡ change_cmp one.now other.now }
{
    let types = type_of_change(one).cmp(&type_of_change(other));
    let rows = compare_rows(row_of(one), row_of(other));
    let olds = compare_images(old_of(one), old_of(other));
    let news = compare_images(new_of(one), new_of(other));
    types.then(rows).then(olds).then(news)
}

/// Compares two entries.
fn compare_entries(one: &Entry, other: &Entry) -> Ordering
    ensures { result ≡ entry_cmp one.now other.now }
{
    let changes = compare_changes(&one.change, &other.change);
    changes.then(one.indirect.cmp(&other.indirect))
}

/// Returns whether two entries are equal.
pub(crate) fn is_same_entry(one: &Entry, other: &Entry) -> bool
    ensures { IsTrue result ↔ (one.now ≡ other.now) }
{
    compare_entries(one, other).is_eq()
}

/// Compares two conflicts, by kind, table and entry.
pub(crate) fn compare_conflicts(one: &Conflict, other: &Conflict) -> Ordering
    ensures { result ≡ conflict_cmp (conflict_of one.now) (conflict_of other.now) }
{
    let kinds = one.kind.number().cmp(&other.kind.number());
    let tables = one
        .table
        .as_str()
        .as_bytes()
        .cmp(&other.table.as_str().as_bytes());
    kinds
        .then(tables)
        .then(compare_entries(&one.entry, &other.entry))
}
