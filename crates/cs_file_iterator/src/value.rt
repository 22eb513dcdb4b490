//! The values of a change.
ghost use Rattle.std.specs.Prelude.{◌≡◌, ◌≢◌, ◌↔◌, ◌<◌, ◌≤◌, ◌+◌, ◌++◌, ℕ, pos, IfOk, IfSome, IsOkAnd, IsTrue, List, None, Ok, OnOk, Some, drop, false, get_or, length, true};
ghost use Rattle.cs_value.specs.declared.value.OwnedField.TheVariants.{Undefined as UndefinedField};
ghost use Rattle.cs_value.specs.declared.value.OwnedField.{OwnedField};
ghost use Rattle.cs_value.specs.Spelling.{field_bytes, record_bytes};
ghost use Rattle.cs_value.specs.Value.{IsField, IsRecord, field_of};
ghost use Rattle.cs_wire_entries.specs.ReadFaults.{Stands};
ghost use Rattle.cs_wire_entries.specs.Items.{new_record};
ghost use Rattle.cs_file_iterator.specs.Changes.{Shows, TableChange};
ghost use Rattle.cs_file_iterator.specs.Values.{IsAnswered, KeepsOthers, LieWithin, ShowsField, ShowsValue, ShowsValues, field_on};
ghost use Rattle.cs_file_iterator.specs.Steps.{HasRecord, content_span, record_on, span_at};

use crate::change::ChangeSpan;
use cs_value::{Field, Value, field_read};
use cs_wire::{ReadFault, ReadFaultKind};
use cs_wire_entries::{fault_at, fault_behind, rest_from};

/// A side of a change.
#[derive(Clone, Copy, Debug, PartialEq, Eq)]
pub enum Side {
    /// Before the change: what a delete or an update has.
    Old,
    /// After the change: what an insert or an update has.
    New,
}

/// A value of a change, or where it lies in the file.
#[repr(C)]
#[derive(Clone, Copy, Debug, PartialEq, Eq)]
pub struct ValueSpan {
    /// 1 for an integer, 3 for a text, 4 for a blob, 5 for NULL, and 0 if the field is undefined.
    pub kind: i32,
    /// The integer, else 0.
    pub integer: i64,
    /// The offset of the text or the blob in the file, else 0.
    pub offset: usize,
    /// The number of bytes of the text or the blob, else 0.
    pub length: usize,
}

const INSERT: i32 = 18;

const DELETE: i32 = 9;

/// No value.
const UNDEFINED: ValueSpan = ValueSpan {
    kind: 0,
    integer: 0,
    offset: 0,
    length: 0,
};

/// Returns what a change of a file says of a column on one side, or None if the table does not have the column. The
/// field is undefined if the change has no record on that side. `column` is zero-based.
///
/// `change` is as [`next_change`](crate::next_change) returned it for the file. A call takes time in proportion to the
/// bytes of the change up to the value, and allocates nothing.
///
/// # Errors
///
/// The fault at which reading stops. A changeset's file has none.
pub fn change_value(
    file: &[u8],
    change: &ChangeSpan,
    side: Side,
    column: usize,
) -> Result<Option<ValueSpan>, ReadFault>
    ensures value { (shown : TableChange) → Shows file.now change.now shown → column < length shown.header.flags
        → IsAnswered result (λ value. ShowsValue file.now value (field_on side shown.entry.change column)) }
    ensures no_column { (shown : TableChange) → Shows file.now change.now shown → length shown.header.flags ≤ column
        → result ≡ Ok None }
    ensures within { IfOk result (λ found. IfSome found (λ value. value.offset + value.length ≤ length file.now)) }
{
    if column >= change.columns {
        return Ok(None);
    }
    if change.records > file.len() {
        return Ok(None);
    }
    let Some(record) = find_record(file, change, side)? else {
        return Ok(Some(UNDEFINED));
    };
    let place = skip_fields(file, record, column)?;
    Ok(Some(read_value(file, place)?))
}

/// Puts what a change of a file says of each column on one side into the front of the spans, in one pass over the
/// change. Returns whether it does: nothing changes where there are fewer spans than columns. The fields are undefined
/// if the change has no record on that side. Spans after those of the columns are not changed.
///
/// `change` is as [`next_change`](crate::next_change) returned it for the file. A call takes time in proportion to the
/// bytes of the change and its columns, and allocates nothing.
///
/// # Errors
///
/// The fault at which reading stops. The spans of the columns then mean nothing. A changeset's file has no fault.
pub fn change_values(
    file: &[u8],
    change: &ChangeSpan,
    side: Side,
    spans: &mut [ValueSpan],
) -> Result<bool, ReadFault>
    ensures values { (shown : TableChange) → Shows file.now change.now shown
        → length shown.header.flags ≤ length spans.old → IsOkAnd result (λ filled. IsTrue filled
        × ShowsValues file.now (length shown.header.flags) (field_on side shown.entry.change) spans.new) }
    ensures others { KeepsOthers change.now.columns spans.old spans.new }
    ensures few { (result ≡ Ok false) ↔ (length spans.old < change.now.columns) }
    ensures same { result ≡ Ok false → spans.new ≡ spans.old }
    ensures within { result ≡ Ok true → LieWithin file.now change.now.columns spans.new }
{
    if spans.len() < change.columns {
        return Ok(false);
    }
    if change.records > file.len() {
        return Err(fault_at(ReadFaultKind::Truncated, file.len()));
    }
    match find_record(file, change, side)? {
        Some(record) => read_values(file, record, change.columns, spans)?,
        None => clear_values(change.columns, spans),
    }
    Ok(true)
}

/// Puts the values of so many fields at an offset into the front of the spans.
fn read_values(
    file: &[u8],
    start: usize,
    count: usize,
    spans: &mut [ValueSpan],
) -> Result<(), ReadFault>
    requires start { start ≤ length file.now }
    requires room { count ≤ length spans.old }
    ensures values { (fields : List OwnedField) (rest : List ℕ) → IsRecord fields → count ≤ length fields
        → drop start file.now ≡ record_bytes fields ++ rest → (result ≡ Ok tt)
        × ShowsValues file.now count (λ column. Some (get_or fields column UndefinedField)) spans.new }
    ensures others { KeepsOthers count spans.old spans.new }
    ensures within { OnOk result (LieWithin file.now count spans.new) }
{
    let mut place = start;
    for column in 0..count {
        let (value, end) = next_value(file, place)?;
        spans[column] = value;
        place = end;
    }
    Ok(())
}

/// Makes so many values at the front of the spans undefined.
fn clear_values(count: usize, spans: &mut [ValueSpan])
    requires { count ≤ length spans.old }
    ensures values { (file : List ℕ) → ShowsValues file count (λ _. None) spans.new }
    ensures others { KeepsOthers count spans.old spans.new }
    ensures within { (file : List ℕ) → LieWithin file count spans.new }
{
    for column in 0..count {
        spans[column] = UNDEFINED;
    }
}

/// Returns the offset of the record of a change on one side, or None if it has none.
fn find_record(file: &[u8], change: &ChangeSpan, side: Side) -> Result<Option<usize>, ReadFault>
    requires { change.now.records ≤ length file.now }
    ensures record { (shown : TableChange) → Shows file.now change.now shown
        → IsOkAnd result (HasRecord file.now (length shown.header.flags) (record_on side shown.entry.change)) }
    ensures within { IfOk result (λ found. IfSome found (λ place. place ≤ length file.now)) }
{
    match side {
        Side::Old => Ok(find_old(change)),
        Side::New => find_new(file, change),
    }
}

/// Returns whether a change is of this operation.
fn does(change: &ChangeSpan, operation: i32) -> bool
    ensures { IsTrue result ↔ (change.now.operation ≡ operation) }
{
    change.operation == operation
}

/// Returns the offset of the record of a change before it: an insert has none.
fn find_old(change: &ChangeSpan) -> Option<usize>
    ensures insert { change.now.operation ≡ pos 18 → result ≡ None }
    ensures other { change.now.operation ≢ pos 18 → result ≡ Some change.now.records }
{
    if does(change, INSERT) {
        None
    } else {
        Some(change.records)
    }
}

/// Returns the offset of the record of a change after it: a delete has none, and an update has two records.
fn find_new(file: &[u8], change: &ChangeSpan) -> Result<Option<usize>, ReadFault>
    requires { change.now.records ≤ length file.now }
    ensures record { (shown : TableChange) → Shows file.now change.now shown
        → IsOkAnd result (HasRecord file.now (length shown.header.flags) (new_record shown.entry.change)) }
    ensures within { IfOk result (λ found. IfSome found (λ place. place ≤ length file.now)) }
{
    if does(change, DELETE) {
        return Ok(None);
    }
    if does(change, INSERT) {
        return Ok(Some(change.records));
    }
    Ok(Some(skip_fields(file, change.records, change.columns)?))
}

/// Returns the offset after this many fields.
fn skip_fields(file: &[u8], start: usize, count: usize) -> Result<usize, ReadFault>
    requires { start ≤ length file.now }
    ensures skipped { (fields : List OwnedField) (rest : List ℕ) → IsRecord fields → count ≤ length fields
        → drop start file.now ≡ record_bytes fields ++ rest
        → IsOkAnd result (λ end. drop end file.now ≡ record_bytes (drop count fields) ++ rest) }
    ensures within { IfOk result (λ end. end ≤ length file.now) }
{
    let mut place = start;
    for _ in 0..count {
        place = skip_field(file, place)?;
    }
    Ok(place)
}

/// Returns the offset after a field.
#[inline(always)]
fn skip_field(file: &[u8], place: usize) -> Result<usize, ReadFault>
    requires { place ≤ length file.now }
    ensures skipped { (field : OwnedField) (rest : List ℕ) → IsField field → drop place file.now ≡ field_bytes field ++ rest
        → IsOkAnd result (λ end. drop end file.now ≡ rest) }
    ensures within { IfOk result (λ end. end ≤ length file.now) }
{
    let (_, end) = read_field(file, place)?;
    Ok(end)
}

/// Returns the value at an offset.
fn read_value(file: &[u8], place: usize) -> Result<ValueSpan, ReadFault>
    requires { place ≤ length file.now }
    ensures value { (field : OwnedField) (rest : List ℕ) → IsField field → drop place file.now ≡ field_bytes field ++ rest
        → IsOkAnd result (λ value. ShowsField file.now value field) }
    ensures within { IfOk result (λ value. value.offset + value.length ≤ length file.now) }
{
    let (value, _) = next_value(file, place)?;
    Ok(value)
}

/// Returns the value at an offset, and the offset after it.
#[inline(always)]
fn next_value(file: &[u8], place: usize) -> Result<(ValueSpan, usize), ReadFault>
    requires { place ≤ length file.now }
    ensures value { (field : OwnedField) (rest : List ℕ) → IsField field → drop place file.now ≡ field_bytes field ++ rest
        → IsOkAnd result (λ r. ShowsField file.now r.0 field × (drop r.1 file.now ≡ rest)) }
    ensures within { IfOk result (λ r. (r.0.offset + r.0.length ≤ length file.now) × (r.1 ≤ length file.now)) }
{
    let (field, end) = read_field(file, place)?;
    Ok((span_of(field, end), end))
}

/// Returns the field at an offset, and the offset after it.
#[inline(always)]
fn read_field(file: &[u8], place: usize) -> Result<(Field<'_>, usize), ReadFault>
    requires { place ≤ length file.now }
    ensures found { IfOk result (λ r. Stands file.now place (field_bytes (field_of r.0)) r.1) }
    ensures only { (field : OwnedField) (rest : List ℕ) → IsField field → drop place file.now ≡ field_bytes field ++ rest
        → IsOkAnd result (λ r. field_of r.0 ≡ field) }
{
    match field_read(rest_from(file, place)) {
        Ok((field, used)) => Ok((field, place + used)),
        Err(fault) => Err(fault_behind(place, fault)),
    }
}

/// Returns the value of a field that ends at an offset.
fn span_of(field: Field<'_>, end: usize) -> ValueSpan
    ensures { result ≡ span_at (field_of field.entry) end }
{
    match field {
        Field::Undefined => UNDEFINED,
        Field::Defined(Value::Int(integer)) => ValueSpan {
            kind: 1,
            integer,
            ..UNDEFINED
        },
        Field::Defined(Value::Text(text)) => content_at(3, end, text.len()),
        Field::Defined(Value::Blob(bytes)) => content_at(4, end, bytes.len()),
        Field::Defined(Value::Null) => ValueSpan {
            kind: 5,
            ..UNDEFINED
        },
    }
}

/// Returns a text or a blob of this many bytes that ends at an offset.
fn content_at(kind: i32, end: usize, length: usize) -> ValueSpan
    ensures { result ≡ content_span kind end length }
{
    ValueSpan {
        kind,
        offset: end.saturating_sub(length),
        length,
        ..UNDEFINED
    }
}
