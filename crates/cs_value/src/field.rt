//! Reading and writing fields.
ghost use Rattle.std.specs.Prelude.{◌≡◌, ◌≤◌, ◌++◌, ℕ, List, length, IfOk, IsOkAnd, IfErr, OnOk, OnErr, take, Err};
ghost use Rattle.cs_value.specs.declared.TheConstants.{MAX_CONTENT_LEN};
ghost use Rattle.cs_value.specs.Value.{field_of, value_of, Fits, FieldFits, IsField};
ghost use Rattle.cs_value.specs.Spelling.{field_bytes, value_bytes, counted, BeginsWith};
ghost use Rattle.cs_value.specs.FieldFaults.{FieldFails};
ghost use Rattle.cs_value.specs.Reading.{field_at, integer_at, counted_at, text_at, blob_at, Reads};
ghost use Rattle.cs_value.specs.declared.value.OwnedField.{OwnedField};

use crate::fault::{FieldFault, FieldFaultKind};
use crate::refusal::NoMemory;
use crate::value::{Field, Value};
use crate::varint::{read_number, varint_write};
use std::str;

/// Returns the field at the front of `bytes`, which borrows from them, and its length in bytes. Bytes may follow it. It
/// allocates nothing.
///
/// # Errors
///
/// `Truncated` if the bytes end inside the field, `BadVarint` if a count is no varint, `BadType` for a type byte above
/// 0x05, `RealValue` for the type byte 0x02, and `BadText` for a text that is not UTF-8.
#[inline(always)]
pub fn field_read(bytes: &[u8]) -> Result<(Field<'_>, usize), FieldFault>
    ensures found { IfOk result (λ r. IsField (field_of r.0) × BeginsWith bytes.now (field_bytes (field_of r.0)) r.1) }
    ensures only { (f : OwnedField) (rest : List ℕ) → IsField f → bytes.now ≡ field_bytes f ++ rest
        → IsOkAnd result (λ r. (field_of r.0 ≡ f) × (r.1 ≡ length (field_bytes f))) }
    ensures fault { IfErr result (λ f. FieldFails bytes.now f.kind f.place) }
{
    read_by_type(bytes)
}

fn fault<T: Drop>(kind: FieldFaultKind, place: usize) -> Result<T, FieldFault>
    ensures { result ≡ Err (record { kind = kind; place = place }) }
{
    Err(FieldFault { kind, place })
}

/// Returns the field at the front, by its type byte, and its length in bytes.
#[tactic(auto, unfolding(crate::specs::Reading::field_at))]
#[inline(always)]
fn read_by_type(bytes: &[u8]) -> Result<(Field<'_>, usize), FieldFault>
    ensures { Reads (λ r. (field_of r.0, r.1)) result (field_at bytes.now) }
{
    let [kind, content @ ..] = bytes else {
        return fault(FieldFaultKind::Truncated, 0);
    };
    match *kind {
        0 => Ok((Field::Undefined, 1)),
        1 => read_integer(content),
        2 => fault(FieldFaultKind::RealValue, 0),
        3 => read_text(content),
        4 => read_blob(content),
        5 => Ok((Field::Defined(Value::Null), 1)),
        _ => fault(FieldFaultKind::BadType, 0),
    }
}

/// Returns the integer after a type byte, and the length of the field with its type byte.
#[tactic(auto, unfolding(crate::specs::Reading::integer_at))]
fn read_integer(content: &[u8]) -> Result<(Field<'_>, usize), FieldFault>
    ensures { Reads (λ r. (field_of r.0, r.1)) result (integer_at content.now) }
{
    match content.first_chunk::<8>() {
        Some(number) => Ok((Field::Defined(Value::Int(i64::from_be_bytes(*number))), 9)),
        None => fault(FieldFaultKind::Truncated, 1 + content.len()),
    }
}

/// Returns the text after a type byte, and the length of the field with its type byte.
#[tactic(auto, unfolding(crate::specs::Reading::text_at))]
#[inline(always)]
fn read_text(content: &[u8]) -> Result<(Field<'_>, usize), FieldFault>
    ensures { Reads (λ r. (field_of r.0, r.1)) result (text_at content.now) }
{
    let (text, used) = read_counted(content)?;
    match str::from_utf8(text) {
        Ok(text) => Ok((Field::Defined(Value::Text(text)), used)),
        Err(_) => fault(FieldFaultKind::BadText, used - text.len()),
    }
}

/// Returns the blob after a type byte, and the length of the field with its type byte.
#[tactic(auto, unfolding(crate::specs::Reading::blob_at))]
fn read_blob(content: &[u8]) -> Result<(Field<'_>, usize), FieldFault>
    ensures { Reads (λ r. (field_of r.0, r.1)) result (blob_at content.now) }
{
    let (blob, used) = read_counted(content)?;
    Ok((Field::Defined(Value::Blob(blob)), used))
}

/// Returns the counted bytes after a type byte, and the length of the field with its type byte.
#[tactic(auto, unfolding(crate::specs::Reading::counted_at))]
#[inline(always)]
fn read_counted(content: &[u8]) -> Result<(&[u8], usize), FieldFault>
    ensures exact { Reads (λ r. (r.0.now, r.1)) result (counted_at content.now) }
    ensures within { IfOk result (λ r. length r.0.now ≤ r.1) }
{
    let (count, start) = match read_number(content) {
        Ok(read) => read,
        Err(e) => return fault(e.kind, 1 + e.place),
    };
    let rest = &content[start..];
    let count = count as usize;
    if rest.len() < count {
        return fault(FieldFaultKind::Truncated, 1 + content.len());
    }
    Ok((&rest[..count], 1 + start + count))
}

/// Appends the bytes of a field, whose text or blob has at most 2147483647 bytes. [`NoMemory`] leaves `out` unchanged.
#[tactic(auto, unfolding(crate::specs::Spelling::field_bytes))]
pub fn field_write(out: &mut Vec<u8>, field: &Field) -> Result<(), NoMemory>
    requires { FieldFits field.now }
    ensures ok { OnOk result (out.new.items ≡ out.old.items ++ field_bytes (field_of field.now)) }
    ensures err { OnErr result (out.new.items ≡ out.old.items) }
{
    match field {
        Field::Undefined => Ok(out.push(0)?),
        Field::Defined(value) => value_write(out, *value),
    }
}

/// Appends the bytes of a value. [`NoMemory`] leaves `out` unchanged.
pub(crate) fn value_write(out: &mut Vec<u8>, value: Value) -> Result<(), NoMemory>
    requires { Fits value }
    ensures ok { OnOk result (out.new.items ≡ out.old.items ++ value_bytes (value_of value.entry)) }
    ensures err { OnErr result (out.new.items ≡ out.old.items) }
{
    let start = out.len();
    let written = append_value(out, value);
    if written.is_err() {
        out.truncate(start);
    }
    written
}

/// Appends the bytes of a value. [`NoMemory`] can leave some of them after the previous bytes.
#[tactic(auto, unfolding(crate::specs::Spelling::value_bytes))]
fn append_value(out: &mut Vec<u8>, value: Value) -> Result<(), NoMemory>
    requires { Fits value }
    ensures ok { OnOk result (out.new.items ≡ out.old.items ++ value_bytes (value_of value.entry)) }
    ensures err { OnErr result (take (length out.old.items) out.new.items ≡ out.old.items) }
{
    match value {
        Value::Int(number) => {
            out.push(1)?;
            out.extend_from_slice(&number.to_be_bytes())?;
        }
        Value::Text(text) => {
            out.push(3)?;
            append_counted(out, text.as_bytes())?;
        }
        Value::Blob(blob) => {
            out.push(4)?;
            append_counted(out, blob)?;
        }
        Value::Null => out.push(5)?,
    }
    Ok(())
}

/// Appends the count of some bytes, and the bytes. [`NoMemory`] can leave some of them after the previous ones.
#[tactic(auto, unfolding(crate::specs::Spelling::counted))]
fn append_counted(out: &mut Vec<u8>, content: &[u8]) -> Result<(), NoMemory>
    requires { length content.now ≤ MAX_CONTENT_LEN }
    ensures ok { OnOk result (out.new.items ≡ out.old.items ++ counted content.now) }
    ensures err { OnErr result (take (length out.old.items) out.new.items ≡ out.old.items) }
{
    varint_write(out, content.len() as u32)?;
    out.extend_from_slice(content)?;
    Ok(())
}
