//! Records in a file: the bytes of their fields, in column order.
ghost use Rattle.std.specs.Prelude.{◌≡◌, ◌≤◌, ◌+◌, ℕ, IfSome, List, length, take, drop};
ghost use Rattle.std.specs.List.{AllByRecursion};
ghost use Rattle.cs_value.specs.declared.value.OwnedField.{OwnedField};
ghost use Rattle.cs_wire_entries.specs.Reading.{is_key_flag};
ghost use Rattle.cs_value.specs.Value.{FieldFits, IsRecord, field_of};
ghost use Rattle.cs_value.specs.Key.{image_key};
ghost use Rattle.cs_value.specs.Spelling.{record_bytes};
ghost use Rattle.cs_wire_entries.specs.Items.{front_of, fields_in};
ghost use Rattle.cs_wire_entries.specs.Records.{AreKeyColumns};

use crate::reader::rest_from;
use cs_value::{Field, field_read};

/// Returns the first field, and the bytes after it. If there is none, the field is undefined, and takes no byte.
pub(crate) fn front_field(bytes: &[u8]) -> (Field<'_>, &[u8])
    ensures field { field_of result.0 ≡ (front_of bytes.now).0 }
    ensures rest { result.1.now ≡ drop (front_of bytes.now).1 bytes.now }
    ensures fits { FieldFits result.0 }
{
    match field_read(bytes) {
        Ok((field, used)) => (field, &bytes[used..]),
        Err(_) => (Field::Undefined, bytes),
    }
}

/// Returns how many of the first flags mark key columns, or how many mark others.
fn run_len(flags: &[u8], of_key: bool) -> usize
    ensures within { result ≤ length flags.now }
    ensures run { AllByRecursion (λ flag. is_key_flag flag ≡ of_key) (take result flags.now) }
{
    let mut len = 0;
    'flags: while len < flags.len() && (flags[len] != 0) == of_key {
        len += 1;
    }
    len
}

/// Returns the bytes after this many fields.
fn skip_fields(bytes: &[u8], count: usize) -> &[u8]
    ensures { (fields : List OwnedField) → IsRecord fields → count ≤ length fields → bytes.now ≡ record_bytes fields
        → result.now ≡ record_bytes (drop count fields) }
{
    let mut rest = bytes;
    for _ in 0..count {
        rest = front_field(rest).1;
    }
    rest
}

/// Returns the bytes of this many fields, after the first ones.
fn columns_in(bytes: &[u8], first: usize, count: usize) -> &[u8]
    ensures { (fields : List OwnedField) → IsRecord fields → first + count ≤ length fields → bytes.now ≡ record_bytes fields
        → result.now ≡ record_bytes (take count (drop first fields)) }
{
    let behind = skip_fields(bytes, first);
    let rest = skip_fields(behind, count);
    &behind[..behind.len().saturating_sub(rest.len())]
}

/// The key columns of a table, if they are contiguous: how many columns are before them, and how many they are.
#[derive(Clone, Copy, Debug)]
pub struct KeyColumns {
    first: usize,
    count: usize,
}

impl KeyColumns {
    /// Returns the key columns that these flags mark, or None if there are others between them.
    pub fn of(flags: &[u8]) -> Option<KeyColumns>
        ensures { IfSome result (AreKeyColumns flags.now) }
    {
        let first = run_len(flags, false);
        let others = rest_from(flags, first);
        let count = run_len(others, true);
        let behind = rest_from(others, count);
        if run_len(behind, false) < behind.len() {
            return None;
        }
        Some(KeyColumns { first, count })
    }

    /// Returns the bytes of these columns in a record.
    pub(crate) fn slice(self, bytes: &[u8]) -> &[u8]
        ensures { (flags : List ℕ) → AreKeyColumns flags self → IsRecord (fields_in (length flags) bytes.now)
            → bytes.now ≡ record_bytes (fields_in (length flags) bytes.now)
            → result.now ≡ image_key flags (fields_in (length flags) bytes.now) }
    {
        columns_in(bytes, self.first, self.count)
    }
}
