//! The records of changes.
ghost use Rattle.std.specs.Prelude.{◌≡◌, ◌≤◌, ◌++◌, ◌∷◌, ℕ, List, length, drop, IfOk, IsOkAnd, None};
ghost use Rattle.cs_value.specs.declared.value.OwnedField.{OwnedField};
ghost use Rattle.cs_value.specs.Value.{IsField, IsRecord, field_of};
ghost use Rattle.cs_value.specs.Spelling.{field_bytes, record_bytes};
ghost use Rattle.cs_wire_entries.specs.Items.{fields_in};
ghost use Rattle.cs_wire_entries.specs.ReadFaults.{FaultIs, Stands};
ghost use Rattle.cs_wire_entries.specs.Reading.{Meets, IsFieldAt, IsRecordAt, FieldRefused, RecordRefused};
ghost use Rattle.cs_wire_entries.specs.Reading.{in_new, is_modified, wants_in, refusal};

use crate::fault::{ReadFault, ReadFaultKind, fault_at, fault_behind};
use crate::reader::rest_from;
use crate::spelled::front_field;
use cs_value::{Field, Value, field_read};

/// What a record can have in a column.
#[derive(Clone, Copy)]
pub(crate) enum Want {
    /// A value other than NULL.
    KeyValue,
    /// Any value.
    AnyValue,
    /// Any field.
    AnyField,
    /// A value of an update's new record.
    NewValue,
    /// An undefined field.
    Nothing,
}

impl Want {
    /// Returns why a field is refused, or None if it is not.
    fn refusal(self, field: Field) -> Option<ReadFaultKind>
        ensures { result ≡ refusal self (field_of field.entry) }
    {
        match (self, field) {
            (Want::KeyValue | Want::AnyValue, Field::Undefined) => {
                Some(ReadFaultKind::UndefinedField)
            }
            (Want::KeyValue, Field::Defined(Value::Null)) => Some(ReadFaultKind::NullKey),
            (Want::NewValue, Field::Undefined) | (Want::Nothing, Field::Defined(_)) => {
                Some(ReadFaultKind::Unpaired)
            }
            _ => None,
        }
    }

    /// Returns what an update's new record has in a column with this flag and this field in the old record.
    fn beside(old: Field, flag: u8) -> Want
        ensures { result ≡ in_new (is_modified flag (field_of old.entry)) }
    {
        match old {
            Field::Defined(_) if flag == 0 => Want::NewValue,
            _ => Want::Nothing,
        }
    }
}

/// The remaining columns of a record, with what each of their fields may be.
#[derive(Clone, Copy)]
pub(crate) enum Columns<'a> {
    /// Those of a row.
    Row,
    /// Those of an update's old record.
    Old,
    /// Those of an update's new record, with the remaining bytes of the old one.
    New(&'a [u8]),
}

impl<'a> Columns<'a> {
    /// Returns what the field of the next column may be, whose flag this is, and the columns after it.
    #[tactic(auto, unfolding(crate::specs::Items::fields_in))]
    fn next(self, flag: u8) -> (Want, Columns<'a>)
        ensures { (flags : List ℕ) → wants_in self.entry (flag ∷ flags) ≡ result.0 ∷ wants_in result.1 flags }
    {
        match self {
            Columns::Row | Columns::Old if flag != 0 => (Want::KeyValue, self),
            Columns::Row => (Want::AnyValue, self),
            Columns::Old => (Want::AnyField, self),
            Columns::New(old) => {
                let (field, others) = front_field(old);
                (Want::beside(field, flag), Columns::New(others))
            }
        }
    }
}

/// Returns the bytes of the record at an offset, whose fields are all allowed, and the offset after it.
#[inline(always)]
pub(crate) fn read_record<'a>(
    file: &'a [u8],
    at: usize,
    flags: &[u8],
    columns: Columns,
) -> Result<(&'a [u8], usize), ReadFault>
    requires { at ≤ length file.now }
    ensures found { IfOk result (λ r. IsRecordAt (wants_in columns.entry flags.now) file.now at
        (fields_in (length flags.now) r.0.now) r.1) }
    ensures spelled { IfOk result (λ r. r.0.now ≡ record_bytes (fields_in (length flags.now) r.0.now)) }
    ensures only { (fields : List OwnedField) (rest : List ℕ) → IsRecord fields
        → Meets (wants_in columns.entry flags.now) fields → drop at file.now ≡ record_bytes fields ++ rest
        → IsOkAnd result (λ r. fields_in (length flags.now) r.0.now ≡ fields) }
    ensures fault { FaultIs result (RecordRefused (wants_in columns.entry flags.now) file.now at) }
{
    let end = pass_record(file, at, flags, columns)?;
    Ok((part(file, at, end), end))
}

/// Returns the bytes of the file from one offset to another.
fn part(file: &[u8], from: usize, to: usize) -> &[u8]
    requires { (from ≤ to) × (to ≤ length file.now) }
    ensures { (text : List ℕ) → Stands file.now from text to → result.now ≡ text }
{
    &file[from..to]
}

/// Returns the offset after the record at an offset, whose fields are all allowed.
#[inline(always)]
fn pass_record(file: &[u8], at: usize, flags: &[u8], columns: Columns) -> Result<usize, ReadFault>
    requires { at ≤ length file.now }
    ensures forward { IfOk result (λ end. (at ≤ end) × (end ≤ length file.now)) }
    ensures found { IfOk result (λ end. (fields : List OwnedField)
        × IsRecordAt (wants_in columns.entry flags.now) file.now at fields end) }
    ensures only { (fields : List OwnedField) (rest : List ℕ) → IsRecord fields
        → Meets (wants_in columns.entry flags.now) fields → drop at file.now ≡ record_bytes fields ++ rest
        → IsOkAnd result (λ end. Stands file.now at (record_bytes fields) end) }
    ensures fault { FaultIs result (RecordRefused (wants_in columns.entry flags.now) file.now at) }
{
    let mut left = columns;
    let mut end = at;
    for flag in flags {
        let (want, others) = left.next(*flag);
        let (_, behind) = read_wanted(file, end, want)?;
        left = others;
        end = behind;
    }
    Ok(end)
}

/// Returns the field at an offset, which is allowed there and borrows from the file, and the offset after it.
#[inline(always)]
fn read_wanted(file: &[u8], at: usize, want: Want) -> Result<(Field<'_>, usize), ReadFault>
    requires { at ≤ length file.now }
    ensures found { IfOk result (λ r. IsFieldAt want file.now at (field_of r.0) r.1) }
    ensures only { (f : OwnedField) (rest : List ℕ) → IsField f → refusal want f ≡ None
        → drop at file.now ≡ field_bytes f ++ rest → IsOkAnd result (λ r. field_of r.0 ≡ f) }
    ensures fault { FaultIs result (FieldRefused want file.now at) }
{
    match field_read(rest_from(file, at)) {
        Ok((field, used)) => match want.refusal(field) {
            Some(kind) => Err(fault_at(kind, at)),
            None => Ok((field, at + used)),
        },
        Err(fault) => Err(fault_behind(at, fault)),
    }
}
