//! The fields of a record, in column order.
ghost use Rattle.std.specs.Prelude.{◌≡◌, ◌<◌, ◌++◌, IfOk, OnErr, OnOk, true, length, map, slice_index_or, take};
ghost use Rattle.cs_value.specs.declared.value.OwnedField.{OwnedField};
ghost use Rattle.cs_value.specs.declared.value.OwnedField.TheVariants.{Undefined};
ghost use Rattle.cs_value.specs.Value.{FieldFits, field_of};
ghost use Rattle.cs_value.specs.Spelling.{field_bytes, record_bytes};
ghost use Rattle.cs_value.specs.Key.{image_key};
ghost use Rattle.cs_wire_entries.specs.Items.{shown_record, value_in};
ghost use Rattle.cs_wire_entries.specs.Records.{HasWidth, fields_at};

use crate::record_ref::RecordRef;
use cs_value::{Field, NoMemory, OwnedField, OwnedValue, field_write};
use std::alloc::Global;
use std::marker::Model;

/// An iterator over the borrowed fields of a record. Contracts see the remaining fields. It allocates nothing.
#[derive(Debug, Drop)]
pub struct Fields<'a> {
    // The flags of the columns that are left.
    flags: &'a [u8],
    own: RecordRef<'a>,
    // The record whose fields are shown outside the key, if that is another.
    other: Option<RecordRef<'a>>,
}

impl<'a> Model for Fields<'a> {
    ghost use Rattle.std.specs.Prelude.{IfSome, List, length, option_map};
    ghost use Rattle.cs_value.specs.declared.value.OwnedField.{OwnedField};
    ghost use Rattle.cs_wire_entries.specs.Records.{HasWidth, fields_at, shown_fields};

    ghost Value = { List OwnedField };

    ghost view = { λ f. shown_fields f.flags.now (fields_at (length f.flags.now) f.own) (option_map (fields_at (length f.flags.now)) f.other) };

    ghost invariant = { λ f. HasWidth (length f.flags.now) f.own × IfSome f.other (HasWidth (length f.flags.now)) };
}

impl<'a> Iterator for Fields<'a> {
    type Item = Field<'a>;

    ghost use Rattle.std.specs.Prelude.{length};
    ghost use Rattle.std.specs.Iterator.{at_most};
    ghost use Rattle.cs_wire_entries.specs.Items.{IsNextField};

    ghost remaining = { λ f. at_most (length f) };

    ghost next_gives = { IsNextField };

    fn next(&mut self) -> Option<Field<'a>> {
        let [flag, flags @ ..] = self.flags else {
            return None;
        };
        self.flags = flags;
        let (own, rest) = self.own.split_first();
        self.own = rest;
        let Some(other) = self.other else {
            return Some(own);
        };
        let (field, rest) = other.split_first();
        self.other = Some(rest);
        Some(if *flag == 0 { field } else { own })
    }
}

impl<'a> Fields<'a> {
    /// Returns the fields of a record, or of the record with the fields of another outside the key.
    pub(crate) fn new(
        flags: &'a [u8],
        own: RecordRef<'a>,
        other: RecordRef<'a>,
        exchanged: bool,
    ) -> Fields<'a>
        requires own { HasWidth (length flags.now) own }
        requires other { exchanged ≡ true → HasWidth (length flags.now) other }
        ensures { result ≡ shown_record exchanged flags.now (fields_at (length flags.now) own.entry) (fields_at (length flags.now) other.entry) }
    {
        Fields {
            flags,
            own,
            other: if exchanged { Some(other) } else { None },
        }
    }

    /// Returns the field of a column, zero-based.
    pub(crate) fn at(mut self, column: usize) -> Field<'a>
        requires { column < length self }
        ensures field { field_of result ≡ slice_index_or self.entry column Undefined }
        ensures fits { FieldFits result }
    {
        for _ in 0..column {
            self.next();
        }
        match self.next() {
            Some(field) => field,
            None => unreachable!(),
        }
    }
}

/// What an owned record has for a column: a value, or a field.
pub(crate) trait Cell: Drop {
    ghost cell_of: { OwnedField → Self };

    /// Returns an owned copy of the field.
    fn of_field(alloc: Global, field: Field) -> Result<Self, NoMemory>
        requires { FieldFits field }
        ensures { IfOk result (λ cell. cell ≡ cell_of (field_of field.entry)) };
}

impl Cell for OwnedValue {
    ghost cell_of = { value_in };

    fn of_field(alloc: Global, field: Field) -> Result<OwnedValue, NoMemory> {
        match field {
            Field::Undefined => Ok(OwnedValue::Null),
            Field::Defined(value) => value.to_owned(alloc),
        }
    }
}

impl Cell for OwnedField {
    ghost cell_of = { λ f. f };

    fn of_field(alloc: Global, field: Field) -> Result<OwnedField, NoMemory> {
        field.to_owned(alloc)
    }
}

/// Returns owned copies of fields.
pub(crate) fn copy_cells<C: Cell>(alloc: Global, fields: Fields<'_>) -> Result<Vec<C>, NoMemory>
    ensures { IfOk result (λ cells. cells.items ≡ map C.cell_of fields.entry) }
{
    let mut cells = Vec::with_capacity(alloc, fields.flags.len())?;
    let mut left = fields;
    'fields: while let Some(field) = left.next() {
        cells.push(C::of_field(alloc, field)?)?;
    }
    Ok(cells)
}

/// Appends the bytes of fields.
pub(crate) fn write_fields(out: &mut Vec<u8>, fields: Fields<'_>) -> Result<(), NoMemory>
    ensures ok { OnOk result (out.new.items ≡ out.old.items ++ record_bytes fields.entry) }
    ensures err { OnErr result (take (length out.old.items) out.new.items ≡ out.old.items) }
{
    let mut left = fields;
    'fields: while let Some(field) = left.next() {
        field_write(out, &field)?;
    }
    Ok(())
}

/// Appends a field if the flag of its column marks the key.
fn add_key_field(key: &mut Vec<u8>, flag: u8, field: &Field) -> Result<(), NoMemory>
    requires { FieldFits field.now }
    ensures key { 0 < flag → OnOk result (key.new.items ≡ key.old.items ++ field_bytes (field_of field.now)) }
    ensures other { flag ≡ 0 → OnOk result (key.new.items ≡ key.old.items) }
{
    if flag != 0 {
        field_write(key, field)?;
    }
    Ok(())
}

/// Returns the bytes of the fields in the key columns, in column order.
pub(crate) fn key_of_fields(
    alloc: Global,
    flags: &[u8],
    fields: Fields<'_>,
) -> Result<Vec<u8>, NoMemory>
    requires { length flags.now ≡ length fields }
    ensures { IfOk result (λ key. key.items ≡ image_key flags.now fields.entry) }
{
    let mut key = Vec::new(alloc);
    let mut left = fields;
    for flag in flags {
        if let Some(field) = left.next() {
            add_key_field(&mut key, *flag, &field)?;
        }
    }
    Ok(key)
}
