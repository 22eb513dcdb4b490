//! Borrowed entries, of a file or of an owned changeset.
ghost use Rattle.std.specs.Prelude.{◌≡◌, ◌<◌, ◌++◌, IfOk, IfSome, OnErr, OnOk, length, map, option_map, take};
ghost use Rattle.std.specs.Cow.{cow_slice_items};
ghost use Rattle.cs_value.specs.Spelling.{record_bytes};
ghost use Rattle.cs_wire_entries.specs.Items.{shown_record, value_in};
ghost use Rattle.cs_wire_entries.specs.Records.{AreKeyColumns, HasWidth, IsWhole, fields_at};

use crate::entry::{Change, Entry, Operation};
use crate::fields::{Fields, copy_cells, key_of_fields, write_fields};
use crate::format::{DELETE, INSERT, UPDATE};
use crate::record_ref::RecordRef;
use crate::spelled::KeyColumns;
use crate::writer::{undo_refused, write_operation, write_with_operation};
use cs_value::{Field, Image, Key, NoMemory, OwnedField, OwnedValue, Row};
use std::alloc::Global;
use std::borrow::CowSlice;
use std::marker::Model;

/// A borrowed entry, of a file or of an owned changeset, or the inverse of one. It allocates nothing. Contracts see the
/// entry, and the flags of its table.
#[derive(Debug, Drop)]
pub struct EntryRef<'a> {
    flags: &'a [u8],
    operation: Operation,
    indirect: bool,
    // The row, or an update's old record where it lies.
    first: RecordRef<'a>,
    // An update's new record there.
    second: RecordRef<'a>,
    // Whether an update shows its records with the fields outside the key exchanged.
    exchanged: bool,
}

impl<'a> Model for EntryRef<'a> {
    ghost use Rattle.std.specs.Prelude.{length};
    ghost use Rattle.cs_wire_entries.specs.Items.{FlaggedEntry, entry_of, shown_entry};
    ghost use Rattle.cs_wire_entries.specs.Records.{IsShown, fields_at};

    ghost Value = { FlaggedEntry };

    ghost view = { λ e. shown_entry e.exchanged (entry_of e.flags.now e.operation e.indirect (fields_at (length e.flags.now) e.first) (fields_at (length e.flags.now) e.second)) };

    ghost invariant = { λ e. IsShown e.exchanged (entry_of e.flags.now e.operation e.indirect (fields_at (length e.flags.now) e.first) (fields_at (length e.flags.now) e.second)) e.operation e.first e.second };
}

impl<'a> EntryRef<'a> {
    ghost use Rattle.cs_value.specs.Value.{IsRow};
    ghost use Rattle.cs_value.specs.Table.{IsKeyedRow};
    ghost use Rattle.cs_wire_entries.specs.declared.entry.Change.TheVariants.{Update};
    ghost use Rattle.cs_wire_entries.specs.Records.{IsRowOperation, row_change};
    ghost use Rattle.cs_wire_entries.specs.Entry.{IsChange, IsEntry, after_image, before_image, entry_bytes, key_of, operation};
    ghost use Rattle.cs_wire_entries.specs.Inverse.{AppendsInverse, IsInverseEntry};
    ghost use Rattle.cs_value.specs.Value.{FieldFits, field_of};
    ghost use Rattle.cs_wire_entries.specs.Items.{IsSpelled, entry_in, new_record, new_field as field_after, old_field as field_before};

    /// Returns the entry of a table with these flags whose records are these bytes.
    pub(crate) fn from_bytes(
        flags: &'a [u8],
        operation: Operation,
        indirect: bool,
        first: &'a [u8],
        second: &'a [u8],
    ) -> EntryRef<'a>
        requires { IsSpelled (entry_in flags.now operation indirect first.now second.now) first.now second.now }
        ensures { result ≡ entry_in flags.now operation indirect first.now second.now }
    {
        EntryRef {
            flags,
            operation,
            indirect,
            first: RecordRef::Spelled(first),
            second: RecordRef::Spelled(second),
            exchanged: false,
        }
    }

    /// Borrows an owned entry that fits these flags (`Header::admits` of `cs_wire`).
    pub fn from_entry(flags: &'a [u8], entry: &'a Entry) -> EntryRef<'a>
        requires { IsEntry flags.now entry.now }
        ensures { result ≡ record { flags = flags.now; entry = entry.now } }
    {
        let indirect = entry.indirect;
        match &entry.change {
            Change::Insert(row) => {
                EntryRef::from_row(flags, Operation::Insert, indirect, row.values())
            }
            Change::Delete(row) => {
                EntryRef::from_row(flags, Operation::Delete, indirect, row.values())
            }
            Change::Update { old, new } => {
                EntryRef::from_images(flags, indirect, old.fields(), new.fields())
            }
        }
    }

    /// Borrows the insert or the delete of an owned row.
    fn from_row(
        flags: &'a [u8],
        operation: Operation,
        indirect: bool,
        values: &'a [OwnedValue],
    ) -> EntryRef<'a>
        requires operation { IsRowOperation operation }
        requires row { IsRow values.now × IsKeyedRow flags.now values.now }
        ensures { result ≡ record { flags = flags.now; entry = record { indirect = indirect; change = row_change operation values.now } } }
    {
        EntryRef {
            flags,
            operation,
            indirect,
            first: RecordRef::Values(values),
            second: RecordRef::Values(values),
            exchanged: false,
        }
    }

    /// Borrows the update of two owned records.
    fn from_images(
        flags: &'a [u8],
        indirect: bool,
        old: &'a [OwnedField],
        new: &'a [OwnedField],
    ) -> EntryRef<'a>
        requires { IsChange flags.now (Update old.now new.now) }
        ensures { result ≡ record { flags = flags.now; entry = record { indirect = indirect; change = Update old.now new.now } } }
    {
        EntryRef {
            flags,
            operation: Operation::Update,
            indirect,
            first: RecordRef::Fields(old),
            second: RecordRef::Fields(new),
            exchanged: false,
        }
    }

    /// Returns the flags of its table, one for each column.
    pub fn flags(&self) -> &'a [u8]
        ensures flags { result.now ≡ self.now.flags }
        ensures well_formed { IsEntry self.now.flags self.now.entry }
    {
        self.flags
    }

    /// Returns the number of columns of its table.
    pub fn column_count(&self) -> usize
        ensures count { result ≡ length self.now.flags }
        ensures well_formed { IsEntry self.now.flags self.now.entry }
    {
        self.flags.len()
    }

    /// Returns the operation byte: 0x12 for an insert, 0x09 for a delete, 0x17 for an update.
    pub fn op(&self) -> u8
        ensures { result ≡ operation self.now.entry.change }
    {
        match self.operation {
            Operation::Insert => INSERT,
            Operation::Delete => DELETE,
            Operation::Update => UPDATE,
        }
    }

    /// Returns whether a trigger or a foreign key made the change.
    pub fn indirect(&self) -> bool
        ensures indirect { result ≡ self.now.entry.indirect }
        ensures well_formed { IsEntry self.now.flags self.now.entry }
    {
        self.indirect
    }

    /// Returns the old record, or None for an insert. In an update, columns that are neither modified nor of the key
    /// are undefined.
    pub fn old_fields(&self) -> Option<Fields<'a>>
        ensures fields { result ≡ before_image self.now.entry.change }
        ensures width { IfSome result (λ fields. length fields ≡ length self.now.flags) }
    {
        match self.operation {
            Operation::Insert => None,
            Operation::Delete => Some(Fields::new(self.flags, self.first, self.first, false)),
            Operation::Update => Some(Fields::new(
                self.flags,
                self.first,
                self.second,
                self.exchanged,
            )),
        }
    }

    /// Returns the new record, or None for a delete. In an update, columns that are not modified or are of the key are
    /// undefined.
    pub fn new_fields(&self) -> Option<Fields<'a>>
        ensures fields { result ≡ new_record self.now.entry.change }
        ensures width { IfSome result (λ fields. length fields ≡ length self.now.flags) }
    {
        match self.operation {
            Operation::Insert => Some(Fields::new(self.flags, self.first, self.first, false)),
            Operation::Delete => None,
            Operation::Update => {
                let (own, other) = (self.second, self.first);
                Some(Fields::new(self.flags, own, other, self.exchanged))
            }
        }
    }

    /// Returns the new record with the key, or None for a delete. In an update, columns that are neither modified nor
    /// of the key are undefined.
    pub fn fields_after(&self) -> Option<Fields<'a>>
        ensures fields { result ≡ after_image self.now.flags self.now.entry.change }
        ensures width { IfSome result (λ fields. length fields ≡ length self.now.flags) }
    {
        let exchanged = !self.exchanged;
        match self.operation {
            Operation::Insert => Some(Fields::new(self.flags, self.first, self.first, false)),
            Operation::Delete => None,
            Operation::Update => {
                Some(Fields::new(self.flags, self.first, self.second, exchanged))
            }
        }
    }

    /// Returns the field of a column in the old record, or None for an insert. `column` is zero-based and below
    /// [`EntryRef::column_count`]. It takes time in proportion to the bytes of the records up to that column.
    pub fn old(&self, column: usize) -> Option<Field<'a>>
        requires { column < length self.now.flags }
        ensures field { option_map field_of result ≡ field_before self.now.entry.change column }
        ensures fits { IfSome result FieldFits }
    {
        match self.old_fields() {
            Some(fields) => Some(fields.at(column)),
            None => None,
        }
    }

    /// Returns the field of a column in the new record, or None for a delete, as [`EntryRef::old`] does for the old
    /// one.
    pub fn new(&self, column: usize) -> Option<Field<'a>>
        requires { column < length self.now.flags }
        ensures field { option_map field_of result ≡ field_after self.now.entry.change column }
        ensures fits { IfSome result FieldFits }
    {
        match self.new_fields() {
            Some(fields) => Some(fields.at(column)),
            None => None,
        }
    }

    /// Returns the key of the entry.
    pub fn key(&self, alloc: Global) -> Result<Key, NoMemory>
        ensures { IfOk result (λ key. key ≡ key_of self.now.flags self.now.entry.change) }
    {
        Ok(Key::from_bytes(self.key_bytes(alloc)?))
    }

    /// Returns the bytes of the key where the entry lies in a file. `columns` are those of its table
    /// ([`KeyColumns::of`]). It allocates nothing.
    pub fn borrowed_key(&self, columns: KeyColumns) -> Option<&'a [u8]>
        requires { AreKeyColumns self.now.flags columns }
        ensures { IfSome result (λ key. key.now ≡ key_of self.now.flags self.now.entry.change) }
    {
        match self.first {
            RecordRef::Spelled(bytes) => Some(columns.slice(bytes)),
            _ => None,
        }
    }

    /// Returns the bytes of the key. They are borrowed if they are contiguous in the file, and else copied.
    pub fn key_slice(&self, alloc: Global) -> Result<CowSlice<'a, u8, Global>, NoMemory>
        ensures { IfOk result (λ key. cow_slice_items key ≡ key_of self.now.flags self.now.entry.change) }
    {
        if let Some(columns) = KeyColumns::of(self.flags) {
            if let Some(key) = self.borrowed_key(columns) {
                return Ok(CowSlice::Borrowed(key));
            }
        }
        Ok(CowSlice::Owned(self.key_bytes(alloc)?))
    }

    /// Returns the bytes of the key.
    fn key_bytes(&self, alloc: Global) -> Result<Vec<u8>, NoMemory>
        ensures { IfOk result (λ key. key.items ≡ key_of self.now.flags self.now.entry.change) }
    {
        let fields = Fields::new(self.flags, self.first, self.first, false);
        key_of_fields(alloc, self.flags, fields)
    }

    /// Returns the inverse: a delete for an insert, an insert for a delete, and an update with the two values of each
    /// modified column exchanged. It allocates nothing.
    pub fn inverted(self) -> EntryRef<'a>
        ensures flags { result.flags ≡ self.entry.flags }
        ensures inverse { IsInverseEntry self.entry.flags self.entry.entry result.entry }
        ensures well_formed { IsEntry result.flags result.entry }
    {
        self.inverse()
    }

    /// Returns the inverse, which borrows what this borrows.
    fn inverse(&self) -> EntryRef<'a>
        ensures flags { result.flags ≡ self.now.flags }
        ensures inverse { IsInverseEntry self.now.flags self.now.entry result.entry }
        ensures well_formed { IsEntry result.flags result.entry }
    {
        EntryRef {
            flags: self.flags,
            operation: self.operation.inverse(),
            indirect: self.indirect,
            first: self.first,
            second: self.second,
            exchanged: !self.exchanged,
        }
    }

    /// Appends the bytes of the inverse. `bytes` are those of the entry itself: an insert or a delete is copied from
    /// them. [`NoMemory`] leaves `out` unchanged.
    pub fn write_inverse_to(&self, bytes: &[u8], out: &mut Vec<u8>) -> Result<(), NoMemory>
        requires { bytes.now ≡ entry_bytes self.now.entry }
        ensures ok { OnOk result (AppendsInverse self.now.flags self.now.entry out.old.items out.new.items) }
        ensures err { OnErr result (out.new.items ≡ out.old.items) }
    {
        match self.operation {
            Operation::Insert => write_with_operation(out, bytes, DELETE),
            Operation::Delete => write_with_operation(out, bytes, INSERT),
            Operation::Update => self.inverse().write_to(out),
        }
    }

    /// Appends the bytes of the entry. [`NoMemory`] leaves `out` unchanged.
    pub fn write_to(&self, out: &mut Vec<u8>) -> Result<(), NoMemory>
        ensures ok { OnOk result (out.new.items ≡ out.old.items ++ entry_bytes self.now.entry) }
        ensures err { OnErr result (out.new.items ≡ out.old.items) }
    {
        let start = out.len();
        let written = self.append_to(out);
        undo_refused(out, start, written)
    }

    /// Appends the bytes of the entry, or some of them.
    fn append_to(&self, out: &mut Vec<u8>) -> Result<(), NoMemory>
        ensures ok { OnOk result (out.new.items ≡ out.old.items ++ entry_bytes self.now.entry) }
        ensures err { OnErr result (take (length out.old.items) out.new.items ≡ out.old.items) }
    {
        write_operation(out, self.op(), self.indirect)?;
        match self.operation {
            Operation::Insert | Operation::Delete => write_own(out, self.flags, self.first),
            Operation::Update => {
                let exchanged = self.exchanged;
                write_record(out, self.flags, self.first, self.second, exchanged)?;
                write_record(out, self.flags, self.second, self.first, exchanged)
            }
        }
    }

    /// Returns an owned copy of the entry.
    pub fn to_entry(&self, alloc: Global) -> Result<Entry, NoMemory>
        ensures same { IfOk result (λ e. e ≡ self.now.entry) }
        ensures well_formed { IsEntry self.now.flags self.now.entry }
    {
        let change = match self.operation {
            Operation::Insert => Change::Insert(copy_row(alloc, self.flags, self.first)?),
            Operation::Delete => Change::Delete(copy_row(alloc, self.flags, self.first)?),
            Operation::Update => Change::Update {
                old: copy_image(alloc, self.flags, self.first, self.second, self.exchanged)?,
                new: copy_image(alloc, self.flags, self.second, self.first, self.exchanged)?,
            },
        };
        Ok(Entry {
            indirect: self.indirect,
            change,
        })
    }
}

/// Appends a record as it is.
fn write_own(out: &mut Vec<u8>, flags: &[u8], own: RecordRef<'_>) -> Result<(), NoMemory>
    requires { IsWhole (length flags.now) own }
    ensures ok { OnOk result (out.new.items ≡ out.old.items ++ record_bytes (fields_at (length flags.now) own.entry)) }
    ensures err { OnErr result (take (length out.old.items) out.new.items ≡ out.old.items) }
{
    match own {
        RecordRef::Spelled(bytes) => Ok(out.extend_from_slice(bytes)?),
        _ => write_fields(out, Fields::new(flags, own, own, false)),
    }
}

/// Appends a record, or the record with the fields of another outside the key.
fn write_record(
    out: &mut Vec<u8>,
    flags: &[u8],
    own: RecordRef<'_>,
    other: RecordRef<'_>,
    exchanged: bool,
) -> Result<(), NoMemory>
    requires own { IsWhole (length flags.now) own }
    requires other { HasWidth (length flags.now) other }
    ensures ok { OnOk result (out.new.items ≡ out.old.items ++ record_bytes (shown_record exchanged flags.now
        (fields_at (length flags.now) own.entry) (fields_at (length flags.now) other.entry))) }
    ensures err { OnErr result (take (length out.old.items) out.new.items ≡ out.old.items) }
{
    if exchanged {
        return write_fields(out, Fields::new(flags, own, other, true));
    }
    write_own(out, flags, own)
}

/// Returns a copy of a row.
fn copy_row(alloc: Global, flags: &[u8], row: RecordRef<'_>) -> Result<Row, NoMemory>
    requires { HasWidth (length flags.now) row }
    ensures { IfOk result (λ r. r ≡ map value_in (fields_at (length flags.now) row.entry)) }
{
    Ok(Row::new(copy_cells(alloc, Fields::new(flags, row, row, false))?))
}

/// Returns a copy of a record, or of the record with the fields of another outside the key.
fn copy_image(
    alloc: Global,
    flags: &[u8],
    own: RecordRef<'_>,
    other: RecordRef<'_>,
    exchanged: bool,
) -> Result<Image, NoMemory>
    requires own { HasWidth (length flags.now) own }
    requires other { HasWidth (length flags.now) other }
    ensures { IfOk result (λ image. image ≡ shown_record exchanged flags.now
        (fields_at (length flags.now) own.entry) (fields_at (length flags.now) other.entry)) }
{
    Ok(Image::new(copy_cells(alloc, Fields::new(flags, own, other, exchanged))?))
}
