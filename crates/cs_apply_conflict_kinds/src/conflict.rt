//! The conflict of an entry with the current row of its key, and the row that the entry leaves.
ghost use Rattle.std.specs.Prelude.{◌≡◌, ◌≢◌, Bool, true, false, List, [], ◌∷◌, if◌then◌else◌, Some, None, IfOk, IfSome, option_map};
ghost use Rattle.cs_value.specs.Value.{field_of, FieldFits};
ghost use Rattle.cs_value.specs.Table.{IsKeyedRow};
ghost use Rattle.cs_value.specs.Key.{row_key};
ghost use Rattle.cs_value.specs.State.{Obeys, has_null as null_in};
ghost use Rattle.cs_wire.specs.Entry.{key_of, before_image, after_image};
ghost use Rattle.cs_apply_conflict_kinds.specs.declared.conflict.Kind.TheVariants.{Data as DataKind};
ghost use Rattle.cs_apply_conflict_kinds.specs.declared.conflict.Kind.TheVariants.{NotFound as NotFoundKind};
ghost use Rattle.cs_apply_conflict_kinds.specs.Conflicts.{is_refused as breaks_rule, kind_between};
ghost use Rattle.cs_apply_conflict_kinds.specs.Conflicts.{conflict_kind as kind_of};
ghost use Rattle.cs_apply_conflict_kinds.specs.Conflicts.{row_after as row_of_change};
ghost use Rattle.cs_apply_conflict_kinds.specs.Conflicts.{has_values as values_of_image, agrees as agrees_with};
ghost use Rattle.cs_apply_conflict_kinds.specs.Conflicts.{kind_number, choice_number};
ghost use Rattle.cs_apply_conflict_kinds.specs.Conflicts.{filled, value_in as value_of_field};

use cs_value::{Field, NoMemory, OwnedValue, Row, Value};
use cs_wire::{EntryRef, Fields};
use std::alloc::Global;

/// The kind of a conflict with the current row of the key.
#[derive(Clone, Copy, Debug, PartialEq, Eq)]
pub enum Kind {
    /// The row differs from the old record of an update or a delete: SQLite's `SQLITE_CHANGESET_DATA`.
    Data,
    /// There is no row to update or delete: `SQLITE_CHANGESET_NOTFOUND`.
    NotFound,
    /// There is a row with the key of an insert: `SQLITE_CHANGESET_CONFLICT`.
    Conflict,
    /// The new row has NULL in a column that refuses it: `SQLITE_CHANGESET_CONSTRAINT`.
    Constraint,
}

impl Kind {
    /// Returns SQLite's number of the kind.
    pub fn number(self) -> u8
        ensures { result ≡ kind_number self }
    {
        match self {
            Kind::Data => 1,
            Kind::NotFound => 2,
            Kind::Conflict => 3,
            Kind::Constraint => 4,
        }
    }
}

/// How a conflict is resolved.
#[derive(Clone, Copy, Debug, PartialEq, Eq)]
pub enum Choice {
    /// The entry is skipped: SQLite's `SQLITE_CHANGESET_OMIT`.
    Omit,
    /// The entry replaces the current row: `SQLITE_CHANGESET_REPLACE`.
    Replace,
    /// The call fails, and changes nothing: `SQLITE_CHANGESET_ABORT`.
    Abort,
}

impl Choice {
    /// Returns SQLite's number of the choice.
    pub fn number(self) -> u8
        ensures { result ≡ choice_number self }
    {
        match self {
            Choice::Omit => 0,
            Choice::Replace => 1,
            Choice::Abort => 2,
        }
    }
}

/// What happens to a no-op: an entry that has a conflict, and whose new row is already the current one.
#[derive(Clone, Copy, Debug, PartialEq, Eq)]
pub enum Noop {
    /// It is a conflict like any other.
    Report,
    /// It is ignored, and the handler is not asked: SQLite's `SQLITE_CHANGESETAPPLY_IGNORENOOP`.
    Ignore,
}

/// Returns the first conflict of an entry with the current row of its key, or None if it has no conflict. The marked
/// columns of its table refuse NULL. It allocates nothing.
pub fn conflict_kind(entry: &EntryRef<'_>, row: Option<&Row>, refuses: &[bool]) -> Option<Kind>
    ensures { result ≡ kind_of (breaks_rule refuses.now entry.now.flags entry.now.entry.change)
        entry.now.entry.change (option_map (λ r. r.now) row.entry) }
{
    match row_conflict(entry, row) {
        None if is_refused(entry, refuses) => Some(Kind::Constraint),
        kind => kind,
    }
}

/// Returns the conflict of an entry with the current row of its key, whatever refuses NULL.
fn row_conflict(entry: &EntryRef<'_>, row: Option<&Row>) -> Option<Kind>
    ensures { result ≡ kind_between (before_image entry.now.entry.change) (option_map (λ r. r.now) row.entry) }
{
    match (entry.old_fields(), row) {
        (None, None) => None,
        (None, Some(_)) => Some(Kind::Conflict),
        (Some(_), None) => Some(Kind::NotFound),
        (Some(fields), Some(row)) => data_unless(has_values(row, fields)),
    }
}

/// Returns the conflict of an entry whose row exists, and may be the one of its old record.
fn data_unless(is_same: bool) -> Option<Kind>
    ensures { result ≡ (if is_same then None else Some DataKind) }
{
    if is_same { None } else { Some(Kind::Data) }
}

/// Returns whether the new row of an entry would have NULL in a marked column. It allocates nothing.
pub fn is_refused(entry: &EntryRef<'_>, refuses: &[bool]) -> bool
    ensures { result ≡ breaks_rule refuses.now entry.now.flags entry.now.entry.change }
{
    match entry.fields_after() {
        Some(fields) => has_null(fields, refuses),
        None => false,
    }
}

/// Returns whether a field is NULL in a marked column.
fn has_null(fields: Fields<'_>, refuses: &[bool]) -> bool
    ensures { result ≡ null_in refuses.now fields.entry }
{
    let mut left = fields;
    for refuses_here in refuses {
        match left.next() {
            Some(field) if *refuses_here && is_null(field) => return true,
            Some(_) => {}
            None => return false,
        }
    }
    false
}

/// Returns whether a field is NULL.
fn is_null(field: Field<'_>) -> bool
    ensures { result ≡ null_in (true ∷ []) (field_of field.entry ∷ []) }
{
    matches!(field, Field::Defined(Value::Null))
}

/// Returns whether the current row of the key is already the new row of the entry. If such an entry has a conflict, it
/// is a no-op. It allocates nothing.
pub fn agrees(entry: &EntryRef<'_>, row: Option<&Row>) -> bool
    ensures { result ≡ agrees_with (after_image entry.now.flags entry.now.entry.change) (option_map (λ r. r.now) row.entry) }
{
    match (entry.fields_after(), row) {
        (None, None) => true,
        (Some(fields), Some(row)) => has_values(row, fields),
        (None, Some(_)) | (Some(_), None) => false,
    }
}

/// Returns whether a row has the values of the defined fields.
fn has_values(row: &Row, fields: Fields<'_>) -> bool
    ensures { result ≡ values_of_image row.now fields.entry }
{
    let mut left = fields;
    for value in row.values() {
        match left.next() {
            Some(field) if has_value(value, field) => {}
            _ => return false,
        }
    }
    left.next().is_none()
}

/// Returns whether a value is that of a field, or the field is undefined.
fn has_value(value: &OwnedValue, field: Field<'_>) -> bool
    requires { FieldFits field }
    ensures { result ≡ values_of_image (value.now ∷ []) (field_of field.entry ∷ []) }
{
    match field {
        Field::Undefined => true,
        Field::Defined(defined) => defined == value.as_value(),
    }
}

/// Returns the new row of an entry that is carried out, or None for a delete. Columns that the entry leaves undefined
/// keep their current values. For an update without a row, which is a conflict, the result has the defined columns
/// only.
pub fn row_after(
    alloc: Global,
    entry: &EntryRef<'_>,
    row: Option<&Row>,
) -> Result<Option<Row>, NoMemory>
    ensures same { IfOk result (λ o.
        o ≡ row_of_change entry.now.flags entry.now.entry.change (option_map (λ r. r.now) row.entry)) }
    ensures fits { IfOk result (λ o. IfSome o (λ r.
        IfSome row.entry (λ stood. IsKeyedRow entry.now.flags stood.now)
        → kind_between (before_image entry.now.entry.change) (option_map (λ r. r.now) row.entry) ≢ Some NotFoundKind
        → IsKeyedRow entry.now.flags r × (row_key entry.now.flags r ≡ key_of entry.now.flags entry.now.entry.change))) }
    ensures obeys { IfOk result (λ o. IfSome o (λ r. (refuses : List Bool)
        → IfSome row.entry (λ stood. IsKeyedRow entry.now.flags stood.now × Obeys refuses stood.now)
        → kind_between (before_image entry.now.entry.change) (option_map (λ r. r.now) row.entry) ≢ Some NotFoundKind
        → breaks_rule refuses entry.now.flags entry.now.entry.change ≡ false → Obeys refuses r)) }
    ensures disobeys { IfOk result (λ o. IfSome o (λ r. (refuses : List Bool)
        → IfSome row.entry (λ stood. IsKeyedRow entry.now.flags stood.now)
        → kind_between (before_image entry.now.entry.change) (option_map (λ r. r.now) row.entry) ≢ Some NotFoundKind
        → breaks_rule refuses entry.now.flags entry.now.entry.change ≡ true → ¬ Obeys refuses r)) }
{
    let stood = match row {
        None => &[],
        Some(row) => row.values(),
    };
    match entry.fields_after() {
        None => Ok(None),
        Some(fields) => Ok(Some(fill(alloc, entry.column_count(), fields, stood)?)),
    }
}

/// Returns the row of some fields, with undefined ones filled from another row.
fn fill(
    alloc: Global,
    columns: usize,
    fields: Fields<'_>,
    row: &[OwnedValue],
) -> Result<Row, NoMemory>
    ensures { IfOk result (λ r. r ≡ filled fields.entry row.now) }
{
    let mut values = Vec::with_capacity(alloc, columns)?;
    let mut left = fields;
    let mut stood = row.iter();
    'fields: while let Some(field) = left.next() {
        if let Some(value) = value_in(alloc, field, stood.next())? {
            values.push(value)?;
        }
    }
    Ok(Row::new(values))
}

/// Returns the value of a field, or the current value of its column if the field is undefined.
fn value_in(
    alloc: Global,
    field: Field<'_>,
    stood: Option<&OwnedValue>,
) -> Result<Option<OwnedValue>, NoMemory>
    requires { FieldFits field }
    ensures { IfOk result (λ o. o ≡ value_of_field (field_of field.entry) (option_map (λ v. v.now) stood.entry)) }
{
    Ok(match (field, stood) {
        (Field::Defined(value), _) => Some(value.to_owned(alloc)?),
        (Field::Undefined, Some(value)) => Some(value.copy(alloc)?),
        (Field::Undefined, None) => None,
    })
}
