//! Conflicts as calls have them: with the values of the key columns.
ghost use Rattle.std.specs.Prelude.{◌≡◌, ◌∷◌, ◌++◌, [], IfOk, OnOk};
ghost use Rattle.cs_value.specs.Key.{key_columns};
ghost use Rattle.cs_calls_conversions.specs.Conflicts.{change_key as key_of_change, values_of};

use crate::key::{is_key, key_values};
use cs_value::{Image, NoMemory, OwnedField, OwnedValue, Row};
use cs_wire_entries::Change;
use std::alloc::Global;

/// Appends the value of a field, if it is defined.
fn push_value(
    alloc: Global,
    values: &mut Vec<OwnedValue>,
    field: &OwnedField,
) -> Result<(), NoMemory>
    ensures { OnOk result (values.new.items ≡ values.old.items ++ values_of (field.now ∷ [])) }
{
    if let OwnedField::Defined(value) = field {
        values.push(value.copy(alloc)?)?;
    }
    Ok(())
}

/// Returns the values of the key columns of a record. Fields that are undefined are left out.
fn image_key(alloc: Global, flags: &[u8], image: &Image) -> Result<Row, NoMemory>
    ensures { IfOk result (λ key. key ≡ values_of (key_columns flags.now image.now)) }
{
    let mut values = Vec::new(alloc);
    for (column, field) in image.fields().iter().enumerate() {
        if is_key(flags, column) {
            push_value(alloc, &mut values, field)?;
        }
    }
    Ok(Row::new(values))
}

/// Returns the values of the key columns of a change. Flags other than 0 mark the key columns; a column past the last
/// flag is none.
///
/// # Errors
///
/// `NoMemory` if out of memory.
pub fn change_key(alloc: Global, flags: &[u8], change: &Change) -> Result<Row, NoMemory>
    ensures { IfOk result (λ key. key ≡ key_of_change flags.now change.now) }
{
    match change {
        Change::Insert(row) => key_values(alloc, flags, row),
        Change::Delete(row) => key_values(alloc, flags, row),
        Change::Update { old, .. } => image_key(alloc, flags, old),
    }
}
