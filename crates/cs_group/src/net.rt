//! The net change of a row.
ghost use Rattle.std.specs.Prelude.{◌≡◌, length, map, List, IfOk, IfSome, option_map};
ghost use Rattle.std.specs.List.{AllByRecursion};
ghost use Rattle.std.specs.Cmp.Lexicographic.{pointwise};
ghost use Rattle.cs_value.specs.declared.value.OwnedField.TheVariants.{Undefined as UndefinedField};
ghost use Rattle.cs_value.specs.Value.{field_of, FieldFits};
ghost use Rattle.cs_wire_entries.specs.declared.entry.Change.TheVariants.{Update};
ghost use Rattle.cs_group.specs.Views.{IsImage, lent_image, image_in};
ghost use Rattle.cs_group.specs.Net.{is_same, unless_same, by_flag, old_record, new_record, values_of, net_between};
ghost use Rattle.cs_group.specs.Net.{image_of_row, net_row_change as change_between};

use crate::image::row_fields;
use cs_value::{Field, Image, NoMemory, Row};
use cs_wire::Change;
use std::alloc::Global;

/// Returns the row of the defined fields.
fn row_of(alloc: Global, fields: &[Field<'_>]) -> Result<Row, NoMemory>
    requires { AllByRecursion FieldFits fields.now }
    ensures { IfOk result (λ row. row ≡ values_of (map field_of fields.now)) }
{
    let mut values = Vec::new(alloc);
    for field in fields {
        match *field {
            Field::Undefined => {}
            Field::Defined(value) => values.push(value.to_owned(alloc)?)?,
        }
    }
    Ok(Row::new(values))
}

/// Returns whether two images are equal.
fn are_same(before: &[Field<'_>], after: &[Field<'_>]) -> bool
    ensures { result ≡ pointwise is_same (map field_of before.now) (map field_of after.now) }
{
    before == after
}

/// Returns the fields of an update's two records in a column with this flag.
fn update_fields<'a>(flag: u8, before: Field<'a>, after: Field<'a>) -> (Field<'a>, Field<'a>)
    requires { FieldFits before × FieldFits after }
    ensures old { field_of result.0 ≡ by_flag flag
        (unless_same (field_of before.entry) (field_of after.entry) (field_of before.entry)) (field_of before.entry) }
    ensures new { field_of result.1 ≡ by_flag flag
        (unless_same (field_of before.entry) (field_of after.entry) (field_of after.entry)) UndefinedField }
    ensures short { FieldFits result.0 × FieldFits result.1 }
{
    if flag != 0 {
        (before, Field::Undefined)
    } else if before == after {
        (Field::Undefined, Field::Undefined)
    } else {
        (before, after)
    }
}

/// Returns the update from one image to another.
fn update_between(
    alloc: Global,
    flags: &[u8],
    before: &[Field<'_>],
    after: &[Field<'_>],
) -> Result<Change, NoMemory>
    requires before { length flags.now ≡ length before.now }
    requires after { length flags.now ≡ length after.now }
    requires short { AllByRecursion FieldFits before.now × AllByRecursion FieldFits after.now }
    ensures { IfOk result (λ change. change ≡ Update
        (old_record flags.now (map field_of before.now) (map field_of after.now))
        (new_record flags.now (map field_of before.now) (map field_of after.now))) }
{
    let mut old = Vec::new(alloc);
    let mut new = Vec::new(alloc);
    for (column, flag) in flags.iter().enumerate() {
        let (was, becomes) = update_fields(*flag, before[column], after[column]);
        old.push(was.to_owned(alloc)?)?;
        new.push(becomes.to_owned(alloc)?)?;
    }
    Ok(Change::Update {
        old: Image::new(old),
        new: Image::new(new),
    })
}

/// Returns the change from one row to another, or None if they are equal. Each is given by its fields, one for each
/// flag, or is absent.
///
/// A row that appears is an insert, and one that disappears a delete. Else the columns outside the key that differ are
/// an update, with the key of the row before.
pub fn net_change(
    alloc: Global,
    flags: &[u8],
    before: Option<&[Field<'_>]>,
    after: Option<&[Field<'_>]>,
) -> Result<Option<Change>, NoMemory>
    requires before { IfSome before (λ fields. IsImage flags.now fields.now) }
    requires after { IfSome after (λ fields. IsImage flags.now fields.now) }
    ensures { IfOk result (λ change.
        change ≡ net_between flags.now (lent_image before.entry) (lent_image after.entry)) }
{
    Ok(match (before, after) {
        (None, None) => None,
        (None, Some(after)) => Some(Change::Insert(row_of(alloc, after)?)),
        (Some(before), None) => Some(Change::Delete(row_of(alloc, before)?)),
        (Some(before), Some(after)) if are_same(before, after) => None,
        (Some(before), Some(after)) => Some(update_between(alloc, flags, before, after)?),
    })
}

/// Returns the change from one row to another, or None if they are equal, as [`net_change`] does for fields. Each may
/// be absent, and has a value for each flag.
pub fn net_row_change(
    alloc: Global,
    flags: &[u8],
    before: Option<&Row>,
    after: Option<&Row>,
) -> Result<Option<Change>, NoMemory>
    requires before { IfSome before (λ row. length flags.now ≡ length row.now) }
    requires after { IfSome after (λ row. length flags.now ≡ length row.now) }
    ensures { IfOk result (λ change. change ≡ change_between flags.now
        (option_map (λ r. r.now) before.entry) (option_map (λ r. r.now) after.entry)) }
{
    let before = fields_of(alloc, before)?;
    let after = fields_of(alloc, after)?;
    net_change(alloc, flags, before.as_deref(), after.as_deref())
}

/// Returns the fields of a row, if there is one.
fn fields_of<'a>(alloc: Global, row: Option<&'a Row>) -> Result<Option<Vec<Field<'a>>>, NoMemory>
    ensures same { IfOk result (λ image. image_in image ≡ image_of_row (option_map (λ r. r.now) row.entry)) }
    ensures short { IfOk result (λ image. IfSome image (λ fields. AllByRecursion FieldFits fields.items)) }
{
    match row {
        None => Ok(None),
        Some(row) => Ok(Some(row_fields(alloc, row)?)),
    }
}
