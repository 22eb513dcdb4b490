//! The rows of entries before and after, as fields that borrow from them.
ghost use Rattle.std.specs.Prelude.{◌≡◌, length, map, Option, IfOk, IfSome};
ghost use Rattle.std.specs.List.{AllByRecursion};
ghost use Rattle.cs_value.specs.declared.value.OwnedField.TheVariants.{Defined};
ghost use Rattle.cs_value.specs.Value.{field_of, FieldFits};
ghost use Rattle.cs_wire.specs.Entry.{before_image as before_image_of, after_image as after_image_of};
ghost use Rattle.cs_group.specs.Views.{IsImage, image_in};
ghost use Rattle.cs_group.specs.Joining.{laid_over, over as over_of, known as known_of};

use cs_value::{Field, NoMemory, Row};
use cs_wire::{EntryRef, Fields};
use std::alloc::Global;

/// Returns the fields of the row before the entry, or None for an insert.
pub(crate) fn before_image<'a>(
    alloc: Global,
    entry: &EntryRef<'a>,
) -> Result<Option<Vec<Field<'a>>>, NoMemory>
    ensures same { IfOk result (λ image. image_in image ≡ before_image_of entry.now.entry.change) }
    ensures well_formed { IfOk result (λ image. IfSome image (λ fields. IsImage entry.now.flags fields.items)) }
{
    match entry.old_fields() {
        None => Ok(None),
        Some(fields) => Ok(Some(list_fields(alloc, fields)?)),
    }
}

/// Returns the fields of the row after the entry, or None for a delete.
pub(crate) fn after_image<'a>(
    alloc: Global,
    entry: &EntryRef<'a>,
) -> Result<Option<Vec<Field<'a>>>, NoMemory>
    ensures same { IfOk result (λ image. image_in image ≡ after_image_of entry.now.flags entry.now.entry.change) }
    ensures well_formed { IfOk result (λ image. IfSome image (λ fields. IsImage entry.now.flags fields.items)) }
{
    match entry.fields_after() {
        None => Ok(None),
        Some(fields) => Ok(Some(list_fields(alloc, fields)?)),
    }
}

/// Returns one image laid over another: its defined fields, and else those of the other. If the first has no row,
/// neither does the result.
pub(crate) fn known<'a>(
    alloc: Global,
    upper: Option<Vec<Field<'a>>>,
    lower: Option<Vec<Field<'a>>>,
) -> Result<Option<Vec<Field<'a>>>, NoMemory>
    requires upper { IfSome upper (λ fields. AllByRecursion FieldFits fields.items) }
    requires lower { IfSome lower (λ fields. AllByRecursion FieldFits fields.items) }
    requires width { IfSome upper (λ u. IfSome lower (λ l. length u.items ≡ length l.items)) }
    ensures same { IfOk result (λ image. image_in image ≡ known_of (image_in upper.entry) (image_in lower.entry)) }
    ensures short { IfOk result (λ image. IfSome image (λ fields. AllByRecursion FieldFits fields.items)) }
    ensures width { IfOk result (λ image. IfSome image (λ fields.
        IfSome upper.entry (λ u. length fields.items ≡ length u.items))) }
{
    match (upper, lower) {
        (None, _) => Ok(None),
        (Some(upper), None) => Ok(Some(upper)),
        (Some(upper), Some(lower)) => Ok(Some(lay_over(alloc, &upper, &lower)?)),
    }
}

/// Returns the fields of a row.
pub(crate) fn row_fields<'a>(alloc: Global, row: &'a Row) -> Result<Vec<Field<'a>>, NoMemory>
    ensures same { IfOk result (λ fields. map field_of fields.items ≡ map Defined row.now) }
    ensures short { IfOk result (λ fields. AllByRecursion FieldFits fields.items) }
{
    let mut fields = Vec::new(alloc);
    for value in row.values() {
        fields.push(Field::Defined(value.as_value()))?;
    }
    Ok(fields)
}

/// Collects fields into a list.
fn list_fields<'a>(alloc: Global, fields: Fields<'a>) -> Result<Vec<Field<'a>>, NoMemory>
    ensures same { IfOk result (λ list. map field_of list.items ≡ fields.entry) }
    ensures short { IfOk result (λ list. AllByRecursion FieldFits list.items) }
{
    let mut list = Vec::new(alloc);
    let mut left = fields;
    'fields: while let Some(field) = left.next() {
        list.push(field)?;
    }
    Ok(list)
}

/// Returns the defined fields of an image, and else those of another.
fn lay_over<'a>(
    alloc: Global,
    upper: &[Field<'a>],
    lower: &[Field<'a>],
) -> Result<Vec<Field<'a>>, NoMemory>
    requires width { length upper.now ≡ length lower.now }
    requires short { AllByRecursion FieldFits upper.now × AllByRecursion FieldFits lower.now }
    ensures same { IfOk result (λ fields. map field_of fields.items
        ≡ laid_over (map field_of upper.now) (map field_of lower.now)) }
    ensures short { IfOk result (λ fields. AllByRecursion FieldFits fields.items) }
{
    let mut fields = Vec::new(alloc);
    for (column, field) in upper.iter().enumerate() {
        fields.push(over(*field, lower[column]))?;
    }
    Ok(fields)
}

/// Returns a field if it is defined, and else another.
fn over<'a>(upper: Field<'a>, lower: Field<'a>) -> Field<'a>
    requires { FieldFits upper × FieldFits lower }
    ensures same { field_of result ≡ over_of (field_of upper.entry) (field_of lower.entry) }
    ensures short { FieldFits result }
{
    match upper {
        Field::Undefined => lower,
        Field::Defined(value) => Field::Defined(value),
    }
}
