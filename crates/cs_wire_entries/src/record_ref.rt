//! Borrowed records.
ghost use Rattle.std.specs.Prelude.{◌≡◌, ◌∷◌, ℕ, suc};
ghost use Rattle.cs_value.specs.Value.{FieldFits, field_of};
ghost use Rattle.cs_wire_entries.specs.Records.{HasWidth, fields_at};

use crate::spelled::front_field;
use cs_value::{Field, OwnedField, OwnedValue};

/// A borrowed record, of a file or owned.
#[derive(Clone, Copy, Debug)]
pub(crate) enum RecordRef<'a> {
    /// The bytes of its fields, in column order.
    Spelled(&'a [u8]),
    /// The values of a row.
    Values(&'a [OwnedValue]),
    /// The fields of an image.
    Fields(&'a [OwnedField]),
}

impl<'a> RecordRef<'a> {
    /// Returns the first field, and the record of the later ones. If there is none, the field is undefined.
    pub(crate) fn split_first(self) -> (Field<'a>, RecordRef<'a>)
        ensures split { (left : ℕ) → HasWidth (suc left) self.entry
            → (fields_at (suc left) self.entry ≡ field_of result.0 ∷ fields_at left result.1) }
        ensures fits { FieldFits result.0 }
    {
        match self {
            RecordRef::Spelled(bytes) => {
                let (field, rest) = front_field(bytes);
                (field, RecordRef::Spelled(rest))
            }
            RecordRef::Values([value, rest @ ..]) => {
                (Field::Defined(value.as_value()), RecordRef::Values(rest))
            }
            RecordRef::Fields([field, rest @ ..]) => (field.as_field(), RecordRef::Fields(rest)),
            _ => (Field::Undefined, self),
        }
    }
}
