//! The row that stored bytes are.
ghost use Rattle.std.specs.Prelude.{◌≡◌, ◌≢◌, ◌⊎◌, List, map, IfOk, IfErr};
ghost use Rattle.cs_value.specs.declared.value.OwnedValue.{OwnedValue};
ghost use Rattle.cs_value.specs.declared.value.OwnedField.TheVariants.{Defined};
ghost use Rattle.cs_value.specs.Spelling.{row_bytes};
ghost use Rattle.cs_rows.specs.Rows.{IsRowIn};
ghost use Rattle.cs_rows.specs.declared.fault.StoreError.TheVariants.{DamagedStore as Damaged};
ghost use Rattle.cs_rows.specs.declared.fault.StoreError.TheVariants.{NoMemory as OutOfMemory};

use cs_rows::{Schema, StoreError};
use cs_value::{Image, ImageFault, OwnedField, Row, image_read};
use std::alloc::Global;

/// The row of a table of this schema that the bytes are.
pub fn read_row(alloc: Global, schema: &Schema, bytes: &[u8]) -> Result<Row, StoreError>
    ensures found { IfOk result (λ row. IsRowIn schema.now row × (bytes.now ≡ row_bytes row)) }
    ensures refused { IfErr result (λ e. ((e ≡ Damaged)
        × ((row : List OwnedValue) → IsRowIn schema.now row → bytes.now ≢ row_bytes row)) ⊎ (e ≡ OutOfMemory)) }
{
    let (image, used) = match image_read(alloc, bytes, schema.flags().len()) {
        Ok(read) => read,
        Err(ImageFault::Fault(_)) => return Err(StoreError::DamagedStore),
        Err(ImageFault::NoMemory) => return Err(StoreError::NoMemory),
    };
    if used != bytes.len() {
        return Err(StoreError::DamagedStore);
    }
    let row = defined_row(alloc, image)?;
    if !row.is_keyed(schema.flags()) {
        return Err(StoreError::DamagedStore);
    }
    if !schema.is_obeyed_by(&row) {
        return Err(StoreError::DamagedStore);
    }
    Ok(row)
}

// The row whose fields these are, each with a value.
fn defined_row(alloc: Global, image: Image) -> Result<Row, StoreError>
    ensures found { IfOk result (λ row. image ≡ map Defined row) }
    ensures refused { IfErr result (λ e. ((e ≡ Damaged)
        × ((row : List OwnedValue) → image ≢ map Defined row)) ⊎ (e ≡ OutOfMemory)) }
{
    let mut values = Vec::new(alloc);
    for field in image.into_fields() {
        match field {
            OwnedField::Undefined => return Err(StoreError::DamagedStore),
            OwnedField::Defined(value) => values.push(value)?,
        }
    }
    Ok(Row::new(values))
}
