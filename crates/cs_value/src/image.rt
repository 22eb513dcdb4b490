//! Images: the fields of a record. Some may be undefined.
ghost use Rattle.std.specs.Prelude.{◌≡◌, ◌+◌, ◌≤◌, ◌++◌, ℕ, List, length, drop, IfOk, IfErr, OnOk, OnErr};
ghost use Rattle.cs_value.specs.declared.value.OwnedField.{OwnedField};
ghost use Rattle.cs_value.specs.Value.{IsField, IsRecord};
ghost use Rattle.cs_value.specs.Spelling.{field_bytes, record_bytes, BeginsWith};
ghost use Rattle.cs_value.specs.ImageFaults.{RecordFails};
ghost use Rattle.cs_value.specs.Reading.{NoFieldAt};
ghost use Rattle.cs_value.specs.Refusals.{Answers, Refuses};

use crate::fault::ImageFault;
use crate::field::field_read;
use crate::parts::{parts_copy, parts_write, see_parts};
use crate::refusal::NoMemory;
use crate::value::OwnedField;
use std::alloc::Global;
use std::marker::Model;

/// The fields of a record, such as the old or the new one of an UPDATE. Contracts see their list.
#[derive(Debug, Drop)]
pub struct Image {
    fields: Vec<OwnedField>,
}

impl Model for Image {
    ghost Value = { List OwnedField };

    ghost view = { λ i. i.fields.items };

    ghost invariant = { λ i. IsRecord i.fields.items };
}

impl Image {
    /// Returns the image of some fields. It allocates nothing.
    pub fn new(fields: Vec<OwnedField>) -> Image
        ensures { result ≡ fields.items }
    {
        see_parts(&fields);
        Image { fields }
    }

    /// Returns the fields, in column order.
    pub fn fields(&self) -> &[OwnedField]
        ensures same { result.now ≡ self.now }
        ensures are_fields { IsRecord self.now }
    {
        &self.fields
    }

    /// Returns a copy of the image.
    pub fn copy(&self, alloc: Global) -> Result<Image, NoMemory>
        ensures { IfOk result (λ i. i ≡ self.now) }
    {
        Ok(Image::new(parts_copy(alloc, self.fields())?))
    }

    /// Returns the fields. It allocates nothing.
    pub fn into_fields(self) -> Vec<OwnedField>
        ensures { result.items ≡ self }
    {
        let Image { fields } = self;
        fields
    }
}

impl PartialEq for Image {
    ghost use Rattle.cs_value.specs.contracts.value.OwnedFieldPartialEq.TheImpl.Laws.{laws-law};
    ghost use Rattle.std.specs.Cmp.Lexicographic.{pointwise, lists_per};

    ghost eq = { pointwise ⟦<OwnedField as PartialEq>⟧.eq };

    ghost laws = { lists_per laws-law };

    fn eq(&self, other: &Image) -> bool {
        self.fields == other.fields
    }
}

impl Eq for Image {
    ghost use Rattle.cs_value.specs.contracts.value.OwnedFieldEq.TheImpl.Laws.{laws-law};
    ghost use Rattle.std.specs.Cmp.Lexicographic.{lists_equiv};

    ghost laws = { lists_equiv laws-law };
}

/// Appends the bytes of the fields of an image, in column order. [`NoMemory`] leaves `out` unchanged.
pub fn image_write(out: &mut Vec<u8>, image: &Image) -> Result<(), NoMemory>
    ensures ok { OnOk result (out.new.items ≡ out.old.items ++ record_bytes image.now) }
    ensures err { OnErr result (out.new.items ≡ out.old.items) }
{
    parts_write(out, image.fields())
}

/// Returns the image of `columns` columns at the front of `bytes`, and its length in bytes. Bytes may follow it. It
/// allocates only for the fields that it has read, however large `columns` is.
///
/// # Errors
///
/// The fault of the first column that has no field, with its byte offset in `bytes`. `NoMemory` if memory runs out.
pub fn image_read(alloc: Global, bytes: &[u8], columns: usize) -> Result<(Image, usize), ImageFault>
    ensures found { IfOk result (λ r. IsRecord r.0 × (length r.0 ≡ columns)
        × BeginsWith bytes.now (record_bytes r.0) r.1) }
    ensures only { (fields : List OwnedField) (rest : List ℕ) → IsRecord fields → length fields ≡ columns
        → bytes.now ≡ record_bytes fields ++ rest
        → Answers result (λ r. (r.0 ≡ fields) × (r.1 ≡ length (record_bytes fields))) }
    ensures fault { IfErr result (Refuses (λ f. RecordFails bytes.now columns f.kind f.place)) }
{
    let mut fields = Vec::new(alloc);
    let mut end = 0;
    'columns: for _ in 0..columns {
        let (field, used) = read_at(alloc, bytes, end)?;
        fields.push(field)?;
        end += used;
    }
    Ok((Image::new(fields), end))
}

/// Returns the field at an offset, and its length in bytes.
fn read_at(alloc: Global, bytes: &[u8], at: usize) -> Result<(OwnedField, usize), ImageFault>
    requires { at ≤ length bytes.now }
    ensures found { IfOk result (λ r. IsField r.0 × BeginsWith (drop at bytes.now) (field_bytes r.0) r.1) }
    ensures within { IfOk result (λ r. at + r.1 ≤ length bytes.now) }
    ensures only { (f : OwnedField) (rest : List ℕ) → IsField f → drop at bytes.now ≡ field_bytes f ++ rest
        → Answers result (λ r. r.0 ≡ f) }
    ensures fault { IfErr result (Refuses (NoFieldAt bytes.now at)) }
{
    match field_read(&bytes[at..]) {
        Ok((field, used)) => Ok((field.to_owned(alloc)?, used)),
        Err(fault) => Err(ImageFault::Fault(fault.behind(at))),
    }
}
