//! Values and fields, borrowed and owned.
ghost use Rattle.std.specs.Prelude.{◌≡◌, ◌<◌, ◌≤◌, ◌↔◌, ◌^◌, IfOk, IsTrue};
ghost use Rattle.cs_value.specs.declared.TheConstants.{MAX_CONTENT_LEN};
ghost use Rattle.cs_value.specs.Value.{value_of, field_of, Fits, FieldFits, IsValue, IsField};

use crate::MAX_CONTENT_LEN;
use crate::bytes::Bytes;
use crate::refusal::NoMemory;
use crate::text::Text;
use std::alloc::Global;

/// A value that borrows its text or its bytes.
#[derive(Clone, Copy, Debug, PartialEq, Eq)]
pub enum Value<'a> {
    Int(i64),
    Text(&'a str),
    Blob(&'a [u8]),
    Null,
}

/// A field that borrows its value: a value, or undefined, such as a column outside the key that an UPDATE does not
/// modify.
#[derive(Clone, Copy, Debug, PartialEq, Eq)]
pub enum Field<'a> {
    Undefined,
    Defined(Value<'a>),
}

/// A value. Two values are equal if their types and contents are: 1 and '1' differ.
#[derive(Debug, PartialEq, Eq, Drop)]
pub enum OwnedValue {
    Int(i64),
    Text(Text),
    Blob(Bytes),
    Null,
}

/// A field: undefined, or a value.
#[derive(Debug, PartialEq, Eq, Drop)]
pub enum OwnedField {
    Undefined,
    Defined(OwnedValue),
}

impl OwnedValue {
    /// Returns whether a text or a blob of `len` bytes can be a value: at most 2147483647.
    pub fn fits(len: usize) -> bool
        ensures within { IsTrue result ↔ (len ≤ MAX_CONTENT_LEN) }
        ensures below { IsTrue result ↔ (len < 2 ^ 31) }
    {
        len <= MAX_CONTENT_LEN
    }

    /// Returns the value, borrowed.
    pub fn as_value(&self) -> Value<'_>
        ensures same { value_of result ≡ self.now }
        ensures short { Fits result }
        ensures is_value { IsValue self.now }
    {
        match self {
            OwnedValue::Int(number) => Value::Int(*number),
            OwnedValue::Text(text) => Value::Text(text.as_str()),
            OwnedValue::Blob(bytes) => {
                let content = bytes.as_slice();
                Value::Blob(content)
            }
            OwnedValue::Null => Value::Null,
        }
    }

    /// Returns a copy of the value.
    pub fn copy(&self, alloc: Global) -> Result<OwnedValue, NoMemory>
        ensures { IfOk result (λ x. x ≡ self.now) }
    {
        self.as_value().to_owned(alloc)
    }
}

impl OwnedField {
    /// Returns the field, borrowed.
    pub fn as_field(&self) -> Field<'_>
        ensures same { field_of result ≡ self.now }
        ensures short { FieldFits result }
        ensures is_field { IsField self.now }
    {
        match self {
            OwnedField::Undefined => Field::Undefined,
            OwnedField::Defined(value) => Field::Defined(value.as_value()),
        }
    }

    /// Returns a copy of the field.
    pub fn copy(&self, alloc: Global) -> Result<OwnedField, NoMemory>
        ensures { IfOk result (λ x. x ≡ self.now) }
    {
        self.as_field().to_owned(alloc)
    }
}

impl Value<'_> {
    /// Returns a copy of the value that owns its content, of at most 2147483647 bytes ([`OwnedValue::fits`]).
    pub fn to_owned(self, alloc: Global) -> Result<OwnedValue, NoMemory>
        requires { Fits self }
        ensures { IfOk result (λ v. v ≡ value_of self.entry) }
    {
        Ok(match self {
            Value::Int(number) => OwnedValue::Int(number),
            Value::Text(text) => OwnedValue::Text(Text::new(String::from_str(alloc, text)?)),
            Value::Blob(bytes) => OwnedValue::Blob(Bytes::new(Vec::from_slice(alloc, bytes)?)),
            Value::Null => OwnedValue::Null,
        })
    }
}

impl Field<'_> {
    /// Returns a copy of the field that owns its content, of at most 2147483647 bytes ([`OwnedValue::fits`]).
    pub fn to_owned(self, alloc: Global) -> Result<OwnedField, NoMemory>
        requires { FieldFits self }
        ensures { IfOk result (λ f. f ≡ field_of self.entry) }
    {
        Ok(match self {
            Field::Undefined => OwnedField::Undefined,
            Field::Defined(value) => OwnedField::Defined(value.to_owned(alloc)?),
        })
    }
}
