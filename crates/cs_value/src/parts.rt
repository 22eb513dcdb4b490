//! The parts of rows and images: values and fields.
ghost use Rattle.std.specs.Prelude.{◌≡◌, ◌++◌, ℕ, List, length, IfOk, OnOk, OnErr, take};
ghost use Rattle.std.specs.List.{flat_map, AllByRecursion};
ghost use Rattle.cs_value.specs.Value.{IsValue, IsField};
ghost use Rattle.cs_value.specs.Key.{key_columns};
ghost use Rattle.cs_value.specs.Spelling.{value_bytes, field_bytes};

use crate::field::{field_write, value_write};
use crate::refusal::NoMemory;
use crate::value::{OwnedField, OwnedValue};
use std::alloc::Global;

/// A value or a field, which can be written and copied.
pub(crate) trait Part: Drop {
    ghost IsPart: { Self → Type 0 };

    ghost spelled: { Self → List ℕ };

    /// Has no effect. Its contract says that the part is as its type says.
    fn see(&self)
        ensures { IsPart self.now };

    /// Appends the bytes of the part. [`NoMemory`] leaves `out` unchanged.
    fn write(&self, out: &mut Vec<u8>) -> Result<(), NoMemory>
        ensures ok { OnOk result (out.new.items ≡ out.old.items ++ spelled self.now) }
        ensures err { OnErr result (out.new.items ≡ out.old.items) };

    /// Returns a copy of the part.
    fn duplicate(&self, alloc: Global) -> Result<Self, NoMemory>
        ensures { IfOk result (λ x. x ≡ self.now) };
}

impl Part for OwnedValue {
    ghost IsPart = { IsValue };

    ghost spelled = { value_bytes };

    fn see(&self) {
        self.as_value();
    }

    fn write(&self, out: &mut Vec<u8>) -> Result<(), NoMemory> {
        value_write(out, self.as_value())
    }

    fn duplicate(&self, alloc: Global) -> Result<OwnedValue, NoMemory> {
        self.copy(alloc)
    }
}

impl Part for OwnedField {
    ghost IsPart = { IsField };

    ghost spelled = { field_bytes };

    fn see(&self) {
        self.as_field();
    }

    fn write(&self, out: &mut Vec<u8>) -> Result<(), NoMemory> {
        field_write(out, &self.as_field())
    }

    fn duplicate(&self, alloc: Global) -> Result<OwnedField, NoMemory> {
        self.copy(alloc)
    }
}

/// Has no effect. Its contract says that each of the parts is as its type says.
pub(crate) fn see_parts<T: Part>(parts: &[T])
    ensures { AllByRecursion T.IsPart parts.now }
{
    for part in parts {
        part.see();
    }
}

/// Appends the bytes of the parts, in order. [`NoMemory`] leaves `out` unchanged.
pub(crate) fn parts_write<T: Part>(out: &mut Vec<u8>, parts: &[T]) -> Result<(), NoMemory>
    ensures ok { OnOk result (out.new.items ≡ out.old.items ++ flat_map T.spelled parts.now) }
    ensures err { OnErr result (out.new.items ≡ out.old.items) }
{
    let start = out.len();
    let written = append_parts(out, parts);
    if written.is_err() {
        out.truncate(start);
    }
    written
}

/// Appends the bytes of the parts, in order. [`NoMemory`] can leave some of them after the previous bytes.
fn append_parts<T: Part>(out: &mut Vec<u8>, parts: &[T]) -> Result<(), NoMemory>
    ensures ok { OnOk result (out.new.items ≡ out.old.items ++ flat_map T.spelled parts.now) }
    ensures err { OnErr result (take (length out.old.items) out.new.items ≡ out.old.items) }
{
    for part in parts {
        part.write(out)?;
    }
    Ok(())
}

/// Returns a copy of the parts.
pub(crate) fn parts_copy<T: Part>(alloc: Global, parts: &[T]) -> Result<Vec<T>, NoMemory>
    ensures { IfOk result (λ copies. copies.items ≡ parts.now) }
{
    let mut copies = Vec::new(alloc);
    for part in parts {
        copies.push(part.duplicate(alloc)?)?;
    }
    Ok(copies)
}

/// Returns the bytes of the parts in the key columns, which the flags mark.
pub(crate) fn key_parts<T: Part>(
    alloc: Global,
    flags: &[u8],
    parts: &[T],
) -> Result<Vec<u8>, NoMemory>
    requires { length flags.now ≡ length parts.now }
    ensures { IfOk result (λ bytes. bytes.items ≡ flat_map T.spelled (key_columns flags.now parts.now)) }
{
    let mut bytes = Vec::new(alloc);
    for (flag, part) in flags.iter().zip(parts) {
        if *flag == 0 {
            continue;
        }
        part.write(&mut bytes)?;
    }
    Ok(bytes)
}
