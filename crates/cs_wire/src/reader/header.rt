//! Reading the headers of tables.
ghost use Rattle.std.specs.Prelude.{◌≡◌, ◌≢◌, ◌≤◌, ◌<◌, ◌++◌, ◌∷◌, ◌+◌, [], ℕ};
ghost use Rattle.std.specs.Prelude.{List, length, drop, IfOk, IsOkAnd, IfSome, IfNone, EachIndex, slice_index};
ghost use Rattle.cs_value.specs.declared.TheConstants.{MAX_CONTENT_LEN};
ghost use Rattle.cs_value.specs.Varint.{varint};
ghost use Rattle.cs_value.specs.Table.{IsFlags};
ghost use Rattle.cs_value.specs.Table.{IsName};
ghost use Rattle.cs_wire_entries.specs.Changeset.{HeaderData, GroupData, IsHeader, flags_bytes, header_bytes};
ghost use Rattle.cs_wire.specs.Headers.{header_of};
ghost use Rattle.cs_wire_entries.specs.ReadFaults.{FaultIs, Stands, HasEntry, TableStart, HeaderPart, ReadCase};
ghost use Rattle.cs_wire_entries.specs.Reading.{CountFails};

use crate::header::{HeaderRef, has_key};
use cs_value::{MAX_COLUMNS, varint_read};
use cs_wire_entries::{
    PATCHSET, ReadFault, ReadFaultKind, TABLE, fault_at, fault_behind, rest_from,
};
use std::str;

/// Returns the header of a table at an offset, and the offset after it.
///
/// # Errors
///
/// The fault of the file, if a table has to begin there.
pub fn read_header(file: &[u8], at: usize) -> Result<(HeaderRef<'_>, usize), ReadFault>
    requires { at < length file.now }
    ensures well_formed { IfOk result (λ r. IsHeader (header_of r.0)) }
    ensures found { IfOk result (λ r. Stands file.now at (header_bytes (header_of r.0)) r.1) }
    ensures only { (header : HeaderData) (rest : List ℕ) → IsHeader header
        → drop at file.now ≡ header_bytes header ++ rest → IsOkAnd result (λ r. header_of r.0 ≡ header) }
    ensures fault { (groups : List GroupData) → TableStart file.now at groups → (HasEntry file.now at → at ≡ 0)
        → FaultIs result (ReadCase file.now) }
{
    if file[at] == PATCHSET {
        return Err(fault_at(ReadFaultKind::Patchset, at));
    }
    if file[at] != TABLE {
        return Err(fault_at(ReadFaultKind::NotTable, at));
    }
    let (flags, at) = read_flags(file, at + 1)?;
    let (name, at) = read_name(file, at)?;
    Ok((HeaderRef { name, flags }, at))
}

/// Returns the flags, one for each column, after the number of columns.
fn read_flags(file: &[u8], at: usize) -> Result<(&[u8], usize), ReadFault>
    requires { at ≤ length file.now }
    ensures found { IfOk result (λ r. IsFlags r.0.now × Stands file.now at (flags_bytes r.0.now) r.1) }
    ensures only { (flags rest : List ℕ) → IsFlags flags → drop at file.now ≡ flags_bytes flags ++ rest
        → IsOkAnd result (λ r. r.0.now ≡ flags) }
    ensures fault { HeaderPart file.now [] at → FaultIs result (ReadCase file.now) }
{
    let (count, start) = read_count(file, at)?;
    if count == 0 || count > MAX_COLUMNS {
        return Err(fault_at(ReadFaultKind::ColumnCount, at));
    }
    let rest = rest_from(file, start);
    if rest.len() < count {
        return Err(fault_at(ReadFaultKind::Truncated, file.len()));
    }
    let flags = &rest[..count];
    if !has_key(flags) {
        return Err(fault_at(ReadFaultKind::NoKey, start));
    }
    Ok((flags, start + count))
}

/// Returns the number of a varint.
fn read_count(file: &[u8], at: usize) -> Result<(usize, usize), ReadFault>
    requires { at ≤ length file.now }
    ensures found { IfOk result (λ r. (r.0 ≤ MAX_CONTENT_LEN) × Stands file.now at (varint r.0) r.1) }
    ensures only { (n : ℕ) (rest : List ℕ) → n ≤ MAX_CONTENT_LEN → drop at file.now ≡ varint n ++ rest
        → IsOkAnd result (λ r. r.0 ≡ n) }
    ensures fault { FaultIs result (CountFails file.now at) }
{
    match varint_read(rest_from(file, at)) {
        Ok((count, used)) => Ok((count as usize, at + used)),
        Err(fault) => Err(fault_behind(at, fault)),
    }
}

/// Returns the name of a table, which a zero byte ends.
fn read_name(file: &[u8], at: usize) -> Result<(&str, usize), ReadFault>
    requires { at ≤ length file.now }
    ensures found { IfOk result (λ r. IsName r.0.now × Stands file.now at (r.0.now ++ 0 ∷ []) r.1) }
    ensures only { (name rest : List ℕ) → IsName name → drop at file.now ≡ name ++ 0 ∷ rest
        → IsOkAnd result (λ r. r.0.now ≡ name) }
    ensures fault { (flags : List ℕ) → IsFlags flags → HeaderPart file.now (flags_bytes flags) at
        → FaultIs result (ReadCase file.now) }
{
    let rest = rest_from(file, at);
    let Some(len) = zero_at(rest) else {
        return Err(fault_at(ReadFaultKind::Truncated, file.len()));
    };
    let bytes = &rest[..len];
    if bytes.is_empty() {
        return Err(fault_at(ReadFaultKind::BadName, at));
    }
    match str::from_utf8(bytes) {
        Ok(name) => Ok((name, at + len + 1)),
        Err(_) => Err(fault_at(ReadFaultKind::BadName, at)),
    }
}

/// Returns the offset of the first zero byte.
fn zero_at(bytes: &[u8]) -> Option<usize>
    ensures found { IfSome result (λ n. (n < length bytes.now) × (slice_index bytes.now n ≡ 0)
        × ((k : ℕ) → k < n → slice_index bytes.now k ≢ 0)) }
    ensures none { IfNone result (EachIndex bytes.now (λ k. slice_index bytes.now k ≢ 0)) }
{
    bytes.iter().position(|byte| *byte == 0)
}
