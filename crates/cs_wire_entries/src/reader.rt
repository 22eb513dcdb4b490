//! Reading the entries of files.
//!
//! Each reader takes the file and a byte offset, and returns what is read there and the offset after
//! it. A fault has the offset that section "Read faults" of `docs/FORMAT.md` defines.
ghost use Rattle.std.specs.Prelude.{◌≡◌, ◌≤◌, ◌<◌, ◌++◌, ◌∷◌, ◌↔◌, [], ℕ};
ghost use Rattle.std.specs.Prelude.{List, Bool, length, drop, IfOk, IsOkAnd, IsTrue, if◌then◌else◌};
ghost use Rattle.cs_value.specs.Spelling.{record_bytes};
ghost use Rattle.cs_wire_entries.specs.declared.entry.Change.{Change as ChangeData};
ghost use Rattle.cs_wire_entries.specs.declared.entry.Entry.{Entry as EntryData};
ghost use Rattle.cs_wire_entries.specs.Entry.{IsChange, IsEntry, operation, fields_of, entry_bytes};
ghost use Rattle.cs_wire_entries.specs.Changeset.{HeaderData};
ghost use Rattle.cs_wire_entries.specs.ReadFaults.{FaultIs, Stands, HasEntry, EntryStart, ReadCase};
ghost use Rattle.cs_wire_entries.specs.Views.{byte_of};
ghost use Rattle.cs_wire_entries.specs.Items.{IsFirst, change_in};
ghost use Rattle.cs_wire_entries.specs.Reading.{ChangeRefused, NoOperation, NoFlag};

mod record;

use crate::entry::Operation;
use crate::entry_ref::EntryRef;
use crate::fault::{ReadFault, ReadFaultKind, fault_at};
use crate::format::{DELETE, INSERT, PATCHSET, TABLE, UPDATE};
use record::{Columns, read_record};

/// Returns whether there is a byte at an offset that begins no header. After a header an entry has to begin there.
pub fn has_entry(file: &[u8], at: usize) -> bool
    ensures { IsTrue result ↔ HasEntry file.now at }
{
    at < file.len() && file[at] != TABLE && file[at] != PATCHSET
}

/// Returns the entry at an offset of a table with these flags, and the offset after it.
///
/// # Errors
///
/// The fault of the file, if an entry can begin there.
#[inline(always)]
pub fn read_entry<'a>(
    file: &'a [u8],
    at: usize,
    flags: &'a [u8],
) -> Result<(EntryRef<'a>, usize), ReadFault>
    requires { HasEntry file.now at }
    ensures flags { IfOk result (λ r. r.0.flags ≡ flags.now) }
    ensures well_formed { IfOk result (λ r. IsEntry flags.now r.0.entry) }
    ensures found { IfOk result (λ r. Stands file.now at (entry_bytes r.0.entry) r.1) }
    ensures only { (entry : EntryData) (rest : List ℕ) → IsEntry flags.now entry
        → drop at file.now ≡ entry_bytes entry ++ rest → IsOkAnd result (λ r. r.0.entry ≡ entry) }
    ensures fault { (header : HeaderData) (entries : List EntryData) → flags.now ≡ header.flags
        → EntryStart file.now at header entries → FaultIs result (ReadCase file.now) }
{
    let (operation, start) = read_operation(file, at)?;
    let (indirect, start) = read_indirect(file, start)?;
    let (first, second, end) = read_records(file, start, flags, operation)?;
    Ok((
        EntryRef::from_bytes(flags, operation, indirect, first, second),
        end,
    ))
}

/// Returns the operation of an entry.
fn read_operation(file: &[u8], at: usize) -> Result<(Operation, usize), ReadFault>
    requires { at < length file.now }
    ensures found { IfOk result (λ r. Stands file.now at (byte_of r.0 ∷ []) r.1) }
    ensures only { (change : ChangeData) (rest : List ℕ) → drop at file.now ≡ operation change ∷ rest
        → IsOkAnd result (λ r. byte_of r.0 ≡ operation change) }
    ensures fault { FaultIs result (NoOperation file.now at) }
{
    match file[at] {
        INSERT => Ok((Operation::Insert, at + 1)),
        DELETE => Ok((Operation::Delete, at + 1)),
        UPDATE => Ok((Operation::Update, at + 1)),
        _ => Err(fault_at(ReadFaultKind::BadOp, at)),
    }
}

/// Returns the indirect flag of an entry.
fn read_indirect(file: &[u8], at: usize) -> Result<(bool, usize), ReadFault>
    requires { at ≤ length file.now }
    ensures found { IfOk result (λ r. Stands file.now at ((if r.0 then 1 else 0) ∷ []) r.1) }
    ensures only { (indirect : Bool) (rest : List ℕ) → drop at file.now ≡ (if indirect then 1 else 0) ∷ rest
        → IsOkAnd result (λ r. r.0 ≡ indirect) }
    ensures fault { FaultIs result (NoFlag file.now at) }
{
    match file.get(at) {
        Some(0) => Ok((false, at + 1)),
        Some(1) => Ok((true, at + 1)),
        Some(_) => Err(fault_at(ReadFaultKind::BadFlag, at)),
        None => Err(fault_at(ReadFaultKind::Truncated, file.len())),
    }
}

/// Returns the records of a change with this operation: the bytes of the row or of the old record, those of the new
/// record, and the offset after them.
#[inline(always)]
fn read_records<'a>(
    file: &'a [u8],
    at: usize,
    flags: &[u8],
    what: Operation,
) -> Result<(&'a [u8], &'a [u8], usize), ReadFault>
    requires { at ≤ length file.now }
    ensures found { IfOk result (λ r. IsChange flags.now (change_in (length flags.now) what r.0.now r.1.now)
        × (r.0.now ++ r.1.now ≡ record_bytes (fields_of (change_in (length flags.now) what r.0.now r.1.now)))
        × Stands file.now at (r.0.now ++ r.1.now) r.2
        × IsFirst flags.now (change_in (length flags.now) what r.0.now r.1.now) r.0.now) }
    ensures only { (change : ChangeData) (rest : List ℕ) → IsChange flags.now change → operation change ≡ byte_of what
        → drop at file.now ≡ record_bytes (fields_of change) ++ rest
        → IsOkAnd result (λ r. change_in (length flags.now) what r.0.now r.1.now ≡ change) }
    ensures fault { FaultIs result (ChangeRefused (byte_of what) flags.now file.now at) }
{
    match what {
        Operation::Insert | Operation::Delete => {
            let (row, end) = read_record(file, at, flags, Columns::Row)?;
            Ok((row, &[], end))
        }
        Operation::Update => {
            let (old, middle) = read_record(file, at, flags, Columns::Old)?;
            let (new, end) = read_record(file, middle, flags, Columns::New(old))?;
            Ok((old, new, end))
        }
    }
}

/// Returns the rest of the file from an offset on.
pub fn rest_from(file: &[u8], at: usize) -> &[u8]
    requires { at ≤ length file.now }
    ensures { result.now ≡ drop at file.now }
{
    &file[at..]
}
