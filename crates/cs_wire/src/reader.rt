//! Reading the files of changesets.
//!
//! Each reader takes the file and a byte offset, and returns what is read there and the offset after
//! it. A fault has the offset that section "Read faults" of `docs/FORMAT.md` defines.
ghost use Rattle.std.specs.Prelude.{◌≡◌, Err, IfOk, IfErr};
ghost use Rattle.cs_wire_entries.specs.Changeset.{IsChangeset, file_bytes};
ghost use Rattle.cs_wire_entries.specs.ReadFaults.{ReadFails};
ghost use Rattle.cs_value.specs.declared.refusal.OrNoMemory.TheVariants as tool;
ghost use Rattle.cs_value.specs.Refusals.{Refuses};

pub(crate) mod header;

use crate::changeset::Changeset;
use crate::draft::{groups_of, read_drafts};
use cs_wire_entries::{ReadError, ReadFaultKind, fault_at};
use std::alloc::Global;

/// Returns the changeset of a file.
///
/// # Errors
///
/// `Fault` if the file is not the file of a changeset: the first fault, in the order of the file.
/// `NoMemory` if memory runs out.
pub fn read(alloc: Global, file: &[u8]) -> Result<Changeset, ReadError>
    ensures found { IfOk result (λ c. IsChangeset c × (file.now ≡ file_bytes c)) }
    ensures refused { IfErr result (Refuses (λ f. ReadFails file.now f.kind f.place)) }
{
    let drafts = read_drafts(alloc, file)?;
    let groups = groups_of(alloc, drafts)?;
    Ok(Changeset::from_groups(alloc, groups)?)
}

/// Returns the fault of a file at an offset.
pub(crate) fn refuse<T: Drop>(kind: ReadFaultKind, place: usize) -> Result<T, ReadError>
    ensures { result ≡ Err (tool.Fault (record { kind = kind; place = place })) }
{
    Err(ReadError::Fault(fault_at(kind, place)))
}
