//! The concatenation of many files.
ghost use Rattle.std.specs.Prelude.{◌≡◌, ◌≤◌, ◌+◌, ◌++◌, ◌∷◌, [], ℕ, Err, IfErr, IfOk, List, length};
ghost use Rattle.cs_value.specs.Refusals.{Refuses};
ghost use Rattle.cs_wire.specs.Changeset.{IsAccepted};
ghost use Rattle.cs_changegroup.specs.Chaining.{AreLengths, ChainFails, Chains, IfFile, files_in};
ghost use Rattle.cs_changegroup.specs.Folding.{FoldsTo, error_at};
ghost use Rattle.cs_changegroup.specs.declared.many.ChainError.TheVariants.{File};
ghost use Rattle.cs_value.specs.declared.refusal.OrNoMemory.TheVariants.{NoMemory as OutOfMemory};
ghost use Rattle.cs_changegroup.specs.declared.many.ChainError.TheVariants.{Lengths as NoLengths};

use crate::tables::JoinedTables;
use cs_files::{FileFault, ToolFault};
use cs_value::NoMemory;
use std::alloc::Global;
use thiserror::Error;

/// Why files are not concatenated.
#[derive(Debug, Drop, Error)]
pub enum ChainError {
    /// The lengths do not add up to the bytes.
    #[error("the lengths of the files do not add up to the bytes")]
    Lengths,
    /// The file at this zero-based index cannot be added. If memory runs out as the result is written, the index is the
    /// number of files.
    #[error("file {index}: {error}")]
    File { index: usize, error: ToolFault },
}

/// Returns the file of the concatenation of many files, which are in a buffer one after the other and have these
/// lengths. It does what the first does, then what the second does, and so on. Without files it has no bytes.
///
/// Each file is read once, as [`Changegroup::add`](crate::Changegroup::add) does.
///
/// # Errors
///
/// - `Lengths` if the lengths do not add up to the bytes.
/// - `File` with the zero-based index of the first file that is not the file of a changeset, or has a table with other
///   columns or another key than a file before it.
pub fn concat_all_bytes(
    alloc: Global,
    files: &[u8],
    lengths: &[usize],
) -> Result<Vec<u8>, ChainError>
    ensures chained { IfOk result (λ out. Chains (files_in files.now lengths.now) out.items) }
    ensures length { IfOk result (λ out. length out.items ≤ length files.now) }
    ensures refused { IfErr result (IfFile (ChainFails (files_in files.now lengths.now))) }
    ensures whole { IfOk result (λ _. AreLengths files.now lengths.now) }
    ensures lengths { result ≡ Err NoLengths → AreLengths files.now lengths.now → ⊥ }
{
    let tables = join_files(alloc, files, lengths)?;
    match tables.to_bytes(alloc, files) {
        Ok(out) => Ok(out),
        Err(NoMemory) => Err(no_memory(lengths.len())),
    }
}

/// Returns the tables of the concatenation of many files.
pub(crate) fn join_files(
    alloc: Global,
    files: &[u8],
    lengths: &[usize],
) -> Result<JoinedTables, ChainError>
    ensures joined { IfOk result (λ tables. FoldsTo files.now lengths.now tables) }
    ensures refused { IfErr result (IfFile (ChainFails (files_in files.now lengths.now))) }
    ensures whole { IfOk result (λ _. AreLengths files.now lengths.now) }
    ensures lengths { result ≡ Err NoLengths → AreLengths files.now lengths.now → ⊥ }
{
    let mut tables = match JoinedTables::new(alloc) {
        Ok(tables) => tables,
        Err(error) => return Err(no_memory(0)),
    };
    let mut rest = files;
    let mut base = 0;
    for (index, length) in lengths.iter().enumerate() {
        if *length > rest.len() {
            return Err(ChainError::Lengths);
        }
        let (file, others) = rest.split_at(*length);
        if let Err(error) = tables.add_file(alloc, files, base, file) {
            let error = at_index(index, error);
            return Err(ChainError::File { index, error });
        }
        base += *length;
        rest = others;
    }
    if !rest.is_empty() {
        return Err(ChainError::Lengths);
    }
    Ok(tables)
}

/// Returns the error of a file at an index: only the first is a first file.
fn at_index(index: usize, error: ToolFault) -> ToolFault
    ensures { result ≡ error_at index error }
{
    match error {
        ToolFault::Fault(FileFault::First(fault)) if index != 0 => {
            ToolFault::Fault(FileFault::Second(fault))
        }
        other => other,
    }
}

/// Returns the error of memory that runs out at an index.
fn no_memory(index: usize) -> ChainError
    ensures { result ≡ File index OutOfMemory }
{
    ChainError::File {
        index,
        error: ToolFault::NoMemory,
    }
}
