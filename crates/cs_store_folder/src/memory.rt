//! The stores in files in memory.
ghost use Rattle.std.specs.Prelude.{◌≡◌, IfOk, IfErr, IsTrue, OnOk, Some};
ghost use Rattle.sqlite.specs.Effect.{Database};
ghost use Rattle.sqlite.specs.Files.{file_state};
ghost use Rattle.cs_value.specs.State as tables;
ghost use Rattle.cs_rows.specs.declared.fault.StoreError.TheVariants.{NoMemory as OutOfMemory};
ghost use Rattle.cs_store.specs.Turns.{SparesOthers, Stands};
ghost use Rattle.cs_store_memory.specs.Memory.{bytes_of};
ghost use Rattle.cs_store_folder.specs.Visits.{HasOthers, HasStore, KeepsFile, bytes_in};

use crate::visiting::{StoreFolder, Visitor};
use cs_folder::{Folder, MemoryFolder};
use cs_store::StoreError;
use cs_store_memory::{MemoryFile, MemoryStore, close_file, memory_files_law, open_file};
use std::alloc::Global;

impl StoreFolder for MemoryFolder {
    fn visit_store<V: Visitor>(
        &mut self,
        alloc: Global,
        name: &str,
        visitor: &mut V,
    ) -> Result<Result<(), StoreError>, StoreError> {
        let file = copy_file(alloc, self, name)?;
        let mut store = match open_file(alloc, file) {
            Ok(store) => store,
            Err(error) => return Err(error),
        };
        visitor.visit(alloc, &mut store);
        memory_files_law(&store);
        let closed = keep_store(alloc, self, name, store);
        Ok(closed)
    }
}

/// Returns a copy of a file, which is empty if no file has the name.
fn copy_file(alloc: Global, folder: &MemoryFolder, name: &str) -> Result<MemoryFile, StoreError>
    ensures copied { IfOk result (λ file. bytes_of file ≡ bytes_in folder.now name.now) }
    ensures refused { IfErr result (λ error. error ≡ OutOfMemory) }
{
    match folder.get(name) {
        Some(bytes) => match Vec::from_slice(alloc, bytes) {
            Ok(bytes) => Ok(MemoryFile::from_bytes(bytes)),
            Err(_) => Err(StoreError::NoMemory),
        },
        None => Ok(MemoryFile::new(alloc)),
    }
}

/// Closes a store, and puts its file into the folder.
fn keep_store(
    alloc: Global,
    folder: &mut MemoryFolder,
    name: &str,
    store: MemoryStore,
) -> Result<(), StoreError>
    ensures file { KeepsFile folder.old name.now (Some folder.new) result }
    ensures kept { (held : tables.State) → Stands (file_state store) held
        → OnOk result (HasStore folder.new name.now held) }
    ensures others { (found : Database) (held : tables.State) → Stands (file_state store) held
        → (IsTrue (file_state store).is_open → SparesOthers found (file_state store).now)
        → OnOk result (HasOthers folder.new name.now found) }
{
    let file = close_file(store)?;
    match folder.replace(alloc, name, file.as_slice()) {
        Ok(()) => Ok(()),
        Err(_) => Err(StoreError::NoMemory),
    }
}
