//! The files of a store in memory that is closed.
ghost use Rattle.std.specs.Prelude.{◌≡◌, [], IfErr, IfOk, OnErr, OnOk};
ghost use Rattle.sqlite.specs.Files.{file_state};
ghost use Rattle.cs_value.specs.State.{State};
ghost use Rattle.cs_rows.specs.Faults.{IsResource};
ghost use Rattle.cs_store.specs.Crash.{LeavesOnly};
ghost use Rattle.cs_store_memory.specs.Memory.{HasTables, bytes_of};
ghost use Rattle.cs_calls_memory.specs.Hosting.{HoldsIn, IsOpenedIn, image_of};

use cs_store::{Store, StoreError};
use cs_store_memory::{MemoryFile, MemoryStore, close_file, memory_options};
use sqlite::Files;
use std::alloc::Global;

/// Returns a copy of bytes.
pub(crate) fn copied(alloc: Global, bytes: &[u8]) -> Result<Vec<u8>, StoreError>
    ensures copied { IfOk result (λ copy. copy.items ≡ bytes.now) }
    ensures refused { IfErr result IsResource }
{
    let mut copy = Vec::new(alloc);
    match copy.extend_from_slice(bytes) {
        Ok(()) => Ok(copy),
        Err(_) => Err(StoreError::NoMemory),
    }
}

/// Returns a file with a copy of bytes.
pub(crate) fn copy_of(alloc: Global, bytes: &[u8]) -> Result<MemoryFile, StoreError>
    ensures copied { IfOk result (λ file. bytes_of file ≡ bytes.now) }
    ensures refused { IfErr result IsResource }
{
    match copied(alloc, bytes) {
        Ok(copy) => Ok(MemoryFile::from_bytes(copy)),
        Err(error) => Err(error),
    }
}

/// Returns the files of a store. No transaction is open in it.
pub(crate) fn files_of(store: MemoryStore) -> Files<MemoryFile>
    ensures { (held : State) → LeavesOnly (λ left. left ≡ held) (file_state store) → HoldsIn held (image_of result) }
{
    store.into_files().close()
}

/// Opens the store in a copy of files.
///
/// # Errors
///
/// `StoreFault` if the database refuses, also if memory runs out as a file grows, and `NoMemory` if memory runs out
/// elsewhere.
pub(crate) fn open_copy(alloc: Global, files: &Files<MemoryFile>) -> Result<MemoryStore, StoreError>
    ensures found { IfOk result (IsOpenedIn (image_of files.now)) }
    ensures refused { (held : State) → HoldsIn held (image_of files.now) → IfErr result IsResource }
{
    let copies = Files {
        log: copy_of(alloc, files.log.as_slice())?,
        db: copy_of(alloc, files.db.as_slice())?,
    };
    match Store::open_files(alloc, copies, memory_options(), false) {
        Ok(store) => {
            store.crash_law();
            Ok(store)
        }
        Err((error, _left)) => Err(error),
    }
}

/// Returns the files of a store with all of it in the database file. After an error they are as they were.
///
/// # Errors
///
/// Those of [`open_copy`].
pub(crate) fn without_log(
    alloc: Global,
    files: Files<MemoryFile>,
) -> (Files<MemoryFile>, Result<(), StoreError>)
    ensures kept { (held : State) → HoldsIn held (image_of files) → HoldsIn held (image_of result.0) }
    ensures alone { OnOk result.1 (bytes_of result.0.log ≡ []) }
    ensures same { OnErr result.1 (result.0 ≡ files) }
    ensures refused { (held : State) → HoldsIn held (image_of files) → IfErr result.1 IsResource }
{
    if files.log.as_slice().is_empty() {
        return (files, Ok(()));
    }
    match close_copy(alloc, &files) {
        Ok(db) => {
            let log = MemoryFile::new(alloc);
            (Files { log, db }, Ok(()))
        }
        Err(error) => (files, Err(error)),
    }
}

/// Returns the database file of a store without a log, made of a copy of its files.
fn close_copy(alloc: Global, files: &Files<MemoryFile>) -> Result<MemoryFile, StoreError>
    ensures left { (held : State) → HoldsIn held (image_of files.now)
        → IfOk result (λ file. HasTables held (bytes_of file)) }
    ensures refused { (held : State) → HoldsIn held (image_of files.now) → IfErr result IsResource }
{
    match open_copy(alloc, files) {
        Ok(store) => close_file(store),
        Err(error) => Err(error),
    }
}
