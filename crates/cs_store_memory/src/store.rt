//! Stores in files in memory.
ghost use Rattle.std.specs.Prelude.{◌≡◌, ℕ, List, IsTrue, IfOk, IfErr};
ghost use Rattle.std.specs.FinMap as map;
ghost use Rattle.sqlite.specs.Effect.{IsDatabase};
ghost use Rattle.sqlite.specs.Files.{file_state};
ghost use Rattle.sqlite.specs.State.{HasCleanDisk};
ghost use Rattle.cs_value.specs.State as tables;
ghost use Rattle.cs_store.specs.Faults.{IsResource, IsReadRefusal};
ghost use Rattle.cs_store.specs.Store.{IsAtRest, tables_in};
ghost use Rattle.cs_store.specs.Opening.{OpensFiles};
ghost use Rattle.cs_store_memory.specs.Memory.{alone, bytes_of, FindsTables, HasDatabase, HasTables, RefusesBytes};

use crate::file::MemoryFile;
use cs_store::{Store, StoreError};
use cs_store_sql::RecordsError;
use cs_store_tables::refused;
use sqlite::{Connection, FileStore, Files, Options};
use std::alloc::Global;

/// A store in files in memory.
pub type MemoryStore = Store<FileStore<MemoryFile>>;

/// How many pages a store in memory keeps a copy of: 2 MB, as SQLite does by default.
const CACHE_PAGES: usize = 500;

/// Returns how a store in files in memory is opened. Each opening takes the memory of the whole cache.
pub fn memory_options() -> Options
    ensures cache { result.cache_pages ≡ 500 }
{
    let mut options = Options::new(0);
    options.cache_pages = CACHE_PAGES;
    options
}

/// Returns a new store in memory, without tables.
///
/// # Errors
///
/// `StoreFault` if the database refuses, also if memory runs out as a file grows, and `NoMemory` if memory runs out
/// elsewhere.
pub fn open_memory(alloc: Global) -> Result<MemoryStore, StoreError>
    ensures empty { IfOk result (λ s. tables_in (file_state s).now ≡ map.empty) }
    ensures at_rest { IfOk result (λ s. IsAtRest (file_state s)) }
    ensures named { IfErr result IsResource }
{
    open_file(alloc, MemoryFile::new(alloc))
}

/// Opens the store in a database file in memory that has no log. An empty file, and a database without a record,
/// becomes a new store. Other tables of the database are kept.
///
/// # Errors
///
/// `DamagedStore` only if the file is a database that is no store. `StoreFault` if it is no database, and those of
/// [`open_memory`].
pub fn open_file(alloc: Global, db: MemoryFile) -> Result<MemoryStore, StoreError>
    ensures found { (held : tables.State) → FindsTables held (bytes_of db)
        → IfOk result (λ s. tables_in (file_state s).now ≡ held) }
    ensures refused { IfErr result (RefusesBytes (bytes_of db)) }
    ensures undamaged { (held : tables.State) → FindsTables held (bytes_of db) → IfErr result IsResource }
    ensures opened { IfOk result (λ s. OpensFiles (alone (bytes_of db)) (file_state s)) }
    ensures named { IfErr result IsReadRefusal }
{
    let files = Files {
        log: MemoryFile::new(alloc),
        db,
    };
    match Store::open_files(alloc, files, memory_options(), false) {
        Ok(store) => Ok(store),
        Err((error, _left)) => Err(error),
    }
}

/// Closes a store in which no batch is open, and returns its database file, which has its tables without a log, and all
/// else of the last commit.
///
/// # Errors
///
/// `StoreFault` if the database refuses, also if memory ran out before as a file grew, and `NoMemory` if memory runs
/// out.
pub fn close_file(store: MemoryStore) -> Result<MemoryFile, StoreError>
    ensures left { (held : tables.State) → (IsTrue (file_state store).is_open → IsAtRest (file_state store)
        × (tables_in (file_state store).now ≡ held)) → IfOk result (λ file. HasTables held (bytes_of file)) }
    ensures whole { IfOk result (λ file. IsTrue (file_state store).is_open
        × HasDatabase (file_state store).committed (bytes_of file)) }
    ensures named { IfErr result IsResource }
{
    store.crash_law();
    let conn = store.into_connection();
    sound_law(&conn);
    match conn.close_files() {
        Ok(files) => Ok(files.db),
        Err((error, _left)) => Err(refused(RecordsError::from(error))),
    }
}

/// Has no effect. Its contract says that the last commit of an open connection is a sound database.
fn sound_law(conn: &Connection<FileStore<MemoryFile>>)
    ensures { IsTrue (file_state conn.now).is_open → IsDatabase (file_state conn.now).committed }
{
    let _ = conn.schema();
}

/// Has no effect. Its contract says that a store in files in memory reads back what was written: what a call says of a
/// store under that premise holds of it.
pub fn memory_files_law(store: &MemoryStore)
    ensures { HasCleanDisk (file_state store.now) }
{
    let _ = store;
}

/// Has no effect. Its contract says that an open finds the tables of a store in the file that a close left.
pub fn closed_file_law()
    ensures { (held : tables.State) (bytes : List ℕ) → HasTables held bytes → FindsTables held bytes }
{}
