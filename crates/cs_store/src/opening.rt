//! How the files of a database are opened as a store.
ghost use Rattle.std.specs.Prelude.{◌≡◌, ◌⊎◌, [], true, false, IsTrue, IfOk, IfErr, MatchResult};
ghost use Rattle.std.specs.FinMap as map;
ghost use Rattle.cs_value.specs.State as tables;
ghost use Rattle.cs_rows.specs.Faults.{IsResource, IsReadRefusal};
ghost use Rattle.sqlite.specs.State.{HasCleanDisk};
ghost use Rattle.sqlite.specs.Files.{image_of, file_state, IsClosed, FailsToClose};
ghost use Rattle.sqlite.specs.Closing.{IsCopied};
ghost use Rattle.sqlite_std_file.specs.File.{IsFresh};
ghost use Rattle.sqlite_wal.specs.Files.{image_at};
ghost use Rattle.sqlite_wal.specs.Recovery.{Image};
ghost use Rattle.sqlite_wal.specs.Reads.{AreClean};
ghost use Rattle.sqlite_trees.specs.View.{IsClean, IsQuiet, IsRolledBack as IsUndone};
ghost use Rattle.sqlite_store.specs.FileStore.{state as files_state, files as store_files, view, faults, recovers, is_shielded};
ghost use Rattle.cs_store_tables.specs.Crash.{LeavesOnly};
ghost use Rattle.cs_store_tables.specs.Store.{tables_in};
ghost use Rattle.cs_store_tables.specs.Refusals.{refusal_for};
ghost use Rattle.cs_store.specs.Opening.{IsLeftIn, OpensFiles, RefusesDropped, RefusesFiles, RefusesPath, IsHonestRest, IsHonestLeft};

use crate::store::Store;
use cs_rows::StoreError;
use cs_store_sql::RecordsError;
use cs_store_tables::refused;
use sqlite::{Connection, FileFrom, FileStore, Files, Leftover, Options, Start};
use sqlite_disk::Disk;
use std::alloc::Global;
use std::rt::HostRuntime;

/// What is left of files that are not opened as a store.
#[derive(Drop)]
pub enum Unopened<D: Disk> {
    /// The files, which are not opened as a database.
    Files(Leftover<D>),
    /// The database, which shows what the files held.
    Database(Connection<FileStore<D>>),
}

impl<D: Disk + Drop> Store<FileStore<D>> {
    /// Opens the store in the files of a database, a log and the database file.
    ///
    /// Empty files become a new store, with checksums of its pages if `new_has_sums` is set. What a crash left of a
    /// store is opened with its tables. A store of the former version gets the current one.
    ///
    /// # Errors
    ///
    /// They come with what is left. `DamagedStore` only if the files hold a database that is no store. `StoreFault` for
    /// files that hold no database, and those of [`adopt`](Store::adopt).
    pub fn open_files(
        alloc: Global,
        files: Files<D>,
        options: Options,
        new_has_sums: bool,
    ) -> Result<Store<FileStore<D>>, (StoreError, Unopened<D>)>
        requires log { IsTrue (D.Disk.is_usable files.log) }
        requires db { IsTrue (D.Disk.is_usable files.db) }
        ensures opened { IfOk result (λ s. HasCleanDisk (file_state s)
            → OpensFiles (image_of D.Disk files) (file_state s)) }
        ensures refused { IfErr result (λ e. RefusesFiles files e.0 e.1) }
        ensures recovers { (held : tables.State) → IsLeftIn held (image_of D.Disk files) → MatchResult result
            (λ s. HasCleanDisk (file_state s) → tables_in (file_state s).now ≡ held)
            (λ e. IsHonestRest e.1 → IsResource e.0) }
        ensures new { (image_of D.Disk files).db ≡ [] → MatchResult result
            (λ s. HasCleanDisk (file_state s) → tables_in (file_state s).now ≡ map.empty)
            (λ e. IsHonestRest e.1 → IsResource e.0) }
        ensures named { IfErr result (λ e. IsReadRefusal e.0) }
    {
        match Connection::open_files_with(alloc, files, options, new_has_sums) {
            Ok(conn) => match Store::adopt(alloc, conn) {
                Ok(store) => Ok(store),
                Err((error, conn)) => Err((error, Unopened::Database(conn))),
            },
            Err((error, left)) => {
                Err((refused(RecordsError::from(error)), Unopened::Files(left)))
            }
        }
    }

    /// Returns the files of the store, as a program leaves them that stops. A transaction that is open is rolled back,
    /// and nothing is copied back.
    ///
    /// If a crash leaves only the store with some tables, whatever these files then have holds that store: opening it
    /// returns these tables ([`open_files`](Store::open_files)).
    pub fn into_files(self) -> FileStore<D>
        ensures quiet { IsQuiet view faults recovers is_shielded self.store result }
        ensures undone { IsUndone (view self.store) (view result) }
        ensures left { (held : tables.State) → IsClean (view result)
            → LeavesOnly (λ left. left ≡ held) (file_state self)
            → (image : Image) → (files_state result).may_leave image → IsLeftIn held image }
    {
        self.into_connection().into_store()
    }

    /// Closes the store, and returns its files: rolls back a transaction that is open, and copies the log into the
    /// database file.
    ///
    /// # Errors
    ///
    /// They come with what is left of the files, where a crash leaves nothing else than before. `StoreFault` if the
    /// database refuses, and `NoMemory` if out of memory.
    pub fn close_files(self) -> Result<Files<D>, (StoreError, FileStore<D>)>
        ensures closed { IfOk result (λ files. (last : _)
            × (store_files last ≡ (files.log, files.db)) × IsClosed self last) }
        ensures usable { IfOk result (λ files. IsTrue (D.Disk.is_usable files.log) × IsTrue (D.Disk.is_usable files.db)) }
        ensures copied { IfOk result (λ files. AreClean D.Disk files.log files.db → IsCopied self files) }
        ensures refused { IfErr result (λ e. IsClosed self e.1 × (IsClean (view e.1)
            → (error : _) × (e.0 ≡ refusal_for error) × FailsToClose self e.1 error)) }
        ensures named { IfErr result (λ e. IsResource e.0) }
    {
        match self.into_connection().close_files() {
            Ok(files) => Ok(files),
            Err((error, left)) => Err((refused(RecordsError::from(error)), left)),
        }
    }
}

impl<S: Start> Store<FileStore<FileFrom<S>>> {
    /// Opens the store in the database file at a path, as [`open_from`](Store::open_from) does. An error comes with
    /// what is left of the files, once they were opened.
    ///
    /// # Errors
    ///
    /// Those of [`open_files`](Store::open_files), and `StoreFault` if the files cannot be opened.
    pub fn open_path(
        rt: &HostRuntime,
        path: &str,
        new_has_sums: bool,
        start: S,
    ) -> Result<Store<FileStore<FileFrom<S>>>, (StoreError, Option<Unopened<FileFrom<S>>>)>
        ensures opened { IfOk result (λ s. HasCleanDisk (file_state s)
            → OpensFiles (image_at S.Start) (file_state s)) }
        ensures refused { IfErr result (λ e. RefusesPath (λ files. IsFresh true files.log × IsFresh false files.db)
            (image_at S.Start) e.0 e.1) }
        ensures recovers { (held : tables.State) → IsLeftIn held (image_at S.Start) → MatchResult result
            (λ s. HasCleanDisk (file_state s) → tables_in (file_state s).now ≡ held)
            (λ e. IsHonestLeft e.1 → IsResource e.0) }
        ensures new { (image_at S.Start).db ≡ [] → MatchResult result
            (λ s. HasCleanDisk (file_state s) → tables_in (file_state s).now ≡ map.empty)
            (λ e. IsHonestLeft e.1 → IsResource e.0) }
        ensures named { IfErr result (λ e. IsReadRefusal e.0) }
    {
        match Connection::open_from(rt, path, new_has_sums, start) {
            Ok(conn) => match Store::adopt(rt.alloc(), conn) {
                Ok(store) => Ok(store),
                Err((error, conn)) => Err((error, Some(Unopened::Database(conn)))),
            },
            Err((error, left)) => {
                let rest = match left {
                    Some(left) => Some(Unopened::Files(left)),
                    None => None,
                };
                Err((refused(RecordsError::from(error)), rest))
            }
        }
    }

    /// Opens the store in the database file at a path.
    ///
    /// If there is no file, one is made, with checksums of its pages if `new_has_sums` is set. `start` says what the
    /// files are supposed to hold. What a crash left of a store is opened with its tables. A store of the former
    /// version gets the current one.
    ///
    /// # Errors
    ///
    /// Those of [`open_path`](Store::open_path), and what is left is dropped.
    pub fn open_from(
        rt: &HostRuntime,
        path: &str,
        new_has_sums: bool,
        start: S,
    ) -> Result<Store<FileStore<FileFrom<S>>>, StoreError>
        ensures opened { IfOk result (λ s. HasCleanDisk (file_state s)
            → OpensFiles (image_at S.Start) (file_state s)) }
        ensures refused { RefusesDropped result (λ files. IsFresh true files.log × IsFresh false files.db)
            (image_at S.Start) }
        ensures recovers { (held : tables.State) → IsLeftIn held (image_at S.Start) → IfOk result
            (λ s. HasCleanDisk (file_state s) → tables_in (file_state s).now ≡ held) }
        ensures new { (image_at S.Start).db ≡ [] → IfOk result
            (λ s. HasCleanDisk (file_state s) → tables_in (file_state s).now ≡ map.empty) }
        ensures named { IfErr result IsReadRefusal }
    {
        match Store::open_path(rt, path, new_has_sums, start) {
            Ok(store) => Ok(store),
            Err((error, _left)) => Err(error),
        }
    }

    /// Closes the store: rolls back a transaction that is open, and copies the log into the database file. An empty
    /// log can be left.
    ///
    /// # Errors
    ///
    /// Those of [`close_files`](Store::close_files), which keeps what was committed.
    pub fn close(self) -> Result<(), StoreError>
        ensures named { IfErr result IsResource }
    {
        match self.close_files() {
            Ok(_files) => Ok(()),
            Err((error, files)) => {
                drop(files.close());
                Err(error)
            }
        }
    }
}
