//! How a database is adopted as a store.
ghost use Rattle.std.specs.Prelude.{◌≡◌, ◌≢◌, ◌⊎◌, [], Some, IfErr, OnOk, OnErr};
ghost use Rattle.sqlite.specs.State.{HasCleanDisk, KeepsCommit, Survives};
ghost use Rattle.sqlite.specs.Effect.{IsDatabase};
ghost use Rattle.sqlite.specs.Held.{state};
ghost use Rattle.cs_rows.specs.declared.fault.StoreError.TheVariants.{DamagedStore as Damaged};
ghost use Rattle.cs_rows.specs.Faults.{IsCaused, IsResource, IsReadRefusal};
ghost use Rattle.cs_store_tables.specs.Failing.{AdoptFails, SetUpFails, VersionFails};
ghost use Rattle.cs_store_sql.specs.Records.{HoldsRecords, DeclaresRecords, LacksRecords, ListsTable, KeepsContent};
ghost use Rattle.cs_store_sql.specs.Records.{record_rows, records_in, KeepsCrash};
ghost use Rattle.cs_store_encoding.specs.Valid.{AreValid};
ghost use Rattle.cs_store_encoding.specs.Versions.{bytes_of};
ghost use Rattle.cs_store_tables.specs.Crash.{CanBegin, MayLeave};
ghost use Rattle.cs_store_tables.specs.Store.{Adopts, HoldsNone, HoldsTables, IsDamaged, SetsUp, IsInside};

use cs_rows::{Cause, StoreError};
use cs_store_encoding::{VERSION, Version, read_schemas, read_version};
use cs_store_sql::{
    Declaration, Keyed, Place, RecordTest, all_pass, declaration_of, list_records, make_table,
    put_record, transactions,
};
use cs_store_tables::{commit, refused};
use sqlite::{Alter, Connection};
use std::alloc::{AllocError, Global};

/// Makes a store if the database holds none yet, and else checks the one there, in one transaction. A refusal leaves
/// the database as it was.
pub fn adopt<S: Alter>(conn: &mut Connection<S>, alloc: Global) -> Result<(), StoreError>
    ensures adopted { HasCleanDisk (state S.Store conn.new)
        → OnOk result (Adopts (state S.Store conn.old) (state S.Store conn.new)) }
    ensures refused { HasCleanDisk (state S.Store conn.new) → IfErr result (λ e. ((e ≡ Damaged)
        × IsDamaged (state S.Store conn.old).now) ⊎ IsResource e) }
    ensures damaged { HasCleanDisk (state S.Store conn.new)
        → IfErr result (λ e. e ≡ Damaged → CanBegin (state S.Store conn.old)) }
    ensures named { IfErr result IsReadRefusal }
    ensures caused { HasCleanDisk (state S.Store conn.new)
        → IfErr result (IsCaused (AdoptFails S.Store conn.old conn.new)) }
    ensures kept { HasCleanDisk (state S.Store conn.new)
        → OnErr result (KeepsContent (state S.Store conn.old) (state S.Store conn.new)) }
    ensures survives { Survives (state S.Store conn.old) (state S.Store conn.new)
        (MayLeave (HoldsTables (state S.Store conn.old).now)) }
    ensures unstarted { ¬ CanBegin (state S.Store conn.old)
        → KeepsCrash (state S.Store conn.old) (state S.Store conn.new) }
{
    match transactions::begin(conn) {
        Ok(()) => {}
        Err(error) => return Err(refused(error)),
    }
    match set_up(conn, alloc) {
        Ok(()) => commit(conn),
        Err(error) => {
            transactions::roll_back(conn);
            Err(error)
        }
    }
}

/// Makes a store if the database holds none yet, and else checks the one there, inside a transaction.
fn set_up<S: Alter>(conn: &mut Connection<S>, alloc: Global) -> Result<(), StoreError>
    requires { HasCleanDisk (state S.Store conn.old) → IsInside (state S.Store conn.old) }
    ensures set_up { HasCleanDisk (state S.Store conn.new)
        → OnOk result (SetsUp (state S.Store conn.old) (state S.Store conn.new)) }
    ensures refused { HasCleanDisk (state S.Store conn.new) → IfErr result (λ e. ((e ≡ Damaged)
        × IsDamaged (state S.Store conn.old).now) ⊎ IsResource e) }
    ensures named { IfErr result IsReadRefusal }
    ensures caused { HasCleanDisk (state S.Store conn.new)
        → IfErr result (IsCaused (SetUpFails S.Store conn.old conn.new)) }
    ensures commit { HasCleanDisk (state S.Store conn.new)
        → OnErr result (KeepsCommit (state S.Store conn.old) (state S.Store conn.new)) }
    ensures survives { KeepsCrash (state S.Store conn.old) (state S.Store conn.new) }
{
    match declaration_of(alloc, conn.schema()) {
        Ok(Declaration::Missing) => make_store(conn, alloc),
        Ok(Declaration::Records) => check_store(conn, alloc),
        Ok(Declaration::Other) => Err(StoreError::DamagedStore),
        Ok(Declaration::Unsupported) => Err(StoreError::StoreFault(Cause::Other)),
        Err(_) => Err(StoreError::NoMemory),
    }
}

/// Makes the table of records, where nothing has its name.
fn make_store<S: Alter>(conn: &mut Connection<S>, alloc: Global) -> Result<(), StoreError>
    requires inside { HasCleanDisk (state S.Store conn.old) → IsInside (state S.Store conn.old) }
    requires lacks { LacksRecords (state S.Store conn.old).now.schema }
    ensures set_up { HasCleanDisk (state S.Store conn.new)
        → OnOk result (SetsUp (state S.Store conn.old) (state S.Store conn.new)) }
    ensures refused { IfErr result IsResource }
    ensures caused { HasCleanDisk (state S.Store conn.new)
        → IfErr result (IsCaused (SetUpFails S.Store conn.old conn.new)) }
    ensures commit { HasCleanDisk (state S.Store conn.new)
        → OnErr result (KeepsCommit (state S.Store conn.old) (state S.Store conn.new)) }
    ensures survives { KeepsCrash (state S.Store conn.old) (state S.Store conn.new) }
{
    match make_table(conn, alloc) {
        Ok(()) => write_version(conn),
        Err(error) => Err(refused(error)),
    }
}

/// Writes the version of stores, if there is no record yet or the records are valid.
fn write_version<S: Alter>(conn: &mut Connection<S>) -> Result<(), StoreError>
    requires inside { HasCleanDisk (state S.Store conn.old) → IsInside (state S.Store conn.old) }
    requires records { HasCleanDisk (state S.Store conn.old) → HoldsRecords (state S.Store conn.old).now
        × ((record_rows (state S.Store conn.old).now ≡ []) ⊎ AreValid (records_in (state S.Store conn.old).now)) }
    ensures set_up { HasCleanDisk (state S.Store conn.new)
        → OnOk result (SetsUp (state S.Store conn.old) (state S.Store conn.new)) }
    ensures refused { IfErr result IsResource }
    ensures caused { HasCleanDisk (state S.Store conn.new) → IfErr result
        (IsCaused (VersionFails (state S.Store conn.old) (state S.Store conn.new))) }
    ensures commit { HasCleanDisk (state S.Store conn.new)
        → OnErr result (KeepsCommit (state S.Store conn.old) (state S.Store conn.new)) }
    ensures survives { KeepsCrash (state S.Store conn.old) (state S.Store conn.new) }
{
    match put_record(conn, "", b"", VERSION, Place::Unknown) {
        Ok(()) => Ok(()),
        Err(error) => Err(refused(error)),
    }
}

/// Checks the store of a database that has the table of records, or makes one if that is empty.
fn check_store<S: Alter>(conn: &mut Connection<S>, alloc: Global) -> Result<(), StoreError>
    requires inside { HasCleanDisk (state S.Store conn.old) → IsInside (state S.Store conn.old) }
    requires declared { HasCleanDisk (state S.Store conn.old) → DeclaresRecords (state S.Store conn.old).now.schema
        × IsDatabase (state S.Store conn.old).now }
    ensures set_up { HasCleanDisk (state S.Store conn.new)
        → OnOk result (SetsUp (state S.Store conn.old) (state S.Store conn.new)) }
    ensures refused { HasCleanDisk (state S.Store conn.new) → IfErr result (λ e. ((e ≡ Damaged)
        × HoldsNone (state S.Store conn.old).now) ⊎ IsResource e) }
    ensures named { IfErr result IsReadRefusal }
    ensures caused { HasCleanDisk (state S.Store conn.new)
        → IfErr result (IsCaused (SetUpFails S.Store conn.old conn.new)) }
    ensures commit { HasCleanDisk (state S.Store conn.new)
        → OnErr result (KeepsCommit (state S.Store conn.old) (state S.Store conn.new)) }
    ensures survives { KeepsCrash (state S.Store conn.old) (state S.Store conn.new) }
{
    match list_records(conn, alloc, "") {
        Ok(listed) => check_listed(conn, alloc, &listed),
        Err(error) => Err(refused(error)),
    }
}

/// Checks the store whose version and declarations these are, or makes one if there is no record.
fn check_listed<S: Alter>(
    conn: &mut Connection<S>,
    alloc: Global,
    listed: &[Keyed],
) -> Result<(), StoreError>
    requires inside { HasCleanDisk (state S.Store conn.old) → IsInside (state S.Store conn.old) }
    requires declared { HasCleanDisk (state S.Store conn.old) → DeclaresRecords (state S.Store conn.old).now.schema
        × IsDatabase (state S.Store conn.old).now }
    requires listed { HasCleanDisk (state S.Store conn.old) → HoldsRecords (state S.Store conn.old).now
        → ListsTable (records_in (state S.Store conn.old).now) [] listed.now }
    ensures set_up { HasCleanDisk (state S.Store conn.new)
        → OnOk result (SetsUp (state S.Store conn.old) (state S.Store conn.new)) }
    ensures refused { HasCleanDisk (state S.Store conn.new) → IfErr result (λ e. ((e ≡ Damaged)
        × HoldsNone (state S.Store conn.old).now) ⊎ IsResource e) }
    ensures named { IfErr result IsReadRefusal }
    ensures caused { HasCleanDisk (state S.Store conn.new)
        → IfErr result (IsCaused (SetUpFails S.Store conn.old conn.new)) }
    ensures commit { HasCleanDisk (state S.Store conn.new)
        → OnErr result (KeepsCommit (state S.Store conn.old) (state S.Store conn.new)) }
    ensures survives { KeepsCrash (state S.Store conn.old) (state S.Store conn.new) }
{
    match read_version(listed) {
        Ok(None) => check_empty(conn, alloc),
        Ok(Some(version)) => check_tables(conn, alloc, version, listed),
        Err(error) => Err(error),
    }
}

/// A test that no record passes.
struct Nothing;

impl RecordTest for Nothing {
    ghost passes = { λ _ _. ⊥ };

    fn is_passed_by(
        &self,
        _alloc: Global,
        _tab: &[u8],
        _key: &[u8],
        _value: &[u8],
    ) -> Result<bool, AllocError> {
        Ok(false)
    }
}

/// Makes a store if the table is empty. No record has the empty name.
fn check_empty<S: Alter>(conn: &mut Connection<S>, alloc: Global) -> Result<(), StoreError>
    requires inside { HasCleanDisk (state S.Store conn.old) → IsInside (state S.Store conn.old) }
    requires declared { HasCleanDisk (state S.Store conn.old) → DeclaresRecords (state S.Store conn.old).now.schema
        × IsDatabase (state S.Store conn.old).now }
    requires unnamed { HasCleanDisk (state S.Store conn.old) → HoldsRecords (state S.Store conn.old).now
        → ListsTable (records_in (state S.Store conn.old).now) [] [] }
    ensures set_up { HasCleanDisk (state S.Store conn.new)
        → OnOk result (SetsUp (state S.Store conn.old) (state S.Store conn.new)) }
    ensures refused { HasCleanDisk (state S.Store conn.new) → IfErr result (λ e. ((e ≡ Damaged)
        × HoldsNone (state S.Store conn.old).now) ⊎ IsResource e) }
    ensures named { IfErr result IsReadRefusal }
    ensures caused { HasCleanDisk (state S.Store conn.new)
        → IfErr result (IsCaused (SetUpFails S.Store conn.old conn.new)) }
    ensures commit { HasCleanDisk (state S.Store conn.new)
        → OnErr result (KeepsCommit (state S.Store conn.old) (state S.Store conn.new)) }
    ensures survives { KeepsCrash (state S.Store conn.old) (state S.Store conn.new) }
{
    match all_pass(conn, alloc, &Nothing) {
        Ok(true) => write_version(conn),
        Ok(false) => Err(StoreError::DamagedStore),
        Err(error) => Err(refused(error)),
    }
}

/// Checks a store of this version: its declarations, and that each other record is a row of a table. Then the version
/// of stores replaces the former one.
fn check_tables<S: Alter>(
    conn: &mut Connection<S>,
    alloc: Global,
    version: Version,
    listed: &[Keyed],
) -> Result<(), StoreError>
    requires inside { HasCleanDisk (state S.Store conn.old) → IsInside (state S.Store conn.old) }
    requires declared { HasCleanDisk (state S.Store conn.old) → DeclaresRecords (state S.Store conn.old).now.schema
        × IsDatabase (state S.Store conn.old).now }
    requires listed { HasCleanDisk (state S.Store conn.old) → HoldsRecords (state S.Store conn.old).now
        → ListsTable (records_in (state S.Store conn.old).now) [] listed.now }
    requires some { listed.now ≢ [] }
    requires version { HasCleanDisk (state S.Store conn.old) → HoldsRecords (state S.Store conn.old).now
        → records_in (state S.Store conn.old).now [] [] ≡ Some (bytes_of version) }
    ensures set_up { HasCleanDisk (state S.Store conn.new)
        → OnOk result (SetsUp (state S.Store conn.old) (state S.Store conn.new)) }
    ensures refused { HasCleanDisk (state S.Store conn.new) → IfErr result (λ e. ((e ≡ Damaged)
        × HoldsNone (state S.Store conn.old).now) ⊎ IsResource e) }
    ensures named { IfErr result IsReadRefusal }
    ensures caused { HasCleanDisk (state S.Store conn.new)
        → IfErr result (IsCaused (SetUpFails S.Store conn.old conn.new)) }
    ensures commit { HasCleanDisk (state S.Store conn.new)
        → OnErr result (KeepsCommit (state S.Store conn.old) (state S.Store conn.new)) }
    ensures survives { KeepsCrash (state S.Store conn.old) (state S.Store conn.new) }
{
    let schemas = read_schemas(alloc, version, listed)?;
    match all_pass(conn, alloc, &schemas) {
        Ok(true) => renew_version(conn, version),
        Ok(false) => Err(StoreError::DamagedStore),
        Err(error) => Err(refused(error)),
    }
}

/// Writes the version of stores, if the records, which are valid, have the former one.
fn renew_version<S: Alter>(conn: &mut Connection<S>, version: Version) -> Result<(), StoreError>
    requires inside { HasCleanDisk (state S.Store conn.old) → IsInside (state S.Store conn.old) }
    requires records { HasCleanDisk (state S.Store conn.old) → HoldsRecords (state S.Store conn.old).now
        × AreValid (records_in (state S.Store conn.old).now)
        × (records_in (state S.Store conn.old).now [] [] ≡ Some (bytes_of version)) }
    ensures set_up { HasCleanDisk (state S.Store conn.new)
        → OnOk result (SetsUp (state S.Store conn.old) (state S.Store conn.new)) }
    ensures refused { IfErr result IsResource }
    ensures caused { HasCleanDisk (state S.Store conn.new) → IfErr result
        (IsCaused (VersionFails (state S.Store conn.old) (state S.Store conn.new))) }
    ensures commit { HasCleanDisk (state S.Store conn.new)
        → OnErr result (KeepsCommit (state S.Store conn.old) (state S.Store conn.new)) }
    ensures survives { KeepsCrash (state S.Store conn.old) (state S.Store conn.new) }
{
    match version {
        Version::Current => Ok(()),
        Version::Former => write_version(conn),
    }
}
