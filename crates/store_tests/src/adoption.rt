//! Databases that are adopted as stores, or handed back.

use cs_store::{Cause, Store, StoreError, Unopened};
use sqlite::{Alter, Connection, FileStore, MemStore, Options};
use sqlite_disk::{Disk, Files, Memory};
use std::process::Abort;

/// Returns a database in memory.
fn database(rt: &(impl Abort + AllocGlobal)) -> Connection<MemStore> {
    Connection::open_in_memory(rt.alloc()).expect(rt, "memory")
}

/// Returns the store of a database that is one.
fn adopted<S: Alter>(rt: &(impl Abort + AllocGlobal), conn: Connection<S>) -> Store<S> {
    match Store::adopt(rt.alloc(), conn) {
        Ok(store) => store,
        Err((error, _)) => panic!(rt; "no store: {error}"),
    }
}

/// Returns the connection to a database that is refused for this reason.
fn handed_back<S: Alter>(
    rt: &(impl Abort + AllocGlobal),
    conn: Connection<S>,
    why: StoreError,
) -> Connection<S> {
    match Store::adopt(rt.alloc(), conn) {
        Ok(_) => panic!(rt; "a store"),
        Err((error, conn)) => {
            assert!(rt; error == why);
            conn
        }
    }
}

#[test]
fn adopts_an_empty_database_and_its_store(rt: HostRuntime) {
    let store = adopted(&rt, database(&rt));
    let mut again = adopted(&rt, store.into_connection());
    assert!(rt; again.tables(rt.alloc()).expect(&rt, "names").is_empty());
    let _conn = again.into_connection();
}

#[test]
fn hands_a_connection_back(rt: HostRuntime) {
    let mut conn = database(&rt);
    conn.execute("BEGIN", &[]).expect(&rt, "a transaction");
    let mut conn = handed_back(&rt, conn, StoreError::StoreFault(Cause::Other));
    conn.execute("CREATE TABLE rec(x)", &[])
        .expect(&rt, "a table");
    conn.execute("COMMIT", &[]).expect(&rt, "a commit");
    let _conn = handed_back(&rt, conn, StoreError::DamagedStore);
}

/// Returns files in memory, the database file with these bytes.
fn files_of(rt: &(impl Abort + AllocGlobal), bytes: &[u8]) -> Files<Memory> {
    let mut db = Memory::new(rt.alloc());
    db.write_at(0, bytes).expect(rt, "memory");
    db.sync().expect(rt, "memory");
    Files {
        log: Memory::new(rt.alloc()),
        db,
    }
}

/// Opens the store in files.
fn open_store(
    rt: &(impl Abort + AllocGlobal),
    files: Files<Memory>,
) -> Result<Store<FileStore<Memory>>, (StoreError, Unopened<Memory>)> {
    assert!(rt; files.log.may_be_used() && files.db.may_be_used());
    Store::open_files(rt.alloc(), files, Options::new(1), false)
}

#[test]
fn says_that_files_hold_no_database(rt: HostRuntime) {
    match open_store(&rt, files_of(&rt, b"no database")) {
        Err((error, Unopened::Files(_))) => {
            assert!(rt; error == StoreError::StoreFault(Cause::NotADatabase));
        }
        _ => panic!(rt; "a store"),
    }
}
