//! The transactions of a connection, by the texts that begin and end them, and the marks to which they go back.
ghost use Rattle.std.specs.Prelude.{◌≡◌, ◌⊎◌, true, false, List, IsTrue, IfErr, OnOk, OnErr};
ghost use Rattle.sqlite.specs.Effect.{Database};
ghost use Rattle.sqlite.specs.State.{HasCleanDisk, Savepoint, Shows, Survives};
ghost use Rattle.sqlite.specs.Held.{state};
ghost use Rattle.cs_store_sql.specs.Failing.{HasDiskFailed, IsFailure, IsMisplaced, RefusalUndoes};
ghost use Rattle.cs_store_sql.specs.Marks.{HasMark, IsMarked};
ghost use Rattle.cs_store_sql.specs.Records.{IsUndone, KeepsContent, KeepsCrash};

use crate::fault::RecordsError;
use sqlite::{Alter, Connection, Error, ErrorCode};

/// Begins a transaction. It is refused if one is open.
pub fn begin<S: Alter>(conn: &mut Connection<S>) -> Result<(), RecordsError>
    ensures begun { HasCleanDisk (state S.Store conn.new)
        → OnOk result (((state S.Store conn.old).in_transaction ≡ false)
        × Shows (state S.Store conn.old) (state S.Store conn.new)
        (state S.Store conn.old).now (state S.Store conn.old).committed true) }
    ensures settled { HasCleanDisk (state S.Store conn.new)
        → OnOk result ((state S.Store conn.old).now ≡ (state S.Store conn.old).committed) }
    ensures kept { HasCleanDisk (state S.Store conn.new)
        → OnErr result (KeepsContent (state S.Store conn.old) (state S.Store conn.new)) }
    ensures failed { HasCleanDisk (state S.Store conn.new)
        → IfErr result (IsFailure (λ error. IsMisplaced (IsTrue (state S.Store conn.old).in_transaction) error
        ⊎ HasDiskFailed (state S.Store conn.old) (state S.Store conn.new) error)) }
    ensures survives { KeepsCrash (state S.Store conn.old) (state S.Store conn.new) }
{
    if !conn.is_autocommit() {
        return Err(RecordsError::Database(Error::SqliteFailure(ErrorCode::TransactionState)));
    }
    conn.execute("BEGIN", &[])?;
    Ok(())
}

/// Commits the transaction. It is refused if none is open. If it fails, the transaction is rolled back.
pub fn commit<S: Alter>(conn: &mut Connection<S>) -> Result<(), RecordsError>
    ensures committed { HasCleanDisk (state S.Store conn.new)
        → OnOk result (IsTrue (state S.Store conn.old).in_transaction
        × Shows (state S.Store conn.old) (state S.Store conn.new)
        (state S.Store conn.old).now (state S.Store conn.old).now false) }
    ensures undone { RefusalUndoes (state S.Store conn.old) (state S.Store conn.new) result }
    ensures failed { HasCleanDisk (state S.Store conn.new)
        → IfErr result (IsFailure (λ error. IsMisplaced ((state S.Store conn.old).in_transaction ≡ false) error
        ⊎ HasDiskFailed (state S.Store conn.old) (state S.Store conn.new) error)) }
    ensures survives { Survives (state S.Store conn.old) (state S.Store conn.new)
        (λ db. (db ≡ (state S.Store conn.old).now.trees) × IsTrue (state S.Store conn.old).in_transaction) }
{
    if conn.is_autocommit() {
        return Err(RecordsError::Database(Error::SqliteFailure(ErrorCode::TransactionState)));
    }
    conn.execute("COMMIT", &[])?;
    Ok(())
}

/// Takes the database back to the last commit if a transaction is open.
pub fn roll_back<S: Alter>(conn: &mut Connection<S>)
    ensures undone { HasCleanDisk (state S.Store conn.new)
        → IsUndone (state S.Store conn.old) (state S.Store conn.new) }
    ensures survives { KeepsCrash (state S.Store conn.old) (state S.Store conn.new) }
{
    if !conn.is_autocommit() {
        let _ = conn.execute("ROLLBACK", &[]);
    }
}

/// Marks where the open transaction is. It is refused if none is open. If it fails, the transaction is rolled back.
pub fn mark<S: Alter>(conn: &mut Connection<S>) -> Result<(), RecordsError>
    ensures marked { HasCleanDisk (state S.Store conn.new)
        → OnOk result (IsTrue (state S.Store conn.old).in_transaction
        × Shows (state S.Store conn.old) (state S.Store conn.new)
        (state S.Store conn.old).now (state S.Store conn.old).committed true
        × IsMarked (state S.Store conn.old).marks (state S.Store conn.old).now (state S.Store conn.new)) }
    ensures undone { RefusalUndoes (state S.Store conn.old) (state S.Store conn.new) result }
    ensures failed { HasCleanDisk (state S.Store conn.new)
        → IfErr result (IsFailure (λ error. IsMisplaced ((state S.Store conn.old).in_transaction ≡ false) error
        ⊎ HasDiskFailed (state S.Store conn.old) (state S.Store conn.new) error)) }
    ensures survives { KeepsCrash (state S.Store conn.old) (state S.Store conn.new) }
{
    if conn.is_autocommit() {
        return Err(RecordsError::Database(Error::SqliteFailure(ErrorCode::TransactionState)));
    }
    conn.execute("SAVEPOINT call", &[])?;
    Ok(())
}

/// Drops the newest mark, which must be there. What was written since stays. If it fails, the transaction is rolled
/// back.
pub fn release<S: Alter>(conn: &mut Connection<S>) -> Result<(), RecordsError>
    ensures released { (before : List Savepoint) (db : Database) → IsMarked before db (state S.Store conn.old)
        → HasCleanDisk (state S.Store conn.new)
        → OnOk result (Shows (state S.Store conn.old) (state S.Store conn.new)
        (state S.Store conn.old).now (state S.Store conn.old).committed true
        × ((state S.Store conn.new).marks ≡ before)) }
    ensures undone { HasMark (state S.Store conn.old) → HasCleanDisk (state S.Store conn.new)
        → OnErr result (IsUndone (state S.Store conn.old) (state S.Store conn.new)) }
    ensures failed { HasMark (state S.Store conn.old) → HasCleanDisk (state S.Store conn.new)
        → IfErr result (IsFailure (HasDiskFailed (state S.Store conn.old) (state S.Store conn.new))) }
    ensures survives { (HasCleanDisk (state S.Store conn.old) → HasMark (state S.Store conn.old))
        → KeepsCrash (state S.Store conn.old) (state S.Store conn.new) }
{
    conn.execute("RELEASE call", &[])?;
    Ok(())
}

/// Takes the open transaction back to its newest mark, which must be there, and drops the mark. It is refused if no
/// transaction is open. If it fails, the transaction is rolled back.
pub fn go_back<S: Alter>(conn: &mut Connection<S>) -> Result<(), RecordsError>
    ensures back { (before : List Savepoint) (db : Database)
        → (IsTrue (state S.Store conn.old).in_transaction → IsMarked before db (state S.Store conn.old))
        → HasCleanDisk (state S.Store conn.new)
        → OnOk result (IsTrue (state S.Store conn.old).in_transaction
        × Shows (state S.Store conn.old) (state S.Store conn.new) db (state S.Store conn.old).committed true
        × ((state S.Store conn.new).marks ≡ before)) }
    ensures undone { (IsTrue (state S.Store conn.old).in_transaction → HasMark (state S.Store conn.old))
        → HasCleanDisk (state S.Store conn.new)
        → OnErr result (IsUndone (state S.Store conn.old) (state S.Store conn.new)) }
    ensures failed { (IsTrue (state S.Store conn.old).in_transaction → HasMark (state S.Store conn.old))
        → HasCleanDisk (state S.Store conn.new)
        → IfErr result (IsFailure (λ error. IsMisplaced ((state S.Store conn.old).in_transaction ≡ false) error
        ⊎ HasDiskFailed (state S.Store conn.old) (state S.Store conn.new) error)) }
    ensures survives { (HasCleanDisk (state S.Store conn.old) → IsTrue (state S.Store conn.old).in_transaction
        → HasMark (state S.Store conn.old))
        → KeepsCrash (state S.Store conn.old) (state S.Store conn.new) }
{
    if conn.is_autocommit() {
        return Err(RecordsError::Database(Error::SqliteFailure(ErrorCode::TransactionState)));
    }
    conn.execute("ROLLBACK TO call", &[])?;
    conn.execute("RELEASE call", &[])?;
    Ok(())
}
