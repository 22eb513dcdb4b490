//! The end of a transaction, and its marks.
ghost use Rattle.std.specs.Prelude.{◌≡◌, List, IsTrue, IfErr, OnOk, OnErr, true, false};
ghost use Rattle.sqlite.specs.Effect.{Database};
ghost use Rattle.sqlite.specs.State.{HasCleanDisk, Savepoint, Shows, Survives};
ghost use Rattle.sqlite.specs.Held.{state};
ghost use Rattle.cs_rows.specs.Faults.{IsCaused, IsResource};
ghost use Rattle.cs_store_tables.specs.Failing.{CommitFails, MarkFails, ReleaseFails};
ghost use Rattle.cs_store_sql.specs.Marks.{HasMark, IsMarked};
ghost use Rattle.cs_store_sql.specs.Records.{IsUndone, KeepsCrash};

use crate::refusal::refused;
use cs_rows::StoreError;
use cs_store_sql::transactions;
use sqlite::{Alter, Connection};

/// Commits the transaction of a connection.
pub fn commit<S: Alter>(conn: &mut Connection<S>) -> Result<(), StoreError>
    ensures committed { HasCleanDisk (state S.Store conn.new)
        → OnOk result (IsTrue (state S.Store conn.old).in_transaction
        × Shows (state S.Store conn.old) (state S.Store conn.new)
        (state S.Store conn.old).now (state S.Store conn.old).now false) }
    ensures refused { IfErr result IsResource }
    ensures caused { HasCleanDisk (state S.Store conn.new)
        → IfErr result (IsCaused (CommitFails (state S.Store conn.old) (state S.Store conn.new))) }
    ensures undone { HasCleanDisk (state S.Store conn.new)
        → OnErr result (IsUndone (state S.Store conn.old) (state S.Store conn.new)) }
    ensures survives { Survives (state S.Store conn.old) (state S.Store conn.new)
        (λ db. (db ≡ (state S.Store conn.old).now.trees) × IsTrue (state S.Store conn.old).in_transaction) }
{
    match transactions::commit(conn) {
        Ok(()) => Ok(()),
        Err(error) => Err(refused(error)),
    }
}

/// Marks where the open transaction of a connection is. It is refused if none is open. If it fails, the transaction is
/// rolled back.
pub fn mark<S: Alter>(conn: &mut Connection<S>) -> Result<(), StoreError>
    ensures marked { HasCleanDisk (state S.Store conn.new)
        → OnOk result (IsTrue (state S.Store conn.old).in_transaction
        × Shows (state S.Store conn.old) (state S.Store conn.new)
        (state S.Store conn.old).now (state S.Store conn.old).committed true
        × IsMarked (state S.Store conn.old).marks (state S.Store conn.old).now (state S.Store conn.new)) }
    ensures refused { IfErr result IsResource }
    ensures caused { HasCleanDisk (state S.Store conn.new)
        → IfErr result (IsCaused (MarkFails (state S.Store conn.old) (state S.Store conn.new))) }
    ensures undone { HasCleanDisk (state S.Store conn.new)
        → OnErr result (IsUndone (state S.Store conn.old) (state S.Store conn.new)) }
    ensures survives { KeepsCrash (state S.Store conn.old) (state S.Store conn.new) }
{
    match transactions::mark(conn) {
        Ok(()) => Ok(()),
        Err(error) => Err(refused(error)),
    }
}

/// Drops the newest mark of a connection, which must be there. What was written since stays. If it fails, the
/// transaction is rolled back.
pub fn release<S: Alter>(conn: &mut Connection<S>) -> Result<(), StoreError>
    ensures released { (before : List Savepoint) (db : Database) → IsMarked before db (state S.Store conn.old)
        → HasCleanDisk (state S.Store conn.new)
        → OnOk result (Shows (state S.Store conn.old) (state S.Store conn.new)
        (state S.Store conn.old).now (state S.Store conn.old).committed true
        × ((state S.Store conn.new).marks ≡ before)) }
    ensures refused { IfErr result IsResource }
    ensures caused { HasMark (state S.Store conn.old) → HasCleanDisk (state S.Store conn.new)
        → IfErr result (IsCaused (ReleaseFails (state S.Store conn.old) (state S.Store conn.new))) }
    ensures undone { HasMark (state S.Store conn.old) → HasCleanDisk (state S.Store conn.new)
        → OnErr result (IsUndone (state S.Store conn.old) (state S.Store conn.new)) }
    ensures survives { (HasCleanDisk (state S.Store conn.old) → HasMark (state S.Store conn.old))
        → KeepsCrash (state S.Store conn.old) (state S.Store conn.new) }
{
    match transactions::release(conn) {
        Ok(()) => Ok(()),
        Err(error) => Err(refused(error)),
    }
}

/// Takes the open transaction of a connection back to its newest mark, which must be there, and drops the mark. It is
/// refused if no transaction is open. If it fails, the transaction is rolled back.
pub fn go_back<S: Alter>(conn: &mut Connection<S>) -> Result<(), StoreError>
    ensures back { (before : List Savepoint) (db : Database)
        → (IsTrue (state S.Store conn.old).in_transaction → IsMarked before db (state S.Store conn.old))
        → HasCleanDisk (state S.Store conn.new)
        → OnOk result (IsTrue (state S.Store conn.old).in_transaction
        × Shows (state S.Store conn.old) (state S.Store conn.new) db (state S.Store conn.old).committed true
        × ((state S.Store conn.new).marks ≡ before)) }
    ensures refused { IfErr result IsResource }
    ensures caused { (IsTrue (state S.Store conn.old).in_transaction → HasMark (state S.Store conn.old))
        → HasCleanDisk (state S.Store conn.new)
        → IfErr result (IsCaused (MarkFails (state S.Store conn.old) (state S.Store conn.new))) }
    ensures undone { (IsTrue (state S.Store conn.old).in_transaction → HasMark (state S.Store conn.old))
        → HasCleanDisk (state S.Store conn.new)
        → OnErr result (IsUndone (state S.Store conn.old) (state S.Store conn.new)) }
    ensures survives { (HasCleanDisk (state S.Store conn.old) → IsTrue (state S.Store conn.old).in_transaction
        → HasMark (state S.Store conn.old))
        → KeepsCrash (state S.Store conn.old) (state S.Store conn.new) }
{
    match transactions::go_back(conn) {
        Ok(()) => Ok(()),
        Err(error) => Err(refused(error)),
    }
}
