//! The calls of a history that take no session.
ghost use Rattle.std.specs.Prelude.{IfErr, IsTrue};
ghost use Rattle.sqlite.specs.State.{HasCleanDisk};
ghost use Rattle.sqlite.specs.Held.{state};
ghost use Rattle.cs_store.specs.Store.{tables_in};
ghost use Rattle.cs_history.specs.Calls.{CanCall, Does, HasNone, IsForeign};
ghost use Rattle.cs_history.specs.Carrying.{Carries, Works};
ghost use Rattle.cs_history.specs.Faults.{IsTold};

use crate::fault::HistoryFault;
use crate::forgetting::forget;
use crate::table::open_table;
use crate::turning::turn;
use cs_store::Transaction;
use sqlite::Alter;
use std::alloc::Global;

/// A call of a history that takes no session.
#[derive(Clone, Copy, Debug)]
pub enum HistoryCall {
    /// Declares its table without rows, if no table has the name.
    ///
    /// The columns are `action`, which is the key and has an integer, `label`, which has a text, and `changeset`, which
    /// has the file of a changeset as a blob. None takes NULL. The number of an action that is done is below zero.
    Open,
    /// Reverts the changeset of the last action that is done, and notes that it is undone.
    Undo,
    /// Applies the changeset of the action that was undone last, and notes that it is done.
    Redo,
    /// Keeps the newest actions that are done, from the last one on, and drops the others. It stops before the one that
    /// would be more than `keep`, or with which their changesets would have more than `bytes` bytes. For one limit
    /// alone, give `u64::MAX` as the other. What is undone stays, and is not counted.
    Forget { keep: u64, bytes: u64 },
}

/// Carries out a call of a history in a transaction. Nothing is committed.
///
/// An undo or a redo passes over changes of tables that are not there, or have fewer columns or another key, as each
/// apply does.
///
/// # Errors
///
/// [`NotHistory`](HistoryFault::NotHistory) if the table is not a history: if no table has the name, but for `Open`, or
/// if it has other columns, another key or other rules for NULL.
/// [`BadSchema`](cs_store::StoreError::BadSchema) from `Open` if no table can have the name.
/// [`NothingLeft`](HistoryFault::NothingLeft) from `Undo` if no action is done, and from `Redo` if none is undone.
/// [`Apply`](HistoryFault::Apply) from these two: with the first conflict if other edits have changed the rows, or if a
/// table has more columns now, or if another program has written a changeset that is none.
/// [`Damaged`](HistoryFault::Damaged) if another program has written a number or a changeset of another type into a row
/// that is read, and [`TooLarge`](HistoryFault::TooLarge) if a number that it has written leaves no place.
/// `StoreFault` or `NoMemory` if the transaction has ended, the database refuses or memory runs out. If the disk does
/// not return what was written, [`DamagedStore`](cs_store::StoreError::DamagedStore) or any of these. After a refusal
/// the transaction shows what it showed before, or it has ended and the store is as it was when it began.
pub fn call_in_transaction<S: Alter + Drop>(
    alloc: Global,
    transaction: &mut Transaction<S>,
    name: &str,
    call: HistoryCall,
) -> Result<(), HistoryFault>
    ensures done { Carries (λ _ old new. Does call name.now old new) (state S.Store transaction.old)
        (state S.Store transaction.new) result }
    ensures refused { HasCleanDisk (state S.Store transaction.new)
        → IsTrue (state S.Store transaction.old).in_transaction → IfErr result (IsTold
        (HasNone call name.now (tables_in (state S.Store transaction.old).now))
        (¬ CanCall call name.now (tables_in (state S.Store transaction.old).now))
        (IsForeign call name.now (tables_in (state S.Store transaction.old).now))) }
{
    transaction.store_law();
    transaction.mark()?;
    let result = work(alloc, transaction, name, call);
    transaction.end_call(result.is_ok())?;
    result
}

/// Carries out a call. After a refusal the transaction may show what was written.
fn work<S: Alter + Drop>(
    alloc: Global,
    transaction: &mut Transaction<S>,
    name: &str,
    call: HistoryCall,
) -> Result<(), HistoryFault>
    ensures works { Works (λ _ old new. Does call name.now old new) (state S.Store transaction.old)
        (state S.Store transaction.new) result }
    ensures refused { HasCleanDisk (state S.Store transaction.new)
        → IsTrue (state S.Store transaction.old).in_transaction → IfErr result (IsTold
        (HasNone call name.now (tables_in (state S.Store transaction.old).now))
        (¬ CanCall call name.now (tables_in (state S.Store transaction.old).now))
        (IsForeign call name.now (tables_in (state S.Store transaction.old).now))) }
{
    match call {
        HistoryCall::Open => open_table(alloc, transaction, name),
        HistoryCall::Undo => turn(alloc, transaction, name, true),
        HistoryCall::Redo => turn(alloc, transaction, name, false),
        HistoryCall::Forget { keep, bytes } => forget(alloc, transaction, name, keep, bytes),
    }
}
