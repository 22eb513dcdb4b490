//! Calls of a history on a store, each in a transaction of its own.
ghost use Rattle.std.specs.Prelude.{IfErr, OnOk};
ghost use Rattle.sqlite.specs.State.{HasCleanDisk};
ghost use Rattle.sqlite.specs.Held.{state};
ghost use Rattle.cs_store.specs.Store.{tables_in};
ghost use Rattle.cs_store.specs.Transacts.{Transacts};
ghost use Rattle.cs_history.specs.Calls.{CanCall, Does, HasNone, IsForeign};
ghost use Rattle.cs_history.specs.Faults.{IsTold};

use crate::calling::{HistoryCall, call_in_transaction};
use crate::fault::HistoryFault;
use cs_store::Store;
use sqlite::Alter;
use std::alloc::Global;

/// Carries out a call of a history of a store, and commits it. A crash leaves the tables from before or those after the
/// call, with the history: only the latter once it is done.
///
/// # Errors
///
/// Those of [`call_in_transaction`], and `StoreFault` if a transaction of the store is open. Nothing has changed then,
/// but if the disk fails within the commit, the files have the tables from before or those after the call.
pub fn call<S: Alter + Drop>(
    alloc: Global,
    store: Store<S>,
    name: &str,
    call: HistoryCall,
) -> (Store<S>, Result<(), HistoryFault>)
    ensures transacts { Transacts (λ made. Does call name.now (tables_in (state S.Store store).now) made)
        (state S.Store store) (state S.Store result.0) result.1 }
    ensures done { HasCleanDisk (state S.Store result.0) → OnOk result.1 (Does call name.now
        (tables_in (state S.Store store).now) (tables_in (state S.Store result.0).now)) }
    ensures refused { HasCleanDisk (state S.Store result.0) → IfErr result.1 (IsTold
        (HasNone call name.now (tables_in (state S.Store store).now))
        (¬ CanCall call name.now (tables_in (state S.Store store).now))
        (IsForeign call name.now (tables_in (state S.Store store).now))) }
{
    store.crash_law();
    let mut transaction = match store.into_transaction() {
        Ok(transaction) => transaction,
        Err((error, store)) => return (store, Err(HistoryFault::from(error))),
    };
    match call_in_transaction(alloc, &mut transaction, name, call) {
        Ok(()) => match transaction.commit() {
            Ok(store) => (store, Ok(())),
            Err((error, store)) => (store, Err(HistoryFault::from(error))),
        },
        Err(fault) => (transaction.roll_back(), Err(fault)),
    }
}
