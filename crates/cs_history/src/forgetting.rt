//! Actions that are forgotten.
ghost use Rattle.std.specs.Prelude.{◌≡◌, [], IfErr, IsTrue};
ghost use Rattle.sqlite.specs.State.{HasCleanDisk};
ghost use Rattle.sqlite.specs.Held.{state};
ghost use Rattle.cs_value.specs.State.{rows_at};
ghost use Rattle.cs_store.specs.Store.{tables_in};
ghost use Rattle.cs_history.specs.Actions.{Forgets};
ghost use Rattle.cs_history.specs.Carrying.{Works};
ghost use Rattle.cs_history.specs.Faults.{IsOther, IsTold};
ghost use Rattle.cs_history.specs.Moving.{DropsAfter, Keeps, rows_after};
ghost use Rattle.cs_history.specs.Stored.{IsHistory};

use crate::fault::HistoryFault;
use crate::rows::{changeset_of, key_of, last_undone_key, remove_row, row_after};
use crate::table::check_table;
use cs_store::Transaction;
use cs_value::Key;
use sqlite::Alter;
use std::alloc::Global;

/// Keeps the newest actions that are done, and drops the others: [`HistoryCall::Forget`](crate::HistoryCall::Forget).
pub(crate) fn forget<S: Alter + Drop>(
    alloc: Global,
    transaction: &mut Transaction<S>,
    name: &str,
    keep: u64,
    bytes: u64,
) -> Result<(), HistoryFault>
    ensures works { Works (λ _ old new. Forgets keep bytes name.now old new) (state S.Store transaction.old)
        (state S.Store transaction.new) result }
    ensures refused { HasCleanDisk (state S.Store transaction.new)
        → IsTrue (state S.Store transaction.old).in_transaction → IfErr result (IsTold ⊥ ⊥
        (¬ IsHistory (tables_in (state S.Store transaction.old).now) name.now)) }
{
    check_table(alloc, transaction, name)?;
    let last = last_kept(alloc, transaction, name, keep, bytes)?;
    drop_after(alloc, transaction, name, &last)
}

/// Returns the key of the last row that is kept: the rows after it are dropped.
fn last_kept<S: Alter + Drop>(
    alloc: Global,
    transaction: &mut Transaction<S>,
    name: &str,
    keep: u64,
    bytes: u64,
) -> Result<Key, HistoryFault>
    ensures works { Works (λ key old new. (new ≡ old) × (IsHistory old name.now
        → Keeps keep bytes key (rows_at old name.now))) (state S.Store transaction.old)
        (state S.Store transaction.new) result }
    ensures named { IfErr result IsOther }
{
    let mut last = last_undone_key(alloc)?;
    let mut count = keep;
    let mut room = bytes;
    while count > 0 {
        let Some(row) = row_after(alloc, transaction, name, &last)? else {
            return Ok(last);
        };
        let Some(rest) = room.checked_sub(changeset_of(&row)?.len() as u64) else {
            return Ok(last);
        };
        last = key_of(alloc, &row)?;
        room = rest;
        count -= 1;
    }
    Ok(last)
}

/// Drops the rows after a key.
fn drop_after<S: Alter + Drop>(
    alloc: Global,
    transaction: &mut Transaction<S>,
    name: &str,
    key: &Key,
) -> Result<(), HistoryFault>
    ensures works { Works (λ _ old new. IsHistory old name.now → DropsAfter key.now name.now old new
        × (rows_after key.now (rows_at new name.now) ≡ [])) (state S.Store transaction.old)
        (state S.Store transaction.new) result }
    ensures named { IfErr result IsOther }
{
    for _ in 0..u64::MAX {
        match row_after(alloc, transaction, name, key)? {
            Some(row) => remove_row(alloc, transaction, name, &row)?,
            None => return Ok(()),
        }
    }
    Err(HistoryFault::TooLarge)
}
