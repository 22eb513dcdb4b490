//! The conflicts that an apply would have in a transaction.
ghost use Rattle.std.specs.Prelude.{◌≡◌, false, IfOk, IfErr, OnOk, map};
ghost use Rattle.sqlite.specs.State.{HasCleanDisk};
ghost use Rattle.sqlite.specs.Held.{state};
ghost use Rattle.cs_store.specs.Failing.{BatchFails, Writes};
ghost use Rattle.cs_store.specs.Store.{tables_in};
ghost use Rattle.cs_store.specs.Within.{Within};
ghost use Rattle.cs_apply_engine.specs.declared.running.Direction.TheVariants.{Forward as ForwardRun};
ghost use Rattle.cs_apply_engine.specs.Running.{IsCaused, IsNamed, IsResource};
ghost use Rattle.cs_apply_engine.specs.Steps.{IsStoreRefusal};
ghost use Rattle.cs_apply_engine.specs.Writes.{IsFileWrite};
ghost use Rattle.cs_apply_rehearsal.specs.Rehearsal.{Rehearses, RefusesRehearsal, found_of};
ghost use Rattle.cs_apply_rehearsal.specs.Rehearsing.{replace_or_omit};
ghost use Rattle.cs_apply_rehearsal.specs.Shown.{ShowsAgain};
ghost use Rattle.cs_apply_rehearsal.specs.Trying.{Tries};

use crate::found::Found;
use crate::numbering::number;
use crate::places::places_of;
use cs_apply::apply_in_transaction;
use cs_apply_engine::{ApplyFault, Choice, Conflict, Kind, Noop, Report};
use cs_store::Transaction;
use cs_wire::{changeset_files_law, read};
use sqlite::Alter;
use std::alloc::Global;

/// Lists the conflicts that an apply of the file would have in this transaction, in the order of the file, and leaves
/// the transaction as it was.
///
/// It lists each conflict that any choices can lead to: the first one of each entry, and the CONSTRAINT after a REPLACE
/// if a NOT NULL column refuses the new row.
///
/// # Errors
///
/// `Read` if the file is no changeset's, and `Wider` if a table has more columns than the file says. `StoreFault` or
/// `NoMemory` if the transaction has ended, the database refuses, or out of memory. `DamagedStore` if what is stored is
/// damaged. After a refusal the transaction shows what it showed before. Or the error is of the store or `NoMemory`,
/// the transaction has ended ([`Transaction::has_ended`]), and the store is as it was when the transaction began.
pub fn rehearse<S: Alter + Drop>(
    alloc: Global,
    transaction: &mut Transaction<S>,
    file: &[u8],
    noop: Noop,
) -> Result<Vec<Found>, ApplyFault>
    ensures rehearsed { HasCleanDisk (state S.Store transaction.new) → IfOk result (λ found.
        Rehearses noop file.now (tables_in (state S.Store transaction.old).now) (map found_of found.items)) }
    ensures same { HasCleanDisk (state S.Store transaction.new) → OnOk result
        ((state S.Store transaction.new).now ≡ (state S.Store transaction.old).now) }
    ensures shown { HasCleanDisk (state S.Store transaction.new) → OnOk result
        (ShowsAgain (state S.Store transaction.old) (state S.Store transaction.new)) }
    ensures refused { HasCleanDisk (state S.Store transaction.new) → IfErr result
        (RefusesRehearsal file.now (tables_in (state S.Store transaction.old).now)) }
    ensures caused { HasCleanDisk (state S.Store transaction.new) → IfErr result (IsCaused (BatchFails
        (Writes (IsFileWrite ForwardRun file.now)) (state S.Store transaction.old) (state S.Store transaction.new))) }
    ensures named { IfErr result IsNamed }
    ensures over { HasCleanDisk (state S.Store transaction.new) → (state S.Store transaction.old).in_transaction ≡ false
        → IfErr result IsResource }
    ensures within { Within (λ left. left ≡ tables_in (state S.Store transaction.old).now) IsStoreRefusal
        (state S.Store transaction.old) (state S.Store transaction.new) result }
{
    changeset_files_law();
    let report = tried(alloc, transaction, file, noop)?;
    let changeset = read(alloc, file)?;
    let places = places_of(alloc, &changeset)?;
    let Report { conflicts, .. } = report;
    let found = number(alloc, &places, conflicts)?;
    Ok(found)
}

/// Returns REPLACE if the kind of a conflict allows it, and OMIT otherwise.
fn choose(conflict: &Conflict) -> Choice
    ensures { result ≡ replace_or_omit conflict.now.kind }
{
    match conflict.kind {
        Kind::Data | Kind::Conflict => Choice::Replace,
        Kind::NotFound | Kind::Constraint => Choice::Omit,
    }
}

/// Applies a file with these choices after a mark, and goes back to the mark.
fn tried<S: Alter + Drop>(
    alloc: Global,
    transaction: &mut Transaction<S>,
    file: &[u8],
    noop: Noop,
) -> Result<Report, ApplyFault>
    ensures met { HasCleanDisk (state S.Store transaction.new) → IfOk result (λ report.
        Tries noop file.now (tables_in (state S.Store transaction.old).now) report.conflicts.items) }
    ensures shown { HasCleanDisk (state S.Store transaction.new) → OnOk result
        (ShowsAgain (state S.Store transaction.old) (state S.Store transaction.new)) }
    ensures refused { HasCleanDisk (state S.Store transaction.new) → IfErr result
        (RefusesRehearsal file.now (tables_in (state S.Store transaction.old).now)) }
    ensures caused { HasCleanDisk (state S.Store transaction.new) → IfErr result (IsCaused (BatchFails
        (Writes (IsFileWrite ForwardRun file.now)) (state S.Store transaction.old) (state S.Store transaction.new))) }
    ensures named { IfErr result IsNamed }
    ensures over { HasCleanDisk (state S.Store transaction.new) → (state S.Store transaction.old).in_transaction ≡ false
        → IfErr result IsResource }
    ensures within { Within (λ left. left ≡ tables_in (state S.Store transaction.old).now) IsStoreRefusal
        (state S.Store transaction.old) (state S.Store transaction.new) result }
{
    transaction.store_law();
    transaction.mark()?;
    let result = apply_in_transaction(alloc, transaction, file, noop, &choose);
    transaction.end_call(false)?;
    result
}
