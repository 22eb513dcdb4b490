//! The tables that a history watches.
ghost use Rattle.std.specs.Prelude.{◌≡◌, Some, IfOk, OnOk};
ghost use Rattle.sqlite.specs.State.{HasCleanDisk};
ghost use Rattle.sqlite.specs.Held.{state};
ghost use Rattle.cs_value.specs.State.{State as Tables};
ghost use Rattle.cs_store.specs.Store.{KeepsStore, tables_in};
ghost use Rattle.cs_session_notes.specs.Attaching.{IsNewTable};
ghost use Rattle.cs_history.specs.Stored.{IsHistory};
ghost use Rattle.cs_history.specs.Watching.{IsWatched, MayAttach, Watches};

use crate::fault::HistoryFault;
use crate::table::{check_schema, is_history};
use cs_session::Session;
use cs_store::Store;
use sqlite::Alter;
use std::alloc::Global;

/// Returns the session of an action: it has each table of a store that is no history, and has noted nothing. The table
/// of the name must be a history.
///
/// # Errors
///
/// [`NotHistory`](HistoryFault::NotHistory) if the table is not a history. `StoreFault` if the database refuses,
/// [`DamagedStore`](cs_store::StoreError::DamagedStore) if what is stored is damaged, and `NoMemory` if out of memory.
/// Nothing has changed then.
pub fn watch<S: Alter>(
    alloc: Global,
    store: &mut Store<S>,
    name: &str,
) -> Result<Session, HistoryFault>
    ensures watches { HasCleanDisk (state S.Store store.new)
        → IfOk result (Watches (tables_in (state S.Store store.old).now)) }
    ensures history { HasCleanDisk (state S.Store store.new)
        → OnOk result (IsHistory (tables_in (state S.Store store.old).now) name.now) }
    ensures read { HasCleanDisk (state S.Store store.new)
        → OnOk result ((state S.Store store.new).now ≡ (state S.Store store.old).now) }
    ensures kept { KeepsStore (state S.Store store.old) (state S.Store store.new) }
{
    let Some(schema) = store.schema(alloc, name)? else {
        return Err(HistoryFault::NotHistory);
    };
    check_schema(&schema)?;
    let names = store.tables(alloc)?;
    let mut session = Session::new(alloc);
    for table in &names {
        watch_table(alloc, store, &mut session, table.as_str())?;
    }
    Ok(session)
}

/// Attaches a table of a store, unless it is a history.
fn watch_table<S: Alter>(
    alloc: Global,
    store: &mut Store<S>,
    session: &mut Session,
    name: &str,
) -> Result<(), HistoryFault>
    ensures watched { HasCleanDisk (state S.Store store.new)
        → OnOk result (MayAttach (tables_in (state S.Store store.old).now) name.now session.old session.new) }
    ensures read { HasCleanDisk (state S.Store store.new)
        → OnOk result ((state S.Store store.new).now ≡ (state S.Store store.old).now) }
    ensures kept { KeepsStore (state S.Store store.old) (state S.Store store.new) }
{
    let Some(schema) = store.schema(alloc, name)? else {
        return Ok(());
    };
    if is_history(&schema) {
        return Ok(());
    }
    session.attach(alloc, store, name)?;
    Ok(())
}
