//! Callers of `cs_store`, `cs_apply` and `cs_session`, as `CALLING.md` of these crates shows them.
ghost use Rattle.std.specs.Prelude.{◌≡◌, OnOk};
ghost use Rattle.sqlite.specs.State.{HasCleanDisk};
ghost use Rattle.sqlite.specs.Held.{state};
ghost use Rattle.cs_value.specs.State.{rows_at};
ghost use Rattle.cs_store.specs.Store.{tables_in};

use crate::rows::{Call, edit_of, end, rows_of, store_of};
use crate::session::{attached, begun, undone};
use crate::{DELETE, INSERT, UPDATE};
use cs_apply::{
    ApplyFault, Choice, Conflict, Noop, Policy, Report, apply, apply_in_transaction,
    revert_in_transaction,
};
use cs_session::{Session, SessionFault, runs_law};
use cs_store::{Edit, Rows, Store, StoreError, Transaction, edit_in};
use cs_value::{OwnedValue, Row, Value};
use cs_wire::write;
use sqlite::{Alter, MemStore};
use std::alloc::Global;
use std::process::Abort;

/// Inserts the row of a key into t.
fn insert<B: Rows>(alloc: Global, rows: &mut B, key: i64) -> Result<(), StoreError> {
    let mut values = Vec::new(alloc);
    values.push(OwnedValue::Int(key))?;
    values.push(OwnedValue::Null)?;
    let table = String::from_str(alloc, "t")?;
    let row = Row::new(values);
    edit_in(alloc, rows, &Edit::Insert { table, row })?;
    Ok(())
}

/// Inserts so many rows in one batch.
fn fill<S: Alter>(alloc: Global, store: &mut Store<S>, count: i64) -> Result<(), StoreError> {
    let mut batch = store.begin()?;
    for key in 0..count {
        insert(alloc, &mut batch, key)?;
    }
    batch.commit()
}

#[test]
fn fills_a_table(rt: HostRuntime) {
    let mut store = store_of(&rt, &[false, false]);
    fill(rt.alloc(), &mut store, 10).expect(&rt, "no refusal");
    assert!(rt; rows_of(&rt, &mut store).len() == 10);
    end(store);
}

/// Carries out edits in one transaction, without those that are refused.
fn edit_some<S: Alter + Drop>(
    alloc: Global,
    store: Store<S>,
    edits: &[Edit],
) -> Result<Store<S>, (StoreError, Store<S>)> {
    let mut transaction = store.into_transaction()?;
    for edit in edits {
        let _ = transaction.edit(alloc, edit);
    }
    transaction.commit()
}

#[test]
fn passes_over_a_refused_edit(rt: HostRuntime) {
    let store = store_of(&rt, &[false, false]);
    let first = Call::Insert("t", &[Value::Int(1), Value::Null]);
    let other = Call::Insert("t", &[Value::Int(2), Value::Null]);
    let edits = [
        edit_of(&rt, first),
        edit_of(&rt, first),
        edit_of(&rt, other),
    ];
    match edit_some(rt.alloc(), store, &edits) {
        Ok(mut store) => {
            assert!(rt; rows_of(&rt, &mut store).len() == 2);
            end(store);
        }
        Err((error, _)) => panic!(rt; "refused: {error}"),
    }
}

/// Applies a file, with each row in the way replaced where no column refuses it, and returns the report.
fn replay<S: Alter>(
    alloc: Global,
    store: &mut Store<S>,
    file: &[u8],
) -> Result<Report, ApplyFault> {
    let policy = Policy {
        on_data: Choice::Replace,
        on_notfound: Choice::Omit,
        on_conflict: Choice::Replace,
        on_constraint: Choice::Omit,
    };
    let handler = |conflict: &Conflict| policy.choose(conflict);
    apply(alloc, store, file, Noop::Report, &handler)
}

#[test]
fn replays_files(rt: HostRuntime) {
    let mut store = store_of(&rt, &[false, false]);
    for (file, count) in [(INSERT, 1), (INSERT, 1), (DELETE, 1), (DELETE, 0)] {
        let report = replay(rt.alloc(), &mut store, file).expect(&rt, "no refusal");
        assert!(rt; report.written.len() == count);
    }
    end(store);
}

/// Applies files in one transaction, and reverts each that has a conflict.
fn toggle<S: Alter + Drop>(
    alloc: Global,
    store: Store<S>,
    files: &[&[u8]],
) -> Result<Store<S>, (StoreError, Store<S>)> {
    let handler = |_: &Conflict| Choice::Abort;
    let mut transaction = store.into_transaction()?;
    for file in files {
        let report = apply_in_transaction(alloc, &mut transaction, file, Noop::Report, &handler);
        if report.is_err() {
            let _ = revert_in_transaction(alloc, &mut transaction, file);
        }
    }
    transaction.commit()
}

#[test]
fn toggles_a_row(rt: HostRuntime) {
    for (files, count) in [
        ([INSERT].as_slice(), 1),
        (&[INSERT, INSERT], 0),
        (&[INSERT, INSERT, INSERT], 1),
    ] {
        match toggle(rt.alloc(), store_of(&rt, &[false, false]), files) {
            Ok(mut store) => {
                assert!(rt; rows_of(&rt, &mut store).len() == count);
                end(store);
            }
            Err((error, _)) => panic!(rt; "refused: {error}"),
        }
    }
}

/// Carries out edits in a transaction, and returns the file of the net changeset of the attached
/// tables.
fn record<S: Alter + Drop>(
    alloc: Global,
    transaction: &mut Transaction<S>,
    session: &mut Session,
    edits: &[Edit],
) -> Result<Vec<u8>, SessionFault> {
    for edit in edits {
        session.edit_in_transaction(alloc, transaction, edit)?;
    }
    let changeset = session.changeset_in_transaction(alloc, transaction)?;
    Ok(write(alloc, &changeset)?)
}

/// Inserts (1, 'x') in a transaction, and returns whether the session has the file of that.
fn records_an_insert(
    rt: &(impl Abort + AllocGlobal),
    transaction: &mut Transaction<MemStore>,
    session: &mut Session,
) -> bool {
    let edits = [edit_of(rt, Call::Insert("t", &[Value::Int(1), Value::Text("x")]))];
    let file = record(rt.alloc(), transaction, session, &edits);
    file.expect(rt, "no refusal").as_slice() == INSERT
}

/// Reverts the insertion in a transaction, and returns the number of bytes of the session's file.
fn reverts_an_insert(
    rt: &(impl Abort + AllocGlobal),
    transaction: &mut Transaction<MemStore>,
    session: &mut Session,
) -> usize {
    let reverted = session.revert_in_transaction(rt.alloc(), transaction, INSERT);
    assert!(rt; reverted.expect(rt, "no refusal").written.len() == 1);
    let file = record(rt.alloc(), transaction, session, &[]);
    file.expect(rt, "no refusal").len()
}

#[test]
fn records_a_transaction(rt: HostRuntime) {
    let (store, mut session) = attached(&rt);
    let mut transaction = begun(&rt, store);
    assert!(rt; records_an_insert(&rt, &mut transaction, &mut session));
    assert!(rt; reverts_an_insert(&rt, &mut transaction, &mut session) == 0);
    end(transaction.roll_back());
}

/// Commits a transaction that one session noted, and has another session note it too. If a call is
/// refused, that session is as it was, and the store as when the transaction began.
fn commit_noted<S: Alter + Drop>(
    alloc: Global,
    session: Session,
    during: &Session,
    transaction: Transaction<S>,
) -> Result<(Session, Store<S>), (SessionFault, Session, Store<S>)> {
    match session.merge(alloc, during) {
        Ok(merged) => match transaction.commit() {
            Ok(store) => Ok((merged.keep(), store)),
            Err((error, store)) => Err((SessionFault::from(error), merged.forget(), store)),
        },
        Err((fault, session)) => Err((fault, session, transaction.roll_back())),
    }
}

#[test]
fn merges_what_a_transaction_noted(rt: HostRuntime) {
    let (store, session) = attached(&rt);
    let mut during = session.unwritten(rt.alloc()).expect(&rt, "memory");
    let mut transaction = begun(&rt, store);
    assert!(rt; records_an_insert(&rt, &mut transaction, &mut during));
    match commit_noted(rt.alloc(), session, &during, transaction) {
        Ok((session, mut store)) => {
            assert!(rt; undone(&rt, &session, &mut store) == 1);
            end(store);
        }
        Err(_) => panic!(rt; "refused"),
    }
}

#[test]
fn forgets_what_a_transaction_noted(rt: HostRuntime) {
    let (store, session) = attached(&rt);
    let mut during = session.unwritten(rt.alloc()).expect(&rt, "memory");
    let mut transaction = begun(&rt, store);
    assert!(rt; records_an_insert(&rt, &mut transaction, &mut during));
    end(transaction.roll_back());
    match session.merge(rt.alloc(), &during) {
        Ok(merged) => assert!(rt; merged.forget().is_empty()),
        Err(_) => panic!(rt; "refused"),
    }
}

/// Carries out edits, or undoes all that the session noted where one of them is refused.
fn edit_all<S: Alter>(
    alloc: Global,
    session: &mut Session,
    store: &mut Store<S>,
    edits: &[Edit],
) -> Result<(), SessionFault> {
    for edit in edits {
        if let Err(fault) = session.edit(alloc, store, edit) {
            session.undo(alloc, store)?;
            return Err(fault);
        }
    }
    Ok(())
}

#[test]
fn undoes_what_a_refused_edit_follows(rt: HostRuntime) {
    let mut store = store_of(&rt, &[false, false]);
    let mut session = Session::new(rt.alloc());
    session
        .attach(rt.alloc(), &mut store, "t")
        .expect(&rt, "a table");
    let call = Call::Insert("t", &[Value::Int(1), Value::Null]);
    let edits = [edit_of(&rt, call), edit_of(&rt, call)];
    let answer = edit_all(rt.alloc(), &mut session, &mut store, &edits);
    assert!(rt; matches!(answer, Err(SessionFault::Store(StoreError::KeyTaken))));
    assert!(rt; rows_of(&rt, &mut store).is_empty());
    end(store);
}

/// Returns what an apply reports after an edit, and restores the rows of the table. The rows of other
/// tables stay as the edit and the file left them. If a call is refused, what was done before it
/// remains.
fn rehearse<S: Alter>(
    alloc: Global,
    store: &mut Store<S>,
    table: &str,
    edit: &Edit,
    file: &[u8],
) -> Result<Report, SessionFault>
    ensures { HasCleanDisk (state S.Store store.new) → OnOk result
        (rows_at (tables_in (state S.Store store.new).now) table.now
        ≡ rows_at (tables_in (state S.Store store.old).now) table.now) }
{
    let mut session = Session::new(alloc);
    session.attach(alloc, store, table)?;
    session.edit(alloc, store, edit)?;
    let report = session.apply_recorded(alloc, store, file, Noop::Report, &|_| Choice::Omit)?;
    session.undo(alloc, store)?;
    runs_law();
    Ok(report)
}

#[test]
fn rehearses_an_apply(rt: HostRuntime) {
    let mut store = store_of(&rt, &[false, false]);
    let edit = edit_of(&rt, Call::Insert("t", &[Value::Int(1), Value::Text("x")]));
    let report = rehearse(rt.alloc(), &mut store, "t", &edit, UPDATE).expect(&rt, "no refusal");
    assert!(rt; report.written.len() == 1);
    assert!(rt; rows_of(&rt, &mut store).is_empty());
    end(store);
}
