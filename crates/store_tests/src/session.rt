//! Sessions: tables that are attached, changesets, undos, and stores that are not theirs.

use crate::rows::{Call, edit_of, end, names, rows_of, store_of};
use crate::{INSERT, UPDATE};
use cs_apply::{Choice, Noop};
use cs_session::{Session, SessionFault};
use cs_store::{Store, Transaction};
use cs_value::{Fault, Value};
use cs_wire::write;
use sqlite::{Alter, MemStore};
use std::process::Abort;

/// Returns the code of a refusal, or 0.
fn code_of<T: Drop, E: Fault + Drop>(answer: Result<T, E>) -> u8 {
    match answer {
        Ok(_) => 0,
        Err(fault) => fault.code(),
    }
}

/// Returns a store with t, and a session to which t is attached.
pub(crate) fn attached(rt: &(impl Abort + AllocGlobal)) -> (Store<MemStore>, Session) {
    let mut store = store_of(rt, &[false, false]);
    let mut session = Session::new(rt.alloc());
    let answer = session.attach(rt.alloc(), &mut store, "t");
    answer.expect(rt, "a table");
    (store, session)
}

/// Returns a session with t of a store that has ended.
fn session_alone(rt: &(impl Abort + AllocGlobal)) -> Session {
    let (store, session) = attached(rt);
    end(store);
    session
}

/// Returns a transaction of a store.
pub(crate) fn begun(rt: &impl Abort, store: Store<MemStore>) -> Transaction<MemStore> {
    match store.into_transaction() {
        Ok(transaction) => transaction,
        Err(_) => panic!(rt; "refused"),
    }
}

/// Returns the number of keys that an undo writes.
pub(crate) fn undone(
    rt: &(impl Abort + AllocGlobal),
    session: &Session,
    store: &mut Store<MemStore>,
) -> usize {
    let undone = session.undo(rt.alloc(), store).expect(rt, "no refusal");
    undone.written.len()
}

/// Has a session carry out an edit, and returns the code of the refusal, or 0.
fn edited<S: Alter>(
    rt: &(impl Abort + AllocGlobal),
    session: &mut Session,
    store: &mut Store<S>,
    call: Call,
) -> u8 {
    code_of(session.edit(rt.alloc(), store, &edit_of(rt, call)))
}

/// A store without t, with tables t of other columns, another key or other rules, and with t: the name of the table,
/// its second column, its key, the columns that refuse NULL, and the code that a session with t returns.
const OTHERS: &[(&str, &str, &[bool], &[bool], u8)] = &[
    ("u", "b", &[true, false], &[false, false], 51),
    ("t", "c", &[true, false], &[false, false], 51),
    ("t", "b", &[false, true], &[false, false], 51),
    ("t", "b", &[true, true], &[false, false], 51),
    ("t", "b", &[true, false], &[false, true], 51),
    ("t", "b", &[true, false], &[true, false], 0),
    ("t", "b", &[true, false], &[false, false], 0),
];

/// Returns a store with one table, whose first column is a.
fn store_with(
    rt: &(impl Abort + AllocGlobal),
    name: &str,
    second: &str,
    keys: &[bool],
    refuses: &[bool],
) -> Store<MemStore> {
    let mut store = Store::new_memory(rt.alloc()).expect(rt, "a store");
    let columns = names(rt, "a", second);
    store
        .declare(rt.alloc(), name, &columns, keys, refuses)
        .expect(rt, "a table");
    store
}

/// Asserts the code that a session returns for its changeset, an undo and an edit of t, which is refused for its NULL
/// too where the store is refused.
fn expect_code<S: Alter>(
    rt: &(impl Abort + AllocGlobal),
    session: &mut Session,
    store: &mut Store<S>,
    code: u8,
) {
    assert!(rt; code_of(session.changeset(rt.alloc(), store)) == code);
    let call = if code == 0 {
        Call::Insert("t", &[Value::Int(1), Value::Text("x")])
    } else {
        Call::Insert("t", &[Value::Int(1), Value::Null])
    };
    assert!(rt; edited(rt, session, store, call) == code);
    assert!(rt; code_of(session.undo(rt.alloc(), store)) == code);
}

#[test]
fn refuses_other_stores(rt: HostRuntime) {
    let mut session = session_alone(&rt);
    for (name, second, keys, refuses, code) in OTHERS {
        let mut store = store_with(&rt, name, second, keys, refuses);
        expect_code(&rt, &mut session, &mut store, *code);
        end(store);
    }
}

#[test]
fn attaches_a_table_once(rt: HostRuntime) {
    let mut session = session_alone(&rt);
    let mut store = store_with(&rt, "v", "b", &[true, false], &[false, false]);
    for (name, code) in [("t", 50), ("u", 31), ("v", 0), ("v", 50), ("", 31)] {
        let answer = session.attach(rt.alloc(), &mut store, name);
        assert!(rt; code_of(answer) == code, "of {name}");
    }
    end(store);
}

/// An edit in a session, the code that it returns, and the changeset of the session after it.
type Step = (Call, u8, &'static [u8]);

/// The INSERT of (1, 'y') into t.
const OTHER_INSERT: &[u8] =
    b"T\x02\x01\x00t\x00\x12\x00\x01\x00\x00\x00\x00\x00\x00\x00\x01\x03\x01y";

/// The DELETE of (1, 'x') from t and the INSERT of (2, 'x').
const MOVED: &[u8] = b"T\x02\x01\x00t\x00\
\x09\x00\x01\x00\x00\x00\x00\x00\x00\x00\x01\x03\x01x\
\x12\x00\x01\x00\x00\x00\x00\x00\x00\x00\x02\x03\x01x";

/// These, and the INSERT of (3, 'z').
const MOVED_AND_INSERTED: &[u8] = b"T\x02\x01\x00t\x00\
\x09\x00\x01\x00\x00\x00\x00\x00\x00\x00\x01\x03\x01x\
\x12\x00\x01\x00\x00\x00\x00\x00\x00\x00\x02\x03\x01x\
\x12\x00\x01\x00\x00\x00\x00\x00\x00\x00\x03\x03\x01z";

/// Edits of t without rows, and of t with the row (1, 'x'), in turn.
const FROM_NONE: &[Step] = &[
    (
        Call::Insert("t", &[Value::Int(1), Value::Text("x")]),
        0,
        INSERT,
    ),
    (
        Call::Update("t", 1, &[Value::Int(1), Value::Text("y")]),
        0,
        OTHER_INSERT,
    ),
    (Call::Delete("t", 1), 0, b""),
];

const FROM_ONE: &[Step] = &[
    (
        Call::Update("t", 1, &[Value::Int(1), Value::Text("y")]),
        0,
        UPDATE,
    ),
    (
        Call::Update("t", 1, &[Value::Int(1), Value::Text("x")]),
        0,
        b"",
    ),
    (
        Call::Update("t", 1, &[Value::Int(2), Value::Text("x")]),
        0,
        MOVED,
    ),
    (
        Call::Insert("t", &[Value::Int(3), Value::Text("z")]),
        0,
        MOVED_AND_INSERTED,
    ),
    (
        Call::Update("t", 2, &[Value::Int(3), Value::Text("x")]),
        33,
        MOVED_AND_INSERTED,
    ),
];

/// Whether the changeset of a session is written with these bytes.
fn has_changes<S: Alter>(
    rt: &(impl Abort + AllocGlobal),
    session: &Session,
    store: &mut Store<S>,
    file: &[u8],
) -> bool {
    let changeset = session
        .changeset(rt.alloc(), store)
        .expect(rt, "a changeset");
    let bytes = write(rt.alloc(), &changeset).expect(rt, "memory");
    bytes.as_slice() == file
}

/// Returns the number of rows that an undo writes.
fn undo<S: Alter>(
    rt: &(impl Abort + AllocGlobal),
    session: &Session,
    store: &mut Store<S>,
) -> usize {
    let report = session.undo(rt.alloc(), store).expect(rt, "no refusal");
    assert!(rt; report.is_clean() && report.skipped.is_empty());
    report.written.len()
}

/// Asserts what a session with t has noted after each edit, and how many rows its undos write.
fn expect_changes<S: Alter>(
    rt: &(impl Abort + AllocGlobal),
    store: &mut Store<S>,
    steps: &[Step],
    count: usize,
) {
    let mut session = Session::new(rt.alloc());
    session.attach(rt.alloc(), store, "t").expect(rt, "a table");
    assert!(rt; session.is_empty() && undo(rt, &session, store) == 0);
    for (place, step) in steps.iter().enumerate() {
        let (call, code, file) = *step;
        assert!(rt; edited(rt, &mut session, store, call) == code, "at {place}");
        assert!(rt; !session.is_empty(), "at {place}");
        assert!(rt; has_changes(rt, &session, store, file), "at {place}");
    }
    assert!(rt; undo(rt, &session, store) == count);
    assert!(rt; undo(rt, &session, store) == 0);
    assert!(rt; has_changes(rt, &session, store, b""));
}

#[test]
fn writes_and_undoes_what_was_noted(rt: HostRuntime) {
    let mut store = store_of(&rt, &[false, false]);
    expect_changes(&rt, &mut store, FROM_NONE, 0);
    let call = Call::Insert("t", &[Value::Int(1), Value::Text("x")]);
    assert!(rt; code_of(store.edit(rt.alloc(), &edit_of(&rt, call))) == 0);
    expect_changes(&rt, &mut store, FROM_ONE, 3);
    assert!(rt; rows_of(&rt, &mut store).len() == 1);
    end(store);
}

#[test]
fn names_refusals_of_sessions(rt: HostRuntime) {
    let (twice, wrong) = (SessionFault::AlreadyAttached, SessionFault::WrongStore);
    assert!(rt; twice.class() == 1 && twice.name() == "AlreadyAttached");
    assert!(rt; wrong.class() == 1 && wrong.name() == "WrongStore");
}

/// Applies the INSERT in a transaction, and returns the store with it.
fn applied(
    rt: &(impl Abort + AllocGlobal),
    store: Store<MemStore>,
    session: &mut Session,
) -> Store<MemStore> {
    let mut transaction = begun(rt, store);
    let (rows, noop) = (&mut transaction, Noop::Report);
    let applied = session.apply_in_transaction(rt.alloc(), rows, INSERT, noop, &|_| Choice::Abort);
    assert!(rt; applied.expect(rt, "no refusal").written.len() == 1);
    match transaction.commit() {
        Ok(store) => store,
        Err(_) => panic!(rt; "refused"),
    }
}

#[test]
fn undoes_what_a_transaction_applied(rt: HostRuntime) {
    let (store, mut session) = attached(&rt);
    let mut store = applied(&rt, store, &mut session);
    let reverted = session.revert(rt.alloc(), &mut store, INSERT);
    assert!(rt; reverted.expect(&rt, "no refusal").written.len() == 1);
    assert!(rt; undone(&rt, &session, &mut store) == 0);
    end(store);
}
