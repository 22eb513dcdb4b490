//! Calls of the session of a host. Each of them makes no transaction, but for an undo, which makes one.
ghost use Rattle.std.specs.Prelude.{◌≡◌, IfOk, IfErr};
ghost use Rattle.sqlite.specs.Held.{state};
ghost use Rattle.cs_calls_service.specs.declared.sessions.SessionCall.TheVariants.{Attach as AttachCall, Changeset as ChangesetCall};
ghost use Rattle.cs_calls_service.specs.Sessions.{CarriesSession, UndoesAlone, undone_answer};

use crate::refusal::{attach_refusal, session_refusal};
use cs_apply::Report;
use cs_calls_answers::{Answer, MetConflicts, Names, Refused, Reported};
use cs_calls_conversions::store_refusal;
use cs_calls_executor::bytes_of;
use cs_session::Session;
use cs_store::Store;
use cs_value::{Bytes, MAX_CONTENT_LEN, Text};
use cs_wire::write;
use sqlite::Alter;
use std::alloc::Global;

/// A call of the session of a host.
#[derive(Drop)]
pub enum SessionCall {
    /// Opens a session without tables.
    Open,
    /// Attaches a table.
    Attach { table: Text },
    /// Returns the file of the net changeset.
    Changeset,
    /// Says whether no key of the attached tables was written.
    IsEmpty,
    /// Closes the session.
    Close,
}

/// Attaches a table, and returns the bytes of the answer *done*.
fn attach<S: Alter>(
    alloc: Global,
    store: &mut Store<S>,
    session: &mut Session,
    table: &Text,
) -> Result<Vec<u8>, Refused>
    ensures { CarriesSession (AttachCall table.now) (Some session.old) (Some session.new)
        (state S.Store store.old) (state S.Store store.new) result }
{
    store.tables_law();
    let done = bytes_of(alloc, &Answer::Done)?;
    match session.attach(alloc, store, table.as_str()) {
        Ok(()) => Ok(done),
        Err(fault) => Err(attach_refusal(alloc, table, fault)),
    }
}

/// Returns the bytes of the answer that has the file of the net changeset.
fn changeset<S: Alter>(
    alloc: Global,
    store: &mut Store<S>,
    session: &Session,
) -> Result<Vec<u8>, Refused>
    ensures { CarriesSession ChangesetCall (Some session.now) (Some session.now)
        (state S.Store store.old) (state S.Store store.new) result }
{
    let changeset = match session.changeset(alloc, store) {
        Ok(changeset) => changeset,
        Err(fault) => return Err(session_refusal(fault)),
    };
    let file = write(alloc, &changeset)?;
    if file.len() > MAX_CONTENT_LEN {
        return Err(Refused::plain(94));
    }
    bytes_of(alloc, &Answer::Changeset(Bytes::new(file)))
}

/// Carries out a call of the session that is open.
fn carry_in_session<S: Alter>(
    alloc: Global,
    store: &mut Store<S>,
    session: Session,
    call: &SessionCall,
) -> (Option<Session>, Result<Vec<u8>, Refused>)
    ensures { CarriesSession call.now (Some session) result.0
        (state S.Store store.old) (state S.Store store.new) result.1 }
{
    match call {
        SessionCall::Open => (Some(session), Err(Refused::plain(65))),
        SessionCall::Attach { table } => {
            let mut session = session;
            let result = attach(alloc, store, &mut session, table);
            (Some(session), result)
        }
        SessionCall::Changeset => {
            let result = changeset(alloc, store, &session);
            (Some(session), result)
        }
        SessionCall::IsEmpty => {
            let result = bytes_of(alloc, &Answer::Flag(session.is_empty()));
            (Some(session), result)
        }
        SessionCall::Close => match bytes_of(alloc, &Answer::Done) {
            Ok(done) => (None, Ok(done)),
            Err(why) => (Some(session), Err(why)),
        },
    }
}

/// Carries out a call of the session.
pub(crate) fn carry_session<S: Alter>(
    alloc: Global,
    store: &mut Store<S>,
    session: Option<Session>,
    call: &SessionCall,
) -> (Option<Session>, Result<Vec<u8>, Refused>)
    ensures { CarriesSession call.now session result.0
        (state S.Store store.old) (state S.Store store.new) result.1 }
{
    if let Some(session) = session {
        return carry_in_session(alloc, store, session, call);
    }
    match call {
        SessionCall::Open => match bytes_of(alloc, &Answer::Done) {
            Ok(done) => (Some(Session::new(alloc)), Ok(done)),
            Err(why) => (None, Err(why)),
        },
        _ => (None, Err(Refused::plain(64))),
    }
}

/// Returns the answer of an undo.
fn undone(alloc: Global, report: &Report) -> Answer
    ensures { result ≡ undone_answer report.now }
{
    Answer::Report(Reported {
        written: report.written.len() as u64,
        ignored: 0,
        skipped: Names::new(Vec::new(alloc)),
        conflicts: MetConflicts::new(Vec::new(alloc)),
    })
}

/// Undoes what a session recorded, in a transaction of its own.
pub(crate) fn undo_alone<S: Alter + Drop>(
    alloc: Global,
    store: Store<S>,
    session: &Session,
) -> (Store<S>, Result<Vec<u8>, Refused>)
    ensures { UndoesAlone session.now (state S.Store store) (state S.Store result.0) result.1 }
{
    store.crash_law();
    let mut transaction = match store.into_transaction() {
        Ok(transaction) => transaction,
        Err((error, store)) => return (store, Err(store_refusal(error))),
    };
    let report = match session.undo_in_transaction(alloc, &mut transaction) {
        Ok(report) => report,
        Err(fault) => return (transaction.roll_back(), Err(session_refusal(fault))),
    };
    let bytes = match bytes_of(alloc, &undone(alloc, &report)) {
        Ok(bytes) => bytes,
        Err(why) => return (transaction.roll_back(), Err(why)),
    };
    match transaction.commit() {
        Ok(store) => (store, Ok(bytes)),
        Err((error, store)) => (store, Err(store_refusal(error))),
    }
}
