//! Calls on tables that are carried out, and noted in a session.
ghost use Rattle.std.specs.Prelude.{◌≡◌, ◌⊎◌, IfOk, IfErr, IsTrue, map};
ghost use Rattle.sqlite.specs.Held.{state};
ghost use Rattle.cs_rows.specs.Editing.{written_of};
ghost use Rattle.cs_session_notes.specs.FirstImages.{recorded};
ghost use Rattle.cs_session_notes.specs.Noting.{AreFormers};
ghost use Rattle.cs_calls_answers.specs.Refusals.{out_of_memory, plain_refusal};
ghost use Rattle.cs_calls_service.specs.Noting.{CarriesAlone, CarriesNoted, Works};

use crate::refusal::session_refusal;
use cs_calls_answers::Refused;
use cs_calls_conversions::store_refusal;
use cs_calls_executor::{Carried, TableCall, carry_out};
use cs_session::{MergedSession, Session};
use cs_store::{Store, Transaction};
use sqlite::Alter;
use std::alloc::Global;

/// The answer to a call that was carried out, and a session that has noted what it wrote, before it is known whether
/// that lasts.
#[derive(Drop)]
pub(crate) struct Noted {
    bytes: Vec<u8>,
    session: MergedSession,
}

/// Notes what a call wrote. After a refusal the session is as before.
fn note(alloc: Global, session: Session, carried: Carried) -> Result<Noted, (Refused, Session)>
    ensures bytes { IfOk result (λ noted. noted.bytes ≡ carried.bytes) }
    ensures noted { IfOk result (λ noted. noted.session
        ≡ record { kept = session; all = recorded session (map written_of carried.written.items) }) }
    ensures refused { IfErr result (λ e. (e.0 ≡ out_of_memory)
        ⊎ ((e.0 ≡ plain_refusal 37) × ¬ AreFormers session (map written_of carried.written.items))) }
    ensures same { IfErr result (λ e. e.1 ≡ session) }
{
    match session.note(alloc, &carried.written) {
        Ok(session) => Ok(Noted {
            bytes: carried.bytes,
            session,
        }),
        Err((fault, session)) => Err((session_refusal(fault), session)),
    }
}

/// Carries out a call on tables, and notes what it wrote. After a refusal the transaction may show what was written.
fn work<S: Alter + Drop>(
    alloc: Global,
    transaction: &mut Transaction<S>,
    session: Session,
    call: TableCall,
) -> Result<Noted, (Refused, Session)>
    ensures { Works call session (state S.Store transaction.old) (state S.Store transaction.new) result }
{
    match carry_out(alloc, transaction, call) {
        Ok(carried) => note(alloc, session, carried),
        Err(why) => Err((why, session)),
    }
}

/// Carries out a call on tables in a transaction, after a mark to which a refusal goes back, and notes what it wrote.
fn carry_marked<S: Alter + Drop>(
    alloc: Global,
    transaction: &mut Transaction<S>,
    session: Session,
    call: TableCall,
) -> (Session, Result<Vec<u8>, Refused>)
    ensures { IsTrue (state S.Store transaction.old).in_transaction
        → CarriesNoted call session result.0 (state S.Store transaction.old) (state S.Store transaction.new) result.1 }
{
    transaction.store_law();
    if let Err(error) = transaction.mark() {
        return (session, Err(store_refusal(error)));
    }
    match work(alloc, transaction, session, call) {
        Ok(noted) => match transaction.end_call(true) {
            Ok(()) => (noted.session.keep(), Ok(noted.bytes)),
            Err(error) => (noted.session.forget(), Err(store_refusal(error))),
        },
        Err((why, session)) => match transaction.end_call(false) {
            Ok(()) => (session, Err(why)),
            Err(error) => (session, Err(store_refusal(error))),
        },
    }
}

/// Carries out a call on tables in a transaction, and notes what it wrote in a session of the transaction. A session
/// without tables notes nothing, and needs no mark.
pub(crate) fn carry_noted<S: Alter + Drop>(
    alloc: Global,
    transaction: &mut Transaction<S>,
    session: Session,
    call: TableCall,
) -> (Session, Result<Vec<u8>, Refused>)
    ensures { CarriesNoted call session result.0
        (state S.Store transaction.old) (state S.Store transaction.new) result.1 }
{
    transaction.store_law();
    if transaction.has_ended() {
        return (session, Err(Refused::plain(97)));
    }
    if !session.has_no_tables() {
        return carry_marked(alloc, transaction, session, call);
    }
    match carry_out(alloc, transaction, call) {
        Ok(carried) => (session, Ok(carried.bytes)),
        Err(why) => (session, Err(why)),
    }
}

/// Carries out a call on tables in a transaction of its own, and notes what it wrote.
pub(crate) fn carry_out_alone<S: Alter + Drop>(
    alloc: Global,
    store: Store<S>,
    session: Session,
    call: TableCall,
) -> (Store<S>, Session, Result<Vec<u8>, Refused>)
    ensures { CarriesAlone call session result.1 (state S.Store store) (state S.Store result.0) result.2 }
{
    store.crash_law();
    let mut transaction = match store.into_transaction() {
        Ok(transaction) => transaction,
        Err((error, store)) => return (store, session, Err(store_refusal(error))),
    };
    let carried = match carry_out(alloc, &mut transaction, call) {
        Ok(carried) => carried,
        Err(why) => return (transaction.roll_back(), session, Err(why)),
    };
    let noted = match note(alloc, session, carried) {
        Ok(noted) => noted,
        Err((why, session)) => return (transaction.roll_back(), session, Err(why)),
    };
    match transaction.commit() {
        Ok(store) => (store, noted.session.keep(), Ok(noted.bytes)),
        Err((error, store)) => (store, noted.session.forget(), Err(store_refusal(error))),
    }
}
