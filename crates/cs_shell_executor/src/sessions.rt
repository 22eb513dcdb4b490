//! What lines do with the session of a script.
ghost use Rattle.sqlite.specs.Held.{state};
ghost use Rattle.cs_value.specs.State.{State};
ghost use Rattle.cs_shell_replies.specs.Replies.{answer_of};
ghost use Rattle.cs_shell_executor.specs.LineAnswers.{WithSession, OpenGives, AttachGives, ChangesetGives};
ghost use Rattle.cs_shell_executor.specs.LineAnswers.{IsEmptyGives, UndoGives, CloseGives};
ghost use Rattle.cs_shell_executor.specs.ShellState.{SlotMap};
ghost use Rattle.cs_shell_executor.specs.Works.{IsHere, OrUnable, Works, WorksOn, seen};

use crate::slots::Slots;
use cs_session::Session;
use cs_shell_replies::{Refusal, Reply};
use cs_store::Store;
use cs_wire::{changeset_files_law, write};
use sqlite::Alter;
use std::alloc::Global;

/// Opens a session without tables.
pub(crate) fn open(alloc: Global, session: &mut Option<Session>) -> Result<Reply, Refusal>
    ensures gives { (tables : State) (slots : SlotMap) → OpenGives (seen tables slots session.old) (answer_of result)
        (seen tables slots session.new) }
    ensures here { (tables : State) → IsHere tables session.old → IsHere tables session.new }
{
    if session.is_some() {
        return Err(Refusal::SessionOpen);
    }
    *session = Some(Session::new(alloc));
    Ok(Reply::Silent)
}

/// Attaches a table.
pub(crate) fn attach<S: Alter>(
    alloc: Global,
    store: &mut Store<S>,
    session: &mut Option<Session>,
    table: &str,
) -> Result<Reply, Refusal>
    ensures { Works (state S.Store store.old) (state S.Store store.new) session.old session.new
        (λ old. WithSession old (AttachGives old table.now)) (answer_of result) }
{
    store.tables_law();
    let Some(session) = session else {
        return Err(Refusal::NoSession);
    };
    session.attach(alloc, store, table)?;
    Ok(Reply::Silent)
}

/// Puts the file of the net changeset into a slot.
pub(crate) fn changeset<S: Alter>(
    alloc: Global,
    store: &mut Store<S>,
    slots: &mut Slots,
    session: &Option<Session>,
    slot: &[u8],
) -> Result<Reply, Refusal>
    ensures { WorksOn (state S.Store store.old) (state S.Store store.new) slots.old slots.new session.now session.now
        (λ old. WithSession old (ChangesetGives old slot.now)) (answer_of result) }
{
    let Some(session) = session else {
        return Err(Refusal::NoSession);
    };
    session.notes_law();
    let file = write(alloc, &session.changeset(alloc, store)?)?;
    slots.insert(alloc, slot, file)?;
    Ok(Reply::Silent)
}

/// Returns `1` if no key was written, and else `0`.
pub(crate) fn is_empty(alloc: Global, session: &Option<Session>) -> Result<Reply, Refusal>
    ensures { (tables : State) (slots : SlotMap) → OrUnable (λ old. WithSession old (IsEmptyGives old))
        (seen tables slots session.now) (answer_of result) (seen tables slots session.now) }
{
    let Some(session) = session else {
        return Err(Refusal::NoSession);
    };
    let text = if session.is_empty() { "1" } else { "0" };
    Ok(Reply::Text(String::from_str(alloc, text)?))
}

/// Restores the rows of the attached tables.
pub(crate) fn undo<S: Alter>(
    alloc: Global,
    store: &mut Store<S>,
    session: &Option<Session>,
) -> Result<Reply, Refusal>
    ensures { Works (state S.Store store.old) (state S.Store store.new) session.now session.now
        (λ old. WithSession old (UndoGives old)) (answer_of result) }
{
    store.tables_law();
    store.database_law();
    changeset_files_law();
    let Some(session) = session else {
        return Err(Refusal::NoSession);
    };
    session.notes_law();
    let report = session.undo(alloc, store)?;
    Ok(Reply::Report(report.into_summary()))
}

/// Closes the session, and changes no row.
pub(crate) fn close(session: &mut Option<Session>) -> Result<Reply, Refusal>
    ensures gives { (tables : State) (slots : SlotMap) → WithSession (seen tables slots session.old)
        (CloseGives (seen tables slots session.old)) (answer_of result) (seen tables slots session.new) }
    ensures here { (tables : State) → IsHere tables session.new }
{
    match session.take() {
        Some(_) => Ok(Reply::Silent),
        None => Err(Refusal::NoSession),
    }
}
