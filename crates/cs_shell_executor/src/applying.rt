//! Applies and reverts of files.
ghost use Rattle.std.specs.Prelude.{None, Some};
ghost use Rattle.sqlite.specs.Held.{state};
ghost use Rattle.cs_apply_engine.specs.declared.running.Direction.TheVariants.{Forward};
ghost use Rattle.cs_shell_replies.specs.Replies.{answer_of};
ghost use Rattle.cs_shell_executor.specs.LineAnswers.{AnswersApply, ApplyGives, ByKind, RevertGives};
ghost use Rattle.cs_shell_executor.specs.Works.{Works};

use cs_apply::{Conflict, Noop, Policy, apply_counted, revert};
use cs_session::Session;
use cs_shell_replies::{Refusal, Reply};
use cs_store::Store;
use sqlite::Alter;
use std::alloc::Global;

/// Applies a file, and notes what it writes.
fn apply_noted<S: Alter>(
    alloc: Global,
    store: &mut Store<S>,
    session: &mut Session,
    file: &[u8],
    policy: &Policy,
    noop: Noop,
) -> Result<Reply, Refusal>
    ensures { Works (state S.Store store.old) (state S.Store store.new) (Some session.old) (Some session.new)
        (λ old. ApplyGives old (ByKind policy.now.on_data policy.now.on_notfound policy.now.on_conflict
        policy.now.on_constraint) noop file.now Forward) (answer_of result) }
{
    store.database_law();
    let handler = |conflict: &Conflict| policy.choose(conflict);
    let report = session.apply_recorded(alloc, store, file, noop, &handler)?;
    Ok(Reply::Report(report.into_summary()))
}

/// Applies a file while no session is open.
pub fn apply_unnoted<S: Alter>(
    alloc: Global,
    store: &mut Store<S>,
    file: &[u8],
    policy: &Policy,
    noop: Noop,
) -> Result<Reply, Refusal>
    ensures works { Works (state S.Store store.old) (state S.Store store.new) None None
        (λ old. ApplyGives old (ByKind policy.now.on_data policy.now.on_notfound policy.now.on_conflict
        policy.now.on_constraint) noop file.now Forward) (answer_of result) }
    ensures named { AnswersApply (answer_of result) }
{
    store.database_law();
    let handler = |conflict: &Conflict| policy.choose(conflict);
    let summary = apply_counted(alloc, store, file, noop, &handler)?;
    Ok(Reply::Report(summary))
}

/// Applies a file. An open session notes it.
pub(crate) fn apply_file<S: Alter>(
    alloc: Global,
    store: &mut Store<S>,
    session: &mut Option<Session>,
    file: &[u8],
    policy: &Policy,
    noop: Noop,
) -> Result<Reply, Refusal>
    ensures { Works (state S.Store store.old) (state S.Store store.new) session.old session.new
        (λ old. ApplyGives old (ByKind policy.now.on_data policy.now.on_notfound policy.now.on_conflict
        policy.now.on_constraint) noop file.now Forward) (answer_of result) }
{
    match session {
        Some(session) => apply_noted(alloc, store, session, file, policy, noop),
        None => apply_unnoted(alloc, store, file, policy, noop),
    }
}

/// Applies the inverse of a file, and notes what it writes. It ends at the first conflict.
fn revert_noted<S: Alter>(
    alloc: Global,
    store: &mut Store<S>,
    session: &mut Session,
    file: &[u8],
) -> Result<Reply, Refusal>
    ensures { Works (state S.Store store.old) (state S.Store store.new) (Some session.old) (Some session.new)
        (λ old. RevertGives old file.now) (answer_of result) }
{
    store.database_law();
    let report = session.revert(alloc, store, file)?;
    Ok(Reply::Report(report.into_summary()))
}

/// Reverts a file while no session is open. It ends at the first conflict.
fn revert_unnoted<S: Alter>(
    alloc: Global,
    store: &mut Store<S>,
    file: &[u8],
) -> Result<Reply, Refusal>
    ensures { Works (state S.Store store.old) (state S.Store store.new) None None
        (λ old. RevertGives old file.now) (answer_of result) }
{
    store.database_law();
    let report = revert(alloc, store, file)?;
    Ok(Reply::Report(report.into_summary()))
}

/// Reverts a file. An open session notes it.
pub(crate) fn revert_file<S: Alter>(
    alloc: Global,
    store: &mut Store<S>,
    session: &mut Option<Session>,
    file: &[u8],
) -> Result<Reply, Refusal>
    ensures { Works (state S.Store store.old) (state S.Store store.new) session.old session.new
        (λ old. RevertGives old file.now) (answer_of result) }
{
    match session {
        Some(session) => revert_noted(alloc, store, session, file),
        None => revert_unnoted(alloc, store, file),
    }
}
