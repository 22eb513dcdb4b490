//! What statements do with the tables of a store.
ghost use Rattle.std.specs.Prelude.{map, Option, None, Some, string_bytes};
ghost use Rattle.sqlite.specs.Held.{state};
ghost use Rattle.cs_store.specs.Editing.{edited, inserted};
ghost use Rattle.cs_session_notes.specs.FirstImages.{Notes};
ghost use Rattle.cs_shell_grammar.specs.Commands.{assignment_of};
ghost use Rattle.cs_shell_replies.specs.Replies.{answer_of};
ghost use Rattle.cs_shell_executor.specs.LineAnswers.{CreateGives, EditGives, UpdateGives, DeleteGives, SelectGives};
ghost use Rattle.cs_store.specs.Turns.{Reads};
ghost use Rattle.cs_shell_executor.specs.Works.{Works, Finds};

use cs_session::Session;
use cs_shell_columns::{assign, check_assignments, check_conditions, key_marks, named_key};
use cs_shell_grammar::Assignment;
use cs_shell_replies::{Refusal, Reply};
use cs_store::{Edit, Schema, Store, StoreError};
use cs_value::{Key, OwnedValue, Row};
use sqlite::Alter;
use std::alloc::Global;

/// A row that conditions name: the schema of its table, and its key.
#[derive(Drop)]
pub(crate) struct Target {
    schema: Schema,
    key: Key,
}

/// Declares a table.
pub(crate) fn create<S: Alter>(
    alloc: Global,
    store: &mut Store<S>,
    name: &str,
    columns: &[String],
    refuses: &[bool],
    keys: &[String],
) -> Result<Reply, Refusal>
    ensures { (session : Option Notes) → Works (state S.Store store.old) (state S.Store store.new) session session
        (λ old. CreateGives old name.now (map string_bytes columns.now) refuses.now (map string_bytes keys.now))
        (answer_of result) }
{
    store.database_law();
    let marks = key_marks(alloc, columns, keys)?;
    store.declare(alloc, name, columns, &marks, refuses)?;
    Ok(Reply::Silent)
}

/// Carries out an edit of rows, and notes it.
fn edit_noted<S: Alter>(
    alloc: Global,
    store: &mut Store<S>,
    session: &mut Session,
    edit: &Edit,
) -> Result<Reply, Refusal>
    ensures { Works (state S.Store store.old) (state S.Store store.new) (Some session.old) (Some session.new)
        (λ old. EditGives old (edited old.tables edit.now)) (answer_of result) }
{
    store.database_law();
    session.edit(alloc, store, edit)?;
    Ok(Reply::Silent)
}

/// Carries out an edit of rows while no session is open.
fn edit_unnoted<S: Alter>(
    alloc: Global,
    store: &mut Store<S>,
    edit: &Edit,
) -> Result<Reply, Refusal>
    ensures { Works (state S.Store store.old) (state S.Store store.new) None None
        (λ old. EditGives old (edited old.tables edit.now)) (answer_of result) }
{
    store.database_law();
    store.edit(alloc, edit)?;
    Ok(Reply::Silent)
}

/// Carries out an edit of rows. An open session notes it.
fn edit_row<S: Alter>(
    alloc: Global,
    store: &mut Store<S>,
    session: &mut Option<Session>,
    edit: &Edit,
) -> Result<Reply, Refusal>
    ensures { Works (state S.Store store.old) (state S.Store store.new) session.old session.new
        (λ old. EditGives old (edited old.tables edit.now)) (answer_of result) }
{
    match session {
        Some(session) => edit_noted(alloc, store, session, edit),
        None => edit_unnoted(alloc, store, edit),
    }
}

/// Inserts a row of these values.
pub(crate) fn insert<S: Alter>(
    alloc: Global,
    store: &mut Store<S>,
    session: &mut Option<Session>,
    table: String,
    values: Vec<OwnedValue>,
) -> Result<Reply, Refusal>
    ensures { Works (state S.Store store.old) (state S.Store store.new) session.old session.new
        (λ old. EditGives old (inserted old.tables (string_bytes table) values.items)) (answer_of result) }
{
    let row = Row::new(values);
    edit_row(alloc, store, session, &Edit::Insert { table, row })
}

/// Returns the row that conditions name, in which these columns are to be set. Fails in this order: the table does not
/// exist; a column does not exist; a value of the key is NULL.
fn find_row<S: Alter>(
    alloc: Global,
    store: &mut Store<S>,
    table: &str,
    sets: &[Assignment],
    conditions: &[Assignment],
) -> Result<Target, Refusal>
    ensures { Reads (state S.Store store.old) (state S.Store store.new)
        (Finds table.now (map assignment_of sets.now) (map assignment_of conditions.now) result) }
{
    let Some(schema) = store.schema(alloc, table)? else {
        return Err(Refusal::Store(StoreError::NoTable));
    };
    check_assignments(alloc, &schema, sets)?;
    check_conditions(alloc, &schema, conditions)?;
    match named_key(alloc, &schema, conditions)? {
        Some(key) => Ok(Target { schema, key }),
        None => Err(Refusal::Store(StoreError::NullInKey)),
    }
}

/// Sets columns of the row that conditions name.
pub(crate) fn update<S: Alter>(
    alloc: Global,
    store: &mut Store<S>,
    session: &mut Option<Session>,
    table: String,
    sets: &[Assignment],
    conditions: &[Assignment],
) -> Result<Reply, Refusal>
    ensures { Works (state S.Store store.old) (state S.Store store.new) session.old session.new
        (λ old. UpdateGives old (string_bytes table) (map assignment_of sets.now) (map assignment_of conditions.now))
        (answer_of result) }
{
    let Target { schema, key } = find_row(alloc, store, table.as_str(), sets, conditions)?;
    let Some(row) = store.get(alloc, table.as_str(), &key)? else {
        return Err(Refusal::Store(StoreError::NoRow));
    };
    let row = assign(alloc, &schema, sets, &row)?;
    edit_row(alloc, store, session, &Edit::Update { table, key, row })
}

/// Removes the row that conditions name.
pub(crate) fn delete<S: Alter>(
    alloc: Global,
    store: &mut Store<S>,
    session: &mut Option<Session>,
    table: String,
    conditions: &[Assignment],
) -> Result<Reply, Refusal>
    ensures { Works (state S.Store store.old) (state S.Store store.new) session.old session.new
        (λ old. DeleteGives old (string_bytes table) (map assignment_of conditions.now)) (answer_of result) }
{
    let Target { key, .. } = find_row(alloc, store, table.as_str(), &[], conditions)?;
    edit_row(alloc, store, session, &Edit::Delete { table, key })
}

/// Returns the rows of a table, by the bytes of their keys.
pub(crate) fn select<S: Alter>(
    alloc: Global,
    store: &mut Store<S>,
    table: &str,
) -> Result<Reply, Refusal>
    ensures { (session : Option Notes) → Works (state S.Store store.old) (state S.Store store.new) session session
        (λ old. SelectGives old table.now) (answer_of result) }
{
    Ok(Reply::Rows(store.rows(alloc, table)?))
}
