//! The table of a history, and its rows.
ghost use Rattle.std.specs.Prelude.{◌≡◌, ◌↔◌, Ok, IfOk, IfErr, IsTrue, is_ok, map, string_bytes};
ghost use Rattle.sqlite.specs.State.{HasCleanDisk};
ghost use Rattle.sqlite.specs.Held.{state};
ghost use Rattle.cs_value.specs.State.{schema_at};
ghost use Rattle.cs_rows.specs.Editing.{Declares};
ghost use Rattle.cs_store.specs.Store.{tables_in};
ghost use Rattle.cs_history.specs.declared.calling.HistoryCall.TheVariants.{Open as OpenCall};
ghost use Rattle.cs_history.specs.declared.fault.HistoryFault.TheVariants.{NotHistory as NotAHistory};
ghost use Rattle.cs_history.specs.Calls.{IsForeign};
ghost use Rattle.cs_history.specs.Faults.{IsOther, IsTold};
ghost use Rattle.cs_history.specs.Carrying.{Works};
ghost use Rattle.cs_history.specs.Stored.{IsHistory, Opens, history_schema};

use crate::fault::HistoryFault;
use cs_rows::Schema;
use cs_store::Transaction;
use sqlite::Alter;
use std::alloc::Global;

/// The flags of the columns: the first one is the key.
pub(crate) const FLAGS: [u8; 3] = [1, 0, 0];

/// Declares the table of a history if no table has the name.
///
/// The columns are `action`, which is the key and has an integer, `label`, which has a text, and `changeset`, which has
/// the file of a changeset as a blob. None takes NULL. The number of an action that is done is below zero.
pub(crate) fn open_table<S: Alter + Drop>(
    alloc: Global,
    transaction: &mut Transaction<S>,
    name: &str,
) -> Result<(), HistoryFault>
    ensures works { Works (λ _ old new. Opens name.now old new) (state S.Store transaction.old)
        (state S.Store transaction.new) result }
    ensures refused { HasCleanDisk (state S.Store transaction.new)
        → IsTrue (state S.Store transaction.old).in_transaction → IfErr result (IsTold ⊥ ⊥
        (IsForeign OpenCall name.now (tables_in (state S.Store transaction.old).now))) }
{
    match find_schema(alloc, transaction, name)? {
        Some(schema) => check_schema(&schema),
        None => declare_table(alloc, transaction, name),
    }
}

/// Checks that the table of a name is a history.
pub(crate) fn check_table<S: Alter + Drop>(
    alloc: Global,
    transaction: &mut Transaction<S>,
    name: &str,
) -> Result<(), HistoryFault>
    ensures works { Works (λ _ old new. (new ≡ old) × IsHistory old name.now) (state S.Store transaction.old)
        (state S.Store transaction.new) result }
    ensures refused { HasCleanDisk (state S.Store transaction.new)
        → IsTrue (state S.Store transaction.old).in_transaction → IfErr result (IsTold ⊥ ⊥
        (¬ IsHistory (tables_in (state S.Store transaction.old).now) name.now)) }
{
    match find_schema(alloc, transaction, name)? {
        Some(schema) => check_schema(&schema),
        None => Err(HistoryFault::NotHistory),
    }
}

/// Returns the schema of a table, if there is one.
fn find_schema<S: Alter + Drop>(
    alloc: Global,
    transaction: &mut Transaction<S>,
    name: &str,
) -> Result<Option<Schema>, HistoryFault>
    ensures works { Works (λ o old new. (new ≡ old) × (o ≡ schema_at old name.now)) (state S.Store transaction.old)
        (state S.Store transaction.new) result }
    ensures named { IfErr result IsOther }
{
    Ok(transaction.schema(alloc, name)?)
}

/// Checks that a schema is that of a history.
pub(crate) fn check_schema(schema: &Schema) -> Result<(), HistoryFault>
    ensures checked { IsTrue (is_ok result) ↔ (schema.now ≡ history_schema) }
    ensures named { IfErr result (λ e. e ≡ NotAHistory) }
{
    if is_history(schema) {
        Ok(())
    } else {
        Err(HistoryFault::NotHistory)
    }
}

/// Returns whether a schema is that of a history.
pub(crate) fn is_history(schema: &Schema) -> bool
    ensures { IsTrue result ↔ (schema.now ≡ history_schema) }
{
    are_names(schema.columns())
        && schema.flags() == &FLAGS[..]
        && schema.refuses() == &[true, true, true][..]
}

/// Returns whether these are the names of the columns of a history.
fn are_names(columns: &[String]) -> bool
    ensures { IsTrue result ↔ (map string_bytes columns.now ≡ history_schema.columns) }
{
    let [action, label, changeset] = columns else {
        return false;
    };
    if action.as_str() != "action" {
        return false;
    }
    if label.as_str() != "label" {
        return false;
    }
    changeset.as_str() == "changeset"
}

/// Declares the table of a history, where no table has the name.
fn declare_table<S: Alter + Drop>(
    alloc: Global,
    transaction: &mut Transaction<S>,
    name: &str,
) -> Result<(), HistoryFault>
    ensures works { Works (λ _ old new. Declares old name.now history_schema (Ok new)) (state S.Store transaction.old)
        (state S.Store transaction.new) result }
    ensures named { IfErr result IsOther }
{
    let columns = column_names(alloc)?;
    transaction.declare(
        alloc,
        name,
        &columns,
        &[true, false, false],
        &[true, true, true],
    )?;
    Ok(())
}

/// Returns the names of the columns of a history.
fn column_names(alloc: Global) -> Result<Vec<String>, HistoryFault>
    ensures made { IfOk result (λ names. map string_bytes names.items ≡ history_schema.columns) }
    ensures named { IfErr result IsOther }
{
    let mut names = Vec::new(alloc);
    names.push(String::from_str(alloc, "action")?)?;
    names.push(String::from_str(alloc, "label")?)?;
    names.push(String::from_str(alloc, "changeset")?)?;
    Ok(names)
}
