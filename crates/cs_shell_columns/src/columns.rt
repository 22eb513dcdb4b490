//! The columns that statements name.
ghost use Rattle.std.specs.Prelude.{◌≡◌, IfOk, IfErr, OnOk, map, not, string_bytes};
ghost use Rattle.cs_value.specs.Refusals.{Refuses};
ghost use Rattle.cs_shell_grammar.specs.Commands.{assignment_of};
ghost use Rattle.cs_shell_columns.specs.Columns.{AreColumns, NamesKey, columns_of, marks_of};
ghost use Rattle.cs_shell_columns.specs.Names.{texts_of, has_name, HasOthers};

use crate::fault::{ColumnError, UnknownColumn};
use crate::names::{assigned_names, borrowed_names, name_set, names_of_key};
use cs_rows::Schema;
use cs_shell_grammar::Assignment;
use cs_value::OrNoMemory;
use std::alloc::{AllocError, Global};
use std::collections::BTreeSet;

/// For each column whether it is one of the key.
///
/// Refuses with [`UnknownColumn`] if a name of the key is that of no column, or is there twice.
pub fn key_marks(
    alloc: Global,
    columns: &[String],
    keys: &[String],
) -> Result<Vec<bool>, ColumnError>
    ensures marked { IfOk result (λ marks. marks.items
        ≡ marks_of (map string_bytes columns.now) (map string_bytes keys.now)) }
    ensures known { OnOk result (AreColumns (map string_bytes columns.now) (map string_bytes keys.now)) }
    ensures refused { IfErr result (Refuses (λ _.
        ¬ AreColumns (map string_bytes columns.now) (map string_bytes keys.now))) }
{
    let names = borrowed_names(alloc, columns)?;
    let others = without(alloc, &names, &borrowed_names(alloc, keys)?)?;
    Ok(missing(alloc, &names, &others)?)
}

/// Checks that the columns that assignments name are the table's, none of them twice.
///
/// Refuses with [`UnknownColumn`] where they are not.
pub fn check_assignments(
    alloc: Global,
    schema: &Schema,
    assignments: &[Assignment],
) -> Result<(), ColumnError>
    ensures known { OnOk result (AreColumns schema.now.columns (columns_of (map assignment_of assignments.now))) }
    ensures refused { IfErr result (Refuses (λ _.
        ¬ AreColumns schema.now.columns (columns_of (map assignment_of assignments.now)))) }
{
    let columns = borrowed_names(alloc, schema.columns())?;
    without(alloc, &columns, &assigned_names(alloc, assignments)?)?;
    Ok(())
}

/// Checks that conditions name a row: each column of the key once, and nothing else.
///
/// Refuses with [`UnknownColumn`] where they do not.
pub fn check_conditions(
    alloc: Global,
    schema: &Schema,
    conditions: &[Assignment],
) -> Result<(), ColumnError>
    ensures named { OnOk result (NamesKey schema.now (map assignment_of conditions.now)) }
    ensures refused { IfErr result (Refuses (λ _. ¬ NamesKey schema.now (map assignment_of conditions.now))) }
{
    let key = names_of_key(alloc, schema)?;
    let others = without(alloc, &key, &assigned_names(alloc, conditions)?)?;
    if others.is_empty() {
        Ok(())
    } else {
        Err(OrNoMemory::Fault(UnknownColumn))
    }
}

/// The columns that are none of the names. Refuses if a name is that of no column, or is there twice.
fn without<'a>(
    alloc: Global,
    columns: &[&'a str],
    names: &[&str],
) -> Result<BTreeSet<&'a str>, ColumnError>
    ensures others { IfOk result (HasOthers (texts_of columns.now) (texts_of names.now)) }
    ensures known { OnOk result (AreColumns (texts_of columns.now) (texts_of names.now)) }
    ensures refused { IfErr result (Refuses (λ _. ¬ AreColumns (texts_of columns.now) (texts_of names.now))) }
{
    let mut others = name_set(alloc, columns)?;
    for name in names {
        if !others.remove(*name) {
            return Err(OrNoMemory::Fault(UnknownColumn));
        }
    }
    Ok(others)
}

/// For each of the names whether the set does not have it.
fn missing(alloc: Global, names: &[&str], set: &BTreeSet<&str>) -> Result<Vec<bool>, AllocError>
    ensures { IfOk result (λ marks. marks.items ≡ map (λ name. not (has_name set.now name)) (texts_of names.now)) }
{
    let mut marks = Vec::new(alloc);
    for name in names {
        marks.push(!set.contains(*name))?;
    }
    Ok(marks)
}
