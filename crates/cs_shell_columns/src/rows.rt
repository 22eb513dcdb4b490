//! The row that conditions name, and what assignments make of a row.
ghost use Rattle.std.specs.Prelude.{◌≡◌, IfOk, map, filter_map};
ghost use Rattle.std.specs.List.{list_any};
ghost use Rattle.cs_shell_grammar.specs.Commands.{assignment_of};
ghost use Rattle.cs_shell_columns.specs.Columns.{key_names};
ghost use Rattle.cs_shell_columns.specs.Rows.{assigned, with_assigned, is_null, named_key as key_that_is_named};
ghost use Rattle.cs_shell_columns.specs.Names.{HasAssigned};

use crate::names::names_of_key;
use cs_rows::Schema;
use cs_shell_grammar::Assignment;
use cs_value::{Key, NoMemory, OwnedValue, Row};
use std::alloc::Global;
use std::collections::BTreeMap;

/// The key that conditions name, and none where one of their values is NULL.
pub fn named_key(
    alloc: Global,
    schema: &Schema,
    conditions: &[Assignment],
) -> Result<Option<Key>, NoMemory>
    ensures { IfOk result (λ key. key ≡ key_that_is_named schema.now (map assignment_of conditions.now)) }
{
    if has_null(conditions) {
        return Ok(None);
    }
    Ok(Some(Key::from_values(alloc, &key_values(alloc, schema, conditions)?)?))
}

/// The row with the values that are assigned in their columns.
pub fn assign(
    alloc: Global,
    schema: &Schema,
    assignments: &[Assignment],
    row: &Row,
) -> Result<Row, NoMemory>
    ensures { IfOk result (λ made. made
        ≡ with_assigned (map assignment_of assignments.now) schema.now.columns row.now) }
{
    let assigned = values_by_column(alloc, assignments)?;
    let mut values = Vec::new(alloc);
    for (column, value) in schema.columns().iter().zip(row.values()) {
        let value = assigned.get(column.as_str()).copied().unwrap_or(value);
        values.push(value.copy(alloc)?)?;
    }
    Ok(Row::new(values))
}

/// Whether one of the values is NULL.
fn has_null(conditions: &[Assignment]) -> bool
    ensures { result ≡ list_any (λ condition. is_null condition.value) conditions.now }
{
    conditions
        .iter()
        .any(|condition| matches!(condition.value, OwnedValue::Null))
}

/// The values that the key's columns have under conditions, in column order; none of a column that no
/// condition is of.
fn key_values(
    alloc: Global,
    schema: &Schema,
    conditions: &[Assignment],
) -> Result<Vec<OwnedValue>, NoMemory>
    ensures { IfOk result (λ values. values.items
        ≡ filter_map (assigned (map assignment_of conditions.now)) (key_names schema.now)) }
{
    let assigned = values_by_column(alloc, conditions)?;
    let names = names_of_key(alloc, schema)?;
    let mut values = Vec::new(alloc);
    for name in &names {
        let Some(value) = assigned.get(*name) else {
            continue;
        };
        values.push(value.copy(alloc)?)?;
    }
    Ok(values)
}

/// The values of assignments by their columns. Of two for one column the first counts.
fn values_by_column(
    alloc: Global,
    assignments: &[Assignment],
) -> Result<BTreeMap<&str, &OwnedValue>, NoMemory>
    ensures { IfOk result (HasAssigned (map assignment_of assignments.now)) }
{
    let mut values = BTreeMap::new(alloc);
    for assignment in assignments.iter().rev() {
        values.insert(assignment.column.as_str(), &assignment.value)?;
    }
    Ok(values)
}
