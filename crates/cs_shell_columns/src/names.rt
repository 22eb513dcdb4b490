//! The names of columns, borrowed: those of lists, of assignments and of keys.
ghost use Rattle.std.specs.Prelude.{bytes_eq, ◌≡◌, ℕ, List, IfOk, map, string_bytes};
ghost use Rattle.std.specs.List.{list_any};
ghost use Rattle.cs_shell_grammar.specs.Commands.{assignment_of};
ghost use Rattle.cs_shell_columns.specs.Columns.{columns_of, key_names};
ghost use Rattle.cs_shell_columns.specs.Names.{texts_of, has_name};

use cs_rows::Schema;
use cs_shell_grammar::Assignment;
use cs_value::NoMemory;
use std::alloc::Global;
use std::collections::BTreeSet;

/// The names, in their order.
pub(crate) fn borrowed_names(alloc: Global, names: &[String]) -> Result<Vec<&str>, NoMemory>
    ensures { IfOk result (λ texts. texts_of texts.items ≡ map string_bytes names.now) }
{
    let mut texts = Vec::new(alloc);
    for name in names {
        texts.push(name.as_str())?;
    }
    Ok(texts)
}

/// The names of the columns that are assigned, in the order of the assignments.
pub(crate) fn assigned_names(
    alloc: Global,
    assignments: &[Assignment],
) -> Result<Vec<&str>, NoMemory>
    ensures { IfOk result (λ texts. texts_of texts.items ≡ columns_of (map assignment_of assignments.now)) }
{
    let mut texts = Vec::new(alloc);
    for assignment in assignments {
        texts.push(assignment.column.as_str())?;
    }
    Ok(texts)
}

/// The names of the key's columns, in column order.
pub(crate) fn names_of_key(alloc: Global, schema: &Schema) -> Result<Vec<&str>, NoMemory>
    ensures { IfOk result (λ texts. texts_of texts.items ≡ key_names schema.now) }
{
    let mut texts = Vec::new(alloc);
    for (flag, column) in schema.flags().iter().zip(schema.columns()) {
        if *flag == 0 {
            continue;
        }
        texts.push(column.as_str())?;
    }
    Ok(texts)
}

/// The names as a set.
pub(crate) fn name_set<'a>(alloc: Global, names: &[&'a str]) -> Result<BTreeSet<&'a str>, NoMemory>
    ensures { IfOk result (λ set. (name : List ℕ)
        → has_name set name ≡ list_any (bytes_eq name) (texts_of names.now)) }
{
    let mut set = BTreeSet::new(alloc);
    for name in names {
        set.insert(*name)?;
    }
    Ok(set)
}
