//! The text as SQL statements.
ghost use Rattle.std.specs.Prelude.{◌≡◌, ◌<◌, ◌++◌, IfOk, length};
ghost use Rattle.std.specs.List.{list_any};
ghost use Rattle.cs_value.specs.Quoting.{quoted};
ghost use Rattle.cs_value.specs.Value.{value_of};
ghost use Rattle.cs_wire.specs.Entry.{before_image};
ghost use Rattle.cs_wire.specs.Items.{new_record};
ghost use Rattle.cs_file_texts.specs.Gathering.{Gathers};
ghost use Rattle.cs_file_texts.specs.Texts.{column_name, assignment, condition, assignments, by_index, statement};
ghost use Rattle.cs_file_texts.specs.Pieces.{TakesValue, is_defined, between_of, term_text, terms_text};
ghost use Rattle.cs_file_texts.specs.Pieces.{action_text, where_text};

use crate::fault::OutputFault;
use crate::gather::Gather;
use crate::texts::list::add_fields;
use crate::texts::literal::{add_literal, add_quoted};
use crate::told::Told;
use cs_value::{Field, Value};
use cs_wire::{EntryRef, Fields};
use itoa::Buffer;
use std::io::Write;

/// What a statement says of columns and their values.
#[derive(Clone, Copy)]
enum Terms {
    /// An assignment, in SET.
    Assignments,
    /// An equation, in WHERE.
    Conditions,
}

impl Terms {
    /// Returns the separator between two of them.
    fn between(self) -> &'static [u8]
        ensures { result.now ≡ between_of self }
    {
        match self {
            Terms::Assignments => b", ",
            Terms::Conditions => b" AND ",
        }
    }
}

/// Appends the name of the column at an index, and what follows it.
fn add_column<W: Write>(
    gather: &mut Gather,
    out: &mut Told<W>,
    index: usize,
    rest: &[u8],
) -> Result<(), OutputFault>
    requires { index < usize.MAX }
    ensures { Gathers W.contents result gather.old gather.new out.old out.new (column_name index ++ rest.now) }
{
    let mut buffer = Buffer::new();
    let number = buffer.format(index + 1);
    gather.add_all(out, &[b"c", number.as_bytes(), rest])
}

/// Appends the assignment of a value to the column at an index.
fn add_assignment<W: Write>(
    gather: &mut Gather,
    out: &mut Told<W>,
    index: usize,
    value: Value<'_>,
) -> Result<(), OutputFault>
    requires { index < usize.MAX }
    ensures { Gathers W.contents result gather.old gather.new out.old out.new (assignment index (value_of value.entry)) }
{
    add_column(gather, out, index, b"=")?;
    add_literal(gather, out, value)
}

/// Appends the equation of the column at an index and a value.
#[tactic(auto, unfolding(crate::specs::Texts::condition))]
fn add_condition<W: Write>(
    gather: &mut Gather,
    out: &mut Told<W>,
    index: usize,
    value: Value<'_>,
) -> Result<(), OutputFault>
    requires { index < usize.MAX }
    ensures { Gathers W.contents result gather.old gather.new out.old out.new (condition index (value_of value.entry)) }
{
    match value {
        Value::Null => add_column(gather, out, index, b" IS NULL"),
        _ => add_assignment(gather, out, index, value),
    }
}

/// Appends a lead, and what is said of the column at an index.
fn add_term<W: Write>(
    gather: &mut Gather,
    out: &mut Told<W>,
    terms: Terms,
    lead: &[u8],
    index: usize,
    value: Value<'_>,
) -> Result<(), OutputFault>
    requires { index < usize.MAX }
    ensures { Gathers W.contents result gather.old gather.new out.old out.new
        (lead.now ++ term_text terms index (value_of value.entry)) }
{
    gather.add(out, lead)?;
    match terms {
        Terms::Assignments => add_assignment(gather, out, index, value),
        Terms::Conditions => add_condition(gather, out, index, value),
    }
}

/// Returns the value of the next field, if it is defined.
fn next_value<'a>(fields: &mut Fields<'a>) -> Option<Value<'a>>
    requires { 0 < length fields.old }
    ensures { TakesValue fields.old result fields.new }
{
    match fields.next() {
        Some(Field::Defined(value)) => Some(value),
        _ => None,
    }
}

/// Appends what is said of the columns that have a value. Returns whether there is one.
fn add_terms<W: Write>(
    gather: &mut Gather,
    out: &mut Told<W>,
    terms: Terms,
    columns: usize,
    fields: Fields<'_>,
) -> Result<bool, OutputFault>
    requires { length fields ≡ columns }
    ensures text { Gathers W.contents result gather.old gather.new out.old out.new (terms_text terms fields.entry) }
    ensures some { IfOk result (λ some. some ≡ list_any is_defined fields.entry) }
{
    let mut some = false;
    let mut lead: &[u8] = b"";
    let mut left = fields;
    for index in 0..columns {
        let Some(value) = next_value(&mut left) else {
            continue;
        };
        add_term(gather, out, terms, lead, index, value)?;
        lead = terms.between();
        some = true;
    }
    Ok(some)
}

/// Appends the assignments of an update. If no column is modified, each is assigned its old value.
fn add_assignments<W: Write>(
    gather: &mut Gather,
    out: &mut Told<W>,
    columns: usize,
    old: Fields<'_>,
    new: Fields<'_>,
) -> Result<(), OutputFault>
    requires old { length old ≡ columns }
    requires new { length new ≡ columns }
    ensures { Gathers W.contents result gather.old gather.new out.old out.new
        (assignments old.entry (by_index assignment 0 new.entry)) }
{
    if add_terms(gather, out, Terms::Assignments, columns, new)? {
        return Ok(());
    }
    add_terms(gather, out, Terms::Assignments, columns, old)?;
    Ok(())
}

/// Appends words and the name of a table.
fn add_with_name<W: Write>(
    gather: &mut Gather,
    out: &mut Told<W>,
    words: &[u8],
    name: &str,
) -> Result<(), OutputFault>
    ensures { Gathers W.contents result gather.old gather.new out.old out.new (words.now ++ quoted 34 name.now) }
{
    gather.add(out, words)?;
    add_quoted(gather, out, b'"', name.as_bytes())
}

/// Appends the INSERT of a row into a table.
fn add_insert<W: Write>(
    gather: &mut Gather,
    out: &mut Told<W>,
    name: &str,
    row: Fields<'_>,
) -> Result<(), OutputFault>
    ensures { Gathers W.contents result gather.old gather.new out.old out.new
        (action_text name.now None (Some row.entry)) }
{
    add_with_name(gather, out, b"INSERT INTO ", name)?;
    gather.add(out, b" VALUES(")?;
    add_fields(gather, out, b", ", row)?;
    gather.add(out, b")")
}

/// Appends the UPDATE of a table and its assignments.
fn add_update<W: Write>(
    gather: &mut Gather,
    out: &mut Told<W>,
    name: &str,
    columns: usize,
    old: Fields<'_>,
    new: Fields<'_>,
) -> Result<(), OutputFault>
    requires old { length old ≡ columns }
    requires new { length new ≡ columns }
    ensures { Gathers W.contents result gather.old gather.new out.old out.new
        (action_text name.now (Some old.entry) (Some new.entry)) }
{
    add_with_name(gather, out, b"UPDATE ", name)?;
    gather.add(out, b" SET ")?;
    add_assignments(gather, out, columns, old, new)
}

/// Appends the operation of an entry on its table.
fn add_action<W: Write>(
    gather: &mut Gather,
    out: &mut Told<W>,
    name: &str,
    entry: &EntryRef<'_>,
) -> Result<(), OutputFault>
    ensures { Gathers W.contents result gather.old gather.new out.old out.new
        (action_text name.now (before_image entry.now.entry.change) (new_record entry.now.entry.change)) }
{
    match (entry.old_fields(), entry.new_fields()) {
        // Each entry has a record.
        (None, None) => Ok(()),
        (None, Some(new)) => add_insert(gather, out, name, new),
        (Some(_), None) => add_with_name(gather, out, b"DELETE FROM ", name),
        (Some(old), Some(new)) => { add_update(gather, out, name, entry.column_count(), old, new) }
    }
}

/// Appends the WHERE of an entry that changes an existing row.
fn add_where<W: Write>(
    gather: &mut Gather,
    out: &mut Told<W>,
    entry: &EntryRef<'_>,
) -> Result<(), OutputFault>
    ensures { Gathers W.contents result gather.old gather.new out.old out.new
        (where_text (before_image entry.now.entry.change)) }
{
    let Some(old) = entry.old_fields() else {
        return Ok(());
    };
    gather.add(out, b" WHERE ")?;
    add_terms(gather, out, Terms::Conditions, entry.column_count(), old)?;
    Ok(())
}

/// Appends the statement of an entry.
pub(super) fn add_statement<W: Write>(
    gather: &mut Gather,
    out: &mut Told<W>,
    name: &str,
    entry: &EntryRef<'_>,
) -> Result<(), OutputFault>
    ensures { Gathers W.contents result gather.old gather.new out.old out.new
        (statement name.now entry.now.entry.change) }
{
    add_action(gather, out, name, entry)?;
    add_where(gather, out, entry)?;
    gather.add(out, b";\n")
}
