//! What the texts of the statements on records are under the schema of a database.
//!
//! Each is compiled under that schema, and compared with the statement on the table of records that it is meant to be.
//! So it reads and writes the rows of that table, whatever else the database declares.
ghost use Rattle.std.specs.Prelude.{◌≡◌, ◌↔◌, [], map, true, false, IsTrue, IfOk, MatchOption};
ghost use Rattle.cs_store_sql.specs.Meaning.{AreStatements, AreWrites, IsMeant};
ghost use Rattle.cs_store_sql.specs.Statements.{alone, expected_query, find_query, list_query, count_query, page_query, scan_query};
ghost use Rattle.cs_store_sql.specs.Statements.{put_command, replace_command, removal, source, source_terms, update_query, expected_term, clause};
ghost use Rattle.cs_store_sql.specs.Statements.{find_text, list_text, count_text, page_text, scan_text};
ghost use Rattle.cs_store_sql.specs.Statements.{IsPlainStatement, IsStatement, IsSelectOf, IsSelect, IsCreation, Creates};

use crate::expected::{Expected, Shape, are_expected, is_query};
use crate::texts;
use sqlite_resolve::{CompileError, Compiled, compile};
use sqlite_schema::code::Terms;
use sqlite_schema::command::{Command, Conflict, Source, Upsert};
use sqlite_schema::program::Program;
use sqlite_schema::schema::Schema;
use std::alloc::{AllocError, Global};

/// The statement of the text under the schema, if it is all of the text, has so many parameters and no RETURNING, and
/// does not read the time.
fn plain_statement(
    alloc: Global,
    schema: &Schema,
    sql: &str,
    count: usize,
) -> Result<Option<Compiled>, AllocError>
    ensures { IfOk result (λ found. MatchOption found ((it : _) → ¬ IsPlainStatement schema.now sql.now count it)
        (IsPlainStatement schema.now sql.now count)) }
{
    let it = match compile(alloc, schema, sql.as_bytes()) {
        Ok(it) => it,
        Err(CompileError::OutOfMemory) => return Err(AllocError),
        Err(_) => return Ok(None),
    };
    let is_plain = it.returning.is_none() && it.formats.is_empty();
    let is_whole = sql.len() <= it.tail && it.names.len() == count;
    if !is_plain || !is_whole {
        drop(it);
        return Ok(None);
    }
    Ok(Some(it))
}

/// Whether the program is the query of that shape on the table with this tree.
fn is_program(
    alloc: Global,
    program: &Program,
    tree: u32,
    shape: &Shape<'_>,
) -> Result<bool, AllocError>
    ensures { IfOk result (λ yes. IsTrue yes ↔ (program.now ≡ alone (expected_query tree shape.now))) }
{
    if !program.lets.is_empty() {
        return Ok(false);
    }
    let loan = program.body.lend(alloc)?;
    Ok(is_query(&loan.select(), tree, shape))
}

/// Whether the command is the query of that shape on the table with this tree.
fn is_select(
    alloc: Global,
    command: &Command,
    tree: u32,
    shape: &Shape<'_>,
) -> Result<bool, AllocError>
    ensures { IfOk result (λ yes. IsTrue yes ↔ IsSelectOf command.now (alone (expected_query tree shape.now))) }
{
    match command {
        Command::Select(program, _) => is_program(alloc, program, tree, shape),
        _ => Ok(false),
    }
}

/// Whether these are the terms of the row of a record, whose number is chosen.
fn are_source_terms(alloc: Global, terms: &Terms) -> Result<bool, AllocError>
    ensures { IfOk result (λ yes. IsTrue yes ↔ (terms.now ≡ source_terms)) }
{
    let lent = terms.lend(alloc)?;
    let expected = [
        Expected::Null,
        Expected::Column(0, 0),
        Expected::Column(0, 1),
        Expected::Column(0, 2),
    ];
    Ok(are_expected(lent.nodes.as_slice(), lent.roots, &expected))
}

/// Whether these are the rows of an INSERT of one record, whose number is chosen.
fn is_source(alloc: Global, rows: &Source) -> Result<bool, AllocError>
    ensures { IfOk result (λ yes. IsTrue yes ↔ (rows.now ≡ source)) }
{
    match rows {
        Source::Values(terms, width) => Ok(*width == 4 && are_source_terms(alloc, terms)?),
        _ => Ok(false),
    }
}

/// Whether the command inserts a record.
fn is_insert(alloc: Global, command: &Command, index: usize) -> Result<bool, AllocError>
    ensures { IfOk result (λ yes. IsTrue yes ↔ (command.now ≡ put_command index 0 true)) }
{
    match command {
        Command::Insert(at, rows) => Ok(*at == index && is_source(alloc, rows)?),
        _ => Ok(false),
    }
}

/// Whether the program updates the value in the row with a number. These parameters are the number and the value.
fn is_update(
    alloc: Global,
    program: &Program,
    tree: u32,
    number: usize,
    value: usize,
) -> Result<bool, AllocError>
    ensures { IfOk result (λ yes. IsTrue yes ↔ (program.now ≡ alone (update_query tree number value))) }
{
    let shape = Shape {
        filter: &[Expected::Equal(0, number)],
        project: &[
            Expected::Column(1, 0),
            Expected::Column(1, 0),
            Expected::Column(1, 1),
            Expected::Column(1, 2),
            Expected::Column(0, value),
        ],
        order: &[],
        limit: None,
        counted: false,
    };
    is_program(alloc, program, tree, &shape)
}

/// Whether the clause replaces the value of the record that is there.
fn is_clause(alloc: Global, upsert: &Upsert, tree: u32) -> Result<bool, AllocError>
    ensures { IfOk result (λ yes. IsTrue yes ↔ (upsert.now ≡ clause tree)) }
{
    let Some(target) = &upsert.target else {
        return Ok(false);
    };
    let Some(program) = &upsert.update else {
        return Ok(false);
    };
    Ok(target.as_slice() == [1, 2].as_slice() && is_update(alloc, program, tree, 3, 2)?)
}

/// Whether the command inserts a record, or replaces the value of the one that is there.
fn is_put(alloc: Global, command: &Command, index: usize, tree: u32) -> Result<bool, AllocError>
    ensures { IfOk result (λ yes. IsTrue yes ↔ (command.now ≡ put_command index tree false)) }
{
    let Command::InsertOr(at, Conflict::Abort, rows, clauses) = command else {
        return Ok(false);
    };
    let [upsert] = clauses.as_slice() else {
        return Ok(false);
    };
    Ok(*at == index && is_source(alloc, rows)? && is_clause(alloc, upsert, tree)?)
}

/// Whether the command replaces the value in the row with a number.
fn is_replace(alloc: Global, command: &Command, index: usize, tree: u32) -> Result<bool, AllocError>
    ensures { IfOk result (λ yes. IsTrue yes ↔ (command.now ≡ replace_command index tree)) }
{
    match command {
        Command::Update(at, program) => {
            Ok(*at == index && is_update(alloc, program, tree, 1, 0)?)
        }
        _ => Ok(false),
    }
}

/// Whether the command removes the rows that pass these tests.
fn is_removal(
    alloc: Global,
    command: &Command,
    index: usize,
    tree: u32,
    filter: &[Expected],
) -> Result<bool, AllocError>
    ensures { IfOk result (λ yes. IsTrue yes
        ↔ (command.now ≡ removal index tree (map expected_term filter.now))) }
{
    let shape = Shape {
        filter,
        project: &[Expected::Column(1, 0)],
        order: &[],
        limit: None,
        counted: false,
    };
    match command {
        Command::Delete(at, program) => {
            Ok(*at == index && is_program(alloc, program, tree, &shape)?)
        }
        _ => Ok(false),
    }
}

/// What a statement on records is meant to be.
#[derive(Clone, Copy)]
enum Meant<'a> {
    Select(&'a Shape<'a>),
    Insert,
    Put,
    Replace,
    /// The removal of the rows that pass these tests.
    Remove(&'a [Expected]),
}

/// Whether the command is that one, on the table with this index and this tree.
fn is_meant(
    alloc: Global,
    command: &Command,
    index: usize,
    tree: u32,
    meant: Meant<'_>,
) -> Result<bool, AllocError>
    ensures { IfOk result (λ yes. IsTrue yes ↔ IsMeant command.now index tree meant.entry) }
{
    match meant {
        Meant::Select(shape) => is_select(alloc, command, tree, shape),
        Meant::Insert => is_insert(alloc, command, index),
        Meant::Put => is_put(alloc, command, index, tree),
        Meant::Replace => is_replace(alloc, command, index, tree),
        Meant::Remove(filter) => is_removal(alloc, command, index, tree, filter),
    }
}

/// Whether the text is that statement under the schema, with so many parameters.
fn is_statement(
    alloc: Global,
    schema: &Schema,
    sql: &str,
    count: usize,
    index: usize,
    tree: u32,
    meant: Meant<'_>,
) -> Result<bool, AllocError>
    ensures { IfOk result (λ yes. IsTrue yes
        ↔ IsStatement schema.now sql.now count (λ command. IsMeant command index tree meant.entry)) }
{
    let Some(it) = plain_statement(alloc, schema, sql, count)? else {
        return Ok(false);
    };
    let is_it = is_meant(alloc, &it.command, index, tree, meant);
    drop(it);
    is_it
}

/// Whether the text is the query of that shape under the schema, with so many parameters.
fn is_shown(
    alloc: Global,
    schema: &Schema,
    sql: &str,
    count: usize,
    tree: u32,
    shape: &Shape<'_>,
) -> Result<bool, AllocError>
    ensures { IfOk result (λ yes. IsTrue yes ↔ IsSelect schema.now sql.now count (expected_query tree shape.now)) }
{
    is_statement(alloc, schema, sql, count, 0, tree, Meant::Select(shape))
}

/// Whether the text that finds a record does so.
fn finds(alloc: Global, schema: &Schema, tree: u32) -> Result<bool, AllocError>
    ensures { IfOk result (λ yes. IsTrue yes ↔ IsSelect schema.now find_text 2 (find_query tree)) }
{
    let shape = Shape {
        filter: &[Expected::Equal(1, 0), Expected::Equal(2, 1)],
        project: &[Expected::Column(1, 0), Expected::Column(1, 3)],
        order: &[],
        limit: None,
        counted: false,
    };
    is_shown(alloc, schema, texts::FIND, 2, tree, &shape)
}

/// Whether the text that lists the records under a name does so.
fn lists(alloc: Global, schema: &Schema, tree: u32) -> Result<bool, AllocError>
    ensures { IfOk result (λ yes. IsTrue yes ↔ IsSelect schema.now list_text 1 (list_query tree)) }
{
    let shape = Shape {
        filter: &[Expected::Equal(1, 0)],
        project: &[Expected::Column(1, 2), Expected::Column(1, 3)],
        order: &[2],
        limit: None,
        counted: false,
    };
    is_shown(alloc, schema, texts::LIST, 1, tree, &shape)
}

/// Whether the text that counts the records under a name does so.
fn counts(alloc: Global, schema: &Schema, tree: u32) -> Result<bool, AllocError>
    ensures { IfOk result (λ yes. IsTrue yes ↔ IsSelect schema.now count_text 1 (count_query tree)) }
{
    let shape = Shape {
        filter: &[Expected::Equal(1, 0)],
        project: &[Expected::Column(1, 0)],
        order: &[],
        limit: None,
        counted: true,
    };
    is_shown(alloc, schema, texts::COUNT, 1, tree, &shape)
}

/// Whether the text that lists the first records under a name after a key does so.
fn pages(alloc: Global, schema: &Schema, tree: u32) -> Result<bool, AllocError>
    ensures { IfOk result (λ yes. IsTrue yes ↔ IsSelect schema.now page_text 3 (page_query tree)) }
{
    let shape = Shape {
        filter: &[Expected::Equal(1, 0), Expected::Above(2, 1)],
        project: &[Expected::Column(1, 2), Expected::Column(1, 3)],
        order: &[2],
        limit: Some(2),
        counted: false,
    };
    is_shown(alloc, schema, texts::PAGE, 3, tree, &shape)
}

/// Whether the text that shows all records does so.
fn scans(alloc: Global, schema: &Schema, tree: u32) -> Result<bool, AllocError>
    ensures { IfOk result (λ yes. IsTrue yes ↔ IsSelect schema.now scan_text 0 (scan_query tree)) }
{
    let shape = Shape {
        filter: &[],
        project: &[
            Expected::Column(1, 0),
            Expected::Column(1, 1),
            Expected::Column(1, 2),
            Expected::Column(1, 3),
        ],
        order: &[0],
        limit: None,
        counted: false,
    };
    is_shown(alloc, schema, texts::SCAN, 0, tree, &shape)
}

/// Whether the texts that write records do so.
fn are_writes(alloc: Global, schema: &Schema, index: usize, tree: u32) -> Result<bool, AllocError>
    ensures { IfOk result (λ yes. IsTrue yes ↔ AreWrites schema.now index tree) }
{
    let removed = Meant::Remove(&[Expected::Equal(1, 0), Expected::Equal(2, 1)]);
    let taken = Meant::Remove(&[Expected::Equal(0, 0)]);
    Ok(
        is_statement(alloc, schema, texts::INSERT, 3, index, tree, Meant::Insert)?
            && is_statement(alloc, schema, texts::PUT, 3, index, tree, Meant::Put)?
            && is_statement(
                alloc,
                schema,
                texts::REPLACE,
                2,
                index,
                tree,
                Meant::Replace,
            )?
            && is_statement(alloc, schema, texts::REMOVE, 2, index, tree, removed)?
            && is_statement(alloc, schema, texts::TAKE, 1, index, tree, taken)?,
    )
}

/// Whether each text is, under the schema, the statement that it is meant to be, on the table with this index and this
/// tree.
pub(crate) fn are_statements(
    alloc: Global,
    schema: &Schema,
    index: usize,
    tree: u32,
) -> Result<bool, AllocError>
    ensures { IfOk result (λ yes. IsTrue yes ↔ AreStatements schema.now index tree) }
{
    Ok(
        finds(alloc, schema, tree)?
            && lists(alloc, schema, tree)?
            && counts(alloc, schema, tree)?
            && pages(alloc, schema, tree)?
            && scans(alloc, schema, tree)?
            && are_writes(alloc, schema, index, tree)?,
    )
}

/// Whether the statement makes a table, and is the whole of the text that makes the table of records.
fn is_creation(it: &Compiled) -> bool
    ensures { IsTrue result ↔ IsCreation it.now }
{
    it.start == 0 && it.end == texts::CREATE.len() && matches!(it.command, Command::CreateTable)
}

/// Whether the text that makes the table does so under the schema.
pub(crate) fn creates(alloc: Global, schema: &Schema) -> Result<bool, AllocError>
    ensures { IfOk result (λ yes. IsTrue yes ↔ Creates schema.now) }
{
    let Some(it) = plain_statement(alloc, schema, texts::CREATE, 0)? else {
        return Ok(false);
    };
    let is_it = is_creation(&it);
    drop(it);
    Ok(is_it)
}
