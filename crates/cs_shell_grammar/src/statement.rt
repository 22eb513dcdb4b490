//! Statements, read token by token.
ghost use Rattle.std.specs.Prelude.{◌<◌, length, IfOk, string_bytes, map, option_map, Some};
ghost use Rattle.cs_shell_grammar.specs.Commands.{assignment_of, command_of};
ghost use Rattle.cs_shell_tokens.specs.Reading.{tokens_of};
ghost use Rattle.cs_shell_tokens.specs.Faults.{Reads};
ghost use Rattle.cs_shell_grammar.specs.StatementReading.{fixed_in, name_in, value_in, turn_in, assignment_in, column_in};
ghost use Rattle.cs_shell_grammar.specs.StatementReading.{names_in, values_in, assignments_in, columns_in, end_in, symbol_in};
ghost use Rattle.cs_shell_grammar.specs.StatementReading.{column_of, names_and_rules_of, rule_in, null_in};
ghost use Rattle.cs_shell_grammar.specs.StatementReading.{create_in, insert_in, update_in, delete_in, select_in, form_in, statement_in};

use crate::command::{Assignment, Command};
use cs_shell_tokens::{Found, Symbol, Token, TokenError, misfit_at, next_token};
use cs_value::OwnedValue;
use std::alloc::Global;

/// A column of a new table, and whether it refuses NULL.
#[derive(Drop)]
struct NewColumn {
    name: String,
    refuses: bool,
}

/// Returns the statement of a line.
#[tactic(auto, unfolding(crate::specs::StatementReading::statement_in))]
pub(crate) fn statement(alloc: Global, line: &[u8]) -> Result<Command, TokenError>
    ensures { Reads result command_of (statement_in (tokens_of line.now)) }
{
    let (command, rest) = form(alloc, line)?;
    end(alloc, rest)?;
    Ok(command)
}

/// Returns the statement of a line with this first token.
#[tactic(auto, unfolding(crate::specs::StatementReading::form_in))]
fn form(alloc: Global, line: &[u8]) -> Result<(Command, &[u8]), TokenError>
    ensures { Reads result (λ r. (command_of r.0, tokens_of r.1.now)) (form_in (tokens_of line.now)) }
{
    let (first, rest) = symbol(alloc, line)?;
    if first.is(Symbol::Create) {
        create(alloc, rest)
    } else if first.is(Symbol::Insert) {
        insert(alloc, rest)
    } else if first.is(Symbol::Update) {
        update(alloc, rest)
    } else if first.is(Symbol::Delete) {
        delete(alloc, rest)
    } else if first.is(Symbol::Select) {
        select(alloc, rest)
    } else {
        Err(TokenError::Fault(misfit_at(line)))
    }
}

/// What follows CREATE.
#[tactic(auto, unfolding(crate::specs::StatementReading::create_in))]
fn create(alloc: Global, line: &[u8]) -> Result<(Command, &[u8]), TokenError>
    ensures { Reads result (λ r. (command_of r.0, tokens_of r.1.now)) (create_in (tokens_of line.now)) }
{
    let line = fixed(alloc, line, Symbol::Table)?;
    let (name, line) = name(alloc, line)?;
    let line = fixed(alloc, line, Symbol::Open)?;
    let (columns, line) = columns(alloc, line)?;
    let (columns, refuses) = names_and_rules(alloc, columns)?;
    let line = fixed(alloc, line, Symbol::Key)?;
    let line = fixed(alloc, line, Symbol::Open)?;
    let (keys, line) = names(alloc, line)?;
    let line = fixed(alloc, line, Symbol::Close)?;
    let line = fixed(alloc, line, Symbol::Semicolon)?;
    Ok((
        Command::Create {
            name,
            columns,
            refuses,
            keys,
        },
        line,
    ))
}

/// What follows INSERT.
#[tactic(auto, unfolding(crate::specs::StatementReading::insert_in))]
fn insert(alloc: Global, line: &[u8]) -> Result<(Command, &[u8]), TokenError>
    ensures { Reads result (λ r. (command_of r.0, tokens_of r.1.now)) (insert_in (tokens_of line.now)) }
{
    let line = fixed(alloc, line, Symbol::Into)?;
    let (table, line) = name(alloc, line)?;
    let line = fixed(alloc, line, Symbol::Values)?;
    let line = fixed(alloc, line, Symbol::Open)?;
    let (values, line) = values(alloc, line)?;
    let line = fixed(alloc, line, Symbol::Semicolon)?;
    Ok((Command::Insert { table, values }, line))
}

/// What follows UPDATE.
#[tactic(auto, unfolding(crate::specs::StatementReading::update_in))]
fn update(alloc: Global, line: &[u8]) -> Result<(Command, &[u8]), TokenError>
    ensures { Reads result (λ r. (command_of r.0, tokens_of r.1.now)) (update_in (tokens_of line.now)) }
{
    let (table, line) = name(alloc, line)?;
    let line = fixed(alloc, line, Symbol::Set)?;
    let (sets, line) = assignments(alloc, line, Symbol::Comma, Symbol::Where)?;
    let (conditions, line) = assignments(alloc, line, Symbol::And, Symbol::Semicolon)?;
    Ok((
        Command::Update {
            table,
            sets,
            conditions,
        },
        line,
    ))
}

/// What follows DELETE.
#[tactic(auto, unfolding(crate::specs::StatementReading::delete_in))]
fn delete(alloc: Global, line: &[u8]) -> Result<(Command, &[u8]), TokenError>
    ensures { Reads result (λ r. (command_of r.0, tokens_of r.1.now)) (delete_in (tokens_of line.now)) }
{
    let line = fixed(alloc, line, Symbol::From)?;
    let (table, line) = name(alloc, line)?;
    let line = fixed(alloc, line, Symbol::Where)?;
    let (conditions, line) = assignments(alloc, line, Symbol::And, Symbol::Semicolon)?;
    Ok((Command::Delete { table, conditions }, line))
}

/// What follows SELECT.
#[tactic(auto, unfolding(crate::specs::StatementReading::select_in))]
fn select(alloc: Global, line: &[u8]) -> Result<(Command, &[u8]), TokenError>
    ensures { Reads result (λ r. (command_of r.0, tokens_of r.1.now)) (select_in (tokens_of line.now)) }
{
    let line = fixed(alloc, line, Symbol::Star)?;
    let line = fixed(alloc, line, Symbol::From)?;
    let (table, line) = name(alloc, line)?;
    let line = fixed(alloc, line, Symbol::Semicolon)?;
    Ok((Command::Select { table }, line))
}

/// Checks that only blanks are left of the line.
#[tactic(auto, unfolding(crate::specs::StatementReading::end_in))]
fn end(alloc: Global, line: &[u8]) -> Result<(), TokenError>
    ensures { Reads result (λ _. tt) (end_in (tokens_of line.now)) }
{
    match next_token(alloc, line)? {
        Found::End => Ok(()),
        _ => Err(TokenError::Fault(misfit_at(line))),
    }
}

/// Returns the next token, if it is a keyword or a sign.
#[tactic(auto, unfolding(crate::specs::StatementReading::symbol_in))]
fn symbol(alloc: Global, line: &[u8]) -> Result<(Symbol, &[u8]), TokenError>
    ensures { Reads result (λ r. (r.0, tokens_of r.1.now)) (symbol_in (tokens_of line.now)) }
{
    match next_token(alloc, line)? {
        Found::Token(Token::Fixed(symbol), rest) => Ok((symbol, rest)),
        _ => Err(TokenError::Fault(misfit_at(line))),
    }
}

/// Checks that the next token is this keyword or sign.
#[tactic(auto, unfolding(crate::specs::StatementReading::fixed_in))]
fn fixed(alloc: Global, line: &[u8], symbol: Symbol) -> Result<&[u8], TokenError>
    ensures read { Reads result (λ rest. tokens_of rest.now) (fixed_in symbol (tokens_of line.now)) }
    ensures shorter { IfOk result (λ rest. length rest.now < length line.now) }
{
    match next_token(alloc, line)? {
        Found::Token(Token::Fixed(found), rest) if found.is(symbol) => Ok(rest),
        _ => Err(TokenError::Fault(misfit_at(line))),
    }
}

/// Returns the next token, if it is a name.
#[tactic(auto, unfolding(crate::specs::StatementReading::name_in))]
fn name(alloc: Global, line: &[u8]) -> Result<(String, &[u8]), TokenError>
    ensures read { Reads result (λ r. (string_bytes r.0, tokens_of r.1.now)) (name_in (tokens_of line.now)) }
    ensures shorter { IfOk result (λ r. length r.1.now < length line.now) }
{
    match next_token(alloc, line)? {
        Found::Token(token, rest) => match token {
            Token::Name(name) => Ok((name, rest)),
            _ => Err(TokenError::Fault(misfit_at(line))),
        },
        _ => Err(TokenError::Fault(misfit_at(line))),
    }
}

/// Returns the next token, if it is a value.
#[tactic(auto, unfolding(crate::specs::StatementReading::value_in))]
fn value(alloc: Global, line: &[u8]) -> Result<(OwnedValue, &[u8]), TokenError>
    ensures read { Reads result (λ r. (r.0, tokens_of r.1.now)) (value_in (tokens_of line.now)) }
    ensures shorter { IfOk result (λ r. length r.1.now < length line.now) }
{
    match next_token(alloc, line)? {
        Found::Token(token, rest) => match token {
            Token::Value(value) => Ok((value, rest)),
            _ => Err(TokenError::Fault(misfit_at(line))),
        },
        _ => Err(TokenError::Fault(misfit_at(line))),
    }
}

/// Returns a column and a value, with an equals sign between them.
#[tactic(auto, unfolding(crate::specs::StatementReading::assignment_in))]
fn assignment(alloc: Global, line: &[u8]) -> Result<(Assignment, &[u8]), TokenError>
    ensures read { Reads result (λ r. (assignment_of r.0, tokens_of r.1.now)) (assignment_in (tokens_of line.now)) }
    ensures shorter { IfOk result (λ r. length r.1.now < length line.now) }
{
    let (column, line) = name(alloc, line)?;
    let line = fixed(alloc, line, Symbol::Equals)?;
    let (value, line) = value(alloc, line)?;
    Ok((Assignment { column, value }, line))
}

/// Reads the separator of two items or the end of the list. Returns whether another item follows.
#[tactic(auto, unfolding(crate::specs::StatementReading::turn_in))]
fn turn(
    alloc: Global,
    line: &[u8],
    between: Symbol,
    last: Symbol,
) -> Result<(bool, &[u8]), TokenError>
    ensures read { Reads result (λ r. (r.0, tokens_of r.1.now)) (turn_in between last (tokens_of line.now)) }
    ensures shorter { IfOk result (λ r. length r.1.now < length line.now) }
{
    match next_token(alloc, line)? {
        Found::Token(Token::Fixed(found), rest) if found.is(between) => Ok((true, rest)),
        Found::Token(Token::Fixed(found), rest) if found.is(last) => Ok((false, rest)),
        _ => Err(TokenError::Fault(misfit_at(line))),
    }
}

/// Reads what follows the name of a column: a comma, or NOT NULL and a comma. Returns whether the column refuses NULL.
#[tactic(auto, unfolding(crate::specs::StatementReading::rule_in))]
fn rule(alloc: Global, line: &[u8]) -> Result<(bool, &[u8]), TokenError>
    ensures read { Reads result (λ r. (r.0, tokens_of r.1.now)) (rule_in (tokens_of line.now)) }
    ensures shorter { IfOk result (λ r. length r.1.now < length line.now) }
{
    match next_token(alloc, line)? {
        Found::Token(Token::Fixed(found), rest) if found.is(Symbol::Comma) => Ok((false, rest)),
        Found::Token(Token::Fixed(found), rest) if found.is(Symbol::Not) => {
            let rest = null(alloc, rest)?;
            Ok((true, fixed(alloc, rest, Symbol::Comma)?))
        }
        _ => Err(TokenError::Fault(misfit_at(line))),
    }
}

/// NULL.
#[tactic(auto, unfolding(crate::specs::StatementReading::null_in))]
fn null(alloc: Global, line: &[u8]) -> Result<&[u8], TokenError>
    ensures read { Reads result (λ r. tokens_of r.now) (null_in (tokens_of line.now)) }
    ensures shorter { IfOk result (λ r. length r.now < length line.now) }
{
    match next_token(alloc, line)? {
        Found::Token(Token::Value(OwnedValue::Null), rest) => Ok(rest),
        _ => Err(TokenError::Fault(misfit_at(line))),
    }
}

/// Returns a column of a table with what follows it; or None at PRIMARY.
#[tactic(auto, unfolding(crate::specs::StatementReading::column_in))]
fn column(alloc: Global, line: &[u8]) -> Result<(Option<NewColumn>, &[u8]), TokenError>
    ensures read { Reads result (λ r. (option_map column_of r.0, tokens_of r.1.now)) (column_in (tokens_of line.now)) }
    ensures shorter { IfOk result (λ r. length r.1.now < length line.now) }
{
    match next_token(alloc, line)? {
        Found::Token(token, rest) => match token {
            Token::Fixed(found) if found.is(Symbol::Primary) => Ok((None, rest)),
            Token::Name(name) => {
                let (refuses, rest) = rule(alloc, rest)?;
                Ok((Some(NewColumn { name, refuses }), rest))
            }
            _ => Err(TokenError::Fault(misfit_at(line))),
        },
        _ => Err(TokenError::Fault(misfit_at(line))),
    }
}

/// Returns the columns of a table, each with a comma after it, up to PRIMARY.
fn columns(alloc: Global, line: &[u8]) -> Result<(Vec<NewColumn>, &[u8]), TokenError>
    ensures { Reads result (λ r. (map column_of r.0.items, tokens_of r.1.now)) (columns_in (tokens_of line.now)) }
{
    let (name, behind) = name(alloc, line)?;
    let (refuses, mut rest) = rule(alloc, behind)?;
    let mut columns = Vec::new(alloc);
    let mut next = Some(NewColumn { name, refuses });
    while let Some(column_read) = next {
        columns.push(column_read)?;
        (next, rest) = column(alloc, rest)?;
    }
    Ok((columns, rest))
}

/// Returns the names of columns, and whether each refuses NULL.
fn names_and_rules(
    alloc: Global,
    columns: Vec<NewColumn>,
) -> Result<(Vec<String>, Vec<bool>), TokenError>
    ensures { Reads result (λ r. (map string_bytes r.0.items, r.1.items)) (Some (names_and_rules_of (map column_of columns.items))) }
{
    let mut names = Vec::new(alloc);
    let mut refuses = Vec::new(alloc);
    for column in columns {
        names.push(column.name)?;
        refuses.push(column.refuses)?;
    }
    Ok((names, refuses))
}

/// Returns names with commas between them, up to a closing bracket.
fn names(alloc: Global, line: &[u8]) -> Result<(Vec<String>, &[u8]), TokenError>
    ensures { Reads result (λ r. (map string_bytes r.0.items, tokens_of r.1.now)) (names_in (tokens_of line.now)) }
{
    let mut names = Vec::new(alloc);
    let mut rest = line;
    let mut more = true;
    while more {
        let (name, after) = name(alloc, rest)?;
        names.push(name)?;
        (more, rest) = turn(alloc, after, Symbol::Comma, Symbol::Close)?;
    }
    Ok((names, rest))
}

/// Returns values with commas between them, up to a closing bracket.
fn values(alloc: Global, line: &[u8]) -> Result<(Vec<OwnedValue>, &[u8]), TokenError>
    ensures { Reads result (λ r. (r.0.items, tokens_of r.1.now)) (values_in (tokens_of line.now)) }
{
    let mut values = Vec::new(alloc);
    let mut rest = line;
    let mut more = true;
    while more {
        let (value, after) = value(alloc, rest)?;
        values.push(value)?;
        (more, rest) = turn(alloc, after, Symbol::Comma, Symbol::Close)?;
    }
    Ok((values, rest))
}

/// Returns assignments with a symbol between them, up to the symbol that ends them.
fn assignments(
    alloc: Global,
    line: &[u8],
    between: Symbol,
    last: Symbol,
) -> Result<(Vec<Assignment>, &[u8]), TokenError>
    ensures { Reads result (λ r. (map assignment_of r.0.items, tokens_of r.1.now))
        (assignments_in between last (tokens_of line.now)) }
{
    let mut assignments = Vec::new(alloc);
    let mut rest = line;
    let mut more = true;
    while more {
        let (assignment, after) = assignment(alloc, rest)?;
        assignments.push(assignment)?;
        (more, rest) = turn(alloc, after, between, last)?;
    }
    Ok((assignments, rest))
}
