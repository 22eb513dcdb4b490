//! Lines.
ghost use Rattle.std.specs.Prelude.{◌≡◌, ◌↔◌, ◌∷◌, [], Some, IfOk, IfErr, IsTrue, MatchOption, option_map};
ghost use Rattle.cs_shell_grammar.specs.Commands.{CommandData, command_of};
ghost use Rattle.cs_shell_grammar.specs.Lines.{IsNoCommand, IsNothing, RefusesLine, Spelled};
ghost use Rattle.cs_shell_tokens.specs.Words.{words_of};
ghost use Rattle.cs_shell_tokens.specs.Faults.{Reads};
ghost use Rattle.cs_shell_grammar.specs.LineReading.{begins_dot, line_in};

use crate::command::Command;
use crate::dot::dot_line;
use crate::fault::{LineFault, SyntaxFault};
use crate::statement::statement;
use cs_shell_tokens::{TokenError, column, next_word};
use std::alloc::Global;

/// Returns the command of a line, or None if the line is blank or a comment. The line has no line feed.
///
/// # Errors
///
/// [`SyntaxFault`](crate::SyntaxFault) if the line is not a command, with the column of the first token or word that is
/// malformed or does not fit. `NoMemory` if memory runs out.
pub fn parse_line(alloc: Global, line: &str) -> Result<Option<Command>, LineFault>
    ensures asked { IfOk result (λ asked.
        MatchOption asked (IsNothing line.now) (λ command. Spelled line.now (command_of command))) }
    ensures only { (command : CommandData) → Spelled line.now command →
        IfOk result (λ asked. option_map command_of asked ≡ Some command) }
    ensures refused { IfErr result (RefusesLine line.now) }
{
    let line = line.as_bytes();
    if is_nothing(line) {
        return Ok(None);
    }
    match read_line(alloc, line) {
        Ok(command) => Ok(Some(command)),
        Err(TokenError::Fault(misfit)) => Err(LineFault::Fault(SyntaxFault {
            column: column(line, misfit),
        })),
        Err(TokenError::NoMemory) => Err(LineFault::NoMemory),
    }
}

/// Returns whether a line is blank or a comment.
fn is_nothing(line: &[u8]) -> bool
    ensures { IsTrue result ↔ IsNothing line.now }
{
    match next_word(line) {
        Some((word, _)) => begins_comment(word),
        None => true,
    }
}

/// Returns whether a word begins a comment.
fn begins_comment(word: &[u8]) -> bool
    ensures { IsTrue result ↔ IsNoCommand (word.now ∷ []) }
{
    word.starts_with(b"--")
}

/// Returns whether the first word of a line begins with a dot.
fn is_dot_line(line: &[u8]) -> bool
    ensures { result ≡ begins_dot (words_of line.now) }
{
    match next_word(line) {
        Some((word, _)) => has_dot(word),
        None => false,
    }
}

/// Returns whether a word begins with a dot.
fn has_dot(word: &[u8]) -> bool
    ensures { result ≡ begins_dot (word.now ∷ []) }
{
    match word {
        [first, ..] => *first == b'.',
        [] => false,
    }
}

/// Returns the command of a line that is neither blank nor a comment.
#[tactic(auto, unfolding(crate::specs::LineReading::line_in))]
fn read_line(alloc: Global, line: &[u8]) -> Result<Command, TokenError>
    ensures { Reads result command_of (line_in line.now) }
{
    if is_dot_line(line) {
        dot_line(alloc, line)
    } else {
        statement(alloc, line)
    }
}
