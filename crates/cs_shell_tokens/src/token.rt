//! Tokens.
ghost use Rattle.std.specs.Prelude.{◌≡◌, ◌==◌, false, IfOk};
ghost use Rattle.cs_shell_tokens.specs.Tokens.{begins};
ghost use Rattle.cs_shell_tokens.specs.Reading.{Finds, Gives, next_at, token_at, sign_at, name_from, text_from, unquoted};

use crate::blob::read_blob;
use crate::byte::{is_word_byte, skip_blanks};
use crate::piece::read_piece;
use crate::quoted::read_quoted;
use crate::symbol::Symbol;
use cs_value::{NoMemory, OwnedValue, Text};
use std::alloc::Global;

/// A token of a statement. It owns its text.
#[derive(Debug, Drop)]
pub enum Token {
    /// A keyword or a sign.
    Fixed(Symbol),
    /// An identifier: a word that is not a keyword, or a name in double quotes.
    Name(String),
    /// A literal: an integer, a text, a blob or NULL.
    Value(OwnedValue),
}

/// What a line begins with after its blanks.
#[derive(Debug, Drop)]
pub enum Found<'a> {
    /// A token, and the line after it.
    Token(Token, &'a [u8]),
    /// Nothing: the line has only blanks.
    End,
    /// No token.
    Malformed,
}

/// Returns the first token of a line. It fails only if memory runs out.
pub fn next_token(alloc: Global, line: &[u8]) -> Result<Found<'_>, NoMemory>
    ensures found { IfOk result (Finds line.now) }
{
    find_token(alloc, line)
}

/// Returns the token after the blanks of a line, if there is one.
#[tactic(auto, unfolding(crate::specs::Reading::next_at))]
fn find_token(alloc: Global, line: &[u8]) -> Result<Found<'_>, NoMemory>
    ensures { IfOk result (Gives (next_at line.now)) }
{
    read_token(alloc, skip_blanks(line))
}

/// Returns the token at the front of a line that does not begin with a blank.
#[tactic(auto, unfolding(crate::specs::Reading::token_at))]
fn read_token(alloc: Global, line: &[u8]) -> Result<Found<'_>, NoMemory>
    ensures { IfOk result (Gives (token_at line.now)) }
{
    let [first, after @ ..] = line else {
        return Ok(Found::End);
    };
    match *first {
        b'"' => read_name(alloc, after),
        b'\'' => read_text(alloc, after),
        b'X' | b'x' if begins_quote(after) => read_blob(alloc, after),
        byte if is_word_byte(byte) || byte == b'-' => read_piece(alloc, line),
        byte => Ok(read_sign(byte, after)),
    }
}

/// Returns whether the line begins with the quote of a text.
fn begins_quote(line: &[u8]) -> bool
    ensures { result ≡ begins (λ b. b == 39) line.now }
{
    matches!(line, [b'\'', ..])
}

/// Returns the sign that a byte is, if it is one.
#[tactic(auto, unfolding(crate::specs::Reading::sign_at))]
fn read_sign(byte: u8, rest: &[u8]) -> Found<'_>
    ensures { Gives (sign_at byte rest.now) result }
{
    let sign = match byte {
        b'(' => Symbol::Open,
        b')' => Symbol::Close,
        b',' => Symbol::Comma,
        b';' => Symbol::Semicolon,
        b'=' => Symbol::Equals,
        b'*' => Symbol::Star,
        _ => return Found::Malformed,
    };
    Found::Token(Token::Fixed(sign), rest)
}

/// Returns the name of a line that begins after the first double quote.
#[tactic(auto, unfolding(crate::specs::Reading::name_from))]
fn read_name(alloc: Global, line: &[u8]) -> Result<Found<'_>, NoMemory>
    ensures { IfOk result (Gives (name_from (unquoted 34 false line.now))) }
{
    let Some((name, rest)) = read_quoted(alloc, b'"', line)? else {
        return Ok(Found::Malformed);
    };
    match String::from_utf8(name) {
        Ok(name) => Ok(Found::Token(Token::Name(name), rest)),
        Err(_) => Ok(Found::Malformed),
    }
}

/// Returns the text of a line that begins after the first quote.
#[tactic(auto, unfolding(crate::specs::Reading::text_from))]
fn read_text(alloc: Global, line: &[u8]) -> Result<Found<'_>, NoMemory>
    ensures { IfOk result (Gives (text_from (unquoted 39 false line.now))) }
{
    let Some((text, rest)) = read_quoted(alloc, b'\'', line)? else {
        return Ok(Found::Malformed);
    };
    let Ok(text) = String::from_utf8(text) else {
        return Ok(Found::Malformed);
    };
    if !OwnedValue::fits(text.len()) {
        return Ok(Found::Malformed);
    }
    let value = OwnedValue::Text(Text::new(text));
    Ok(Found::Token(Token::Value(value), rest))
}
