//! Words and integers.
ghost use Rattle.std.specs.Prelude.{◌≡◌, ◌==◌, ◌||◌, ◌++◌, true, false, All, IfOk, option_map};
ghost use Rattle.cs_shell_tokens.specs.Tokens.{begins, is_digit as digit, is_word_byte as word_byte};
ghost use Rattle.cs_shell_tokens.specs.Reading.{Gives, piece_at, piece_of, behind_piece, word_of, integer_of, keyword_of};
ghost use Rattle.cs_shell_tokens.specs.Reading.{token_of};

use crate::byte::{is_digit, is_word_byte};
use crate::symbol::{KEYWORDS, Symbol};
use crate::token::{Found, Token};
use cs_value::{NoMemory, OwnedValue};
use std::alloc::Global;
use std::str;

/// Returns the word or the integer at the front of a line.
#[tactic(auto, unfolding(crate::specs::Reading::piece_at, crate::specs::Reading::token_of_piece))]
pub(crate) fn read_piece(alloc: Global, line: &[u8]) -> Result<Found<'_>, NoMemory>
    ensures { IfOk result (Gives (piece_at line.now)) }
{
    let (piece, rest) = split_piece(line);
    let Ok(text) = str::from_utf8(piece) else {
        return Ok(Found::Malformed);
    };
    if !begins_number(piece) {
        return Ok(Found::Token(read_word(alloc, text)?, rest));
    }
    match read_integer(text) {
        Some(token) => Ok(Found::Token(token, rest)),
        None => Ok(Found::Malformed),
    }
}

/// Splits a line after its first byte and the letters, digits and `_` that follow.
fn split_piece(line: &[u8]) -> (&[u8], &[u8])
    ensures front { result.0.now ≡ piece_of line.now }
    ensures back { result.1.now ≡ behind_piece line.now }
{
    match line {
        [] => (line, line),
        [_, after @ ..] => {
            let (word, _) = split_word(after);
            line.split_at(word.len() + 1)
        }
    }
}

/// Splits a line before its first byte that is not a letter, a digit or `_`.
fn split_word(line: &[u8]) -> (&[u8], &[u8])
    ensures joined { line.now ≡ result.0.now ++ result.1.now }
    ensures word { All (λ b. word_byte b ≡ true) result.0.now }
    ensures ended { begins word_byte result.1.now ≡ false }
{
    let end = line
        .iter()
        .position(|byte| !is_word_byte(*byte))
        .unwrap_or(line.len());
    line.split_at(end)
}

/// Returns whether a piece begins with a digit or a minus.
fn begins_number(piece: &[u8]) -> bool
    ensures { result ≡ begins (λ b. digit b || (b == 45)) piece.now }
{
    match piece {
        [] => false,
        [first, ..] => is_digit(*first) || *first == b'-',
    }
}

/// Returns an integer of 64 bits: an optional minus and digits.
#[tactic(auto, unfolding(crate::specs::Reading::integer_of))]
fn read_integer(text: &str) -> Option<Token>
    ensures { option_map token_of result ≡ integer_of text.now }
{
    match text.parse() {
        Ok(number) => Some(Token::Value(OwnedValue::Int(number))),
        Err(_) => None,
    }
}

/// Returns the token of a word: a keyword, NULL or a name.
#[tactic(auto, unfolding(crate::specs::Reading::word_of))]
fn read_word(alloc: Global, word: &str) -> Result<Token, NoMemory>
    ensures { IfOk result (λ token. token_of token ≡ word_of word.now) }
{
    if let Some(symbol) = find_keyword(word) {
        return Ok(Token::Fixed(symbol));
    }
    if word.eq_ignore_ascii_case("NULL") {
        return Ok(Token::Value(OwnedValue::Null));
    }
    Ok(Token::Name(String::from_str(alloc, word)?))
}

/// Returns the keyword that a word is, in upper or lower case.
#[tactic(auto, unfolding(crate::specs::Reading::keyword_of))]
fn find_keyword(word: &str) -> Option<Symbol>
    ensures { result ≡ keyword_of word.now }
{
    KEYWORDS
        .iter()
        .copied()
        .find(|symbol| word.eq_ignore_ascii_case(symbol.text()))
}
