//! The words of a dot line.
ghost use Rattle.std.specs.Prelude.{◌≡◌, ◌↔◌, ◌++◌, All, false, IsTrue, MatchOption, [], string_bytes};
ghost use Rattle.std.specs.Str.{bytes_eq};
ghost use Rattle.cs_shell_tokens.specs.Tokens.{is_blank as blank};
ghost use Rattle.cs_shell_tokens.specs.Words.{words_of, ends_word, IsSlot, IsNextWord, text_in, slot_in, one_slot_in, no_word_in};
ghost use Rattle.cs_shell_tokens.specs.Faults.{Reads};

use crate::byte::{is_blank, is_word_byte, skip_blanks};
use crate::fault::{TokenError, misfit_at};
use std::alloc::Global;
use std::str;

/// Splits a line before its first blank.
fn split_word(line: &[u8]) -> (&[u8], &[u8])
    ensures joined { line.now ≡ result.0.now ++ result.1.now }
    ensures word { All (λ b. blank b ≡ false) result.0.now }
    ensures ended { IsTrue (ends_word result.1.now) }
{
    let end = line
        .iter()
        .position(|byte| is_blank(*byte))
        .unwrap_or(line.len());
    line.split_at(end)
}

/// Returns the first word of a line and the line after it, or None if the line has only blanks.
pub fn next_word(line: &[u8]) -> Option<(&[u8], &[u8])>
    ensures { MatchOption result (words_of line.now ≡ []) (λ r. IsNextWord line.now r.0.now r.1.now) }
{
    let rest = skip_blanks(line);
    if rest.is_empty() {
        return None;
    }
    Some(split_word(rest))
}

/// Returns whether two words are equal.
pub fn is_word(word: &[u8], text: &[u8]) -> bool
    ensures { result ≡ bytes_eq word.now text.now }
{
    word == text
}

/// Returns whether a word can be the name of a slot.
fn is_slot(word: &[u8]) -> bool
    ensures { IsTrue result ↔ IsSlot word.now }
{
    !word.is_empty() && word.iter().all(|byte| is_word_byte(*byte))
}

/// Returns the next word, if it is UTF-8.
#[tactic(auto, unfolding(crate::specs::Words::text_in))]
pub fn text(alloc: Global, line: &[u8]) -> Result<(String, &[u8]), TokenError>
    ensures { Reads result (λ r. (string_bytes r.0, words_of r.1.now)) (text_in (words_of line.now)) }
{
    let Some((word, rest)) = next_word(line) else {
        return Err(TokenError::Fault(misfit_at(line)));
    };
    match str::from_utf8(word) {
        Ok(text) => Ok((String::from_str(alloc, text)?, rest)),
        Err(_) => Err(TokenError::Fault(misfit_at(line))),
    }
}

/// Returns the name of a slot, which is the next word.
#[tactic(auto, unfolding(crate::specs::Words::slot_in))]
pub fn slot(alloc: Global, line: &[u8]) -> Result<(String, &[u8]), TokenError>
    ensures { Reads result (λ r. (string_bytes r.0, words_of r.1.now)) (slot_in (words_of line.now)) }
{
    let (name, rest) = text(alloc, line)?;
    if is_slot(name.as_bytes()) {
        Ok((name, rest))
    } else {
        Err(TokenError::Fault(misfit_at(line)))
    }
}

/// Returns the name of a slot, which is the last word.
#[tactic(auto, unfolding(crate::specs::Words::one_slot_in))]
pub fn one_slot(alloc: Global, line: &[u8]) -> Result<String, TokenError>
    ensures { Reads result string_bytes (one_slot_in (words_of line.now)) }
{
    let (name, rest) = slot(alloc, line)?;
    no_word(rest)?;
    Ok(name)
}

/// Checks that only blanks are left of the line.
#[tactic(auto, unfolding(crate::specs::Words::no_word_in))]
pub fn no_word(line: &[u8]) -> Result<(), TokenError>
    ensures { Reads result (λ _. tt) (no_word_in (words_of line.now)) }
{
    match next_word(line) {
        None => Ok(()),
        Some(_) => Err(TokenError::Fault(misfit_at(line))),
    }
}
