//! Blobs.
ghost use Rattle.std.specs.Prelude.{◌≡◌, ◌==◌, ◌++◌, All, not, true, false, IfOk};
ghost use Rattle.cs_shell_tokens.specs.Tokens.{begins};
ghost use Rattle.cs_shell_tokens.specs.Reading.{Gives, blob_at, blob_of};

use crate::token::{Found, Token};
use cs_value::{Bytes, NoMemory, OwnedValue};
use hex::FromHexError;
use std::alloc::Global;

/// Returns the blob of a line that begins with the quote after the X.
#[tactic(auto, unfolding(crate::specs::Reading::blob_at))]
pub(crate) fn read_blob(alloc: Global, line: &[u8]) -> Result<Found<'_>, NoMemory>
    ensures { IfOk result (Gives (blob_at line.now)) }
{
    let [_, after @ ..] = line else {
        return Ok(Found::Malformed);
    };
    let (digits, rest) = split_at_quote(after);
    decode_blob(alloc, digits, rest)
}

/// Splits a line before its first quote.
fn split_at_quote(line: &[u8]) -> (&[u8], &[u8])
    ensures joined { line.now ≡ result.0.now ++ result.1.now }
    ensures digits { All (λ b. not (b == 39) ≡ true) result.0.now }
    ensures ended { begins (λ b. not (b == 39)) result.1.now ≡ false }
{
    let end = line
        .iter()
        .position(|byte| *byte == b'\'')
        .unwrap_or(line.len());
    line.split_at(end)
}

/// Returns the blob of these digits, if the rest begins with the quote that ends them.
#[tactic(auto, unfolding(crate::specs::Reading::blob_of, crate::specs::Reading::blob_from))]
fn decode_blob<'a>(alloc: Global, digits: &[u8], rest: &'a [u8]) -> Result<Found<'a>, NoMemory>
    ensures { IfOk result (Gives (blob_of digits.now rest.now)) }
{
    let [_, after @ ..] = rest else {
        return Ok(Found::Malformed);
    };
    match hex::decode(alloc, digits) {
        Ok(bytes) if OwnedValue::fits(bytes.len()) => {
            let value = OwnedValue::Blob(Bytes::new(bytes));
            Ok(Found::Token(Token::Value(value), after))
        }
        Err(FromHexError::OutOfMemory) => Err(NoMemory),
        _ => Ok(Found::Malformed),
    }
}
