//! Texts in quotes.
ghost use Rattle.std.specs.Prelude.{◌≡◌, false, IfOk};
ghost use Rattle.cs_shell_tokens.specs.Reading.{unquoted, unquoted_of};

use cs_value::NoMemory;
use std::alloc::Global;

/// Returns the text of a line that begins after the first quote, with each doubled quote in it once, and the line after
/// the closing quote. Returns None if there is no closing quote.
pub(crate) fn read_quoted(
    alloc: Global,
    quote: u8,
    line: &[u8],
) -> Result<Option<(Vec<u8>, &[u8])>, NoMemory>
    ensures { IfOk result (λ read. unquoted quote false line.now ≡ unquoted_of read) }
{
    let mut text = Vec::new(alloc);
    let mut rest = line;
    while let Some((byte, after)) = rest.split_first() {
        rest = after;
        if *byte == quote {
            match after.split_first() {
                Some((next, behind)) if *next == quote => rest = behind,
                _ => return Ok(Some((text, after))),
            }
        }
        text.push(*byte)?;
    }
    Ok(None)
}
