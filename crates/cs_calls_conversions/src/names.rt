//! The names of tables, as answers have them.
ghost use Rattle.std.specs.Prelude.{◌≡◌, IfOk, map, string_bytes};

use crate::key::text_of;
use cs_calls_answers::Names;
use cs_value::{MAX_CONTENT_LEN, NoMemory, Text};
use std::alloc::Global;

/// Returns the text of a name.
///
/// # Errors
///
/// `NoMemory` if out of memory, or if the name has more than 2147483647 bytes, which no text has.
pub fn name_text(alloc: Global, name: &str) -> Result<Text, NoMemory>
    ensures { IfOk result (λ text. text ≡ name.now) }
{
    if name.len() > MAX_CONTENT_LEN {
        return Err(NoMemory);
    }
    text_of(alloc, name)
}

/// Returns names as an answer has them.
///
/// # Errors
///
/// Those of [`name_text`].
pub fn names_of(alloc: Global, names: &[String]) -> Result<Names, NoMemory>
    ensures { IfOk result (λ list. list ≡ map string_bytes names.now) }
{
    let mut texts = Vec::new(alloc);
    for name in names {
        texts.push(name_text(alloc, name.as_str())?)?;
    }
    Ok(Names::new(texts))
}
