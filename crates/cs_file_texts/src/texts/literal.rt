//! Literals of values.
ghost use Rattle.std.specs.Prelude.{◌≤◌, ◌∷◌, [], length, decimal};
ghost use Rattle.hex.specs.Hex.{encode_lower};
ghost use Rattle.cs_file_texts.specs.Gathering.{Gathers};
ghost use Rattle.cs_value.specs.Quoting.{doubled, quoted};
ghost use Rattle.cs_value.specs.Value.{value_of};
ghost use Rattle.cs_file_texts.specs.Texts.{literal};
ghost use Rattle.cs_value.specs.declared.value.OwnedValue.TheVariants.{Blob};

use crate::fault::OutputFault;
use crate::gather::Gather;
use crate::told::Told;
use cs_value::Value;
use itoa::Buffer;
use std::io::Write;

/// The number of bytes of a blob that are turned into digits at once.
const CHUNK_LEN: usize = 64;

/// Appends the digits of a number.
pub(super) fn add_number<W: Write>(
    gather: &mut Gather,
    out: &mut Told<W>,
    number: usize,
) -> Result<(), OutputFault>
    ensures { Gathers W.contents result gather.old gather.new out.old out.new (decimal number) }
{
    let mut buffer = Buffer::new();
    gather.add(out, buffer.format(number).as_bytes())
}

/// Appends a byte of a text, twice if it is the quote.
#[tactic(auto, unfolding(cs_value::specs::Quoting::doubled))]
fn add_quotable<W: Write>(
    gather: &mut Gather,
    out: &mut Told<W>,
    quote: u8,
    byte: u8,
) -> Result<(), OutputFault>
    ensures { Gathers W.contents result gather.old gather.new out.old out.new (doubled quote (byte ∷ [])) }
{
    if byte == quote {
        gather.add(out, &[quote, quote])
    } else {
        gather.add(out, &[byte])
    }
}

/// Appends a text with each quote doubled.
fn add_doubled<W: Write>(
    gather: &mut Gather,
    out: &mut Told<W>,
    quote: u8,
    text: &[u8],
) -> Result<(), OutputFault>
    ensures { Gathers W.contents result gather.old gather.new out.old out.new (doubled quote text.now) }
{
    for byte in text {
        add_quotable(gather, out, quote, *byte)?;
    }
    Ok(())
}

/// Appends a text in quotes.
pub(super) fn add_quoted<W: Write>(
    gather: &mut Gather,
    out: &mut Told<W>,
    quote: u8,
    text: &[u8],
) -> Result<(), OutputFault>
    ensures { Gathers W.contents result gather.old gather.new out.old out.new (quoted quote text.now) }
{
    gather.add(out, &[quote])?;
    add_doubled(gather, out, quote, text)?;
    gather.add(out, &[quote])
}

/// Appends the hexadecimal digits of a few bytes.
fn add_chunk<W: Write>(
    gather: &mut Gather,
    out: &mut Told<W>,
    chunk: &[u8],
) -> Result<(), OutputFault>
    requires { length chunk.now ≤ CHUNK_LEN }
    ensures { Gathers W.contents result gather.old gather.new out.old out.new (encode_lower chunk.now) }
{
    let mut digits = [0; 2 * CHUNK_LEN];
    let end = 2 * chunk.len();
    let _ = hex::encode_to_slice(chunk, &mut digits[..end]);
    gather.add(out, &digits[..end])
}

/// Appends the hexadecimal digits of bytes.
fn add_digits<W: Write>(
    gather: &mut Gather,
    out: &mut Told<W>,
    bytes: &[u8],
) -> Result<(), OutputFault>
    ensures { Gathers W.contents result gather.old gather.new out.old out.new (encode_lower bytes.now) }
{
    let mut rest = bytes;
    while !rest.is_empty() {
        let (chunk, after) = rest.split_at(rest.len().min(CHUNK_LEN));
        add_chunk(gather, out, chunk)?;
        rest = after;
    }
    Ok(())
}

/// Appends the literal of a blob.
fn add_blob<W: Write>(
    gather: &mut Gather,
    out: &mut Told<W>,
    bytes: &[u8],
) -> Result<(), OutputFault>
    ensures { Gathers W.contents result gather.old gather.new out.old out.new (literal (Blob bytes.now)) }
{
    gather.add(out, b"X'")?;
    add_digits(gather, out, bytes)?;
    gather.add(out, b"'")
}

/// Appends the literal of a value.
#[tactic(auto, unfolding(crate::specs::Texts::literal))]
pub(super) fn add_literal<W: Write>(
    gather: &mut Gather,
    out: &mut Told<W>,
    value: Value<'_>,
) -> Result<(), OutputFault>
    ensures { Gathers W.contents result gather.old gather.new out.old out.new (literal (value_of value.entry)) }
{
    match value {
        Value::Int(number) => {
            let mut buffer = Buffer::new();
            gather.add(out, buffer.format(number).as_bytes())
        }
        Value::Text(text) => add_quoted(gather, out, b'\'', text.as_bytes()),
        Value::Blob(bytes) => add_blob(gather, out, bytes),
        Value::Null => gather.add(out, b"NULL"),
    }
}
