//! Pieces of lines.
ghost use Rattle.std.specs.List.{flat_map};
ghost use Rattle.cs_file_texts.specs.Gathering.{Gathers};
ghost use Rattle.cs_file_texts.specs.Pieces.{line_piece_text};

use crate::fault::OutputFault;
use crate::gather::Gather;
use crate::texts::list::{Print, add_each, add_separated};
use crate::texts::literal::{add_number, add_quoted};
use crate::told::Told;
use cs_value::Row;
use std::io::Write;

/// A piece of a line of text.
#[derive(Clone, Copy, Debug)]
pub enum Piece<'a> {
    /// These bytes.
    Bytes(&'a [u8]),
    /// The digits of a number.
    Number(usize),
    /// A text in quotes.
    Quoted(&'a str),
    /// The flags of columns.
    Flags(&'a [u8]),
    /// The values of a row, as in a list of rows.
    Listed(&'a Row),
}

impl Print for Piece<'_> {
    ghost text = { line_piece_text };

    fn print<W: Write>(&self, gather: &mut Gather, out: &mut Told<W>) -> Result<(), OutputFault> {
        match *self {
            Piece::Bytes(bytes) => gather.add(out, bytes),
            Piece::Number(number) => add_number(gather, out, number),
            Piece::Quoted(text) => add_quoted(gather, out, b'\'', text.as_bytes()),
            Piece::Flags(flags) => add_separated(gather, out, b",", flags),
            Piece::Listed(row) => add_separated(gather, out, b"|", row.values()),
        }
    }
}

/// Appends pieces to the buffer in their order, and writes the buffer when it is full.
///
/// # Errors
///
/// [`OutputFault`] if a write fails or accepts no byte. Then a prefix of the buffer and the pieces is written, the rest
/// is lost, and the flag of `out` is set.
pub fn add_pieces<W: Write>(
    gather: &mut Gather,
    out: &mut Told<W>,
    pieces: &[Piece<'_>],
) -> Result<(), OutputFault>
    ensures { Gathers W.contents result gather.old gather.new out.old out.new
        (flat_map line_piece_text pieces.now) }
{
    add_each(gather, out, pieces)
}
