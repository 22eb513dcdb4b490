//! The text with a line for each table and each entry.
ghost use Rattle.std.specs.Prelude.{◌≡◌};
ghost use Rattle.cs_wire.specs.Headers.{header_of};
ghost use Rattle.cs_file_texts.specs.Gathering.{Gathers};
ghost use Rattle.cs_file_texts.specs.Texts.{flag_text, header_text, entry_text};
ghost use Rattle.cs_file_texts.specs.Pieces.{change_text, record_text};

use crate::fault::OutputFault;
use crate::gather::Gather;
use crate::texts::list::{add_each, add_fields};
use crate::texts::piece::Piece;
use crate::told::Told;
use cs_wire::{EntryRef, Fields, HeaderRef};
use std::io::Write;

/// Appends the line of a table.
#[tactic(auto, unfolding(crate::specs::Texts::header_text))]
pub(super) fn add_header<W: Write>(
    gather: &mut Gather,
    out: &mut Told<W>,
    header: HeaderRef<'_>,
) -> Result<(), OutputFault>
    ensures { Gathers W.contents result gather.old gather.new out.old out.new (header_text (header_of header.entry)) }
{
    add_each(
        gather,
        out,
        &[
            Piece::Bytes(b"table "),
            Piece::Quoted(header.name),
            Piece::Bytes(b" columns "),
            Piece::Number(header.flags.len()),
            Piece::Bytes(b" flags "),
            Piece::Flags(header.flags),
            Piece::Bytes(b"\n"),
        ],
    )
}

/// Returns the word for the operation of an entry.
fn change_bytes(entry: &EntryRef<'_>) -> &'static [u8]
    ensures { result.now ≡ change_text entry.now.entry.change }
{
    match (entry.old_fields(), entry.new_fields()) {
        (None, _) => b"insert ",
        (_, None) => b"delete ",
        _ => b"update ",
    }
}

/// Returns the text of the indirect flag.
fn flag_bytes(indirect: bool) -> &'static [u8]
    ensures { result.now ≡ flag_text indirect }
{
    if indirect { b"1" } else { b"0" }
}

/// Appends the name and the fields of a record, if there is one.
fn add_record<W: Write>(
    gather: &mut Gather,
    out: &mut Told<W>,
    name: &[u8],
    fields: Option<Fields<'_>>,
) -> Result<(), OutputFault>
    ensures { Gathers W.contents result gather.old gather.new out.old out.new (record_text name.now fields.entry) }
{
    let Some(fields) = fields else {
        return Ok(());
    };
    gather.add(out, name)?;
    add_fields(gather, out, b",", fields)
}

/// Appends the line of an entry.
pub(super) fn add_entry<W: Write>(
    gather: &mut Gather,
    out: &mut Told<W>,
    entry: &EntryRef<'_>,
) -> Result<(), OutputFault>
    ensures { Gathers W.contents result gather.old gather.new out.old out.new
        (entry_text entry.now.entry.indirect entry.now.entry.change) }
{
    let flag = flag_bytes(entry.indirect());
    gather.add_all(out, &[change_bytes(entry), flag])?;
    add_record(gather, out, b" old ", entry.old_fields())?;
    add_record(gather, out, b" new ", entry.new_fields())?;
    gather.add(out, b"\n")
}
