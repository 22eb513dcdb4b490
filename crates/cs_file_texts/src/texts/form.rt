//! The forms in which changesets are printed.
ghost use Rattle.cs_wire.specs.Headers.{header_of};
ghost use Rattle.cs_file_texts.specs.Gathering.{Gathers};
ghost use Rattle.cs_file_texts.specs.Forms.{header_part, entry_part};

use crate::fault::OutputFault;
use crate::gather::Gather;
use crate::texts::{dump, sql};
use crate::told::Told;
use cs_wire::{EntryRef, HeaderRef};
use std::io::Write;

/// The form in which a changeset is printed.
#[derive(Clone, Copy, Debug)]
pub enum Form {
    /// A line for each table and each entry.
    Dump,
    /// A statement for each entry.
    Sql,
}

/// Appends the line of a table, if the form has one.
pub(super) fn add_header<W: Write>(
    gather: &mut Gather,
    out: &mut Told<W>,
    form: Form,
    header: HeaderRef<'_>,
) -> Result<(), OutputFault>
    ensures { Gathers W.contents result gather.old gather.new out.old out.new (header_part form (header_of header.entry)) }
{
    match form {
        Form::Dump => dump::add_header(gather, out, header),
        Form::Sql => Ok(()),
    }
}

/// Appends an entry of the table with this name.
pub(super) fn add_entry<W: Write>(
    gather: &mut Gather,
    out: &mut Told<W>,
    form: Form,
    name: &str,
    entry: &EntryRef<'_>,
) -> Result<(), OutputFault>
    ensures { Gathers W.contents result gather.old gather.new out.old out.new (entry_part form name.now entry.now.entry) }
{
    match form {
        Form::Dump => dump::add_entry(gather, out, entry),
        Form::Sql => sql::add_statement(gather, out, name, entry),
    }
}
