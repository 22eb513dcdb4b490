//! The readable texts of changesets.
ghost use Rattle.std.specs.Prelude.{[], List};
ghost use Rattle.cs_wire.specs.Changeset.{GroupData};
ghost use Rattle.cs_file_scan.specs.Tables.{EntriesLeft};
ghost use Rattle.cs_file_texts.specs.Calls.{Writes};
ghost use Rattle.cs_file_texts.specs.Texts.{dump_of, sql_of};
ghost use Rattle.cs_file_texts.specs.Forms.{form_text};

mod dump;
mod form;
mod groups;
mod list;
mod literal;
mod piece;
mod sql;
mod tables;

use crate::fault::OutputFault;
use crate::gather::Gather;
use crate::told::Told;
use cs_file_scan::Tables;
use cs_wire::{Changeset, Group};
pub use form::Form;
use groups::add_groups;
pub use piece::{Piece, add_pieces};
use std::io::Write;
use tables::add_tables;

/// Writes the changeset as readable text. Each table has a line with its name, the number of its columns and their
/// flags. After it each entry has a line with the change, the indirect flag and the fields of its records. A line feed
/// in a text or a name is printed as it is. The call allocates nothing, and writes some thousands of bytes at a time.
///
/// # Errors
///
/// [`OutputFault`] if a write fails or accepts no byte. Then a prefix of the text is written, and the flag of `out` is
/// set.
pub fn dump_text<W: Write>(changeset: &Changeset, out: &mut Told<W>) -> Result<(), OutputFault>
    ensures { Writes W.contents result out.old out.new (dump_of changeset.now) }
{
    write_groups(Form::Dump, changeset.groups(), out)
}

/// Writes the changeset as readable SQL, a statement for each entry. The format has no names of columns, so they are
/// c1, c2 and so on. The call allocates nothing, and writes some thousands of bytes at a time.
///
/// # Errors
///
/// [`OutputFault`] if a write fails or accepts no byte. Then a prefix of the text is written, and the flag of `out` is
/// set.
pub fn sql_text<W: Write>(changeset: &Changeset, out: &mut Told<W>) -> Result<(), OutputFault>
    ensures { Writes W.contents result out.old out.new (sql_of changeset.now) }
{
    write_groups(Form::Sql, changeset.groups(), out)
}

/// Writes groups in this form.
fn write_groups<W: Write>(
    form: Form,
    groups: &[Group],
    out: &mut Told<W>,
) -> Result<(), OutputFault>
    ensures { Writes W.contents result out.old out.new (form_text form groups.now) }
{
    let mut gather = Gather::new();
    add_groups(&mut gather, out, form, groups)?;
    gather.flush(out)
}

/// Writes the tables of a file in this form.
pub fn write_tables<W: Write>(
    form: Form,
    tables: Tables<'_>,
    out: &mut Told<W>,
) -> Result<(), OutputFault>
    ensures { (groups : List GroupData) → EntriesLeft tables.entry [] groups
        → Writes W.contents result out.old out.new (form_text form groups) }
{
    let mut gather = Gather::new();
    add_tables(&mut gather, out, form, tables)?;
    gather.flush(out)
}
