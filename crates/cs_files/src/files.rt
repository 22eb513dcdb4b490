//! Files of inverses and of concatenations, and the readable texts of a file.
ghost use Rattle.std.specs.Prelude.{◌≡◌, ◌+◌, ◌≤◌, length, IfOk, IfErr, IsTrue, OnOk};
ghost use Rattle.cs_value.specs.Refusals.{Refuses};
ghost use Rattle.cs_wire.specs.ReadFaults.{ReadFails};
ghost use Rattle.cs_files.specs.Files.{Inverts, Joins, Numbers, Prints, JoinFails, FirstFails};
ghost use Rattle.cs_file_texts.specs.Told.{has_failed};
ghost use Rattle.cs_file_texts.specs.Texts.{dump_of, sql_of};
ghost use Rattle.cs_file_texts.specs.Forms.{form_text};
ghost use Rattle.cs_files.specs.Printing.{IfUnread, IfUnwritten, PrintsTo, PrintsFrontTo};

use crate::fault::{PrintError, ToolFault, first_fault, second_fault, text_fault};
use crate::inverting::{Inverting, write_inverse};
use crate::joining::join_tables;
use crate::numbering::write_numbered;
use cs_file_scan::{NamedTables, Tables};
use cs_file_texts::{Form, Told, write_tables};
use cs_wire::ReadError;
use std::alloc::Global;
use std::io::Write;

/// Returns the file of the inverse changeset. It has the same tables and entries in the same order, and the same
/// length. Inserts and deletes are exchanged, and so are the two values of each modified column of an update.
///
/// # Errors
///
/// `Fault` if the bytes are not the file of a changeset, with the fault's kind and byte offset. `NoMemory` if memory
/// runs out.
pub fn invert_bytes(alloc: Global, file: &[u8]) -> Result<Vec<u8>, ReadError>
    ensures inverted { IfOk result (λ out. Inverts file.now out.items) }
    ensures length { IfOk result (λ out. length out.items ≡ length file.now) }
    ensures refused { IfErr result (Refuses (λ f. ReadFails file.now f.kind f.place)) }
{
    let mut inverting = Inverting {
        out: Vec::with_capacity(alloc, file.len())?,
    };
    let Some(tables) = Tables::visit(alloc, file, &mut inverting)? else {
        return Ok(inverting.out);
    };
    let mut out = inverting.out;
    out.clear();
    write_inverse(&mut out, tables)?;
    Ok(out)
}

/// Returns the file of the changeset with the flags of key columns numbered, as [`cs_group::number_keys`] numbers them.
/// It says and does the same, and has the same length. It allocates that many bytes, what reading allocates, and the
/// flags of one table at a time.
///
/// # Errors
///
/// `Fault` if the bytes are not the file of a changeset, with the fault's kind and byte offset. `NoMemory` if memory
/// runs out.
pub fn number_keys_bytes(alloc: Global, file: &[u8]) -> Result<Vec<u8>, ReadError>
    ensures numbered { IfOk result (λ out. Numbers file.now out.items) }
    ensures length { IfOk result (λ out. length out.items ≡ length file.now) }
    ensures refused { IfErr result (Refuses (λ f. ReadFails file.now f.kind f.place)) }
{
    let tables = Tables::read(alloc, file)?;
    let mut out = Vec::with_capacity(alloc, file.len())?;
    write_numbered(alloc, &mut out, tables)?;
    Ok(out)
}

/// Returns the file of the concatenation: it does what the first file does, and then what the second does, as
/// [`cs_group::concat`]. It is at most as long as both together. The call allocates as many bytes as both files have,
/// what reading allocates, the names of all tables, and some 33 bytes for each entry of one table of the second file
/// at a time.
///
/// # Errors
///
/// - `First` if the first file is not the file of a changeset, with the fault's kind and byte offset.
/// - `Second` if only the second file is not.
/// - `Schema` if a table has other columns or another key in the second file, with the zero-based index of its group
///   there.
/// - `NoMemory` if memory runs out.
pub fn concat_bytes(alloc: Global, first: &[u8], second: &[u8]) -> Result<Vec<u8>, ToolFault>
    ensures joined { IfOk result (λ out. Joins first.now second.now out.items) }
    ensures length { IfOk result (λ out. length out.items ≤ length first.now + length second.now) }
    ensures refused { IfErr result (Refuses (JoinFails first.now second.now)) }
{
    let known = NamedTables::read(alloc, first).map_err(first_fault)?;
    let added = NamedTables::read(alloc, second).map_err(second_fault)?;
    Ok(join_tables(alloc, &known, &added, first.len() + second.len())?)
}

/// Reads a file to its end, and then writes it as text, as [`dump_text`](crate::dump_text) does. Only reading
/// allocates.
///
/// # Errors
///
/// - `Read` if the bytes are not the file of a changeset, with the fault's kind and byte offset, or if memory runs out.
///   Then nothing is written.
/// - `Output` if a write fails or accepts no byte. Then a prefix of the text is written, and the flag of `out` is set.
pub fn print_dump<W: Write>(alloc: Global, file: &[u8], out: &mut Told<W>) -> Result<(), PrintError>
    ensures printed { OnOk result (PrintsTo W.contents dump_of file.now out.old out.new) }
    ensures refused { IfErr result (IfUnread (Refuses (λ f. ReadFails file.now f.kind f.place))) }
    ensures untouched { IfErr result (IfUnread (λ _. out.new ≡ out.old)) }
    ensures interrupted { IfErr result (IfUnwritten (PrintsFrontTo W.contents dump_of file.now out.old out.new)) }
    ensures flagged { IfErr result (IfUnwritten (IsTrue (has_failed out.new))) }
{
    print_file(alloc, file, Form::Dump, out)
}

/// Reads a file to its end, and then writes it as SQL, as [`sql_text`](crate::sql_text) does. Only reading allocates.
///
/// # Errors
///
/// - `Read` if the bytes are not the file of a changeset, with the fault's kind and byte offset, or if memory runs out.
///   Then nothing is written.
/// - `Output` if a write fails or accepts no byte. Then a prefix of the text is written, and the flag of `out` is set.
pub fn print_sql<W: Write>(alloc: Global, file: &[u8], out: &mut Told<W>) -> Result<(), PrintError>
    ensures printed { OnOk result (PrintsTo W.contents sql_of file.now out.old out.new) }
    ensures refused { IfErr result (IfUnread (Refuses (λ f. ReadFails file.now f.kind f.place))) }
    ensures untouched { IfErr result (IfUnread (λ _. out.new ≡ out.old)) }
    ensures interrupted { IfErr result (IfUnwritten (PrintsFrontTo W.contents sql_of file.now out.old out.new)) }
    ensures flagged { IfErr result (IfUnwritten (IsTrue (has_failed out.new))) }
{
    print_file(alloc, file, Form::Sql, out)
}

/// Writes a file in this form.
fn print_file<W: Write>(
    alloc: Global,
    file: &[u8],
    form: Form,
    out: &mut Told<W>,
) -> Result<(), PrintError>
    ensures printed { OnOk result (PrintsTo W.contents (form_text form) file.now out.old out.new) }
    ensures refused { IfErr result (IfUnread (Refuses (λ f. ReadFails file.now f.kind f.place))) }
    ensures untouched { IfErr result (IfUnread (λ _. out.new ≡ out.old)) }
    ensures interrupted { IfErr result (IfUnwritten (PrintsFrontTo W.contents (form_text form) file.now out.old
        out.new)) }
    ensures flagged { IfErr result (IfUnwritten (IsTrue (has_failed out.new))) }
{
    let tables = Tables::read(alloc, file)?;
    Ok(write_tables(form, tables, out)?)
}

/// Returns the text of a file that [`dump_text`](crate::dump_text) writes.
///
/// # Errors
///
/// `First` if the bytes are not the file of a changeset, with the fault's kind and byte offset. `NoMemory` if memory
/// runs out.
pub fn dump_file(alloc: Global, file: &[u8]) -> Result<Vec<u8>, ToolFault>
    ensures printed { IfOk result (λ text. Prints dump_of file.now text.items) }
    ensures refused { IfErr result (Refuses (FirstFails file.now)) }
{
    let mut text = Told::new(Vec::new(alloc));
    match print_dump(alloc, file, &mut text) {
        Ok(()) => Ok(text.into_inner()),
        Err(fault) => Err(text_fault(fault)),
    }
}

/// Returns the SQL of a file that [`sql_text`](crate::sql_text) writes.
///
/// # Errors
///
/// `First` if the bytes are not the file of a changeset, with the fault's kind and byte offset. `NoMemory` if memory
/// runs out.
pub fn sql_file(alloc: Global, file: &[u8]) -> Result<Vec<u8>, ToolFault>
    ensures printed { IfOk result (λ text. Prints sql_of file.now text.items) }
    ensures refused { IfErr result (Refuses (FirstFails file.now)) }
{
    let mut text = Told::new(Vec::new(alloc));
    match print_sql(alloc, file, &mut text) {
        Ok(()) => Ok(text.into_inner()),
        Err(fault) => Err(text_fault(fault)),
    }
}
