//! The commands on files.
ghost use Rattle.std.specs.Prelude.{◌≡◌, IfOk, IfErr, OnOk, OnErr};
ghost use Rattle.cs_file_texts.specs.Texts.{dump_of, sql_of};
ghost use Rattle.cs_folder.specs.Files.{HasFile, ReplacesFile};
ghost use Rattle.cs_shell_commands.specs.Folders.{InvertsFile, JoinsFiles, PrintsFile};
ghost use Rattle.cs_shell_commands.specs.Folders.{RefusesInvert, RefusesJoin, RefusesPrint, RefusesRead, RefusesWrite};

use cs_files::{OutputFault, Told, concat_bytes, invert_bytes, print_dump, print_sql};
use cs_folder::{Folder, FolderError};
use cs_shell_replies::Refusal;
use std::alloc::Global;
use std::io::Write;

/// Returns the bytes of a file.
pub(crate) fn read_file<F: Folder>(
    alloc: Global,
    folder: &F,
    file: &str,
) -> Result<Vec<u8>, Refusal>
    ensures read { IfOk result (λ bytes. HasFile (F.files folder.now) file.now bytes.items) }
    ensures refused { IfErr result (RefusesRead (F.files folder.now) file.now) }
{
    match folder.read(alloc, file) {
        Ok(bytes) => Ok(bytes),
        Err(FolderError::NoMemory) => Err(Refusal::NoMemory),
        Err(FolderError::Failed) => Err(Refusal::Input),
    }
}

/// Replaces the file OUT.
fn write_out<F: Folder>(
    alloc: Global,
    folder: &mut F,
    out: &str,
    bytes: &[u8],
) -> Result<(), Refusal>
    ensures written { OnOk result (ReplacesFile (F.files folder.old) out.now bytes.now (F.files folder.new)) }
    ensures refused { IfErr result (RefusesWrite (F.files folder.old)) }
    ensures kept { OnErr result (F.files folder.new ≡ F.files folder.old) }
{
    match folder.replace(alloc, out, bytes) {
        Ok(()) => Ok(()),
        Err(FolderError::NoMemory) => Err(Refusal::NoMemory),
        Err(FolderError::Failed) => Err(Refusal::Output(OutputFault)),
    }
}

/// Writes the inverse of a file into the file OUT, which is replaced once the inverse is made.
///
/// # Errors
///
/// In this order: `Input` if the file cannot be read, `Read` if it is not a changeset file, `Output` if OUT cannot be
/// replaced. At any point `NoMemory`. An error changes no file.
pub fn invert<F: Folder>(
    alloc: Global,
    folder: &mut F,
    file: &str,
    out: &str,
) -> Result<(), Refusal>
    ensures done { OnOk result (InvertsFile (F.files folder.old) file.now out.now (F.files folder.new)) }
    ensures refused { IfErr result (RefusesInvert (F.files folder.old) file.now) }
    ensures kept { OnErr result (F.files folder.new ≡ F.files folder.old) }
{
    let bytes = read_file(alloc, folder, file)?;
    let inverse = invert_bytes(alloc, &bytes)?;
    write_out(alloc, folder, out, &inverse)
}

/// Writes the concatenation of two files into the file OUT, which is replaced once the concatenation is made.
///
/// # Errors
///
/// In this order: `Input` if a file cannot be read, the first one first, `Files` if the two cannot be concatenated,
/// `Output` if OUT cannot be replaced. At any point `NoMemory`. An error changes no file.
pub fn concat<F: Folder>(
    alloc: Global,
    folder: &mut F,
    first: &str,
    second: &str,
    out: &str,
) -> Result<(), Refusal>
    ensures done { OnOk result (JoinsFiles (F.files folder.old) first.now second.now out.now (F.files folder.new)) }
    ensures refused { IfErr result (RefusesJoin (F.files folder.old) first.now second.now) }
    ensures kept { OnErr result (F.files folder.new ≡ F.files folder.old) }
{
    let bytes = read_file(alloc, folder, first)?;
    let other = read_file(alloc, folder, second)?;
    let joined = concat_bytes(alloc, &bytes, &other)?;
    write_out(alloc, folder, out, &joined)
}

/// Prints a file as text.
///
/// # Errors
///
/// In this order: `Input` if the file cannot be read, `Read` if it is not a changeset file, `Output` if a write fails.
/// Then a prefix of the text is printed, and else nothing. At any point `NoMemory`.
pub fn dump<F: Folder, W: Write>(
    alloc: Global,
    folder: &F,
    file: &str,
    out: &mut Told<W>,
) -> Result<(), Refusal>
    ensures done { OnOk result (PrintsFile W.contents dump_of (F.files folder.now) file.now out.old out.new) }
    ensures refused { IfErr result (RefusesPrint W.contents dump_of (F.files folder.now) file.now out.old out.new) }
{
    let bytes = read_file(alloc, folder, file)?;
    Ok(print_dump(alloc, &bytes, out)?)
}

/// Prints a file as SQL.
///
/// # Errors
///
/// Those of [`dump`].
pub fn sql<F: Folder, W: Write>(
    alloc: Global,
    folder: &F,
    file: &str,
    out: &mut Told<W>,
) -> Result<(), Refusal>
    ensures done { OnOk result (PrintsFile W.contents sql_of (F.files folder.now) file.now out.old out.new) }
    ensures refused { IfErr result (RefusesPrint W.contents sql_of (F.files folder.now) file.now out.old out.new) }
{
    let bytes = read_file(alloc, folder, file)?;
    Ok(print_sql(alloc, &bytes, out)?)
}
