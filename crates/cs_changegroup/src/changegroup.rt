//! A concatenation to which files are added.
ghost use Rattle.std.specs.Prelude.{◌≡◌, ◌≤◌, ◌++◌, ◌∷◌, [], IfErr, IfOk, List, None, OnErr, OnOk, Some, length, take};
ghost use Rattle.cs_value.specs.Refusals.{Refuses};
ghost use Rattle.cs_value.specs.declared.refusal.OrNoMemory.TheVariants.{NoMemory as OutOfMemory};
ghost use Rattle.cs_wire.specs.Changeset.{GroupData, file_bytes};
ghost use Rattle.cs_changegroup.specs.Adding.{AddFails};
ghost use Rattle.cs_changegroup.specs.Folding.{Adds, Holds};
ghost use Rattle.cs_changegroup.specs.Slots.{HasGroups};

use crate::many::join_files;
use crate::tables::JoinedTables;
use cs_files::ToolFault;
use cs_value::NoMemory;
use cs_wire::changeset_files_law;
use std::alloc::Global;
use std::marker::Model;

/// A concatenation to which files are added one by one, as SQLite's `sqlite3_changegroup`.
///
/// It keeps the files that were added, and an index of their keys. To add a file takes time in proportion to its
/// length, unless keys were chosen to have the same hash. A change of a row that has changed before takes time in
/// proportion to both changes. After an error [`NoMemory`] the next call may take time in proportion to all files.
#[derive(Debug, Drop)]
pub struct Changegroup {
    // The files that were added, one after the other, and their lengths.
    files: Vec<u8>,
    lengths: Vec<usize>,
    // Their tables. If memory ran out as a file was added, there are none, and the files are joined anew.
    tables: Option<JoinedTables>,
}

impl Model for Changegroup {
    ghost use Rattle.cs_changegroup.specs.Folding.{ChangegroupView};

    ghost Value = { ChangegroupView };

    ghost view = { λ c. record { files = c.files.items; lengths = c.lengths.items; tables = c.tables } };
}

impl Changegroup {
    /// Returns a changegroup without files.
    pub fn new(alloc: Global) -> Changegroup
        ensures empty { Holds result [] }
        ensures files { result.files ≡ [] }
    {
        Changegroup {
            files: Vec::new(alloc),
            lengths: Vec::new(alloc),
            tables: None,
        }
    }

    /// Adds a file: the changegroup does what it did, and then what the file does. A refusal changes nothing.
    ///
    /// # Errors
    ///
    /// - `First` if the bytes are not the file of a changeset, with the fault's kind and byte offset.
    /// - `Schema` if a table has other columns or another key than in the changegroup, with the zero-based index of its
    ///   group in the file.
    /// - `NoMemory` if memory runs out.
    pub fn add(&mut self, alloc: Global, file: &[u8]) -> Result<(), ToolFault>
        ensures added { (groups : List GroupData) → Holds self.old groups
            → OnOk result (Adds groups file.now self.new) }
        ensures refused { (groups : List GroupData) → Holds self.old groups
            → IfErr result (Refuses (AddFails groups file.now)) }
        ensures same { (groups : List GroupData) → Holds self.old groups → OnErr result (Holds self.new groups) }
        ensures grown { OnOk result (self.new.files ≡ self.old.files ++ file.now) }
        ensures kept { OnErr result (self.new.files ≡ self.old.files) }
    {
        self.reserve(file.len())?;
        let mut tables = self.take_tables(alloc)?;
        let base = self.files.len();
        self.files.extend_from_slice(file)?;
        match tables.add_file(alloc, &self.files, base, file) {
            Ok(()) => self.finish(tables, base, file.len()),
            Err(ToolFault::Fault(fault)) => {
                self.files.truncate(base);
                self.tables = Some(tables);
                Err(ToolFault::Fault(fault))
            }
            Err(ToolFault::NoMemory) => {
                self.files.truncate(base);
                Err(ToolFault::NoMemory)
            }
        }
    }

    /// Makes room for one more file with so many bytes.
    fn reserve(&mut self, count: usize) -> Result<(), NoMemory>
        ensures { self.new ≡ self.old }
    {
        self.files.reserve(count)?;
        self.lengths.reserve(1)?;
        Ok(())
    }

    /// Keeps tables to which the last file was added, or drops that file if memory runs out.
    fn finish(&mut self, tables: JoinedTables, base: usize, length: usize) -> Result<(), ToolFault>
        ensures ok { OnOk result ((self.new.files ≡ self.old.files)
            × (self.new.lengths ≡ self.old.lengths ++ length ∷ []) × (self.new.tables ≡ Some tables)) }
        ensures err { OnErr result ((self.new.files ≡ take base self.old.files)
            × (self.new.lengths ≡ self.old.lengths) × (self.new.tables ≡ self.old.tables)) }
        ensures refused { IfErr result (λ error. error ≡ OutOfMemory) }
    {
        match self.lengths.push(length) {
            Ok(()) => {
                self.tables = Some(tables);
                Ok(())
            }
            Err(_) => {
                self.files.truncate(base);
                Err(ToolFault::NoMemory)
            }
        }
    }

    /// Returns the count of bytes that [`Changegroup::to_bytes`] returns at most: that of the files that were added.
    pub fn limit(&self) -> usize
        ensures { result ≡ length self.now.files }
    {
        self.files.len()
    }

    /// Returns the file of the concatenation, which has no bytes if nothing is left. More files can be added after that.
    ///
    /// It takes time in proportion to all files that were added.
    ///
    /// # Errors
    ///
    /// [`NoMemory`] if memory runs out.
    pub fn to_bytes(&mut self, alloc: Global) -> Result<Vec<u8>, NoMemory>
        ensures file { (groups : List GroupData) → Holds self.old groups
            → IfOk result (λ out. out.items ≡ file_bytes groups) }
        ensures length { (groups : List GroupData) → Holds self.old groups
            → IfOk result (λ out. length out.items ≤ length self.old.files) }
        ensures same { (groups : List GroupData) → Holds self.old groups → Holds self.new groups }
        ensures files { self.new.files ≡ self.old.files }
    {
        let tables = self.take_tables(alloc)?;
        let out = tables.to_bytes(alloc, &self.files);
        self.tables = Some(tables);
        out
    }

    /// Takes the tables, or joins the files anew if there are none.
    fn take_tables(&mut self, alloc: Global) -> Result<JoinedTables, NoMemory>
        ensures files { (self.new.files ≡ self.old.files) × (self.new.lengths ≡ self.old.lengths) }
        ensures none { self.new.tables ≡ None }
        ensures taken { (groups : List GroupData) → Holds self.old groups
            → IfOk result (λ tables. HasGroups self.old.files tables groups) }
    {
        changeset_files_law();
        match self.tables.take() {
            Some(tables) => Ok(tables),
            None => match join_files(alloc, &self.files, &self.lengths) {
                Ok(tables) => Ok(tables),
                Err(_) => Err(NoMemory),
            },
        }
    }
}
