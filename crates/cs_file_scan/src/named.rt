//! The tables of a changeset's file by their names.
ghost use Rattle.std.specs.Prelude.{◌≡◌, ◌≢◌, ◌<◌, ◌↔◌, ◌++◌, ◌∷◌, [], All, IfErr, IfOk, IfSome, IsTrue, List, OnErr};
ghost use Rattle.std.specs.Prelude.{OnOk, is_none, length};
ghost use Rattle.cs_value.specs.Refusals.{Refuses};
ghost use Rattle.cs_wire_entries.specs.declared.entry.Entry.{Entry as EntryData};
ghost use Rattle.cs_wire.specs.Changeset.{GroupData, IsHeader};
ghost use Rattle.cs_wire.specs.Headers.{header_of};
ghost use Rattle.cs_wire.specs.ReadFaults.{ReadFails};
ghost use Rattle.cs_file_scan.specs.Named.{AreListed, IsListing, header_at, table_of, tables_at};
ghost use Rattle.cs_file_scan.specs.Tables.{EntriesLeft};
ghost use Rattle.cs_wire.specs.Views.{IsIndexWhere};

use crate::checked::{ListedTable, pass_table};
use crate::hashed::HashedIndices;
use crate::tables::Tables;
use crate::visit::Unvisited;
use cs_value::NoMemory;
use cs_wire::{HeaderRef, ReadError};
use std::alloc::Global;
use std::borrow::CowSlice;
use std::marker::Model;

/// The tables of a changeset's file, in the order of the file, indexed by their names. Contracts see the file, the
/// headers, and the byte offset of each table's first entry.
#[derive(Debug, Drop)]
pub struct NamedTables<'a> {
    file: &'a [u8],
    tables: Vec<ListedTable<'a>>,
    // The index of the table with each name.
    indices: HashedIndices<'a>,
}

impl<'a> Model for NamedTables<'a> {
    ghost use Rattle.std.specs.Prelude.{map};
    ghost use Rattle.std.specs.List.{AllByRecursion};
    ghost use Rattle.cs_wire.specs.Changeset.{IsHeader};
    ghost use Rattle.cs_wire.specs.Headers.{header_of};
    ghost use Rattle.cs_file_scan.specs.Named.{NamedData, table_of};
    ghost use Rattle.cs_wire.specs.Views.{IsIndex};

    ghost Value = { NamedData };

    ghost view = { λ n. record { file = n.file.now; tables = map table_of n.tables.items } };

    ghost invariant = { λ n. IsIndex n.indices (map (λ t. t.header.name) (map table_of n.tables.items))
        × AllByRecursion (λ t. IsHeader (header_of t.header)) n.tables.items };
}

impl<'a> NamedTables<'a> {
    /// Reads a file to its end, and lists its tables.
    ///
    /// It lists them as it makes the quick check of [`Tables::read`], and finds repeated names by its index. If the
    /// quick check fails, `Tables::read` decides, and the tables are listed after it. It allocates what `Tables::read`
    /// does, and the list and its index.
    ///
    /// # Errors
    ///
    /// `Fault` if the file is not the file of a changeset: the first fault, in the order of the file. `NoMemory` if
    /// memory runs out.
    pub fn read(alloc: Global, file: &'a [u8]) -> Result<NamedTables<'a>, ReadError>
        ensures found { IfOk result (IsListing file.now) }
        ensures file { IfOk result (λ named. named.file ≡ file.now) }
        ensures refused { IfErr result (Refuses (λ f. ReadFails file.now f.kind f.place)) }
    {
        if let Some(named) = NamedTables::read_quickly(alloc, file)? {
            return Ok(named);
        }
        Ok(NamedTables::list(alloc, Tables::read(alloc, file)?)?)
    }

    /// Lists the tables of a file, or returns None if the quick check fails.
    fn read_quickly(alloc: Global, file: &'a [u8]) -> Result<Option<NamedTables<'a>>, NoMemory>
        ensures found { IfOk result (λ named. IfSome named (IsListing file.now)) }
        ensures file { IfOk result (λ named. IfSome named (λ n. n.file ≡ file.now)) }
    {
        let mut named = NamedTables::new(alloc, file);
        let mut keys = Vec::new(alloc);
        let mut place = 0;
        'tables: while place < file.len() {
            let Some((table, end)) = pass_table(alloc, file, place, &mut keys, &mut Unvisited)?
            else {
                return Ok(None);
            };
            if named.find(table.header.name).is_some() {
                return Ok(None);
            }
            named.push(table)?;
            place = end;
        }
        Ok(Some(named))
    }

    /// Lists the remaining tables of a file that was read. Remaining entries of the open table are skipped.
    fn list(alloc: Global, tables: Tables<'a>) -> Result<NamedTables<'a>, NoMemory>
        ensures listed { (entries : List EntryData) (groups : List GroupData) → EntriesLeft tables.entry entries groups
            → IfOk result (λ named. AreListed named groups) }
        ensures file { IfOk result (λ named. named.file ≡ tables.entry.file) }
    {
        let mut named = NamedTables::new(alloc, tables.file());
        let mut left = tables;
        'tables: while let Some(header) = left.next_table() {
            named.push(ListedTable {
                header,
                start: left.place(),
                count: left.count_entries(),
            })?;
        }
        Ok(named)
    }

    /// Returns an empty list of tables of a file.
    fn new(alloc: Global, file: &'a [u8]) -> NamedTables<'a>
        ensures { result ≡ record { file = file.now; tables = [] } }
    {
        NamedTables {
            file,
            tables: Vec::new(alloc),
            indices: HashedIndices::new(alloc),
        }
    }

    /// Appends a table. [`NoMemory`] leaves the list unchanged and drops the table.
    fn push(&mut self, table: ListedTable<'a>) -> Result<(), NoMemory>
        requires { IsHeader (header_of table.header) }
        ensures file { self.new.file ≡ self.old.file }
        ensures ok { OnOk result (self.new.tables ≡ self.old.tables ++ table_of table.entry ∷ []) }
        ensures err { OnErr result (self.new ≡ self.old) }
    {
        let name = CowSlice::Borrowed(table.header.name.as_bytes());
        let index = self.tables.len();
        self.tables.push(table)?;
        match self.indices.insert(name, index) {
            Ok(()) => Ok(()),
            Err(refusal) => {
                self.tables.pop();
                Err(refusal)
            }
        }
    }

    /// Returns the number of tables.
    pub fn len(&self) -> usize
        ensures { result ≡ length self.now.tables }
    {
        self.tables.len()
    }

    /// Returns the zero-based index of the table with a name, or None if there is none. It allocates nothing.
    pub fn find(&self, name: &str) -> Option<usize>
        ensures found { IfSome result (IsIndexWhere (λ t. t.header.name ≡ name.now) self.now.tables) }
        ensures absent { IsTrue (is_none result) ↔ All (λ t. t.header.name ≢ name.now) self.now.tables }
    {
        self.indices.get(name.as_bytes())
    }

    /// Returns the header of the table at a zero-based index, which is below [`NamedTables::len`].
    pub fn header(&self, index: usize) -> HeaderRef<'a>
        requires { index < length self.now.tables }
        ensures same { header_of result ≡ header_at self.now index }
        ensures well_formed { IsHeader (header_of result) }
    {
        self.tables[index].header
    }

    /// Returns the file at the first entry of the table at a zero-based index, which is below [`NamedTables::len`].
    pub fn open(&self, index: usize) -> Tables<'a>
        requires { index < length self.now.tables }
        ensures { result ≡ tables_at self.now index }
    {
        let table = &self.tables[index];
        Tables::at(self.file, table.start, table.header.flags, table.count)
    }
}
