//! The tables of a concatenation that grows by files.
ghost use Rattle.std.specs.Prelude.{◌≡◌, ◌<◌, ◌↔◌, ◌++◌, ◌∷◌, [], ℕ, IfErr, IfNone, IfOk, IfSome, IsTrue, List, OnOk};
ghost use Rattle.std.specs.Prelude.{length};
ghost use Rattle.cs_value.specs.Refusals.{Refuses};
ghost use Rattle.cs_wire_entries.specs.declared.entry.Entry.{Entry as EntryData};
ghost use Rattle.cs_wire.specs.Changeset.{GroupData, IsChangeset, IsGroup, IsHeader, file_bytes};
ghost use Rattle.cs_wire.specs.Headers.{header_of};
ghost use Rattle.cs_file_scan.specs.Named.{AreListed};
ghost use Rattle.cs_file_scan.specs.Tables.{EntriesLeft};
ghost use Rattle.cs_group.specs.Joining.{AgreesWith, AreJoinable, FirstClash, joined, key_marks};
ghost use Rattle.cs_group.specs.Marks.{AreApart};
ghost use Rattle.cs_changegroup.specs.Adding.{AddFails, HasJoined, IfFault};
ghost use Rattle.cs_changegroup.specs.Slots.{AddsEntries, AddsGroups, AreTables, HasGroups, HasPushedTable, IsNewest};
ghost use Rattle.cs_changegroup.specs.Slots.{IsPartOf, IsPartner, KeptTable, OpensTable};
ghost use Rattle.cs_changegroup.specs.Slots.{groups_of, header_at, kept_name};

use crate::slot::Text;
use crate::table::{Table, copy_chains};
use cs_file_scan::{NamedTables, NumberChains, Tables, number_of};
use cs_files::{FileFault, ToolFault, first_fault};
use cs_group::{SchemaFault, have_same_columns};
use cs_value::NoMemory;
use cs_wire::HeaderRef;
use std::alloc::Global;
use std::marker::Model;

/// The tables of a concatenation, in its order. Of the tables of one name only the last may have entries.
#[derive(Debug, Drop)]
pub(crate) struct JoinedTables {
    tables: Vec<Table>,
    // The numbers of the tables' names, and how many there may be before their chains are made anew.
    names: NumberChains,
    room: usize,
}

impl Model for JoinedTables {
    ghost use Rattle.cs_changegroup.specs.Slots.{TablesView};

    ghost Value = { TablesView };

    ghost view = { λ t. record { tables = t.tables.items; names = t.names } };
}

impl JoinedTables {
    /// Returns no tables.
    pub(crate) fn new(alloc: Global) -> Result<JoinedTables, NoMemory>
        ensures { IfOk result (λ tables. (tables.tables ≡ []) × (tables.names.numbers ≡ [])) }
    {
        Ok(JoinedTables {
            tables: Vec::new(alloc),
            names: NumberChains::with_capacity(alloc, 0)?,
            room: 30,
        })
    }

    /// Returns the index of the last table with a name.
    fn find(&self, name: &str) -> Option<usize>
        ensures within { IfSome result (λ index. index < length self.now.tables) }
        ensures newest { (files : List ℕ) (kept : List KeptTable) → AreTables files self.now kept
            → IsNewest kept_name name.now kept result }
    {
        let number = number_of(name.as_bytes());
        let mut end = self.names.end(number);
        'indices: while 0 < end {
            let index = end - 1;
            if self.has_name(index, name) {
                return Some(index);
            }
            end = self.names.before(index);
        }
        None
    }

    /// Returns whether the table at an index has a name.
    fn has_name(&self, index: usize, name: &str) -> bool
        ensures { IsTrue result ↔ (index < length self.now.tables) × ((header_at self.now index).name ≡ name.now) }
    {
        match self.tables.get(index) {
            None => false,
            Some(table) => table.header().name() == name,
        }
    }

    /// Returns the index of the table with a name, if it has entries.
    fn partner(&self, name: &str) -> Option<usize>
        ensures within { IfSome result (λ index. index < length self.now.tables) }
        ensures partner { (files : List ℕ) (kept : List KeptTable) → AreTables files self.now kept
            → IsPartner kept name.now result }
    {
        let index = self.find(name)?;
        if self.tables[index].is_empty() {
            return None;
        }
        Some(index)
    }

    /// Returns the index of the first table of a file that has other columns or another key here.
    fn first_clash(&self, named: &NamedTables<'_>) -> Option<usize>
        ensures clash { (files : List ℕ) (groups others : List GroupData) → HasGroups files self.now groups
            → AreListed named.now others → IfSome result (FirstClash groups others) }
        ensures none { (files : List ℕ) (groups others : List GroupData) → HasGroups files self.now groups
            → AreListed named.now others → IfNone result (AreJoinable groups others) }
    {
        for index in 0..named.len() {
            if !self.agrees(&named.header(index)) {
                return Some(index);
            }
        }
        None
    }

    /// Returns whether a table has the same columns here, if it has entries here.
    fn agrees(&self, header: &HeaderRef<'_>) -> bool
        ensures { (files : List ℕ) (groups : List GroupData) (group : GroupData) → HasGroups files self.now groups
            → header_of header.now ≡ group.header → IsTrue result ↔ AgreesWith groups group }
    {
        match self.partner(header.name) {
            None => true,
            Some(index) => have_same_columns(self.tables[index].header().flags(), header.flags),
        }
    }

    /// Adds a file, which is in `files` from the offset `base` on. A fault of the file leaves the tables unchanged.
    pub(crate) fn add_file(
        &mut self,
        alloc: Global,
        files: &[u8],
        base: usize,
        file: &[u8],
    ) -> Result<(), ToolFault>
        requires { IsPartOf files.now base file.now }
        ensures joined { (groups : List GroupData) → HasGroups files.now self.old groups
            → OnOk result (HasJoined files.now groups file.now self.new) }
        ensures refused { (groups : List GroupData) → HasGroups files.now self.old groups
            → IfErr result (Refuses (AddFails groups file.now)) }
        ensures same { IfErr result (IfFault (self.new ≡ self.old)) }
    {
        let named = NamedTables::read(alloc, file).map_err(|error| first_fault(error))?;
        if let Some(place) = self.first_clash(&named) {
            return Err(ToolFault::Fault(FileFault::Schema(SchemaFault { place })));
        }
        Ok(self.add_tables(alloc, files, base, &named)?)
    }

    /// Adds the tables of a file.
    fn add_tables(
        &mut self,
        alloc: Global,
        files: &[u8],
        base: usize,
        named: &NamedTables<'_>,
    ) -> Result<(), NoMemory>
        requires { IsPartOf files.now base named.now.file }
        ensures { (kept : List KeptTable) (others : List GroupData) → AreTables files.now self.old kept
            → AreListed named.now others → IsChangeset others → AreJoinable (groups_of kept) others
            → OnOk result (AddsGroups files.now kept others self.new) }
    {
        for index in 0..named.len() {
            self.add_table(alloc, files, base, &named.header(index), named.open(index))?;
        }
        Ok(())
    }

    /// Adds the remaining entries of the open table of a file.
    fn add_table(
        &mut self,
        alloc: Global,
        files: &[u8],
        base: usize,
        header: &HeaderRef<'_>,
        tables: Tables<'_>,
    ) -> Result<(), NoMemory>
        requires header { IsHeader (header_of header.now) }
        requires opened { tables.flags ≡ header.now.flags.now }
        requires part { IsPartOf files.now base tables.file }
        ensures { (kept : List KeptTable) (entries : List EntryData) (behind : List GroupData)
            → AreTables files.now self.old kept → EntriesLeft tables.entry entries behind
            → IsGroup (record { header = header_of header.now; entries = entries })
            → AgreesWith (groups_of kept) (record { header = header_of header.now; entries = entries })
            → OnOk result (AddsGroups files.now kept (record { header = header_of header.now; entries = entries } ∷ [])
            self.new) }
    {
        let index = self.open(alloc, header)?;
        add_entries(alloc, &mut self.tables[index], files, base, tables)
    }

    /// Returns the index of the table with a header's name, if it has entries, and otherwise that of a new one at the end.
    fn open(&mut self, alloc: Global, header: &HeaderRef<'_>) -> Result<usize, NoMemory>
        requires { IsHeader (header_of header.now) }
        ensures within { IfOk result (λ index. index < length self.new.tables) }
        ensures agree { IfOk result (λ index. key_marks header.now.flags.now
            ≡ key_marks (header_at self.new index).flags) }
        ensures opened { (files : List ℕ) (kept : List KeptTable) (group : GroupData) → AreTables files self.old kept
            → header_of header.now ≡ group.header → AgreesWith (groups_of kept) group
            → IfOk result (OpensTable files kept group self.new) }
    {
        if let Some(index) = self.partner(header.name) {
            if have_same_columns(self.tables[index].header().flags(), header.flags) {
                return Ok(index);
            }
        }
        let index = self.tables.len();
        self.push(alloc, header)?;
        Ok(index)
    }

    /// Appends a table without entries.
    fn push(&mut self, alloc: Global, header: &HeaderRef<'_>) -> Result<(), NoMemory>
        requires { IsHeader (header_of header.now) }
        ensures { OnOk result (HasPushedTable self.old self.new (header_of header.now)) }
    {
        if self.room <= self.tables.len() {
            self.make_room(alloc)?;
        }
        let number = number_of(header.name.as_bytes());
        self.tables
            .push(Table::new(alloc, header.to_header(alloc)?)?)?;
        self.names.push(number)
    }

    /// Makes the chains of the names anew, with room for twice as many.
    fn make_room(&mut self, alloc: Global) -> Result<(), NoMemory>
        ensures tables { self.new.tables ≡ self.old.tables }
        ensures numbers { self.new.names.numbers ≡ self.old.names.numbers }
    {
        let room = self.tables.len().saturating_mul(2).saturating_add(30);
        self.names = copy_chains(alloc, &self.names, room)?;
        self.room = room;
        Ok(())
    }

    /// Returns the file of the tables.
    pub(crate) fn to_bytes(&self, alloc: Global, files: &[u8]) -> Result<Vec<u8>, NoMemory>
        ensures { (groups : List GroupData) → HasGroups files.now self.now groups
            → IfOk result (λ out. out.items ≡ file_bytes groups) }
    {
        let mut out = Vec::with_capacity(alloc, files.len())?;
        self.write_to(files, &mut out)?;
        Ok(out)
    }

    /// Appends the file of the tables.
    fn write_to(&self, files: &[u8], out: &mut Vec<u8>) -> Result<(), NoMemory>
        ensures { (groups : List GroupData) → HasGroups files.now self.now groups
            → OnOk result (out.new.items ≡ out.old.items ++ file_bytes groups) }
    {
        for table in &self.tables {
            table.write_to(files, out)?;
        }
        Ok(())
    }
}

/// Adds the remaining entries of the open table of a file, which is in `files` from the offset `base` on.
fn add_entries(
    alloc: Global,
    table: &mut Table,
    files: &[u8],
    base: usize,
    tables: Tables<'_>,
) -> Result<(), NoMemory>
    requires agree { key_marks tables.flags ≡ key_marks table.old.header.flags }
    requires part { IsPartOf files.now base tables.file }
    ensures header { table.new.header ≡ table.old.header }
    ensures added { (entries : List EntryData) (groups : List GroupData) → EntriesLeft tables.entry entries groups
        → AreApart (record { flags = table.old.header.flags; entries = entries })
        → OnOk result (AddsEntries files.now table.old table.new entries) }
{
    let mut left = tables;
    let mut start = left.place();
    'entries: while let Some(entry) = left.next_entry() {
        let end = left.place();
        let text = Text::Within {
            start: base + start,
            end: base + end,
        };
        table.add(alloc, files, &entry, text)?;
        start = end;
    }
    Ok(())
}
