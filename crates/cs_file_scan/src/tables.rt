//! A changeset's file, table by table.
ghost use Rattle.std.specs.Prelude.{◌≡◌, ◌<◌, ◌≤◌, [], List, None, IfErr, IfNone, IfOk, IfSome, OnOk, length};
ghost use Rattle.cs_value.specs.Refusals.{Refuses};
ghost use Rattle.cs_wire_entries.specs.declared.entry.Entry.{Entry as EntryData};
ghost use Rattle.cs_wire.specs.Changeset.{GroupData, IsAccepted, IsFileOf, IsHeader};
ghost use Rattle.cs_wire.specs.Entry.{IsEntry};
ghost use Rattle.cs_wire.specs.Headers.{header_of};
ghost use Rattle.cs_wire.specs.ReadFaults.{ReadFails};
ghost use Rattle.cs_file_scan.specs.Tables.{EntriesLeft, NextEntry, NextTable};
ghost use Rattle.cs_file_scan.specs.Visits.{IsVisited, group_text};

use crate::checked::check_file;
use crate::visit::{Unvisited, Visit};
use cs_wire::{Cursor, EntryRef, HeaderRef, ReadError, has_entry, read_entry, read_header};
use std::alloc::Global;
use std::marker::Model;

/// An iterator over the tables of a changeset's file and their entries. The file was read to its end before, so that
/// nothing is refused. Only [`Tables::read`] allocates.
#[derive(Debug, Drop)]
pub struct Tables<'a> {
    file: &'a [u8],
    place: usize,
    // Those of the open table: empty before the first.
    flags: &'a [u8],
    // The number of entries of the open table if they were counted, or else 0.
    count: usize,
}

impl<'a> Model for Tables<'a> {
    ghost use Rattle.cs_file_scan.specs.Tables.{TablesData};

    ghost Value = { TablesData };

    ghost view = { λ t. record { file = t.file.now; place = t.place; flags = t.flags.now } };
}

impl<'a> Tables<'a> {
    /// Reads a file to its end, and returns its tables from the first one on.
    ///
    /// The quick check accepts most files of changesets. It allocates eight bytes for each table, and a copy of each
    /// key whose columns are not adjacent. It allocates eight bytes for each entry of one table at a time, but none if
    /// the keys are single integers in order, from -2 to the 62 up to 2 to the 62. If the quick check fails, a
    /// [`Cursor`] decides, and finds the fault.
    ///
    /// # Errors
    ///
    /// `Fault` if the file is not the file of a changeset: the first fault, in the order of the file. `NoMemory` if
    /// memory runs out.
    pub fn read(alloc: Global, file: &'a [u8]) -> Result<Tables<'a>, ReadError>
        ensures found { IfOk result (λ tables. (groups : List GroupData) × IsFileOf file.now groups
            × EntriesLeft tables [] groups) }
        ensures file { IfOk result (λ tables. tables.file ≡ file.now) }
        ensures refused { IfErr result (Refuses (λ f. ReadFails file.now f.kind f.place)) }
    {
        match Tables::visit(alloc, file, &mut Unvisited)? {
            None => Ok(Tables::whole(file)),
            Some(tables) => Ok(tables),
        }
    }

    /// Reads a file to its end, and visits its headers and entries as the quick check reads them.
    ///
    /// If the quick check accepts the file, each is visited, and the result is None. If it fails, those before the
    /// failure are visited, and a [`Cursor`] decides: the result is then the tables from the first one on. The call
    /// allocates what [`Tables::read`] does.
    ///
    /// # Errors
    ///
    /// `Fault` if the file is not the file of a changeset: the first fault, in the order of the file. `NoMemory` if
    /// memory runs out.
    pub fn visit<V: Visit>(
        alloc: Global,
        file: &'a [u8],
        visitor: &mut V,
    ) -> Result<Option<Tables<'a>>, ReadError>
        ensures visited { IfOk result (λ left. IfNone left (IsVisited (group_text V.header_text V.entry_text) file.now
            (V.written visitor.old) (V.written visitor.new))) }
        ensures unvisited { IfOk result (λ left. IfSome left (λ tables. (groups : List GroupData)
            × IsFileOf file.now groups × EntriesLeft tables [] groups)) }
        ensures file { IfOk result (λ left. IfSome left (λ tables. tables.file ≡ file.now)) }
        ensures refused { IfErr result (Refuses (λ f. ReadFails file.now f.kind f.place)) }
    {
        if check_file(alloc, file, visitor)? {
            return Ok(None);
        }
        read_items(alloc, file)?;
        Ok(Some(Tables::whole(file)))
    }

    /// Returns the tables of a file that was read, from the first one on.
    fn whole(file: &'a [u8]) -> Tables<'a>
        requires { IsAccepted file.now }
        ensures left { (groups : List GroupData) × IsFileOf file.now groups × EntriesLeft result [] groups }
        ensures file { result.file ≡ file.now }
    {
        Tables::at(file, 0, &[], 0)
    }

    /// Returns the tables of a file that was read, from a byte offset on. Entries of a table with these flags remain
    /// there. `count` is their number, or 0.
    pub(crate) fn at(file: &'a [u8], place: usize, flags: &'a [u8], count: usize) -> Tables<'a>
        ensures { result ≡ record { file = file.now; place = place; flags = flags.now } }
    {
        Tables {
            file,
            place,
            flags,
            count,
        }
    }

    /// Returns the file.
    pub(crate) fn file(&self) -> &'a [u8]
        ensures { result.now ≡ self.now.file }
    {
        self.file
    }

    /// Returns the flags of the open table.
    pub(crate) fn flags(&self) -> &'a [u8]
        ensures { result.now ≡ self.now.flags }
    {
        self.flags
    }

    /// Returns the number of entries of the open table if they were counted, or else 0.
    pub(crate) fn count(&self) -> usize {
        self.count
    }

    /// Counts the remaining entries of the open table.
    pub(crate) fn count_entries(&self) -> usize {
        let mut left = Tables::at(self.file, self.place, self.flags, 0);
        let mut count: usize = 0;
        'entries: while left.next_entry().is_some() {
            count = count.saturating_add(1);
        }
        count
    }

    /// Returns the byte offset after the header or entry that was returned last.
    pub fn place(&self) -> usize
        ensures { result ≡ self.now.place }
    {
        self.place
    }

    /// Returns the header of the next table, or None after the last. Remaining entries of the previous table are
    /// skipped.
    pub fn next_table(&mut self) -> Option<HeaderRef<'a>>
        ensures next { (entries : List EntryData) (groups : List GroupData) → EntriesLeft self.old entries groups
            → NextTable groups result self.new }
        ensures well_formed { IfSome result (λ header. IsHeader (header_of header)) }
        ensures forward { IfSome result (λ _. (self.old.place < self.new.place)
            × (self.new.place ≤ length self.new.file)) }
        ensures file { self.new.file ≡ self.old.file }
    {
        self.pass_entries();
        self.open_table()
    }

    /// Skips the remaining entries of the open table.
    fn pass_entries(&mut self)
        ensures left { (entries : List EntryData) (groups : List GroupData) → EntriesLeft self.old entries groups
            → EntriesLeft self.new [] groups }
        ensures ahead { self.old.place ≤ self.new.place }
        ensures file { self.new.file ≡ self.old.file }
    {
        'entries: while self.next_entry().is_some() {}
    }

    /// Returns the header of the next table, if no entry of the previous one remains.
    fn open_table(&mut self) -> Option<HeaderRef<'a>>
        ensures next { (groups : List GroupData) → EntriesLeft self.old [] groups → NextTable groups result self.new }
        ensures well_formed { IfSome result (λ header. IsHeader (header_of header)) }
        ensures forward { IfSome result (λ _. (self.old.place < self.new.place)
            × (self.new.place ≤ length self.new.file)) }
        ensures file { self.new.file ≡ self.old.file }
    {
        if self.place >= self.file.len() {
            return None;
        }
        let Ok((header, end)) = read_header(self.file, self.place) else {
            return None;
        };
        self.place = end;
        self.flags = header.flags;
        self.count = 0;
        Some(header)
    }

    /// Returns the next entry of the open table, or None if none remains.
    pub fn next_entry(&mut self) -> Option<EntryRef<'a>>
        ensures next { (entries : List EntryData) (groups : List GroupData) → EntriesLeft self.old entries groups
            → NextEntry self.old.flags entries groups result self.new }
        ensures flags { (self.new.flags ≡ self.old.flags) × IfSome result (λ entry. entry.flags ≡ self.old.flags) }
        ensures well_formed { IfSome result (λ entry. IsEntry entry.flags entry.entry) }
        ensures forward { IfSome result (λ _. (self.old.place < self.new.place)
            × (self.new.place ≤ length self.new.file)) }
        ensures ahead { self.old.place ≤ self.new.place }
        ensures stays { result ≡ None → self.new ≡ self.old }
        ensures file { self.new.file ≡ self.old.file }
    {
        if !has_entry(self.file, self.place) {
            return None;
        }
        let Ok((seen, end)) = read_entry(self.file, self.place, self.flags) else {
            return None;
        };
        self.place = end;
        Some(seen)
    }
}

/// Reads a file to its end by a cursor, which finds the first fault.
fn read_items(alloc: Global, file: &[u8]) -> Result<(), ReadError>
    ensures found { OnOk result (IsAccepted file.now) }
    ensures refused { IfErr result (Refuses (λ f. ReadFails file.now f.kind f.place)) }
{
    let mut cursor = Cursor::new(alloc, file);
    'items: while let Some(_) = cursor.next()? {}
    Ok(())
}
