//! The steps of a cursor from one item of a file to the next.
ghost use Rattle.std.specs.Prelude.{◌≡◌, ◌↔◌, ◌<◌, ◌≤◌, ◌++◌, ◌∷◌, [], false, length, IfErr, IfOk, IfSome, IsTrue, List, Ok, None};
ghost use Rattle.cs_value.specs.Refusals.{Refuses};
ghost use Rattle.cs_wire_entries.specs.Entry.{IsEntry};
ghost use Rattle.cs_wire_entries.specs.Changeset.{GroupData, IsFileOf, IsHeader, IsNewName};
ghost use Rattle.cs_value.specs.Table.{IsFlags};
ghost use Rattle.cs_wire_entries.specs.ReadFaults.{HasEntry, ReadFails};

use crate::header::HeaderRef;
use crate::item::Item;
use crate::reader::header::read_header;
use crate::reader::refuse;
use crate::seen::Seen;
use cs_wire_entries::{EntryRef, ReadError, ReadFaultKind, has_entry, read_entry};
use std::alloc::Global;
use std::borrow::CowSlice;
use std::marker::Model;

/// A place in a file, and what is known of the items before it.
#[derive(Debug, Drop)]
pub(crate) struct Walk<'a> {
    file: &'a [u8],
    place: usize,
    // The flags of the open table, or none before the first table.
    flags: &'a [u8],
    // Whether no entry of the open table was passed.
    is_bare: bool,
    // The names of the tables, and the keys of the entries of the open table.
    names: Seen<'a>,
    keys: Seen<'a>,
    alloc: Global,
}

impl<'a> Model for Walk<'a> {
    ghost use Rattle.cs_wire.specs.Walk.{WalkData, IsWalk};

    ghost Value = { WalkData };

    ghost view = { λ w. record { file = w.file.now; place = w.place; flags = w.flags.now; is_bare = w.is_bare } };

    ghost invariant = { λ w. IsWalk w.file.now w.place w.flags.now w.is_bare w.names w.keys };
}

impl<'a> Walk<'a> {
    ghost use Rattle.cs_wire.specs.Cursor.{Begins, IsItem, IsNext, with_entry, with_item, last_flags};
    ghost use Rattle.cs_wire.specs.Headers.{header_of};
    /// Returns the place at the start of a file.
    pub(crate) fn new(alloc: Global, file: &'a [u8]) -> Walk<'a>
        ensures { result ≡ record { file = file.now; place = 0; flags = []; is_bare = false } }
    {
        Walk {
            file,
            place: 0,
            flags: &[],
            is_bare: false,
            names: Seen::new(alloc),
            keys: Seen::new(alloc),
            alloc,
        }
    }

    /// Returns the next item, or None at the end of the file.
    pub(crate) fn advance(&mut self) -> Result<Option<Item<'a>>, ReadError>
        ensures file { self.new.file ≡ self.old.file }
        ensures item { (groups : List GroupData) → Begins self.old.file self.old.place groups →
            IfOk result (λ next. IfSome next (λ item. IsNext groups item
            × Begins self.new.file self.new.place (with_item groups item))) }
        ensures well_formed { IfOk result (λ next. IfSome next IsItem) }
        ensures forward { IfOk result (λ next. IfSome next (λ _. (self.old.place < self.new.place)
            × (self.new.place ≤ length self.new.file))) }
        ensures end { (groups : List GroupData) → Begins self.old.file self.old.place groups →
            result ≡ Ok None → IsFileOf self.new.file groups }
        ensures stays { result ≡ Ok None → self.new ≡ self.old }
        ensures fault { IfErr result (Refuses (λ f. ReadFails self.old.file f.kind f.place)) }
    {
        if self.is_at_entry() {
            return Ok(Some(Item::Entry(self.pass_entry()?)));
        }
        if self.is_bare {
            return refuse(ReadFaultKind::EmptyGroup, self.place);
        }
        if self.place == self.file.len() {
            return Ok(None);
        }
        Ok(Some(Item::Table(self.pass_table()?)))
    }

    /// Returns whether an entry of the open table is next.
    fn is_at_entry(&self) -> bool
        ensures { IsTrue result ↔ ((0 < length self.now.flags) × HasEntry self.now.file self.now.place) }
    {
        !self.flags.is_empty() && has_entry(self.file, self.place)
    }

    /// Passes the next header.
    fn pass_table(&mut self) -> Result<HeaderRef<'a>, ReadError>
        requires bare { self.old.is_bare ≡ false }
        requires no_entry { 0 < length self.old.flags → HasEntry self.old.file self.old.place → ⊥ }
        requires within { self.old.place < length self.old.file }
        ensures file { self.new.file ≡ self.old.file }
        ensures item { (groups : List GroupData) → Begins self.old.file self.old.place groups →
            IfOk result (λ header. IsNewName groups header.name.now
            × Begins self.new.file self.new.place
            (groups ++ record { header = header_of header; entries = [] } ∷ [])) }
        ensures well_formed { IfOk result (λ header. IsHeader (header_of header)) }
        ensures forward { IfOk result (λ _. (self.old.place < self.new.place)
            × (self.new.place ≤ length self.new.file)) }
        ensures fault { IfErr result (Refuses (λ f. ReadFails self.old.file f.kind f.place)) }
    {
        let (header, end) = read_header(self.file, self.place)?;
        let name = CowSlice::Borrowed(header.name.as_bytes());
        if !self.names.insert(name)? {
            return refuse(ReadFaultKind::DuplicateTable, self.place);
        }
        self.keys.clear();
        self.place = end;
        self.flags = header.flags;
        self.is_bare = true;
        Ok(header)
    }

    /// Passes the next entry.
    fn pass_entry(&mut self) -> Result<EntryRef<'a>, ReadError>
        requires table { 0 < length self.old.flags }
        requires entry { HasEntry self.old.file self.old.place }
        ensures file { self.new.file ≡ self.old.file }
        ensures item { (groups : List GroupData) → Begins self.old.file self.old.place groups →
            IfOk result (λ seen. ((0 < length groups) × (seen.flags ≡ last_flags groups))
            × Begins self.new.file self.new.place (with_entry groups seen.entry)) }
        ensures well_formed { IfOk result (λ seen. IsFlags seen.flags × IsEntry seen.flags seen.entry) }
        ensures forward { IfOk result (λ _. (self.old.place < self.new.place)
            × (self.new.place ≤ length self.new.file)) }
        ensures fault { IfErr result (Refuses (λ f. ReadFails self.old.file f.kind f.place)) }
    {
        let (seen, end) = read_entry(self.file, self.place, self.flags)?;
        if !self.keys.insert(seen.key_slice(self.alloc)?)? {
            return refuse(ReadFaultKind::DuplicateKey, self.place);
        }
        self.place = end;
        self.is_bare = false;
        Ok(seen)
    }
}
