//! A table of a concatenation, and its entries by their keys.
ghost use Rattle.std.specs.Prelude.{◌≡◌, ◌≢◌, ◌+◌, ◌<◌, ◌↔◌, ◌++◌, ◌∷◌, [], IfOk, IfSome, IsTrue, List, OnOk};
ghost use Rattle.std.specs.Prelude.{Some, false, get_or, is_none, length, option_map, true};
ghost use Rattle.cs_wire.specs.Changeset.{IsHeader, entries_bytes, group_bytes};
ghost use Rattle.cs_wire.specs.Entry.{IsEntry, entry_bytes, key_of};
ghost use Rattle.cs_wire.specs.Views.{IsIndexWhere};
ghost use Rattle.cs_file_scan.specs.Distinct.{number_of as number_in};
ghost use Rattle.cs_files.specs.Writing.{some_bytes};
ghost use Rattle.cs_group.specs.Joining.{FitsKey, IfBecomes, key_marks, some_group};
ghost use Rattle.cs_changegroup.specs.declared.slot.Slot.{Slot as SlotData};
ghost use Rattle.cs_changegroup.specs.declared.slot.Text.TheVariants.{Own};
ghost use Rattle.cs_changegroup.specs.Slots.{AddsEntries, AreSlots, HasPushed, HasSet, IsNewest, IsPlanned, IsTextAt};
ghost use Rattle.cs_changegroup.specs.Slots.{KeptEntry, Puts, kept_key, live_entries};

use crate::slot::{Slot, Text};
use cs_file_scan::{FoundEntry, NumberChains, number_of};
use cs_group::{Merged, merge_refs};
use cs_value::NoMemory;
use cs_wire::{Entry, EntryRef, Header, HeaderRef, has_entry, read_entry};
use std::alloc::Global;
use std::marker::Model;

/// The header of a table, and a slot for each entry that it has or had. A slot that is live has one of its entries. Of
/// the slots of one key only the last may be live.
#[derive(Debug, Drop)]
pub(crate) struct Table {
    header: Header,
    slots: Vec<Slot>,
    // The numbers of the entries' keys, and how many there may be before their chains are made anew.
    keys: NumberChains,
    room: usize,
    // The number of slots that are not live.
    vanished: usize,
}

impl Model for Table {
    ghost use Rattle.cs_changegroup.specs.Slots.{TableView};

    ghost Value = { TableView };

    ghost view = { λ t. record {
      header = t.header;
      slots = t.slots.items;
      keys = t.keys;
      vanished = t.vanished;
    } };
}

impl Table {
    /// Returns a table without entries.
    pub(crate) fn new(alloc: Global, header: Header) -> Result<Table, NoMemory>
        ensures header { IfOk result (λ table. table.header ≡ header) }
        ensures empty { IfOk result (λ table. (table.slots ≡ []) × (table.keys.numbers ≡ []) × (table.vanished ≡ 0)) }
    {
        Ok(Table {
            header,
            slots: Vec::new(alloc),
            keys: NumberChains::with_capacity(alloc, 0)?,
            room: 30,
            vanished: 0,
        })
    }

    /// Returns the header.
    pub(crate) fn header(&self) -> &Header
        ensures { result.now ≡ self.now.header }
    {
        &self.header
    }

    /// Returns whether the table has no entry.
    pub(crate) fn is_empty(&self) -> bool
        ensures { IsTrue result ↔ self.now.vanished ≡ length self.now.slots }
    {
        self.vanished == self.slots.len()
    }

    /// Adds an entry of a table with the same columns, whose bytes are in `text`.
    pub(crate) fn add(
        &mut self,
        alloc: Global,
        files: &[u8],
        entry: &EntryRef<'_>,
        text: Text,
    ) -> Result<(), NoMemory>
        requires agree { key_marks entry.now.flags ≡ key_marks self.old.header.flags }
        requires fits { IsEntry entry.now.flags entry.now.entry }
        ensures header { self.new.header ≡ self.old.header }
        ensures added { IsTextAt files.now text (entry_bytes entry.now.entry)
            → OnOk result (AddsEntries files.now self.old self.new (entry.now.entry ∷ [])) }
    {
        let key = entry.key_slice(alloc)?;
        let number = number_of(key.as_slice());
        match self.plan(alloc, files, entry, key.as_slice(), number)? {
            None => self.push(alloc, number, text),
            Some(outcome) => self.put(alloc, outcome),
        }
    }

    /// Returns what the entry with a key becomes together with a later one, or None if the table has none with the key.
    fn plan(
        &self,
        alloc: Global,
        files: &[u8],
        later: &EntryRef<'_>,
        key: &[u8],
        number: u64,
    ) -> Result<Option<Outcome>, NoMemory>
        requires number { number ≡ number_in key.now }
        requires agree { key_marks later.now.flags ≡ key_marks self.now.header.flags }
        requires key { key.now ≡ key_of later.now.flags later.now.entry.change }
        ensures within { IfOk result (λ planned. IfSome planned (λ o. o.index < length self.now.slots)) }
        ensures fits { IfOk result (λ planned. IfSome planned (λ o. IfBecomes o.merged
            (FitsKey self.now.header.flags (key_of self.now.header.flags later.now.entry.change)))) }
        ensures planned { (kept : List KeptEntry) → AreSlots files.now self.now kept
            → IfOk result (IsPlanned self.now.header.flags kept later.now.entry) }
    {
        match self.find(alloc, files, key, number)? {
            Some(found) if self.slots[found.index].live => Ok(Some(Outcome {
                index: found.index,
                merged: merge_refs(alloc, &found.entry, later)?,
            })),
            _ => Ok(None),
        }
    }

    /// Returns the last slot with a key, which has this number.
    fn find<'a>(
        &'a self,
        alloc: Global,
        files: &'a [u8],
        key: &[u8],
        number: u64,
    ) -> Result<Option<FoundEntry<'a>>, NoMemory>
        requires { number ≡ number_in key.now }
        ensures within { IfOk result (λ found. IfSome found (λ f. f.index < length self.now.slots)) }
        ensures flags { IfOk result (λ found. IfSome found (λ f. f.entry.flags ≡ self.now.header.flags)) }
        ensures key { IfOk result (λ found. IfSome found (λ f. key_of f.entry.flags f.entry.entry.change ≡ key.now)) }
        ensures entry { (kept : List KeptEntry) → AreSlots files.now self.now kept → IfOk result (λ found.
            IfSome found (λ f. IsIndexWhere (λ k. k.entry ≡ f.entry.entry) kept f.index)) }
        ensures newest { (kept : List KeptEntry) → AreSlots files.now self.now kept → IfOk result (λ found.
            IsNewest (kept_key self.now.header.flags) key.now kept (option_map (λ f. f.index) found)) }
    {
        let mut end = self.keys.end(number);
        'indices: while 0 < end {
            let index = end - 1;
            if let Some(entry) = self.candidate(alloc, files, index, number, key)? {
                return Ok(Some(FoundEntry { index, entry }));
            }
            end = self.keys.before(index);
        }
        Ok(None)
    }

    /// Returns the entry of the slot at an index, if it has a key, which has this number.
    fn candidate<'a>(
        &'a self,
        alloc: Global,
        files: &'a [u8],
        index: usize,
        number: u64,
        key: &[u8],
    ) -> Result<Option<EntryRef<'a>>, NoMemory>
        requires within { index < length self.now.keys.numbers }
        requires number { number ≡ number_in key.now }
        ensures within { IfOk result (λ entry. IfSome entry (λ _. index < length self.now.slots)) }
        ensures flags { IfOk result (λ entry. IfSome entry (λ e. e.flags ≡ self.now.header.flags)) }
        ensures key { IfOk result (λ entry. IfSome entry (λ e. key_of e.flags e.entry.change ≡ key.now)) }
        ensures found { (kept : List KeptEntry) → AreSlots files.now self.now kept → IfOk result (λ entry.
            IfSome entry (λ e. IsIndexWhere (λ k. k.entry ≡ e.entry) kept index)) }
        ensures absent { (kept : List KeptEntry) → AreSlots files.now self.now kept → IfOk result (λ entry.
            IsTrue (is_none entry)
            → IsIndexWhere (λ k. kept_key self.now.header.flags k ≢ key.now) kept index) }
    {
        if self.keys.number(index) != number {
            return Ok(None);
        }
        let Some(entry) = self.entry(files, index) else {
            return Ok(None);
        };
        if has_key(alloc, &entry, key)? {
            Ok(Some(entry))
        } else {
            Ok(None)
        }
    }

    /// Returns the entry of the slot at an index.
    fn entry<'a>(&'a self, files: &'a [u8], index: usize) -> Option<EntryRef<'a>>
        ensures within { IfSome result (λ _. index < length self.now.slots) }
        ensures flags { IfSome result (λ entry. entry.flags ≡ self.now.header.flags) }
        ensures found { (kept : List KeptEntry) (k : KeptEntry) → AreSlots files.now self.now kept → index < length kept
            → option_map (λ entry. entry.entry) result ≡ Some (get_or kept index k).entry }
    {
        if self.slots.len() <= index {
            return None;
        }
        let bytes = self.slots[index].bytes(files);
        if !has_entry(bytes, 0) {
            return None;
        }
        match read_entry(bytes, 0, self.header.flags()) {
            Ok((entry, _)) => Some(entry),
            Err(_) => None,
        }
    }

    /// Appends the header and the entries, or nothing if there is no entry.
    pub(crate) fn write_to(&self, files: &[u8], out: &mut Vec<u8>) -> Result<(), NoMemory>
        ensures { (kept : List KeptEntry) → AreSlots files.now self.now kept
            → OnOk result (out.new.items ≡ out.old.items
            ++ some_bytes group_bytes (some_group self.now.header (live_entries kept))) }
    {
        if self.is_empty() {
            return Ok(());
        }
        HeaderRef {
            name: self.header.name(),
            flags: self.header.flags(),
        }
        .write_to(out)?;
        self.write_entries(files, out)
    }

    /// Appends the entries.
    fn write_entries(&self, files: &[u8], out: &mut Vec<u8>) -> Result<(), NoMemory>
        ensures { (kept : List KeptEntry) → AreSlots files.now self.now kept
            → OnOk result (out.new.items ≡ out.old.items ++ entries_bytes (live_entries kept)) }
    {
        for slot in &self.slots {
            if slot.live {
                out.extend_from_slice(slot.bytes(files))?;
            }
        }
        Ok(())
    }

    /// Appends a slot that is live, with these bytes and the number of its key.
    fn push(&mut self, alloc: Global, number: u64, text: Text) -> Result<(), NoMemory>
        ensures header { self.new.header ≡ self.old.header }
        ensures ok { OnOk result (HasPushed self.old self.new number (record { text = text; live = true })) }
    {
        if self.room <= self.slots.len() {
            self.make_room(alloc)?;
        }
        self.slots.push(Slot { text, live: true })?;
        self.keys.push(number)
    }

    /// Makes the chains of the keys anew, with room for twice as many.
    fn make_room(&mut self, alloc: Global) -> Result<(), NoMemory>
        ensures header { self.new.header ≡ self.old.header }
        ensures slots { (self.new.slots ≡ self.old.slots) × (self.new.vanished ≡ self.old.vanished) }
        ensures numbers { self.new.keys.numbers ≡ self.old.keys.numbers }
    {
        let room = self.slots.len().saturating_mul(2).saturating_add(30);
        self.keys = copy_chains(alloc, &self.keys, room)?;
        self.room = room;
        Ok(())
    }

    /// Puts what became of the entry of a slot.
    fn put(&mut self, alloc: Global, outcome: Outcome) -> Result<(), NoMemory>
        requires within { outcome.index < length self.old.slots }
        requires fits { IfBecomes outcome.merged (IsEntry self.old.header.flags) }
        ensures header { self.new.header ≡ self.old.header }
        ensures puts { OnOk result (Puts self.old self.new outcome.index outcome.merged) }
    {
        let Outcome { index, merged } = outcome;
        match merged {
            Merged::Keep => {}
            Merged::Becomes(entry) => {
                let text = bytes_of(alloc, self.header.flags(), &entry)?;
                self.set_text(index, text);
            }
            Merged::Vanish => self.remove(index),
        }
        Ok(())
    }

    /// Replaces the bytes of the slot at an index.
    fn set_text(&mut self, index: usize, text: Vec<u8>)
        requires { index < length self.old.slots }
        ensures { HasSet self.old self.new index self.old.vanished (record { text = Own text; live = true }) }
    {
        self.slots[index] = Slot {
            text: Text::Own(text),
            live: true,
        };
    }

    /// Makes the slot at an index one that is not live.
    fn remove(&mut self, index: usize)
        requires { index < length self.old.slots }
        ensures header { self.new.header ≡ self.old.header }
        ensures removed { (slot : SlotData) → slot ≡ get_or self.old.slots index slot
            → self.old.vanished < length self.old.slots
            → HasSet self.old self.new index (self.old.vanished + 1) (record { text = slot.text; live = false }) }
    {
        self.slots[index].live = false;
        if self.vanished < self.slots.len() {
            self.vanished += 1;
        }
    }
}

/// What the entry of the slot at an index becomes.
#[derive(Drop)]
pub(crate) struct Outcome {
    index: usize,
    merged: Merged,
}

/// Returns whether an entry has a key.
fn has_key(alloc: Global, entry: &EntryRef<'_>, key: &[u8]) -> Result<bool, NoMemory>
    ensures { IfOk result (λ yes. IsTrue yes ↔ key_of entry.now.flags entry.now.entry.change ≡ key.now) }
{
    let own = entry.key_slice(alloc)?;
    Ok(own.as_slice() == key)
}

/// Returns the bytes of an entry of a table with these flags.
fn bytes_of(alloc: Global, flags: &[u8], entry: &Entry) -> Result<Vec<u8>, NoMemory>
    requires { IsEntry flags.now entry.now }
    ensures { IfOk result (λ bytes. bytes.items ≡ entry_bytes entry.now) }
{
    let mut bytes = Vec::new(alloc);
    EntryRef::from_entry(flags, entry).write_to(&mut bytes)?;
    Ok(bytes)
}

/// Returns chains of the same numbers, with room for some.
pub(crate) fn copy_chains(
    alloc: Global,
    keys: &NumberChains,
    room: usize,
) -> Result<NumberChains, NoMemory>
    ensures { IfOk result (λ copy. copy.numbers ≡ keys.now.numbers) }
{
    let mut copy = NumberChains::with_capacity(alloc, room)?;
    for index in 0..keys.len() {
        copy.push(keys.number(index))?;
    }
    Ok(copy)
}
