//! The entries of a table by their keys.
ghost use Rattle.std.specs.Prelude.{◌≡◌, ◌≢◌, ◌<◌, ◌↔◌, ◌∷◌, [], ℕ, IfOk, IfSome, IsTrue, List, OnErr, OnOk};
ghost use Rattle.std.specs.Prelude.{is_none, is_some, length};
ghost use Rattle.cs_wire_entries.specs.declared.entry.Entry.{Entry as EntryData};
ghost use Rattle.cs_wire.specs.Changeset.{GroupData, IsNewKey};
ghost use Rattle.cs_wire.specs.Entry.{entry_bytes, key_of};
ghost use Rattle.cs_wire.specs.Views.{IsIndexWhere};
ghost use Rattle.cs_file_scan.specs.Distinct.{number_of as number_in};
ghost use Rattle.cs_file_scan.specs.KeyedFile.{AreKeyed, count_of, with_entry};
ghost use Rattle.cs_file_scan.specs.Tables.{EntriesLeft};

use crate::chains::NumberChains;
use crate::checked::{key_number, part};
use crate::distinct::number_of;
use crate::tables::Tables;
use cs_value::NoMemory;
use cs_wire::{EntryRef, KeyColumns};
use std::alloc::Global;
use std::marker::Model;

/// An entry, and its zero-based index among the entries of its table.
#[derive(Debug, Drop)]
pub struct FoundEntry<'a> {
    pub index: usize,
    pub entry: EntryRef<'a>,
}

/// The entries of one table, indexed by the numbers of their keys. An entry is read from the file each time that it is
/// needed. Contracts see the file, the table's flags, the byte offsets and the numbers.
#[derive(Debug, Drop)]
pub struct KeyedEntries<'a> {
    file: &'a [u8],
    flags: &'a [u8],
    // The byte offset of each entry, and the end of the last.
    bounds: Vec<usize>,
    // The numbers of the entries' keys.
    chains: NumberChains,
}

impl<'a> Model for KeyedEntries<'a> {
    ghost use Rattle.std.specs.Prelude.{◌≡◌, ◌+◌, length};
    ghost use Rattle.cs_file_scan.specs.KeyedFile.{KeyedFile};

    ghost Value = { KeyedFile };

    ghost view = { λ k. record { file = k.file.now; flags = k.flags.now; bounds = k.bounds.items; chains = k.chains } };

    ghost invariant = { λ k. length k.bounds.items ≡ length k.chains.numbers + 1 };
}

impl<'a> KeyedEntries<'a> {
    /// Returns an empty list for the entries of the open table, with room for some.
    fn with_capacity(
        alloc: Global,
        tables: &Tables<'a>,
        capacity: usize,
    ) -> Result<KeyedEntries<'a>, NoMemory>
        ensures file { IfOk result (λ keyed. (keyed.file ≡ tables.now.file) × (keyed.flags ≡ tables.now.flags)) }
        ensures empty { IfOk result (λ keyed. (keyed.bounds ≡ tables.now.place ∷ []) × (keyed.chains.numbers ≡ [])) }
    {
        let mut bounds = Vec::with_capacity(alloc, capacity.saturating_add(1))?;
        bounds.push(tables.place())?;
        Ok(KeyedEntries {
            file: tables.file(),
            flags: tables.flags(),
            bounds,
            chains: NumberChains::with_capacity(alloc, capacity)?,
        })
    }

    /// Lists the remaining entries of the open table. Three allocations hold them all if
    /// [`NamedTables::open`](crate::NamedTables::open) opened it, since `NamedTables` counts them.
    ///
    /// # Errors
    ///
    /// [`NoMemory`] if memory runs out.
    pub fn list(alloc: Global, tables: Tables<'a>) -> Result<KeyedEntries<'a>, NoMemory>
        ensures flags { IfOk result (λ keyed. keyed.flags ≡ tables.entry.flags) }
        ensures entries { (entries : List EntryData) (groups : List GroupData) → EntriesLeft tables.entry entries groups
            → IfOk result (λ keyed. AreKeyed keyed entries groups) }
    {
        let mut keyed = KeyedEntries::with_capacity(alloc, &tables, tables.count())?;
        let columns = KeyColumns::of(tables.flags());
        let mut left = tables;
        'entries: while let Some(entry) = left.next_entry() {
            let number = key_number(alloc, &entry, columns)?;
            keyed.push(number, left.place())?;
        }
        Ok(keyed)
    }

    /// Appends the number of an entry's key, and the byte offset after the entry. [`NoMemory`] leaves the list
    /// unchanged.
    fn push(&mut self, number: u64, end: usize) -> Result<(), NoMemory>
        ensures ok { OnOk result (self.new ≡ with_entry self.old number end) }
        ensures err { OnErr result (self.new ≡ self.old) }
    {
        self.bounds.push(end)?;
        match self.chains.push(number) {
            Ok(()) => Ok(()),
            Err(refusal) => {
                self.bounds.pop();
                Err(refusal)
            }
        }
    }

    /// Returns the number of entries.
    pub fn len(&self) -> usize
        ensures { result ≡ count_of self.now }
    {
        self.chains.len()
    }

    /// Returns the bytes of the entry at a zero-based index, which is below [`KeyedEntries::len`], as the file has
    /// them.
    pub fn bytes(&self, index: usize) -> &'a [u8]
        requires { index < count_of self.now }
        ensures { (entries : List EntryData) (groups : List GroupData) → AreKeyed self.now entries groups
            → IsIndexWhere (λ e. result.now ≡ entry_bytes e) entries index }
    {
        part(self.file, self.bounds[index], self.bounds[index + 1])
    }

    /// Returns the entry with a key, or None if there is none. It allocates a copy of each key that has its number and
    /// whose columns are not adjacent.
    ///
    /// # Errors
    ///
    /// [`NoMemory`] if memory runs out.
    pub fn find(&self, alloc: Global, key: &[u8]) -> Result<Option<FoundEntry<'a>>, NoMemory>
        ensures within { IfOk result (λ found. IfSome found (λ f. f.index < count_of self.now)) }
        ensures flags { IfOk result (λ found. IfSome found (λ f. f.entry.flags ≡ self.now.flags)) }
        ensures key { IfOk result (λ found. IfSome found (λ f. key_of self.now.flags f.entry.entry.change ≡ key.now)) }
        ensures found { (entries : List EntryData) (groups : List GroupData) → AreKeyed self.now entries groups
            → IfOk result (λ found. IfSome found (λ f. IsIndexWhere (λ e. e ≡ f.entry.entry) entries f.index)) }
        ensures absent { (entries : List EntryData) (groups : List GroupData) → AreKeyed self.now entries groups
            → IfOk result (λ found. IsTrue (is_none found) → IsNewKey self.now.flags entries key.now) }
    {
        let number = number_of(key);
        let mut end = self.chains.end(number);
        'indices: while 0 < end {
            let index = end - 1;
            if let Some(entry) = self.candidate(alloc, index, number, key)? {
                return Ok(Some(FoundEntry { index, entry }));
            }
            end = self.chains.before(index);
        }
        Ok(None)
    }

    /// Returns the entry at a zero-based index, if it has a key, which has this number.
    fn candidate(
        &self,
        alloc: Global,
        index: usize,
        number: u64,
        key: &[u8],
    ) -> Result<Option<EntryRef<'a>>, NoMemory>
        requires within { index < count_of self.now }
        requires number { number ≡ number_in key.now }
        ensures flags { IfOk result (λ entry. IfSome entry (λ e. e.flags ≡ self.now.flags)) }
        ensures key { IfOk result (λ entry. IfSome entry (λ e. key_of self.now.flags e.entry.change ≡ key.now)) }
        ensures found { (entries : List EntryData) (groups : List GroupData) → AreKeyed self.now entries groups
            → IfOk result (λ entry. IfSome entry (λ e. IsIndexWhere (λ x. x ≡ e.entry) entries index)) }
        ensures absent { (entries : List EntryData) (groups : List GroupData) → AreKeyed self.now entries groups
            → IfOk result (λ entry. IsTrue (is_none entry)
            → IsIndexWhere (λ x. key_of self.now.flags x.change ≢ key.now) entries index) }
    {
        if self.chains.number(index) != number {
            return Ok(None);
        }
        let Some(entry) = self.entry(index) else {
            return Ok(None);
        };
        if has_key(alloc, &entry, key)? {
            Ok(Some(entry))
        } else {
            Ok(None)
        }
    }

    /// Returns the entry at a zero-based index.
    fn entry(&self, index: usize) -> Option<EntryRef<'a>>
        requires { index < count_of self.now }
        ensures flags { IfSome result (λ e. e.flags ≡ self.now.flags) }
        ensures some { (entries : List EntryData) (groups : List GroupData) → AreKeyed self.now entries groups
            → IsTrue (is_some result) }
        ensures found { (entries : List EntryData) (groups : List GroupData) → AreKeyed self.now entries groups
            → IfSome result (λ e. IsIndexWhere (λ x. x ≡ e.entry) entries index) }
    {
        Tables::at(self.file, self.bounds[index], self.flags, 0).next_entry()
    }
}

/// Returns whether an entry has a key.
fn has_key(alloc: Global, entry: &EntryRef<'_>, key: &[u8]) -> Result<bool, NoMemory>
    ensures { IfOk result (λ yes. IsTrue yes ↔ key_of entry.now.flags entry.now.entry.change ≡ key.now) }
{
    let own = entry.key_slice(alloc)?;
    Ok(own.as_slice() == key)
}
