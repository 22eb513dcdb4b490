//! The entries of a concatenation while it is made.
ghost use Rattle.std.specs.Prelude.{◌≡◌, ◌↔◌, ◌++◌, ◌∷◌, [], IfOk, IsTrue, OnOk, length};
ghost use Rattle.cs_wire.specs.Changeset.{IsGroup};
ghost use Rattle.cs_wire.specs.Entry.{key_of};

use cs_value::{Key, NoMemory};
use cs_wire::{Entry, Group, Header};
use std::alloc::Global;
use std::marker::Model;

/// Entries of one table, each with its key. Contracts see the flags of the table, and the entries.
#[derive(Drop)]
pub(crate) struct JoinedEntries<'a> {
    flags: &'a [u8],
    entries: Vec<Entry>,
    // The key of each entry, at its index.
    keys: Vec<Key>,
}

impl<'a> Model for JoinedEntries<'a> {
    ghost use Rattle.std.specs.Prelude.{◌≡◌};
    ghost use Rattle.cs_wire.specs.Keyed.{KeyedData};
    ghost use Rattle.cs_wire.specs.Views.{group_keys};

    ghost Value = { KeyedData };

    ghost view = { λ j. record { flags = j.flags.now; entries = j.entries.items } };

    ghost invariant = { λ j. j.keys.items ≡ group_keys j.flags.now j.entries.items };
}

impl<'a> JoinedEntries<'a> {
    /// Returns an empty list for a table with these flags.
    pub(crate) fn new(alloc: Global, flags: &'a [u8]) -> JoinedEntries<'a>
        ensures { result ≡ record { flags = flags.now; entries = [] } }
    {
        JoinedEntries {
            flags,
            entries: Vec::new(alloc),
            keys: Vec::new(alloc),
        }
    }

    /// Appends an entry with this key.
    pub(crate) fn push(&mut self, key: Key, entry: Entry) -> Result<(), NoMemory>
        requires { key ≡ key_of self.old.flags entry.change }
        ensures flags { self.new.flags ≡ self.old.flags }
        ensures pushed { OnOk result (self.new.entries ≡ self.old.entries ++ entry ∷ []) }
    {
        self.entries.reserve(1)?;
        self.keys.push(key)?;
        self.entries.push(entry)?;
        Ok(())
    }

    /// Returns whether there is no entry.
    pub(crate) fn is_empty(&self) -> bool
        ensures { IsTrue result ↔ (length self.now.entries ≡ 0) }
    {
        self.entries.is_empty()
    }

    /// Returns the group of these entries, with a header that has their flags.
    pub(crate) fn into_group(self, alloc: Global, header: Header) -> Result<Group, NoMemory>
        requires flags { self.flags ≡ header.flags }
        requires group { IsGroup (record { header = header; entries = self.entries }) }
        ensures { IfOk result (λ g. g ≡ record { header = header; entries = self.entry.entries }) }
    {
        let JoinedEntries { entries, keys, .. } = self;
        Group::from_keyed_entries(alloc, header, entries, keys)
    }
}
