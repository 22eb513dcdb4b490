//! The changes of a table.
ghost use Rattle.std.specs.Prelude.{◌≡◌, ◌++◌, ◌∷◌, [], ◌↔◌, IfOk, IfSome, IsTrue, OnOk, OnErr, is_none};
ghost use Rattle.cs_wire_entries.specs.Changeset.{IsGroup};
ghost use Rattle.cs_wire_entries.specs.Views.{group_keys, IsIndex};

use crate::header::Header;
use crate::indices::Indices;
use cs_value::{Key, NoMemory};
use cs_wire_entries::{Entry, invert_entries};
use std::alloc::Global;
use std::marker::Model;

/// The header of a table, and its entries. There is at least one, and no two have the same key.
#[derive(Debug, Drop)]
pub struct Group {
    header: Header,
    entries: Vec<Entry>,
    // The index of the entry of each key.
    indices: Indices,
}

impl Model for Group {
    ghost use Rattle.cs_wire_entries.specs.Changeset.{GroupData, IsGroup};
    ghost use Rattle.cs_wire_entries.specs.Views.{group_keys, IsIndex};

    ghost Value = { GroupData };

    ghost view = { λ g. record { header = g.header; entries = g.entries.items } };

    ghost invariant = { λ g. IsGroup (record { header = g.header; entries = g.entries.items })
        × IsIndex g.indices (group_keys g.header.flags g.entries.items) };
}

impl Group {
    ghost use Rattle.cs_wire_entries.specs.Entry.{IsEntry, key_of};
    ghost use Rattle.cs_wire_entries.specs.Changeset.{IsNewKey};
    ghost use Rattle.cs_wire_entries.specs.Inverse.{IsInverseGroup};
    ghost use Rattle.cs_wire_entries.specs.Views.{IsIndexWhere};

    /// Returns the group of one entry, which fits the header's flags ([`Header::admits`]).
    pub fn new(alloc: Global, header: Header, first: Entry) -> Result<Group, NoMemory>
        requires { IsEntry header.flags first }
        ensures made { IfOk result (λ g. g ≡ record { header = header; entries = first ∷ [] }) }
        ensures well_formed { IfOk result IsGroup }
    {
        Group::from_entries(alloc, header, vec![in alloc; first]?)
    }

    /// Returns the group of some entries, at least one. Each fits the header's flags ([`Header::admits`]), and no two
    /// have the same key.
    pub fn from_entries(
        alloc: Global,
        header: Header,
        entries: Vec<Entry>,
    ) -> Result<Group, NoMemory>
        requires { IsGroup (record { header = header; entries = entries.items }) }
        ensures made { IfOk result (λ g. g ≡ record { header = header; entries = entries.items }) }
        ensures well_formed { IfOk result IsGroup }
    {
        let keys = keys_of(alloc, &header, &entries)?;
        Group::from_keyed_entries(alloc, header, entries, keys)
    }

    /// Returns the group of some entries, as [`Group::from_entries`] does. `keys` are those of the entries, in their
    /// order ([`Header::key_of`]).
    pub fn from_keyed_entries(
        alloc: Global,
        header: Header,
        entries: Vec<Entry>,
        keys: Vec<Key>,
    ) -> Result<Group, NoMemory>
        requires group { IsGroup (record { header = header; entries = entries.items }) }
        requires keys { keys.items ≡ group_keys header.flags entries.items }
        ensures made { IfOk result (λ g. g ≡ record { header = header; entries = entries.items }) }
        ensures well_formed { IfOk result IsGroup }
    {
        let indices = indices_of(alloc, keys)?;
        Ok(Group {
            header,
            entries,
            indices,
        })
    }

    /// Returns a copy of the group.
    pub fn copy(&self, alloc: Global) -> Result<Group, NoMemory>
        ensures { IfOk result (λ g. g ≡ self.now) }
    {
        let mut entries = Vec::new(alloc);
        for entry in self.entries() {
            entries.push(entry.copy(alloc)?)?;
        }
        Group::from_entries(alloc, self.header.copy(alloc)?, entries)
    }

    /// Returns the header of the table.
    pub fn header(&self) -> &Header
        ensures same { result.now ≡ self.now.header }
        ensures well_formed { IsGroup self.now }
    {
        &self.header
    }

    /// Returns the flags of the table, one for each column.
    pub fn flags(&self) -> &[u8]
        ensures same { result.now ≡ self.now.header.flags }
        ensures well_formed { IsGroup self.now }
    {
        self.header.flags()
    }

    /// Returns the entries, in the order of the file.
    pub fn entries(&self) -> &[Entry]
        ensures same { result.now ≡ self.now.entries }
        ensures well_formed { IsGroup self.now }
    {
        &self.entries
    }

    /// Returns the key of an entry that fits the header's flags ([`Header::admits`]).
    pub fn key_of(&self, alloc: Global, entry: &Entry) -> Result<Key, NoMemory>
        requires { IsEntry self.now.header.flags entry.now }
        ensures { IfOk result (λ key. key ≡ key_of self.now.header.flags entry.now.change) }
    {
        self.header.key_of(alloc, entry)
    }

    /// Returns the zero-based index of the entry with a key, or None if there is none. It allocates nothing, and takes
    /// time in proportion to the logarithm of the number of entries.
    pub fn find(&self, key: &Key) -> Option<usize>
        ensures found { IfSome result (IsIndexWhere
            (λ e. key_of self.now.header.flags e.change ≡ key.now) self.now.entries) }
        ensures absent { IsTrue (is_none result) ↔ IsNewKey self.now.header.flags self.now.entries key.now }
    {
        self.indices.get(key.bytes())
    }

    /// Appends an entry that fits the header's flags ([`Header::admits`]). No entry of the group has its key
    /// ([`Group::find`]). [`NoMemory`] leaves the group unchanged, and drops the entry.
    pub fn push(&mut self, entry: Entry) -> Result<(), NoMemory>
        requires fits { IsEntry self.old.header.flags entry }
        requires fresh { IsNewKey self.old.header.flags self.old.entries (key_of self.old.header.flags entry.change) }
        ensures header { self.new.header ≡ self.old.header }
        ensures well_formed { OnOk result (IsGroup self.new) }
        ensures ok { OnOk result (self.new.entries ≡ self.old.entries ++ entry ∷ []) }
        ensures err { OnErr result (self.new ≡ self.old) }
    {
        let key = self.key_of(*self.entries.allocator(), &entry)?;
        self.push_with_key(key, entry)
    }

    /// Appends an entry, as [`Group::push`] does. `key` is that of the entry ([`Group::key_of`]).
    pub fn push_with_key(&mut self, key: Key, entry: Entry) -> Result<(), NoMemory>
        requires fits { IsEntry self.old.header.flags entry }
        requires key { key ≡ key_of self.old.header.flags entry.change }
        requires fresh { IsNewKey self.old.header.flags self.old.entries key }
        ensures header { self.new.header ≡ self.old.header }
        ensures well_formed { OnOk result (IsGroup self.new) }
        ensures ok { OnOk result (self.new.entries ≡ self.old.entries ++ entry ∷ []) }
        ensures err { OnErr result (self.new ≡ self.old) }
    {
        let index = self.entries.len();
        self.entries.push(entry)?;
        match self.indices.insert(key.into_bytes(), index) {
            Ok(()) => Ok(()),
            Err(refusal) => {
                self.entries.pop();
                Err(refusal)
            }
        }
    }

    /// Inverts the group. Each insert becomes the delete of its row, and each delete the insert. In updates the two
    /// values of each modified column are exchanged. Header, indirect flags and order stay. It allocates nothing.
    pub fn invert(&mut self)
        ensures inverse { IsInverseGroup self.old self.new }
        ensures well_formed { IsGroup self.new }
    {
        invert_entries(
            *self.entries.allocator(),
            self.header.flags(),
            &mut self.entries,
        );
    }

    /// Returns the header and the entries. It allocates nothing.
    pub fn into_parts(self) -> (Header, Vec<Entry>)
        ensures header { result.0 ≡ self.header }
        ensures entries { result.1.items ≡ self.entries }
        ensures well_formed { IsGroup self }
    {
        let Group {
            header,
            entries,
            ..
        } = self;
        (header, entries)
    }
}

impl PartialEq for Group {
    ghost use Rattle.std.specs.Ordering.{on, eq_of_both};
    ghost use Rattle.std.specs.Cmp.Lexicographic.{pointwise};
    ghost use Rattle.std.specs.Cmp.Rules.{comparing};
    ghost use Rattle.std.proofs.Common.{rules};
    ghost use Rattle.cs_wire_entries.specs.contracts.entry.EntryPartialEq.TheImpl.Laws.{laws-law};
    ghost use Rattle.cs_wire.specs.contracts.header.HeaderPartialEq.TheImpl.Laws.{laws-law as header_laws};

    ghost eq = { eq_of_both (on (λ g. g.header) ⟦<Header as PartialEq>⟧.eq)
        (on (λ g. g.entries) (pointwise ⟦<Entry as PartialEq>⟧.eq)) };

    ghost laws = { Prim.search (comparing, laws-law, header_laws, rules) };

    fn eq(&self, other: &Group) -> bool {
        self.header == other.header && self.entries == other.entries
    }
}

impl Eq for Group {
    ghost use Rattle.std.specs.Cmp.Rules.{comparing};
    ghost use Rattle.std.proofs.Common.{rules};
    ghost use Rattle.cs_wire_entries.specs.contracts.entry.EntryEq.TheImpl.Laws.{laws-law};
    ghost use Rattle.cs_wire.specs.contracts.header.HeaderEq.TheImpl.Laws.{laws-law as header_laws};

    ghost laws = { Prim.search (comparing, laws-law, header_laws, rules) };
}

/// Returns the keys of some entries, which make a group with this header.
fn keys_of(alloc: Global, header: &Header, entries: &[Entry]) -> Result<Vec<Key>, NoMemory>
    requires { IsGroup (record { header = header.now; entries = entries.now }) }
    ensures { IfOk result (λ keys. keys.items ≡ group_keys header.now.flags entries.now) }
{
    let mut keys = Vec::with_capacity(alloc, entries.len())?;
    for entry in entries {
        keys.push(header.key_of(alloc, entry)?)?;
    }
    Ok(keys)
}

/// Returns the index of each of some keys.
fn indices_of(alloc: Global, keys: Vec<Key>) -> Result<Indices, NoMemory>
    ensures { IfOk result (λ indices. IsIndex indices keys.items) }
{
    let mut indices = Indices::new(alloc);
    let mut index = 0;
    for key in keys {
        indices.insert(key.into_bytes(), index)?;
        index += 1;
    }
    Ok(indices)
}
