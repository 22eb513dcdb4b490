//! The groups of a changeset by the names of their tables, and the entries of a group by their keys.
ghost use Rattle.std.specs.Prelude.{◌≡◌, ◌↔◌, IfOk, IfSome, IsTrue, is_none, map};
ghost use Rattle.cs_wire.specs.Changeset.{IsChangeset, IsGroup, IsNewKey, IsNewName};
ghost use Rattle.cs_wire.specs.Entry.{key_of};
ghost use Rattle.cs_wire.specs.Views.{IsIndexWhere, group_keys, group_names};

use cs_value::{Key, NoMemory};
use cs_wire::{Changeset, Entry, Group};
use indexmap::IndexSet;
use std::alloc::Global;
use std::marker::Model;

/// The groups of a changeset, with an index by name. Contracts see the groups.
#[derive(Drop)]
pub(crate) struct NamedGroups<'a> {
    changeset: &'a Changeset,
    // The name of each group's table, at its index.
    names: IndexSet<&'a str>,
}

impl<'a> Model for NamedGroups<'a> {
    ghost use Rattle.std.specs.Prelude.{◌≡◌, List, map};
    ghost use Rattle.cs_wire.specs.Changeset.{GroupData};
    ghost use Rattle.cs_wire.specs.Views.{group_names};

    ghost Value = { List GroupData };

    ghost view = { λ n. n.changeset.now };

    ghost invariant = { λ n. map (λ name. name.now) n.names.keys ≡ group_names n.changeset.now };
}

impl<'a> NamedGroups<'a> {
    /// Indexes the groups of a changeset.
    pub(crate) fn list(alloc: Global, changeset: &'a Changeset) -> Result<NamedGroups<'a>, NoMemory>
        ensures listed { IfOk result (λ named. named ≡ changeset.now) }
        ensures well_formed { IfOk result IsChangeset }
    {
        let names = names_of(alloc, changeset)?;
        Ok(NamedGroups { changeset, names })
    }

    /// Returns the groups, in the order of the file.
    pub(crate) fn groups(&self) -> &'a [Group]
        ensures same { result.now ≡ self.now }
        ensures well_formed { IsChangeset self.now }
    {
        self.changeset.groups()
    }

    /// Returns the index of the group of a table, zero-based, or None. It allocates nothing.
    pub(crate) fn find(&self, name: &str) -> Option<usize>
        ensures found { IfSome result (IsIndexWhere (λ g. g.header.name ≡ name.now) self.now) }
        ensures absent { IsTrue (is_none result) ↔ IsNewName self.now name.now }
    {
        self.names.get_index_of(name)
    }
}

/// Returns the names of the tables of a changeset, in its order.
fn names_of(alloc: Global, changeset: &Changeset) -> Result<IndexSet<&str>, NoMemory>
    ensures listed { IfOk result (λ names. map (λ name. name.now) names.keys ≡ group_names changeset.now) }
    ensures well_formed { IfOk result (λ _. IsChangeset changeset.now) }
{
    let groups = changeset.groups();
    let mut names = IndexSet::with_capacity(alloc, groups.len())?;
    for group in groups {
        names.insert(group.header().name())?;
    }
    Ok(names)
}

/// The entries of a group, with an index by key. Each key is made once. Contracts see the group.
#[derive(Drop)]
pub(crate) struct KeyedGroup<'a> {
    group: &'a Group,
    // The key of each entry, at its index.
    keys: IndexSet<Key>,
}

impl<'a> Model for KeyedGroup<'a> {
    ghost use Rattle.std.specs.Prelude.{◌≡◌};
    ghost use Rattle.cs_wire.specs.Changeset.{GroupData};
    ghost use Rattle.cs_wire.specs.Views.{group_keys};

    ghost Value = { GroupData };

    ghost view = { λ k. k.group.now };

    ghost invariant = { λ k. k.keys.keys ≡ group_keys k.group.now.header.flags k.group.now.entries };
}

impl<'a> KeyedGroup<'a> {
    /// Indexes the entries of a group.
    pub(crate) fn list(alloc: Global, group: &'a Group) -> Result<KeyedGroup<'a>, NoMemory>
        ensures listed { IfOk result (λ keyed. keyed ≡ group.now) }
        ensures well_formed { IfOk result IsGroup }
    {
        let keys = keys_of(alloc, group)?;
        Ok(KeyedGroup { group, keys })
    }

    /// Returns the group.
    pub(crate) fn group(&self) -> &'a Group
        ensures { result.now ≡ self.now }
    {
        self.group
    }

    /// Returns the index of the entry with a key, zero-based, or None. It allocates nothing.
    pub(crate) fn find(&self, key: &Key) -> Option<usize>
        ensures found { IfSome result (IsIndexWhere (λ e. key_of self.now.header.flags e.change ≡ key.now) self.now.entries) }
        ensures absent { IsTrue (is_none result) ↔ IsNewKey self.now.header.flags self.now.entries key.now }
    {
        self.keys.get_index_of(key)
    }

    /// Returns the keys, in the order of the entries. It allocates nothing.
    pub(crate) fn into_keys(self) -> IndexSet<Key>
        ensures { result.keys ≡ group_keys self.entry.header.flags self.entry.entries }
    {
        let KeyedGroup { keys, .. } = self;
        keys
    }
}

/// Returns the keys of the entries of a group, in their order.
fn keys_of(alloc: Global, group: &Group) -> Result<IndexSet<Key>, NoMemory>
    ensures listed { IfOk result (λ keys. keys.keys ≡ group_keys group.now.header.flags group.now.entries) }
    ensures well_formed { IfOk result (λ _. IsGroup group.now) }
{
    let entries = group.entries();
    let mut keys = IndexSet::with_capacity(alloc, entries.len())?;
    for entry in entries {
        keys.insert(group.key_of(alloc, entry)?)?;
    }
    Ok(keys)
}
