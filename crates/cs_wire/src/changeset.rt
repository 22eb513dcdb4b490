//! Changesets: the changes of several tables.
ghost use Rattle.std.specs.Prelude.{◌≡◌, ◌++◌, ◌∷◌, [], ◌↔◌, IfOk, IfSome, IsTrue, OnOk, OnErr, is_none};
ghost use Rattle.cs_wire_entries.specs.Views.{IsIndexWhere, IsIndex, group_names};
ghost use Rattle.cs_wire_entries.specs.Changeset.{IsNewName, IsChangeset};

use crate::group::Group;
use crate::indices::Indices;
use cs_value::NoMemory;
use std::alloc::Global;
use std::marker::Model;

/// A list of groups, each of a table of its own.
#[derive(Debug, Drop)]
pub struct Changeset {
    groups: Vec<Group>,
    // The index of the group of each table, by its name.
    indices: Indices,
}

impl Model for Changeset {
    ghost use Rattle.std.specs.Prelude.{List};
    ghost use Rattle.cs_wire_entries.specs.Changeset.{GroupData, IsGroup, IsChangeset};
    ghost use Rattle.cs_wire_entries.specs.Views.{group_names, IsIndex};

    ghost Value = { List GroupData };

    ghost view = { λ c. c.groups.items };

    ghost invariant = { λ c. IsChangeset c.groups.items × IsIndex c.indices (group_names c.groups.items) };
}

impl Changeset {
    /// Returns the changeset without tables.
    pub fn new(alloc: Global) -> Changeset
        ensures { result ≡ [] }
    {
        Changeset {
            groups: Vec::new(alloc),
            indices: Indices::new(alloc),
        }
    }

    /// Returns the changeset of some groups. No two of them are of one table.
    pub fn from_groups(alloc: Global, groups: Vec<Group>) -> Result<Changeset, NoMemory>
        requires { IsChangeset groups.items }
        ensures made { IfOk result (λ c. c ≡ groups.items) }
        ensures well_formed { IfOk result IsChangeset }
    {
        let indices = indices_of(alloc, &groups)?;
        Ok(Changeset { groups, indices })
    }

    /// Returns the groups, in the order of the file.
    pub fn groups(&self) -> &[Group]
        ensures same { result.now ≡ self.now }
        ensures well_formed { IsChangeset self.now }
    {
        &self.groups
    }

    /// Returns the zero-based index of the group of a table, or None if there is none. It allocates nothing, and takes
    /// time in proportion to the logarithm of the number of groups.
    pub fn find(&self, name: &str) -> Option<usize>
        ensures found { IfSome result (IsIndexWhere (λ g. g.header.name ≡ name.now) self.now) }
        ensures absent { IsTrue (is_none result) ↔ IsNewName self.now name.now }
    {
        self.indices.get(name.as_bytes())
    }

    /// Appends a group of a table that the changeset does not have ([`Changeset::find`]). [`NoMemory`] leaves the
    /// changeset unchanged, and drops the group.
    pub fn push(&mut self, group: Group) -> Result<(), NoMemory>
        requires { IsNewName self.old group.header.name }
        ensures ok { OnOk result (self.new ≡ self.old ++ group ∷ []) }
        ensures well_formed { OnOk result (IsChangeset self.new) }
        ensures err { OnErr result (self.new ≡ self.old) }
    {
        let name = Vec::from_slice(*self.groups.allocator(), group.header().name().as_bytes())?;
        let index = self.groups.len();
        self.groups.push(group)?;
        match self.indices.insert(name, index) {
            Ok(()) => Ok(()),
            Err(refusal) => {
                self.groups.pop();
                Err(refusal)
            }
        }
    }

    /// Returns the groups. It allocates nothing.
    pub fn into_groups(self) -> Vec<Group>
        ensures same { result.items ≡ self }
        ensures well_formed { IsChangeset self }
    {
        let Changeset { groups, .. } = self;
        groups
    }
}

impl PartialEq for Changeset {
    ghost use Rattle.std.specs.Cmp.Lexicographic.{pointwise, lists_per};
    ghost use Rattle.cs_wire.specs.contracts.group.GroupPartialEq.TheImpl.Laws.{laws-law};

    ghost eq = { pointwise ⟦<Group as PartialEq>⟧.eq };

    ghost laws = { lists_per laws-law };

    fn eq(&self, other: &Changeset) -> bool {
        self.groups == other.groups
    }
}

impl Eq for Changeset {
    ghost use Rattle.std.specs.Cmp.Lexicographic.{lists_equiv};
    ghost use Rattle.cs_wire.specs.contracts.group.GroupEq.TheImpl.Laws.{laws-law};

    ghost laws = { lists_equiv laws-law };
}

/// Returns the index of the name of each of some groups. No two of them are of one table.
fn indices_of(alloc: Global, groups: &[Group]) -> Result<Indices, NoMemory>
    requires { IsChangeset groups.now }
    ensures { IfOk result (λ indices. IsIndex indices (group_names groups.now)) }
{
    let mut indices = Indices::new(alloc);
    for (index, group) in groups.iter().enumerate() {
        let name = Vec::from_slice(alloc, group.header().name().as_bytes())?;
        indices.insert(name, index)?;
    }
    Ok(indices)
}
