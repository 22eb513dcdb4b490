//! The concatenation of two changesets.
ghost use Rattle.std.specs.Prelude.{◌≡◌, ◌≢◌, ◌+◌, ◌≤◌, [], ◌++◌, All, List, length, IfOk, IfErr, IfSome, IsTrue, OnOk, Some};
ghost use Rattle.std.specs.Prelude.{filter, filter_map, is_none, option_to_list};
ghost use Rattle.cs_value.specs.declared.refusal.OrNoMemory.TheVariants.{NoMemory as OutOfMemory};
ghost use Rattle.cs_value.specs.Refusals.{Refuses};
ghost use Rattle.cs_wire.specs.Changeset.{GroupData, IsChangeset, file_bytes};
ghost use Rattle.cs_wire.specs.Views.{IsIndexWhere};
ghost use Rattle.cs_group.specs.Inverse.{IsInverse};
ghost use Rattle.cs_group.specs.Joining.{table_name, key_marks, AreJoinable, FirstClash, IsJoined};
ghost use Rattle.cs_group.specs.Joining.{with_text, is_new, outcome, joined_group};
ghost use Rattle.cs_group.specs.Marks.{AreMet};

use crate::columns::first_clash;
use crate::entries::{join_entries, push_some, unmarked};
use crate::fault::{ConcatFault, SchemaFault};
use crate::keyed::NamedGroups;
use cs_value::NoMemory;
use cs_wire::{Changeset, Group};
use std::alloc::Global;

/// Returns the changeset that does what `first` does and then what `second` does, as SQLite's
/// `sqlite3changeset_concat` does, but for the order of keys. If `first` applies without a conflict and then `second`
/// does, the concatenation applies without a conflict, with the same result (`join_applies_law` of
/// `cs_apply_conflict_kinds`). A changeset and its inverse make an empty one.
///
/// The tables of `first` come first, in their order and with their headers, and then those that only `second` has. The
/// same goes for the keys of a table. Two entries of one key are merged ([`merge`]). Entries without
/// a change, and tables without an entry, are left out. The file is at most as long as both files.
///
/// # Errors
///
/// `Fault` if a table has another number of columns or another key in `second`, with the index of the first such group.
/// It is found before anything is allocated. `NoMemory` if out of memory.
pub fn concat(
    alloc: Global,
    first: &Changeset,
    second: &Changeset,
) -> Result<Changeset, ConcatFault>
    ensures joined { IfOk result (IsJoined first.now second.now) }
    ensures undone { IfOk result (λ join. IsInverse first.now second.now → join ≡ []) }
    ensures length { IfOk result (λ join. length (file_bytes join)
        ≤ length (file_bytes first.now) + length (file_bytes second.now)) }
    ensures clash { IfErr result (Refuses (λ f. FirstClash first.now second.now f.place)) }
    ensures joinable { IfErr result (λ f. f ≡ OutOfMemory → AreJoinable first.now second.now) }
{
    if let Some(index) = first_clash(first, second) {
        return Err(ConcatFault::Fault(SchemaFault { place: index }));
    }
    Ok(join_all(alloc, first, second)?)
}

/// Returns the concatenation of two changesets whose tables agree.
fn join_all(alloc: Global, first: &Changeset, second: &Changeset) -> Result<Changeset, NoMemory>
    requires { AreJoinable first.now second.now }
    ensures joined { IfOk result (IsJoined first.now second.now) }
    ensures well_formed { IfOk result (λ _. IsChangeset first.now × IsChangeset second.now) }
{
    let named = NamedGroups::list(alloc, second)?;
    let mut groups = Vec::new(alloc);
    let met = keep_groups(alloc, first, &named, &mut groups)?;
    add_new_groups(alloc, second, met.as_slice(), &mut groups)?;
    let join = Changeset::from_groups(alloc, groups)?;
    Ok(join)
}

/// Appends the merged groups of the first changeset. Returns which groups of the second have a table of the first.
fn keep_groups(
    alloc: Global,
    first: &Changeset,
    second: &NamedGroups<'_>,
    groups: &mut Vec<Group>,
) -> Result<Vec<bool>, NoMemory>
    requires { AreJoinable first.now second.now }
    ensures kept { IfOk result (λ _. groups.new.items ≡ groups.old.items
        ++ filter_map (outcome table_name joined_group second.now) first.now) }
    ensures met { IfOk result (λ met. AreMet table_name met.items first.now second.now) }
    ensures width { IfOk result (λ met. length met.items ≡ length second.now) }
    ensures well_formed { IfOk result (λ _. IsChangeset first.now) }
{
    let mut met = unmarked(alloc, second.groups().len())?;
    for group in first.groups() {
        if let Some(index) = join_group(alloc, group, second, groups)? {
            met[index] = true;
        }
    }
    Ok(met)
}

/// Appends the groups of the second changeset that are not marked.
fn add_new_groups(
    alloc: Global,
    second: &Changeset,
    met: &[bool],
    groups: &mut Vec<Group>,
) -> Result<(), NoMemory>
    requires width { length met.now ≡ length second.now }
    ensures grown { (firsts : List GroupData) → AreMet table_name met.now firsts second.now
        → OnOk result (groups.new.items ≡ groups.old.items ++ filter (is_new table_name firsts) second.now) }
    ensures well_formed { IsChangeset second.now }
{
    for (index, group) in second.groups().iter().enumerate() {
        if !met[index] {
            groups.push(group.copy(alloc)?)?;
        }
    }
    Ok(())
}

/// Appends a group of the first changeset, merged with the one of its table in the second. Returns the index of that
/// one, if there is one.
fn join_group(
    alloc: Global,
    group: &Group,
    second: &NamedGroups<'_>,
    groups: &mut Vec<Group>,
) -> Result<Option<usize>, NoMemory>
    requires agree { IfSome (with_text table_name second.now group.now.header.name)
        (λ g. key_marks g.header.flags ≡ key_marks group.now.header.flags) }
    ensures joined { IfOk result (λ _. groups.new.items ≡ groups.old.items
        ++ option_to_list (outcome table_name joined_group second.now group.now)) }
    ensures found { IfOk result (λ index. IfSome index (IsIndexWhere (λ g. g.header.name ≡ group.now.header.name) second.now)) }
    ensures absent { IfOk result (λ index. IsTrue (is_none index)
        → All (λ g. g.header.name ≢ group.now.header.name) second.now) }
{
    match second.find(group.header().name()) {
        None => {
            groups.push(group.copy(alloc)?)?;
            Ok(None)
        }
        Some(index) => {
            push_some(groups, join_groups(alloc, group, &second.groups()[index])?)?;
            Ok(Some(index))
        }
    }
}

/// Returns the concatenation of two groups of one table, or None if nothing remains.
fn join_groups(alloc: Global, first: &Group, second: &Group) -> Result<Option<Group>, NoMemory>
    requires agree { key_marks second.now.header.flags ≡ key_marks first.now.header.flags }
    ensures { IfOk result (λ group. group ≡ joined_group first.now (Some second.now)) }
{
    let joined = join_entries(alloc, first, second)?;
    if joined.is_empty() {
        return Ok(None);
    }
    Ok(Some(joined.into_group(alloc, first.header().copy(alloc)?)?))
}
