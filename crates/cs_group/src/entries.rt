//! The concatenation of the entries of two groups of one table.
ghost use Rattle.std.specs.Prelude.{◌≡◌, ◌≢◌, ◌++◌, All, List, ℕ, IfOk, IfSome, IsTrue, OnOk};
ghost use Rattle.std.specs.Prelude.{None, Some, false, filter, filter_map, if◌then◌else◌, is_none, length, option_to_list, replicate};
ghost use Rattle.cs_wire_entries.specs.declared.entry.Entry.{Entry as EntryData};
ghost use Rattle.cs_wire.specs.Entry.{IsEntry, key_of};
ghost use Rattle.cs_wire.specs.Changeset.{IsGroup};
ghost use Rattle.cs_wire.specs.Views.{IsIndexWhere, group_keys};
ghost use Rattle.cs_group.specs.Joining.{entry_key, key_marks, is_new, left_of, merged, outcome, joined_entry, joined_entries};
ghost use Rattle.cs_group.specs.Marks.{AreMet};

use crate::joined::JoinedEntries;
use crate::keyed::KeyedGroup;
use crate::merging::{Merged, merge_refs};
use cs_value::{Key, NoMemory};
use cs_wire::{Entry, EntryRef, Group};
use indexmap::IndexSet;
use std::alloc::Global;

/// Returns the entries of the concatenation of two groups of one table. The key of each entry is made once.
pub(crate) fn join_entries<'a>(
    alloc: Global,
    first: &'a Group,
    second: &Group,
) -> Result<JoinedEntries<'a>, NoMemory>
    requires agree { key_marks second.now.header.flags ≡ key_marks first.now.header.flags }
    ensures flags { IfOk result (λ joined. joined.flags ≡ first.now.header.flags) }
    ensures same { IfOk result (λ joined. joined.entries
        ≡ joined_entries first.now.header.flags first.now.entries second.now.entries) }
    ensures well_formed { IfOk result (λ _. IsGroup second.now) }
{
    let seconds = KeyedGroup::list(alloc, second)?;
    let mut joined = JoinedEntries::new(alloc, first.flags());
    let met = keep_entries(alloc, first, &seconds, &mut joined)?;
    add_new_entries(
        alloc,
        second,
        seconds.into_keys(),
        met.as_slice(),
        &mut joined,
    )?;
    Ok(joined)
}

/// Appends the merged entries of the first group. Returns which entries of the second group have the key of one.
fn keep_entries(
    alloc: Global,
    first: &Group,
    second: &KeyedGroup<'_>,
    joined: &mut JoinedEntries<'_>,
) -> Result<Vec<bool>, NoMemory>
    requires agree { key_marks second.now.header.flags ≡ key_marks first.now.header.flags }
    requires flags { joined.old.flags ≡ first.now.header.flags }
    ensures kept { IfOk result (λ _. joined.new.entries ≡ joined.old.entries
        ++ filter_map (outcome (entry_key first.now.header.flags) (joined_entry first.now.header.flags) second.now.entries) first.now.entries) }
    ensures met { IfOk result (λ met. AreMet (entry_key first.now.header.flags) met.items first.now.entries second.now.entries) }
    ensures width { IfOk result (λ met. length met.items ≡ length second.now.entries) }
    ensures same_flags { joined.new.flags ≡ joined.old.flags }
{
    let mut met = unmarked(alloc, second.group().entries().len())?;
    for entry in first.entries() {
        if let Some(index) = join_entry(alloc, first, entry, second, joined)? {
            met[index] = true;
        }
    }
    Ok(met)
}

/// Appends the entries of the second group that are not marked, with these keys.
fn add_new_entries(
    alloc: Global,
    second: &Group,
    keys: IndexSet<Key>,
    met: &[bool],
    joined: &mut JoinedEntries<'_>,
) -> Result<(), NoMemory>
    requires keys { keys.keys ≡ group_keys second.now.header.flags second.now.entries }
    requires width { length met.now ≡ length second.now.entries }
    requires agree { key_marks second.now.header.flags ≡ key_marks joined.old.flags }
    ensures grown { (firsts : List EntryData) → AreMet (entry_key joined.old.flags) met.now firsts second.now.entries
        → OnOk result (joined.new.entries ≡ joined.old.entries ++ filter (is_new (entry_key joined.old.flags) firsts) second.now.entries) }
    ensures same_flags { joined.new.flags ≡ joined.old.flags }
    ensures well_formed { IsGroup second.now }
{
    let entries = second.entries();
    let mut index = 0;
    for key in keys {
        add_unmet(alloc, joined, key, &entries[index], met[index])?;
        index += 1;
    }
    Ok(())
}

/// Appends an entry with this key, if it is not marked.
fn add_unmet(
    alloc: Global,
    joined: &mut JoinedEntries<'_>,
    key: Key,
    entry: &Entry,
    met: bool,
) -> Result<(), NoMemory>
    requires { key ≡ key_of joined.old.flags entry.now.change }
    ensures added { OnOk result (joined.new.entries ≡ joined.old.entries
        ++ option_to_list (if met then None else Some entry.now)) }
    ensures same_flags { joined.new.flags ≡ joined.old.flags }
{
    if met {
        return Ok(());
    }
    let entry = entry.copy(alloc)?;
    joined.push(key, entry)
}

/// Appends an entry of the first group, merged with the one of its key in the second. Returns the index of that one, if
/// there is one.
fn join_entry(
    alloc: Global,
    first: &Group,
    entry: &Entry,
    second: &KeyedGroup<'_>,
    joined: &mut JoinedEntries<'_>,
) -> Result<Option<usize>, NoMemory>
    requires agree { key_marks second.now.header.flags ≡ key_marks first.now.header.flags }
    requires flags { joined.old.flags ≡ first.now.header.flags }
    requires fits { IsEntry first.now.header.flags entry.now }
    ensures joined { IfOk result (λ _. joined.new.entries ≡ joined.old.entries
        ++ option_to_list (outcome (entry_key first.now.header.flags) (joined_entry first.now.header.flags) second.now.entries entry.now)) }
    ensures found { IfOk result (λ index. IfSome index (IsIndexWhere (λ e. key_of first.now.header.flags e.change
        ≡ key_of first.now.header.flags entry.now.change) second.now.entries)) }
    ensures absent { IfOk result (λ index. IsTrue (is_none index)
        → All (λ e. key_of first.now.header.flags e.change ≢ key_of first.now.header.flags entry.now.change) second.now.entries) }
    ensures same_flags { joined.new.flags ≡ joined.old.flags }
{
    let key = first.key_of(alloc, entry)?;
    match second.find(&key) {
        None => {
            let entry = entry.copy(alloc)?;
            joined.push(key, entry)?;
            Ok(None)
        }
        Some(index) => {
            let other = &second.group().entries()[index];
            let left = merge_entry(alloc, first, entry, second.group(), other)?;
            add_left(joined, key, left)?;
            Ok(Some(index))
        }
    }
}

/// Appends what remains of an entry with this key.
fn add_left(joined: &mut JoinedEntries<'_>, key: Key, left: Option<Entry>) -> Result<(), NoMemory>
    requires { IfSome left (λ e. key ≡ key_of joined.old.flags e.change) }
    ensures added { OnOk result (joined.new.entries ≡ joined.old.entries ++ option_to_list left) }
    ensures same_flags { joined.new.flags ≡ joined.old.flags }
{
    match left {
        None => Ok(()),
        Some(entry) => joined.push(key, entry),
    }
}

/// Returns what remains of an entry of the first group, merged with one of its key in the second.
fn merge_entry(
    alloc: Global,
    first: &Group,
    entry: &Entry,
    second: &Group,
    other: &Entry,
) -> Result<Option<Entry>, NoMemory>
    requires agree { key_marks second.now.header.flags ≡ key_marks first.now.header.flags }
    requires one_key { key_of first.now.header.flags entry.now.change ≡ key_of first.now.header.flags other.now.change }
    requires fits { IsEntry first.now.header.flags entry.now }
    requires other_fits { IsEntry second.now.header.flags other.now }
    ensures left { IfOk result (λ left. left ≡ left_of entry.now (merged first.now.header.flags entry.now other.now)) }
    ensures keyed { IfOk result (λ left. IfSome left (λ e. key_of first.now.header.flags e.change
        ≡ key_of first.now.header.flags entry.now.change)) }
{
    let added = EntryRef::from_entry(second.flags(), other);
    match merge_refs(alloc, &EntryRef::from_entry(first.flags(), entry), &added)? {
        Merged::Keep => Ok(Some(entry.copy(alloc)?)),
        Merged::Becomes(entry) => Ok(Some(entry)),
        Merged::Vanish => Ok(None),
    }
}

/// Returns this many marks, none of them set.
pub(crate) fn unmarked(alloc: Global, count: usize) -> Result<Vec<bool>, NoMemory>
    ensures { IfOk result (λ met. met.items ≡ replicate count false) }
{
    Ok(Vec::from_elem(alloc, false, count)?)
}

/// Appends a value, if there is one.
pub(crate) fn push_some<T: Drop>(list: &mut Vec<T>, item: Option<T>) -> Result<(), NoMemory>
    ensures { OnOk result (list.new.items ≡ list.old.items ++ option_to_list item) }
{
    match item {
        None => Ok(()),
        Some(item) => Ok(list.push(item)?),
    }
}
