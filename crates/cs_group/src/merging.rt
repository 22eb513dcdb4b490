//! Merging two entries of one key.
ghost use Rattle.std.specs.Prelude.{◌≡◌, ℕ, List, IfOk};
ghost use Rattle.cs_wire.specs.Entry.{IsEntry, key_of};
ghost use Rattle.cs_group.specs.Net.{net_change as net_change_of};
ghost use Rattle.cs_group.specs.Joining.{merged, joint_image, key_marks, follows as follows_of, IfBecomes, FitsKey};

use crate::image::{after_image, before_image, known};
use crate::net::net_change;
use cs_value::NoMemory;
use cs_wire::{Change, Entry, EntryRef};
use std::alloc::Global;

/// The result of merging two entries of one key.
#[derive(Debug, PartialEq, Eq, Drop)]
pub enum Merged {
    /// The first is kept, and the second is ignored.
    Keep,
    /// They become this entry.
    Becomes(Entry),
    /// They cancel each other.
    Vanish,
}

/// Returns whether the second entry expects a row exactly if the first leaves one.
fn follows(first: &EntryRef<'_>, second: &EntryRef<'_>) -> bool
    ensures { result ≡ follows_of first.now.flags first.now.entry.change second.now.entry.change }
{
    first.fields_after().is_some() == second.old_fields().is_some()
}

/// Returns the change from the row before the first entry to the row after the second.
fn net_of_both<'a>(
    alloc: Global,
    first: &EntryRef<'a>,
    second: &EntryRef<'a>,
) -> Result<Option<Change>, NoMemory>
    requires agree { key_marks second.now.flags ≡ key_marks first.now.flags }
    ensures { IfOk result (λ net. net ≡ net_change_of first.now.flags
        (joint_image first.now.flags first.now.entry.change second.now.entry.change)) }
{
    let before = known(
        alloc,
        before_image(alloc, first)?,
        before_image(alloc, second)?,
    )?;
    let after = known(
        alloc,
        after_image(alloc, second)?,
        after_image(alloc, first)?,
    )?;
    net_change(alloc, first.flags(), before.as_deref(), after.as_deref())
}

/// Merges two borrowed entries, as [`merge`] does. Their flags mark the same key columns.
pub fn merge_refs<'a>(
    alloc: Global,
    first: &EntryRef<'a>,
    second: &EntryRef<'a>,
) -> Result<Merged, NoMemory>
    requires agree { key_marks second.now.flags ≡ key_marks first.now.flags }
    requires one_key { key_of first.now.flags first.now.entry.change ≡ key_of first.now.flags second.now.entry.change }
    ensures case { IfOk result (λ m. m ≡ merged first.now.flags first.now.entry second.now.entry) }
    ensures fits { IfOk result (λ m. IfBecomes m (FitsKey first.now.flags (key_of first.now.flags first.now.entry.change))) }
{
    let (one, other) = (first.indirect(), second.indirect());
    if !follows(first, second) {
        return Ok(Merged::Keep);
    }
    let indirect = one && other;
    Ok(match net_of_both(alloc, first, second)? {
        None => Merged::Vanish,
        Some(change) => Merged::Becomes(Entry { indirect, change }),
    })
}

/// Merges two entries of one key, as SQLite's `sqlite3changegroup_add` does.
///
/// The first is kept if the second does not follow it: it expects a row and the first leaves none, or the reverse. Else
/// the result is the change from the row before the first to the row after the second, which is indirect if both are.
/// They cancel each other if that changes nothing.
///
/// Both entries fit the flags ([`cs_wire::Header::admits`]) and have one key
/// ([`cs_wire::Header::key_of`]).
pub fn merge<'a>(
    alloc: Global,
    flags: &'a [u8],
    first: &'a Entry,
    second: &'a Entry,
) -> Result<Merged, NoMemory>
    requires first { IsEntry flags.now first.now }
    requires second { IsEntry flags.now second.now }
    requires one_key { key_of flags.now first.now.change ≡ key_of flags.now second.now.change }
    ensures case { IfOk result (λ m. m ≡ merged flags.now first.now second.now) }
    ensures fits { IfOk result (λ m. IfBecomes m (FitsKey flags.now (key_of flags.now first.now.change))) }
{
    let first = EntryRef::from_entry(flags, first);
    let second = EntryRef::from_entry(flags, second);
    merge_refs(alloc, &first, &second)
}
