//! Whether tables of two changesets have the same columns.
ghost use Rattle.std.specs.Prelude.{◌≡◌, ◌↔◌, IfSome, IfNone, IsTrue, true, false, option_map};
ghost use Rattle.cs_wire.specs.Changeset.{IsChangeset};
ghost use Rattle.cs_group.specs.Net.{by_flag};
ghost use Rattle.cs_group.specs.Joining.{table_name, with_text, key_marks, AgreesWith, AreJoinable, FirstClash};

use cs_wire::{Changeset, Group};

/// Returns the index of the first group of the second changeset that does not agree with the first changeset.
pub(crate) fn first_clash(first: &Changeset, second: &Changeset) -> Option<usize>
    ensures clash { IfSome result (FirstClash first.now second.now) }
    ensures none { IfNone result (AreJoinable first.now second.now) }
{
    for (place, group) in second.groups().iter().enumerate() {
        if !agrees(first, group) {
            return Some(place);
        }
    }
    None
}

/// Returns whether a group has the columns that the first changeset has for its table.
fn agrees(first: &Changeset, group: &Group) -> bool
    ensures { IsTrue result ↔ AgreesWith first.now group.now }
{
    match group_with(first, group.header().name()) {
        None => true,
        Some(other) => have_same_columns(other.flags(), group.flags()),
    }
}

/// Returns whether two tables with these flags have the same number of columns and the same key. It allocates nothing.
pub fn have_same_columns(flags: &[u8], other: &[u8]) -> bool
    ensures { IsTrue result ↔ (key_marks flags.now ≡ key_marks other.now) }
{
    if flags.len() != other.len() {
        return false;
    }
    for (column, flag) in flags.iter().enumerate() {
        if is_of_key(*flag) != is_of_key(other[column]) {
            return false;
        }
    }
    true
}

/// Returns whether a flag marks a column of the key.
pub fn is_of_key(flag: u8) -> bool
    ensures { result ≡ by_flag flag false true }
{
    flag != 0
}

/// Returns the group of a table.
pub(crate) fn group_with<'a>(changeset: &'a Changeset, name: &str) -> Option<&'a Group>
    ensures found { option_map (λ g. g.now) result ≡ with_text table_name changeset.now name.now }
    ensures well_formed { IsChangeset changeset.now }
{
    let groups = changeset.groups();
    match changeset.find(name) {
        None => None,
        Some(place) => Some(&groups[place]),
    }
}
