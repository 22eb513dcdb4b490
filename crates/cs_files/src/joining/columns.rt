//! Whether the tables of two files have the same columns.
ghost use Rattle.std.specs.Prelude.{◌≡◌, ◌↔◌, List, IfNone, IfSome, IsTrue};
ghost use Rattle.cs_wire.specs.Changeset.{GroupData, IsChangeset};
ghost use Rattle.cs_wire.specs.Headers.{header_of};
ghost use Rattle.cs_file_scan.specs.Named.{AreListed};
ghost use Rattle.cs_group.specs.Joining.{AgreesWith, AreJoinable, FirstClash, key_marks, table_name, with_text};
ghost use Rattle.cs_files.specs.Writing.{IsPartner};

use cs_file_scan::{NamedTables, Tables};
use cs_group::have_same_columns;
use cs_wire::HeaderRef;

/// Returns the index of the first table of the second file that has other columns or another key in the first.
pub(crate) fn first_clash<'a>(known: &NamedTables<'a>, added: &NamedTables<'a>) -> Option<usize>
    ensures clash { (groups others : List GroupData) → AreListed known.now groups → IsChangeset groups
        → AreListed added.now others
        → IfSome result (FirstClash groups others) }
    ensures none { (groups others : List GroupData) → AreListed known.now groups → IsChangeset groups
        → AreListed added.now others
        → IfNone result (AreJoinable groups others) }
{
    for index in 0..added.len() {
        if !agrees(known, &added.header(index)) {
            return Some(index);
        }
    }
    None
}

/// Returns whether a table has the same columns as the table of its name in a file, if there is one.
fn agrees<'a>(known: &NamedTables<'a>, header: &HeaderRef<'a>) -> bool
    ensures { (groups : List GroupData) (group : GroupData) → AreListed known.now groups → IsChangeset groups
        → header_of header.now ≡ group.header
        → IsTrue result ↔ AgreesWith groups group }
{
    match known.find(header.name) {
        None => true,
        Some(index) => have_same_columns(known.header(index).flags, header.flags),
    }
}

/// Returns the entries of the table with a name, if it has the same columns.
pub(crate) fn partner_of<'a>(named: &NamedTables<'a>, header: &HeaderRef<'a>) -> Option<Tables<'a>>
    ensures agree { IfSome result (λ tables. key_marks tables.flags ≡ key_marks header.now.flags.now) }
    ensures found { (groups : List GroupData) → AreListed named.now groups → IsChangeset groups
        → IfSome (with_text table_name groups header.now.name.now) (λ group. key_marks group.header.flags ≡
        key_marks header.now.flags.now)
        → IsPartner result (with_text table_name groups header.now.name.now) }
{
    let index = named.find(header.name)?;
    if !have_same_columns(named.header(index).flags, header.flags) {
        return None;
    }
    Some(named.open(index))
}
