//! The net changes of tables.
ghost use Rattle.std.specs.Prelude.{◌≡◌, ◌≢◌, false, map, filter_map, option_map, All, AllPairs, IfOk, IfErr, OnOk, IfSome, is_ok, string_bytes};
ghost use Rattle.cs_value.specs.State.{IsRowAt, row_at};
ghost use Rattle.cs_wire.specs.Entry.{IsChange, IsEntry, key_of};
ghost use Rattle.cs_group.specs.Net.{net_row_change as change_between};
ghost use Rattle.cs_session_notes.specs.FirstImages.{IsNotes, IsAttachedTable, HasAttached};
ghost use Rattle.cs_session_notes.specs.FirstImages.{entry_since, net_group, recorded_changes};
ghost use Rattle.cs_session_notes.specs.Changes.{HasTables, RefusesChanges, IsCaused, IsChangesRefusal, IsResource, is_answered, is_own};
ghost use Rattle.cs_session_notes.specs.Views.{attached_of};

use crate::attached::Attached;
use crate::checking::{check_row, check_tables};
use crate::fault::SessionFault;
use cs_group::net_row_change;
use cs_rows::Rows;
use cs_value::{Key, Row};
use cs_wire::{Change, Changeset, Entry, Group, Header};
use std::alloc::Global;

/// The net changeset of tables that are attached: the changes from the first rows under the
/// keys that were written to the current ones.
///
/// Refuses with [`WrongStore`](SessionFault::WrongStore) where one of the tables is not there as it
/// was attached.
pub fn net_changeset<B: Rows>(
    alloc: Global,
    rows: &mut B,
    tables: &[Attached],
) -> Result<Changeset, SessionFault>
    requires { IsNotes (map attached_of tables.now) }
    ensures made { B.is_honest rows.new
        → IfOk result (λ c. c ≡ recorded_changes (map attached_of tables.now) (B.state rows.old)) }
    ensures attached { B.is_honest rows.new → OnOk result (HasTables (B.state rows.old) (map attached_of tables.now)) }
    ensures same { B.is_honest rows.new → OnOk result (B.state rows.new ≡ B.state rows.old) }
    ensures refused { B.is_honest rows.new
        → IfErr result (RefusesChanges (B.state rows.old) (map attached_of tables.now)) }
    ensures named { IfErr result IsChangesRefusal }
    ensures caused { B.is_honest rows.new → IfErr result (IsCaused (B.fails (λ _ _. ⊥) rows.old rows.new)) }
    ensures was_honest { B.is_honest rows.new → B.is_honest rows.old }
    ensures kept { B.keeps (λ _ _. ⊥) (is_answered result) rows.old rows.new }
{
    check_tables(alloc, rows, tables)?;
    let mut changeset = Changeset::new(alloc);
    for table in tables {
        if let Some(group) = table_changes(alloc, rows, table)? {
            changeset.push(group)?;
        }
    }
    Ok(changeset)
}

/// The changes of a table, if there are some.
fn table_changes<B: Rows>(
    alloc: Global,
    rows: &mut B,
    table: &Attached,
) -> Result<Option<Group>, SessionFault>
    requires table { IsAttachedTable (attached_of table.now) }
    requires attached { B.is_honest rows.old → HasAttached (B.state rows.old) (attached_of table.now) }
    ensures made { B.is_honest rows.new
        → IfOk result (λ group. group ≡ net_group (B.state rows.old) (attached_of table.now)) }
    ensures of_table { IfOk result (λ group. IfSome group (λ g. g.header.name ≡ string_bytes table.now.name)) }
    ensures same { B.is_honest rows.new → OnOk result (B.state rows.new ≡ B.state rows.old) }
    ensures refused { B.is_honest rows.new → IfErr result IsResource }
    ensures named { IfErr result IsChangesRefusal }
    ensures rows { IfErr result (λ e. is_own e ≡ false) }
    ensures caused { B.is_honest rows.new → IfErr result (IsCaused (B.fails (λ _ _. ⊥) rows.old rows.new)) }
    ensures was_honest { B.is_honest rows.new → B.is_honest rows.old }
    ensures kept { B.keeps (λ _ _. ⊥) (is_ok result) rows.old rows.new }
{
    let entries = table_entries(alloc, rows, table)?;
    if entries.is_empty() {
        return Ok(None);
    }
    let name = String::from_str(alloc, table.name.as_str())?;
    let flags = Vec::from_slice(alloc, table.schema.flags())?;
    Ok(Some(Group::from_entries(alloc, Header::new(name, flags), entries)?))
}

/// The changes of a table, one for each key whose row is another now, in the order of the first write.
fn table_entries<B: Rows>(
    alloc: Global,
    rows: &mut B,
    table: &Attached,
) -> Result<Vec<Entry>, SessionFault>
    requires table { IsAttachedTable (attached_of table.now) }
    requires attached { B.is_honest rows.old → HasAttached (B.state rows.old) (attached_of table.now) }
    ensures made { B.is_honest rows.new → IfOk result (λ entries. entries.items
        ≡ filter_map (entry_since (B.state rows.old) (attached_of table.now)) (attached_of table.now).firsts) }
    ensures each { IfOk result (λ entries. All (IsEntry table.now.schema.flags) entries.items) }
    ensures once { IfOk result (λ entries. AllPairs (λ d e. key_of table.now.schema.flags d.change
        ≢ key_of table.now.schema.flags e.change) entries.items) }
    ensures same { B.is_honest rows.new → OnOk result (B.state rows.new ≡ B.state rows.old) }
    ensures refused { B.is_honest rows.new → IfErr result IsResource }
    ensures named { IfErr result IsChangesRefusal }
    ensures rows { IfErr result (λ e. is_own e ≡ false) }
    ensures caused { B.is_honest rows.new → IfErr result (IsCaused (B.fails (λ _ _. ⊥) rows.old rows.new)) }
    ensures was_honest { B.is_honest rows.new → B.is_honest rows.old }
    ensures kept { B.keeps (λ _ _. ⊥) (is_ok result) rows.old rows.new }
{
    let mut entries = Vec::new(alloc);
    for (key, row) in table.firsts.iter() {
        if let Some(change) = row_change(alloc, rows, table, key, row.as_ref())? {
            entries.push(Entry {
                indirect: false,
                change,
            })?;
        }
    }
    Ok(entries)
}

/// The change from the first row of a key to the current one, if these differ.
fn row_change<B: Rows>(
    alloc: Global,
    rows: &mut B,
    table: &Attached,
    key: &Key,
    former: Option<&Row>,
) -> Result<Option<Change>, SessionFault>
    requires fits { IfSome (option_map (λ r. r.now) former) (IsRowAt table.now.schema key.now) }
    requires attached { B.is_honest rows.old → HasAttached (B.state rows.old) (attached_of table.now) }
    ensures made { B.is_honest rows.new → IfOk result (λ change. change ≡ change_between table.now.schema.flags
        (option_map (λ r. r.now) former.entry) (row_at (B.state rows.old) (string_bytes table.now.name) key.now)) }
    ensures fits { IfOk result (λ change. IfSome change (λ c. IsChange table.now.schema.flags c
        × (key_of table.now.schema.flags c ≡ key.now))) }
    ensures same { B.is_honest rows.new → OnOk result (B.state rows.new ≡ B.state rows.old) }
    ensures refused { B.is_honest rows.new → IfErr result IsResource }
    ensures named { IfErr result IsChangesRefusal }
    ensures rows { IfErr result (λ e. is_own e ≡ false) }
    ensures caused { B.is_honest rows.new → IfErr result (IsCaused (B.fails (λ _ _. ⊥) rows.old rows.new)) }
    ensures was_honest { B.is_honest rows.new → B.is_honest rows.old }
    ensures kept { B.keeps (λ _ _. ⊥) (is_ok result) rows.old rows.new }
{
    let row = rows.get(alloc, table.name.as_str(), key)?;
    let flags = table.schema.flags();
    check_row(alloc, &table.schema, key, row.as_ref())?;
    Ok(net_row_change(alloc, flags, former, row.as_ref())?)
}
