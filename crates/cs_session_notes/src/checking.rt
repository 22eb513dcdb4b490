//! Whether a store has the tables that are attached, and rows that fit them.
ghost use Rattle.std.specs.Prelude.{◌≡◌, ◌⊎◌, map, IsTrue, ◌↔◌, OnOk, IfErr, IfSome, is_ok};
ghost use Rattle.cs_value.specs.State.{IsRowAt};
ghost use Rattle.cs_session_notes.specs.declared.fault.SessionFault.TheVariants.{NoMemory as OutOfMemory};
ghost use Rattle.cs_session_notes.specs.FirstImages.{HasAttached};
ghost use Rattle.cs_session_notes.specs.Noting.{AreApart, IsDamage};
ghost use Rattle.cs_session_notes.specs.Changes.{HasTables, HasNamed, RefusesTable, RefusesNamed, RefusesChanges, IsCaused, IsChangesRefusal, is_answered};
ghost use Rattle.cs_session_notes.specs.Views.{attached_of};

use crate::attached::Attached;
use crate::fault::SessionFault;
use crate::tables::AttachedTables;
use cs_rows::{Rows, Schema, StoreError};
use cs_value::{Key, Row};
use std::alloc::Global;

/// Refuses where one of the tables is not there as it was attached.
pub fn check_tables<B: Rows>(
    alloc: Global,
    rows: &mut B,
    tables: &[Attached],
) -> Result<(), SessionFault>
    ensures attached { B.is_honest rows.new → OnOk result (HasTables (B.state rows.old) (map attached_of tables.now)) }
    ensures same { B.is_honest rows.new → OnOk result (B.state rows.new ≡ B.state rows.old) }
    ensures refused { B.is_honest rows.new
        → IfErr result (RefusesChanges (B.state rows.old) (map attached_of tables.now)) }
    ensures named { IfErr result IsChangesRefusal }
    ensures caused { B.is_honest rows.new → IfErr result (IsCaused (B.fails (λ _ _. ⊥) rows.old rows.new)) }
    ensures was_honest { B.is_honest rows.new → B.is_honest rows.old }
    ensures kept { B.keeps (λ _ _. ⊥) (is_answered result) rows.old rows.new }
{
    for table in tables {
        check_table(alloc, rows, table)?;
    }
    Ok(())
}

/// Refuses where the table of this name is attached, and not there as it was.
pub fn check_named<B: Rows>(
    alloc: Global,
    rows: &mut B,
    tables: &AttachedTables,
    name: &str,
) -> Result<(), SessionFault>
    requires { AreApart (map attached_of tables.now) }
    ensures attached { B.is_honest rows.new
        → OnOk result (HasNamed (B.state rows.old) name.now (map attached_of tables.now)) }
    ensures same { B.is_honest rows.new → OnOk result (B.state rows.new ≡ B.state rows.old) }
    ensures refused { B.is_honest rows.new
        → IfErr result (RefusesNamed (B.state rows.old) name.now (map attached_of tables.now)) }
    ensures named { IfErr result IsChangesRefusal }
    ensures caused { B.is_honest rows.new → IfErr result (IsCaused (B.fails (λ _ _. ⊥) rows.old rows.new)) }
    ensures was_honest { B.is_honest rows.new → B.is_honest rows.old }
    ensures kept { B.keeps (λ _ _. ⊥) (is_answered result) rows.old rows.new }
{
    match tables.index_of(name) {
        None => Ok(()),
        Some(index) => check_table(alloc, rows, &tables.as_slice()[index]),
    }
}

/// Refuses where the table is not there as it was attached.
pub fn check_table<B: Rows>(
    alloc: Global,
    rows: &mut B,
    table: &Attached,
) -> Result<(), SessionFault>
    ensures attached { B.is_honest rows.new → OnOk result (HasAttached (B.state rows.old) (attached_of table.now)) }
    ensures same { B.is_honest rows.new → OnOk result (B.state rows.new ≡ B.state rows.old) }
    ensures refused { B.is_honest rows.new → IfErr result (RefusesTable (B.state rows.old) (attached_of table.now)) }
    ensures named { IfErr result IsChangesRefusal }
    ensures caused { B.is_honest rows.new → IfErr result (IsCaused (B.fails (λ _ _. ⊥) rows.old rows.new)) }
    ensures was_honest { B.is_honest rows.new → B.is_honest rows.old }
    ensures kept { B.keeps (λ _ _. ⊥) (is_answered result) rows.old rows.new }
{
    match rows.schema(alloc, table.name.as_str())? {
        Some(schema) if is_same(&schema, &table.schema) => Ok(()),
        _ => Err(SessionFault::WrongStore),
    }
}

/// Whether two schemas are the same.
fn is_same(schema: &Schema, other: &Schema) -> bool
    ensures { IsTrue result ↔ (schema.now ≡ other.now) }
{
    schema.columns() == other.columns()
        && schema.flags() == other.flags()
        && schema.refuses() == other.refuses()
}

/// Refuses a row that cannot be under the key in a table of this schema.
pub fn check_row(
    alloc: Global,
    schema: &Schema,
    key: &Key,
    row: Option<&Row>,
) -> Result<(), SessionFault>
    ensures fits { OnOk result (IfSome row.entry (λ r. IsRowAt schema.now key.now r.now)) }
    ensures refused { IfErr result (λ e. (e ≡ OutOfMemory)
        ⊎ (IsDamage e × ¬ IfSome row.entry (λ r. IsRowAt schema.now key.now r.now))) }
{
    let row = match row {
        None => return Ok(()),
        Some(row) => row,
    };
    let flags = schema.flags();
    if row.is_keyed(flags) && schema.is_obeyed_by(row) && Key::of_row(alloc, flags, row)? == *key {
        Ok(())
    } else {
        Err(SessionFault::Store(StoreError::DamagedStore))
    }
}
