//! A table that is attached, and what is noted of it.
ghost use Rattle.std.specs.Prelude.{◌≡◌, ◌<◌, ◌⊎◌, ◌==◌, ◌++◌, length, map, option_map, is_some, false, OnOk, IfOk, IfErr};
ghost use Rattle.std.specs.List.{AllByRecursion, list_all};
ghost use Rattle.cs_session_notes.specs.declared.fault.SessionFault.TheVariants.{NoMemory as OutOfMemory};
ghost use Rattle.cs_session_notes.specs.FirstImages.{first_at};
ghost use Rattle.cs_session_notes.specs.Noting.{Fits, IsDamage, with_write};
ghost use Rattle.cs_session_notes.specs.Views.{attached_of, kept_of, HaveNonePendingBut, IsOpen, HasNonePending};

use crate::checking::check_row;
use crate::fault::SessionFault;
use crate::first_images::FirstImages;
use cs_rows::Schema;
use cs_value::{Key, NoMemory, Row};
use std::alloc::Global;

/// A table that is attached.
#[derive(Debug, Drop)]
pub struct Attached {
    pub name: String,
    pub schema: Schema,
    pub firsts: FirstImages,
}

/// Whether no key of the tables was written.
pub fn are_unwritten(tables: &[Attached]) -> bool
    ensures { result ≡ list_all (λ t. length (t.firsts.kept ++ t.firsts.pending) == 0) tables.now }
{
    tables.iter().all(|table| table.firsts.is_empty())
}

/// Whether a key that was written in a table is noted there already.
///
/// Refuses with [`NoMemory`](SessionFault::NoMemory), and with
/// [`DamagedStore`](cs_rows::StoreError::DamagedStore) for a previous row that cannot be of the table.
pub fn is_noted(
    alloc: Global,
    table: &Attached,
    key: &Key,
    former: Option<&Row>,
) -> Result<bool, SessionFault>
    ensures noted { IfOk result (λ yes. yes ≡ is_some (first_at (attached_of table.now).firsts key.now)) }
    ensures fits { OnOk result (Fits (attached_of table.now) key.now (option_map (λ r. r.now) former.entry)) }
    ensures refused { IfErr result (λ e. (e ≡ OutOfMemory)
        ⊎ (IsDamage e × ¬ Fits (attached_of table.now) key.now (option_map (λ r. r.now) former.entry))) }
{
    check_row(alloc, &table.schema, key, former)?;
    Ok(table.firsts.has_key(key))
}

/// Notes a key that was not written in a table before, and its previous row.
pub fn note_write(table: &mut Attached, key: Key, former: Option<Row>) -> Result<(), NoMemory>
    requires { is_some (first_at (attached_of table.old).firsts key) ≡ false }
    ensures noted { OnOk result (attached_of table.new ≡ with_write (attached_of table.old) key former) }
    ensures kept { kept_of table.new ≡ kept_of table.old }
{
    table.firsts.note(key, former)
}

/// Keeps what was noted since the last call of the session, in the tables at these indices.
pub fn keep_at(tables: &mut [Attached], indices: &[usize])
    requires { HaveNonePendingBut indices.now tables.old }
    ensures kept { map attached_of tables.new ≡ map attached_of tables.old }
    ensures none_pending { AllByRecursion HasNonePending tables.new }
{
    for index in indices {
        tables[*index].firsts.keep();
    }
}

/// Forgets what was noted since the last call of the session, in the tables at these indices.
pub fn cut_back_at(tables: &mut [Attached], indices: &[usize])
    requires { HaveNonePendingBut indices.now tables.old }
    ensures kept { map attached_of tables.new ≡ map kept_of tables.old }
    ensures none_pending { AllByRecursion HasNonePending tables.new }
{
    for index in indices {
        tables[*index].firsts.cut_back();
    }
}

/// Adds the index of a table in which something is about to be noted, unless it is the last of them. [`NoMemory`]
/// changes nothing.
pub fn open_at(tables: &[Attached], indices: &mut Vec<usize>, index: usize) -> Result<(), NoMemory>
    requires within { index < length tables.now }
    requires none_pending { HaveNonePendingBut indices.old.items tables.now }
    ensures none_pending { HaveNonePendingBut indices.new.items tables.now }
    ensures open { OnOk result (IsOpen indices.new.items index) }
{
    if indices.last() != Some(&index) {
        indices.push(index)?;
    }
    Ok(())
}
