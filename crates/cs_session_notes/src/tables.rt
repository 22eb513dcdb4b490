//! The tables that are attached to a session, each found by its name.
ghost use Rattle.std.specs.Prelude.{◌≡◌, ◌⊎◌, if◌then◌else◌, [], ◌∷◌, ◌++◌, map, option_map, IfSome, IfNone, IfOk, OnOk, OnErr, IfErr};
ghost use Rattle.std.specs.List.{AllByRecursion};
ghost use Rattle.std.specs.Rc.{rc_str_bytes};
ghost use Rattle.cs_rows.specs.Editing.{written_of};
ghost use Rattle.cs_session_notes.specs.declared.fault.SessionFault.TheVariants.{NoMemory as OutOfMemory};
ghost use Rattle.cs_session_notes.specs.Attaching.{IsNewTable};
ghost use Rattle.cs_session_notes.specs.FirstImages.{AttachedTable, recorded};
ghost use Rattle.cs_session_notes.specs.Merging.{all_noted, unwritten};
ghost use Rattle.cs_session_notes.specs.Noting.{AreFormers, AreApart, IsDamage};
ghost use Rattle.cs_session_notes.specs.Views.{attached_of, kept_of, IsNewAt, IsIndexOf, HasNonePending};

use crate::attached::{Attached, cut_back_at, is_noted, keep_at, note_write, open_at};
use crate::fault::SessionFault;
use crate::first_images::FirstImages;
use crate::writes::noted_writes;
use cs_rows::{Schema, Written};
use cs_value::{NoMemory, Row};
use indexmap::IndexSet;
use std::alloc::Global;
use std::marker::Model;

/// The tables that are attached, in the order in which they were attached.
#[derive(Debug, Drop)]
pub struct AttachedTables {
    tables: Vec<Attached>,
    // The name of each, at its index.
    names: IndexSet<String>,
    // The indices of those in which the last call may have noted something.
    noted: Vec<usize>,
}

impl Model for AttachedTables {
    ghost use Rattle.std.specs.Prelude.{◌≡◌, List, map, string_bytes};
    ghost use Rattle.cs_session_notes.specs.declared.attached.Attached.{Attached};
    ghost use Rattle.cs_session_notes.specs.Views.{name_in, HaveNonePendingBut};

    ghost Value = { List Attached };

    ghost view = { λ t. t.tables.items };

    ghost invariant = { λ t. (map string_bytes t.names.keys ≡ map name_in t.tables.items)
        × HaveNonePendingBut t.noted.items t.tables.items };
}

impl AttachedTables {
    /// No table is attached.
    pub fn new(alloc: Global) -> AttachedTables
        ensures { result ≡ [] }
    {
        AttachedTables {
            tables: Vec::new(alloc),
            names: IndexSet::new(alloc),
            noted: Vec::new(alloc),
        }
    }

    /// The tables, in the order in which they were attached.
    pub fn as_slice(&self) -> &[Attached]
        ensures { result.now ≡ self.now }
    {
        &self.tables
    }

    /// The index of the table with this name, if one has it.
    pub fn index_of(&self, name: &str) -> Option<usize>
        ensures found { IfSome result (IsIndexOf self.now name.now) }
        ensures none { IfNone result (IsNewTable (map attached_of self.now) name.now) }
    {
        self.names.get_index_of(name)
    }

    /// Attaches a table that is not attached, after the others. [`NoMemory`] changes nothing.
    pub fn push(&mut self, alloc: Global, name: &str, schema: Schema) -> Result<(), NoMemory>
        requires { IsNewTable (map attached_of self.old) name.now }
        ensures pushed { OnOk result (map attached_of self.new ≡ map attached_of self.old
            ++ (let t : AttachedTable = record { name = name.now; schema = schema; firsts = [] } in t) ∷ []) }
        ensures none_pending { AllByRecursion HasNonePending self.old → AllByRecursion HasNonePending self.new }
        ensures same { OnErr result (self.new ≡ self.old) }
    {
        let key = String::from_str(alloc, name)?;
        let name = String::from_str(alloc, name)?;
        let firsts = FirstImages::new(alloc);
        self.tables.reserve(1)?;
        self.names.insert(key)?;
        self.tables.push(Attached {
            name,
            schema,
            firsts,
        })?;
        Ok(())
    }

    /// Returns tables with the names and schemas of these, to which nothing was written.
    pub fn unwritten(alloc: Global, tables: &[Attached]) -> Result<AttachedTables, NoMemory>
        requires { AreApart (map attached_of tables.now) }
        ensures same { IfOk result (λ copy. map attached_of copy ≡ map unwritten (map attached_of tables.now)) }
        ensures none_pending { IfOk result (λ copy. AllByRecursion HasNonePending copy) }
    {
        let mut copy = AttachedTables::new(alloc);
        for table in tables {
            copy.push(alloc, table.name.as_str(), table.schema.copy(alloc)?)?;
        }
        Ok(copy)
    }

    /// Notes the keys that other tables note, with their first rows, each in the table of its name, if there is one.
    ///
    /// # Errors
    ///
    /// Those of [`note_all`](AttachedTables::note_all).
    pub fn note_tables(&mut self, alloc: Global, others: &[Attached]) -> Result<(), SessionFault>
        requires { AreApart (map attached_of self.old) }
        ensures noted { OnOk result (map attached_of self.new
            ≡ recorded (map attached_of self.old) (all_noted (map attached_of others.now))) }
        ensures formers { OnOk result (AreFormers (map attached_of self.old) (all_noted (map attached_of others.now))) }
        ensures kept { map kept_of self.new ≡ map kept_of self.old }
        ensures refused { IfErr result (λ e. (e ≡ OutOfMemory)
            ⊎ (IsDamage e × ¬ AreFormers (map attached_of self.old) (all_noted (map attached_of others.now)))) }
    {
        let writes = noted_writes(alloc, others)?;
        self.note_all(alloc, &writes)
    }

    /// Notes copies of the keys that were written and of the rows before, each in its table.
    ///
    /// # Errors
    ///
    /// `NoMemory` if out of memory, and [`DamagedStore`](cs_rows::StoreError::DamagedStore) for a former row that
    /// does not fit its table. What earlier calls noted stays.
    pub fn note_all(&mut self, alloc: Global, written: &[Written]) -> Result<(), SessionFault>
        requires { AreApart (map attached_of self.old) }
        ensures noted { OnOk result (map attached_of self.new
            ≡ recorded (map attached_of self.old) (map written_of written.now)) }
        ensures formers { OnOk result (AreFormers (map attached_of self.old) (map written_of written.now)) }
        ensures kept { map kept_of self.new ≡ map kept_of self.old }
        ensures refused { IfErr result (λ e. (e ≡ OutOfMemory)
            ⊎ (IsDamage e × ¬ AreFormers (map attached_of self.old) (map written_of written.now))) }
    {
        for one in written {
            let Some(index) = self.index_for(alloc, one)? else {
                continue;
            };
            self.note_at(index, copy_of(alloc, one)?)?;
        }
        Ok(())
    }

    /// Where a key that was written is to be noted: at the index of its table, and nowhere where the table is not
    /// attached, or the key is noted already. Refuses as [`note_all`](AttachedTables::note_all) does.
    fn index_for(&self, alloc: Global, one: &Written) -> Result<Option<usize>, SessionFault>
        requires { AreApart (map attached_of self.now) }
        ensures index { IfOk result (λ to. IfSome to (IsIndexOf self.now (rc_str_bytes one.now.table))) }
        ensures new { IfOk result (λ to. IfSome to (IsNewAt self.now one.now.key)) }
        ensures nowhere { IfOk result (λ to. IfNone to (map attached_of self.now
            ≡ recorded (map attached_of self.now) (written_of one.now ∷ []))) }
        ensures formers { OnOk result (AreFormers (map attached_of self.now) (written_of one.now ∷ [])) }
        ensures refused { IfErr result (λ e. (e ≡ OutOfMemory)
            ⊎ (IsDamage e × ¬ AreFormers (map attached_of self.now) (written_of one.now ∷ []))) }
    {
        let Some(index) = self.index_of(one.table.as_str()) else {
            return Ok(None);
        };
        let was_noted = is_noted(alloc, &self.tables[index], &one.key, one.former.as_ref())?;
        if was_noted {
            return Ok(None);
        }
        Ok(Some(index))
    }

    /// Notes a key that was not written before in its table, at this index.
    fn note_at(&mut self, index: usize, one: Written) -> Result<(), NoMemory>
        requires apart { AreApart (map attached_of self.old) }
        requires index { IsIndexOf self.old (rc_str_bytes one.table) index }
        requires new { IsNewAt self.old one.key index }
        ensures noted { OnOk result (map attached_of self.new
            ≡ recorded (map attached_of self.old) (written_of one ∷ [])) }
        ensures kept { map kept_of self.new ≡ map kept_of self.old }
    {
        open_at(&self.tables, &mut self.noted, index)?;
        note_write(&mut self.tables[index], one.key, one.former)
    }

    /// Ends a call: keeps what was noted since the call before if `accepted` is true, and forgets it otherwise.
    pub fn settle(&mut self, accepted: bool)
        ensures settled { map attached_of self.new
            ≡ (if accepted then map attached_of self.old else map kept_of self.old) }
        ensures none_pending { AllByRecursion HasNonePending self.new }
    {
        if accepted {
            self.keep();
        } else {
            self.cut_back();
        }
    }

    /// Keeps what the last call noted.
    fn keep(&mut self)
        ensures kept { map attached_of self.new ≡ map attached_of self.old }
        ensures none_pending { AllByRecursion HasNonePending self.new }
    {
        keep_at(&mut self.tables, &self.noted);
        self.noted.clear();
    }

    /// Forgets what the last call noted.
    fn cut_back(&mut self)
        ensures kept { map attached_of self.new ≡ map kept_of self.old }
        ensures none_pending { AllByRecursion HasNonePending self.new }
    {
        cut_back_at(&mut self.tables, &self.noted);
        self.noted.clear();
    }
}

/// A copy of a write, which shares the table's name.
fn copy_of(alloc: Global, one: &Written) -> Result<Written, NoMemory>
    ensures { IfOk result (λ copy. written_of copy ≡ written_of one.now) }
{
    Ok(Written {
        table: one.table.clone()?,
        key: one.key.copy(alloc)?,
        former: copy_of_row(alloc, one.former.as_ref())?,
    })
}

/// A copy of a row, if there is one.
pub(crate) fn copy_of_row(alloc: Global, row: Option<&Row>) -> Result<Option<Row>, NoMemory>
    ensures { IfOk result (λ copy. copy ≡ option_map (λ r. r.now) row.entry) }
{
    match row {
        None => Ok(None),
        Some(row) => Ok(Some(row.copy(alloc)?)),
    }
}
