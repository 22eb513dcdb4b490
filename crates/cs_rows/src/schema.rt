//! What a table declares: its columns, which of them are its key, and which refuse NULL.
ghost use Rattle.std.specs.Prelude.{◌≡◌, ◌≢◌, ◌<◌, ◌↔◌, ◌⊎◌, if◌then◌else◌, [], ◌∷◌, map, string_bytes};
ghost use Rattle.std.specs.Prelude.{IfOk, IfErr, IsTrue, AllPairs, false, get_or};
ghost use Rattle.std.specs.List.{AllByRecursion};
ghost use Rattle.cs_value.specs.Table.{IsFlags};
ghost use Rattle.cs_value.specs.State.{IsSchema, IsColumnName, AreRules, Obeys};
ghost use Rattle.cs_rows.specs.Editing.{either, schema_of};
ghost use Rattle.cs_rows.specs.declared.fault.StoreError.TheVariants.{BadSchema, NoMemory as OutOfMemory};

use crate::fault::StoreError;
use cs_value::{MAX_COLUMNS, MAX_CONTENT_LEN, NoMemory, OwnedValue, Row};
use std::alloc::{AllocError, Global};
use std::collections::BTreeSet;
use std::marker::Model;

/// The columns of a table: a name for each, a flag, which is 1 for those of the primary key and 0 for
/// the others, and a mark where it refuses NULL, as those of the key do.
#[derive(Debug, Drop)]
pub struct Schema {
    columns: Vec<String>,
    flags: Vec<u8>,
    refuses: Vec<bool>,
}

impl Model for Schema {
    ghost use Rattle.std.specs.Prelude.{map, string_bytes};
    ghost use Rattle.cs_value.specs.State.{SchemaData, IsSchema, schema_code};

    ghost Value = { SchemaData };

    ghost coded = { schema_code };

    ghost view = { λ s. record {
      columns = map string_bytes s.columns.items;
      flags = s.flags.items;
      refuses = s.refuses.items;
    } };

    ghost invariant = { λ s. IsSchema (record {
      columns = map string_bytes s.columns.items;
      flags = s.flags.items;
      refuses = s.refuses.items;
    }) };
}

impl Schema {
    /// Makes the schema of columns with these names; those marked in `keys` are the key, and those of
    /// the key and those marked in `refuses` refuse NULL.
    ///
    /// Refuses with `BadSchema` where they make none: there is no column or more than
    /// [`MAX_COLUMNS`], the three lists are not as long, no column is of the key, or a name is empty,
    /// repeated or longer than [`MAX_CONTENT_LEN`] bytes.
    pub fn new(
        alloc: Global,
        columns: &[String],
        keys: &[bool],
        refuses: &[bool],
    ) -> Result<Schema, StoreError>
        ensures made { IfOk result (λ s. s ≡ schema_of columns.now keys.now refuses.now) }
        ensures refused { IfErr result (λ e. ((e ≡ BadSchema)
            × (¬ IsSchema (schema_of columns.now keys.now refuses.now))) ⊎ (e ≡ OutOfMemory)) }
    {
        let names = copy_names(alloc, columns)?;
        let flags = key_flags(alloc, keys)?;
        let rules = rules_of(alloc, keys, refuses)?;
        Schema::from_parts(alloc, names, flags, rules)
    }

    /// Makes the schema of columns with these names, with a flag for each that is 1 for those of the primary key and
    /// 0 for the others, and a mark for each that refuses NULL.
    ///
    /// # Errors
    ///
    /// `BadSchema` as for [`new`](Schema::new), and where a flag is neither 0 nor 1 or a column of the key is not
    /// marked. `NoMemory` if out of memory.
    pub fn from_parts(
        alloc: Global,
        columns: Vec<String>,
        flags: Vec<u8>,
        refuses: Vec<bool>,
    ) -> Result<Schema, StoreError>
        ensures made { IfOk result (λ s. s ≡ record {
          columns = map string_bytes columns.items;
          flags = flags.items;
          refuses = refuses.items;
        }) }
        ensures well_formed { IfOk result IsSchema }
        ensures refused { IfErr result (λ e. ((e ≡ BadSchema) × (¬ IsSchema (record {
          columns = map string_bytes columns.items;
          flags = flags.items;
          refuses = refuses.items;
        }))) ⊎ (e ≡ OutOfMemory)) }
    {
        if columns.len() == flags.len()
            && are_flags(&flags)
            && are_rules(&flags, &refuses)
            && are_names(&columns)
            && are_apart(alloc, &columns)?
        {
            Ok(Schema {
                columns,
                flags,
                refuses,
            })
        } else {
            Err(StoreError::BadSchema)
        }
    }

    /// The names of the columns.
    pub fn columns(&self) -> &[String]
        ensures { map string_bytes result.now ≡ self.now.columns }
    {
        &self.columns
    }

    /// The flags, one for each column: 1 for those of the primary key, 0 for the others.
    pub fn flags(&self) -> &[u8]
        ensures same { result.now ≡ self.now.flags }
        ensures well_formed { IsSchema self.now }
    {
        &self.flags
    }

    /// Whether each column refuses NULL: those of the key do, and those that were declared so.
    pub fn refuses(&self) -> &[bool]
        ensures { result.now ≡ self.now.refuses }
    {
        &self.refuses
    }

    /// Whether the column at a place refuses NULL. Past the last column it is false.
    pub fn refuses_at(&self, column: usize) -> bool
        ensures { result ≡ get_or self.now.refuses column false }
    {
        is_marked(&self.refuses, column)
    }

    /// Whether a row has NULL in no column that refuses it.
    pub fn is_obeyed_by(&self, row: &Row) -> bool
        ensures { IsTrue result ↔ Obeys self.now.refuses row.now }
    {
        obeys(&self.refuses, row)
    }

    /// A copy of the schema.
    pub fn copy(&self, alloc: Global) -> Result<Schema, NoMemory>
        ensures { IfOk result (λ s. s ≡ self.now) }
    {
        Ok(Schema {
            columns: copy_names(alloc, &self.columns)?,
            flags: Vec::from_slice(alloc, &self.flags)?,
            refuses: Vec::from_slice(alloc, &self.refuses)?,
        })
    }
}

fn copy_names(alloc: Global, names: &[String]) -> Result<Vec<String>, NoMemory>
    ensures { IfOk result (λ copies. map string_bytes copies.items ≡ map string_bytes names.now) }
{
    let mut copies = Vec::new(alloc);
    for name in names {
        copies.push(String::from_str(alloc, name.as_str())?)?;
    }
    Ok(copies)
}

fn key_flags(alloc: Global, keys: &[bool]) -> Result<Vec<u8>, AllocError>
    ensures { IfOk result (λ flags. flags.items ≡ map (λ k. if k then 1 else 0) keys.now) }
{
    keys.iter().map(|key| u8::from(*key)).collect(alloc)
}

/// The marks of the columns that refuse NULL: those of the key, and those that are declared so.
fn rules_of(alloc: Global, keys: &[bool], refuses: &[bool]) -> Result<Vec<bool>, NoMemory>
    ensures { IfOk result (λ rules. rules.items ≡ either keys.now refuses.now) }
{
    let mut rules = Vec::new(alloc);
    for (column, declared) in refuses.iter().enumerate() {
        rules.push(is_marked(keys, column) || *declared)?;
    }
    Ok(rules)
}

/// Returns whether a column is marked. A column past the last mark is not.
fn is_marked(marks: &[bool], column: usize) -> bool
    ensures { result ≡ get_or marks.now column false }
{
    column < marks.len() && marks[column]
}

fn are_flags(flags: &[u8]) -> bool
    ensures { IsTrue result ↔ (IsFlags flags.now × AllByRecursion (λ flag. flag < 2) flags.now) }
{
    flags.len() <= MAX_COLUMNS && are_bits(flags) && flags.contains(&1)
}

fn are_bits(flags: &[u8]) -> bool
    ensures { IsTrue result ↔ AllByRecursion (λ flag. flag < 2) flags.now }
{
    flags.iter().all(|flag| *flag < 2)
}

/// Whether there is a mark for each flag, and it is set where the flag is.
fn are_rules(flags: &[u8], refuses: &[bool]) -> bool
    ensures { IsTrue result ↔ AreRules flags.now refuses.now }
{
    if flags.len() != refuses.len() {
        return false;
    }
    for (column, flag) in flags.iter().enumerate() {
        if !is_rule(*flag, refuses[column]) {
            return false;
        }
    }
    true
}

fn is_rule(flag: u8, refuses: bool) -> bool
    ensures { IsTrue result ↔ AreRules (flag ∷ []) (refuses ∷ []) }
{
    flag == 0 || refuses
}

fn are_names(columns: &[String]) -> bool
    ensures { IsTrue result ↔ AllByRecursion IsColumnName (map string_bytes columns.now) }
{
    for column in columns {
        if !is_name(column.as_str()) {
            return false;
        }
    }
    true
}

fn is_name(name: &str) -> bool
    ensures { IsTrue result ↔ IsColumnName name.now }
{
    !name.is_empty() && name.len() <= MAX_CONTENT_LEN
}

/// Whether no name is repeated.
fn are_apart(alloc: Global, columns: &[String]) -> Result<bool, AllocError>
    ensures { IfOk result (λ apart. IsTrue apart ↔ AllPairs ◌≢◌ (map string_bytes columns.now)) }
{
    let mut names = BTreeSet::new(alloc);
    for column in columns {
        if !names.insert(column.as_str())? {
            return Ok(false);
        }
    }
    Ok(true)
}

/// Whether the row has NULL in no column that refuses it.
fn obeys(refuses: &[bool], row: &Row) -> bool
    ensures { IsTrue result ↔ Obeys refuses.now row.now }
{
    for (column, value) in row.values().iter().enumerate() {
        if !may_stand(is_marked(refuses, column), value) {
            return false;
        }
    }
    true
}

fn may_stand(refuses: bool, value: &OwnedValue) -> bool
    ensures { IsTrue result ↔ Obeys (refuses ∷ []) (value.now ∷ []) }
{
    !refuses || !matches!(value, OwnedValue::Null)
}
